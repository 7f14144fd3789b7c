// Laws of the contents.
ghost use Rattle.std.specs.Prelude.{◌≡◌, ℕ, List};
ghost use Rattle.object_store.specs.Stored.{Stored};
ghost use Rattle.tick_journal.specs.BaseForms.{HasBaseForm, SpellsBase, world_as_read};
ghost use Rattle.tick_journal.specs.Contents.{base_content, tick_content};
ghost use Rattle.tick_journal.specs.TickForms.{HasTickForm, SpellsTick, tick_as_read};
ghost use Rattle.tick_journal.specs.declared.tick_record.TickRecord.{TickRecord};

/// Says that bytes are the base content of one world at most, that what is written of a world that has
/// the form spells it, and that a world with room for more objects is written as the one that is then
/// read. It does nothing when it runs.
pub fn bases_are_one()
    ensures one { (bytes : List ℕ) (one other : Stored) → SpellsBase bytes one → SpellsBase bytes other
        → one ≡ other }
    ensures written { (world : Stored) → HasBaseForm world → SpellsBase (base_content world) world }
    ensures as_read { (world : Stored) → HasBaseForm (world_as_read world)
        → SpellsBase (base_content world) (world_as_read world) }
{}

/// Says that bytes are the content of one record at most, and that what is written of a record that has
/// a form spells this record, as it is read. It does nothing when it runs.
pub fn tick_contents_are_one()
    ensures one { (bytes : List ℕ) (one other : TickRecord) → SpellsTick bytes one → SpellsTick bytes other
        → one ≡ other }
    ensures written { (entry : TickRecord) → HasTickForm entry
        → SpellsTick (tick_content entry) (tick_as_read entry) }
{}
