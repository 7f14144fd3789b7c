// What holds of the bytes of journals.
ghost use Rattle.std.specs.Prelude.{◌≡◌, ℕ, List};
ghost use Rattle.frame_log.specs.Frames.{IsEmpty};
ghost use Rattle.object_store.specs.Stored.{Stored};
ghost use Rattle.tick_journal.specs.declared.tick_record.TickRecord.{TickRecord};
ghost use Rattle.world_journal.specs.Faults.{FailsAt};
ghost use Rattle.world_journal.specs.Journals.{IsJournal};

/// The bytes of a journal stand for one world and one list of records; they are not empty, and fail nowhere.
/// The function does nothing.
pub fn bytes_stand_for_one_journal()
    ensures one { (bytes : List ℕ) (base other : Stored) (entries others : List TickRecord)
        → IsJournal base entries bytes → IsJournal other others bytes → (base ≡ other) × (entries ≡ others) }
    ensures some { (bytes : List ℕ) (base : Stored) (entries : List TickRecord) → IsJournal base entries bytes
        → IsEmpty bytes → ⊥ }
    ensures whole { (bytes : List ℕ) (base : Stored) (entries : List TickRecord) (at : ℕ)
        → IsJournal base entries bytes → FailsAt at bytes → ⊥ }
{}
