// What a journal begins with, by the content of its first frame.
ghost use Rattle.std.specs.Prelude.{◌≡◌, IfOk, IfErr};
ghost use Rattle.object_store.specs.Stored.{Stored};
ghost use Rattle.tick_journal.specs.BaseForms.{SpellsBase};
ghost use Rattle.world_journal.specs.Journals.{KeepsRules};

use object_store::World;
use rule_check::keeps_rules;
use std::alloc::Global;
use tick_journal::{BytesFault, read_base_form};

/// The world that the content of a journal's first frame spells, where it keeps the rules of a world.
///
/// `Malformed` is the answer to a content that spells no world, and to one of a world that breaks a rule.
pub fn read_base(alloc: Global, content: &[u8]) -> Result<World, BytesFault>
    ensures found { IfOk result (λ world. SpellsBase content.now world × KeepsRules world) }
    ensures malformed { IfErr result (λ e. e ≡ BytesFault.Malformed
        → (world : Stored) → SpellsBase content.now world → KeepsRules world → ⊥) }
{
    let world = read_base_form(alloc, content)?;
    if keeps_rules(alloc, &world)? {
        Ok(world)
    } else {
        Err(BytesFault::Malformed)
    }
}
