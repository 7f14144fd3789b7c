// What is held for creeps.
ghost use Rattle.std.specs.Prelude.{◌≡◌, min};
ghost use Rattle.world_rules.specs.Spawns.{held_by, holds_for_creeps};

use game_tables::Kind;
use object_store::Objects;

/// What the spawns and extensions of an owner among these objects hold together, or `most` where that is
/// less. It looks at each object once.
pub fn held_by(objects: Objects<'_>, owner: u32, most: u64) -> u64
    ensures { result ≡ min most (held_by owner objects.entry) }
{
    let mut sum = 0;
    for object in objects {
        if holds_for_creeps(object.kind) && object.owner == owner {
            sum = object.energy.saturating_add(sum).min(most);
        }
    }
    sum
}

// Whether spawns make creeps of what objects of a kind hold.
fn holds_for_creeps(kind: Kind) -> bool
    ensures { result ≡ holds_for_creeps kind }
{
    matches!(kind, Kind::Spawn | Kind::Extension)
}
