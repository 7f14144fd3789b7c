// The limit of sites alone.
ghost use Rattle.std.specs.Prelude.{IfOk, MatchBool};
ghost use Rattle.changed_rules.specs.Counts.{HaveFewSites};
ghost use Rattle.changed_rules.specs.inner.Parts.{AreFew, Adds, Exceeds};
ghost use Rattle.changed_rules.specs.declared.counted.Counted.TheVariants.{SiteOwners};

use crate::counted::{Counted, enter_object};
use crate::tally::Tally;
use object_store::{RoomTable, World};
use std::alloc::{AllocError as NoMemory, Global};

/// Whether nobody owns more sites in the world than a player may have.
///
/// It takes one pass over the objects, and memory for the owners of sites.
pub fn has_few_sites(alloc: Global, world: &World) -> Result<bool, NoMemory>
    ensures { IfOk result (λ few. MatchBool few (HaveFewSites world.now.rooms)
        (HaveFewSites world.now.rooms → ⊥)) }
{
    let rooms = world.room_list();
    let mut owners = Tally::new(alloc);
    for room in rooms {
        if !enter_sites(&room.table, &mut owners)? {
            return Ok(false);
        }
    }
    Ok(true)
}

// Adds the sites of a room to a tally, where nobody then has more than he may have.
fn enter_sites(table: &RoomTable, owners: &mut Tally) -> Result<bool, NoMemory>
    requires { AreFew SiteOwners owners.old }
    ensures { IfOk result (λ fits. MatchBool fits (Adds SiteOwners table.now.objects owners.old owners.new)
        (Exceeds SiteOwners table.now.objects owners.old)) }
{
    for object in table.objects() {
        if !enter_object(Counted::SiteOwners, object, owners)? {
            return Ok(false);
        }
    }
    Ok(true)
}
