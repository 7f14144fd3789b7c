// All objects of a world, as a view holds them, and places among them.
ghost use Rattle.std.specs.Prelude.{◌≡◌, ◌<◌, ◌≤◌, length, map, slice_get, option_map};
ghost use Rattle.std.specs.FinMap.{entries};
ghost use Rattle.std.specs.List.Sorted.{IsPartitionPoint};
ghost use Rattle.room_table.proofs.Rising.{Rises};
ghost use Rattle.world_rules.specs.World.{shown};
ghost use Rattle.world_roster.specs.Rosters.{id_in, shown_entry};
ghost use Rattle.visible_view.specs.inner.Places.{all_of, id_at, objects_of};

use object_store::Standing;
use world_roster::Roster;

/// All objects of a world in rising id: listed for one view, or once for all views of a tick.
#[derive(Drop)]
pub enum Listed<'a> {
    Own(Roster<'a>),
    Lent(&'a Roster<'a>),
}

impl<'a> Listed<'a> {
    /// The objects, each at its place.
    pub fn list(&self) -> &[Standing<'a>]
        ensures entries { map shown_entry result.now ≡ entries (objects_of self.now) }
        ensures all { map shown result.now ≡ all_of self.now }
        ensures rising { Rises id_in result.now }
    {
        match self {
            Listed::Own(roster) => roster.list(),
            Listed::Lent(roster) => roster.list(),
        }
    }
}

/// The object at a place.
pub fn standing_at<'a>(list: &[Standing<'a>], place: u32) -> Option<Standing<'a>>
    ensures { option_map (λ standing. shown standing) result ≡ slice_get (map shown list.now) place }
{
    list.get(place as usize).copied()
}

/// Where the place of an id stands among places whose ids rise, or where it would.
pub fn position_of(list: &[Standing], places: &[u32], id: u64) -> usize
    requires { Rises (id_at (map shown list.now)) places.now }
    ensures within { result ≤ length places.now }
    ensures between { IsPartitionPoint (λ place. id_at (map shown list.now) place < id)
        (λ place. id ≤ id_at (map shown list.now) place) places.now result }
{
    places.partition_point(|place| id_of(list, *place) < id)
}

// The id of the object at a place.
fn id_of(list: &[Standing], place: u32) -> u64
    ensures { result ≡ id_at (map shown list.now) place }
{
    match list.get(place as usize) {
        Some(standing) => standing.object.id,
        None => 0,
    }
}
