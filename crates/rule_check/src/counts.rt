// Rules of how many there may be.
ghost use Rattle.std.specs.Prelude.{◌≡◌, ◌≤◌, ◌<◌, ◌==◌, ◌++◌, ◌∷◌, [], ℕ, cond, MatchBool, IfOk, OnOk};
ghost use Rattle.std.specs.Prelude.{length, count_by, sum_by};
ghost use Rattle.game_tables.specs.Limits.{most_sites};
ghost use Rattle.game_tables.specs.Kinds.{is_site};
ghost use Rattle.rule_check.specs.inner.Checks.{IsLeast, AnyOf, AreWithinCounts, owners_in, site_owners_of};

use crate::least::lesser;
use crate::view::RoomView;
use game_tables::{is_site, most_objects, most_players, most_rooms, most_sites};
use object_store::{Account, Object};
use std::alloc::{AllocError, Global};

/// Whether there is a room, and no more rooms, objects and players than may be.
pub fn are_within_counts(rooms: &[RoomView], accounts: &[Account]) -> bool
    ensures { MatchBool result (AreWithinCounts rooms.now accounts.now)
        (AreWithinCounts rooms.now accounts.now → ⊥) }
{
    rooms.len() >= 1
        && rooms.len() <= most_rooms() as usize
        && accounts.len() <= most_players() as usize
        && !has_more_objects(rooms, most_objects() as usize)
}

// Whether there are more objects in all rooms than `most`.
fn has_more_objects(rooms: &[RoomView], most: usize) -> bool
    ensures { MatchBool result (most < sum_by (λ room. length room.objects.now) rooms.now)
        (sum_by (λ room. length room.objects.now) rooms.now ≤ most) }
{
    let mut left = most;
    for room in rooms {
        let here = room.objects.len();
        if here > left {
            return true;
        }
        left -= here;
    }
    false
}

/// The least player with more sites than he may have.
pub fn least_crowded(
    alloc: Global,
    rooms: &[RoomView],
    accounts: &[Account],
) -> Result<Option<u64>, AllocError>
    ensures { IfOk result
        (λ found. IsLeast
        (AnyOf (λ account n. (account.player ≡ n)
        × (most_sites < count_by (λ owner. owner == n) (owners_in rooms.now))) accounts.now) found) }
{
    let owners = site_owners(alloc, rooms)?;
    let mut least = None;
    for account in accounts {
        least = lesser(least, if_crowded(&owners, account.player));
    }
    Ok(least)
}

// The player, where he owns more sites than he may have.
fn if_crowded(owners: &[u32], player: u32) -> Option<u64>
    ensures { IsLeast (λ n. (player ≡ n) × (most_sites < count_by (λ owner. owner == n) owners.now)) result }
{
    let sites = owners.iter().filter(|owner| **owner == player).count();
    if sites > most_sites() as usize {
        Some(player as u64)
    } else {
        None
    }
}

// The owners of all sites, room by room.
fn site_owners(alloc: Global, rooms: &[RoomView]) -> Result<Vec<u32>, AllocError>
    ensures { IfOk result (λ owners. owners.items ≡ owners_in rooms.now) }
{
    let mut owners = Vec::new(alloc);
    for room in rooms {
        list_owners(room.objects, &mut owners)?;
    }
    Ok(owners)
}

// Adds the owners of a room's sites.
fn list_owners(objects: &[Object], owners: &mut Vec<u32>) -> Result<(), AllocError>
    ensures { OnOk result (owners.new.items ≡ owners.old.items ++ site_owners_of objects.now) }
{
    for object in objects {
        list_owner(object, owners)?;
    }
    Ok(())
}

// Adds the object's owner, where it is a site.
fn list_owner(object: &Object, owners: &mut Vec<u32>) -> Result<(), AllocError>
    ensures { OnOk result
        (owners.new.items ≡ owners.old.items ++ cond (is_site object.now.kind) (object.now.owner ∷ []) []) }
{
    if is_site(object.kind) {
        owners.push(object.owner)?;
    }
    Ok(())
}
