// The first rule that is broken.
ghost use Rattle.std.specs.Prelude.{◌≡◌, ◌<◌, ◌^◌, ℕ, length, IfOk, IfSome, IfNone};
ghost use Rattle.std.specs.List.{AllByRecursion};
ghost use Rattle.world_rules.specs.Rules.{Broken, IsFirstBroken, KeepsRules};
ghost use Rattle.rule_check.specs.inner.Checks.{IsLeast, IsPastIds};
ghost use Rattle.rule_check.specs.Views.{viewed, IsOrdered};

use crate::counts::{are_within_counts, least_crowded};
use crate::ids::{GivenIds, ids_of, least_repeated};
use crate::objects::least_object;
use crate::players::{PlayersHold, players_of};
use crate::ranges::KindsRanges;
use crate::rooms::{NamesOnce, OneController, WallCorners, first_room};
use crate::shared::least_blocked;
use crate::tiles::TilesForKinds;
use crate::view::RoomView;
use object_store::Account;
use std::alloc::{AllocError, Global};
use world_rules::Rule;

/// The order of the tests.
pub(crate) const ORDER: [Rule; 12] = [
    Rule::Counts,
    Rule::RoomTwice,
    Rule::Corner,
    Rule::Serial,
    Rule::IdTwice,
    Rule::Tile,
    Rule::Shared,
    Rule::Owner,
    Rule::Controllers,
    Rule::Range,
    Rule::PlayerTwice,
    Rule::Sites,
];

/// The first rule that the rooms and accounts break, and the least number at which it is broken: the
/// index of a room, the id of an object, a player, or 0 for the counts. It is nothing where they
/// keep all rules.
///
/// It takes memory for the ids and the players, which are sorted, for the tiles of one room, and for
/// the owners of sites.
pub fn first_broken(
    alloc: Global,
    rooms: &[RoomView],
    accounts: &[Account],
) -> Result<Option<(Rule, u64)>, AllocError>
    requires ordered { AllByRecursion IsOrdered rooms.now }
    requires rooms { length rooms.now < 2 ^ 32 }
    requires accounts { length accounts.now < 2 ^ 32 }
    ensures broken { IfOk result
        (λ found. IfSome found (λ broken. (tick : ℕ)
        → IsFirstBroken broken.0 broken.1 (viewed rooms.now accounts.now tick))) }
    ensures kept { IfOk result
        (λ found. IfNone found ((tick : ℕ) → KeepsRules (viewed rooms.now accounts.now tick))) }
{
    for rule in ORDER {
        if let Some(number) = least_broken(alloc, rule, rooms, accounts)? {
            return Ok(Some((rule, number)));
        }
    }
    Ok(None)
}

/// The least number at which this rule is broken, where no id is there twice if that is tested before.
pub(crate) fn least_broken(
    alloc: Global,
    rule: Rule,
    rooms: &[RoomView],
    accounts: &[Account],
) -> Result<Option<u64>, AllocError>
    requires ordered { AllByRecursion IsOrdered rooms.now }
    requires once { IsPastIds rule (viewed rooms.now accounts.now 0) }
    ensures { IfOk result (λ found. IsLeast (λ n. Broken rule n (viewed rooms.now accounts.now 0)) found) }
{
    match rule {
        Rule::Counts => Ok(broken_counts(rooms, accounts)),
        Rule::RoomTwice => Ok(first_room(&NamesOnce { rooms }, rooms)),
        Rule::Corner => Ok(first_room(&WallCorners, rooms)),
        Rule::Serial => Ok(least_object(&GivenIds { rooms }, rooms)),
        Rule::IdTwice => Ok(least_repeated(ids_of(alloc, rooms)?)),
        Rule::Tile => Ok(least_object(&TilesForKinds, rooms)),
        Rule::Shared => least_blocked(alloc, rooms),
        Rule::Owner => Ok(least_object(&PlayersHold { accounts }, rooms)),
        Rule::Controllers => Ok(first_room(&OneController, rooms)),
        Rule::Range => Ok(least_object(&KindsRanges, rooms)),
        Rule::PlayerTwice => Ok(least_repeated(players_of(alloc, accounts)?)),
        Rule::Sites => least_crowded(alloc, rooms, accounts),
    }
}

// The number of the counts, where there are too few or too many.
fn broken_counts(rooms: &[RoomView], accounts: &[Account]) -> Option<u64>
    ensures { IsLeast (λ n. Broken Rule.Counts n (viewed rooms.now accounts.now 0)) result }
{
    if are_within_counts(rooms, accounts) {
        None
    } else {
        Some(0)
    }
}
