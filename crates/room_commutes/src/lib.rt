// Laws of the frame of a tick, whatever the rules are: rooms commute, so that what a tick makes of a
// room depends on that room alone; which entries count, and in which order; when it is read what they
// do to objects; which creeps move; and what steps and crossings keep.
#![tactic(auto)]

mod counting;
mod crossing;
mod entry_order;
mod game;
mod harms;
mod moving;
mod steps;

ghost use Rattle.std.specs.Prelude.{◌≡◌, ℕ, List, map, Some};
ghost use Rattle.std.specs.FinMap.{get};
ghost use Rattle.intent_book.specs.declared.intent.Intent.{Intent};
ghost use Rattle.world_rules.specs.World.{Frame, World};
ghost use Rattle.world_rules.specs.RoomParts.{part_of, part_at};
ghost use Rattle.world_rules.specs.RuleBook.{RuleBook, IsOrderly};
ghost use Rattle.world_rules.specs.Tick.{inner, ruled, gained, gains_in};
ghost use Rattle.world_rules.specs.RoomTick.{room_tick};
ghost use Rattle.room_commutes.specs.Serials.{AreSerialsUsed};
ghost use Rattle.world_rules.specs.Seen.{seen};
ghost use Rattle.room_commutes.specs.Schedules.{alone_course, Event, IsFull, HasRooms, after, summed};

pub use counting::entries_that_count;
pub use crossing::crossings_keep;
pub use entry_order::entries_in_order;
pub use game::{game_commutes, game_harms_as_it_runs};
pub use harms::{harms_as_they_run, sums_in_any_order};
pub use moving::{creeps_stay_apart, movers_are_greatest};
pub use steps::each_by_itself;

/// Says that rooms commute, by any book of rules that stay in the room of an entry's actor and in any
/// world whose rooms have used up the serials of the objects that stand. It does nothing when it runs.
pub fn rooms_commute()
    // What happens inside a room is what happens in the world that has it alone, with its entries.
    ensures parts { (book : RuleBook) (world : World) (list : List Intent) (room : ℕ) → IsOrderly book
        → AreSerialsUsed world
        → part_at (inner book world list).world room
        ≡ part_at (alone_course book world list room).world room }
    ensures rooms { (book : RuleBook) (world : World) (list : List Intent) (room : ℕ) → IsOrderly book
        → AreSerialsUsed world
        → seen (inner book world list).world room ≡ seen (alone_course book world list room).world room }
    ensures gains { (book : RuleBook) (world : World) (list : List Intent) (room : ℕ) → IsOrderly book
        → AreSerialsUsed world
        → gains_in room (inner book world list).gains ≡ (alone_course book world list room).gains }

    // A room's part after it, and what each of its entries gains, are told by its part and the list alone.
    ensures itself { (book : RuleBook) (world : World) (list : List Intent) (room : ℕ) (frame : Frame)
        → IsOrderly book → AreSerialsUsed world → get world.rooms room ≡ Some frame
        → part_at (inner book world list).world room
        ≡ Some (room_tick book list (part_of world room frame)).part }
    ensures earned { (book : RuleBook) (world : World) (list : List Intent) (room : ℕ) (frame : Frame)
        → IsOrderly book → AreSerialsUsed world → get world.rooms room ≡ Some frame
        → map (λ gain. (gain.player, gain.points)) (gains_in room (inner book world list).gains)
        ≡ (room_tick book list (part_of world room frame)).points }

    // Every full schedule of the rooms gives the ruled tick, and the points of each player.
    ensures schedules { (book : RuleBook) (crossed : World → World) (world : World) (list : List Intent)
        (events : List Event) (n : ℕ) → IsOrderly book → AreSerialsUsed world → HasRooms world n
        → IsFull events n → after book crossed world list events ≡ ruled book crossed world list }
    ensures points { (book : RuleBook) (world : World) (list : List Intent) (player : ℕ) → IsOrderly book
        → AreSerialsUsed world → summed book world list player ≡ gained book world list player }

    // The tick and the accounts are not looked at: worlds with equal rules, rooms and objects come to
    // equal rooms, objects and gains.
    ensures frames { (book : RuleBook) (one : World) (other : World) (list : List Intent)
        → one.rules ≡ other.rules → one.rooms ≡ other.rooms → one.objects ≡ other.objects
        → (inner book other list).world.rooms ≡ (inner book one list).world.rooms }
    ensures objects { (book : RuleBook) (one : World) (other : World) (list : List Intent)
        → one.rules ≡ other.rules → one.rooms ≡ other.rooms → one.objects ≡ other.objects
        → (inner book other list).world.objects ≡ (inner book one list).world.objects }
    ensures same_gains { (book : RuleBook) (one : World) (other : World) (list : List Intent)
        → one.rules ≡ other.rules → one.rooms ≡ other.rooms → one.objects ≡ other.objects
        → (inner book other list).gains ≡ (inner book one list).gains }
{}
