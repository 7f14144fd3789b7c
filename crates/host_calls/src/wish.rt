// What the calls of creeps want, and what their checks read.
ghost use Rattle.std.specs.Prelude.{◌≡◌, [], option_map};
ghost use Rattle.std.specs.Option.{unwrap_or};
ghost use Rattle.world_rules.specs.World.{shown};
ghost use Rattle.world_rules.specs.Checks.{least_of};
ghost use Rattle.action_checks.specs.Scenes.{scene_view};
ghost use Rattle.host_calls.specs.Replies.{amount_of, objects_around, scene_seen, wish_of};

use crate::number::{id_of, index_32};
use crate::seen::standing;
use action_checks::Scene;
use game_tables::{Action, Body};
use intent_book::Intent;
use object_store::{RoomTable, Standing};
use visible_view::View;

/// What a creep is to do. Without an amount it is 0.
pub fn wish_of(action: Action, player: u32, id: i64, target: i64, amount: i64) -> Intent
    ensures { result ≡ wish_of action player id target amount }
{
    Intent {
        player,
        action,
        actor: id_of(id).unwrap_or(0),
        target: id_of(target).unwrap_or(0),
        amount: index_32(amount).map_or(0, u64::from),
        body: Body::new(),
    }
}

/// What its checks read of what its player sees.
pub fn scene_seen<'v>(view: &'v View, id: i64, target: i64, amount: i64) -> Scene<'v>
    ensures { scene_view result ≡ scene_seen view.now id target amount }
{
    let actor = standing(view, id);
    let around = table_around(view, actor);
    scene_of(
        view.account().player,
        actor,
        standing(view, target),
        around,
        amount,
    )
}

/// What the checks read of an actor, of a target and of what is around, with the amount of an argument.
pub fn scene_of<'v>(
    player: u32,
    actor: Option<Standing<'v>>,
    target: Option<Standing<'v>>,
    around: Option<&'v RoomTable>,
    amount: i64,
) -> Scene<'v>
    ensures { scene_view result ≡ record {
      player = player;
      actor = option_map shown actor.entry;
      target = option_map shown target.entry;
      around = unwrap_or (option_map (λ table. table.now.objects) around.entry) [];
      amount = amount_of amount;
      least = least_of (amount_of amount);
      claims = 0;
      level = 1;
    } }
{
    let amount = index_32(amount).map(u64::from);
    Scene {
        player,
        actor,
        target,
        around,
        amount,
        least: amount.unwrap_or(0).max(1),
        claims: 0,
        level: 1,
    }
}

// The table of the room in which an object stands that is seen.
fn table_around<'v>(view: &'v View, placed: Option<Standing>) -> Option<&'v RoomTable>
    ensures { unwrap_or (option_map (λ table. table.now.objects) result) []
        ≡ objects_around view.now (option_map shown placed.entry) }
{
    view.table(placed?.room)
}
