// The checks of an action.
ghost use Rattle.std.specs.Prelude.{◌≡◌, ◌==◌, [], ◌∷◌, option_map, Some, not};
ghost use Rattle.std.specs.Option.{unwrap_or};
ghost use Rattle.room_table.specs.Controllers.{is_anothers as is_anothers_room};
ghost use Rattle.world_rules.specs.World.{shown};
ghost use Rattle.world_rules.specs.Checks.{all_hold, amount_checks, is_amount_of as amount_of};
ghost use Rattle.world_rules.specs.Checks.{are_near as near, checks, controller_around as around_controller};
ghost use Rattle.world_rules.specs.Checks.{creep_checks, first_failing, further_checks, holds_least};
ghost use Rattle.world_rules.specs.Checks.{holds_of, is_free_for as free_for, is_in_the_way, is_reachable};
ghost use Rattle.world_rules.specs.Checks.{may_be_target as target_of, part_checks, reaches_itself as itself};
ghost use Rattle.world_rules.specs.Checks.{takes_least, target_checks};
ghost use Rattle.action_checks.specs.Scenes.{scene_view};
ghost use Rattle.action_checks.specs.inner.Passing.{Passes};

use game_tables::{
    Action, Code, Kind, Part, is_creep, is_target, max_range, needed_part, obstructs,
};
use object_store::{Object, RoomTable, Standing, free_room, is_anothers, site_building};

/// What the checks of an action read: the player who acts, and what stands under the ids of the actor and
/// of the target, as he sees it or as it stands in the room.
#[derive(Clone, Copy)]
pub struct Scene<'a> {
    pub player: u32,
    pub actor: Option<Standing<'a>>,
    pub target: Option<Standing<'a>>,
    /// What stands in the room of the actor, and none where there is no actor.
    pub around: Option<&'a RoomTable>,
    /// The amount, and none where it is negative.
    pub amount: Option<u64>,
    /// How much there has to be at least.
    pub least: u64,
    /// How many controllers the player owns, with those that his other creeps are to claim.
    pub claims: u64,
    /// The global level of the player.
    pub level: u32,
}

/// The code of the first check that fails, and `Done` where all hold. It takes bounded time, but for the
/// parts of the actor.
pub fn first_failing(action: Action, scene: &Scene) -> Code
    ensures { result ≡ first_failing (checks action (scene_view scene.now)) }
{
    match check_all(action, scene) {
        Ok(()) => Code::Done,
        Err(code) => code,
    }
}

/// Whether all checks of the action hold.
pub fn all_hold(action: Action, scene: &Scene) -> bool
    ensures { result ≡ all_hold (checks action (scene_view scene.now)) }
{
    check_all(action, scene).is_ok()
}

fn check_all(action: Action, scene: &Scene) -> Result<(), Code>
    ensures { Passes result (checks action (scene_view scene.now)) }
{
    check_creep(scene)?;
    check_amount(action, scene)?;
    check_part(needed_part(action), scene)?;
    check_target(max_range(action), action, scene)?;
    check_further(action, scene)
}

// The actor is a creep, and the player's.
fn check_creep(scene: &Scene) -> Result<(), Code>
    ensures { Passes result (creep_checks (scene_view scene.now)) }
{
    match scene.actor {
        Some(actor) if is_creep(actor.object.kind) => {
            if actor.object.owner == scene.player {
                Ok(())
            } else {
                Err(Code::NotOwner)
            }
        }
        _ => Err(Code::NotFound),
    }
}

// The amount is not negative, and a direction is one of the eight.
fn check_amount(action: Action, scene: &Scene) -> Result<(), Code>
    ensures { Passes result (amount_checks action (scene_view scene.now)) }
{
    match scene.amount {
        Some(amount) if is_amount_of(action, amount) => Ok(()),
        _ => Err(Code::InvalidArgs),
    }
}

// The amount of a move is the number of its direction.
fn is_amount_of(action: Action, amount: u64) -> bool
    ensures { result ≡ amount_of action amount }
{
    match action {
        Action::Move => (1..=8).contains(&amount),
        _ => true,
    }
}

// The creep has a live part of the kind that is needed.
fn check_part(needed: Option<Part>, scene: &Scene) -> Result<(), Code>
    ensures { Passes result (part_checks needed (scene_view scene.now)) }
{
    let Some(part) = needed else {
        return Ok(());
    };
    match scene.actor {
        Some(actor) if actor.object.body.live(part, actor.object.hits) > 0 => Ok(()),
        _ => Err(Code::NoBodypart),
    }
}

// The target is an object that may be it, and is within the range, where there is one.
fn check_target(range: Option<u8>, action: Action, scene: &Scene) -> Result<(), Code>
    ensures { Passes result (target_checks range action (scene_view scene.now)) }
{
    let Some(range) = range else {
        return Ok(());
    };
    match scene.target {
        Some(target) if may_be_target(action, scene, target.object) => {
            if are_near(range, scene.actor, target) {
                Ok(())
            } else {
                Err(Code::NotInRange)
            }
        }
        _ => Err(Code::InvalidTarget),
    }
}

// What an action checks of its own.
fn check_further(action: Action, scene: &Scene) -> Result<(), Code>
    ensures { Passes result (further_checks action (scene_view scene.now)) }
{
    match action {
        Action::DropLoad => check_holds(scene.least, scene.actor),
        Action::Transfer => check_transfer(scene),
        Action::Withdraw => check_withdraw(scene),
        Action::Pickup => check_takes(1, scene.actor, scene),
        Action::Harvest => check_harvest(scene),
        Action::Repair => check_holds(1, scene.actor),
        Action::Build => check_build(scene),
        Action::ClaimController => check_claim(scene),
        Action::Reserve => check_free(scene),
        Action::Upgrade => check_upgrade(scene),
        Action::AttackController => check_anothers(scene),
        Action::Move => check_rested(scene),
        _ => Ok(()),
    }
}

// The creep carries what is wanted, and the target has room for it.
fn check_transfer(scene: &Scene) -> Result<(), Code>
    ensures { Passes result (further_checks Action.Transfer (scene_view scene.now)) }
{
    check_holds(scene.least, scene.actor)?;
    check_takes(scene.least, scene.target, scene)
}

// The target may be reached and holds what is wanted, and the creep has room for it.
fn check_withdraw(scene: &Scene) -> Result<(), Code>
    ensures { Passes result (further_checks Action.Withdraw (scene_view scene.now)) }
{
    check_reachable(scene)?;
    check_holds(scene.least, scene.target)?;
    check_takes(scene.least, scene.actor, scene)
}

// No other player owns or reserves the room, and the source holds some energy.
fn check_harvest(scene: &Scene) -> Result<(), Code>
    ensures { Passes result (further_checks Action.Harvest (scene_view scene.now)) }
{
    check_room(scene)?;
    check_holds(1, scene.target)
}

// The site is the player's, the creep carries something, and no creep is in the way.
fn check_build(scene: &Scene) -> Result<(), Code>
    ensures { Passes result (further_checks Action.Build (scene_view scene.now)) }
{
    check_owned(scene)?;
    check_holds(1, scene.actor)?;
    check_way(scene)
}

// The controller is the player's, and the creep carries something.
fn check_upgrade(scene: &Scene) -> Result<(), Code>
    ensures { Passes result (further_checks Action.Upgrade (scene_view scene.now)) }
{
    check_owned(scene)?;
    check_holds(1, scene.actor)
}

// The controller is free for the player, and he owns and wants fewer than his level.
fn check_claim(scene: &Scene) -> Result<(), Code>
    ensures { Passes result (further_checks Action.ClaimController (scene_view scene.now)) }
{
    check_free(scene)?;
    if scene.claims < u64::from(scene.level) {
        Ok(())
    } else {
        Err(Code::GlobalLevelNotEnough)
    }
}

// Nobody owns the controller, and no other player reserves it.
fn check_free(scene: &Scene) -> Result<(), Code>
    ensures { Passes result ((
      holds_of (scene_view scene.now).target
          (free_for (scene_view scene.now).player),
      Code.InvalidTarget,
    ) ∷ []) }
{
    match scene.target {
        Some(target) if is_free_for(scene.player, target.object) => Ok(()),
        _ => Err(Code::InvalidTarget),
    }
}

// Another player owns or reserves the controller.
fn check_anothers(scene: &Scene) -> Result<(), Code>
    ensures { Passes result (further_checks Action.AttackController (scene_view scene.now)) }
{
    match scene.target {
        Some(target) if is_anothers(Some(target.object), scene.player) => Ok(()),
        _ => Err(Code::InvalidTarget),
    }
}

// The creep is not tired.
fn check_rested(scene: &Scene) -> Result<(), Code>
    ensures { Passes result (further_checks Action.Move (scene_view scene.now)) }
{
    match scene.actor {
        Some(actor) if actor.object.extra == 0 => Ok(()),
        _ => Err(Code::Tired),
    }
}

// The object holds at least so much.
fn check_holds(least: u64, holder: Option<Standing>) -> Result<(), Code>
    ensures { Passes result (holds_least least (option_map shown holder.entry) ∷ []) }
{
    match holder {
        Some(standing) if least <= standing.object.energy => Ok(()),
        _ => Err(Code::NotEnoughResources),
    }
}

// The object takes at least so much more.
fn check_takes(least: u64, taker: Option<Standing>, scene: &Scene) -> Result<(), Code>
    ensures { Passes result (takes_least least (option_map shown taker.entry) (scene_view scene.now) ∷ []) }
{
    match taker {
        Some(standing) if least <= free_room(standing.object, controller_around(scene)) => Ok(()),
        _ => Err(Code::Full),
    }
}

// The tile of the target is not barred to the player.
fn check_reachable(scene: &Scene) -> Result<(), Code>
    ensures { Passes result ((
      holds_of (scene_view scene.now).target
          (is_reachable (scene_view scene.now)),
      Code.NotOwner,
    ) ∷ []) }
{
    match (scene.target, scene.around) {
        (Some(target), Some(around)) => {
            let object = target.object;
            if around.barred(object.x, object.y, scene.player) {
                Err(Code::NotOwner)
            } else {
                Ok(())
            }
        }
        (Some(_), None) => Ok(()),
        (None, _) => Err(Code::NotOwner),
    }
}

// No other player owns or reserves the controller of the room.
fn check_room(scene: &Scene) -> Result<(), Code>
    ensures { Passes result ((
      not (is_anothers_room (scene_view scene.now).player
          (around_controller (scene_view scene.now))),
      Code.NotOwner,
    ) ∷ []) }
{
    if is_anothers(controller_around(scene), scene.player) {
        Err(Code::NotOwner)
    } else {
        Ok(())
    }
}

// The target is the player's.
fn check_owned(scene: &Scene) -> Result<(), Code>
    ensures { Passes result ((
      holds_of (scene_view scene.now).target
          (λ site. site.owner == (scene_view scene.now).player),
      Code.NotOwner,
    ) ∷ []) }
{
    match scene.target {
        Some(target) if target.object.owner == scene.player => Ok(()),
        _ => Err(Code::NotOwner),
    }
}

// No creep stands where the building of the target would obstruct it.
fn check_way(scene: &Scene) -> Result<(), Code>
    ensures { Passes result ((
      holds_of (scene_view scene.now).target
          (λ site. not (is_in_the_way (scene_view scene.now).around site)),
      Code.InvalidTarget,
    ) ∷ []) }
{
    match scene.target {
        Some(target) if !is_in_the_way(scene.around, target.object) => Ok(()),
        _ => Err(Code::InvalidTarget),
    }
}

// Whether a creep stands where the building of a site would obstruct it.
fn is_in_the_way(around: Option<&RoomTable>, site: &Object) -> bool
    ensures { result
        ≡ is_in_the_way (unwrap_or (option_map (λ table. table.now.objects) around.entry) []) site.now }
{
    let Some(kind) = site_building(site) else {
        return false;
    };
    match around {
        Some(table) => obstructs(kind) && table.at(site.x, site.y, Kind::Creep).is_some(),
        None => false,
    }
}

// Whether nobody owns a controller, and no other player reserves it.
fn is_free_for(player: u32, controller: &Object) -> bool
    ensures { result ≡ free_for player controller.now }
{
    controller.owner == 0 && (controller.other == 0 || controller.other == player)
}

// The controller of the room of the actor.
fn controller_around<'a>(scene: &Scene<'a>) -> Option<&'a Object>
    ensures { option_map (λ object. object.now) result ≡ around_controller (scene_view scene.now) }
{
    scene.around?.controller()
}

// Whether the creep itself may be its target.
fn reaches_itself(action: Action) -> bool
    ensures { result ≡ itself action }
{
    matches!(action, Action::Heal | Action::RangedHeal)
}

fn may_be_target(action: Action, scene: &Scene, target: &Object) -> bool
    ensures { result ≡ target_of action (scene_view scene.now) target.now }
{
    is_target(action, target.kind) && (reaches_itself(action) || is_another(scene.actor, target))
}

// Whether the actor is there, and another object than this.
fn is_another(actor: Option<Standing>, object: &Object) -> bool
    ensures { result ≡ holds_of (option_map shown actor.entry) (λ creep. not (creep.id == object.now.id)) }
{
    match actor {
        Some(actor) => actor.object.id != object.id,
        None => false,
    }
}

// Whether the two stand in one room, and at most so far from each other.
fn are_near(range: u8, actor: Option<Standing>, target: Standing) -> bool
    ensures { result ≡ near range (option_map shown actor.entry) (Some (shown target.entry)) }
{
    match actor {
        Some(actor) => {
            actor.room == target.room
                && actor.object.x.abs_diff(target.object.x) <= range
                && actor.object.y.abs_diff(target.object.y) <= range
        }
        None => false,
    }
}
