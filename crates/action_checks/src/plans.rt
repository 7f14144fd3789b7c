// The checks of sites, and of creeps that spawns make.
ghost use Rattle.std.specs.Prelude.{◌≡◌, ◌<◌, ◌==◌, ◌&&◌, ◌||◌, ℕ, nat_lt, not, true, [], ◌∷◌, ◌++◌, List};
ghost use Rattle.std.specs.Prelude.{option_map};
ghost use Rattle.std.specs.List.{find};
ghost use Rattle.std.specs.Option.{is_some};
ghost use Rattle.game_tables.specs.Kinds.{needs_owned_room as needs_owned, obstructs as is_obstructing};
ghost use Rattle.game_tables.specs.Levels.{allowed as allowed_counts};
ghost use Rattle.game_tables.specs.Numbers.{kind_number};
ghost use Rattle.game_tables.specs.Limits.{most_sites as sites_bound};
ghost use Rattle.room_table.specs.Controllers.{controller_among, is_anothers as is_anothers_room};
ghost use Rattle.room_table.specs.Stores.{site_kinds};
ghost use Rattle.room_table.specs.declared.object.Object.{Object};
ghost use Rattle.world_rules.specs.World.{shown};
ghost use Rattle.world_rules.specs.Checks.{all_hold, first_failing};
ghost use Rattle.world_rules.specs.Sites.{count_of, counted_number, has_creep, has_place, is_free_tile};
ghost use Rattle.world_rules.specs.Sites.{is_inner, is_owners, of_kind, removal_checks, room_checks};
ghost use Rattle.world_rules.specs.Sites.{site_checks, tile_checks};
ghost use Rattle.world_rules.specs.Spawns.{is_body, is_payable, spawn_checks};
ghost use Rattle.action_checks.specs.Plans.{held_for, plan_view, IsCounted, IsCountedFor};
ghost use Rattle.action_checks.specs.inner.Passing.{Passes};

use crate::tiles::is_open_ground;
use game_tables::{
    Body, Code, Kind, allowed, is_site, most_parts, most_sites, needs_owned_room, obstructs,
};
use object_store::{Object, RoomTable, Standing, Terrain, is_anothers, level_of};

/// What the checks of a new site read: who wants it, its tile and the number of the kind of the building, the
/// room, and how much there is.
#[derive(Clone, Copy)]
pub struct Plan<'a> {
    pub player: u32,
    /// The tile, which may be none of the room.
    pub x: u8,
    pub y: u8,
    pub number: u64,
    pub ground: &'a Terrain,
    pub around: &'a RoomTable,
    /// How many buildings and sites of that kind stand in the room; read only where it is the number of a
    /// kind that is built from sites.
    pub standing: u32,
    /// How many entries of the player are for sites of that kind on other tiles of the room.
    pub recorded: u32,
    /// How many sites he has in the world, with those that his entries for other tiles are for.
    pub sites: u64,
}

/// The number of the kind that an object is, or that a site is for.
pub fn counted_number(object: &Object) -> u64
    ensures { result ≡ counted_number object.now }
{
    if is_site(object.kind) {
        u64::from(object.extra)
    } else {
        u64::from(object.kind.number())
    }
}

/// The code of the first check of a new site that fails, and `Done` where all hold. It takes bounded time.
pub fn site_code(plan: &Plan) -> Code
    requires counted { IsCounted plan.now }
    ensures { result ≡ first_failing (site_checks (plan_view plan.now)) }
{
    match check_plan(plan) {
        Ok(()) => Code::Done,
        Err(code) => code,
    }
}

/// Whether all checks of a new site hold.
pub fn site_may_be_made(plan: &Plan) -> bool
    requires counted { IsCounted plan.now }
    ensures { result ≡ all_hold (site_checks (plan_view plan.now)) }
{
    check_plan(plan).is_ok()
}

fn check_plan(plan: &Plan) -> Result<(), Code>
    requires counted { IsCounted plan.now }
    ensures { Passes result (site_checks (plan_view plan.now)) }
{
    check_kind(plan, kind_of(plan.number))
}

fn check_kind(plan: &Plan, kind: Option<Kind>) -> Result<(), Code>
    requires counted { IsCountedFor kind plan.now }
    ensures { Passes result
        (room_checks (plan_view plan.now) kind ++ tile_checks (plan_view plan.now) kind) }
{
    check_room(plan, kind)?;
    check_spot(plan, kind)
}

// The tile and the kind are such, and the room is one for it.
fn check_room(plan: &Plan, kind: Option<Kind>) -> Result<(), Code>
    requires counted { IsCountedFor kind plan.now }
    ensures { Passes result (room_checks (plan_view plan.now) kind) }
{
    check_arguments(plan, kind)?;
    check_owners(plan, kind)?;
    check_level(plan, kind)
}

// The tile is one for it, and the player has not too many.
fn check_spot(plan: &Plan, kind: Option<Kind>) -> Result<(), Code>
    requires inner { (is_inner plan.now.x && is_inner plan.now.y) ≡ true }
    ensures { Passes result (tile_checks (plan_view plan.now) kind) }
{
    check_tile(plan, kind)?;
    check_creep(plan, kind)?;
    check_count(plan)
}

// The kind of building that is built from sites and has this number.
fn kind_of(number: u64) -> Option<Kind>
    ensures { result ≡ find (λ kind. kind_number kind == number) site_kinds }
{
    match number {
        4 => Some(Kind::Spawn),
        5 => Some(Kind::Extension),
        6 => Some(Kind::Storage),
        7 => Some(Kind::Container),
        8 => Some(Kind::Road),
        _ => None,
    }
}

// The tile is not at the border, and the kind is one that is built.
fn check_arguments(plan: &Plan, kind: Option<Kind>) -> Result<(), Code>
    ensures { Passes result (
        (is_inner plan.now.x && is_inner plan.now.y && is_some kind, Code.InvalidArgs) ∷ []) }
{
    if is_inner(plan.x) && is_inner(plan.y) && kind.is_some() {
        Ok(())
    } else {
        Err(Code::InvalidArgs)
    }
}

// Whether a coordinate is one of a tile that is not at the border.
fn is_inner(z: u8) -> bool
    ensures { result ≡ is_inner z }
{
    1 <= z && z <= 48
}

// No other player owns or reserves the controller, and the player owns it where the kind needs that.
fn check_owners(plan: &Plan, kind: Option<Kind>) -> Result<(), Code>
    ensures { Passes result (
        (not (is_anothers_room plan.now.player (controller_among plan.now.around.now.objects)), Code.NotOwner)
        ∷ (
          not (of_kind needs_owned kind)
              || is_owners plan.now.player (controller_among plan.now.around.now.objects),
          Code.RoomLevelNotEnough,
        ) ∷ []) }
{
    let controller = plan.around.controller();
    if is_anothers(controller, plan.player) {
        Err(Code::NotOwner)
    } else if needs_owner(kind) && !is_owners(plan.player, controller) {
        Err(Code::RoomLevelNotEnough)
    } else {
        Ok(())
    }
}

// Whether the kind needs a controller of the player.
fn needs_owner(kind: Option<Kind>) -> bool
    ensures { result ≡ of_kind needs_owned kind }
{
    match kind {
        Some(kind) => needs_owned_room(kind),
        None => false,
    }
}

// Whether the player owns the controller.
fn is_owners(player: u32, controller: Option<&Object>) -> bool
    ensures { result ≡ is_owners player (option_map (λ object. object.now) controller.entry) }
{
    match controller {
        Some(object) => object.owner == player,
        None => false,
    }
}

// The room has fewer of the kind than its level allows.
fn check_level(plan: &Plan, kind: Option<Kind>) -> Result<(), Code>
    requires counted { IsCountedFor kind plan.now }
    ensures { Passes result ((of_kind (has_place (plan_view plan.now)) kind, Code.RoomLevelNotEnough) ∷ []) }
{
    match kind {
        Some(kind) if has_place(plan, kind) => Ok(()),
        _ => Err(Code::RoomLevelNotEnough),
    }
}

fn has_place(plan: &Plan, kind: Kind) -> bool
    requires counted { plan.now.standing ≡ count_of plan.now.number plan.now.around.now.objects }
    ensures { result ≡ has_place (plan_view plan.now) kind }
{
    let count = u64::from(plan.standing) + u64::from(plan.recorded);
    count < u64::from(allowed_at(kind, level_of(plan.around.controller())))
}

// How many of a kind a room of this level may have.
#[tactic(auto, using(crate::proofs::Allowed::allowed_capped))]
fn allowed_at(kind: Kind, level: u32) -> u32
    ensures { result ≡ allowed_counts kind level }
{
    allowed(kind, level.min(255) as u8)
}

// The tile is no wall, and nothing that stands there keeps a site off.
fn check_tile(plan: &Plan, kind: Option<Kind>) -> Result<(), Code>
    requires inner { (is_inner plan.now.x && is_inner plan.now.y) ≡ true }
    ensures { Passes result ((of_kind (is_free_tile (plan_view plan.now)) kind, Code.InvalidTarget) ∷ []) }
{
    match kind {
        Some(kind) if is_free_tile(plan, kind) => Ok(()),
        _ => Err(Code::InvalidTarget),
    }
}

fn is_free_tile(plan: &Plan, kind: Kind) -> bool
    requires column { plan.now.x < 50 }
    requires row { plan.now.y < 50 }
    ensures { result ≡ is_free_tile (plan_view plan.now) kind }
{
    is_open_ground(plan.ground.at(plan.x, plan.y)) && plan.around.site_free(plan.x, plan.y, kind)
}

// No creep stands where the building would obstruct it.
fn check_creep(plan: &Plan, kind: Option<Kind>) -> Result<(), Code>
    ensures { Passes result (
        (not (of_kind is_obstructing kind && has_creep (plan_view plan.now)), Code.InvalidTarget) ∷ []) }
{
    match kind {
        Some(kind) if obstructs(kind) && has_creep(plan) => Err(Code::InvalidTarget),
        _ => Ok(()),
    }
}

fn has_creep(plan: &Plan) -> bool
    ensures { result ≡ has_creep (plan_view plan.now) }
{
    plan.around.at(plan.x, plan.y, Kind::Creep).is_some()
}

// The player has fewer sites than a player may have.
fn check_count(plan: &Plan) -> Result<(), Code>
    ensures { Passes result ((nat_lt plan.now.sites sites_bound, Code.Full) ∷ []) }
{
    if plan.sites < u64::from(most_sites()) {
        Ok(())
    } else {
        Err(Code::Full)
    }
}

// ---- sites that are removed

/// The code of the first check of a site's removal that fails, and `Done` where all hold: the actor is a
/// site, and the player's.
pub fn removal_code(player: u32, actor: Option<Standing>) -> Code
    ensures { result ≡ first_failing (removal_checks player (option_map shown actor.entry)) }
{
    match check_removal(player, actor) {
        Ok(()) => Code::Done,
        Err(code) => code,
    }
}

/// Whether all checks of a site's removal hold.
pub fn may_be_removed(player: u32, actor: Option<Standing>) -> bool
    ensures { result ≡ all_hold (removal_checks player (option_map shown actor.entry)) }
{
    check_removal(player, actor).is_ok()
}

fn check_removal(player: u32, actor: Option<Standing>) -> Result<(), Code>
    ensures { Passes result (removal_checks player (option_map shown actor.entry)) }
{
    match actor {
        Some(site) if is_site(site.object.kind) => {
            if site.object.owner == player {
                Ok(())
            } else {
                Err(Code::NotOwner)
            }
        }
        _ => Err(Code::NotFound),
    }
}

// ---- creeps that spawns make

/// The code of the first check of a creep to be made that fails, and `Done` where all hold: the actor is a
/// spawn, the player's, and makes none; the body, where there is one, has parts; and the energy that he holds
/// for creeps in the room pays it.
pub fn spawning_code(player: u32, actor: Option<Standing>, held: u32, body: Option<&Body>) -> Code
    ensures { (around : List Object) → held ≡ held_for player around
        → result ≡ first_failing (spawn_checks player (option_map shown actor.entry) around
        (option_map (λ parts. parts.now) body.entry)) }
{
    match check_spawning(player, actor, held, body) {
        Ok(()) => Code::Done,
        Err(code) => code,
    }
}

/// Whether all checks of a creep to be made hold.
pub fn may_be_made(player: u32, actor: Option<Standing>, held: u32, body: Option<&Body>) -> bool
    ensures { (around : List Object) → held ≡ held_for player around
        → result ≡ all_hold (spawn_checks player (option_map shown actor.entry) around
        (option_map (λ parts. parts.now) body.entry)) }
{
    check_spawning(player, actor, held, body).is_ok()
}

fn check_spawning(
    player: u32,
    actor: Option<Standing>,
    held: u32,
    body: Option<&Body>,
) -> Result<(), Code>
    ensures { (around : List Object) → held ≡ held_for player around
        → Passes result (spawn_checks player (option_map shown actor.entry) around
        (option_map (λ parts. parts.now) body.entry)) }
{
    let Some(spawn) = actor else {
        return Err(Code::NotFound);
    };
    if spawn.object.kind != Kind::Spawn {
        return Err(Code::NotFound);
    }
    if spawn.object.owner != player {
        return Err(Code::NotOwner);
    }
    if spawn.object.timer != 0 {
        return Err(Code::Busy);
    }
    check_body(held, body)
}

// The body has parts, and what they cost is held.
fn check_body(held: u32, body: Option<&Body>) -> Result<(), Code>
    ensures { (player : ℕ) (around : List Object) → held ≡ held_for player around
        → Passes result ((is_body (option_map (λ parts. parts.now) body.entry), Code.InvalidArgs)
        ∷ (is_payable player around (option_map (λ parts. parts.now) body.entry), Code.NotEnoughResources)
        ∷ []) }
{
    let Some(body) = body else {
        return Err(Code::InvalidArgs);
    };
    if body.is_empty() || body.len() > u64::from(most_parts()) {
        return Err(Code::InvalidArgs);
    }
    if body.cost() <= held {
        Ok(())
    } else {
        Err(Code::NotEnoughResources)
    }
}
