// What is true of an object by its kind.
ghost use Rattle.std.specs.Prelude.{◌≡◌};
ghost use Rattle.game_tables.specs.Kinds.{is_controller, is_creep, is_site, may_have_owner, stands_fixed};
ghost use Rattle.game_tables.specs.Kinds.{is_building, store_capacity, full_timer, built_hits};
ghost use Rattle.game_tables.specs.Kinds.{needs_owned_room, is_in_rules, hits_max, obstructs, is_owned};
ghost use Rattle.game_tables.specs.Kinds.{pile_decay, renewal_ticks, is_site_kind, source_capacity};
ghost use Rattle.game_tables.specs.Kinds.{build_total};

use crate::body::Body;
use crate::kind::Kind;

/// Whether it is the controller of a room.
pub fn is_controller(kind: Kind) -> bool
    ensures { result ≡ is_controller kind }
{
    matches!(kind, Kind::Controller)
}

/// Whether it is a creep.
pub fn is_creep(kind: Kind) -> bool
    ensures { result ≡ is_creep kind }
{
    matches!(kind, Kind::Creep)
}

/// Whether it is a building's site.
pub fn is_site(kind: Kind) -> bool
    ensures { result ≡ is_site kind }
{
    matches!(kind, Kind::Site)
}

/// Whether a tile has at most one of it and of its like: source, controller, building and site.
pub fn stands_fixed(kind: Kind) -> bool
    ensures { result ≡ stands_fixed kind }
{
    matches!(kind, Kind::Source | Kind::Controller | Kind::Site) || is_building(kind)
}

/// Whether it may have an owner.
pub fn may_have_owner(kind: Kind) -> bool
    ensures { result ≡ may_have_owner kind }
{
    is_controller(kind) || is_owned(kind)
}

/// Whether it is built from a site.
pub fn is_building(kind: Kind) -> bool
    ensures { result ≡ is_building kind }
{
    matches!(
        kind,
        Kind::Spawn | Kind::Extension | Kind::Storage | Kind::Container | Kind::Road
    )
}

/// Whether no creep may step on its tile.
pub fn obstructs(kind: Kind) -> bool
    ensures { result ≡ obstructs kind }
{
    matches!(
        kind,
        Kind::Source | Kind::Controller | Kind::Spawn | Kind::Extension | Kind::Storage
    )
}

/// Whether it always has an owner.
pub fn is_owned(kind: Kind) -> bool
    ensures { result ≡ is_owned kind }
{
    matches!(
        kind,
        Kind::Creep | Kind::Spawn | Kind::Extension | Kind::Storage | Kind::Site
    )
}

/// Whether objects of the kind stand in a world. `rules` is the number of the rules, and does not
/// matter yet: the last four kinds come with the second rules.
pub fn is_in_rules(kind: Kind, rules: u8) -> bool
    ensures { result ≡ is_in_rules kind rules }
{
    let _ = rules;
    !matches!(
        kind,
        Kind::Tower | Kind::Rampart | Kind::Wall | Kind::Tombstone
    )
}

/// Whether a site may be of the kind. `rules` is the number of the rules, and does not matter yet.
pub fn is_site_kind(kind: Kind, rules: u8) -> bool
    ensures { result ≡ is_site_kind kind rules }
{
    let _ = rules;
    is_building(kind)
}

/// Whether a site of the kind needs a controller of its owner in the room.
pub fn needs_owned_room(kind: Kind) -> bool
    ensures { result ≡ needs_owned_room kind }
{
    matches!(kind, Kind::Spawn | Kind::Extension | Kind::Storage)
}

/// The most hits, of a creep by its body.
pub fn hits_max(kind: Kind, body: &Body) -> u32
    ensures { result ≡ hits_max kind body.now }
{
    match kind {
        Kind::Creep => 100 * body.parts().len() as u32,
        Kind::Spawn => 5_000,
        Kind::Extension => 1_000,
        Kind::Storage => 10_000,
        Kind::Container => 250_000,
        Kind::Road => 5_000,
        _ => 0,
    }
}

/// The hits of a building that was just made, and 0 of what is not built.
pub fn built_hits(kind: Kind) -> u32
    ensures { result ≡ built_hits kind }
{
    if is_building(kind) {
        hits_max(kind, &Body::new())
    } else {
        0
    }
}

/// The work that a site of the kind needs, where it may be built.
pub fn build_total(kind: Kind) -> Option<u32>
    ensures { result ≡ build_total kind }
{
    match kind {
        Kind::Spawn => Some(15_000),
        Kind::Extension => Some(3_000),
        Kind::Storage => Some(30_000),
        Kind::Container => Some(5_000),
        Kind::Road => Some(300),
        _ => None,
    }
}

/// The full decay timer in ticks, and 0 of what does not decay. `in_owned_room` says whether the
/// room's controller has an owner.
pub fn full_timer(kind: Kind, in_owned_room: bool) -> u32
    ensures { result ≡ full_timer kind in_owned_room }
{
    match kind {
        Kind::Container if in_owned_room => 500,
        Kind::Container => 100,
        Kind::Road => 1_000,
        _ => 0,
    }
}

/// The energy that a building holds in a room whose controller has the level, and 0 of a kind
/// that is none or holds nothing.
pub fn store_capacity(kind: Kind, level: u8) -> u64
    ensures { result ≡ store_capacity kind level }
{
    match kind {
        Kind::Spawn => 300,
        Kind::Extension if level == 8 => 200,
        Kind::Extension if level == 7 => 100,
        Kind::Extension => 50,
        Kind::Storage => 1_000_000,
        Kind::Container => 2_000,
        _ => 0,
    }
}

/// The energy that a source is filled to. `is_held` says whether the room's controller is owned or
/// reserved.
pub fn source_capacity(is_held: bool) -> u64
    ensures { result ≡ source_capacity is_held }
{
    if is_held { 3_000 } else { 1_500 }
}

/// The ticks after which a source that was not full is filled.
pub fn renewal_ticks() -> u32
    ensures { result ≡ renewal_ticks }
{
    300
}

/// What a pile loses in a tick: a thousandth of its energy, rounded up.
pub fn pile_decay(energy: u64) -> u64
    ensures { result ≡ pile_decay energy }
{
    energy.div_ceil(1_000)
}
