// The ranges of an object's fields between ticks.
ghost use Rattle.std.specs.Prelude.{◌≡◌, ◌≤◌, MatchBool, []};
ghost use Rattle.game_tables.specs.Fields.{most_extra, most_other_ticks};
ghost use Rattle.game_tables.specs.Kinds.{hits_max};
ghost use Rattle.game_tables.specs.declared.kind.Kind.{Kind};
ghost use Rattle.world_rules.specs.Rules.{IsInRangeAs, IsFrom1To, IsProgress, IsDowngradeTimer, IsSource};
ghost use Rattle.world_rules.specs.Rules.{IsController, IsCreep, IsSpawn, IsStore, IsDecaying, IsPile};
ghost use Rattle.world_rules.specs.Rules.{IsSite};
ghost use Rattle.rule_check.specs.inner.Checks.{IsReservedFor, IsBuilt, IsPlain};
ghost use Rattle.rule_check.specs.declared.view.RoomView.{RoomView};

use crate::objects::ObjectRule;
use crate::view::RoomView;
use game_tables::{
    build_total, downgrade_number, hits_max, is_site_kind, most_energy, most_extra,
    most_other_ticks, most_parts, most_timer, total_for_next,
};
use object_store::{Kind, Object};

/// The fields of an object are in its kind's ranges.
#[derive(Clone, Copy)]
pub struct KindsRanges;

impl ObjectRule for KindsRanges {
    ghost broken = { λ rule room object. IsInRangeAs object.kind object → ⊥ };

    fn is_broken(&self, _room: &RoomView, object: &Object) -> bool {
        !is_in_range(object)
    }
}

fn is_in_range(object: &Object) -> bool
    ensures { MatchBool result (IsInRangeAs object.now.kind object.now)
        (IsInRangeAs object.now.kind object.now → ⊥) }
{
    match object.kind {
        Kind::Source => is_source(object),
        Kind::Controller => is_controller(object),
        Kind::Creep => is_creep(object),
        Kind::Spawn => is_spawn(object),
        Kind::Extension => is_store(Kind::Extension, object),
        Kind::Storage => is_store(Kind::Storage, object),
        Kind::Container => is_decaying(Kind::Container, object),
        Kind::Road => is_decaying(Kind::Road, object),
        Kind::Pile => is_pile(object),
        Kind::Site => is_site(object),
        Kind::Tower | Kind::Rampart | Kind::Wall | Kind::Tombstone => false,
    }
}

fn is_source(object: &Object) -> bool
    ensures { MatchBool result (IsSource object.now) (IsSource object.now → ⊥) }
{
    object.owner == 0
        && object.hits == 0
        && object.energy <= most_energy(Kind::Source, object.hits, &object.body)
        && object.timer <= most_timer(Kind::Source, 0, &object.body)
        && object.body.is_empty()
        && is_plain(object)
}

// The fields that most kinds don't use are 0.
fn is_plain(object: &Object) -> bool
    ensures { MatchBool result (IsPlain object.now) (IsPlain object.now → ⊥) }
{
    object.extra == 0 && object.progress == 0 && object.other == 0 && object.other_ticks == 0
}

fn is_controller(object: &Object) -> bool
    ensures { MatchBool result (IsController object.now) (IsController object.now → ⊥) }
{
    if object.extra > most_extra(Kind::Controller) {
        return false;
    }
    let level = object.extra as u8;
    (object.owner == 0) == (level == 0)
        && object.hits == 0
        && object.energy == 0
        && is_downgrade_timer(downgrade_number(level), object.timer)
        && is_progress(total_for_next(level), object.progress)
        && is_reservation(object)
        && object.body.is_empty()
}

// A controller may be reserved at level 0 alone, and for some ticks.
fn is_reservation(object: &Object) -> bool
    ensures { MatchBool result (IsReservedFor (most_other_ticks Kind.Controller) object.now)
        (IsReservedFor (most_other_ticks Kind.Controller) object.now → ⊥) }
{
    let most = most_other_ticks(Kind::Controller) as u64;
    if object.other == 0 {
        object.other_ticks == 0
    } else {
        object.extra == 0 && is_from_1_to(most, object.other_ticks as u64)
    }
}

fn is_from_1_to(most: u64, number: u64) -> bool
    ensures { MatchBool result (IsFrom1To most number) (IsFrom1To most number → ⊥) }
{
    1 <= number && number <= most
}

fn is_progress(total: Option<u32>, progress: u64) -> bool
    ensures { MatchBool result (IsProgress total progress) (IsProgress total progress → ⊥) }
{
    match total {
        Some(total) => progress < total as u64,
        None => progress == 0,
    }
}

fn is_downgrade_timer(full: Option<u32>, timer: u32) -> bool
    ensures { MatchBool result (IsDowngradeTimer full timer) (IsDowngradeTimer full timer → ⊥) }
{
    match full {
        Some(full) => is_from_1_to(full as u64, timer as u64),
        None => timer == 0,
    }
}

fn is_creep(object: &Object) -> bool
    ensures { MatchBool result (IsCreep object.now) (IsCreep object.now → ⊥) }
{
    object.owner >= 1
        && is_hits(Kind::Creep, object)
        && object.energy <= most_energy(Kind::Creep, object.hits, &object.body)
        && is_from_1_to(
            most_timer(Kind::Creep, 0, &object.body) as u64,
            object.timer as u64,
        )
        && object.extra <= most_extra(Kind::Creep)
        && object.progress == 0
        && object.other == 0
        && object.other_ticks == 0
        && object.body.len() >= 1
        && object.body.len() <= most_parts() as u64
}

// The hits are from 1 to the kind's most.
fn is_hits(kind: Kind, object: &Object) -> bool
    ensures { MatchBool result (IsFrom1To (hits_max kind object.now.body) object.now.hits)
        (IsFrom1To (hits_max kind object.now.body) object.now.hits → ⊥) }
{
    is_from_1_to(hits_max(kind, &object.body) as u64, object.hits as u64)
}

fn is_spawn(object: &Object) -> bool
    ensures { MatchBool result (IsSpawn object.now) (IsSpawn object.now → ⊥) }
{
    object.owner >= 1
        && is_hits(Kind::Spawn, object)
        && object.energy <= most_energy(Kind::Spawn, object.hits, &object.body)
        && object.timer <= most_timer(Kind::Spawn, 0, &object.body)
        && (object.timer == 0) == object.body.is_empty()
        && object.body.len() <= most_parts() as u64
        && is_plain(object)
}

fn is_store(kind: Kind, object: &Object) -> bool
    ensures { MatchBool result (IsStore kind object.now) (IsStore kind object.now → ⊥) }
{
    object.owner >= 1
        && is_hits(kind, object)
        && object.energy <= most_energy(kind, object.hits, &object.body)
        && object.timer == 0
        && object.body.is_empty()
        && is_plain(object)
}

fn is_decaying(kind: Kind, object: &Object) -> bool
    ensures { MatchBool result (IsDecaying kind object.now) (IsDecaying kind object.now → ⊥) }
{
    object.owner == 0
        && is_hits(kind, object)
        && object.energy <= most_energy(kind, object.hits, &object.body)
        && is_from_1_to(
            most_timer(kind, 0, &object.body) as u64,
            object.timer as u64,
        )
        && object.body.is_empty()
        && is_plain(object)
}

fn is_pile(object: &Object) -> bool
    ensures { MatchBool result (IsPile object.now) (IsPile object.now → ⊥) }
{
    object.owner == 0
        && object.hits == 0
        && is_from_1_to(
            most_energy(Kind::Pile, object.hits, &object.body),
            object.energy,
        )
        && object.timer == 0
        && object.body.is_empty()
        && is_plain(object)
}

fn is_site(object: &Object) -> bool
    ensures { MatchBool result (IsSite object.now) (IsSite object.now → ⊥) }
{
    object.owner >= 1
        && object.hits == 0
        && object.energy == 0
        && object.timer == 0
        && is_built(object.extra, object.progress)
        && object.other == 0
        && object.other_ticks == 0
        && object.body.is_empty()
}

// Whether it is the number of a kind that sites are for, with progress below its work.
fn is_built(number: u32, progress: u64) -> bool
    ensures { MatchBool result (IsBuilt number progress) (IsBuilt number progress → ⊥) }
{
    if number > most_extra(Kind::Site) {
        return false;
    }
    match Kind::of_number(number as u8) {
        Some(kind) => is_site_kind(kind, 1) && is_progress(build_total(kind), progress),
        None => false,
    }
}
