// Rows of the game's tables.
use game_tables::{
    Action, Body, Kind, Part, allowed, build_total, built_hits, dominates, downgrade_number,
    full_timer, hits_max, is_building, is_controller, is_creep, is_in_rules, is_owned, is_site,
    is_site_kind, is_target, max_range, may_have_owner, needed_part, needs_owned_room, obstructs,
    pile_decay, renewal_ticks, source_capacity, stands_fixed, store_capacity, total_for_next,
};
use std::test::Fail;

#[test]
fn heal_is_kept_before_harvest(rt: HostRuntime) {
    assert!(rt; dominates(Action::Heal, Action::Harvest));
    assert!(rt; !dominates(Action::Harvest, Action::Heal));
    assert!(rt; !dominates(Action::Heal, Action::RangedMassAttack));
    assert!(rt; dominates(Action::RangedHeal, Action::RangedMassAttack));
}

#[test]
fn actions_have_numbers_parts_and_targets(rt: HostRuntime) {
    assert!(rt; Action::of_number(9) == Some(Action::Harvest));
    assert!(rt; Action::of_number(23) == None);
    assert!(rt; Action::Move.number() == 22);
    assert!(rt; needed_part(Action::Reserve) == Some(Part::Claim));
    assert!(rt; max_range(Action::RangedMassAttack) == None);
    assert!(rt; max_range(Action::Upgrade) == Some(3));
    assert!(rt; is_target(Action::Transfer, Kind::Creep));
    assert!(rt; !is_target(Action::Withdraw, Kind::Creep));
}

#[test]
fn parts_stand_in_order(rt: HostRuntime) -> Result<(), Fail> {
    let mut body = Body::new();
    assert!(rt; body.is_empty());
    body.push(Part::Work);
    body.push(Part::Carry);
    assert!(rt; body.len() == 2);
    assert!(rt; body.parts() == [Part::Work, Part::Carry].as_slice());
    assert!(rt; body.nth(1).copied() == Some(Part::Carry));
    assert!(rt; body.nth(2).copied() == None);
    assert!(rt; body.cost() == 150);
    Ok(())
}

#[test]
fn parts_die_from_the_front(rt: HostRuntime) {
    let mut body = Body::new();
    body.push(Part::Carry);
    body.push(Part::Claim);
    body.push(Part::Carry);
    assert!(rt; body.has(Part::Claim));
    assert!(rt; !body.has(Part::Work));
    assert!(rt; body.lifetime() == 600);
    assert!(rt; body.capacity(300) == 100);
    assert!(rt; body.capacity(201) == 100);
    assert!(rt; body.capacity(200) == 50);
    assert!(rt; body.live(Part::Claim, 101) == 1);
    assert!(rt; body.live(Part::Claim, 100) == 0);
    assert!(rt; body.live_parts(1) == [Part::Carry].as_slice());
    assert!(rt; body.len() == 3);
    assert!(rt; body.part_hits(0, 230) == 30);
}

#[test]
fn kinds_differ(rt: HostRuntime) {
    assert!(rt; is_controller(Kind::Controller) && !is_controller(Kind::Creep));
    assert!(rt; is_creep(Kind::Creep) && is_site(Kind::Site));
    assert!(rt; stands_fixed(Kind::Source) && !stands_fixed(Kind::Pile));
    assert!(rt; may_have_owner(Kind::Controller) && !may_have_owner(Kind::Road));
    assert!(rt; is_building(Kind::Road) && !is_building(Kind::Tower));
}

#[test]
fn kinds_stand_in_rooms_by_their_rules(rt: HostRuntime) {
    assert!(rt; !obstructs(Kind::Container));
    assert!(rt; is_owned(Kind::Site));
    assert!(rt; is_in_rules(Kind::Site, 1) && !is_in_rules(Kind::Tower, 1));
    assert!(rt; is_site_kind(Kind::Spawn, 1));
    assert!(rt; !needs_owned_room(Kind::Container));
}

#[test]
fn buildings_are_built_with_hits(rt: HostRuntime) {
    let mut body = Body::new();
    body.push(Part::Move);
    assert!(rt; hits_max(Kind::Creep, &body) == 100);
    assert!(rt; built_hits(Kind::Container) == 250_000);
    assert!(rt; build_total(Kind::Site) == None);
    assert!(rt; full_timer(Kind::Container, false) == 100);
}

#[test]
fn energy_is_held_renewed_and_lost(rt: HostRuntime) {
    assert!(rt; store_capacity(Kind::Extension, 7) == 100);
    assert!(rt; (source_capacity(true), renewal_ticks()) == (3_000, 300));
    assert!(rt; pile_decay(1_000) == 1);
    assert!(rt; pile_decay(1_001) == 2);
    assert!(rt; pile_decay(0xffff_ffff_ffff_ffff) == 18_446_744_073_709_552);
}

#[test]
fn kinds_have_texts_and_numbers(rt: HostRuntime) {
    assert!(rt; Kind::of_text("site") == Some(Kind::Site));
    assert!(rt; Kind::of_text("Site") == None);
    assert!(rt; Kind::Tombstone.text() == "tombstone");
    assert!(rt; Kind::Tombstone.number() == 14);
    assert!(rt; Kind::of_number(4) == Some(Kind::Spawn));
    assert!(rt; Kind::of_number(0) == None);
    assert!(rt; Kind::of_number(15) == None);
}

#[test]
fn parts_have_texts_and_numbers(rt: HostRuntime) {
    assert!(rt; Part::of_text("ranged_attack") == Some(Part::RangedAttack));
    assert!(rt; Part::of_text("ranged") == None);
    assert!(rt; Part::Claim.text() == "claim");
    assert!(rt; Part::Claim.number() == 8);
    assert!(rt; Part::of_number(1) == Some(Part::Move));
    assert!(rt; Part::of_number(9) == None);
}

#[test]
fn levels_go_to_eight(rt: HostRuntime) {
    assert!(rt; total_for_next(7) == Some(10_935_000));
    assert!(rt; total_for_next(8) == None);
    assert!(rt; downgrade_number(0) == None);
    assert!(rt; downgrade_number(8) == Some(200_000));
    assert!(rt; allowed(Kind::Spawn, 7) == 2);
    assert!(rt; allowed(Kind::Road, 0) == 2_500);
    assert!(rt; allowed(Kind::Creep, 8) == 0);
    assert!(rt; allowed(Kind::Spawn, 9) == 0);
}
