// The actions of players.
ghost use Rattle.std.specs.Prelude.{◌≡◌, IfSome, IfNone};
ghost use Rattle.game_tables.specs.Actions.{action_number, dominates, drops_attack, drops_build};
ghost use Rattle.game_tables.specs.Actions.{drops_dismantle, drops_repair, needed_part, max_range, is_target};
ghost use Rattle.game_tables.specs.declared.action.Action.{Action};

use crate::by_kind::is_building;
use crate::kind::{Kind, Part};

/// What a player asks for in a tick, numbered from 1 on in the order in which a tick applies it.
#[derive(Clone, Copy, Debug, PartialEq, Eq)]
pub enum Action {
    DropLoad = 1,
    Transfer = 2,
    Withdraw = 3,
    Pickup = 4,
    Heal = 5,
    RangedHeal = 6,
    Dismantle = 7,
    Attack = 8,
    Harvest = 9,
    Repair = 10,
    Build = 11,
    RangedMassAttack = 12,
    RangedAttack = 13,
    Suicide = 14,
    ClaimController = 15,
    Upgrade = 16,
    Reserve = 17,
    AttackController = 18,
    CreateSite = 19,
    RemoveSite = 20,
    SpawnCreep = 21,
    Move = 22,
}

impl Action {
    /// Its number, 1 to 22.
    pub fn number(self) -> u8
        ensures { result ≡ action_number self }
    {
        self as u8
    }

    /// The action of a number.
    pub fn of_number(number: u8) -> Option<Action>
        ensures some { IfSome result (λ action. number ≡ action_number action) }
        ensures none { IfNone result ((action : Action) → number ≡ action_number action → ⊥) }
    {
        match number {
            1 => Some(Action::DropLoad),
            2 => Some(Action::Transfer),
            3 => Some(Action::Withdraw),
            4 => Some(Action::Pickup),
            5 => Some(Action::Heal),
            6 => Some(Action::RangedHeal),
            7 => Some(Action::Dismantle),
            8 => Some(Action::Attack),
            9 => Some(Action::Harvest),
            10 => Some(Action::Repair),
            11 => Some(Action::Build),
            12 => Some(Action::RangedMassAttack),
            13 => Some(Action::RangedAttack),
            14 => Some(Action::Suicide),
            15 => Some(Action::ClaimController),
            16 => Some(Action::Upgrade),
            17 => Some(Action::Reserve),
            18 => Some(Action::AttackController),
            19 => Some(Action::CreateSite),
            20 => Some(Action::RemoveSite),
            21 => Some(Action::SpawnCreep),
            22 => Some(Action::Move),
            _ => None,
        }
    }
}

/// Whether an entry of the one action drops an entry of the other by the same creep.
pub fn dominates(by: Action, over: Action) -> bool
    ensures { result ≡ dominates by over }
{
    match over {
        Action::RangedHeal => by == Action::Heal,
        Action::AttackController => matches!(by, Action::RangedHeal | Action::Heal),
        Action::Dismantle => over_dismantle(by),
        Action::Repair => over_repair(by),
        Action::Build => over_build(by),
        Action::Attack => over_attack(by),
        Action::Harvest => by == Action::Attack || over_attack(by),
        Action::RangedMassAttack => {
            matches!(by, Action::Build | Action::Repair | Action::RangedHeal)
        }
        Action::RangedAttack => matches!(
            by,
            Action::RangedMassAttack | Action::Build | Action::Repair | Action::RangedHeal
        ),
        _ => false,
    }
}

fn over_dismantle(by: Action) -> bool
    ensures { result ≡ drops_dismantle by }
{
    matches!(
        by,
        Action::AttackController | Action::RangedHeal | Action::Heal
    )
}

fn over_repair(by: Action) -> bool
    ensures { result ≡ drops_repair by }
{
    by == Action::Dismantle || over_dismantle(by)
}

fn over_build(by: Action) -> bool
    ensures { result ≡ drops_build by }
{
    by == Action::Repair || over_repair(by)
}

fn over_attack(by: Action) -> bool
    ensures { result ≡ drops_attack by }
{
    by == Action::Build || over_build(by)
}

/// The part that a creep needs for an action, where it needs one.
pub fn needed_part(action: Action) -> Option<Part>
    ensures { result ≡ needed_part action }
{
    match action {
        Action::Heal | Action::RangedHeal => Some(Part::Heal),
        Action::Dismantle | Action::Harvest | Action::Repair | Action::Build | Action::Upgrade =>
            Some(Part::Work),
        Action::Attack => Some(Part::Attack),
        Action::RangedMassAttack | Action::RangedAttack => Some(Part::RangedAttack),
        Action::ClaimController | Action::Reserve | Action::AttackController => Some(Part::Claim),
        Action::Move => Some(Part::Move),
        _ => None,
    }
}

/// The greatest range of an action's target, where it has one with a range.
pub fn max_range(action: Action) -> Option<u8>
    ensures { result ≡ max_range action }
{
    match action {
        Action::Transfer
        | Action::Withdraw
        | Action::Pickup
        | Action::Heal
        | Action::Dismantle
        | Action::Attack
        | Action::Harvest
        | Action::ClaimController
        | Action::Reserve
        | Action::AttackController => Some(1),
        Action::RangedHeal
        | Action::Repair
        | Action::Build
        | Action::RangedAttack
        | Action::Upgrade => Some(3),
        _ => None,
    }
}

/// Whether an object of a kind may be an action's target. Where it is a creep, whether it may be
/// the actor is not looked at.
pub fn is_target(action: Action, kind: Kind) -> bool
    ensures { result ≡ is_target action kind }
{
    match action {
        Action::Transfer => matches!(
            kind,
            Kind::Creep | Kind::Spawn | Kind::Extension | Kind::Storage | Kind::Container
        ),
        Action::Withdraw => matches!(
            kind,
            Kind::Spawn | Kind::Extension | Kind::Storage | Kind::Container
        ),
        Action::Pickup => kind == Kind::Pile,
        Action::Heal | Action::RangedHeal => kind == Kind::Creep,
        Action::Attack | Action::RangedAttack => kind == Kind::Creep || is_building(kind),
        Action::Dismantle | Action::Repair => is_building(kind),
        Action::Harvest => kind == Kind::Source,
        Action::Build => kind == Kind::Site,
        Action::ClaimController | Action::Upgrade | Action::Reserve | Action::AttackController =>
            kind == Kind::Controller,
        _ => false,
    }
}
