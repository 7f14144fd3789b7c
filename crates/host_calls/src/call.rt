// The calls by their names.
ghost use Rattle.std.specs.Prelude.{◌≡◌};
ghost use Rattle.host_calls.specs.Calls.{all_calls, call_at};

/// A call of a module to its host, in the order of their numbers from 0 on.
#[derive(Clone, Copy, Debug, PartialEq, Eq)]
pub enum Call {
    Tick,
    Me,
    Allowance,
    Bucket,
    Points,
    Level,
    Rooms,
    Room,
    RoomName,
    Terrain,
    Count,
    Find,
    Get,
    MemoryLength,
    MemoryRead,
    MemoryWrite,
    DropLoad,
    Transfer,
    Withdraw,
    Pickup,
    Heal,
    RangedHeal,
    Dismantle,
    Attack,
    Harvest,
    Repair,
    Build,
    RangedMassAttack,
    RangedAttack,
    Suicide,
    ClaimController,
    Upgrade,
    Reserve,
    AttackController,
    CreateSite,
    RemoveSite,
    SpawnCreep,
    Move,
}

static CALLS: [Call; 38] = [
    Call::Tick,
    Call::Me,
    Call::Allowance,
    Call::Bucket,
    Call::Points,
    Call::Level,
    Call::Rooms,
    Call::Room,
    Call::RoomName,
    Call::Terrain,
    Call::Count,
    Call::Find,
    Call::Get,
    Call::MemoryLength,
    Call::MemoryRead,
    Call::MemoryWrite,
    Call::DropLoad,
    Call::Transfer,
    Call::Withdraw,
    Call::Pickup,
    Call::Heal,
    Call::RangedHeal,
    Call::Dismantle,
    Call::Attack,
    Call::Harvest,
    Call::Repair,
    Call::Build,
    Call::RangedMassAttack,
    Call::RangedAttack,
    Call::Suicide,
    Call::ClaimController,
    Call::Upgrade,
    Call::Reserve,
    Call::AttackController,
    Call::CreateSite,
    Call::RemoveSite,
    Call::SpawnCreep,
    Call::Move,
];

impl Call {
    /// The call of a number, and none past the last.
    pub fn of_number(number: u32) -> Option<Call>
        ensures { result ≡ call_at number }
    {
        match calls().get(number as usize) {
            Some(call) => Some(*call),
            None => None,
        }
    }
}

// All calls, each at its number.
fn calls() -> &'static [Call]
    ensures { result.now ≡ all_calls }
{
    &CALLS
}
