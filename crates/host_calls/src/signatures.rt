// The signatures of the calls.
ghost use Rattle.std.specs.Prelude.{◌≡◌, length, option_map};
ghost use Rattle.host_calls.specs.Calls.{AreSignatures, all_calls, call_at, row};

use wasm_module::{HostSig, ValType};

static SIGNATURES: [HostSig; 38] = [
    HostSig {
        module: "screeps",
        name: "tick",
        params: &[],
        result: Some(ValType::I64),
    },
    HostSig {
        module: "screeps",
        name: "me",
        params: &[],
        result: Some(ValType::I32),
    },
    HostSig {
        module: "screeps",
        name: "allowance",
        params: &[],
        result: Some(ValType::I32),
    },
    HostSig {
        module: "screeps",
        name: "bucket",
        params: &[],
        result: Some(ValType::I32),
    },
    HostSig {
        module: "screeps",
        name: "points",
        params: &[],
        result: Some(ValType::I64),
    },
    HostSig {
        module: "screeps",
        name: "level",
        params: &[],
        result: Some(ValType::I32),
    },
    HostSig {
        module: "screeps",
        name: "rooms",
        params: &[],
        result: Some(ValType::I32),
    },
    HostSig {
        module: "screeps",
        name: "room",
        params: &[ValType::I32],
        result: Some(ValType::I32),
    },
    HostSig {
        module: "screeps",
        name: "room_name",
        params: &[ValType::I32],
        result: Some(ValType::I32),
    },
    HostSig {
        module: "screeps",
        name: "terrain",
        params: &[ValType::I32, ValType::I32, ValType::I32],
        result: Some(ValType::I32),
    },
    HostSig {
        module: "screeps",
        name: "count",
        params: &[],
        result: Some(ValType::I32),
    },
    HostSig {
        module: "screeps",
        name: "find",
        params: &[ValType::I64],
        result: Some(ValType::I32),
    },
    HostSig {
        module: "screeps",
        name: "get",
        params: &[ValType::I32, ValType::I32],
        result: Some(ValType::I64),
    },
    HostSig {
        module: "screeps",
        name: "memory_length",
        params: &[],
        result: Some(ValType::I32),
    },
    HostSig {
        module: "screeps",
        name: "memory_read",
        params: &[ValType::I32],
        result: Some(ValType::I32),
    },
    HostSig {
        module: "screeps",
        name: "memory_write",
        params: &[ValType::I32, ValType::I32],
        result: Some(ValType::I32),
    },
    HostSig {
        module: "screeps",
        name: "drop",
        params: &[ValType::I64, ValType::I32],
        result: Some(ValType::I32),
    },
    HostSig {
        module: "screeps",
        name: "transfer",
        params: &[ValType::I64, ValType::I64, ValType::I32],
        result: Some(ValType::I32),
    },
    HostSig {
        module: "screeps",
        name: "withdraw",
        params: &[ValType::I64, ValType::I64, ValType::I32],
        result: Some(ValType::I32),
    },
    HostSig {
        module: "screeps",
        name: "pickup",
        params: &[ValType::I64, ValType::I64],
        result: Some(ValType::I32),
    },
    HostSig {
        module: "screeps",
        name: "heal",
        params: &[ValType::I64, ValType::I64],
        result: Some(ValType::I32),
    },
    HostSig {
        module: "screeps",
        name: "ranged_heal",
        params: &[ValType::I64, ValType::I64],
        result: Some(ValType::I32),
    },
    HostSig {
        module: "screeps",
        name: "dismantle",
        params: &[ValType::I64, ValType::I64],
        result: Some(ValType::I32),
    },
    HostSig {
        module: "screeps",
        name: "attack",
        params: &[ValType::I64, ValType::I64],
        result: Some(ValType::I32),
    },
    HostSig {
        module: "screeps",
        name: "harvest",
        params: &[ValType::I64, ValType::I64],
        result: Some(ValType::I32),
    },
    HostSig {
        module: "screeps",
        name: "repair",
        params: &[ValType::I64, ValType::I64],
        result: Some(ValType::I32),
    },
    HostSig {
        module: "screeps",
        name: "build",
        params: &[ValType::I64, ValType::I64],
        result: Some(ValType::I32),
    },
    HostSig {
        module: "screeps",
        name: "ranged_mass_attack",
        params: &[ValType::I64],
        result: Some(ValType::I32),
    },
    HostSig {
        module: "screeps",
        name: "ranged_attack",
        params: &[ValType::I64, ValType::I64],
        result: Some(ValType::I32),
    },
    HostSig {
        module: "screeps",
        name: "suicide",
        params: &[ValType::I64],
        result: Some(ValType::I32),
    },
    HostSig {
        module: "screeps",
        name: "claim_controller",
        params: &[ValType::I64, ValType::I64],
        result: Some(ValType::I32),
    },
    HostSig {
        module: "screeps",
        name: "upgrade",
        params: &[ValType::I64, ValType::I64],
        result: Some(ValType::I32),
    },
    HostSig {
        module: "screeps",
        name: "reserve",
        params: &[ValType::I64, ValType::I64],
        result: Some(ValType::I32),
    },
    HostSig {
        module: "screeps",
        name: "attack_controller",
        params: &[ValType::I64, ValType::I64],
        result: Some(ValType::I32),
    },
    HostSig {
        module: "screeps",
        name: "create_site",
        params: &[ValType::I32, ValType::I32, ValType::I32, ValType::I32],
        result: Some(ValType::I32),
    },
    HostSig {
        module: "screeps",
        name: "remove_site",
        params: &[ValType::I64],
        result: Some(ValType::I32),
    },
    HostSig {
        module: "screeps",
        name: "spawn_creep",
        params: &[ValType::I64, ValType::I32, ValType::I32],
        result: Some(ValType::I32),
    },
    HostSig {
        module: "screeps",
        name: "move",
        params: &[ValType::I64, ValType::I32],
        result: Some(ValType::I32),
    },
];

/// The signatures of all calls, each at its number.
pub fn host_sigs() -> &'static [HostSig]
    ensures { AreSignatures result.now all_calls }
{
    &SIGNATURES
}

/// How many arguments the call of a number has, and none past the last.
pub fn parameters(number: u32) -> Option<usize>
    ensures { result ≡ option_map (λ call. length (row call).params) (call_at number) }
{
    match host_sigs().get(number as usize) {
        Some(sig) => Some(sig.params.len()),
        None => None,
    }
}
