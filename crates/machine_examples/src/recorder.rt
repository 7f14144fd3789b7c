// The host of the tests: it writes down each call with its arguments.
use std::alloc::Global;
use wasm_machine::Host;
use wasm_module::{HostSig, ValType};
use wasm_store::Pages;

pub(crate) const SEE: i64 = 0;

pub(crate) const SEE32: i64 = 1;

pub(crate) const MIX: i64 = 2;

pub(crate) const MARK: i64 = 3;

pub(crate) const ASK: i64 = 4;

pub(crate) const ASK32: i64 = 5;

pub(crate) const SUM: i64 = 6;

pub(crate) const SUM32: i64 = 7;

pub(crate) const WRITE: i64 = 8;

pub(crate) const READ: i64 = 9;

// What `ask` answers, and `ask32`, of which the low 32 bits count.
const ASKED: u64 = 0xfedc_ba98_7654_3210;

const ASKED32: u64 = 0x7654_3210_8000_0001;

/// What this host offers, by the numbers above.
pub(crate) const OFFERED: [HostSig; 10] = [
    HostSig {
        module: "screeps",
        name: "see",
        params: &[ValType::I64],
        result: None,
    },
    HostSig {
        module: "screeps",
        name: "see32",
        params: &[ValType::I32],
        result: None,
    },
    HostSig {
        module: "screeps",
        name: "mix",
        params: &[ValType::I32, ValType::I64, ValType::I32],
        result: None,
    },
    HostSig {
        module: "screeps",
        name: "mark",
        params: &[ValType::I32],
        result: None,
    },
    HostSig {
        module: "screeps",
        name: "ask",
        params: &[],
        result: Some(ValType::I64),
    },
    HostSig {
        module: "screeps",
        name: "ask32",
        params: &[],
        result: Some(ValType::I32),
    },
    HostSig {
        module: "screeps",
        name: "sum",
        params: &[ValType::I32, ValType::I64],
        result: Some(ValType::I64),
    },
    HostSig {
        module: "screeps",
        name: "sum32",
        params: &[ValType::I32, ValType::I32],
        result: Some(ValType::I32),
    },
    HostSig {
        module: "screeps",
        name: "write",
        params: &[ValType::I32, ValType::I64],
        result: None,
    },
    HostSig {
        module: "screeps",
        name: "read",
        params: &[ValType::I32],
        result: Some(ValType::I64),
    },
];

/// What a host got: the number of each call and its arguments.
#[derive(Drop)]
pub(crate) struct Recorder {
    pub(crate) got: Vec<i64>,
    /// Whether there was no memory to write all down.
    pub(crate) is_short: bool,
}

impl Recorder {
    pub(crate) fn new(alloc: Global) -> Recorder {
        Recorder {
            got: Vec::new(alloc),
            is_short: false,
        }
    }

    fn note(&mut self, call: u32, args: &[i64]) {
        if self.got.push(i64::from(call)).is_err() || self.got.extend_from_slice(args).is_err() {
            self.is_short = true;
        }
    }
}

impl Host for Recorder {
    ghost answers = { λ _ _ _ _ _ _ _. Unit {0} };

    fn answer(&mut self, call: u32, args: &[i64], pages: &mut Pages) -> i64 {
        self.note(call, args);
        match (i64::from(call), args) {
            (ASK, _) => ASKED.cast_signed(),
            (ASK32, _) => ASKED32.cast_signed(),
            (SUM | SUM32, [first, second]) => first.wrapping_add(*second),
            (WRITE, [at, value]) => {
                pages.write_span(address(*at), &value.to_le_bytes());
                0
            }
            (READ, [at]) => match pages.load(address(*at), 8) {
                Some(value) => value.cast_signed(),
                None => -1,
            },
            _ => 0,
        }
    }
}

// An argument as an address: its low 32 bits.
fn address(at: i64) -> u64 {
    at.cast_unsigned() & 0xffff_ffff
}
