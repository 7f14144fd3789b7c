// Runs a module of a file with a budget of instructions, where no host answers, and prints how it ended: for
// the benchmark of the machine.
#![tactic(auto)]

use std::alloc::Global;
use std::env;
use std::process::ExitCode;
use wasm_machine::{Host, Instance, Linked, Outcome, link};
use wasm_module::decode;
use wasm_store::Pages;
use wasm_validate::validate;
use world_io::{FileSource, StreamSink, read_all, write_all};

/// The most bytes of a module, 1 MiB.
const MOST_BYTES: u64 = 1_048_576;

// A host that is never asked, since no module links that imports.
#[derive(Drop)]
struct Nobody {
    answer: i64,
}

impl Host for Nobody {
    ghost answers = { λ _ _ _ _ _ _ _. Unit {0} };

    fn answer(&mut self, _call: u32, _args: &[i64], _pages: &mut Pages) -> i64 {
        self.answer
    }
}

fn main(rt: HostRuntime) -> ExitCode {
    if let Some(line) = answer(&rt)
        && write_all(&mut StreamSink::over(rt.stdout()), line.as_bytes()).is_ok()
    {
        return ExitCode::SUCCESS;
    }
    ExitCode::from(1)
}

// What the words MODULE FUEL ask for.
fn answer(rt: &HostRuntime) -> Option<String> {
    let Ok(words) = env::args(rt) else {
        return None;
    };
    let Ok(words) = words.skip(1).collect::<Vec<String>>(rt.alloc()) else {
        return None;
    };
    let [path, fuel] = words.as_slice() else {
        return None;
    };
    let Ok(fuel) = fuel.as_str().parse::<u64>() else {
        return None;
    };
    let Ok(bytes) = read_all(
        rt.alloc(),
        &mut FileSource::open(rt, path.as_str()),
        MOST_BYTES,
    ) else {
        return None;
    };
    match linked_of(rt.alloc(), &bytes) {
        Some(linked) => line_of(rt.alloc(), &linked, fuel),
        None => None,
    }
}

// The module that these bytes spell, where it links without a host.
fn linked_of(alloc: Global, bytes: &[u8]) -> Option<Linked> {
    let Ok(found) = decode(alloc, bytes) else {
        return None;
    };
    let Ok(valid) = validate(alloc, found) else {
        return None;
    };
    match link(alloc, valid, &[]) {
        Ok(linked) => Some(linked),
        Err(_) => None,
    }
}

// Runs a new instance, and says how that ended and how many instructions were executed.
fn line_of(alloc: Global, linked: &Linked, fuel: u64) -> Option<String> {
    let Ok(mut instance) = Instance::new(alloc, linked) else {
        return None;
    };
    let line = match instance.run(&mut Nobody { answer: 0 }, fuel) {
        Outcome::Finished { used } => format!(in alloc; "finished {used}\n"),
        Outcome::Trapped { used, .. } => format!(in alloc; "trapped {used}\n"),
        Outcome::Spent { used } => format!(in alloc; "spent {used}\n"),
    };
    match line {
        Ok(line) => Some(line),
        Err(_) => None,
    }
}
