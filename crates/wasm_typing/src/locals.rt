// The locals of a function, found by the ends of their runs.
ghost use Rattle.std.specs.Prelude.{◌≡◌, ◌<◌, ◌^◌, ◌++◌, slice_get, OnOk};
ghost use Rattle.wasm_typing.specs.Context.{locals_of};
ghost use Rattle.wasm_typing.specs.inner.Runs.{AreEnds, IsRunOf};

use std::alloc::AllocError;
use std::marker::Model;
use wasm_module::{LocalRun, ValType};

/// The parameters of a function and the runs of its other locals. Contracts see the types of all of them, one
/// by one.
#[derive(Drop)]
pub(crate) struct Locals<'a> {
    params: &'a [ValType],
    runs: &'a [LocalRun],
    ends: &'a [u64],
}

impl<'a> Model for Locals<'a> {
    ghost use Rattle.std.specs.Prelude.{List, ◌++◌};
    ghost use Rattle.wasm_values.specs.declared.types.ValType.{ValType};
    ghost use Rattle.wasm_typing.specs.Context.{locals_of};
    ghost use Rattle.wasm_typing.specs.inner.Runs.{AreEnds};

    ghost Value = { List ValType };

    ghost view = { λ locals. locals.params.now ++ locals_of locals.runs.now };

    ghost invariant = { λ locals. AreEnds locals.runs.now locals.ends.now };
}

/// Writes the ends of the runs, in one step a run.
pub(crate) fn write_ends(ends: &mut Vec<u64>, runs: &[LocalRun]) -> Result<(), AllocError>
    ensures { OnOk result (AreEnds runs.now ends.new.items) }
{
    ends.clear();
    let mut end = 0u64;
    let mut at = 0usize;
    while at < runs.len() {
        end = end.saturating_add(u64::from(runs[at].count));
        ends.push(end)?;
        at += 1;
    }
    Ok(())
}

// The first run that ends behind this local.
fn run_of(ends: &[u64], index: u64) -> usize
    ensures { (runs : _) → AreEnds runs ends.now → index < 2 ^ 32 → IsRunOf runs index result }
{
    let mut low = 0usize;
    let mut high = ends.len();
    while low < high {
        let middle = low + (high - low) / 2;
        if ends[middle] <= index {
            low = middle + 1;
        } else {
            high = middle;
        }
    }
    low
}

impl<'a> Locals<'a> {
    /// With the ends of the runs.
    pub fn new(params: &'a [ValType], runs: &'a [LocalRun], ends: &'a [u64]) -> Locals<'a>
        requires ends { AreEnds runs.now ends.now }
        ensures { result ≡ params.entry.now ++ locals_of runs.entry.now }
    {
        Locals { params, runs, ends }
    }

    /// The type of a local.
    pub fn get(&self, index: u32) -> Option<ValType>
        ensures { result ≡ slice_get self.now index }
    {
        let index = index as usize;
        let params = self.params.len();
        if index < params {
            return Some(self.params[index]);
        }
        let run = self.runs.get(run_of(self.ends, (index - params) as u64))?;
        Some(run.value)
    }
}
