// Instances of linked modules.
ghost use Rattle.std.specs.Prelude.{◌≡◌, IfOk, vec_capacity};
ghost use Rattle.wasm_link.specs.Kept.{TakesAtMost};
ghost use Rattle.wasm_machine.specs.Machine.{program_of};
ghost use Rattle.wasm_machine.specs.Runs.{Runs};

use crate::machine::{Machine, take_room};
use std::alloc::{AllocError as NoMemory, Global};
use wasm_link::{Linked, Stored};
use wasm_steps::{Host, Outcome};

/// An instance of a linked module: its memory, globals and table, and all room that a run of it may need.
pub struct Instance<'a> {
    linked: &'a Linked,
    machine: Machine<'a>,
    stored: Stored,
    ghost room: { TakesAtMost (program_of linked.now) (vec_capacity machine.arguments) },
}

impl Drop for Instance<'_> {
    fn drop(self) {
        let Instance {
            linked: _,
            machine: _,
            stored: _,
        } = self;
    }
}

impl<'a> Instance<'a> {
    ghost use Rattle.wasm_machine.specs.Fresh.{IsFresh};

    /// A fresh instance: WebAssembly Core 1.0, chapter 4.5.4. It reserves all memory that a run of it may
    /// need: the pages of its memory, at most
    /// 256, and room for 65,536 locals and operands and for 1,000 frames with their blocks. No page past the
    /// memory's least size is touched.
    pub fn new(alloc: Global, linked: &'a Linked) -> Result<Instance<'a>, NoMemory>
        ensures fresh { IfOk result IsFresh }
        ensures linked { IfOk result (λ instance. instance.linked.now ≡ linked.entry.now) }
    {
        let stored = linked.store(alloc)?;
        let mut machine = Machine::new(alloc)?;
        take_room(alloc, linked, &mut machine.arguments)?;
        Ok(Instance {
            linked,
            machine,
            stored,
        })
    }

    /// Runs a fresh instance for a budget of instructions: its start function first, where it has one, and
    /// then `loop`. Every instruction that
    /// is executed costs 1, a call of the host and one that traps included. It takes no memory.
    pub fn run<H: Host>(&mut self, host: &mut H, fuel: u64) -> Outcome
        requires { IsFresh self.old }
        ensures { Runs self.old.linked.now H.answers host.old fuel result host.new }
    {
        let linked: &'a Linked = self.linked;
        self.machine
            .run_stored(linked, &mut self.stored, host, fuel)
    }
}
