// The room that runs of modules take, and the runs in it.
ghost use Rattle.std.specs.Prelude.{◌≡◌, ◌⊎◌, ℕ, IfOk, OnErr, OnOk, vec_capacity};
ghost use Rattle.wasm_steps.specs.Threads.{Thread};
ghost use Rattle.wasm_steps.specs.Runs.{IsInvoked};
ghost use Rattle.wasm_soundness.specs.Typed.{IsTypedProgram, IsTypedStore};
ghost use Rattle.wasm_stack.specs.Held.{nothing};
ghost use Rattle.wasm_stack.specs.Standing.{held};
ghost use Rattle.wasm_link.specs.Kept.{TakesAtMost, link_view};
ghost use Rattle.wasm_link.specs.Linking.{first_store};
ghost use Rattle.wasm_link.specs.Callee.{IsEntry, store_view};
ghost use Rattle.wasm_machine.specs.Machine.{base_of, program_of};
ghost use Rattle.wasm_machine.specs.Runs.{EndsSo, IsRoomFor, Runs};

use crate::outcomes::behind;
use crate::run::run_from;
use std::alloc::{AllocError as NoMemory, Global};
use wasm_link::{Callee, Linked, Stored};
use wasm_stack::{Place, Stack};
use wasm_steps::{Host, Outcome};

/// The room that runs take, one after the other: for 65,536 locals and operands, for 1,000 frames with their
/// blocks, and for the arguments of a call of the host.
pub struct Machine<'a> {
    pub(crate) stack: Stack<'a>,
    pub(crate) arguments: Vec<i64>,
}

impl Drop for Machine<'_> {
    fn drop(self) {
        let Machine {
            stack: _,
            arguments: _,
        } = self;
    }
}

impl<'a> Machine<'a> {
    /// All room but that for arguments. None of it is touched.
    pub fn new(alloc: Global) -> Result<Machine<'a>, NoMemory>
        ensures stack { IfOk result (λ machine. held machine.stack ≡ nothing) }
        ensures arguments { IfOk result (λ machine. vec_capacity machine.arguments ≡ 0) }
    {
        Ok(Machine {
            stack: Stack::new(alloc)?,
            arguments: Vec::new(alloc),
        })
    }

    /// Runs a new instance of a linked module for a budget of instructions, as `Instance::run` does, whatever
    /// was run before. The instance's memory, globals and table are taken before its first instruction, and
    /// room for arguments where there is less than a call of the module needs.
    pub fn run<H: Host>(
        &mut self,
        alloc: Global,
        linked: &'a Linked,
        host: &mut H,
        fuel: u64,
    ) -> Result<Outcome, NoMemory>
        ensures runs { IfOk result
            (λ outcome. Runs linked.entry.now H.answers host.old fuel outcome host.new) }
        ensures refused { OnErr result (host.new ≡ host.old) }
        ensures arguments { IsRoomFor (program_of linked.entry.now) (vec_capacity self.old.arguments)
            (vec_capacity self.new.arguments) }
    {
        let mut stored = linked.store(alloc)?;
        take_room(alloc, linked, &mut self.arguments)?;
        Ok(self.run_stored(linked, &mut stored, host, fuel))
    }

    /// Runs a module in a new store of it: its start function first, where it has one, and then `loop`. It
    /// takes no memory.
    pub(crate) fn run_stored<H: Host>(
        &mut self,
        linked: &'a Linked,
        stored: &mut Stored,
        host: &mut H,
        fuel: u64,
    ) -> Outcome
        requires first { store_view stored.old ≡ first_store (link_view linked.now).whole }
        requires stored { IsTypedStore (base_of linked.now) (store_view stored.old) }
        requires room { TakesAtMost (program_of linked.now) (vec_capacity self.old.arguments) }
        ensures runs { Runs linked.entry.now H.answers host.old fuel result host.new }
        ensures capacity { vec_capacity self.new.arguments ≡ vec_capacity self.old.arguments }
    {
        let main = linked.main();
        let Some(start) = linked.start() else {
            return self.invoke(linked, stored, host, main, fuel);
        };
        match self.invoke(linked, stored, host, start, fuel) {
            Outcome::Finished { used } => {
                behind(used, self.invoke(linked, stored, host, main, fuel - used))
            }
            stopped => stopped,
        }
    }

    /// Runs a function of a module that takes and gives nothing, as one that is invoked from outside. What
    /// an earlier run left on the stack is dropped.
    fn invoke<H: Host>(
        &mut self,
        linked: &'a Linked,
        stored: &mut Stored,
        host: &mut H,
        func: u32,
        fuel: u64,
    ) -> Outcome
        requires typed { IsTypedProgram (base_of linked.now) (program_of linked.now) }
        requires entry { IsEntry (program_of linked.now) func }
        requires stored { IsTypedStore (base_of linked.now) (store_view stored.old) }
        requires room { TakesAtMost (program_of linked.now) (vec_capacity self.old.arguments) }
        ensures ends { (thread : Thread) × IsInvoked (program_of linked.entry.now) func thread
            × EndsSo (program_of linked.entry.now) H.answers
            (record { thread = thread; store = store_view stored.old; host = host.old }) fuel result
            (store_view stored.new) host.new }
        ensures kept { (used : ℕ) → result ≡ Outcome.Finished used
            → IsTypedStore (base_of linked.entry.now) (store_view stored.new) }
        ensures capacity { vec_capacity self.new.arguments ≡ vec_capacity self.old.arguments }
    {
        self.stack.reset();
        let Callee::Defined { more, body, .. } = linked.callee(func) else {
            unreachable!()
        };
        let outside = Place { code: &[] };
        if !self.stack.call(outside, 0, more, false) {
            unreachable!()
        }
        run_from(
            linked,
            &mut self.stack,
            stored,
            &mut self.arguments,
            host,
            Place { code: body },
            fuel,
        )
    }
}

/// Takes room for the arguments of a module's calls of the host, where there is less.
pub(crate) fn take_room(
    alloc: Global,
    linked: &Linked,
    arguments: &mut Vec<i64>,
) -> Result<(), NoMemory>
    ensures enough { OnOk result (TakesAtMost (program_of linked.now) (vec_capacity arguments.new)) }
    ensures room { IsRoomFor (program_of linked.now) (vec_capacity arguments.old)
        (vec_capacity arguments.new) }
{
    let most = linked.most_arguments();
    if arguments.capacity() >= most {
        return Ok(());
    }
    *arguments = Vec::with_capacity(alloc, most)?;
    Ok(())
}
