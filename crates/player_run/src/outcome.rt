// How a run of the machine is told.
ghost use Rattle.std.specs.Prelude.{◌≡◌};
ghost use Rattle.player_run.specs.Emitted.{outcome_of, trap_number as number_of, used_of};

use intent_book::RunOutcome;
use wasm_machine::{Outcome, Trap};

// How the run ended.
pub(crate) fn run_outcome(outcome: Outcome) -> RunOutcome
    ensures { result ≡ outcome_of outcome }
{
    match outcome {
        Outcome::Finished { .. } => RunOutcome::Finished,
        Outcome::Trapped { trap, .. } => RunOutcome::Trapped(trap_number(trap)),
        Outcome::Spent { .. } => RunOutcome::Spent,
    }
}

// How many instructions it executed.
pub(crate) fn instructions(outcome: Outcome) -> u64
    ensures { result ≡ used_of outcome }
{
    match outcome {
        Outcome::Finished { used } => used,
        Outcome::Trapped { used, .. } => used,
        Outcome::Spent { used } => used,
    }
}

// The number of a trap, from 1 on.
fn trap_number(trap: Trap) -> u8
    ensures { result ≡ number_of trap }
{
    match trap {
        Trap::Unreachable => 1,
        Trap::DivideByZero => 2,
        Trap::Overflow => 3,
        Trap::MemoryBounds => 4,
        Trap::TableBounds => 5,
        Trap::EmptyEntry => 6,
        Trap::WrongType => 7,
        Trap::CallDepth => 8,
        Trap::StackFull => 9,
    }
}
