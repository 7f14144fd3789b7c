// Outcomes of runs in parts.
ghost use Rattle.std.specs.Prelude.{◌≡◌, ◌+◌, ◌<◌, ◌^◌};
ghost use Rattle.wasm_steps.specs.Runs.{behind as behind_of};
ghost use Rattle.wasm_machine.specs.Runs.{used_of};

use wasm_steps::Outcome;

/// The outcome with so many instructions before it.
pub(crate) fn behind(before: u64, outcome: Outcome) -> Outcome
    requires { before + used_of outcome < 2 ^ 64 }
    ensures { result ≡ behind_of before outcome }
{
    match outcome {
        Outcome::Finished { used } => Outcome::Finished {
            used: before + used,
        },
        Outcome::Trapped { used, trap } => Outcome::Trapped {
            used: before + used,
            trap,
        },
        Outcome::Spent { used } => Outcome::Spent {
            used: before + used,
        },
    }
}
