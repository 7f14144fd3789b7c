// Laws of runs.
ghost use Rattle.wasm_steps.specs.Laws.{IsFunction, HasOneEnd};

use crate::host::Host;

/// With a host that answers a call in one way a run has at most one outcome. That it has one is what running
/// it says.
pub fn runs_have_one_end<H: Host>()
    ensures { IsFunction H.answers → HasOneEnd H.answers }
{}
