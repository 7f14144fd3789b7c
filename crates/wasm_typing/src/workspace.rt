// The room in which functions are checked.
ghost use Rattle.std.specs.Prelude.{◌≡◌, [], false};

use crate::labels::Labels;
use crate::operands::Operands;
use std::alloc::Global;

/// What is kept from function to function, so that none allocates once it has grown. What it holds says
/// nothing.
#[derive(Drop)]
pub struct Workspace {
    pub(crate) operands: Operands,
    pub(crate) labels: Labels,
    pub(crate) ends: Vec<u64>,
}

impl Workspace {
    /// Without room. It takes no memory.
    pub fn new(alloc: Global) -> Workspace
        ensures { (result.operands ≡ (false, [], [])) × (result.labels ≡ []) × (result.ends.items ≡ []) }
    {
        Workspace {
            operands: Operands::new(alloc),
            labels: Labels::new(alloc),
            ends: Vec::new(alloc),
        }
    }
}
