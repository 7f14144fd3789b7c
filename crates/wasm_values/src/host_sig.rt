// What a host offers to modules.
use crate::types::ValType;

/// A call that a host offers: the names by which a module imports it, and its type.
#[derive(Clone, Copy)]
pub struct HostSig {
    /// The name of the module that the call is imported from.
    pub module: &'static str,
    /// The name of the call in it.
    pub name: &'static str,
    pub params: &'static [ValType],
    pub result: Option<ValType>,
}
