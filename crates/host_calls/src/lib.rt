// The calls of a module to its host, and the desk that answers them.
#![tactic(auto)]

mod call;
mod desk;
mod laws;
mod making;
mod number;
mod room;
mod seen;
mod signatures;
mod wish;

pub use call::Call;
pub use desk::{Desk, NoMemory};
pub use laws::{calls_agree_with_rules, desks_answer_once};
pub use room::DeskRoom;
pub use seen::allowance;
pub use signatures::{host_sigs, parameters};
