// The tokens of a module's text, read one after the other.
#![tactic(auto)]

mod bytes;
mod constants;
mod expected;
mod front;
mod numbers;
mod opcodes;
mod scan;
mod strings;
mod token;
mod tokens;

pub use constants::{i32_of, i64_of};
pub use numbers::index_of;
pub use opcodes::opcode_of;
pub use strings::put_string;
pub use token::Token;
pub use tokens::{BadToken, Tokens};
