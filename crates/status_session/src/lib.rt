// Sessions: what is asked over a link, and what is answered.
#![tactic(auto)]

mod answers;
mod asked;
mod hearing;
mod laws;
mod replies;
mod serve;
mod session;
mod tokens;
mod turn;

pub use laws::request_is_judged_once;
pub use serve::{REPLIES, serve_link};
pub use session::SessionEnd;
