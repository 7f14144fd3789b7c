// The links, the door and the pace of a server that is reached over TCP.
#![tactic(auto)]

mod count;
mod door;
mod life;
mod link;
mod pace;

pub use door::SocketDoor;
pub use link::SocketLink;
pub use pace::SleepPace;
