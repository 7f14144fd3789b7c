// Where links come from.
use crate::link::Link;

/// What gives links, one after the other, to whoever asks. It tells nothing of them.
pub trait Door {
    /// What it gives.
    type Line: Link + Drop;

    /// The next link, or `None` where the door is closed: no link comes any more. It may wait.
    fn next(&self) -> Option<Self::Line>;
}
