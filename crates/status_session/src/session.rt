// How sessions end.

/// How a session ended.
#[derive(Clone, Copy, Debug, PartialEq, Eq)]
pub enum SessionEnd {
    /// It was asked to quit, and said so.
    Quit,
    /// The input ended between two requests.
    Ended,
    /// A read or a write of the link failed.
    LinkFault,
    /// What was heard is no request, and was told so.
    BadRequest,
    /// It gave as many replies as a session gives.
    Spent,
    /// There was no memory for an upload or a reply.
    Memory,
}
