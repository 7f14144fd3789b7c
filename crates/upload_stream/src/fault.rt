// Why streams of uploads are refused.

/// The entry whose first byte stands at this place is the first that is not whole or comes before the entry
/// in front of it.
#[derive(Clone, Copy, Debug, PartialEq, Eq)]
pub struct BadEntry {
    pub place: u64,
}
