// What a memory or a table begins with, where it is not blank.

/// Where the entries of a segment stand: from which one on, and how many they are.
#[derive(Clone, Copy)]
pub(crate) struct Interval {
    pub start: usize,
    pub len: usize,
}

/// Entries side by side: from which one on, how many they are, and from where on their values stand among
/// those of an image.
#[derive(Clone, Copy)]
pub(crate) struct Stretch {
    pub start: usize,
    pub len: usize,
    pub base: usize,
}

/// The entries of a memory or a table that segments write, and few between them: stretches in rising order,
/// and their values. All others are blank.
#[derive(Drop)]
pub(crate) struct Image<T> {
    pub stretches: Vec<Stretch>,
    pub values: Vec<T>,
}
