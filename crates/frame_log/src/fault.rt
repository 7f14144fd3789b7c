// Why the calls of a log fail.

/// Why nothing is added.
#[derive(Clone, Copy, Debug, PartialEq, Eq)]
pub enum AppendFault {
    /// A call of the disk failed. What stands there is known once the log is opened again.
    DiskFault,
    /// A call of the disk failed earlier, and the log was not opened again.
    Closed,
    /// There is not enough memory.
    Memory,
}

/// Why nothing is read.
#[derive(Clone, Copy, Debug, PartialEq, Eq)]
pub enum ReadFault {
    /// A call of the disk failed.
    DiskFault,
    /// There is not enough memory.
    Memory,
}
