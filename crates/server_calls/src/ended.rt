// How a command ended, and what failed first for it.
use run_status::Status;
use world_io::Trouble;

/// What a command reads or writes.
#[derive(Drop)]
pub enum Place {
    /// The file at this path.
    File(String),
    /// Standard output.
    Output,
}

/// Trouble with a file or a stream.
#[derive(Drop)]
pub struct PlacedTrouble {
    pub place: Place,
    pub trouble: Trouble,
}

/// How a command ended, and the file or the stream that failed first for it, where one did.
#[derive(Drop)]
pub struct Ended {
    pub status: Status,
    pub trouble: Option<PlacedTrouble>,
}

// Trouble with the file at a path, where there is one.
pub(crate) fn with_file(path: String, trouble: Option<Trouble>) -> Option<PlacedTrouble> {
    match trouble {
        Some(trouble) => Some(PlacedTrouble {
            place: Place::File(path),
            trouble,
        }),
        None => None,
    }
}

// Trouble with standard output, where there is one.
pub(crate) fn with_output(trouble: Option<Trouble>) -> Option<PlacedTrouble> {
    match trouble {
        Some(trouble) => Some(PlacedTrouble {
            place: Place::Output,
            trouble,
        }),
        None => None,
    }
}
