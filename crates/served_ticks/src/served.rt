// A world that is served.

use world_journal::UploadCount;
use world_run::Kept;

/// A world that is served, and how many uploads each of its players has in its journal.
#[derive(Drop)]
pub(crate) struct Served {
    pub kept: Kept,
    pub counts: Vec<UploadCount>,
}
