// A world that is run, and one that was run a tick further.

use hosted_tick::Hosted;
use judged_uploads::JudgedUploads;
use recorded_tick::Recorder;
use world_journal::Journal;

/// A world that is run, with the modules of its players, the recorder that stands at it, and the journal that
/// it is kept in.
#[derive(Drop)]
pub struct Kept {
    pub hosted: Hosted,
    pub recorder: Recorder,
    pub journal: Journal,
}

/// A world that was run a tick further and recorded, and what is told of the tick.
#[derive(Drop)]
pub struct KeptTick<'a> {
    pub kept: Kept,
    /// The uploads of the tick with their results.
    pub uploads: JudgedUploads<'a>,
    /// The lines of the tick, but for those of the uploads.
    pub lines: Vec<u8>,
    /// Room for a piece of the lines of the uploads.
    pub room: Vec<u8>,
}
