// A write and a cut, each with its sync.
ghost use Rattle.std.specs.Prelude.{◌≡◌, ℕ, ◌+◌, ◌<◌, ◌^◌, List, length, take, OnOk};
ghost use Rattle.world_io.specs.Causes.{HasCause};
ghost use Rattle.world_io.specs.Disk.{Within, written_at, WritesAt, CutTo, TellsAlike};
ghost use Rattle.world_io.specs.Moments.{LeavesSince, Rests, Torn, Shortened};

use crate::disk::Disk;
use crate::source::Failed;

/// Writes and syncs. On a disk that rests, each moment leaves the write in part, and at `Ok` the disk rests
/// with it.
pub fn write_synced<D: Disk>(disk: &mut D, at: u64, piece: &[u8]) -> Result<(), Failed>
    requires { Within (D.seen disk.old) at }
    ensures told { OnOk result (WritesAt (D.seen disk.old) at piece.now (D.seen disk.new)) }
    ensures limit { OnOk result (at + length piece.now < 2 ^ 62) }
    ensures alike { TellsAlike (D.seen disk.old) (D.seen disk.new) }
    ensures each_moment { (bytes : List ℕ) → Rests bytes (D.seen disk.old) (D.moments disk.old)
        → LeavesSince (Torn at (length piece.now) bytes) (D.moments disk.old) (D.moments disk.new) }
    ensures done { OnOk result ((bytes : List ℕ) → Rests bytes (D.seen disk.old) (D.moments disk.old)
        → Rests (written_at at piece.now bytes) (D.seen disk.new) (D.moments disk.new)) }
    ensures cause { HasCause (D.faults disk.old) (D.faults disk.new) result }
{
    disk.write_at(at, piece)?;
    disk.sync()
}

/// Cuts and syncs. On a disk that rests, each moment leaves the cut in part, and at `Ok` the disk rests with
/// it.
pub fn cut_synced<D: Disk>(disk: &mut D, len: u64) -> Result<(), Failed>
    requires { Within (D.seen disk.old) len }
    ensures told { OnOk result (CutTo (D.seen disk.old) len (D.seen disk.new)) }
    ensures alike { TellsAlike (D.seen disk.old) (D.seen disk.new) }
    ensures each_moment { (bytes : List ℕ) → Rests bytes (D.seen disk.old) (D.moments disk.old)
        → LeavesSince (Shortened len bytes) (D.moments disk.old) (D.moments disk.new) }
    ensures done { OnOk result ((bytes : List ℕ) → Rests bytes (D.seen disk.old) (D.moments disk.old)
        → Rests (take len bytes) (D.seen disk.new) (D.moments disk.new)) }
    ensures cause { HasCause (D.faults disk.old) (D.faults disk.new) result }
{
    disk.cut(len)?;
    disk.sync()
}
