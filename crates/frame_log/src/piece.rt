// What an addition writes, and how it is committed.
ghost use Rattle.std.specs.Prelude.{◌≡◌, ℕ, ◌+◌, ◌<◌, ◌≤◌, ◌^◌, [], ◌∷◌, ◌++◌, List, length, drop, IfOk};
ghost use Rattle.std.specs.Prelude.{OnOk};
ghost use Rattle.world_io.specs.Causes.{HasCause};
ghost use Rattle.world_io.specs.Disk.{TellsAlike};
ghost use Rattle.world_io.specs.Moments.{LeavesSince, Rests};
ghost use Rattle.frame_log.specs.Frames.{HasContents, IsLog, IsBeforeOrAfter, IsEmpty, IsEmptyDisk, frame};

use crate::NoMemory;
use byteorder::{ByteOrder, LittleEndian};
use std::alloc::Global;
use world_io::{Disk, Failed, cut_synced, write_synced};

// The bytes before the content of a piece, in which its length is told.
const ROOM: usize = 8;

// The bytes of a piece beside its content: those before it, and the gate behind it.
const BESIDE: usize = 9;

/// The content behind eight bytes of room for its length. The memory for a closed gate behind it is taken
/// too.
pub(crate) fn with_room(alloc: Global, content: &[u8]) -> Result<Vec<u8>, NoMemory>
    ensures room { IfOk result (λ piece. 8 ≤ length piece.items) }
    ensures content { IfOk result (λ piece. drop 8 piece.items ≡ content.now) }
{
    let mut piece = Vec::with_capacity(alloc, content.len().saturating_add(BESIDE))?;
    piece.extend_from_slice(&[0; ROOM])?;
    piece.extend_from_slice(content)?;
    Ok(piece)
}

/// The frame of the content that stands behind the first eight bytes of a piece, and a closed gate behind
/// it.
pub(crate) fn close(mut piece: Vec<u8>) -> Result<Vec<u8>, NoMemory>
    requires { 8 ≤ length piece.items }
    ensures { IfOk result (λ whole. whole.items ≡ frame (drop 8 piece.items) ++ 0 ∷ []) }
{
    let size = (piece.len() - ROOM) as u64;
    LittleEndian::write_u64(&mut piece, size);
    piece.push(0)?;
    Ok(piece)
}

/// The frame of a content, and a closed gate behind it.
pub(crate) fn framed(alloc: Global, content: &[u8]) -> Result<Vec<u8>, NoMemory>
    ensures { IfOk result (λ piece. piece.items ≡ frame content.now ++ 0 ∷ []) }
{
    let piece = with_room(alloc, content)?;
    close(piece)
}

/// Writes a frame and its closed gate behind the closed gate at the place, which is then opened.
pub(crate) fn commit<D: Disk>(disk: &mut D, gate: u64, piece: &[u8]) -> Result<(), Failed>
    requires place { gate < 2 ^ 62 }
    requires log { IsLog gate (D.seen disk.old) (D.moments disk.old) }
    ensures each_moment { (contents : List (List ℕ)) (content : List ℕ) → length content < 2 ^ 64
        → piece.now ≡ frame content ++ 0 ∷ []
        → HasContents contents gate (D.seen disk.old) (D.moments disk.old)
        → LeavesSince (IsBeforeOrAfter contents content) (D.moments disk.old) (D.moments disk.new) }
    ensures written { OnOk result ((front content : List ℕ) → gate ≡ length front
        → piece.now ≡ frame content ++ 0 ∷ []
        → Rests (front ++ 0 ∷ []) (D.seen disk.old) (D.moments disk.old)
        → Rests ((front ++ 1 ∷ frame content) ++ 0 ∷ []) (D.seen disk.new) (D.moments disk.new)) }
    ensures limit { OnOk result (gate + 1 + length piece.now < 2 ^ 62) }
    ensures alike { TellsAlike (D.seen disk.old) (D.seen disk.new) }
    ensures cause { HasCause (D.faults disk.old) (D.faults disk.new) result }
{
    write_synced(disk, gate + 1, piece)?;
    write_synced(disk, gate, &[1])
}

/// Leaves a closed gate alone on a disk on which nothing was ever committed.
pub(crate) fn clear<D: Disk>(disk: &mut D) -> Result<(), Failed>
    requires { IsEmptyDisk (D.seen disk.old) (D.moments disk.old) }
    ensures each_moment { (bytes : List ℕ) → IsEmpty bytes
        → Rests bytes (D.seen disk.old) (D.moments disk.old)
        → LeavesSince IsEmpty (D.moments disk.old) (D.moments disk.new) }
    ensures done { OnOk result ((bytes : List ℕ) → IsEmpty bytes
        → Rests bytes (D.seen disk.old) (D.moments disk.old)
        → Rests (0 ∷ []) (D.seen disk.new) (D.moments disk.new)) }
    ensures alike { TellsAlike (D.seen disk.old) (D.seen disk.new) }
    ensures cause { HasCause (D.faults disk.old) (D.faults disk.new) result }
{
    let len = disk.len()?;
    if len > 1 {
        cut_synced(disk, 1)
    } else {
        write_synced(disk, 0, &[0])
    }
}
