// The calls that changed a disk in memory.
ghost use Rattle.std.specs.Prelude.{◌≡◌, ℕ, ◌+◌, ◌-◌, ◌<◌, ◌≤◌, ◌^◌, List, ◌∷◌, length, min, vec_capacity};
ghost use Rattle.std.specs.Prelude.{IfOk, OnOk, OnErr};
ghost use Rattle.world_io.specs.Disk.{written_at};
ghost use Rattle.world_io.specs.Moments.{next, torn};

use std::alloc::{AllocError, Global};

/// A call that changed a disk, with what it takes to undo it.
#[derive(Drop)]
pub enum Change {
    /// At this place, over these bytes, as many.
    Wrote(u64, Vec<u8>),
    /// At this place, so many bytes, over these, which were the last, and on past the end.
    Grew(u64, u64, Vec<u8>),
    /// To this length, without these bytes.
    Cut(u64, Vec<u8>),
    Synced,
}

impl Change {
    ghost use Rattle.world_io.specs.Changes.{moments_before};
    ghost use Rattle.world_io.specs.declared.change.Change.{Change};

    /// A write of so many bytes, before or after it is done.
    pub fn of_write(
        alloc: Global,
        bytes: &[u8],
        at: usize,
        count: usize,
    ) -> Result<Change, AllocError>
        requires within { at ≤ length bytes.now }
        requires limit { at + count < 2 ^ 62 }
        ensures begun { IfOk result (λ change. (calls : List Change)
            → moments_before bytes.now (change ∷ calls)
            ≡ next (torn at count) (moments_before bytes.now calls)) }
        ensures done { IfOk result (λ change. (piece : List ℕ) (calls : List Change) → length piece ≡ count
            → moments_before (written_at at piece bytes.now) (change ∷ calls)
            ≡ next (torn at count) (moments_before bytes.now calls)) }
        ensures only { OnErr result (0 < min count (length bytes.now - at)) }
    {
        let end = at + count;
        if end <= bytes.len() {
            return Ok(Change::Wrote(at as u64, copy_of(alloc, &bytes[at..end])?));
        }
        Ok(Change::Grew(at as u64, count as u64, copy_of(alloc, &bytes[at..])?))
    }
}

/// A copy of the bytes, which takes no memory where there are none.
pub fn copy_of(alloc: Global, bytes: &[u8]) -> Result<Vec<u8>, AllocError>
    ensures copy { IfOk result (λ copy. copy.items ≡ bytes.now) }
    ensures only { OnErr result (0 < length bytes.now) }
{
    let mut copy = Vec::new(alloc);
    copy.extend_from_slice(bytes)?;
    Ok(copy)
}

/// Writes over what stands at the place, and on past the end.
pub fn put_over(bytes: &mut Vec<u8>, at: usize, piece: &[u8]) -> Result<(), AllocError>
    requires { at + length piece.now < 2 ^ 62 }
    ensures ok { OnOk result (bytes.new.items ≡ written_at at piece.now bytes.old.items) }
    ensures err { OnErr result (bytes.new.items ≡ bytes.old.items) }
    ensures full { OnErr result (vec_capacity bytes.old < at + length piece.now) }
{
    let end = at + piece.len();
    let old = bytes.len();
    if end <= old {
        bytes[at..end].copy_from_slice(piece);
        return Ok(());
    }
    bytes.reserve(end - old)?;
    bytes.truncate(at);
    let Ok(()) = bytes.extend_from_slice(piece) else {
        unreachable!()
    };
    Ok(())
}
