// A disk in memory, of which chosen calls fail.
ghost use Rattle.std.specs.Prelude.{◌≡◌, ℕ, ◌+◌, ◌-◌, ◌<◌, ◌≤◌, ◌^◌, ◌↔◌, ◌⊎◌, List, [], ◌∷◌, length, min};
ghost use Rattle.std.specs.Prelude.{take, vec_capacity, Some, None, IsErr, IfOk, OnOk, OnErr};
ghost use Rattle.std.specs.Io.{ReadsAtMost};
ghost use Rattle.world_io.specs.Causes.{HasCause};
ghost use Rattle.world_io.specs.Changes.{moments_of, latest, NeedsMemory};
ghost use Rattle.world_io.specs.Disk.{LengthIs, Within, ReadsAt, WritesAt, CutTo, Same, TellsAlike};
ghost use Rattle.world_io.specs.Moments.{Goes, IsLeftNow, Settles, settled, next, torn, shortened};
ghost use Rattle.world_io.specs.Outages.{NextIsOut, Counted, IsFresh};
ghost use Rattle.world_io.specs.Picks.{IsPicked};
ghost use Rattle.world_io.specs.inner.Propositions.{IsLeft, left_prop};

use crate::change::{Change, copy_of, put_over};
use crate::disk::{Disk, MOST_BYTES};
use crate::outages::Outages;
use crate::pending::{find_pending, image_of};
use crate::source::Failed;
use crate::steady::fill_front;
use std::alloc::{AllocError, Global};

/// A disk in memory, with the calls that changed it.
pub struct MemoryDisk {
    bytes: Vec<u8>,
    calls: Vec<Change>,
    outages: Outages,
    ghost in_range: { length bytes.items < 2 ^ 62 },
    ghost left: { IsLeft bytes.items calls.items } by { left_prop bytes.items calls.items },
    ghost bounded: { (latest (moments_of bytes.items calls.items)).greatest < 2 ^ 62 },
}

impl Drop for MemoryDisk {
    fn drop(self) {
        let MemoryDisk {
            bytes: _,
            calls: _,
            outages: _,
        } = self;
    }
}

impl MemoryDisk {
    ghost use Rattle.world_io.specs.InMemory.{moments_now};

    /// A disk of these bytes, which a crash leaves. Its calls of the numbers in `fails` fail, counted from 0,
    /// and all calls after the one of the number `stop`.
    pub fn new(bytes: Vec<u8>, fails: Vec<u64>, stop: Option<u64>) -> Self
        requires { length bytes.items < 2 ^ 62 }
        ensures seen { result.bytes ≡ bytes }
        ensures plan { IsFresh result.outages fails.items stop }
        ensures rests { moments_now result ≡ settled bytes.items ∷ [] }
        ensures no_memory { vec_capacity result.calls ≡ 0 }
    {
        let alloc = *bytes.allocator();
        MemoryDisk {
            bytes,
            calls: Vec::new(alloc),
            outages: Outages::new(fails, stop),
        }
    }

    /// The bytes that a read gives.
    pub fn bytes(&self) -> &[u8]
        ensures { result.now ≡ self.now.bytes.items }
    {
        &self.bytes
    }

    /// A disk that never fails, of one image of a crash now, by the pick.
    pub fn crash(&self, alloc: Global, pick: u64) -> Result<MemoryDisk, AllocError>
        ensures picked { IfOk result (λ disk.
            IsPicked pick (latest (moments_now self.now)) self.now.bytes.items disk.bytes.items) }
        ensures image { IfOk result (λ disk. IsLeftNow (Some disk.bytes.items) (moments_now self.now)) }
        ensures plan { IfOk result (λ disk. IsFresh disk.outages [] None) }
        ensures rests { IfOk result (λ disk. moments_now disk ≡ settled disk.bytes.items ∷ []) }
    {
        let image = self.image(alloc, pick)?;
        Ok(MemoryDisk::new(image, Vec::new(alloc), None))
    }

    // The image of a crash now, by the pick.
    fn image(&self, alloc: Global, pick: u64) -> Result<Vec<u8>, AllocError>
        ensures picked { IfOk result (λ image.
            IsPicked pick (latest (moments_now self.now)) self.now.bytes.items image.items) }
    {
        if pick == 1 {
            return copy_of(alloc, &self.bytes);
        }
        let pending = find_pending(alloc, &self.bytes, &self.calls)?;
        let len = if pick == 0 {
            pending.least
        } else {
            pending.greatest
        };
        image_of(pending, len, (pick % 256) as u8)
    }
}

impl Disk for MemoryDisk {
    ghost use Rattle.world_io.specs.InMemory.{moments_now};

    ghost seen = { λ d. Some d.bytes.items };

    ghost moments = { λ d. moments_of d.bytes.items d.calls.items };

    ghost faults = { λ d. d.outages.faults.count };

    ghost left_now = { λ d. d.left };

    fn len(&mut self) -> Result<u64, Failed>
        ensures told { IfOk result (λ n. LengthIs (Some self.old.bytes.items) n) }
        ensures limit { IfOk result (λ n. n < 2 ^ 62) }
        ensures same { Same (Some self.old.bytes.items) (Some self.new.bytes.items) }
        ensures crash { moments_now self.new ≡ moments_now self.old }
        ensures cause { HasCause self.old.outages.faults.count self.new.outages.faults.count result }
        ensures planned { IsErr result ↔ NextIsOut self.old.outages }
        ensures counted { Counted self.old.outages self.new.outages result }
    {
        self.outages.next_call()?;
        Ok(self.bytes.len() as u64)
    }

    fn read(&mut self, at: u64, buf: &mut [u8]) -> Result<usize, Failed>
        ensures bound { ReadsAtMost result buf.new }
        ensures told { IfOk result
            (λ n. ReadsAt (Some self.old.bytes.items) at (length buf.old) (take n buf.new)) }
        ensures same { Same (Some self.old.bytes.items) (Some self.new.bytes.items) }
        ensures crash { moments_now self.new ≡ moments_now self.old }
        ensures cause { HasCause self.old.outages.faults.count self.new.outages.faults.count result }
        ensures planned { IsErr result ↔ NextIsOut self.old.outages }
        ensures counted { Counted self.old.outages self.new.outages result }
    {
        self.outages.next_call()?;
        if at >= self.bytes.len() as u64 {
            return Ok(0);
        }
        Ok(fill_front(buf, &self.bytes[at as usize..]))
    }

    /// It fails by plan, past the greatest length, and where the bytes or the record of the call need more
    /// memory than there is; the bytes are then as before. One that fails by plan was begun: a crash may
    /// leave it in part.
    fn write_at(&mut self, at: u64, bytes: &[u8]) -> Result<(), Failed>
        requires { Within (Some self.old.bytes.items) at }
        ensures told { OnOk result
            (WritesAt (Some self.old.bytes.items) at bytes.now (Some self.new.bytes.items)) }
        ensures limit { OnOk result (at + length bytes.now < 2 ^ 62) }
        ensures alike { TellsAlike (Some self.old.bytes.items) (Some self.new.bytes.items) }
        ensures crash { Goes (torn at (length bytes.now)) (moments_now self.old) (moments_now self.new) }
        ensures noted { OnOk result
            (moments_now self.new ≡ next (torn at (length bytes.now)) (moments_now self.old)) }
        ensures begun { NextIsOut self.old.outages → at + length bytes.now < 2 ^ 62
            → (moments_now self.new ≡ next (torn at (length bytes.now)) (moments_now self.old))
            ⊎ NeedsMemory self.old.calls (min (length bytes.now) (length self.old.bytes.items - at)) }
        ensures cause { HasCause self.old.outages.faults.count self.new.outages.faults.count result }
        ensures planned { NextIsOut self.old.outages → IsErr result }
        ensures only { OnErr result (NextIsOut self.old.outages ⊎ (2 ^ 62 ≤ at + length bytes.now)
            ⊎ (vec_capacity self.old.bytes < at + length bytes.now)
            ⊎ NeedsMemory self.old.calls (min (length bytes.now) (length self.old.bytes.items - at))) }
        ensures err { OnErr result (self.new.bytes.items ≡ self.old.bytes.items) }
        ensures counted { Counted self.old.outages self.new.outages result }
    {
        if bytes.len() as u64 > MOST_BYTES - at {
            return Err(self.outages.fail_call());
        }
        let at = at as usize;
        let alloc = *self.bytes.allocator();
        let Ok(change) = Change::of_write(alloc, &self.bytes, at, bytes.len()) else {
            return Err(self.outages.fail_call());
        };
        let Ok(()) = self.calls.push(change) else {
            return Err(self.outages.fail_call());
        };
        self.outages.next_call()?;
        let Ok(()) = put_over(&mut self.bytes, at, bytes) else {
            return Err(self.outages.refuse());
        };
        Ok(())
    }

    /// It fails by plan, and where the record of the call needs more memory than there is; the bytes are then
    /// as before, and a crash leaves what it left.
    fn cut(&mut self, len: u64) -> Result<(), Failed>
        requires { Within (Some self.old.bytes.items) len }
        ensures told { OnOk result (CutTo (Some self.old.bytes.items) len (Some self.new.bytes.items)) }
        ensures alike { TellsAlike (Some self.old.bytes.items) (Some self.new.bytes.items) }
        ensures crash { Goes (shortened len) (moments_now self.old) (moments_now self.new) }
        ensures noted { OnOk result (moments_now self.new ≡ next (shortened len) (moments_now self.old)) }
        ensures failed { OnErr result (moments_now self.new ≡ moments_now self.old) }
        ensures cause { HasCause self.old.outages.faults.count self.new.outages.faults.count result }
        ensures planned { NextIsOut self.old.outages → IsErr result }
        ensures only { OnErr result (NextIsOut self.old.outages
            ⊎ NeedsMemory self.old.calls (length self.old.bytes.items - len)) }
        ensures err { OnErr result (self.new.bytes.items ≡ self.old.bytes.items) }
        ensures counted { Counted self.old.outages self.new.outages result }
    {
        self.outages.next_call()?;
        let alloc = *self.bytes.allocator();
        let Ok(tail) = copy_of(alloc, &self.bytes[len as usize..]) else {
            return Err(self.outages.refuse());
        };
        let Ok(()) = self.calls.push(Change::Cut(len, tail)) else {
            return Err(self.outages.refuse());
        };
        self.bytes.truncate(len as usize);
        Ok(())
    }

    /// It fails by plan, and where the record of the call needs more memory than there is.
    fn sync(&mut self) -> Result<(), Failed>
        ensures same { Same (Some self.old.bytes.items) (Some self.new.bytes.items) }
        ensures crash { OnOk result
            (Settles (Some self.old.bytes.items) (moments_now self.old) (moments_now self.new)) }
        ensures failed { OnErr result (moments_now self.new ≡ moments_now self.old) }
        ensures cause { HasCause self.old.outages.faults.count self.new.outages.faults.count result }
        ensures planned { NextIsOut self.old.outages → IsErr result }
        ensures only { OnErr result (NextIsOut self.old.outages ⊎ NeedsMemory self.old.calls 0) }
        ensures counted { Counted self.old.outages self.new.outages result }
    {
        self.outages.next_call()?;
        let Ok(()) = self.calls.push(Change::Synced) else {
            return Err(self.outages.refuse());
        };
        Ok(())
    }
}
