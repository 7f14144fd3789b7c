// The log of a disk.
ghost use Rattle.std.specs.Prelude.{◌≡◌, ◌≢◌, ◌↔◌, ℕ, ◌+◌, ◌<◌, ◌≤◌, ◌^◌, true, false, [], ◌∷◌, ◌++◌, List};
ghost use Rattle.std.specs.Prelude.{length, drop, Err, IfOk, IfErr, OnOk, OnErr};
ghost use Rattle.world_io.specs.Causes.{HasCause, Rose};
ghost use Rattle.world_io.specs.Disk.{LengthIs, TellsAlike};
ghost use Rattle.world_io.specs.Moments.{LeavesSince, Rests};
ghost use Rattle.frame_log.specs.Frames.{HasClosed, HasContents, IsClosedAt, IsLog, IsBeforeOrAfter, IsEmpty};
ghost use Rattle.frame_log.specs.Frames.{IsEmptyDisk, IsEmptyOrFirst, Stands, frame};
ghost use Rattle.frame_log.specs.declared.fault.AppendFault.TheVariants.{DiskFault, Closed, Memory};

use crate::fault::AppendFault;
use crate::piece::{clear, close, commit, framed, with_room};
use std::alloc::Global;
use world_io::{Disk, Failed, cut_synced};

/// A log, by the place of its closed gate, which is the last byte of its disk. Once a call of the disk failed
/// it adds nothing more.
#[derive(Drop)]
pub struct Log {
    gate: u64,
    is_closed: bool,
    ghost in_range: { gate < 2 ^ 62 },
}

impl Log {
    /// Makes the log of this first content on a disk on which nothing was ever committed. It takes its memory
    /// before the first call of the disk.
    pub fn create<D: Disk>(alloc: Global, disk: &mut D, first: &[u8]) -> Result<Log, AppendFault>
        requires { IsEmptyDisk (D.seen disk.old) (D.moments disk.old) }
        ensures each_moment { (bytes : List ℕ) → IsEmpty bytes
            → Rests bytes (D.seen disk.old) (D.moments disk.old)
            → LeavesSince (IsEmptyOrFirst first.now) (D.moments disk.old) (D.moments disk.new) }
        ensures written { OnOk result ((bytes : List ℕ) → IsEmpty bytes
            → Rests bytes (D.seen disk.old) (D.moments disk.old)
            → Rests ((1 ∷ frame first.now) ++ 0 ∷ []) (D.seen disk.new) (D.moments disk.new)) }
        ensures alike { TellsAlike (D.seen disk.old) (D.seen disk.new) }
        ensures rests { IfOk result (λ log. IsLog log.gate (D.seen disk.new) (D.moments disk.new)) }
        ensures gate { IfOk result (λ log. log.gate ≡ 9 + length first.now) }
        ensures is_open { IfOk result (λ log. log.is_closed ≡ false) }
        ensures disk_fault { IfErr result (λ e. e ≡ DiskFault
            → Rose (D.faults disk.old) (D.faults disk.new)) }
        ensures memory { IfErr result (λ e. e ≡ Memory → disk.new ≡ disk.old) }
        ensures never_closed { IfErr result (λ e. e ≢ Closed) }
        ensures steady { OnOk result (D.faults disk.new ≡ D.faults disk.old) }
        ensures later { D.faults disk.old ≤ D.faults disk.new }
    {
        let Ok(piece) = framed(alloc, first) else {
            return Err(AppendFault::Memory);
        };
        let Ok(()) = clear(disk) else {
            return Err(AppendFault::DiskFault);
        };
        let Ok(()) = commit(disk, 0, &piece) else {
            return Err(AppendFault::DiskFault);
        };
        Ok(Log {
            gate: piece.len() as u64,
            is_closed: false,
        })
    }

    /// Opens the log whose closed gate is at this place of a disk of this length, in bytes. What follows the
    /// gate is cut off.
    pub fn open<D: Disk>(disk: &mut D, len: u64, gate: u64) -> Result<Log, Failed>
        requires length { LengthIs (D.seen disk.old) len }
        requires place { gate + 1 < 2 ^ 62 }
        requires closed { IsClosedAt gate (D.seen disk.old) (D.moments disk.old) }
        ensures each_moment { (contents : List (List ℕ)) (rest : List ℕ)
            → HasClosed contents gate rest (D.seen disk.old) (D.moments disk.old)
            → LeavesSince (Stands contents) (D.moments disk.old) (D.moments disk.new) }
        ensures done { OnOk result ((contents : List (List ℕ)) (rest : List ℕ)
            → HasClosed contents gate rest (D.seen disk.old) (D.moments disk.old)
            → HasContents contents gate (D.seen disk.new) (D.moments disk.new)) }
        ensures alike { TellsAlike (D.seen disk.old) (D.seen disk.new) }
        ensures rests { IfOk result (λ log. IsLog log.gate (D.seen disk.new) (D.moments disk.new)) }
        ensures gate { IfOk result (λ log. log.gate ≡ gate) }
        ensures is_open { IfOk result (λ log. log.is_closed ≡ false) }
        ensures cause { HasCause (D.faults disk.old) (D.faults disk.new) result }
    {
        let log = Log {
            gate,
            is_closed: false,
        };
        if len <= gate + 1 {
            return Ok(log);
        }
        cut_synced(disk, gate + 1)?;
        Ok(log)
    }

    /// Whether a call of the disk failed, so that nothing more is added.
    pub fn is_closed(&self) -> bool
        ensures { result ≡ self.now.is_closed }
    {
        self.is_closed
    }

    /// Adds a content: its frame is written behind the closed gate, which is opened once that would outlast a
    /// loss of power. It takes its memory before the first call of the disk. After a `DiskFault` the log
    /// answers `Closed`, and is to be opened again.
    pub fn append<D: Disk>(
        &mut self,
        alloc: Global,
        disk: &mut D,
        content: &[u8],
    ) -> Result<(), AppendFault>
        requires { self.old.is_closed ≡ false → IsLog self.old.gate (D.seen disk.old) (D.moments disk.old) }
        ensures each_moment { (contents : List (List ℕ))
            → HasContents contents self.old.gate (D.seen disk.old) (D.moments disk.old)
            → LeavesSince (IsBeforeOrAfter contents content.now) (D.moments disk.old) (D.moments disk.new) }
        ensures done { OnOk result ((contents : List (List ℕ))
            → HasContents contents self.old.gate (D.seen disk.old) (D.moments disk.old)
            → HasContents (contents ++ content.now ∷ []) self.new.gate
            (D.seen disk.new) (D.moments disk.new)) }
        ensures written { OnOk result ((front : List ℕ) → self.old.gate ≡ length front
            → Rests (front ++ 0 ∷ []) (D.seen disk.old) (D.moments disk.old)
            → Rests ((front ++ 1 ∷ frame content.now) ++ 0 ∷ []) (D.seen disk.new) (D.moments disk.new)) }
        ensures alike { TellsAlike (D.seen disk.old) (D.seen disk.new) }
        ensures rests { OnOk result (IsLog self.new.gate (D.seen disk.new) (D.moments disk.new)) }
        ensures gate { OnOk result (self.new.gate ≡ self.old.gate + 9 + length content.now) }
        ensures is_open { OnOk result (self.new.is_closed ≡ false) }
        ensures disk_fault { IfErr result (λ e. e ≡ DiskFault
            → Rose (D.faults disk.old) (D.faults disk.new)
            × (self.new ≡ record self.old { is_closed = true })) }
        ensures closed { (result ≡ Err Closed) ↔ (self.old.is_closed ≡ true) }
        ensures unchanged { IfErr result (λ e. e ≢ DiskFault
            → (disk.new ≡ disk.old) × (self.new ≡ self.old)) }
        ensures steady { OnOk result (D.faults disk.new ≡ D.faults disk.old) }
        ensures later { D.faults disk.old ≤ D.faults disk.new }
    {
        if self.is_closed {
            return Err(AppendFault::Closed);
        }
        let Ok(piece) = with_room(alloc, content) else {
            return Err(AppendFault::Memory);
        };
        self.append_piece(disk, piece)
    }

    /// Adds the content that stands behind the first eight bytes of a piece: they are room for its length,
    /// whatever they hold, so that the frame is made where the content stands. For the rest it is as
    /// `append`. Only the byte of the closed gate at the end may want memory.
    pub fn append_piece<D: Disk>(&mut self, disk: &mut D, piece: Vec<u8>) -> Result<(), AppendFault>
        requires log { self.old.is_closed ≡ false
            → IsLog self.old.gate (D.seen disk.old) (D.moments disk.old) }
        requires room { 8 ≤ length piece.items }
        ensures each_moment { (contents : List (List ℕ))
            → HasContents contents self.old.gate (D.seen disk.old) (D.moments disk.old)
            → LeavesSince (IsBeforeOrAfter contents (drop 8 piece.items))
            (D.moments disk.old) (D.moments disk.new) }
        ensures done { OnOk result ((contents : List (List ℕ))
            → HasContents contents self.old.gate (D.seen disk.old) (D.moments disk.old)
            → HasContents (contents ++ drop 8 piece.items ∷ []) self.new.gate
            (D.seen disk.new) (D.moments disk.new)) }
        ensures written { OnOk result ((front : List ℕ) → self.old.gate ≡ length front
            → Rests (front ++ 0 ∷ []) (D.seen disk.old) (D.moments disk.old)
            → Rests ((front ++ 1 ∷ frame (drop 8 piece.items)) ++ 0 ∷ [])
            (D.seen disk.new) (D.moments disk.new)) }
        ensures alike { TellsAlike (D.seen disk.old) (D.seen disk.new) }
        ensures rests { OnOk result (IsLog self.new.gate (D.seen disk.new) (D.moments disk.new)) }
        ensures gate { OnOk result (self.new.gate ≡ self.old.gate + 9 + length (drop 8 piece.items)) }
        ensures is_open { OnOk result (self.new.is_closed ≡ false) }
        ensures disk_fault { IfErr result (λ e. e ≡ DiskFault
            → Rose (D.faults disk.old) (D.faults disk.new)
            × (self.new ≡ record self.old { is_closed = true })) }
        ensures closed { (result ≡ Err Closed) ↔ (self.old.is_closed ≡ true) }
        ensures unchanged { IfErr result (λ e. e ≢ DiskFault
            → (disk.new ≡ disk.old) × (self.new ≡ self.old)) }
        ensures steady { OnOk result (D.faults disk.new ≡ D.faults disk.old) }
        ensures later { D.faults disk.old ≤ D.faults disk.new }
    {
        if self.is_closed {
            return Err(AppendFault::Closed);
        }
        let Ok(whole) = close(piece) else {
            return Err(AppendFault::Memory);
        };
        let gate = self.gate;
        let Ok(()) = commit(disk, gate, &whole) else {
            self.is_closed = true;
            return Err(AppendFault::DiskFault);
        };
        self.gate = gate + whole.len() as u64;
        Ok(())
    }
}
