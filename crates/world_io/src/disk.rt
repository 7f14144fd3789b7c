// Disks: bytes at places.
ghost use Rattle.std.specs.Prelude.{◌≡◌, ℕ, ◌+◌, ◌<◌, ◌^◌, List, Option, length, take, IfOk, OnOk, OnErr};
ghost use Rattle.std.specs.Io.{ReadsAtMost};
ghost use Rattle.world_io.specs.Causes.{HasCause};
ghost use Rattle.world_io.specs.Disk.{LengthIs, Within, ReadsAt, WritesAt, CutTo, Same, TellsAlike};
ghost use Rattle.world_io.specs.Moments.{Moment, Goes, Settles, IsLeftNow, torn, shortened};

use crate::source::Failed;

/// The greatest length of a disk, which is shorter than `2^62` bytes.
pub const MOST_BYTES: u64 = 0x3fff_ffff_ffff_ffff;

/// Bytes that are read and written at places. After a write or a cut that fails nothing is said of what a
/// read gives, but that a crash may leave it.
pub trait Disk {
    /// The bytes that a read gives, where the disk tells.
    ghost seen: { Self → Option (List ℕ) };

    /// The moments so far, the latest first, by what a crash at each may leave.
    ghost moments: { Self → List Moment };

    /// How often it failed.
    ghost faults: { Self → ℕ };

    /// The number of bytes.
    fn len(&mut self) -> Result<u64, Failed>
        ensures told { IfOk result (λ n. LengthIs (seen self.old) n) }
        ensures limit { IfOk result (λ n. n < 2 ^ 62) }
        ensures same { Same (seen self.old) (seen self.new) }
        ensures crash { moments self.new ≡ moments self.old }
        ensures cause { HasCause (faults self.old) (faults self.new) result };

    /// Fills as much of the buffer's front as there are bytes from the place on, and says how much.
    fn read(&mut self, at: u64, buf: &mut [u8]) -> Result<usize, Failed>
        ensures bound { ReadsAtMost result buf.new }
        ensures told { IfOk result (λ n. ReadsAt (seen self.old) at (length buf.old) (take n buf.new)) }
        ensures same { Same (seen self.old) (seen self.new) }
        ensures crash { moments self.new ≡ moments self.old }
        ensures cause { HasCause (faults self.old) (faults self.new) result };

    /// Writes over what stands at the place, and on past the end. It fails where the disk would have `2^62`
    /// bytes or more.
    fn write_at(&mut self, at: u64, bytes: &[u8]) -> Result<(), Failed>
        requires { Within (seen self.old) at }
        ensures told { OnOk result (WritesAt (seen self.old) at bytes.now (seen self.new)) }
        ensures limit { OnOk result (at + length bytes.now < 2 ^ 62) }
        ensures alike { TellsAlike (seen self.old) (seen self.new) }
        ensures crash { Goes (torn at (length bytes.now)) (moments self.old) (moments self.new) }
        ensures cause { HasCause (faults self.old) (faults self.new) result };

    /// Leaves the first `len` bytes.
    fn cut(&mut self, len: u64) -> Result<(), Failed>
        requires { Within (seen self.old) len }
        ensures told { OnOk result (CutTo (seen self.old) len (seen self.new)) }
        ensures alike { TellsAlike (seen self.old) (seen self.new) }
        ensures crash { Goes (shortened len) (moments self.old) (moments self.new) }
        ensures cause { HasCause (faults self.old) (faults self.new) result };

    /// Returns once what was written would outlast a loss of power: a crash then leaves what a read gives.
    fn sync(&mut self) -> Result<(), Failed>
        ensures same { Same (seen self.old) (seen self.new) }
        ensures crash { OnOk result (Settles (seen self.old) (moments self.old) (moments self.new)) }
        ensures failed { OnErr result (moments self.new ≡ moments self.old) }
        ensures cause { HasCause (faults self.old) (faults self.new) result };

    /// What a read gives now is one of the images that a crash may leave now.
    ghost left_now: { (disk : Self) → IsLeftNow (seen disk) (moments disk) };
}
