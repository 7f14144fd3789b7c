// What stands at a gate of a journal that may grow.
ghost use Rattle.std.specs.Prelude.{◌≡◌, ◌≢◌, ◌<◌, ◌≤◌, ◌^◌, IfOk, IfErr, OnOk};
ghost use Rattle.frame_log.specs.Reading.{EndsWithin, FindsAt};
ghost use Rattle.frame_log.specs.declared.fault.ReadFault.TheVariants.{DiskFault};
ghost use Rattle.world_io.specs.Causes.{Rose};
ghost use Rattle.world_io.specs.Disk.{LengthIs, Same};

use frame_log::{Behind, ReadFault, read_frame};
use std::alloc::Global;
use world_io::Disk;

// Reads what stands at the gate at this place of a disk, whose length is the one given, in bytes, or more.
// Where nothing that is whole stands there, the length is asked for once more: another program may have
// committed the frame since, as a run does beside a reader. On a disk that nobody else changes it is as it
// was.
pub(crate) fn next_frame<D: Disk>(
    alloc: Global,
    disk: &mut D,
    len: &mut u64,
    gate: u64,
) -> Result<Behind, ReadFault>
    requires length { LengthIs (D.seen disk.old) len.old }
    requires place { gate < len.old }
    requires limit { len.old < 2 ^ 62 }
    ensures found { IfOk result (λ behind. FindsAt gate behind (D.seen disk.old)) }
    ensures within { IfOk result (EndsWithin gate len.new) }
    ensures length { LengthIs (D.seen disk.old) len.new }
    ensures longer { len.old ≤ len.new }
    ensures limit { len.new < 2 ^ 62 }
    ensures same { Same (D.seen disk.old) (D.seen disk.new) }
    ensures crash { D.moments disk.new ≡ D.moments disk.old }
    ensures disk_fault { IfErr result (λ e. e ≡ DiskFault → Rose (D.faults disk.old) (D.faults disk.new)) }
    ensures steady { IfErr result (λ e. e ≢ DiskFault → D.faults disk.new ≡ D.faults disk.old) }
    ensures kept { OnOk result (D.faults disk.new ≡ D.faults disk.old) }
    ensures later { D.faults disk.old ≤ D.faults disk.new }
{
    let behind = read_frame(alloc, disk, *len, gate)?;
    if !is_broken(&behind) {
        return Ok(behind);
    }
    let Ok(now) = disk.len() else {
        return Err(ReadFault::DiskFault);
    };
    if now <= *len {
        return Ok(behind);
    }
    *len = now;
    read_frame(alloc, disk, now, gate)
}

// Whether neither a closed gate nor a whole frame was found.
fn is_broken(behind: &Behind) -> bool {
    matches!(behind, Behind::Broken)
}
