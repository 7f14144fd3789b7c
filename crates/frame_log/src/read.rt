// The frames of a log, read one at a time.
ghost use Rattle.std.specs.Prelude.{◌≡◌, ◌≢◌, ◌<◌, ◌≤◌, ◌^◌, drop, IfOk, IfErr, IfSome, OnOk};
ghost use Rattle.world_io.specs.Causes.{Rose};
ghost use Rattle.world_io.specs.Disk.{LengthIs, Same};
ghost use Rattle.frame_log.specs.Reading.{EndsWithin, FindsAt};
ghost use Rattle.frame_log.specs.inner.Heads.{HasHead, HasOpenHead};
ghost use Rattle.frame_log.specs.declared.fault.ReadFault.TheVariants.{DiskFault};

use crate::fault::ReadFault;
use byte_fields::Cursor;
use std::alloc::Global;
use world_io::Disk;

/// What stands at a gate.
#[derive(Drop)]
pub enum Behind {
    /// The gate is closed.
    Closed,
    /// The gate is open, and the frame of this content and its next gate are there.
    Frame(Vec<u8>),
    /// The gate is open, and what is there is too short for a frame and its next gate.
    Broken,
}

// The bytes of a gate and of a content's length.
const HEAD: usize = 9;

// A gate, and what is behind it: the length of a content, or too few bytes for one.
enum Head {
    Closed,
    Open(u64),
    Short,
}

// The head that begins these bytes.
fn head_of(bytes: &[u8]) -> Head
    ensures { HasHead bytes.now result }
{
    let mut fields = Cursor::over(bytes);
    let Ok(gate) = fields.u8() else {
        return Head::Short;
    };
    if gate == 0 {
        return Head::Closed;
    }
    match fields.u64() {
        Ok(size) => Head::Open(size),
        Err(_) => Head::Short,
    }
}

/// Reads what stands at the gate at this place of a disk of this length, in bytes. Memory is taken for the
/// content alone, once it is known to be there.
pub fn read_frame<D: Disk>(
    alloc: Global,
    disk: &mut D,
    len: u64,
    gate: u64,
) -> Result<Behind, ReadFault>
    requires length { LengthIs (D.seen disk.old) len }
    requires place { gate < len }
    requires limit { len < 2 ^ 62 }
    ensures found { IfOk result (λ behind. FindsAt gate behind (D.seen disk.old)) }
    ensures within { IfOk result (EndsWithin gate len) }
    ensures same { Same (D.seen disk.old) (D.seen disk.new) }
    ensures crash { D.moments disk.new ≡ D.moments disk.old }
    ensures disk_fault { IfErr result (λ e. e ≡ DiskFault → Rose (D.faults disk.old) (D.faults disk.new)) }
    ensures steady { IfErr result (λ e. e ≢ DiskFault → D.faults disk.new ≡ D.faults disk.old) }
    ensures kept { OnOk result (D.faults disk.new ≡ D.faults disk.old) }
    ensures later { D.faults disk.old ≤ D.faults disk.new }
{
    let mut head = [0u8; HEAD];
    let Ok(count) = disk.read(gate, &mut head) else {
        return Err(ReadFault::DiskFault);
    };
    match head_of(&head[..count]) {
        Head::Closed => Ok(Behind::Closed),
        Head::Short => Ok(Behind::Broken),
        Head::Open(size) => read_content(alloc, disk, len, gate, size),
    }
}

// Reads the content of this length behind the head of a frame, where it and the next gate are there.
fn read_content<D: Disk>(
    alloc: Global,
    disk: &mut D,
    len: u64,
    gate: u64,
    size: u64,
) -> Result<Behind, ReadFault>
    requires length { LengthIs (D.seen disk.old) len }
    requires place { gate < len }
    requires limit { len < 2 ^ 62 }
    requires head { IfSome (D.seen disk.old) (λ bytes. HasOpenHead (drop gate bytes) size) }
    ensures found { IfOk result (λ behind. FindsAt gate behind (D.seen disk.old)) }
    ensures within { IfOk result (EndsWithin gate len) }
    ensures same { Same (D.seen disk.old) (D.seen disk.new) }
    ensures crash { D.moments disk.new ≡ D.moments disk.old }
    ensures disk_fault { IfErr result (λ e. e ≡ DiskFault → Rose (D.faults disk.old) (D.faults disk.new)) }
    ensures steady { IfErr result (λ e. e ≢ DiskFault → D.faults disk.new ≡ D.faults disk.old) }
    ensures kept { OnOk result (D.faults disk.new ≡ D.faults disk.old) }
    ensures later { D.faults disk.old ≤ D.faults disk.new }
{
    let behind = (len - gate).saturating_sub(HEAD as u64);
    if size >= behind {
        return Ok(Behind::Broken);
    }
    let mut content = Vec::new(alloc);
    let Ok(()) = content.resize(size as usize, 0) else {
        return Err(ReadFault::Memory);
    };
    let Ok(count) = disk.read(gate + HEAD as u64, &mut content) else {
        return Err(ReadFault::DiskFault);
    };
    if count < content.len() {
        return Ok(Behind::Broken);
    }
    Ok(Behind::Frame(content))
}
