// A log on a disk in memory: what its bytes are, and what a stop at each call of the disk leaves.
ghost use Rattle.std.specs.Prelude.{◌≡◌, ◌<◌, ◌^◌, [], ◌∷◌, length, IfOk};
ghost use Rattle.world_io.specs.InMemory.{moments_now};
ghost use Rattle.world_io.specs.Moments.{settled};

use frame_log::{AppendFault, Behind, Log, read_frame};
use std::alloc::{AllocError, Global};
use std::test::Fail;
use world_io::{Disk, MemoryDisk};

// Two bytes, none, and one more, behind open gates.
const WHOLE: &[u8] = b"\x01\x02\0\0\0\0\0\0\0ab\x01\0\0\0\0\0\0\0\0\x01\x01\0\0\0\0\0\0\0c\0";

// A disk of these bytes, of which all calls fail after the one of the number `stop`.
fn disk_of(alloc: Global, bytes: &[u8], stop: Option<u64>) -> Result<MemoryDisk, AllocError>
    requires { length bytes.now < 2 ^ 62 }
    ensures bytes { IfOk result (λ disk. disk.bytes.items ≡ bytes.now) }
    ensures rests { IfOk result (λ disk. moments_now disk ≡ settled bytes.now ∷ []) }
{
    Ok(MemoryDisk::new(Vec::from_slice(alloc, bytes)?, Vec::new(alloc), stop))
}

// What stands at a gate of a disk of these bytes, where there is one.
fn behind(alloc: Global, bytes: &[u8], gate: u64) -> Option<Behind>
    requires { length bytes.now < 2 ^ 62 }
{
    let len = bytes.len() as u64;
    if gate >= len {
        return None;
    }
    let mut disk = disk_of(alloc, bytes, None).ok()?;
    read_frame(alloc, &mut disk, len, gate).ok()
}

// Whether this content stands behind a gate.
fn stands(alloc: Global, bytes: &[u8], gate: u64, content: &[u8]) -> bool
    requires { length bytes.now < 2 ^ 62 }
{
    match behind(alloc, bytes, gate) {
        Some(Behind::Frame(found)) => found.as_slice() == content,
        _ => false,
    }
}

// Whether a gate is closed.
fn is_closed(alloc: Global, bytes: &[u8], gate: u64) -> bool
    requires { length bytes.now < 2 ^ 62 }
{
    matches!(behind(alloc, bytes, gate), Some(Behind::Closed))
}

// Whether `ab`, nothing and `c` are kept on a disk as those bytes.
fn are_kept(alloc: Global) -> Result<bool, AllocError> {
    let mut disk = disk_of(alloc, &[0, 5, 6], None)?;
    let Ok(mut log) = Log::create(alloc, &mut disk, b"ab") else {
        return Ok(false);
    };
    Ok(
        log.append(alloc, &mut disk, b"").is_ok()
            && log.append(alloc, &mut disk, b"c").is_ok()
            && disk.bytes() == WHOLE,
    )
}

#[test]
fn contents_are_kept_and_read_back(rt: HostRuntime) -> Result<(), Fail> {
    let alloc = rt.alloc();
    assert!(rt; are_kept(alloc)?);
    for (gate, content) in [
        (0, b"ab".as_slice()),
        (11, b"".as_slice()),
        (20, b"c".as_slice()),
    ] {
        assert!(rt; stands(alloc, WHOLE, gate, content));
    }
    assert!(rt; is_closed(alloc, WHOLE, 30));
    assert!(rt; matches!(behind(alloc, &WHOLE[..30], 20), Some(Behind::Broken)));
    Ok(())
}

// Whether a content is kept behind another one, and read back.
fn is_kept(alloc: Global, content: &[u8]) -> Result<bool, AllocError> {
    let mut disk = disk_of(alloc, &[], None)?;
    let Ok(mut log) = Log::create(alloc, &mut disk, b"ab") else {
        return Ok(false);
    };
    Ok(log.append(alloc, &mut disk, content).is_ok() && stands(alloc, disk.bytes(), 11, content))
}

#[test]
fn a_long_content_is_kept(rt: HostRuntime) -> Result<(), Fail> {
    let long = vec![in rt.alloc(); 7u8; 70_000]?;
    assert!(rt; is_kept(rt.alloc(), &long)?);
    Ok(())
}

// How many of the contents `ab` and `c` stand on an image, on which nothing else does.
fn standing(alloc: Global, image: &[u8]) -> Option<u64>
    requires { length image.now < 2 ^ 62 }
{
    if image.len() <= 1 || image[0] == 0 {
        return Some(0);
    }
    if !stands(alloc, image, 0, b"ab") {
        return None;
    }
    if stands(alloc, image, 11, b"c") {
        return Some(2);
    }
    is_closed(alloc, image, 11).then_some(1)
}

// The same of what a crash leaves of a disk.
fn standing_after(alloc: Global, disk: &MemoryDisk, pick: u64) -> Result<Option<u64>, AllocError> {
    let image = disk.crash(alloc, pick)?;
    Ok(standing(alloc, image.bytes()))
}

// A disk that stops, and how many of the contents `ab` and `c` were added until then. The log adds nothing
// more after a fault.
fn stopped(alloc: Global, stop: u64) -> Result<(MemoryDisk, Option<u64>), AllocError> {
    let piece = vec![in alloc; 0u8; 9]?;
    let mut disk = disk_of(alloc, &[], Some(stop))?;
    let Ok(mut log) = Log::create(alloc, &mut disk, b"ab") else {
        return Ok((disk, Some(0)));
    };
    let done = match log.append(alloc, &mut disk, b"c") {
        Ok(()) => Some(2),
        Err(fault) => {
            let is_closed = fault == AppendFault::DiskFault
                && log.append(alloc, &mut disk, b"d") == Err(AppendFault::Closed)
                && log.append_piece(&mut disk, piece) == Err(AppendFault::Closed);
            is_closed.then_some(1)
        }
    };
    Ok((disk, done))
}

// How many contents were added until a disk stopped, and how many stand on it after a crash.
fn done_and_standing(
    alloc: Global,
    stop: u64,
    pick: u64,
) -> Result<Option<(u64, u64)>, AllocError> {
    let (disk, done) = stopped(alloc, stop)?;
    Ok(done.zip(standing_after(alloc, &disk, pick)?))
}

#[test]
fn a_stop_leaves_what_stood(rt: HostRuntime) -> Result<(), Fail> {
    let alloc = rt.alloc();
    // (behind the write of a gate and before its sync, what stood before or what stands after)
    let mut both = false;
    for stop in 0..10 {
        let (mut least, mut most) = (2, 0);
        for pick in 0..256 {
            let (done, stands) = done_and_standing(alloc, stop, pick)?.ok_or("another content")?;
            assert!(rt; done <= stands && stands <= 2);
            least = if stands < least { stands } else { least };
            most = if stands > most { stands } else { most };
        }
        both = both || least == 1 && most == 2;
    }
    assert!(rt; both);
    Ok(())
}
