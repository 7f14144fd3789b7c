// What a disk in memory gives after a crash.
use std::alloc::{AllocError, Global};
use std::test::Fail;
use world_io::{Disk, MemoryDisk};

// The bytes after a crash now.
fn left(alloc: Global, disk: &MemoryDisk, pick: u64) -> Result<Vec<u8>, AllocError> {
    Vec::from_slice(alloc, disk.crash(alloc, pick)?.bytes())
}

// Whether these bytes are left after a crash.
fn is_left(alloc: Global, disk: &MemoryDisk, pick: u64, bytes: &[u8]) -> Result<bool, AllocError> {
    Ok(left(alloc, disk, pick)?.as_slice() == bytes)
}

// A disk of eight bytes, of which one is written over, three are cut and one is written behind the others.
fn unsynced(alloc: Global) -> Result<MemoryDisk, Fail> {
    let bytes = vec![in alloc; 11, 12, 13, 14, 15, 16, 17, 18]?;
    let mut disk = MemoryDisk::new(bytes, vec![in alloc; 2u64]?, None);
    disk.write_at(0, &[50])?;
    disk.cut(5)?;
    if disk.write_at(2, &[60, 61]).is_ok() {
        return Err("no fault".into());
    }
    disk.write_at(5, &[70])?;
    Ok(disk)
}

// That disk, synced.
fn synced(alloc: Global) -> Result<MemoryDisk, Fail> {
    let mut disk = unsynced(alloc)?;
    disk.sync()?;
    Ok(disk)
}

// Whether each pick leaves what it is to leave of that disk.
fn are_left_unsynced(alloc: Global, disk: &MemoryDisk) -> Result<[bool; 4], AllocError> {
    Ok([
        is_left(alloc, disk, 0, &[0, 12, 0, 0, 15])?,
        is_left(alloc, disk, 1, &[50, 12, 13, 14, 15, 70])?,
        is_left(alloc, disk, 7, &[7, 12, 7, 7, 15, 7, 17, 18])?,
        is_left(alloc, disk, 255, &[255, 12, 255, 255, 15, 255, 17, 18])?,
    ])
}

#[test]
fn a_pick_gives_the_least_the_read_or_the_greatest(rt: HostRuntime) -> Result<(), Fail> {
    let disk = unsynced(rt.alloc())?;
    assert!(rt; are_left_unsynced(rt.alloc(), &disk)? == [true; 4]);
    Ok(())
}

#[test]
fn a_sync_leaves_the_bytes_that_are_read(rt: HostRuntime) -> Result<(), Fail> {
    let disk = synced(rt.alloc())?;
    for pick in [0, 1, 7, 255] {
        assert!(rt; is_left(rt.alloc(), &disk, pick, &[50, 12, 13, 14, 15, 70])?);
    }
    Ok(())
}

// That disk, synced, with two bytes written behind that.
fn written_behind(alloc: Global) -> Result<MemoryDisk, Fail> {
    let mut disk = synced(alloc)?;
    if disk.bytes().len() != 6 {
        return Err("other bytes".into());
    }
    disk.write_at(6, &[80, 81])?;
    Ok(disk)
}

// Whether each pick leaves what it is to leave of that disk.
fn are_left_behind(alloc: Global, disk: &MemoryDisk) -> Result<[bool; 3], AllocError> {
    Ok([
        is_left(alloc, disk, 0, &[50, 12, 13, 14, 15, 70])?,
        is_left(alloc, disk, 1, &[50, 12, 13, 14, 15, 70, 80, 81])?,
        is_left(alloc, disk, 256 + 9, &[50, 12, 13, 14, 15, 70, 9, 9])?,
    ])
}

#[test]
fn bytes_behind_a_sync_are_left_or_not(rt: HostRuntime) -> Result<(), Fail> {
    let disk = written_behind(rt.alloc())?;
    assert!(rt; are_left_behind(rt.alloc(), &disk)? == [true; 3]);
    Ok(())
}
