// The images that a crash may leave of a disk in memory.
ghost use Rattle.std.specs.Prelude.{◌≡◌, ℕ, ◌+◌, ◌<◌, ◌≤◌, ◌^◌, ◌⊎◌, IfOk, length, slice_index};
ghost use Rattle.world_io.specs.Changes.{moments_of, latest};
ghost use Rattle.world_io.specs.Moments.{IsImage, IsOutside};
ghost use Rattle.world_io.specs.Picks.{IsFilled};
ghost use Rattle.world_io.specs.inner.Latest.{moment_of};

use crate::change::{Change, copy_of, put_over};
use std::alloc::{AllocError, Global};

/// A moment as data.
#[derive(Drop)]
pub struct Pending {
    pub synced: Vec<u8>,
    pub written: Vec<(u64, u64)>,
    pub least: u64,
    pub greatest: u64,
}

/// The latest moment, found by undoing the calls back to the last sync.
pub fn find_pending(alloc: Global, bytes: &[u8], calls: &[Change]) -> Result<Pending, AllocError>
    requires left { IsImage (latest (moments_of bytes.now calls.now)) bytes.now }
    requires limit { (latest (moments_of bytes.now calls.now)).greatest < 2 ^ 62 }
    ensures { IfOk result (λ pending. moment_of pending ≡ latest (moments_of bytes.now calls.now)) }
{
    let mut synced = copy_of(alloc, bytes)?;
    let mut written = Vec::new(alloc);
    let mut least = bytes.len() as u64;
    let mut greatest = least;
    let mut left = calls.len();
    while left > 0 {
        left -= 1;
        match &calls[left] {
            Change::Synced => left = 0,
            Change::Wrote(at, over) => {
                put_over(&mut synced, *at as usize, over)?;
                written.push((*at, over.len() as u64))?;
                greatest = greatest.max(*at + over.len() as u64);
            }
            Change::Grew(at, count, over) => {
                synced.truncate(*at as usize);
                synced.extend_from_slice(over)?;
                written.push((*at, *count))?;
                greatest = greatest.max(*at + *count);
            }
            Change::Cut(len, tail) => {
                synced.extend_from_slice(tail)?;
                least = least.min(*len);
            }
        }
    }
    let size = synced.len() as u64;
    Ok(Pending {
        synced,
        written,
        least: size.min(least),
        greatest: size.max(greatest),
    })
}

/// The image of this length, with this byte wherever any may stand.
pub fn image_of(pending: Pending, len: u64, free: u8) -> Result<Vec<u8>, AllocError>
    requires { len < 2 ^ 62 }
    ensures { IfOk result (λ image. IsFilled (moment_of pending) len free image.items) }
{
    let Pending {
        synced,
        written,
        least: _,
        greatest: _,
    } = pending;
    let mut image = synced;
    image.resize(len as usize, free)?;
    fill_ranges(&mut image, &written, free);
    Ok(image)
}

// Puts the byte at each place of the ranges that there is.
fn fill_ranges(image: &mut [u8], ranges: &[(u64, u64)], free: u8)
    ensures inside { (place : ℕ) → place < length image.old → ¬ IsOutside place ranges.now
        → slice_index image.new place ≡ free }
    ensures outside { (place : ℕ) → IsOutside place ranges.now
        → slice_index image.new place ≡ slice_index image.old place }
{
    for (at, count) in ranges {
        fill_range(image, *at, *count, free);
    }
}

// Puts the byte at each place of the range that there is.
fn fill_range(image: &mut [u8], at: u64, count: u64, free: u8)
    ensures inside { (place : ℕ) → place < length image.old → at ≤ place → place < at + count
        → slice_index image.new place ≡ free }
    ensures outside { (place : ℕ) → (place < at) ⊎ (at + count ≤ place)
        → slice_index image.new place ≡ slice_index image.old place }
{
    let len = image.len() as u64;
    let end = at.saturating_add(count).min(len);
    for place in at.min(len)..end {
        image[place as usize] = free;
    }
}
