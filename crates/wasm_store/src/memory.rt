// A memory in pages of 65,536 bytes.
ghost use Rattle.std.specs.Prelude.{◌≡◌, ◌+◌, ◌*◌, ◌^◌, ◌<◌, ◌≤◌, ◌↔◌, min, IfOk, IfSome, IsSome, IsNone};
ghost use Rattle.std.specs.Prelude.{IsTrue, false, length, vec_capacity, []};
ghost use Rattle.wasm_store.specs.Bytes.{IsWidth, le_bytes, le_number};
ghost use Rattle.wasm_store.specs.Memory.{page_size, most_pages, page_count, fresh, grown, span, written};

use std::alloc::{AllocError, Global};
use std::marker::Model;

const PAGE_SIZE: u32 = 65_536;

const MOST_PAGES: u32 = 256;

/// The bytes of a memory. All that it may grow to is reserved when it is made.
#[derive(Drop)]
pub struct Pages {
    pub(crate) bytes: Vec<u8>,
    limit: u32,
}

impl Model for Pages {
    ghost use Rattle.std.specs.Vec.{vec_len, vec_capacity};
    ghost use Rattle.wasm_store.specs.Memory.{Memory};
    ghost use Rattle.wasm_store.specs.inner.Reserved.{IsReserved};

    ghost Value = { Memory };

    ghost view = { λ p. record { bytes = p.bytes.items; limit = p.limit } };

    ghost invariant = { λ p. IsReserved (vec_len p.bytes) p.limit (vec_capacity p.bytes) };
}

impl Pages {
    /// A memory of `min` pages of zeros that may grow to `max` pages, and to 256 at most.
    pub fn new(alloc: Global, min: u32, max: u32) -> Result<Pages, AllocError>
        requires ordered { min ≤ max }
        requires small { min ≤ most_pages }
        ensures { IfOk result (λ m. m ≡ fresh min max) }
    {
        let (mut bytes, limit) = reserved(alloc, max)?;
        bytes.resize((min * PAGE_SIZE) as usize, 0)?;
        Ok(Pages { bytes, limit })
    }

    /// The size in pages.
    #[inline]
    pub fn size(&self) -> u32
        ensures value { result ≡ page_count self.now }
        ensures whole { result * page_size ≡ length self.now.bytes }
        ensures within { result ≤ self.now.limit }
        ensures limit { self.now.limit ≤ most_pages }
    {
        (self.bytes.len() / PAGE_SIZE as usize) as u32
    }

    /// Adds `by` pages of zeros and answers the size before, or `None` with nothing changed. It takes no
    /// memory.
    pub fn grow(&mut self, by: u32) -> Option<u32>
        ensures range { IsNone result ↔ (self.old.limit < page_count self.old + by) }
        ensures size { IfSome result (λ size. size ≡ page_count self.old) }
        ensures grown { IsSome result → self.new ≡ grown self.old by }
        ensures unchanged { IsNone result → self.new ≡ self.old }
    {
        let size = self.size();
        if self.limit - size < by {
            return None;
        }
        let bytes = ((size + by) * PAGE_SIZE) as usize;
        self.bytes.resize(bytes, 0).unwrap();
        Some(size)
    }

    #[inline]
    fn has_span(&self, at: u64, len: u64) -> bool
        ensures { IsTrue result ↔ (at + len ≤ length self.now.bytes) }
    {
        let size = self.bytes.len() as u64;
        at <= size && len <= size - at
    }

    /// The bytes of a span, or `None` where it passes the end.
    #[inline]
    pub fn read_span(&self, at: u64, len: u64) -> Option<&[u8]>
        ensures range { IsNone result ↔ (length self.now.bytes < at + len) }
        ensures bytes { IfSome result (λ bytes. bytes.now ≡ span self.now at len) }
    {
        if !self.has_span(at, len) {
            return None;
        }
        Some(&self.bytes[at as usize..(at + len) as usize])
    }

    /// The number that the `width` bytes from `at` spell, or `None` where they pass the end.
    #[inline]
    pub fn load(&self, at: u64, width: u8) -> Option<u64>
        requires { IsWidth width }
        ensures range { IsNone result ↔ (length self.now.bytes < at + width) }
        ensures value { IfSome result (λ value. value ≡ le_number (span self.now at width)) }
        ensures narrow { IfSome result (λ value. value < 2 ^ (8 * width)) }
    {
        let bytes = self.read_span(at, u64::from(width))?;
        Some(match width {
            1 => u64::from(bytes[0]),
            2 => u64::from(u16::from_le_bytes([bytes[0], bytes[1]])),
            4 => u64::from(u32::from_le_bytes([bytes[0], bytes[1], bytes[2], bytes[3]])),
            _ => number_of(bytes),
        })
    }

    /// Writes the bytes from `at`, and answers whether they are within the end. Nothing is changed where they
    /// pass it.
    #[inline]
    pub fn write_span(&mut self, at: u64, bytes: &[u8]) -> bool
        ensures range { IsTrue result ↔ (at + length bytes.now ≤ length self.old.bytes) }
        ensures written { IsTrue result → self.new ≡ written self.old at bytes.now }
        ensures unchanged { result ≡ false → self.new ≡ self.old }
    {
        let len = bytes.len() as u64;
        if !self.has_span(at, len) {
            return false;
        }
        self.bytes[at as usize..(at + len) as usize].copy_from_slice(bytes);
        true
    }

    /// Writes the lowest `width` bytes of `value` from `at`, and answers whether they are within the end.
    /// Nothing is changed where they pass it.
    #[inline]
    pub fn store(&mut self, at: u64, width: u8, value: u64) -> bool
        requires { IsWidth width }
        ensures range { IsTrue result ↔ (at + width ≤ length self.old.bytes) }
        ensures written { IsTrue result → self.new ≡ written self.old at (le_bytes width value) }
        ensures unchanged { result ≡ false → self.new ≡ self.old }
    {
        let bytes = value.to_le_bytes();
        match width {
            1 => self.write_span(at, &bytes[..1]),
            2 => self.write_span(at, &bytes[..2]),
            4 => self.write_span(at, &bytes[..4]),
            _ => self.write_span(at, &bytes),
        }
    }
}

/// No bytes yet, with room for those of the pages that a memory may grow to and no more, and how many
/// pages these are.
fn reserved(alloc: Global, max: u32) -> Result<(Vec<u8>, u32), AllocError>
    ensures empty { IfOk result (λ made. made.0.items ≡ []) }
    ensures limit { IfOk result (λ made. made.1 ≡ min max most_pages) }
    ensures room { IfOk result (λ made. vec_capacity made.0 ≡ made.1 * page_size) }
{
    let limit = max.min(MOST_PAGES);
    let bytes = Vec::with_capacity(alloc, (limit * PAGE_SIZE) as usize)?;
    Ok((bytes, limit))
}

/// The number that 8 bytes spell.
#[inline]
fn number_of(bytes: &[u8]) -> u64
    requires { length bytes.now ≡ 8 }
    ensures { result ≡ le_number bytes.now }
{
    u64::from_le_bytes([
        bytes[0], bytes[1], bytes[2], bytes[3], bytes[4], bytes[5], bytes[6], bytes[7],
    ])
}
