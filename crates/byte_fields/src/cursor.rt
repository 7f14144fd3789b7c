// A place in a list of bytes, and the reads from it.
ghost use Rattle.std.specs.Prelude.{◌≡◌, ℕ, ◌+◌, ◌<◌, ◌≤◌, List, [], ◌∷◌, ◌++◌, length, drop, IfOk, OnOk};
ghost use Rattle.std.specs.Prelude.{OnErr};
ghost use Rattle.byteorder.specs.Endian.{little_bytes, little_number};
ghost use Rattle.byte_fields.specs.Front.{Begins, BeginsNone, BeginsOnly};
ghost use Rattle.byte_fields.specs.Leb.{SpellsSigned, SpellsUnsigned};

use crate::leb::{leb_text, signed_value, unsigned_value};
use byteorder::{ByteOrder, LittleEndian};
use std::marker::Model;

/// Reads fields from bytes, one after the other. Contracts see it as the bytes that are left and its
/// place, the count of those read.
#[derive(Drop)]
pub struct Cursor<'a> {
    bytes: &'a [u8],
    place: usize,
}

impl<'a> Model for Cursor<'a> {
    ghost Value = { List ℕ × ℕ };

    ghost view = { λ cursor. (drop cursor.place cursor.bytes.now, cursor.place) };

    ghost invariant = { λ cursor. cursor.place ≤ length cursor.bytes.now };
}

/// Fewer bytes are left than the field takes.
#[derive(Clone, Copy, Debug, PartialEq, Eq)]
pub struct Short;

/// No LEB128 number of the width begins the bytes that are left.
#[derive(Clone, Copy, Debug, PartialEq, Eq)]
pub struct BadLeb;

impl<'a> Cursor<'a> {
    /// A cursor before the first byte.
    pub fn over(bytes: &'a [u8]) -> Cursor<'a>
        ensures { result ≡ (bytes.entry.now, 0) }
    {
        Cursor { bytes, place: 0 }
    }

    /// Another cursor at the same place, to read ahead.
    pub fn copy(&self) -> Cursor<'a>
        ensures { result ≡ self.now }
    {
        Cursor {
            bytes: self.bytes,
            place: self.place,
        }
    }

    /// How many bytes were read.
    pub fn place(&self) -> usize
        ensures { result ≡ self.now.1 }
    {
        self.place
    }

    /// How many bytes are left.
    pub fn left(&self) -> usize
        ensures { result ≡ length self.now.0 }
    {
        self.bytes.len() - self.place
    }

    /// The next byte.
    pub fn u8(&mut self) -> Result<u8, Short>
        ensures found { IfOk result (λ byte. self.old.0 ≡ byte ∷ self.new.0) }
        ensures place { OnOk result (self.new.1 ≡ self.old.1 + 1) }
        ensures short { OnErr result (self.old.0 ≡ []) }
        ensures unchanged { OnErr result (self.new ≡ self.old) }
    {
        if self.place >= self.bytes.len() {
            return Err(Short);
        }
        let byte = self.bytes[self.place];
        self.place += 1;
        Ok(byte)
    }

    /// The next four bytes, as a number with the lowest byte first.
    pub fn u32(&mut self) -> Result<u32, Short>
        ensures found { IfOk result (λ value. self.old.0 ≡ little_bytes 4 value ++ self.new.0) }
        ensures value { IfOk result (λ value. value ≡ little_number 4 self.old.0) }
        ensures place { OnOk result (self.new.1 ≡ self.old.1 + 4) }
        ensures short { OnErr result (length self.old.0 < 4) }
        ensures unchanged { OnErr result (self.new ≡ self.old) }
    {
        let text = self.take(4)?;
        Ok(u32_of(text))
    }

    /// The next eight bytes, as a number with the lowest byte first.
    pub fn u64(&mut self) -> Result<u64, Short>
        ensures found { IfOk result (λ value. self.old.0 ≡ little_bytes 8 value ++ self.new.0) }
        ensures value { IfOk result (λ value. value ≡ little_number 8 self.old.0) }
        ensures place { OnOk result (self.new.1 ≡ self.old.1 + 8) }
        ensures short { OnErr result (length self.old.0 < 8) }
        ensures unchanged { OnErr result (self.new ≡ self.old) }
    {
        let text = self.take(8)?;
        Ok(u64_of(text))
    }

    /// The next `count` bytes, lent from those under the cursor.
    pub fn take(&mut self, count: usize) -> Result<&'a [u8], Short>
        ensures found { IfOk result (λ part. self.old.0 ≡ part.now ++ self.new.0) }
        ensures count { IfOk result (λ part. length part.now ≡ count) }
        ensures place { OnOk result (self.new.1 ≡ self.old.1 + count) }
        ensures short { OnErr result (length self.old.0 < count) }
        ensures unchanged { OnErr result (self.new ≡ self.old) }
    {
        let bytes: &'a [u8] = self.bytes;
        let left = &bytes[self.place..];
        if left.len() < count {
            return Err(Short);
        }
        self.place += count;
        Ok(&left[..count])
    }

    /// The next number in LEB128, unsigned, of 32 bits: WebAssembly Core 1.0, chapter 5.2.2. Longer
    /// spellings than the shortest are read too, up to five bytes.
    pub fn leb_u32(&mut self) -> Result<u32, BadLeb>
        ensures found { IfOk result (λ value. Begins (SpellsUnsigned 32) self.old.0 value self.new.0) }
        ensures only { IfOk result (λ value. BeginsOnly (SpellsUnsigned 32) self.old.0 value self.new.0) }
        ensures place { self.new.1 + length self.new.0 ≡ self.old.1 + length self.old.0 }
        ensures forward { OnOk result (self.old.1 < self.new.1) }
        ensures most { self.new.1 ≤ self.old.1 + 5 }
        ensures bad { OnErr result (BeginsNone (SpellsUnsigned 32) self.old.0) }
        ensures unchanged { OnErr result (self.new ≡ self.old) }
    {
        let bytes: &'a [u8] = self.bytes;
        let Some(text) = leb_text(&bytes[self.place..], 5) else {
            return Err(BadLeb);
        };
        let Some(value) = unsigned_value(text) else {
            return Err(BadLeb);
        };
        self.place += text.len();
        Ok(value)
    }

    /// The next number in LEB128, signed, of 32 bits: WebAssembly Core 1.0, chapter 5.2.2. Longer
    /// spellings than the shortest are read too, up to five bytes.
    pub fn leb_s32(&mut self) -> Result<i32, BadLeb>
        ensures found { IfOk result (λ value. Begins (SpellsSigned 32) self.old.0 value self.new.0) }
        ensures only { IfOk result (λ value. BeginsOnly (SpellsSigned 32) self.old.0 value self.new.0) }
        ensures place { self.new.1 + length self.new.0 ≡ self.old.1 + length self.old.0 }
        ensures forward { OnOk result (self.old.1 < self.new.1) }
        ensures most { self.new.1 ≤ self.old.1 + 5 }
        ensures bad { OnErr result (BeginsNone (SpellsSigned 32) self.old.0) }
        ensures unchanged { OnErr result (self.new ≡ self.old) }
    {
        let bytes: &'a [u8] = self.bytes;
        let Some(text) = leb_text(&bytes[self.place..], 5) else {
            return Err(BadLeb);
        };
        let Some(value) = signed_value(text, 32) else {
            return Err(BadLeb);
        };
        self.place += text.len();
        Ok(value as i32)
    }

    /// The next number in LEB128, signed, of 64 bits: WebAssembly Core 1.0, chapter 5.2.2. Longer
    /// spellings than the shortest are read too, up to ten bytes.
    pub fn leb_s64(&mut self) -> Result<i64, BadLeb>
        ensures found { IfOk result (λ value. Begins (SpellsSigned 64) self.old.0 value self.new.0) }
        ensures only { IfOk result (λ value. BeginsOnly (SpellsSigned 64) self.old.0 value self.new.0) }
        ensures place { self.new.1 + length self.new.0 ≡ self.old.1 + length self.old.0 }
        ensures forward { OnOk result (self.old.1 < self.new.1) }
        ensures most { self.new.1 ≤ self.old.1 + 10 }
        ensures bad { OnErr result (BeginsNone (SpellsSigned 64) self.old.0) }
        ensures unchanged { OnErr result (self.new ≡ self.old) }
    {
        let bytes: &'a [u8] = self.bytes;
        let Some(text) = leb_text(&bytes[self.place..], 10) else {
            return Err(BadLeb);
        };
        let Some(value) = signed_value(text, 64) else {
            return Err(BadLeb);
        };
        self.place += text.len();
        Ok(value)
    }
}

// The number whose four bytes these are, the lowest first.
fn u32_of(text: &[u8]) -> u32
    requires { length text.now ≡ 4 }
    ensures value { result ≡ little_number 4 text.now }
    ensures bytes { text.now ≡ little_bytes 4 result }
{
    LittleEndian::read_u32(text)
}

// The number whose eight bytes these are, the lowest first.
fn u64_of(text: &[u8]) -> u64
    requires { length text.now ≡ 8 }
    ensures value { result ≡ little_number 8 text.now }
    ensures bytes { text.now ≡ little_bytes 8 result }
{
    LittleEndian::read_u64(text)
}
