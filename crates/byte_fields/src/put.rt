// Fields written to the end of a vector of bytes.
ghost use Rattle.std.specs.Prelude.{◌≡◌, ℕ, ◌+◌, ◌<◌, ◌≤◌, List, ◌++◌, length, take, OnOk, OnErr};
ghost use Rattle.std.specs.Prelude.{vec_capacity, vec_len};
ghost use Rattle.byteorder.specs.Endian.{little_bytes};
ghost use Rattle.byte_fields.specs.Front.{SpellsShortest};
ghost use Rattle.byte_fields.specs.Leb.{SpellsSigned, SpellsUnsigned};

use crate::NoMemory;
use byteorder::{ByteOrder, LittleEndian};

/// Writes a number as four bytes, the lowest first.
pub fn put_u32(out: &mut Vec<u8>, value: u32) -> Result<(), NoMemory>
    ensures written { OnOk result (out.new.items ≡ out.old.items ++ little_bytes 4 value) }
    ensures unchanged { OnErr result (out.new.items ≡ out.old.items) }
    ensures full { OnErr result (vec_capacity out.old < vec_len out.old + 4) }
{
    let mut text = [0u8; 4];
    LittleEndian::write_u32(&mut text, value);
    out.extend_from_slice(&text)
}

/// Writes a number as eight bytes, the lowest first.
pub fn put_u64(out: &mut Vec<u8>, value: u64) -> Result<(), NoMemory>
    ensures written { OnOk result (out.new.items ≡ out.old.items ++ little_bytes 8 value) }
    ensures unchanged { OnErr result (out.new.items ≡ out.old.items) }
    ensures full { OnErr result (vec_capacity out.old < vec_len out.old + 8) }
{
    let mut text = [0u8; 8];
    LittleEndian::write_u64(&mut text, value);
    out.extend_from_slice(&text)
}

/// Writes a number of 32 bits in unsigned LEB128, as few bytes as spell it: WebAssembly Core 1.0,
/// chapter 5.2.2.
pub fn put_leb_u32(out: &mut Vec<u8>, value: u32) -> Result<(), NoMemory>
    ensures written { OnOk result ((text : List ℕ) × SpellsShortest (SpellsUnsigned 32) text value
        × (out.new.items ≡ out.old.items ++ text)) }
    ensures only { OnOk result ((text : List ℕ) → SpellsShortest (SpellsUnsigned 32) text value
        → out.new.items ≡ out.old.items ++ text) }
    ensures unchanged { OnErr result (out.new.items ≡ out.old.items) }
    ensures full { OnErr result (vec_capacity out.old < vec_len out.old + 5) }
{
    let mut text = [0u8; 5];
    let length = shortest_unsigned(value, &mut text);
    out.extend_from_slice(&text[..length])
}

/// Writes a number of 64 bits in signed LEB128, as few bytes as spell it: WebAssembly Core 1.0,
/// chapter 5.2.2.
pub fn put_leb_s64(out: &mut Vec<u8>, value: i64) -> Result<(), NoMemory>
    ensures written { OnOk result ((text : List ℕ) × SpellsShortest (SpellsSigned 64) text value
        × (out.new.items ≡ out.old.items ++ text)) }
    ensures only { OnOk result ((text : List ℕ) → SpellsShortest (SpellsSigned 64) text value
        → out.new.items ≡ out.old.items ++ text) }
    ensures unchanged { OnErr result (out.new.items ≡ out.old.items) }
    ensures full { OnErr result (vec_capacity out.old < vec_len out.old + 10) }
{
    let mut text = [0u8; 10];
    let length = shortest_signed(value, &mut text);
    out.extend_from_slice(&text[..length])
}

// Writes the shortest spelling to the front of the text, and says how many bytes it takes.
fn shortest_unsigned(value: u32, text: &mut [u8]) -> usize
    requires { length text.old ≡ 5 }
    ensures shortest { SpellsShortest (SpellsUnsigned 32) (take result text.new) value }
    ensures only { (other : List ℕ) → SpellsShortest (SpellsUnsigned 32) other value
        → other ≡ take result text.new }
    ensures within { result ≤ 5 }
{
    let mut last = 0;
    let mut high = value;
    while high >= 0x80 {
        text[last] = (high & 0x7f) as u8 + 0x80;
        high >>= 7;
        last += 1;
    }
    text[last] = high as u8;
    last + 1
}

// Writes the shortest spelling to the front of the text, and says how many bytes it takes.
fn shortest_signed(value: i64, text: &mut [u8]) -> usize
    requires { length text.old ≡ 10 }
    ensures shortest { SpellsShortest (SpellsSigned 64) (take result text.new) value }
    ensures only { (other : List ℕ) → SpellsShortest (SpellsSigned 64) other value
        → other ≡ take result text.new }
    ensures within { result ≤ 10 }
{
    let mut last = 0;
    let mut high = value;
    while high < -64 || high >= 64 {
        text[last] = (high & 0x7f) as u8 + 0x80;
        high >>= 7;
        last += 1;
    }
    text[last] = (high & 0x7f) as u8;
    last + 1
}
