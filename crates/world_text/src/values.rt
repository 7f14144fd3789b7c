// The forms of values.
ghost use Rattle.std.specs.Prelude.{◌≡◌, ◌≤◌, ◌<◌, ◌+◌, ◌*◌, ◌/◌, ◌^◌, List, ℕ, length, map, IfOk, MatchBool};
ghost use Rattle.std.specs.List.{AllByRecursion};
ghost use Rattle.serde_json.specs.Data.{string};
ghost use Rattle.serde_json.specs.View.{view, items_view, items_of};
ghost use Rattle.game_tables.specs.Bodies.{most_parts};
ghost use Rattle.game_tables.specs.Texts.{part_text};
ghost use Rattle.world_form.specs.Digits.{ground_digit, hex_digit, hex};
ghost use Rattle.world_form.specs.Facts.{IsWhole, IsKindText, IsBodyList, IsNameText, IsTerrainText};
ghost use Rattle.world_form.specs.Facts.{IsTokenText, IsMemoryText};
ghost use Rattle.world_text.specs.inner.Readings.{Reads};

use crate::text::Text;
use game_tables::{Body, Kind, Part, most_memory, most_parts};
use object_store::{Bytes, Ground, RoomName, Terrain};
use serde_json::Value;
use std::alloc::{AllocError, Global};

const MOST_TOKEN: usize = 64;

/// A whole number in a range.
pub fn number_of(value: &Value, low: u64, high: u64) -> Option<u64>
    ensures { Reads (IsWhole low high (view value.now)) result }
{
    match value.as_u64() {
        Some(number) if low <= number && number <= high => Some(number),
        _ => None,
    }
}

/// The kind of a text.
pub fn kind_of(value: &Value) -> Option<Kind>
    ensures { Reads (IsKindText (view value.now)) result }
{
    let Some(text) = value.as_str() else {
        return None;
    };
    Kind::of_text(text)
}

/// A list of part texts, no more than a body may have.
pub fn body_of(value: &Value) -> Option<Body>
    ensures { Reads (IsBodyList (view value.now)) result }
{
    let Some(values) = value.as_array() else {
        return None;
    };
    if values.len() > most_parts() as usize {
        return None;
    }
    parts_of(values)
}

fn parts_of(values: &[Value]) -> Option<Body>
    requires { length values.now ≤ most_parts }
    ensures { Reads
        (λ parts. items_view values.now ≡ items_of (map (λ part. string (part_text part)) parts)) result }
{
    let mut body = Body::new();
    for value in values {
        let Some(part) = part_of(value) else {
            return None;
        };
        body.push(part);
    }
    Some(body)
}

fn part_of(value: &Value) -> Option<Part>
    ensures { Reads (λ part. view value.now ≡ string (part_text part)) result }
{
    let Some(text) = value.as_str() else {
        return None;
    };
    Part::of_text(text)
}

/// The room that a text names.
pub fn name_of(value: &Value) -> Option<RoomName>
    ensures { Reads (IsNameText (view value.now)) result }
{
    let Some(text) = value.as_str() else {
        return None;
    };
    match RoomName::read(text) {
        Ok(name) => Some(name),
        Err(_) => None,
    }
}

/// The terrain of a text of 2,500 digits.
pub fn terrain_of(alloc: Global, value: &Value) -> Result<Option<Terrain>, AllocError>
    ensures { IfOk result (Reads (IsTerrainText (view value.now))) }
{
    let Some(text) = value.as_str() else {
        return Ok(None);
    };
    if text.len() != 2500 {
        return Ok(None);
    }
    grounds_of(alloc, text)
}

// The grounds that digits say.
fn grounds_of(alloc: Global, text: &str) -> Result<Option<Terrain>, AllocError>
    requires { length text.now ≡ 2500 }
    ensures { IfOk result (Reads (λ grounds. text.now ≡ map ground_digit grounds)) }
{
    let mut grounds = Vec::with_capacity(alloc, text.len())?;
    for digit in text.as_bytes() {
        let Some(ground) = ground_of(*digit) else {
            return Ok(None);
        };
        grounds.push(ground)?;
    }
    Ok(Some(Terrain::of(alloc, &grounds)?))
}

fn ground_of(digit: u8) -> Option<Ground>
    ensures { Reads (λ one. digit ≡ ground_digit one) result }
{
    match digit {
        b'0' => Some(Ground::Plain),
        b'1' => Some(Ground::Wall),
        b'2' => Some(Ground::Swamp),
        _ => None,
    }
}

/// A text of at most 64 bytes, each from '!' to '~'.
pub fn token_of(alloc: Global, value: &Value) -> Result<Option<Text>, AllocError>
    ensures { IfOk result (Reads (IsTokenText (view value.now))) }
{
    let Some(text) = value.as_str() else {
        return Ok(None);
    };
    if text.len() > MOST_TOKEN || !is_printed(text) {
        return Ok(None);
    }
    Ok(Some(Text::of(alloc, text)?))
}

// Whether each byte is from '!' to '~'.
fn is_printed(text: &str) -> bool
    ensures { MatchBool result (AllByRecursion (λ byte. (33 ≤ byte) × (byte ≤ 126)) text.now)
        (AllByRecursion (λ byte. (33 ≤ byte) × (byte ≤ 126)) text.now → ⊥) }
{
    for byte in text.as_bytes() {
        if *byte < b'!' || *byte > b'~' {
            return false;
        }
    }
    true
}

/// The bytes of a text in lower case hexadecimal, no more than a memory text may have.
pub fn memory_of(alloc: Global, value: &Value) -> Result<Option<Bytes>, AllocError>
    ensures { IfOk result (Reads (IsMemoryText (view value.now))) }
{
    let Some(text) = value.as_str() else {
        return Ok(None);
    };
    if text.len() % 2 != 0 || text.len() > 2 * most_memory() as usize {
        return Ok(None);
    }
    bytes_of(alloc, text.as_bytes())
}

// The bytes that pairs of digits say.
fn bytes_of(alloc: Global, digits: &[u8]) -> Result<Option<Bytes>, AllocError>
    requires { length digits.now ≡ 2 * (length digits.now / 2) }
    ensures { IfOk result
        (Reads (λ bytes. (digits.now ≡ hex bytes) × AllByRecursion (λ byte. byte < 2 ^ 8) bytes)) }
{
    let mut bytes = Bytes::new(alloc);
    for at in 0..digits.len() / 2 {
        let Some(high) = number_of_digit(digits[2 * at]) else {
            return Ok(None);
        };
        let Some(low) = number_of_digit(digits[2 * at + 1]) else {
            return Ok(None);
        };
        bytes.push(16 * high + low)?;
    }
    Ok(Some(bytes))
}

// The number of a digit of lower case hexadecimal.
fn number_of_digit(digit: u8) -> Option<u8>
    ensures { Reads (λ number. (number < 16) × (digit ≡ hex_digit number)) result }
{
    match digit {
        b'0'..=b'9' => Some(digit - b'0'),
        b'a'..=b'f' => Some(digit - b'a' + 10),
        _ => None,
    }
}
