// Known values, worked out from the standard's grammar of integers.
ghost use Rattle.std.specs.Prelude.{◌≡◌, IfOk, Ok};

use byte_fields::{BadLeb, Cursor, NoMemory, Short, put_leb_s64, put_leb_u32, put_u32, put_u64};
use std::alloc::Global;

// What is read of the bytes, and the place after it.
fn unsigned_32(bytes: &[u8]) -> (Result<u32, BadLeb>, usize) {
    let mut cursor = Cursor::over(bytes);
    let value = cursor.leb_u32();
    (value, cursor.place())
}

fn signed_32(bytes: &[u8]) -> (Result<i32, BadLeb>, usize) {
    let mut cursor = Cursor::over(bytes);
    let value = cursor.leb_s32();
    (value, cursor.place())
}

fn signed_64(bytes: &[u8]) -> (Result<i64, BadLeb>, usize) {
    let mut cursor = Cursor::over(bytes);
    let value = cursor.leb_s64();
    (value, cursor.place())
}

// What was written is read back, whatever comes behind it.
fn unsigned_back(alloc: Global, value: u32, behind: &[u8]) -> Result<Result<u32, BadLeb>, NoMemory>
    ensures { IfOk result (λ read. read ≡ Ok value) }
{
    let mut out = Vec::new(alloc);
    put_leb_u32(&mut out, value)?;
    out.extend_from_slice(behind)?;
    let mut cursor = Cursor::over(&out);
    Ok(cursor.leb_u32())
}

fn signed_back(alloc: Global, value: i64, behind: &[u8]) -> Result<Result<i64, BadLeb>, NoMemory>
    ensures { IfOk result (λ read. read ≡ Ok value) }
{
    let mut out = Vec::new(alloc);
    put_leb_s64(&mut out, value)?;
    out.extend_from_slice(behind)?;
    let mut cursor = Cursor::over(&out);
    Ok(cursor.leb_s64())
}

// Bytes, what is read of them, and the place after it.
static UNSIGNED_32: [(&[u8], Result<u32, BadLeb>, usize); 12] = [
    (&[0x00, 0x7f], Ok(0), 1),
    (&[0x7f], Ok(127), 1),
    (&[0x80, 0x01], Ok(128), 2),
    (&[0xe5, 0x8e, 0x26], Ok(624485), 3),
    (&[0x83, 0x00], Ok(3), 2),
    (&[0x80, 0x80, 0x80, 0x80, 0x00], Ok(0), 5),
    (&[0xff, 0xff, 0xff, 0xff, 0x0f, 0x01], Ok(4294967295), 5),
    (&[0x80, 0x80, 0x80, 0x80, 0x10], Err(BadLeb), 0),
    (&[0x83, 0x80, 0x80, 0x80, 0x80, 0x00], Err(BadLeb), 0),
    (&[0xff, 0xff, 0xff, 0xff, 0xff, 0x0f], Err(BadLeb), 0),
    (&[0x80, 0xff], Err(BadLeb), 0),
    (&[], Err(BadLeb), 0),
];

#[test]
fn reads_unsigned_32(rt: HostRuntime) {
    for row in &UNSIGNED_32 {
        let (bytes, value, place) = *row;
        assert_eq!(rt; unsigned_32(bytes), (value, place));
    }
}

static SIGNED_32: [(&[u8], Result<i32, BadLeb>, usize); 14] = [
    (&[0x00], Ok(0), 1),
    (&[0x3f], Ok(63), 1),
    (&[0x40], Ok(-64), 1),
    (&[0x7f], Ok(-1), 1),
    (&[0xc0, 0x00], Ok(64), 2),
    (&[0xbf, 0x7f], Ok(-65), 2),
    (&[0x9b, 0xf1, 0x59], Ok(-624485), 3),
    (&[0xfe, 0xff, 0x7f], Ok(-2), 3),
    (&[0x80, 0x80, 0x80, 0x80, 0x78], Ok(-2147483648), 5),
    (&[0xff, 0xff, 0xff, 0xff, 0x07], Ok(2147483647), 5),
    (&[0xff, 0xff, 0xff, 0xff, 0x0f], Err(BadLeb), 0),
    (&[0x80, 0x80, 0x80, 0x80, 0x70], Err(BadLeb), 0),
    (&[0x80, 0x80, 0x80, 0x80, 0x80, 0x00], Err(BadLeb), 0),
    (&[0xff, 0xff], Err(BadLeb), 0),
];

#[test]
fn reads_signed_32(rt: HostRuntime) {
    for row in &SIGNED_32 {
        let (bytes, value, place) = *row;
        assert_eq!(rt; signed_32(bytes), (value, place));
    }
}

static SIGNED_64: [(&[u8], Result<i64, BadLeb>, usize); 8] = [
    (&[0x7f], Ok(-1), 1),
    (
        &[0x80, 0x80, 0x80, 0x80, 0x80, 0x80, 0x80, 0x80, 0x80, 0x7f],
        Ok(-9223372036854775808),
        10,
    ),
    (
        &[0xff, 0xff, 0xff, 0xff, 0xff, 0xff, 0xff, 0xff, 0xff, 0x00],
        Ok(9223372036854775807),
        10,
    ),
    (
        &[0xff, 0xff, 0xff, 0xff, 0xff, 0xff, 0xff, 0xff, 0xff, 0x7f],
        Ok(-1),
        10,
    ),
    (
        &[0xff, 0xff, 0xff, 0xff, 0xff, 0xff, 0xff, 0xff, 0xff, 0x01],
        Err(BadLeb),
        0,
    ),
    (
        &[0x80, 0x80, 0x80, 0x80, 0x80, 0x80, 0x80, 0x80, 0x80, 0x7e],
        Err(BadLeb),
        0,
    ),
    (
        &[
            0x80, 0x80, 0x80, 0x80, 0x80, 0x80, 0x80, 0x80, 0x80, 0x80, 0x00,
        ],
        Err(BadLeb),
        0,
    ),
    (&[0x80, 0x80, 0x80], Err(BadLeb), 0),
];

#[test]
fn reads_signed_64(rt: HostRuntime) {
    for row in &SIGNED_64 {
        let (bytes, value, place) = *row;
        assert_eq!(rt; signed_64(bytes), (value, place));
    }
}

#[test]
fn reads_fields(rt: HostRuntime) {
    let bytes = [
        0x11, 0x78, 0x56, 0x34, 0x12, 8, 7, 6, 5, 4, 3, 2, 1, 0xaa, 0xbb,
    ];
    let mut cursor = Cursor::over(&bytes);
    assert!(rt; cursor.u8() == Ok(0x11));
    assert!(rt; cursor.u32() == Ok(0x1234_5678));
    assert!(rt; cursor.u64() == Ok(0x0102_0304_0506_0708));
    assert!(rt; cursor.place() == 13);
    assert!(rt; cursor.left() == 2);
    assert!(rt; cursor.u32() == Err(Short));
    assert!(rt; cursor.u64() == Err(Short));
    assert!(rt; cursor.take(3) == Err(Short));
    assert!(rt; cursor.place() == 13);
    assert!(rt; cursor.take(2) == Ok(&[0xaa, 0xbb][..]));
    assert!(rt; cursor.u8() == Err(Short));
}

#[test]
fn writes_fields(rt: HostRuntime) {
    let mut out = Vec::new(rt.alloc());
    assert!(rt; put_u32(&mut out, 0x1234_5678).is_ok());
    assert!(rt; put_u64(&mut out, 0x0102_0304_0506_0708).is_ok());
    assert!(rt; out.as_slice() == &[0x78, 0x56, 0x34, 0x12, 8, 7, 6, 5, 4, 3, 2, 1][..]);
}

// Whether a number is written as these bytes.
fn is_unsigned(alloc: Global, value: u32, bytes: &[u8]) -> bool {
    let mut out = Vec::new(alloc);
    put_leb_u32(&mut out, value).is_ok() && out.as_slice() == bytes
}

fn is_signed(alloc: Global, value: i64, bytes: &[u8]) -> bool {
    let mut out = Vec::new(alloc);
    put_leb_s64(&mut out, value).is_ok() && out.as_slice() == bytes
}

// Numbers, and the bytes that are written of them.
static WRITTEN_UNSIGNED: [(u32, &[u8]); 6] = [
    (0, &[0x00]),
    (127, &[0x7f]),
    (128, &[0x80, 0x01]),
    (624485, &[0xe5, 0x8e, 0x26]),
    (268435456, &[0x80, 0x80, 0x80, 0x80, 0x01]),
    (4294967295, &[0xff, 0xff, 0xff, 0xff, 0x0f]),
];

#[test]
fn writes_unsigned(rt: HostRuntime) {
    for row in &WRITTEN_UNSIGNED {
        let (value, bytes) = *row;
        assert!(rt; is_unsigned(rt.alloc(), value, bytes), "{value}");
    }
}

static WRITTEN_SIGNED: [(i64, &[u8]); 8] = [
    (0, &[0x00]),
    (63, &[0x3f]),
    (64, &[0xc0, 0x00]),
    (-1, &[0x7f]),
    (-64, &[0x40]),
    (-65, &[0xbf, 0x7f]),
    (
        9223372036854775807,
        &[0xff, 0xff, 0xff, 0xff, 0xff, 0xff, 0xff, 0xff, 0xff, 0x00],
    ),
    (
        -9223372036854775808,
        &[0x80, 0x80, 0x80, 0x80, 0x80, 0x80, 0x80, 0x80, 0x80, 0x7f],
    ),
];

#[test]
fn writes_signed(rt: HostRuntime) {
    for row in &WRITTEN_SIGNED {
        let (value, bytes) = *row;
        assert!(rt; is_signed(rt.alloc(), value, bytes), "{value}");
    }
}

#[test]
fn reads_back(rt: HostRuntime) {
    for value in [0, 127, 128, 16383, 16384, 4294967295] {
        assert!(rt; unsigned_back(rt.alloc(), value, &[0x80]) == Ok(Ok(value)));
    }
    for value in [
        0,
        -1,
        63,
        64,
        -64,
        -65,
        9223372036854775807,
        -9223372036854775808,
    ] {
        assert!(rt; signed_back(rt.alloc(), value, &[0x00]) == Ok(Ok(value)));
    }
}

#[test]
fn reads_ahead_on_a_copy(rt: HostRuntime) {
    let mut cursor = Cursor::over(&[1, 2, 3]);
    assert!(rt; cursor.u8() == Ok(1));
    let mut ahead = cursor.copy();
    assert!(rt; (ahead.place(), ahead.u8()) == (1, Ok(2)));
    assert!(rt; (cursor.place(), cursor.left(), cursor.u8()) == (1, 2, Ok(2)));
}
