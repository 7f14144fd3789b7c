// A module of all eleven sections, compared field by field.
//
// The bytes are those that wat2wasm of wabt 1.0.32 writes with --no-check --disable-bulk-memory for this
// text:
//
// (module
//   (type (func)) (type (func (param i32) (result i64))) (type (func (param i64 i32) (result i32)))
//   (type (func (param f32 f64 i32 i64) (result f32))) (type (func (result f64)))
//   (import "a" "b" (func (type 3))) (import "c" "d" (table 21 34 funcref)) (import "e" "f" (memory 5 8))
//   (import "g" "h" (global i32)) (import "i" "j" (global (mut i64))) (import "" "k" (global f32))
//   (import "l" "m" (global (mut f64))) (import "n" "o" (table 13 funcref)) (import "p" "q" (memory 2))
//   (import "r" "s" (func (type 1))) (import "t" "u" (func (type 4))) (import "v" "w" (global (mut i32)))
//   (import "x" "y" (global i64)) (import "z" "aa" (func (type 2))) (import "long name" "\c3\a9" (func (type
// 0)))
//   (import "bb" "cc" (memory 3 300)) (import "dd" "ee" (table 1000 70000 funcref))
//   (table 40 55 funcref) (table 41 funcref) (memory 6 9) (memory 7)
//   (global i32 (i32.const -70)) (global (mut i32) (i32.const 71)) (global i64 (i64.const -72)) (global (mut
// i64) (i64.const 73))
//   (global f32 (f32.const 0.5)) (global (mut f64) (f64.const 4.0)) (global i32 (global.get 0)) (global i64
// (global.get 6))
//   (global i32 (i32.const 78)) (global i32 (i32.const 79)) (global i32 (i32.const 80)) (global i32
// (i32.const 81))
//   (global i32 (i32.const 82)) (global i32 (i32.const 83)) (global i32 (i32.const 84)) (global i32
// (i32.const 85)) (global i32 (i32.const 86))
//   (func (type 1) (local i32 i32 i64 f32 f32 f32 f64 f64 i32)
//     block (result i32) loop i32.const 91 br_table 16 15 14 13 12 11 10 9 8 7 6 5 4 3 2 1 0 end i32.const 92
// end
//     if (result i64) i64.const 93 else i64.const 94 i64.const 95 end)
//   (func (type 4) f64.const 8.0) (func (type 2) i32.const 101) (func (type 3) f32.const 0.25)
//   (func (type 0)) (func (type 0) (local i64)) (func (type 0) (local f32 f32))
//   (func (type 0) nop) (func (type 0) nop nop) (func (type 0) nop nop nop)
//   (func (type 0) call 17) (func (type 0) call 18) (func (type 0) call 19) (func (type 0) call 20)
//   (func (type 0) call 21) (func (type 0) call 22) (func (type 0) call 200)
//   (export "e0" (func 14)) (export "e1" (table 3)) (export "e2" (memory 4)) (export "e3" (global 16))
//   (export "e4" (func 9)) (export "e5" (func 10)) (export "e6" (func 11)) (export "e7" (func 12))
//   (export "e8" (table 1)) (export "e9" (memory 2)) (export "" (global 300)) (export "\e2\82\ac" (func 13))
//   (export "ea" (global 7)) (export "eb" (global 8)) (export "ec" (global 5)) (export "ed" (func 6)) (export
// "ee" (func 15))
//   (start 18)
//   (elem (i32.const 150) 21 20 19 18 17 16 15 14 13 12 11 10 9 8 7 6 5) (elem (i32.const 151)) (elem
// (i32.const 152) 4)
//   (elem (i32.const 153) 3) (elem (i32.const 154) 2) (elem (i32.const 155) 1) (elem (i32.const 156) 0) (elem
// (global.get 3) 300 301)
//   (elem (i32.const 158)) (elem (i32.const 159)) (elem (i32.const 160)) (elem (i32.const 161)) (elem
// (i32.const 162))
//   (elem (i32.const 163)) (elem (i32.const 164)) (elem (i32.const 165)) (elem (i32.const 166) 22 23)
//   (data (i32.const 170) "seventeen bytes..") (data (i32.const 171)) (data (i32.const 172) "\00\ff\80")
// (data (global.get 4) "g")
//   (data (i32.const 174) "h") (data (i32.const 175) "i") (data (i32.const 176) "j") (data (i32.const 177)
// "k")
//   (data (i32.const 178) "l") (data (i32.const 179) "m") (data (i32.const 180) "n") (data (i32.const 181)
// "o")
//   (data (i32.const 182) "p") (data (i32.const 183) "q") (data (i32.const 184) "r") (data (i32.const 185)
// "s") (data (i32.const 186) "tt"))
use crate::seen::{Seen, are_seen, is_seen, is_written};
use crate::written_and_read;
use std::alloc::Global;
use wasm_module::{
    Bounds, ExportDesc, GlobalType, ImportDesc, Instr, LocalRun, Module, ValType, decode,
};

static WHOLE: [u8; 843] = [
    0x00, 0x61, 0x73, 0x6d, 0x01, 0x00, 0x00, 0x00, 0x01, 0x1b, 0x05, 0x60, 0x00, 0x00, 0x60, 0x01,
    0x7f, 0x01, 0x7e, 0x60, 0x02, 0x7e, 0x7f, 0x01, 0x7f, 0x60, 0x04, 0x7d, 0x7c, 0x7f, 0x7e, 0x01,
    0x7d, 0x60, 0x00, 0x01, 0x7c, 0x02, 0x8b, 0x01, 0x11, 0x01, 0x61, 0x01, 0x62, 0x00, 0x03, 0x01,
    0x63, 0x01, 0x64, 0x01, 0x70, 0x01, 0x15, 0x22, 0x01, 0x65, 0x01, 0x66, 0x02, 0x01, 0x05, 0x08,
    0x01, 0x67, 0x01, 0x68, 0x03, 0x7f, 0x00, 0x01, 0x69, 0x01, 0x6a, 0x03, 0x7e, 0x01, 0x00, 0x01,
    0x6b, 0x03, 0x7d, 0x00, 0x01, 0x6c, 0x01, 0x6d, 0x03, 0x7c, 0x01, 0x01, 0x6e, 0x01, 0x6f, 0x01,
    0x70, 0x00, 0x0d, 0x01, 0x70, 0x01, 0x71, 0x02, 0x00, 0x02, 0x01, 0x72, 0x01, 0x73, 0x00, 0x01,
    0x01, 0x74, 0x01, 0x75, 0x00, 0x04, 0x01, 0x76, 0x01, 0x77, 0x03, 0x7f, 0x01, 0x01, 0x78, 0x01,
    0x79, 0x03, 0x7e, 0x00, 0x01, 0x7a, 0x02, 0x61, 0x61, 0x00, 0x02, 0x09, 0x6c, 0x6f, 0x6e, 0x67,
    0x20, 0x6e, 0x61, 0x6d, 0x65, 0x02, 0xc3, 0xa9, 0x00, 0x00, 0x02, 0x62, 0x62, 0x02, 0x63, 0x63,
    0x02, 0x01, 0x03, 0xac, 0x02, 0x02, 0x64, 0x64, 0x02, 0x65, 0x65, 0x01, 0x70, 0x01, 0xe8, 0x07,
    0xf0, 0xa2, 0x04, 0x03, 0x12, 0x11, 0x01, 0x04, 0x02, 0x03, 0x00, 0x00, 0x00, 0x00, 0x00, 0x00,
    0x00, 0x00, 0x00, 0x00, 0x00, 0x00, 0x00, 0x04, 0x08, 0x02, 0x70, 0x01, 0x28, 0x37, 0x70, 0x00,
    0x29, 0x05, 0x06, 0x02, 0x01, 0x06, 0x09, 0x00, 0x07, 0x06, 0x6d, 0x11, 0x7f, 0x00, 0x41, 0xba,
    0x7f, 0x0b, 0x7f, 0x01, 0x41, 0xc7, 0x00, 0x0b, 0x7e, 0x00, 0x42, 0xb8, 0x7f, 0x0b, 0x7e, 0x01,
    0x42, 0xc9, 0x00, 0x0b, 0x7d, 0x00, 0x43, 0x00, 0x00, 0x00, 0x3f, 0x0b, 0x7c, 0x01, 0x44, 0x00,
    0x00, 0x00, 0x00, 0x00, 0x00, 0x10, 0x40, 0x0b, 0x7f, 0x00, 0x23, 0x00, 0x0b, 0x7e, 0x00, 0x23,
    0x06, 0x0b, 0x7f, 0x00, 0x41, 0xce, 0x00, 0x0b, 0x7f, 0x00, 0x41, 0xcf, 0x00, 0x0b, 0x7f, 0x00,
    0x41, 0xd0, 0x00, 0x0b, 0x7f, 0x00, 0x41, 0xd1, 0x00, 0x0b, 0x7f, 0x00, 0x41, 0xd2, 0x00, 0x0b,
    0x7f, 0x00, 0x41, 0xd3, 0x00, 0x0b, 0x7f, 0x00, 0x41, 0xd4, 0x00, 0x0b, 0x7f, 0x00, 0x41, 0xd5,
    0x00, 0x0b, 0x7f, 0x00, 0x41, 0xd6, 0x00, 0x0b, 0x07, 0x56, 0x11, 0x02, 0x65, 0x30, 0x00, 0x0e,
    0x02, 0x65, 0x31, 0x01, 0x03, 0x02, 0x65, 0x32, 0x02, 0x04, 0x02, 0x65, 0x33, 0x03, 0x10, 0x02,
    0x65, 0x34, 0x00, 0x09, 0x02, 0x65, 0x35, 0x00, 0x0a, 0x02, 0x65, 0x36, 0x00, 0x0b, 0x02, 0x65,
    0x37, 0x00, 0x0c, 0x02, 0x65, 0x38, 0x01, 0x01, 0x02, 0x65, 0x39, 0x02, 0x02, 0x00, 0x03, 0xac,
    0x02, 0x03, 0xe2, 0x82, 0xac, 0x00, 0x0d, 0x02, 0x65, 0x61, 0x03, 0x07, 0x02, 0x65, 0x62, 0x03,
    0x08, 0x02, 0x65, 0x63, 0x03, 0x05, 0x02, 0x65, 0x64, 0x00, 0x06, 0x02, 0x65, 0x65, 0x00, 0x0f,
    0x08, 0x01, 0x12, 0x09, 0x82, 0x01, 0x11, 0x00, 0x41, 0x96, 0x01, 0x0b, 0x11, 0x15, 0x14, 0x13,
    0x12, 0x11, 0x10, 0x0f, 0x0e, 0x0d, 0x0c, 0x0b, 0x0a, 0x09, 0x08, 0x07, 0x06, 0x05, 0x00, 0x41,
    0x97, 0x01, 0x0b, 0x00, 0x00, 0x41, 0x98, 0x01, 0x0b, 0x01, 0x04, 0x00, 0x41, 0x99, 0x01, 0x0b,
    0x01, 0x03, 0x00, 0x41, 0x9a, 0x01, 0x0b, 0x01, 0x02, 0x00, 0x41, 0x9b, 0x01, 0x0b, 0x01, 0x01,
    0x00, 0x41, 0x9c, 0x01, 0x0b, 0x01, 0x00, 0x00, 0x23, 0x03, 0x0b, 0x02, 0xac, 0x02, 0xad, 0x02,
    0x00, 0x41, 0x9e, 0x01, 0x0b, 0x00, 0x00, 0x41, 0x9f, 0x01, 0x0b, 0x00, 0x00, 0x41, 0xa0, 0x01,
    0x0b, 0x00, 0x00, 0x41, 0xa1, 0x01, 0x0b, 0x00, 0x00, 0x41, 0xa2, 0x01, 0x0b, 0x00, 0x00, 0x41,
    0xa3, 0x01, 0x0b, 0x00, 0x00, 0x41, 0xa4, 0x01, 0x0b, 0x00, 0x00, 0x41, 0xa5, 0x01, 0x0b, 0x00,
    0x00, 0x41, 0xa6, 0x01, 0x0b, 0x02, 0x16, 0x17, 0x0a, 0x94, 0x01, 0x11, 0x38, 0x05, 0x02, 0x7f,
    0x01, 0x7e, 0x03, 0x7d, 0x02, 0x7c, 0x01, 0x7f, 0x02, 0x7f, 0x03, 0x40, 0x41, 0xdb, 0x00, 0x0e,
    0x10, 0x10, 0x0f, 0x0e, 0x0d, 0x0c, 0x0b, 0x0a, 0x09, 0x08, 0x07, 0x06, 0x05, 0x04, 0x03, 0x02,
    0x01, 0x00, 0x0b, 0x41, 0xdc, 0x00, 0x0b, 0x04, 0x7e, 0x42, 0xdd, 0x00, 0x05, 0x42, 0xde, 0x00,
    0x42, 0xdf, 0x00, 0x0b, 0x0b, 0x0b, 0x00, 0x44, 0x00, 0x00, 0x00, 0x00, 0x00, 0x00, 0x20, 0x40,
    0x0b, 0x05, 0x00, 0x41, 0xe5, 0x00, 0x0b, 0x07, 0x00, 0x43, 0x00, 0x00, 0x80, 0x3e, 0x0b, 0x02,
    0x00, 0x0b, 0x04, 0x01, 0x01, 0x7e, 0x0b, 0x04, 0x01, 0x02, 0x7d, 0x0b, 0x03, 0x00, 0x01, 0x0b,
    0x04, 0x00, 0x01, 0x01, 0x0b, 0x05, 0x00, 0x01, 0x01, 0x01, 0x0b, 0x04, 0x00, 0x10, 0x11, 0x0b,
    0x04, 0x00, 0x10, 0x12, 0x0b, 0x04, 0x00, 0x10, 0x13, 0x0b, 0x04, 0x00, 0x10, 0x14, 0x0b, 0x04,
    0x00, 0x10, 0x15, 0x0b, 0x04, 0x00, 0x10, 0x16, 0x0b, 0x05, 0x00, 0x10, 0xc8, 0x01, 0x0b, 0x0b,
    0x89, 0x01, 0x11, 0x00, 0x41, 0xaa, 0x01, 0x0b, 0x11, 0x73, 0x65, 0x76, 0x65, 0x6e, 0x74, 0x65,
    0x65, 0x6e, 0x20, 0x62, 0x79, 0x74, 0x65, 0x73, 0x2e, 0x2e, 0x00, 0x41, 0xab, 0x01, 0x0b, 0x00,
    0x00, 0x41, 0xac, 0x01, 0x0b, 0x03, 0x00, 0xff, 0x80, 0x00, 0x23, 0x04, 0x0b, 0x01, 0x67, 0x00,
    0x41, 0xae, 0x01, 0x0b, 0x01, 0x68, 0x00, 0x41, 0xaf, 0x01, 0x0b, 0x01, 0x69, 0x00, 0x41, 0xb0,
    0x01, 0x0b, 0x01, 0x6a, 0x00, 0x41, 0xb1, 0x01, 0x0b, 0x01, 0x6b, 0x00, 0x41, 0xb2, 0x01, 0x0b,
    0x01, 0x6c, 0x00, 0x41, 0xb3, 0x01, 0x0b, 0x01, 0x6d, 0x00, 0x41, 0xb4, 0x01, 0x0b, 0x01, 0x6e,
    0x00, 0x41, 0xb5, 0x01, 0x0b, 0x01, 0x6f, 0x00, 0x41, 0xb6, 0x01, 0x0b, 0x01, 0x70, 0x00, 0x41,
    0xb7, 0x01, 0x0b, 0x01, 0x71, 0x00, 0x41, 0xb8, 0x01, 0x0b, 0x01, 0x72, 0x00, 0x41, 0xb9, 0x01,
    0x0b, 0x01, 0x73, 0x00, 0x41, 0xba, 0x01, 0x0b, 0x02, 0x74, 0x74,
];

fn bounds(min: u32, max: Option<u32>) -> Bounds {
    Bounds { min, max }
}

/// The parameters and the result of each type.
static TYPES: [(&[ValType], Option<ValType>); 5] = [
    (&[], None),
    (&[ValType::I32], Some(ValType::I64)),
    (&[ValType::I64, ValType::I32], Some(ValType::I32)),
    (
        &[ValType::F32, ValType::F64, ValType::I32, ValType::I64],
        Some(ValType::F32),
    ),
    (&[], Some(ValType::F64)),
];

fn has_types(found: &Module) -> bool {
    for (entry, row) in found.types.as_slice().iter().zip(&TYPES) {
        let (params, result) = *row;
        if entry.params.as_slice() != params || entry.result != result {
            return false;
        }
    }
    found.types.len() == 5
}

/// The two names of each import, and what it is.
static IMPORTS: [(&[u8], &[u8], ImportDesc); 17] = [
    (b"a", b"b", ImportDesc::Func(3)),
    (
        b"c",
        b"d",
        ImportDesc::Table(Bounds {
            min: 21,
            max: Some(34),
        }),
    ),
    (
        b"e",
        b"f",
        ImportDesc::Memory(Bounds {
            min: 5,
            max: Some(8),
        }),
    ),
    (
        b"g",
        b"h",
        ImportDesc::Global(GlobalType {
            value: ValType::I32,
            mutable: false,
        }),
    ),
    (
        b"i",
        b"j",
        ImportDesc::Global(GlobalType {
            value: ValType::I64,
            mutable: true,
        }),
    ),
    (
        b"",
        b"k",
        ImportDesc::Global(GlobalType {
            value: ValType::F32,
            mutable: false,
        }),
    ),
    (
        b"l",
        b"m",
        ImportDesc::Global(GlobalType {
            value: ValType::F64,
            mutable: true,
        }),
    ),
    (b"n", b"o", ImportDesc::Table(Bounds { min: 13, max: None })),
    (b"p", b"q", ImportDesc::Memory(Bounds { min: 2, max: None })),
    (b"r", b"s", ImportDesc::Func(1)),
    (b"t", b"u", ImportDesc::Func(4)),
    (
        b"v",
        b"w",
        ImportDesc::Global(GlobalType {
            value: ValType::I32,
            mutable: true,
        }),
    ),
    (
        b"x",
        b"y",
        ImportDesc::Global(GlobalType {
            value: ValType::I64,
            mutable: false,
        }),
    ),
    (b"z", b"aa", ImportDesc::Func(2)),
    (b"long name", b"\xc3\xa9", ImportDesc::Func(0)),
    (
        b"bb",
        b"cc",
        ImportDesc::Memory(Bounds {
            min: 3,
            max: Some(300),
        }),
    ),
    (
        b"dd",
        b"ee",
        ImportDesc::Table(Bounds {
            min: 1000,
            max: Some(70000),
        }),
    ),
];

fn has_imports(found: &Module) -> bool {
    for (entry, row) in found.imports.as_slice().iter().zip(&IMPORTS) {
        let (module, name, desc) = *row;
        if entry.module.as_slice() != module
            || entry.name.as_slice() != name
            || entry.desc != desc
        {
            return false;
        }
    }
    found.imports.len() == 17
}

/// The name of each export, and what it is.
static EXPORTS: [(&[u8], ExportDesc); 17] = [
    (b"e0", ExportDesc::Func(14)),
    (b"e1", ExportDesc::Table(3)),
    (b"e2", ExportDesc::Memory(4)),
    (b"e3", ExportDesc::Global(16)),
    (b"e4", ExportDesc::Func(9)),
    (b"e5", ExportDesc::Func(10)),
    (b"e6", ExportDesc::Func(11)),
    (b"e7", ExportDesc::Func(12)),
    (b"e8", ExportDesc::Table(1)),
    (b"e9", ExportDesc::Memory(2)),
    (b"", ExportDesc::Global(300)),
    (b"\xe2\x82\xac", ExportDesc::Func(13)),
    (b"ea", ExportDesc::Global(7)),
    (b"eb", ExportDesc::Global(8)),
    (b"ec", ExportDesc::Global(5)),
    (b"ed", ExportDesc::Func(6)),
    (b"ee", ExportDesc::Func(15)),
];

fn has_exports(found: &Module) -> bool {
    for (entry, row) in found.exports.as_slice().iter().zip(&EXPORTS) {
        let (name, desc) = *row;
        if entry.name.as_slice() != name || entry.desc != desc {
            return false;
        }
    }
    found.exports.len() == 17
}

/// The value type of each global, whether it may be set, and its one instruction.
static GLOBALS: [(ValType, bool, Seen); 17] = [
    (ValType::I32, false, ("I32Const", [-70, 0, 0])),
    (ValType::I32, true, ("I32Const", [71, 0, 0])),
    (ValType::I64, false, ("I64Const", [-72, 0, 0])),
    (ValType::I64, true, ("I64Const", [73, 0, 0])),
    (ValType::F32, false, ("FloatFour", [1056964608, 0, 0])),
    (
        ValType::F64,
        true,
        ("FloatEight", [4616189618054758400, 0, 0]),
    ),
    (ValType::I32, false, ("GlobalGet", [0, 0, 0])),
    (ValType::I64, false, ("GlobalGet", [6, 0, 0])),
    (ValType::I32, false, ("I32Const", [78, 0, 0])),
    (ValType::I32, false, ("I32Const", [79, 0, 0])),
    (ValType::I32, false, ("I32Const", [80, 0, 0])),
    (ValType::I32, false, ("I32Const", [81, 0, 0])),
    (ValType::I32, false, ("I32Const", [82, 0, 0])),
    (ValType::I32, false, ("I32Const", [83, 0, 0])),
    (ValType::I32, false, ("I32Const", [84, 0, 0])),
    (ValType::I32, false, ("I32Const", [85, 0, 0])),
    (ValType::I32, false, ("I32Const", [86, 0, 0])),
];

fn has_globals(found: &Module) -> bool {
    for (entry, row) in found.globals.as_slice().iter().zip(&GLOBALS) {
        let (value, mutable, init) = *row;
        if entry.kind.value != value
            || entry.kind.mutable != mutable
            || !is_seen(&entry.init, init)
        {
            return false;
        }
    }
    found.globals.len() == 17
}

/// The one instruction of each element segment, which is for table 0, and its functions.
static ELEMENTS: [(Seen, &[u32]); 17] = [
    (
        ("I32Const", [150, 0, 0]),
        &[
            21, 20, 19, 18, 17, 16, 15, 14, 13, 12, 11, 10, 9, 8, 7, 6, 5,
        ],
    ),
    (("I32Const", [151, 0, 0]), &[]),
    (("I32Const", [152, 0, 0]), &[4]),
    (("I32Const", [153, 0, 0]), &[3]),
    (("I32Const", [154, 0, 0]), &[2]),
    (("I32Const", [155, 0, 0]), &[1]),
    (("I32Const", [156, 0, 0]), &[0]),
    (("GlobalGet", [3, 0, 0]), &[300, 301]),
    (("I32Const", [158, 0, 0]), &[]),
    (("I32Const", [159, 0, 0]), &[]),
    (("I32Const", [160, 0, 0]), &[]),
    (("I32Const", [161, 0, 0]), &[]),
    (("I32Const", [162, 0, 0]), &[]),
    (("I32Const", [163, 0, 0]), &[]),
    (("I32Const", [164, 0, 0]), &[]),
    (("I32Const", [165, 0, 0]), &[]),
    (("I32Const", [166, 0, 0]), &[22, 23]),
];

fn has_elements(found: &Module) -> bool {
    for (entry, row) in found.elements.as_slice().iter().zip(&ELEMENTS) {
        let (offset, funcs) = *row;
        if entry.table != 0 || !is_seen(&entry.offset, offset) || entry.funcs.as_slice() != funcs {
            return false;
        }
    }
    found.elements.len() == 17
}

/// The one instruction of each data segment, which is for memory 0, and its bytes.
static SEGMENTS: [(Seen, &[u8]); 17] = [
    (("I32Const", [170, 0, 0]), b"seventeen bytes.."),
    (("I32Const", [171, 0, 0]), b""),
    (("I32Const", [172, 0, 0]), b"\x00\xff\x80"),
    (("GlobalGet", [4, 0, 0]), b"g"),
    (("I32Const", [174, 0, 0]), b"h"),
    (("I32Const", [175, 0, 0]), b"i"),
    (("I32Const", [176, 0, 0]), b"j"),
    (("I32Const", [177, 0, 0]), b"k"),
    (("I32Const", [178, 0, 0]), b"l"),
    (("I32Const", [179, 0, 0]), b"m"),
    (("I32Const", [180, 0, 0]), b"n"),
    (("I32Const", [181, 0, 0]), b"o"),
    (("I32Const", [182, 0, 0]), b"p"),
    (("I32Const", [183, 0, 0]), b"q"),
    (("I32Const", [184, 0, 0]), b"r"),
    (("I32Const", [185, 0, 0]), b"s"),
    (("I32Const", [186, 0, 0]), b"tt"),
];

fn has_segments(found: &Module) -> bool {
    for (entry, row) in found.segments.as_slice().iter().zip(&SEGMENTS) {
        let (offset, bytes) = *row;
        if entry.memory != 0 || !is_seen(&entry.offset, offset) || entry.bytes.as_slice() != bytes {
            return false;
        }
    }
    found.segments.len() == 17
}

/// The locals of each function and its instructions, but for what the blocks of the first hold.
static CODES: [(&[LocalRun], &[Seen]); 17] = [
    (
        &[
            LocalRun {
                count: 2,
                value: ValType::I32,
            },
            LocalRun {
                count: 1,
                value: ValType::I64,
            },
            LocalRun {
                count: 3,
                value: ValType::F32,
            },
            LocalRun {
                count: 2,
                value: ValType::F64,
            },
            LocalRun {
                count: 1,
                value: ValType::I32,
            },
        ],
        &[("Block", [0, 2, 0]), ("If", [1, 1, 2])],
    ),
    (&[], &[("FloatEight", [4620693217682128896, 0, 0])]),
    (&[], &[("I32Const", [101, 0, 0])]),
    (&[], &[("FloatFour", [1048576000, 0, 0])]),
    (&[], &[]),
    (
        &[LocalRun {
            count: 1,
            value: ValType::I64,
        }],
        &[],
    ),
    (
        &[LocalRun {
            count: 2,
            value: ValType::F32,
        }],
        &[],
    ),
    (&[], &[("Nop", [0, 0, 0])]),
    (&[], &[("Nop", [0, 0, 0]), ("Nop", [0, 0, 0])]),
    (
        &[],
        &[("Nop", [0, 0, 0]), ("Nop", [0, 0, 0]), ("Nop", [0, 0, 0])],
    ),
    (&[], &[("Call", [17, 0, 0])]),
    (&[], &[("Call", [18, 0, 0])]),
    (&[], &[("Call", [19, 0, 0])]),
    (&[], &[("Call", [20, 0, 0])]),
    (&[], &[("Call", [21, 0, 0])]),
    (&[], &[("Call", [22, 0, 0])]),
    (&[], &[("Call", [200, 0, 0])]),
];

fn has_codes(found: &Module) -> bool {
    for (entry, row) in found.codes.as_slice().iter().zip(&CODES) {
        let (locals, body) = *row;
        if entry.locals.as_slice() != locals || !are_seen(&entry.body, body) {
            return false;
        }
    }
    found.codes.len() == 17
}

// What the blocks of the first function hold.
static OUTER: [Seen; 2] = [("Loop", [4, 2, 0]), ("I32Const", [92, 0, 0])];

static INNER: [Seen; 2] = [("I32Const", [91, 0, 0]), ("BrTable", [16, 0, 0])];

static FIRST: [Seen; 1] = [("I64Const", [93, 0, 0])];

static SECOND: [Seen; 2] = [("I64Const", [94, 0, 0]), ("I64Const", [95, 0, 0])];

static LABELS: [u32; 16] = [16, 15, 14, 13, 12, 11, 10, 9, 8, 7, 6, 5, 4, 3, 2, 1];

fn has_blocks(found: &Module) -> bool {
    let Some(code) = found.codes.nth(0) else {
        return false;
    };
    let Some(Instr::Block(_, outer)) = code.body.nth(0) else {
        return false;
    };
    let Some(Instr::Loop(_, inner)) = outer.nth(0) else {
        return false;
    };
    let Some(Instr::BrTable(labels, 0)) = inner.nth(1) else {
        return false;
    };
    let Some(Instr::If(_, first, second)) = code.body.nth(1) else {
        return false;
    };
    are_seen(outer, &OUTER)
        && are_seen(inner, &INNER)
        && labels.as_slice() == LABELS.as_slice()
        && are_seen(first, &FIRST)
        && are_seen(second, &SECOND)
}

static FUNCS: [u32; 17] = [1, 4, 2, 3, 0, 0, 0, 0, 0, 0, 0, 0, 0, 0, 0, 0, 0];

fn has_tables(found: &Module) -> bool {
    let tables = [bounds(40, Some(55)), bounds(41, None)];
    found.tables.as_slice() == tables.as_slice()
}

fn has_memories(found: &Module) -> bool {
    let memories = [bounds(6, Some(9)), bounds(7, None)];
    found.memories.as_slice() == memories.as_slice()
}

// The first part of the module that is not that of the text.
fn other_part(found: &Module) -> Option<&'static str> {
    let parts = [
        ("types", has_types(found)),
        ("imports", has_imports(found)),
        ("functions", found.funcs.as_slice() == FUNCS.as_slice()),
        ("tables", has_tables(found)),
        ("memories", has_memories(found)),
        ("globals", has_globals(found)),
        ("exports", has_exports(found)),
        ("start", found.start == Some(18)),
        ("elements", has_elements(found)),
        ("codes", has_codes(found)),
        ("blocks", has_blocks(found)),
        ("data", has_segments(found)),
    ];
    for (name, is_same) in parts {
        if !is_same {
            return Some(name);
        }
    }
    None
}

// The same of the module that the bytes spell.
fn other_part_read(alloc: Global) -> Option<&'static str> {
    match decode(alloc, &WHOLE) {
        Ok(found) => other_part(&found),
        Err(_) => Some("all"),
    }
}

// The same once it was written and read back.
fn other_part_again(alloc: Global) -> Option<&'static str> {
    let Ok(found) = decode(alloc, &WHOLE) else {
        return Some("all");
    };
    match written_and_read(alloc, &found) {
        Ok(again) => other_part(&again),
        Err(_) => Some("all again"),
    }
}

#[test]
fn each_field_is_that_of_the_text(rt: HostRuntime) {
    let alloc = rt.alloc();
    assert_eq!(rt; other_part_read(alloc), None);
    assert_eq!(rt; other_part_again(alloc), None);
    assert!(rt; is_written(alloc, &WHOLE), "written");
}
