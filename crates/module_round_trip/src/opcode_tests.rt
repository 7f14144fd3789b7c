// Each opcode of the subset, and of the instructions on floats, against its instruction.
//
// The bytes are those that wat2wasm of wabt 1.0.32 writes with --no-check for this text:
//
// (module
//   (type (func)) (type (func (param i32))) (type (func (param i64)))
//   (func
//     unreachable
//     nop
//     block (result i32) unreachable end
//     loop (result i64) nop unreachable end
//     if (result f32) nop nop unreachable else return end
//     if drop end
//     br 11
//     br_if 12
//     br_table 31 30 29 28 27 26 25 24 23 22 21 20 19 18 17 16 13
//     return
//     call 14
//     call_indirect (type 2)
//     drop
//     select
//     local.get 41
//     local.set 42
//     local.tee 43
//     global.get 44
//     global.set 45
//     i32.load offset=500 align=1
//     i64.load offset=501 align=2
//     f32.load offset=502 align=4
//     f64.load offset=503 align=8
//     i32.load8_s offset=504 align=16
//     i32.load8_u offset=505 align=32
//     i32.load16_s offset=506 align=64
//     i32.load16_u offset=507 align=128
//     i64.load8_s offset=508 align=256
//     i64.load8_u offset=509 align=512
//     i64.load16_s offset=510 align=1024
//     i64.load16_u offset=511 align=2048
//     i64.load32_s offset=512 align=4096
//     i64.load32_u offset=513 align=8192
//     i32.store offset=514 align=16384
//     i64.store offset=515 align=32768
//     f32.store offset=516 align=65536
//     f64.store offset=517 align=131072
//     i32.store8 offset=518 align=262144
//     i32.store16 offset=519 align=524288
//     i64.store8 offset=520 align=1048576
//     i64.store16 offset=521 align=2097152
//     i64.store32 offset=522 align=4194304
//     memory.size
//     memory.grow
//     i32.const -123456
//     i64.const -1234567890123
//     f32.const 1.5
//     f64.const 2.25
//     i32.eqz
//     i32.eq
//     i32.ne
//     i32.lt_s
//     i32.lt_u
//     i32.gt_s
//     i32.gt_u
//     i32.le_s
//     i32.le_u
//     i32.ge_s
//     i32.ge_u
//     i64.eqz
//     i64.eq
//     i64.ne
//     i64.lt_s
//     i64.lt_u
//     i64.gt_s
//     i64.gt_u
//     i64.le_s
//     i64.le_u
//     i64.ge_s
//     i64.ge_u
//     f32.eq
//     f32.ne
//     f32.lt
//     f32.gt
//     f32.le
//     f32.ge
//     f64.eq
//     f64.ne
//     f64.lt
//     f64.gt
//     f64.le
//     f64.ge
//     i32.clz
//     i32.ctz
//     i32.popcnt
//     i32.add
//     i32.sub
//     i32.mul
//     i32.div_s
//     i32.div_u
//     i32.rem_s
//     i32.rem_u
//     i32.and
//     i32.or
//     i32.xor
//     i32.shl
//     i32.shr_s
//     i32.shr_u
//     i32.rotl
//     i32.rotr
//     i64.clz
//     i64.ctz
//     i64.popcnt
//     i64.add
//     i64.sub
//     i64.mul
//     i64.div_s
//     i64.div_u
//     i64.rem_s
//     i64.rem_u
//     i64.and
//     i64.or
//     i64.xor
//     i64.shl
//     i64.shr_s
//     i64.shr_u
//     i64.rotl
//     i64.rotr
//     f32.abs
//     f32.neg
//     f32.ceil
//     f32.floor
//     f32.trunc
//     f32.nearest
//     f32.sqrt
//     f32.add
//     f32.sub
//     f32.mul
//     f32.div
//     f32.min
//     f32.max
//     f32.copysign
//     f64.abs
//     f64.neg
//     f64.ceil
//     f64.floor
//     f64.trunc
//     f64.nearest
//     f64.sqrt
//     f64.add
//     f64.sub
//     f64.mul
//     f64.div
//     f64.min
//     f64.max
//     f64.copysign
//     i32.wrap_i64
//     i32.trunc_f32_s
//     i32.trunc_f32_u
//     i32.trunc_f64_s
//     i32.trunc_f64_u
//     i64.extend_i32_s
//     i64.extend_i32_u
//     i64.trunc_f32_s
//     i64.trunc_f32_u
//     i64.trunc_f64_s
//     i64.trunc_f64_u
//     f32.convert_i32_s
//     f32.convert_i32_u
//     f32.convert_i64_s
//     f32.convert_i64_u
//     f32.demote_f64
//     f64.convert_i32_s
//     f64.convert_i32_u
//     f64.convert_i64_s
//     f64.convert_i64_u
//     f64.promote_f32
//     i32.reinterpret_f32
//     i64.reinterpret_f64
//     f32.reinterpret_i32
//     f64.reinterpret_i64
//     i32.extend8_s
//     i32.extend16_s
//     i64.extend8_s
//     i64.extend16_s
//     i64.extend32_s))
use crate::seen::{is_written, seen};
use std::alloc::Global;
use wasm_module::{Instrs, decode};

static OPCODES: [u8; 347] = [
    0x00, 0x61, 0x73, 0x6d, 0x01, 0x00, 0x00, 0x00, 0x01, 0x0c, 0x03, 0x60, 0x00, 0x00, 0x60, 0x01,
    0x7f, 0x00, 0x60, 0x01, 0x7e, 0x00, 0x03, 0x02, 0x01, 0x00, 0x0a, 0xbe, 0x02, 0x01, 0xbb, 0x02,
    0x00, 0x00, 0x01, 0x02, 0x7f, 0x00, 0x0b, 0x03, 0x7e, 0x01, 0x00, 0x0b, 0x04, 0x7d, 0x01, 0x01,
    0x00, 0x05, 0x0f, 0x0b, 0x04, 0x40, 0x1a, 0x0b, 0x0c, 0x0b, 0x0d, 0x0c, 0x0e, 0x10, 0x1f, 0x1e,
    0x1d, 0x1c, 0x1b, 0x1a, 0x19, 0x18, 0x17, 0x16, 0x15, 0x14, 0x13, 0x12, 0x11, 0x10, 0x0d, 0x0f,
    0x10, 0x0e, 0x11, 0x02, 0x00, 0x1a, 0x1b, 0x20, 0x29, 0x21, 0x2a, 0x22, 0x2b, 0x23, 0x2c, 0x24,
    0x2d, 0x28, 0x00, 0xf4, 0x03, 0x29, 0x01, 0xf5, 0x03, 0x2a, 0x02, 0xf6, 0x03, 0x2b, 0x03, 0xf7,
    0x03, 0x2c, 0x04, 0xf8, 0x03, 0x2d, 0x05, 0xf9, 0x03, 0x2e, 0x06, 0xfa, 0x03, 0x2f, 0x07, 0xfb,
    0x03, 0x30, 0x08, 0xfc, 0x03, 0x31, 0x09, 0xfd, 0x03, 0x32, 0x0a, 0xfe, 0x03, 0x33, 0x0b, 0xff,
    0x03, 0x34, 0x0c, 0x80, 0x04, 0x35, 0x0d, 0x81, 0x04, 0x36, 0x0e, 0x82, 0x04, 0x37, 0x0f, 0x83,
    0x04, 0x38, 0x10, 0x84, 0x04, 0x39, 0x11, 0x85, 0x04, 0x3a, 0x12, 0x86, 0x04, 0x3b, 0x13, 0x87,
    0x04, 0x3c, 0x14, 0x88, 0x04, 0x3d, 0x15, 0x89, 0x04, 0x3e, 0x16, 0x8a, 0x04, 0x3f, 0x00, 0x40,
    0x00, 0x41, 0xc0, 0xbb, 0x78, 0x42, 0xb5, 0xf6, 0x93, 0xf0, 0x88, 0x5c, 0x43, 0x00, 0x00, 0xc0,
    0x3f, 0x44, 0x00, 0x00, 0x00, 0x00, 0x00, 0x00, 0x02, 0x40, 0x45, 0x46, 0x47, 0x48, 0x49, 0x4a,
    0x4b, 0x4c, 0x4d, 0x4e, 0x4f, 0x50, 0x51, 0x52, 0x53, 0x54, 0x55, 0x56, 0x57, 0x58, 0x59, 0x5a,
    0x5b, 0x5c, 0x5d, 0x5e, 0x5f, 0x60, 0x61, 0x62, 0x63, 0x64, 0x65, 0x66, 0x67, 0x68, 0x69, 0x6a,
    0x6b, 0x6c, 0x6d, 0x6e, 0x6f, 0x70, 0x71, 0x72, 0x73, 0x74, 0x75, 0x76, 0x77, 0x78, 0x79, 0x7a,
    0x7b, 0x7c, 0x7d, 0x7e, 0x7f, 0x80, 0x81, 0x82, 0x83, 0x84, 0x85, 0x86, 0x87, 0x88, 0x89, 0x8a,
    0x8b, 0x8c, 0x8d, 0x8e, 0x8f, 0x90, 0x91, 0x92, 0x93, 0x94, 0x95, 0x96, 0x97, 0x98, 0x99, 0x9a,
    0x9b, 0x9c, 0x9d, 0x9e, 0x9f, 0xa0, 0xa1, 0xa2, 0xa3, 0xa4, 0xa5, 0xa6, 0xa7, 0xa8, 0xa9, 0xaa,
    0xab, 0xac, 0xad, 0xae, 0xaf, 0xb0, 0xb1, 0xb2, 0xb3, 0xb4, 0xb5, 0xb6, 0xb7, 0xb8, 0xb9, 0xba,
    0xbb, 0xbc, 0xbd, 0xbe, 0xbf, 0xc0, 0xc1, 0xc2, 0xc3, 0xc4, 0x0b,
];

/// The name of each instruction in the text, its variant, and the numbers that it carries.
static ROWS: [(&str, &str, [i64; 3]); 176] = [
    ("unreachable", "Unreachable", [0, 0, 0]),
    ("nop", "Nop", [0, 0, 0]),
    ("block", "Block", [0, 1, 0]),
    ("loop", "Loop", [1, 2, 0]),
    ("if", "If", [2, 3, 1]),
    ("if without else", "If", [4, 1, 0]),
    ("br", "Br", [11, 0, 0]),
    ("br_if", "BrIf", [12, 0, 0]),
    ("br_table", "BrTable", [16, 13, 0]),
    ("return", "Return", [0, 0, 0]),
    ("call", "Call", [14, 0, 0]),
    ("call_indirect", "CallIndirect", [2, 0, 0]),
    ("drop", "Drop", [0, 0, 0]),
    ("select", "Select", [0, 0, 0]),
    ("local.get", "LocalGet", [41, 0, 0]),
    ("local.set", "LocalSet", [42, 0, 0]),
    ("local.tee", "LocalTee", [43, 0, 0]),
    ("global.get", "GlobalGet", [44, 0, 0]),
    ("global.set", "GlobalSet", [45, 0, 0]),
    ("i32.load", "Load", [0x28, 0, 500]),
    ("i64.load", "Load", [0x29, 1, 501]),
    ("f32.load", "FloatMemory", [0x2a, 2, 502]),
    ("f64.load", "FloatMemory", [0x2b, 3, 503]),
    ("i32.load8_s", "Load", [0x2c, 4, 504]),
    ("i32.load8_u", "Load", [0x2d, 5, 505]),
    ("i32.load16_s", "Load", [0x2e, 6, 506]),
    ("i32.load16_u", "Load", [0x2f, 7, 507]),
    ("i64.load8_s", "Load", [0x30, 8, 508]),
    ("i64.load8_u", "Load", [0x31, 9, 509]),
    ("i64.load16_s", "Load", [0x32, 10, 510]),
    ("i64.load16_u", "Load", [0x33, 11, 511]),
    ("i64.load32_s", "Load", [0x34, 12, 512]),
    ("i64.load32_u", "Load", [0x35, 13, 513]),
    ("i32.store", "Store", [0x36, 14, 514]),
    ("i64.store", "Store", [0x37, 15, 515]),
    ("f32.store", "FloatMemory", [0x38, 16, 516]),
    ("f64.store", "FloatMemory", [0x39, 17, 517]),
    ("i32.store8", "Store", [0x3a, 18, 518]),
    ("i32.store16", "Store", [0x3b, 19, 519]),
    ("i64.store8", "Store", [0x3c, 20, 520]),
    ("i64.store16", "Store", [0x3d, 21, 521]),
    ("i64.store32", "Store", [0x3e, 22, 522]),
    ("memory.size", "MemorySize", [0, 0, 0]),
    ("memory.grow", "MemoryGrow", [0, 0, 0]),
    ("i32.const", "I32Const", [-123456, 0, 0]),
    ("i64.const", "I64Const", [-1234567890123, 0, 0]),
    ("f32.const", "FloatFour", [1069547520, 0, 0]),
    ("f64.const", "FloatEight", [4612248968380809216, 0, 0]),
    ("i32.eqz", "Numeric", [0x45, 0x0, 0x0]),
    ("i32.eq", "Numeric", [0x46, 0x0, 0x0]),
    ("i32.ne", "Numeric", [0x47, 0x0, 0x0]),
    ("i32.lt_s", "Numeric", [0x48, 0x0, 0x0]),
    ("i32.lt_u", "Numeric", [0x49, 0x0, 0x0]),
    ("i32.gt_s", "Numeric", [0x4a, 0x0, 0x0]),
    ("i32.gt_u", "Numeric", [0x4b, 0x0, 0x0]),
    ("i32.le_s", "Numeric", [0x4c, 0x0, 0x0]),
    ("i32.le_u", "Numeric", [0x4d, 0x0, 0x0]),
    ("i32.ge_s", "Numeric", [0x4e, 0x0, 0x0]),
    ("i32.ge_u", "Numeric", [0x4f, 0x0, 0x0]),
    ("i64.eqz", "Numeric", [0x50, 0x0, 0x0]),
    ("i64.eq", "Numeric", [0x51, 0x0, 0x0]),
    ("i64.ne", "Numeric", [0x52, 0x0, 0x0]),
    ("i64.lt_s", "Numeric", [0x53, 0x0, 0x0]),
    ("i64.lt_u", "Numeric", [0x54, 0x0, 0x0]),
    ("i64.gt_s", "Numeric", [0x55, 0x0, 0x0]),
    ("i64.gt_u", "Numeric", [0x56, 0x0, 0x0]),
    ("i64.le_s", "Numeric", [0x57, 0x0, 0x0]),
    ("i64.le_u", "Numeric", [0x58, 0x0, 0x0]),
    ("i64.ge_s", "Numeric", [0x59, 0x0, 0x0]),
    ("i64.ge_u", "Numeric", [0x5a, 0x0, 0x0]),
    ("f32.eq", "FloatPlain", [0x5b, 0x0, 0x0]),
    ("f32.ne", "FloatPlain", [0x5c, 0x0, 0x0]),
    ("f32.lt", "FloatPlain", [0x5d, 0x0, 0x0]),
    ("f32.gt", "FloatPlain", [0x5e, 0x0, 0x0]),
    ("f32.le", "FloatPlain", [0x5f, 0x0, 0x0]),
    ("f32.ge", "FloatPlain", [0x60, 0x0, 0x0]),
    ("f64.eq", "FloatPlain", [0x61, 0x0, 0x0]),
    ("f64.ne", "FloatPlain", [0x62, 0x0, 0x0]),
    ("f64.lt", "FloatPlain", [0x63, 0x0, 0x0]),
    ("f64.gt", "FloatPlain", [0x64, 0x0, 0x0]),
    ("f64.le", "FloatPlain", [0x65, 0x0, 0x0]),
    ("f64.ge", "FloatPlain", [0x66, 0x0, 0x0]),
    ("i32.clz", "Numeric", [0x67, 0x0, 0x0]),
    ("i32.ctz", "Numeric", [0x68, 0x0, 0x0]),
    ("i32.popcnt", "Numeric", [0x69, 0x0, 0x0]),
    ("i32.add", "Numeric", [0x6a, 0x0, 0x0]),
    ("i32.sub", "Numeric", [0x6b, 0x0, 0x0]),
    ("i32.mul", "Numeric", [0x6c, 0x0, 0x0]),
    ("i32.div_s", "Numeric", [0x6d, 0x0, 0x0]),
    ("i32.div_u", "Numeric", [0x6e, 0x0, 0x0]),
    ("i32.rem_s", "Numeric", [0x6f, 0x0, 0x0]),
    ("i32.rem_u", "Numeric", [0x70, 0x0, 0x0]),
    ("i32.and", "Numeric", [0x71, 0x0, 0x0]),
    ("i32.or", "Numeric", [0x72, 0x0, 0x0]),
    ("i32.xor", "Numeric", [0x73, 0x0, 0x0]),
    ("i32.shl", "Numeric", [0x74, 0x0, 0x0]),
    ("i32.shr_s", "Numeric", [0x75, 0x0, 0x0]),
    ("i32.shr_u", "Numeric", [0x76, 0x0, 0x0]),
    ("i32.rotl", "Numeric", [0x77, 0x0, 0x0]),
    ("i32.rotr", "Numeric", [0x78, 0x0, 0x0]),
    ("i64.clz", "Numeric", [0x79, 0x0, 0x0]),
    ("i64.ctz", "Numeric", [0x7a, 0x0, 0x0]),
    ("i64.popcnt", "Numeric", [0x7b, 0x0, 0x0]),
    ("i64.add", "Numeric", [0x7c, 0x0, 0x0]),
    ("i64.sub", "Numeric", [0x7d, 0x0, 0x0]),
    ("i64.mul", "Numeric", [0x7e, 0x0, 0x0]),
    ("i64.div_s", "Numeric", [0x7f, 0x0, 0x0]),
    ("i64.div_u", "Numeric", [0x80, 0x0, 0x0]),
    ("i64.rem_s", "Numeric", [0x81, 0x0, 0x0]),
    ("i64.rem_u", "Numeric", [0x82, 0x0, 0x0]),
    ("i64.and", "Numeric", [0x83, 0x0, 0x0]),
    ("i64.or", "Numeric", [0x84, 0x0, 0x0]),
    ("i64.xor", "Numeric", [0x85, 0x0, 0x0]),
    ("i64.shl", "Numeric", [0x86, 0x0, 0x0]),
    ("i64.shr_s", "Numeric", [0x87, 0x0, 0x0]),
    ("i64.shr_u", "Numeric", [0x88, 0x0, 0x0]),
    ("i64.rotl", "Numeric", [0x89, 0x0, 0x0]),
    ("i64.rotr", "Numeric", [0x8a, 0x0, 0x0]),
    ("f32.abs", "FloatPlain", [0x8b, 0x0, 0x0]),
    ("f32.neg", "FloatPlain", [0x8c, 0x0, 0x0]),
    ("f32.ceil", "FloatPlain", [0x8d, 0x0, 0x0]),
    ("f32.floor", "FloatPlain", [0x8e, 0x0, 0x0]),
    ("f32.trunc", "FloatPlain", [0x8f, 0x0, 0x0]),
    ("f32.nearest", "FloatPlain", [0x90, 0x0, 0x0]),
    ("f32.sqrt", "FloatPlain", [0x91, 0x0, 0x0]),
    ("f32.add", "FloatPlain", [0x92, 0x0, 0x0]),
    ("f32.sub", "FloatPlain", [0x93, 0x0, 0x0]),
    ("f32.mul", "FloatPlain", [0x94, 0x0, 0x0]),
    ("f32.div", "FloatPlain", [0x95, 0x0, 0x0]),
    ("f32.min", "FloatPlain", [0x96, 0x0, 0x0]),
    ("f32.max", "FloatPlain", [0x97, 0x0, 0x0]),
    ("f32.copysign", "FloatPlain", [0x98, 0x0, 0x0]),
    ("f64.abs", "FloatPlain", [0x99, 0x0, 0x0]),
    ("f64.neg", "FloatPlain", [0x9a, 0x0, 0x0]),
    ("f64.ceil", "FloatPlain", [0x9b, 0x0, 0x0]),
    ("f64.floor", "FloatPlain", [0x9c, 0x0, 0x0]),
    ("f64.trunc", "FloatPlain", [0x9d, 0x0, 0x0]),
    ("f64.nearest", "FloatPlain", [0x9e, 0x0, 0x0]),
    ("f64.sqrt", "FloatPlain", [0x9f, 0x0, 0x0]),
    ("f64.add", "FloatPlain", [0xa0, 0x0, 0x0]),
    ("f64.sub", "FloatPlain", [0xa1, 0x0, 0x0]),
    ("f64.mul", "FloatPlain", [0xa2, 0x0, 0x0]),
    ("f64.div", "FloatPlain", [0xa3, 0x0, 0x0]),
    ("f64.min", "FloatPlain", [0xa4, 0x0, 0x0]),
    ("f64.max", "FloatPlain", [0xa5, 0x0, 0x0]),
    ("f64.copysign", "FloatPlain", [0xa6, 0x0, 0x0]),
    ("i32.wrap_i64", "Numeric", [0xa7, 0x0, 0x0]),
    ("i32.trunc_f32_s", "FloatPlain", [0xa8, 0x0, 0x0]),
    ("i32.trunc_f32_u", "FloatPlain", [0xa9, 0x0, 0x0]),
    ("i32.trunc_f64_s", "FloatPlain", [0xaa, 0x0, 0x0]),
    ("i32.trunc_f64_u", "FloatPlain", [0xab, 0x0, 0x0]),
    ("i64.extend_i32_s", "Numeric", [0xac, 0x0, 0x0]),
    ("i64.extend_i32_u", "Numeric", [0xad, 0x0, 0x0]),
    ("i64.trunc_f32_s", "FloatPlain", [0xae, 0x0, 0x0]),
    ("i64.trunc_f32_u", "FloatPlain", [0xaf, 0x0, 0x0]),
    ("i64.trunc_f64_s", "FloatPlain", [0xb0, 0x0, 0x0]),
    ("i64.trunc_f64_u", "FloatPlain", [0xb1, 0x0, 0x0]),
    ("f32.convert_i32_s", "FloatPlain", [0xb2, 0x0, 0x0]),
    ("f32.convert_i32_u", "FloatPlain", [0xb3, 0x0, 0x0]),
    ("f32.convert_i64_s", "FloatPlain", [0xb4, 0x0, 0x0]),
    ("f32.convert_i64_u", "FloatPlain", [0xb5, 0x0, 0x0]),
    ("f32.demote_f64", "FloatPlain", [0xb6, 0x0, 0x0]),
    ("f64.convert_i32_s", "FloatPlain", [0xb7, 0x0, 0x0]),
    ("f64.convert_i32_u", "FloatPlain", [0xb8, 0x0, 0x0]),
    ("f64.convert_i64_s", "FloatPlain", [0xb9, 0x0, 0x0]),
    ("f64.convert_i64_u", "FloatPlain", [0xba, 0x0, 0x0]),
    ("f64.promote_f32", "FloatPlain", [0xbb, 0x0, 0x0]),
    ("i32.reinterpret_f32", "FloatPlain", [0xbc, 0x0, 0x0]),
    ("i64.reinterpret_f64", "FloatPlain", [0xbd, 0x0, 0x0]),
    ("f32.reinterpret_i32", "FloatPlain", [0xbe, 0x0, 0x0]),
    ("f64.reinterpret_i64", "FloatPlain", [0xbf, 0x0, 0x0]),
    ("i32.extend8_s", "Numeric", [0xc0, 0x0, 0x0]),
    ("i32.extend16_s", "Numeric", [0xc1, 0x0, 0x0]),
    ("i64.extend8_s", "Numeric", [0xc2, 0x0, 0x0]),
    ("i64.extend16_s", "Numeric", [0xc3, 0x0, 0x0]),
    ("i64.extend32_s", "Numeric", [0xc4, 0x0, 0x0]),
];

// The name of the first row whose instruction is another one, of a body of as many instructions.
fn other_row(body: &Instrs) -> Option<&'static str> {
    for (instr, row) in body.as_slice().iter().zip(&ROWS) {
        let (name, variant, numbers) = *row;
        if seen(instr) != (variant, numbers) {
            return Some(name);
        }
    }
    (body.len() != 176).then_some("their number")
}

// The same of the first function of the module that the bytes spell.
fn other_instruction(alloc: Global) -> Option<&'static str> {
    let Ok(found) = decode(alloc, &OPCODES) else {
        return Some("all");
    };
    match found.codes.nth(0) {
        Some(code) => other_row(&code.body),
        None => Some("the function"),
    }
}

#[test]
fn each_opcode_is_its_instruction(rt: HostRuntime) {
    let alloc = rt.alloc();
    assert_eq!(rt; other_instruction(alloc), None);
    assert!(rt; is_written(alloc, &OPCODES), "written");
}
