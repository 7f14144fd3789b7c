// The operations on 32 bits. Where no import stands in a text, those of the host's calls are left out.
use crate::recorder::SEE32;
use crate::rows::{FINISHED, all_do};
use std::test::Fail;

const NUMBERS32: [&[u8]; 30] = [
    // i32.eqz: (func (export "loop") (call $see32 (i32.eqz (i32.const 0))) (call $see32 (i32.eqz (i32.const
    // 1))) (call $see32 (i32.eqz (i32.const -1))) (call $see32 (i32.eqz (i32.const -0x80000000))))
    b"\x01\x08\x02\x60\x01\x7f\x00\x60\x00\x00\x02\x11\x01\x07\x73\x63\x72\x65\x65\x70\x73\x05\x73\x65\x65\x33\x32\x00\x00\x03\x02\x01\x01\x07\x08\x01\x04\x6c\x6f\x6f\x70\x00\x01\x0a\x1c\x01\x1a\x00\x41\x00\x45\x10\x00\x41\x01\x45\x10\x00\x41\x7f\x45\x10\x00\x41\x80\x80\x80\x80\x78\x45\x10\x00\x0b",
    // i32.clz: (func (export "loop") (call $see32 (i32.clz (i32.const 0))) (call $see32 (i32.clz (i32.const
    // 1))) (call $see32 (i32.clz (i32.const -1))) (call $see32 (i32.clz (i32.const -0x80000000))) (call
    // $see32 (i32.clz (i32.const 16711680))) (call $see32 (i32.clz (i32.const 0x7fffffff))))
    b"\x01\x08\x02\x60\x01\x7f\x00\x60\x00\x00\x02\x11\x01\x07\x73\x63\x72\x65\x65\x70\x73\x05\x73\x65\x65\x33\x32\x00\x00\x03\x02\x01\x01\x07\x08\x01\x04\x6c\x6f\x6f\x70\x00\x01\x0a\x2d\x01\x2b\x00\x41\x00\x67\x10\x00\x41\x01\x67\x10\x00\x41\x7f\x67\x10\x00\x41\x80\x80\x80\x80\x78\x67\x10\x00\x41\x80\x80\xfc\x07\x67\x10\x00\x41\xff\xff\xff\xff\x07\x67\x10\x00\x0b",
    // i32.ctz: (func (export "loop") (call $see32 (i32.ctz (i32.const 0))) (call $see32 (i32.ctz (i32.const
    // 1))) (call $see32 (i32.ctz (i32.const -1))) (call $see32 (i32.ctz (i32.const -0x80000000))) (call
    // $see32 (i32.ctz (i32.const 16711680))))
    b"\x01\x08\x02\x60\x01\x7f\x00\x60\x00\x00\x02\x11\x01\x07\x73\x63\x72\x65\x65\x70\x73\x05\x73\x65\x65\x33\x32\x00\x00\x03\x02\x01\x01\x07\x08\x01\x04\x6c\x6f\x6f\x70\x00\x01\x0a\x24\x01\x22\x00\x41\x00\x68\x10\x00\x41\x01\x68\x10\x00\x41\x7f\x68\x10\x00\x41\x80\x80\x80\x80\x78\x68\x10\x00\x41\x80\x80\xfc\x07\x68\x10\x00\x0b",
    // i32.popcnt: (func (export "loop") (call $see32 (i32.popcnt (i32.const 0))) (call $see32 (i32.popcnt
    // (i32.const -1))) (call $see32 (i32.popcnt (i32.const -0x80000000))) (call $see32 (i32.popcnt (i32.const
    // 0x7fffffff))) (call $see32 (i32.popcnt (i32.const 0x2aaa5555))))
    b"\x01\x08\x02\x60\x01\x7f\x00\x60\x00\x00\x02\x11\x01\x07\x73\x63\x72\x65\x65\x70\x73\x05\x73\x65\x65\x33\x32\x00\x00\x03\x02\x01\x01\x07\x08\x01\x04\x6c\x6f\x6f\x70\x00\x01\x0a\x29\x01\x27\x00\x41\x00\x69\x10\x00\x41\x7f\x69\x10\x00\x41\x80\x80\x80\x80\x78\x69\x10\x00\x41\xff\xff\xff\xff\x07\x69\x10\x00\x41\xd5\xaa\xa9\xd5\x02\x69\x10\x00\x0b",
    // i32.eq: (func (export "loop") (call $see32 (i32.eq (i32.const 0) (i32.const 0))) (call $see32 (i32.eq
    // (i32.const 1) (i32.const 0))) (call $see32 (i32.eq (i32.const 0) (i32.const 1))) (call $see32 (i32.eq
    // (i32.const -1) (i32.const 0))) (call $see32 (i32.eq (i32.const 0) (i32.const -1))) (call $see32 (i32.eq
    // (i32.const -0x80000000) (i32.const 0x7fffffff))) (call $see32 (i32.eq (i32.const 0x7fffffff) (i32.const
    // -0x80000000))) (call $see32 (i32.eq (i32.const -0x80000000) (i32.const -0x80000000))) (call $see32
    // (i32.eq (i32.const -1) (i32.const -2))) (call $see32 (i32.eq (i32.const -2) (i32.const -1))))
    b"\x01\x08\x02\x60\x01\x7f\x00\x60\x00\x00\x02\x11\x01\x07\x73\x63\x72\x65\x65\x70\x73\x05\x73\x65\x65\x33\x32\x00\x00\x03\x02\x01\x01\x07\x08\x01\x04\x6c\x6f\x6f\x70\x00\x01\x0a\x62\x01\x60\x00\x41\x00\x41\x00\x46\x10\x00\x41\x01\x41\x00\x46\x10\x00\x41\x00\x41\x01\x46\x10\x00\x41\x7f\x41\x00\x46\x10\x00\x41\x00\x41\x7f\x46\x10\x00\x41\x80\x80\x80\x80\x78\x41\xff\xff\xff\xff\x07\x46\x10\x00\x41\xff\xff\xff\xff\x07\x41\x80\x80\x80\x80\x78\x46\x10\x00\x41\x80\x80\x80\x80\x78\x41\x80\x80\x80\x80\x78\x46\x10\x00\x41\x7f\x41\x7e\x46\x10\x00\x41\x7e\x41\x7f\x46\x10\x00\x0b",
    // i32.ne: (func (export "loop") (call $see32 (i32.ne (i32.const 0) (i32.const 0))) (call $see32 (i32.ne
    // (i32.const 1) (i32.const 0))) (call $see32 (i32.ne (i32.const 0) (i32.const 1))) (call $see32 (i32.ne
    // (i32.const -1) (i32.const 0))) (call $see32 (i32.ne (i32.const 0) (i32.const -1))) (call $see32 (i32.ne
    // (i32.const -0x80000000) (i32.const 0x7fffffff))) (call $see32 (i32.ne (i32.const 0x7fffffff) (i32.const
    // -0x80000000))) (call $see32 (i32.ne (i32.const -0x80000000) (i32.const -0x80000000))) (call $see32
    // (i32.ne (i32.const -1) (i32.const -2))) (call $see32 (i32.ne (i32.const -2) (i32.const -1))))
    b"\x01\x08\x02\x60\x01\x7f\x00\x60\x00\x00\x02\x11\x01\x07\x73\x63\x72\x65\x65\x70\x73\x05\x73\x65\x65\x33\x32\x00\x00\x03\x02\x01\x01\x07\x08\x01\x04\x6c\x6f\x6f\x70\x00\x01\x0a\x62\x01\x60\x00\x41\x00\x41\x00\x47\x10\x00\x41\x01\x41\x00\x47\x10\x00\x41\x00\x41\x01\x47\x10\x00\x41\x7f\x41\x00\x47\x10\x00\x41\x00\x41\x7f\x47\x10\x00\x41\x80\x80\x80\x80\x78\x41\xff\xff\xff\xff\x07\x47\x10\x00\x41\xff\xff\xff\xff\x07\x41\x80\x80\x80\x80\x78\x47\x10\x00\x41\x80\x80\x80\x80\x78\x41\x80\x80\x80\x80\x78\x47\x10\x00\x41\x7f\x41\x7e\x47\x10\x00\x41\x7e\x41\x7f\x47\x10\x00\x0b",
    // i32.lt_s: (func (export "loop") (call $see32 (i32.lt_s (i32.const 0) (i32.const 0))) (call $see32
    // (i32.lt_s (i32.const 1) (i32.const 0))) (call $see32 (i32.lt_s (i32.const 0) (i32.const 1))) (call
    // $see32 (i32.lt_s (i32.const -1) (i32.const 0))) (call $see32 (i32.lt_s (i32.const 0) (i32.const -1)))
    // (call $see32 (i32.lt_s (i32.const -0x80000000) (i32.const 0x7fffffff))) (call $see32 (i32.lt_s
    // (i32.const 0x7fffffff) (i32.const -0x80000000))) (call $see32 (i32.lt_s (i32.const -0x80000000)
    // (i32.const -0x80000000))) (call $see32 (i32.lt_s (i32.const -1) (i32.const -2))) (call $see32 (i32.lt_s
    // (i32.const -2) (i32.const -1))))
    b"\x01\x08\x02\x60\x01\x7f\x00\x60\x00\x00\x02\x11\x01\x07\x73\x63\x72\x65\x65\x70\x73\x05\x73\x65\x65\x33\x32\x00\x00\x03\x02\x01\x01\x07\x08\x01\x04\x6c\x6f\x6f\x70\x00\x01\x0a\x62\x01\x60\x00\x41\x00\x41\x00\x48\x10\x00\x41\x01\x41\x00\x48\x10\x00\x41\x00\x41\x01\x48\x10\x00\x41\x7f\x41\x00\x48\x10\x00\x41\x00\x41\x7f\x48\x10\x00\x41\x80\x80\x80\x80\x78\x41\xff\xff\xff\xff\x07\x48\x10\x00\x41\xff\xff\xff\xff\x07\x41\x80\x80\x80\x80\x78\x48\x10\x00\x41\x80\x80\x80\x80\x78\x41\x80\x80\x80\x80\x78\x48\x10\x00\x41\x7f\x41\x7e\x48\x10\x00\x41\x7e\x41\x7f\x48\x10\x00\x0b",
    // i32.lt_u: (func (export "loop") (call $see32 (i32.lt_u (i32.const 0) (i32.const 0))) (call $see32
    // (i32.lt_u (i32.const 1) (i32.const 0))) (call $see32 (i32.lt_u (i32.const 0) (i32.const 1))) (call
    // $see32 (i32.lt_u (i32.const -1) (i32.const 0))) (call $see32 (i32.lt_u (i32.const 0) (i32.const -1)))
    // (call $see32 (i32.lt_u (i32.const -0x80000000) (i32.const 0x7fffffff))) (call $see32 (i32.lt_u
    // (i32.const 0x7fffffff) (i32.const -0x80000000))) (call $see32 (i32.lt_u (i32.const -0x80000000)
    // (i32.const -0x80000000))) (call $see32 (i32.lt_u (i32.const -1) (i32.const -2))) (call $see32 (i32.lt_u
    // (i32.const -2) (i32.const -1))))
    b"\x01\x08\x02\x60\x01\x7f\x00\x60\x00\x00\x02\x11\x01\x07\x73\x63\x72\x65\x65\x70\x73\x05\x73\x65\x65\x33\x32\x00\x00\x03\x02\x01\x01\x07\x08\x01\x04\x6c\x6f\x6f\x70\x00\x01\x0a\x62\x01\x60\x00\x41\x00\x41\x00\x49\x10\x00\x41\x01\x41\x00\x49\x10\x00\x41\x00\x41\x01\x49\x10\x00\x41\x7f\x41\x00\x49\x10\x00\x41\x00\x41\x7f\x49\x10\x00\x41\x80\x80\x80\x80\x78\x41\xff\xff\xff\xff\x07\x49\x10\x00\x41\xff\xff\xff\xff\x07\x41\x80\x80\x80\x80\x78\x49\x10\x00\x41\x80\x80\x80\x80\x78\x41\x80\x80\x80\x80\x78\x49\x10\x00\x41\x7f\x41\x7e\x49\x10\x00\x41\x7e\x41\x7f\x49\x10\x00\x0b",
    // i32.gt_s: (func (export "loop") (call $see32 (i32.gt_s (i32.const 0) (i32.const 0))) (call $see32
    // (i32.gt_s (i32.const 1) (i32.const 0))) (call $see32 (i32.gt_s (i32.const 0) (i32.const 1))) (call
    // $see32 (i32.gt_s (i32.const -1) (i32.const 0))) (call $see32 (i32.gt_s (i32.const 0) (i32.const -1)))
    // (call $see32 (i32.gt_s (i32.const -0x80000000) (i32.const 0x7fffffff))) (call $see32 (i32.gt_s
    // (i32.const 0x7fffffff) (i32.const -0x80000000))) (call $see32 (i32.gt_s (i32.const -0x80000000)
    // (i32.const -0x80000000))) (call $see32 (i32.gt_s (i32.const -1) (i32.const -2))) (call $see32 (i32.gt_s
    // (i32.const -2) (i32.const -1))))
    b"\x01\x08\x02\x60\x01\x7f\x00\x60\x00\x00\x02\x11\x01\x07\x73\x63\x72\x65\x65\x70\x73\x05\x73\x65\x65\x33\x32\x00\x00\x03\x02\x01\x01\x07\x08\x01\x04\x6c\x6f\x6f\x70\x00\x01\x0a\x62\x01\x60\x00\x41\x00\x41\x00\x4a\x10\x00\x41\x01\x41\x00\x4a\x10\x00\x41\x00\x41\x01\x4a\x10\x00\x41\x7f\x41\x00\x4a\x10\x00\x41\x00\x41\x7f\x4a\x10\x00\x41\x80\x80\x80\x80\x78\x41\xff\xff\xff\xff\x07\x4a\x10\x00\x41\xff\xff\xff\xff\x07\x41\x80\x80\x80\x80\x78\x4a\x10\x00\x41\x80\x80\x80\x80\x78\x41\x80\x80\x80\x80\x78\x4a\x10\x00\x41\x7f\x41\x7e\x4a\x10\x00\x41\x7e\x41\x7f\x4a\x10\x00\x0b",
    // i32.gt_u: (func (export "loop") (call $see32 (i32.gt_u (i32.const 0) (i32.const 0))) (call $see32
    // (i32.gt_u (i32.const 1) (i32.const 0))) (call $see32 (i32.gt_u (i32.const 0) (i32.const 1))) (call
    // $see32 (i32.gt_u (i32.const -1) (i32.const 0))) (call $see32 (i32.gt_u (i32.const 0) (i32.const -1)))
    // (call $see32 (i32.gt_u (i32.const -0x80000000) (i32.const 0x7fffffff))) (call $see32 (i32.gt_u
    // (i32.const 0x7fffffff) (i32.const -0x80000000))) (call $see32 (i32.gt_u (i32.const -0x80000000)
    // (i32.const -0x80000000))) (call $see32 (i32.gt_u (i32.const -1) (i32.const -2))) (call $see32 (i32.gt_u
    // (i32.const -2) (i32.const -1))))
    b"\x01\x08\x02\x60\x01\x7f\x00\x60\x00\x00\x02\x11\x01\x07\x73\x63\x72\x65\x65\x70\x73\x05\x73\x65\x65\x33\x32\x00\x00\x03\x02\x01\x01\x07\x08\x01\x04\x6c\x6f\x6f\x70\x00\x01\x0a\x62\x01\x60\x00\x41\x00\x41\x00\x4b\x10\x00\x41\x01\x41\x00\x4b\x10\x00\x41\x00\x41\x01\x4b\x10\x00\x41\x7f\x41\x00\x4b\x10\x00\x41\x00\x41\x7f\x4b\x10\x00\x41\x80\x80\x80\x80\x78\x41\xff\xff\xff\xff\x07\x4b\x10\x00\x41\xff\xff\xff\xff\x07\x41\x80\x80\x80\x80\x78\x4b\x10\x00\x41\x80\x80\x80\x80\x78\x41\x80\x80\x80\x80\x78\x4b\x10\x00\x41\x7f\x41\x7e\x4b\x10\x00\x41\x7e\x41\x7f\x4b\x10\x00\x0b",
    // i32.le_s: (func (export "loop") (call $see32 (i32.le_s (i32.const 0) (i32.const 0))) (call $see32
    // (i32.le_s (i32.const 1) (i32.const 0))) (call $see32 (i32.le_s (i32.const 0) (i32.const 1))) (call
    // $see32 (i32.le_s (i32.const -1) (i32.const 0))) (call $see32 (i32.le_s (i32.const 0) (i32.const -1)))
    // (call $see32 (i32.le_s (i32.const -0x80000000) (i32.const 0x7fffffff))) (call $see32 (i32.le_s
    // (i32.const 0x7fffffff) (i32.const -0x80000000))) (call $see32 (i32.le_s (i32.const -0x80000000)
    // (i32.const -0x80000000))) (call $see32 (i32.le_s (i32.const -1) (i32.const -2))) (call $see32 (i32.le_s
    // (i32.const -2) (i32.const -1))))
    b"\x01\x08\x02\x60\x01\x7f\x00\x60\x00\x00\x02\x11\x01\x07\x73\x63\x72\x65\x65\x70\x73\x05\x73\x65\x65\x33\x32\x00\x00\x03\x02\x01\x01\x07\x08\x01\x04\x6c\x6f\x6f\x70\x00\x01\x0a\x62\x01\x60\x00\x41\x00\x41\x00\x4c\x10\x00\x41\x01\x41\x00\x4c\x10\x00\x41\x00\x41\x01\x4c\x10\x00\x41\x7f\x41\x00\x4c\x10\x00\x41\x00\x41\x7f\x4c\x10\x00\x41\x80\x80\x80\x80\x78\x41\xff\xff\xff\xff\x07\x4c\x10\x00\x41\xff\xff\xff\xff\x07\x41\x80\x80\x80\x80\x78\x4c\x10\x00\x41\x80\x80\x80\x80\x78\x41\x80\x80\x80\x80\x78\x4c\x10\x00\x41\x7f\x41\x7e\x4c\x10\x00\x41\x7e\x41\x7f\x4c\x10\x00\x0b",
    // i32.le_u: (func (export "loop") (call $see32 (i32.le_u (i32.const 0) (i32.const 0))) (call $see32
    // (i32.le_u (i32.const 1) (i32.const 0))) (call $see32 (i32.le_u (i32.const 0) (i32.const 1))) (call
    // $see32 (i32.le_u (i32.const -1) (i32.const 0))) (call $see32 (i32.le_u (i32.const 0) (i32.const -1)))
    // (call $see32 (i32.le_u (i32.const -0x80000000) (i32.const 0x7fffffff))) (call $see32 (i32.le_u
    // (i32.const 0x7fffffff) (i32.const -0x80000000))) (call $see32 (i32.le_u (i32.const -0x80000000)
    // (i32.const -0x80000000))) (call $see32 (i32.le_u (i32.const -1) (i32.const -2))) (call $see32 (i32.le_u
    // (i32.const -2) (i32.const -1))))
    b"\x01\x08\x02\x60\x01\x7f\x00\x60\x00\x00\x02\x11\x01\x07\x73\x63\x72\x65\x65\x70\x73\x05\x73\x65\x65\x33\x32\x00\x00\x03\x02\x01\x01\x07\x08\x01\x04\x6c\x6f\x6f\x70\x00\x01\x0a\x62\x01\x60\x00\x41\x00\x41\x00\x4d\x10\x00\x41\x01\x41\x00\x4d\x10\x00\x41\x00\x41\x01\x4d\x10\x00\x41\x7f\x41\x00\x4d\x10\x00\x41\x00\x41\x7f\x4d\x10\x00\x41\x80\x80\x80\x80\x78\x41\xff\xff\xff\xff\x07\x4d\x10\x00\x41\xff\xff\xff\xff\x07\x41\x80\x80\x80\x80\x78\x4d\x10\x00\x41\x80\x80\x80\x80\x78\x41\x80\x80\x80\x80\x78\x4d\x10\x00\x41\x7f\x41\x7e\x4d\x10\x00\x41\x7e\x41\x7f\x4d\x10\x00\x0b",
    // i32.ge_s: (func (export "loop") (call $see32 (i32.ge_s (i32.const 0) (i32.const 0))) (call $see32
    // (i32.ge_s (i32.const 1) (i32.const 0))) (call $see32 (i32.ge_s (i32.const 0) (i32.const 1))) (call
    // $see32 (i32.ge_s (i32.const -1) (i32.const 0))) (call $see32 (i32.ge_s (i32.const 0) (i32.const -1)))
    // (call $see32 (i32.ge_s (i32.const -0x80000000) (i32.const 0x7fffffff))) (call $see32 (i32.ge_s
    // (i32.const 0x7fffffff) (i32.const -0x80000000))) (call $see32 (i32.ge_s (i32.const -0x80000000)
    // (i32.const -0x80000000))) (call $see32 (i32.ge_s (i32.const -1) (i32.const -2))) (call $see32 (i32.ge_s
    // (i32.const -2) (i32.const -1))))
    b"\x01\x08\x02\x60\x01\x7f\x00\x60\x00\x00\x02\x11\x01\x07\x73\x63\x72\x65\x65\x70\x73\x05\x73\x65\x65\x33\x32\x00\x00\x03\x02\x01\x01\x07\x08\x01\x04\x6c\x6f\x6f\x70\x00\x01\x0a\x62\x01\x60\x00\x41\x00\x41\x00\x4e\x10\x00\x41\x01\x41\x00\x4e\x10\x00\x41\x00\x41\x01\x4e\x10\x00\x41\x7f\x41\x00\x4e\x10\x00\x41\x00\x41\x7f\x4e\x10\x00\x41\x80\x80\x80\x80\x78\x41\xff\xff\xff\xff\x07\x4e\x10\x00\x41\xff\xff\xff\xff\x07\x41\x80\x80\x80\x80\x78\x4e\x10\x00\x41\x80\x80\x80\x80\x78\x41\x80\x80\x80\x80\x78\x4e\x10\x00\x41\x7f\x41\x7e\x4e\x10\x00\x41\x7e\x41\x7f\x4e\x10\x00\x0b",
    // i32.ge_u: (func (export "loop") (call $see32 (i32.ge_u (i32.const 0) (i32.const 0))) (call $see32
    // (i32.ge_u (i32.const 1) (i32.const 0))) (call $see32 (i32.ge_u (i32.const 0) (i32.const 1))) (call
    // $see32 (i32.ge_u (i32.const -1) (i32.const 0))) (call $see32 (i32.ge_u (i32.const 0) (i32.const -1)))
    // (call $see32 (i32.ge_u (i32.const -0x80000000) (i32.const 0x7fffffff))) (call $see32 (i32.ge_u
    // (i32.const 0x7fffffff) (i32.const -0x80000000))) (call $see32 (i32.ge_u (i32.const -0x80000000)
    // (i32.const -0x80000000))) (call $see32 (i32.ge_u (i32.const -1) (i32.const -2))) (call $see32 (i32.ge_u
    // (i32.const -2) (i32.const -1))))
    b"\x01\x08\x02\x60\x01\x7f\x00\x60\x00\x00\x02\x11\x01\x07\x73\x63\x72\x65\x65\x70\x73\x05\x73\x65\x65\x33\x32\x00\x00\x03\x02\x01\x01\x07\x08\x01\x04\x6c\x6f\x6f\x70\x00\x01\x0a\x62\x01\x60\x00\x41\x00\x41\x00\x4f\x10\x00\x41\x01\x41\x00\x4f\x10\x00\x41\x00\x41\x01\x4f\x10\x00\x41\x7f\x41\x00\x4f\x10\x00\x41\x00\x41\x7f\x4f\x10\x00\x41\x80\x80\x80\x80\x78\x41\xff\xff\xff\xff\x07\x4f\x10\x00\x41\xff\xff\xff\xff\x07\x41\x80\x80\x80\x80\x78\x4f\x10\x00\x41\x80\x80\x80\x80\x78\x41\x80\x80\x80\x80\x78\x4f\x10\x00\x41\x7f\x41\x7e\x4f\x10\x00\x41\x7e\x41\x7f\x4f\x10\x00\x0b",
    // i32.add: (func (export "loop") (call $see32 (i32.add (i32.const 1) (i32.const 2))) (call $see32
    // (i32.add (i32.const -1) (i32.const 1))) (call $see32 (i32.add (i32.const 0x7fffffff) (i32.const 1)))
    // (call $see32 (i32.add (i32.const -0x80000000) (i32.const -0x80000000))) (call $see32 (i32.add
    // (i32.const -0x80000000) (i32.const -1))))
    b"\x01\x08\x02\x60\x01\x7f\x00\x60\x00\x00\x02\x11\x01\x07\x73\x63\x72\x65\x65\x70\x73\x05\x73\x65\x65\x33\x32\x00\x00\x03\x02\x01\x01\x07\x08\x01\x04\x6c\x6f\x6f\x70\x00\x01\x0a\x37\x01\x35\x00\x41\x01\x41\x02\x6a\x10\x00\x41\x7f\x41\x01\x6a\x10\x00\x41\xff\xff\xff\xff\x07\x41\x01\x6a\x10\x00\x41\x80\x80\x80\x80\x78\x41\x80\x80\x80\x80\x78\x6a\x10\x00\x41\x80\x80\x80\x80\x78\x41\x7f\x6a\x10\x00\x0b",
    // i32.sub: (func (export "loop") (call $see32 (i32.sub (i32.const 1) (i32.const 2))) (call $see32
    // (i32.sub (i32.const -0x80000000) (i32.const 1))) (call $see32 (i32.sub (i32.const 0) (i32.const
    // -0x80000000))) (call $see32 (i32.sub (i32.const 5) (i32.const 5))))
    b"\x01\x08\x02\x60\x01\x7f\x00\x60\x00\x00\x02\x11\x01\x07\x73\x63\x72\x65\x65\x70\x73\x05\x73\x65\x65\x33\x32\x00\x00\x03\x02\x01\x01\x07\x08\x01\x04\x6c\x6f\x6f\x70\x00\x01\x0a\x28\x01\x26\x00\x41\x01\x41\x02\x6b\x10\x00\x41\x80\x80\x80\x80\x78\x41\x01\x6b\x10\x00\x41\x00\x41\x80\x80\x80\x80\x78\x6b\x10\x00\x41\x05\x41\x05\x6b\x10\x00\x0b",
    // i32.mul: (func (export "loop") (call $see32 (i32.mul (i32.const 3) (i32.const -4))) (call $see32
    // (i32.mul (i32.const 65536) (i32.const 65536))) (call $see32 (i32.mul (i32.const 0x12345678) (i32.const
    // 0x9abcdef0))) (call $see32 (i32.mul (i32.const -0x80000000) (i32.const -1))) (call $see32 (i32.mul
    // (i32.const -1) (i32.const -1))))
    b"\x01\x08\x02\x60\x01\x7f\x00\x60\x00\x00\x02\x11\x01\x07\x73\x63\x72\x65\x65\x70\x73\x05\x73\x65\x65\x33\x32\x00\x00\x03\x02\x01\x01\x07\x08\x01\x04\x6c\x6f\x6f\x70\x00\x01\x0a\x37\x01\x35\x00\x41\x03\x41\x7c\x6c\x10\x00\x41\x80\x80\x04\x41\x80\x80\x04\x6c\x10\x00\x41\xf8\xac\xd1\x91\x01\x41\xf0\xbd\xf3\xd5\x79\x6c\x10\x00\x41\x80\x80\x80\x80\x78\x41\x7f\x6c\x10\x00\x41\x7f\x41\x7f\x6c\x10\x00\x0b",
    // i32.div_s: (func (export "loop") (call $see32 (i32.div_s (i32.const 7) (i32.const 2))) (call $see32
    // (i32.div_s (i32.const -7) (i32.const 2))) (call $see32 (i32.div_s (i32.const 7) (i32.const -2))) (call
    // $see32 (i32.div_s (i32.const -7) (i32.const -2))) (call $see32 (i32.div_s (i32.const -0x80000000)
    // (i32.const 2))) (call $see32 (i32.div_s (i32.const -0x80000000) (i32.const 1))) (call $see32 (i32.div_s
    // (i32.const -0x7fffffff) (i32.const -1))))
    b"\x01\x08\x02\x60\x01\x7f\x00\x60\x00\x00\x02\x11\x01\x07\x73\x63\x72\x65\x65\x70\x73\x05\x73\x65\x65\x33\x32\x00\x00\x03\x02\x01\x01\x07\x08\x01\x04\x6c\x6f\x6f\x70\x00\x01\x0a\x41\x01\x3f\x00\x41\x07\x41\x02\x6d\x10\x00\x41\x79\x41\x02\x6d\x10\x00\x41\x07\x41\x7e\x6d\x10\x00\x41\x79\x41\x7e\x6d\x10\x00\x41\x80\x80\x80\x80\x78\x41\x02\x6d\x10\x00\x41\x80\x80\x80\x80\x78\x41\x01\x6d\x10\x00\x41\x81\x80\x80\x80\x78\x41\x7f\x6d\x10\x00\x0b",
    // i32.div_u: (func (export "loop") (call $see32 (i32.div_u (i32.const 7) (i32.const 2))) (call $see32
    // (i32.div_u (i32.const -1) (i32.const 2))) (call $see32 (i32.div_u (i32.const -0x80000000) (i32.const
    // -1))) (call $see32 (i32.div_u (i32.const -1) (i32.const -1))) (call $see32 (i32.div_u (i32.const
    // -0x80000000) (i32.const 3))) (call $see32 (i32.div_u (i32.const -7) (i32.const 2))))
    b"\x01\x08\x02\x60\x01\x7f\x00\x60\x00\x00\x02\x11\x01\x07\x73\x63\x72\x65\x65\x70\x73\x05\x73\x65\x65\x33\x32\x00\x00\x03\x02\x01\x01\x07\x08\x01\x04\x6c\x6f\x6f\x70\x00\x01\x0a\x36\x01\x34\x00\x41\x07\x41\x02\x6e\x10\x00\x41\x7f\x41\x02\x6e\x10\x00\x41\x80\x80\x80\x80\x78\x41\x7f\x6e\x10\x00\x41\x7f\x41\x7f\x6e\x10\x00\x41\x80\x80\x80\x80\x78\x41\x03\x6e\x10\x00\x41\x79\x41\x02\x6e\x10\x00\x0b",
    // i32.rem_s: (func (export "loop") (call $see32 (i32.rem_s (i32.const 7) (i32.const 3))) (call $see32
    // (i32.rem_s (i32.const -7) (i32.const 3))) (call $see32 (i32.rem_s (i32.const 7) (i32.const -3))) (call
    // $see32 (i32.rem_s (i32.const -7) (i32.const -3))) (call $see32 (i32.rem_s (i32.const -0x80000000)
    // (i32.const -1))) (call $see32 (i32.rem_s (i32.const -0x80000000) (i32.const 2))) (call $see32
    // (i32.rem_s (i32.const -0x80000000) (i32.const 10))))
    b"\x01\x08\x02\x60\x01\x7f\x00\x60\x00\x00\x02\x11\x01\x07\x73\x63\x72\x65\x65\x70\x73\x05\x73\x65\x65\x33\x32\x00\x00\x03\x02\x01\x01\x07\x08\x01\x04\x6c\x6f\x6f\x70\x00\x01\x0a\x41\x01\x3f\x00\x41\x07\x41\x03\x6f\x10\x00\x41\x79\x41\x03\x6f\x10\x00\x41\x07\x41\x7d\x6f\x10\x00\x41\x79\x41\x7d\x6f\x10\x00\x41\x80\x80\x80\x80\x78\x41\x7f\x6f\x10\x00\x41\x80\x80\x80\x80\x78\x41\x02\x6f\x10\x00\x41\x80\x80\x80\x80\x78\x41\x0a\x6f\x10\x00\x0b",
    // i32.rem_u: (func (export "loop") (call $see32 (i32.rem_u (i32.const 7) (i32.const 3))) (call $see32
    // (i32.rem_u (i32.const -7) (i32.const 3))) (call $see32 (i32.rem_u (i32.const -0x80000000) (i32.const
    // -1))) (call $see32 (i32.rem_u (i32.const -1) (i32.const 10))) (call $see32 (i32.rem_u (i32.const -1)
    // (i32.const -1))))
    b"\x01\x08\x02\x60\x01\x7f\x00\x60\x00\x00\x02\x11\x01\x07\x73\x63\x72\x65\x65\x70\x73\x05\x73\x65\x65\x33\x32\x00\x00\x03\x02\x01\x01\x07\x08\x01\x04\x6c\x6f\x6f\x70\x00\x01\x0a\x2b\x01\x29\x00\x41\x07\x41\x03\x70\x10\x00\x41\x79\x41\x03\x70\x10\x00\x41\x80\x80\x80\x80\x78\x41\x7f\x70\x10\x00\x41\x7f\x41\x0a\x70\x10\x00\x41\x7f\x41\x7f\x70\x10\x00\x0b",
    // i32.and: (func (export "loop") (call $see32 (i32.and (i32.const 0xff0f0f0) (i32.const 0x3c3c3c3c)))
    // (call $see32 (i32.and (i32.const -1) (i32.const 0))) (call $see32 (i32.and (i32.const -0x80000000)
    // (i32.const -1))))
    b"\x01\x08\x02\x60\x01\x7f\x00\x60\x00\x00\x02\x11\x01\x07\x73\x63\x72\x65\x65\x70\x73\x05\x73\x65\x65\x33\x32\x00\x00\x03\x02\x01\x01\x07\x08\x01\x04\x6c\x6f\x6f\x70\x00\x01\x0a\x25\x01\x23\x00\x41\xf0\xe1\xc3\xff\x00\x41\xbc\xf8\xf0\xe1\x03\x71\x10\x00\x41\x7f\x41\x00\x71\x10\x00\x41\x80\x80\x80\x80\x78\x41\x7f\x71\x10\x00\x0b",
    // i32.or: (func (export "loop") (call $see32 (i32.or (i32.const 0xff0f0f0) (i32.const 0x3c3c3c3c))) (call
    // $see32 (i32.or (i32.const -1) (i32.const 0))) (call $see32 (i32.or (i32.const -0x80000000) (i32.const
    // 1))))
    b"\x01\x08\x02\x60\x01\x7f\x00\x60\x00\x00\x02\x11\x01\x07\x73\x63\x72\x65\x65\x70\x73\x05\x73\x65\x65\x33\x32\x00\x00\x03\x02\x01\x01\x07\x08\x01\x04\x6c\x6f\x6f\x70\x00\x01\x0a\x25\x01\x23\x00\x41\xf0\xe1\xc3\xff\x00\x41\xbc\xf8\xf0\xe1\x03\x72\x10\x00\x41\x7f\x41\x00\x72\x10\x00\x41\x80\x80\x80\x80\x78\x41\x01\x72\x10\x00\x0b",
    // i32.xor: (func (export "loop") (call $see32 (i32.xor (i32.const 0xff0f0f0) (i32.const 0x3c3c3c3c)))
    // (call $see32 (i32.xor (i32.const -1) (i32.const 0))) (call $see32 (i32.xor (i32.const -0x80000000)
    // (i32.const -1))) (call $see32 (i32.xor (i32.const -1) (i32.const -1))))
    b"\x01\x08\x02\x60\x01\x7f\x00\x60\x00\x00\x02\x11\x01\x07\x73\x63\x72\x65\x65\x70\x73\x05\x73\x65\x65\x33\x32\x00\x00\x03\x02\x01\x01\x07\x08\x01\x04\x6c\x6f\x6f\x70\x00\x01\x0a\x2c\x01\x2a\x00\x41\xf0\xe1\xc3\xff\x00\x41\xbc\xf8\xf0\xe1\x03\x73\x10\x00\x41\x7f\x41\x00\x73\x10\x00\x41\x80\x80\x80\x80\x78\x41\x7f\x73\x10\x00\x41\x7f\x41\x7f\x73\x10\x00\x0b",
    // i32.shl: (func (export "loop") (call $see32 (i32.shl (i32.const 1) (i32.const 0))) (call $see32
    // (i32.shl (i32.const 1) (i32.const 31))) (call $see32 (i32.shl (i32.const 1) (i32.const 32))) (call
    // $see32 (i32.shl (i32.const 1) (i32.const 33))) (call $see32 (i32.shl (i32.const -1) (i32.const 63)))
    // (call $see32 (i32.shl (i32.const 0x12345678) (i32.const 4))) (call $see32 (i32.shl (i32.const 3)
    // (i32.const -1))))
    b"\x01\x08\x02\x60\x01\x7f\x00\x60\x00\x00\x02\x11\x01\x07\x73\x63\x72\x65\x65\x70\x73\x05\x73\x65\x65\x33\x32\x00\x00\x03\x02\x01\x01\x07\x08\x01\x04\x6c\x6f\x6f\x70\x00\x01\x0a\x39\x01\x37\x00\x41\x01\x41\x00\x74\x10\x00\x41\x01\x41\x1f\x74\x10\x00\x41\x01\x41\x20\x74\x10\x00\x41\x01\x41\x21\x74\x10\x00\x41\x7f\x41\x3f\x74\x10\x00\x41\xf8\xac\xd1\x91\x01\x41\x04\x74\x10\x00\x41\x03\x41\x7f\x74\x10\x00\x0b",
    // i32.shr_s: (func (export "loop") (call $see32 (i32.shr_s (i32.const -8) (i32.const 1))) (call $see32
    // (i32.shr_s (i32.const -0x80000000) (i32.const 0))) (call $see32 (i32.shr_s (i32.const -0x80000000)
    // (i32.const 31))) (call $see32 (i32.shr_s (i32.const -0x80000000) (i32.const 32))) (call $see32
    // (i32.shr_s (i32.const -0x80000000) (i32.const 33))) (call $see32 (i32.shr_s (i32.const 0x7fffffff)
    // (i32.const 30))) (call $see32 (i32.shr_s (i32.const -0x80000000) (i32.const -1))))
    b"\x01\x08\x02\x60\x01\x7f\x00\x60\x00\x00\x02\x11\x01\x07\x73\x63\x72\x65\x65\x70\x73\x05\x73\x65\x65\x33\x32\x00\x00\x03\x02\x01\x01\x07\x08\x01\x04\x6c\x6f\x6f\x70\x00\x01\x0a\x4d\x01\x4b\x00\x41\x78\x41\x01\x75\x10\x00\x41\x80\x80\x80\x80\x78\x41\x00\x75\x10\x00\x41\x80\x80\x80\x80\x78\x41\x1f\x75\x10\x00\x41\x80\x80\x80\x80\x78\x41\x20\x75\x10\x00\x41\x80\x80\x80\x80\x78\x41\x21\x75\x10\x00\x41\xff\xff\xff\xff\x07\x41\x1e\x75\x10\x00\x41\x80\x80\x80\x80\x78\x41\x7f\x75\x10\x00\x0b",
    // i32.shr_u: (func (export "loop") (call $see32 (i32.shr_u (i32.const -8) (i32.const 1))) (call $see32
    // (i32.shr_u (i32.const -0x80000000) (i32.const 0))) (call $see32 (i32.shr_u (i32.const -0x80000000)
    // (i32.const 31))) (call $see32 (i32.shr_u (i32.const -0x80000000) (i32.const 32))) (call $see32
    // (i32.shr_u (i32.const -0x80000000) (i32.const 33))) (call $see32 (i32.shr_u (i32.const 0x7fffffff)
    // (i32.const 30))) (call $see32 (i32.shr_u (i32.const -0x80000000) (i32.const -1))))
    b"\x01\x08\x02\x60\x01\x7f\x00\x60\x00\x00\x02\x11\x01\x07\x73\x63\x72\x65\x65\x70\x73\x05\x73\x65\x65\x33\x32\x00\x00\x03\x02\x01\x01\x07\x08\x01\x04\x6c\x6f\x6f\x70\x00\x01\x0a\x4d\x01\x4b\x00\x41\x78\x41\x01\x76\x10\x00\x41\x80\x80\x80\x80\x78\x41\x00\x76\x10\x00\x41\x80\x80\x80\x80\x78\x41\x1f\x76\x10\x00\x41\x80\x80\x80\x80\x78\x41\x20\x76\x10\x00\x41\x80\x80\x80\x80\x78\x41\x21\x76\x10\x00\x41\xff\xff\xff\xff\x07\x41\x1e\x76\x10\x00\x41\x80\x80\x80\x80\x78\x41\x7f\x76\x10\x00\x0b",
    // i32.rotl: (func (export "loop") (call $see32 (i32.rotl (i32.const -0x80000000) (i32.const 1))) (call
    // $see32 (i32.rotl (i32.const 0x1bcd9876) (i32.const 0))) (call $see32 (i32.rotl (i32.const 0x1bcd9876)
    // (i32.const 4))) (call $see32 (i32.rotl (i32.const 0x1bcd9876) (i32.const 32))) (call $see32 (i32.rotl
    // (i32.const 0x1bcd9876) (i32.const 36))) (call $see32 (i32.rotl (i32.const 0x1bcd9876) (i32.const 31)))
    // (call $see32 (i32.rotl (i32.const 0x1bcd9876) (i32.const -1))))
    b"\x01\x08\x02\x60\x01\x7f\x00\x60\x00\x00\x02\x11\x01\x07\x73\x63\x72\x65\x65\x70\x73\x05\x73\x65\x65\x33\x32\x00\x00\x03\x02\x01\x01\x07\x08\x01\x04\x6c\x6f\x6f\x70\x00\x01\x0a\x51\x01\x4f\x00\x41\x80\x80\x80\x80\x78\x41\x01\x77\x10\x00\x41\xf6\xb0\xb6\xde\x01\x41\x00\x77\x10\x00\x41\xf6\xb0\xb6\xde\x01\x41\x04\x77\x10\x00\x41\xf6\xb0\xb6\xde\x01\x41\x20\x77\x10\x00\x41\xf6\xb0\xb6\xde\x01\x41\x24\x77\x10\x00\x41\xf6\xb0\xb6\xde\x01\x41\x1f\x77\x10\x00\x41\xf6\xb0\xb6\xde\x01\x41\x7f\x77\x10\x00\x0b",
    // i32.rotr: (func (export "loop") (call $see32 (i32.rotr (i32.const 1) (i32.const 1))) (call $see32
    // (i32.rotr (i32.const 0x1bcd9876) (i32.const 0))) (call $see32 (i32.rotr (i32.const 0x1bcd9876)
    // (i32.const 4))) (call $see32 (i32.rotr (i32.const 0x1bcd9876) (i32.const 32))) (call $see32 (i32.rotr
    // (i32.const 0x1bcd9876) (i32.const 36))) (call $see32 (i32.rotr (i32.const 0x1bcd9876) (i32.const 31)))
    // (call $see32 (i32.rotr (i32.const 0x1bcd9876) (i32.const -1))))
    b"\x01\x08\x02\x60\x01\x7f\x00\x60\x00\x00\x02\x11\x01\x07\x73\x63\x72\x65\x65\x70\x73\x05\x73\x65\x65\x33\x32\x00\x00\x03\x02\x01\x01\x07\x08\x01\x04\x6c\x6f\x6f\x70\x00\x01\x0a\x4d\x01\x4b\x00\x41\x01\x41\x01\x78\x10\x00\x41\xf6\xb0\xb6\xde\x01\x41\x00\x78\x10\x00\x41\xf6\xb0\xb6\xde\x01\x41\x04\x78\x10\x00\x41\xf6\xb0\xb6\xde\x01\x41\x20\x78\x10\x00\x41\xf6\xb0\xb6\xde\x01\x41\x24\x78\x10\x00\x41\xf6\xb0\xb6\xde\x01\x41\x1f\x78\x10\x00\x41\xf6\xb0\xb6\xde\x01\x41\x7f\x78\x10\x00\x0b",
    // i32.const: (func (export "loop") (call $see32 (i32.const 0)) (call $see32 (i32.const -1)) (call $see32
    // (i32.const 63)) (call $see32 (i32.const 64)) (call $see32 (i32.const -64)) (call $see32 (i32.const
    // -65)) (call $see32 (i32.const 8191)) (call $see32 (i32.const 8192)) (call $see32 (i32.const
    // -0x80000000)) (call $see32 (i32.const 0x7fffffff)) (call $see32 (i32.const 0xffffffff)))
    b"\x01\x08\x02\x60\x01\x7f\x00\x60\x00\x00\x02\x11\x01\x07\x73\x63\x72\x65\x65\x70\x73\x05\x73\x65\x65\x33\x32\x00\x00\x03\x02\x01\x01\x07\x08\x01\x04\x6c\x6f\x6f\x70\x00\x01\x0a\x3d\x01\x3b\x00\x41\x00\x10\x00\x41\x7f\x10\x00\x41\x3f\x10\x00\x41\xc0\x00\x10\x00\x41\x40\x10\x00\x41\xbf\x7f\x10\x00\x41\xff\x3f\x10\x00\x41\x80\xc0\x00\x10\x00\x41\x80\x80\x80\x80\x78\x10\x00\x41\xff\xff\xff\xff\x07\x10\x00\x41\x7f\x10\x00\x0b",
];

// The fuel, the outcome, what is used, and each call of the host with its arguments.
const NUMBERS32_RESULTS: [&[i64]; 30] = [
    // i32.eqz
    &[1000, FINISHED, 12, SEE32, 1, SEE32, 0, SEE32, 0, SEE32, 0],
    // i32.clz
    &[
        1000, FINISHED, 18, SEE32, 32, SEE32, 31, SEE32, 0, SEE32, 0, SEE32, 8, SEE32, 1,
    ],
    // i32.ctz
    &[
        1000, FINISHED, 15, SEE32, 32, SEE32, 0, SEE32, 0, SEE32, 31, SEE32, 16,
    ],
    // i32.popcnt
    &[
        1000, FINISHED, 15, SEE32, 0, SEE32, 32, SEE32, 1, SEE32, 31, SEE32, 15,
    ],
    // i32.eq
    &[
        1000, FINISHED, 40, SEE32, 1, SEE32, 0, SEE32, 0, SEE32, 0, SEE32, 0, SEE32, 0, SEE32, 0,
        SEE32, 1, SEE32, 0, SEE32, 0,
    ],
    // i32.ne
    &[
        1000, FINISHED, 40, SEE32, 0, SEE32, 1, SEE32, 1, SEE32, 1, SEE32, 1, SEE32, 1, SEE32, 1,
        SEE32, 0, SEE32, 1, SEE32, 1,
    ],
    // i32.lt_s
    &[
        1000, FINISHED, 40, SEE32, 0, SEE32, 0, SEE32, 1, SEE32, 1, SEE32, 0, SEE32, 1, SEE32, 0,
        SEE32, 0, SEE32, 0, SEE32, 1,
    ],
    // i32.lt_u
    &[
        1000, FINISHED, 40, SEE32, 0, SEE32, 0, SEE32, 1, SEE32, 0, SEE32, 1, SEE32, 0, SEE32, 1,
        SEE32, 0, SEE32, 0, SEE32, 1,
    ],
    // i32.gt_s
    &[
        1000, FINISHED, 40, SEE32, 0, SEE32, 1, SEE32, 0, SEE32, 0, SEE32, 1, SEE32, 0, SEE32, 1,
        SEE32, 0, SEE32, 1, SEE32, 0,
    ],
    // i32.gt_u
    &[
        1000, FINISHED, 40, SEE32, 0, SEE32, 1, SEE32, 0, SEE32, 1, SEE32, 0, SEE32, 1, SEE32, 0,
        SEE32, 0, SEE32, 1, SEE32, 0,
    ],
    // i32.le_s
    &[
        1000, FINISHED, 40, SEE32, 1, SEE32, 0, SEE32, 1, SEE32, 1, SEE32, 0, SEE32, 1, SEE32, 0,
        SEE32, 1, SEE32, 0, SEE32, 1,
    ],
    // i32.le_u
    &[
        1000, FINISHED, 40, SEE32, 1, SEE32, 0, SEE32, 1, SEE32, 0, SEE32, 1, SEE32, 0, SEE32, 1,
        SEE32, 1, SEE32, 0, SEE32, 1,
    ],
    // i32.ge_s
    &[
        1000, FINISHED, 40, SEE32, 1, SEE32, 1, SEE32, 0, SEE32, 0, SEE32, 1, SEE32, 0, SEE32, 1,
        SEE32, 1, SEE32, 1, SEE32, 0,
    ],
    // i32.ge_u
    &[
        1000, FINISHED, 40, SEE32, 1, SEE32, 1, SEE32, 0, SEE32, 1, SEE32, 0, SEE32, 1, SEE32, 0,
        SEE32, 1, SEE32, 1, SEE32, 0,
    ],
    // i32.add
    &[
        1000,
        FINISHED,
        20,
        SEE32,
        3,
        SEE32,
        0,
        SEE32,
        -2147483648,
        SEE32,
        0,
        SEE32,
        2147483647,
    ],
    // i32.sub
    &[
        1000,
        FINISHED,
        16,
        SEE32,
        -1,
        SEE32,
        2147483647,
        SEE32,
        -2147483648,
        SEE32,
        0,
    ],
    // i32.mul
    &[
        1000,
        FINISHED,
        20,
        SEE32,
        -12,
        SEE32,
        0,
        SEE32,
        606937216,
        SEE32,
        -2147483648,
        SEE32,
        1,
    ],
    // i32.div_s
    &[
        1000,
        FINISHED,
        28,
        SEE32,
        3,
        SEE32,
        -3,
        SEE32,
        -3,
        SEE32,
        3,
        SEE32,
        -1073741824,
        SEE32,
        -2147483648,
        SEE32,
        2147483647,
    ],
    // i32.div_u
    &[
        1000, FINISHED, 24, SEE32, 3, SEE32, 2147483647, SEE32, 0, SEE32, 1, SEE32, 715827882,
        SEE32, 2147483644,
    ],
    // i32.rem_s
    &[
        1000, FINISHED, 28, SEE32, 1, SEE32, -1, SEE32, 1, SEE32, -1, SEE32, 0, SEE32, 0, SEE32, -8,
    ],
    // i32.rem_u
    &[
        1000,
        FINISHED,
        20,
        SEE32,
        1,
        SEE32,
        0,
        SEE32,
        -2147483648,
        SEE32,
        5,
        SEE32,
        0,
    ],
    // i32.and
    &[
        1000,
        FINISHED,
        12,
        SEE32,
        204484656,
        SEE32,
        0,
        SEE32,
        -2147483648,
    ],
    // i32.or
    &[
        1000,
        FINISHED,
        12,
        SEE32,
        1073544444,
        SEE32,
        -1,
        SEE32,
        -2147483647,
    ],
    // i32.xor
    &[
        1000, FINISHED, 16, SEE32, 869059788, SEE32, -1, SEE32, 2147483647, SEE32, 0,
    ],
    // i32.shl
    &[
        1000,
        FINISHED,
        28,
        SEE32,
        1,
        SEE32,
        -2147483648,
        SEE32,
        1,
        SEE32,
        2,
        SEE32,
        -2147483648,
        SEE32,
        591751040,
        SEE32,
        -2147483648,
    ],
    // i32.shr_s
    &[
        1000,
        FINISHED,
        28,
        SEE32,
        -4,
        SEE32,
        -2147483648,
        SEE32,
        -1,
        SEE32,
        -2147483648,
        SEE32,
        -1073741824,
        SEE32,
        1,
        SEE32,
        -1,
    ],
    // i32.shr_u
    &[
        1000,
        FINISHED,
        28,
        SEE32,
        2147483644,
        SEE32,
        -2147483648,
        SEE32,
        1,
        SEE32,
        -2147483648,
        SEE32,
        1073741824,
        SEE32,
        1,
        SEE32,
        1,
    ],
    // i32.rotl
    &[
        1000,
        FINISHED,
        28,
        SEE32,
        1,
        SEE32,
        466458742,
        SEE32,
        -1126594719,
        SEE32,
        466458742,
        SEE32,
        -1126594719,
        SEE32,
        233229371,
        SEE32,
        233229371,
    ],
    // i32.rotr
    &[
        1000,
        FINISHED,
        28,
        SEE32,
        -2147483648,
        SEE32,
        466458742,
        SEE32,
        1639766407,
        SEE32,
        466458742,
        SEE32,
        1639766407,
        SEE32,
        932917484,
        SEE32,
        932917484,
    ],
    // i32.const
    &[
        1000,
        FINISHED,
        22,
        SEE32,
        0,
        SEE32,
        -1,
        SEE32,
        63,
        SEE32,
        64,
        SEE32,
        -64,
        SEE32,
        -65,
        SEE32,
        8191,
        SEE32,
        8192,
        SEE32,
        -2147483648,
        SEE32,
        2147483647,
        SEE32,
        -1,
    ],
];

#[test]
fn numbers_of_32_bits(rt: HostRuntime) -> Result<(), Fail> {
    all_do(&rt, rt.alloc(), &NUMBERS32, &NUMBERS32_RESULTS)
}
