// The words of instructions, and tokens of a kind that has to stand next.
use wat_tokens::{BadToken, Tokens, opcode_of};

// Each word with its opcode, as WebAssembly Core 1.0 lists them, chapter 5.4, and the sign-extension operators.
static WORDS: [(&[u8], u8); 109] = [
    (b"unreachable", 0x00),
    (b"nop", 0x01),
    (b"block", 0x02),
    (b"loop", 0x03),
    (b"if", 0x04),
    (b"else", 0x05),
    (b"end", 0x0b),
    (b"br", 0x0c),
    (b"br_if", 0x0d),
    (b"br_table", 0x0e),
    (b"return", 0x0f),
    (b"call", 0x10),
    (b"call_indirect", 0x11),
    (b"drop", 0x1a),
    (b"select", 0x1b),
    (b"local.get", 0x20),
    (b"local.set", 0x21),
    (b"local.tee", 0x22),
    (b"global.get", 0x23),
    (b"global.set", 0x24),
    (b"i32.load", 0x28),
    (b"i64.load", 0x29),
    (b"i32.load8_s", 0x2c),
    (b"i32.load8_u", 0x2d),
    (b"i32.load16_s", 0x2e),
    (b"i32.load16_u", 0x2f),
    (b"i64.load8_s", 0x30),
    (b"i64.load8_u", 0x31),
    (b"i64.load16_s", 0x32),
    (b"i64.load16_u", 0x33),
    (b"i64.load32_s", 0x34),
    (b"i64.load32_u", 0x35),
    (b"i32.store", 0x36),
    (b"i64.store", 0x37),
    (b"i32.store8", 0x3a),
    (b"i32.store16", 0x3b),
    (b"i64.store8", 0x3c),
    (b"i64.store16", 0x3d),
    (b"i64.store32", 0x3e),
    (b"memory.size", 0x3f),
    (b"memory.grow", 0x40),
    (b"i32.const", 0x41),
    (b"i64.const", 0x42),
    (b"i32.eqz", 0x45),
    (b"i32.eq", 0x46),
    (b"i32.ne", 0x47),
    (b"i32.lt_s", 0x48),
    (b"i32.lt_u", 0x49),
    (b"i32.gt_s", 0x4a),
    (b"i32.gt_u", 0x4b),
    (b"i32.le_s", 0x4c),
    (b"i32.le_u", 0x4d),
    (b"i32.ge_s", 0x4e),
    (b"i32.ge_u", 0x4f),
    (b"i64.eqz", 0x50),
    (b"i64.eq", 0x51),
    (b"i64.ne", 0x52),
    (b"i64.lt_s", 0x53),
    (b"i64.lt_u", 0x54),
    (b"i64.gt_s", 0x55),
    (b"i64.gt_u", 0x56),
    (b"i64.le_s", 0x57),
    (b"i64.le_u", 0x58),
    (b"i64.ge_s", 0x59),
    (b"i64.ge_u", 0x5a),
    (b"i32.clz", 0x67),
    (b"i32.ctz", 0x68),
    (b"i32.popcnt", 0x69),
    (b"i32.add", 0x6a),
    (b"i32.sub", 0x6b),
    (b"i32.mul", 0x6c),
    (b"i32.div_s", 0x6d),
    (b"i32.div_u", 0x6e),
    (b"i32.rem_s", 0x6f),
    (b"i32.rem_u", 0x70),
    (b"i32.and", 0x71),
    (b"i32.or", 0x72),
    (b"i32.xor", 0x73),
    (b"i32.shl", 0x74),
    (b"i32.shr_s", 0x75),
    (b"i32.shr_u", 0x76),
    (b"i32.rotl", 0x77),
    (b"i32.rotr", 0x78),
    (b"i64.clz", 0x79),
    (b"i64.ctz", 0x7a),
    (b"i64.popcnt", 0x7b),
    (b"i64.add", 0x7c),
    (b"i64.sub", 0x7d),
    (b"i64.mul", 0x7e),
    (b"i64.div_s", 0x7f),
    (b"i64.div_u", 0x80),
    (b"i64.rem_s", 0x81),
    (b"i64.rem_u", 0x82),
    (b"i64.and", 0x83),
    (b"i64.or", 0x84),
    (b"i64.xor", 0x85),
    (b"i64.shl", 0x86),
    (b"i64.shr_s", 0x87),
    (b"i64.shr_u", 0x88),
    (b"i64.rotl", 0x89),
    (b"i64.rotr", 0x8a),
    (b"i32.wrap_i64", 0xa7),
    (b"i64.extend_i32_s", 0xac),
    (b"i64.extend_i32_u", 0xad),
    (b"i32.extend8_s", 0xc0),
    (b"i32.extend16_s", 0xc1),
    (b"i64.extend8_s", 0xc2),
    (b"i64.extend16_s", 0xc3),
    (b"i64.extend32_s", 0xc4),
];

// What is the word of no instruction here.
static OTHERS: [&[u8]; 18] = [
    b"",
    b"b",
    b"blocks",
    b"bloc",
    b"Block",
    b"i32.ad",
    b"i32.addd",
    b"i64.load16",
    b"i32.extend32_s",
    b"f32.add",
    b"f64.const",
    b"i32.trunc_f32_s",
    b"i32.reinterpret_f32",
    b"get_local",
    b"then",
    b"offset=0",
    b"module",
    b"0",
];

#[test]
fn words_have_opcodes(rt: HostRuntime) {
    for (word, code) in &WORDS {
        assert!(rt; opcode_of(word) == Some(*code), "{word:?}");
    }
    for word in &OTHERS {
        assert!(rt; opcode_of(word).is_none(), "{word:?}");
    }
}

#[test]
fn tokens_have_to_be_of_a_kind(rt: HostRuntime) {
    let mut tokens = Tokens::of(b"(module \"a\\n\") x");
    assert!(rt; tokens.is_opening());
    assert!(rt; tokens.ahead().next_word() == Err(BadToken));
    assert!(rt; tokens.ahead().next_string() == Err(BadToken));
    assert!(rt; tokens.ahead().expect_closing() == Err(BadToken));
    assert!(rt; tokens.expect_opening() == Ok(()));
    assert!(rt; !tokens.is_opening());
    assert!(rt; tokens.ahead().expect_opening() == Err(BadToken));
    assert!(rt; tokens.ahead().expect_word(b"modul") == Err(BadToken));
    assert!(rt; tokens.expect_word(b"module") == Ok(()));
    assert!(rt; tokens.next_string() == Ok(b"a\\n".as_slice()));
    assert!(rt; tokens.expect_closing() == Ok(()));
    assert!(rt; tokens.next_word() == Ok(b"x".as_slice()));
    assert!(rt; !tokens.is_opening());
    assert!(rt; tokens.next_word() == Err(BadToken));
}
