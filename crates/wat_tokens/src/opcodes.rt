// The opcodes of instructions by their words.
ghost use Rattle.std.specs.Prelude.{◌≡◌, ◌<◌, ◌↔◌, ℕ, [], Some, IfSome, IfNone, IsTrue, get_or};
ghost use Rattle.wat_grammar.specs.Words.{word_of};
ghost use Rattle.wat_tokens.specs.inner.Slots.{codes_in_order, hash_from, words_in_order};

/// The opcode of the instruction that has this word: WebAssembly Core 1.0, chapters 6.5 and 5.4, with those of
/// `else` and `end`, which stand for the bytes behind the parts of a block. The cost is that of going over the
/// word.
pub fn opcode_of(word: &[u8]) -> Option<u8>
    ensures found { IfSome result (λ code. word_of code ≡ Some word.now) }
    ensures none { IfNone result ((code : ℕ) → word_of code ≡ Some word.now → ⊥) }
{
    let place = place_of(word);
    if place < 109 && is_word_at(place, word) {
        Some(code_at(place))
    } else {
        None
    }
}

// The only place in `WORDS` that may be that of the word.
fn place_of(word: &[u8]) -> usize
    ensures { result ≡ get_or SLOTS (hash_from 0 word.now) 0 }
{
    usize::from(SLOTS[hash_of(word)])
}

fn is_word_at(place: usize, word: &[u8]) -> bool
    requires { place < 109 }
    ensures { IsTrue result ↔ (get_or words_in_order place [] ≡ word.now) }
{
    word_at(place) == word
}

fn word_at(place: usize) -> &'static [u8]
    requires { place < 109 }
    ensures { result.now ≡ get_or words_in_order place [] }
{
    WORDS[place]
}

fn code_at(place: usize) -> u8
    requires { place < 109 }
    ensures { result ≡ get_or codes_in_order place 0 }
{
    CODES[place]
}

// The place of a word in `SLOTS`.
fn hash_of(word: &[u8]) -> usize
    ensures same { result ≡ hash_from 0 word.now }
    ensures small { result < 598 }
{
    let mut hash = 0usize;
    'each: for &byte in word {
        hash = (hash * 61 + usize::from(byte)) % 598;
    }
    hash
}

// The words, in the order of their opcodes.
static WORDS: [&[u8]; 109] = [
    b"unreachable",
    b"nop",
    b"block",
    b"loop",
    b"if",
    b"else",
    b"end",
    b"br",
    b"br_if",
    b"br_table",
    b"return",
    b"call",
    b"call_indirect",
    b"drop",
    b"select",
    b"local.get",
    b"local.set",
    b"local.tee",
    b"global.get",
    b"global.set",
    b"i32.load",
    b"i64.load",
    b"i32.load8_s",
    b"i32.load8_u",
    b"i32.load16_s",
    b"i32.load16_u",
    b"i64.load8_s",
    b"i64.load8_u",
    b"i64.load16_s",
    b"i64.load16_u",
    b"i64.load32_s",
    b"i64.load32_u",
    b"i32.store",
    b"i64.store",
    b"i32.store8",
    b"i32.store16",
    b"i64.store8",
    b"i64.store16",
    b"i64.store32",
    b"memory.size",
    b"memory.grow",
    b"i32.const",
    b"i64.const",
    b"i32.eqz",
    b"i32.eq",
    b"i32.ne",
    b"i32.lt_s",
    b"i32.lt_u",
    b"i32.gt_s",
    b"i32.gt_u",
    b"i32.le_s",
    b"i32.le_u",
    b"i32.ge_s",
    b"i32.ge_u",
    b"i64.eqz",
    b"i64.eq",
    b"i64.ne",
    b"i64.lt_s",
    b"i64.lt_u",
    b"i64.gt_s",
    b"i64.gt_u",
    b"i64.le_s",
    b"i64.le_u",
    b"i64.ge_s",
    b"i64.ge_u",
    b"i32.clz",
    b"i32.ctz",
    b"i32.popcnt",
    b"i32.add",
    b"i32.sub",
    b"i32.mul",
    b"i32.div_s",
    b"i32.div_u",
    b"i32.rem_s",
    b"i32.rem_u",
    b"i32.and",
    b"i32.or",
    b"i32.xor",
    b"i32.shl",
    b"i32.shr_s",
    b"i32.shr_u",
    b"i32.rotl",
    b"i32.rotr",
    b"i64.clz",
    b"i64.ctz",
    b"i64.popcnt",
    b"i64.add",
    b"i64.sub",
    b"i64.mul",
    b"i64.div_s",
    b"i64.div_u",
    b"i64.rem_s",
    b"i64.rem_u",
    b"i64.and",
    b"i64.or",
    b"i64.xor",
    b"i64.shl",
    b"i64.shr_s",
    b"i64.shr_u",
    b"i64.rotl",
    b"i64.rotr",
    b"i32.wrap_i64",
    b"i64.extend_i32_s",
    b"i64.extend_i32_u",
    b"i32.extend8_s",
    b"i32.extend16_s",
    b"i64.extend8_s",
    b"i64.extend16_s",
    b"i64.extend32_s",
];

// The opcodes, in the order of `WORDS`.
static CODES: [u8; 109] = [
    0x00, 0x01, 0x02, 0x03, 0x04, 0x05, 0x0b, 0x0c, 0x0d, 0x0e, 0x0f, 0x10, 0x11, 0x1a, 0x1b, 0x20,
    0x21, 0x22, 0x23, 0x24, 0x28, 0x29, 0x2c, 0x2d, 0x2e, 0x2f, 0x30, 0x31, 0x32, 0x33, 0x34, 0x35,
    0x36, 0x37, 0x3a, 0x3b, 0x3c, 0x3d, 0x3e, 0x3f, 0x40, 0x41, 0x42, 0x45, 0x46, 0x47, 0x48, 0x49,
    0x4a, 0x4b, 0x4c, 0x4d, 0x4e, 0x4f, 0x50, 0x51, 0x52, 0x53, 0x54, 0x55, 0x56, 0x57, 0x58, 0x59,
    0x5a, 0x67, 0x68, 0x69, 0x6a, 0x6b, 0x6c, 0x6d, 0x6e, 0x6f, 0x70, 0x71, 0x72, 0x73, 0x74, 0x75,
    0x76, 0x77, 0x78, 0x79, 0x7a, 0x7b, 0x7c, 0x7d, 0x7e, 0x7f, 0x80, 0x81, 0x82, 0x83, 0x84, 0x85,
    0x86, 0x87, 0x88, 0x89, 0x8a, 0xa7, 0xac, 0xad, 0xc0, 0xc1, 0xc2, 0xc3, 0xc4,
];

// By the hash of a word, the only place in `WORDS` that may be its, or 255 where there is none. No two words
// of `WORDS` have one hash.
static SLOTS: [u8; 598] = [
    101, 255, 255, 255, 255, 255, 255, 255, 255, 255, 255, 255, 255, 26, 255, 27, 255, 255, 86,
    255, 255, 255, 255, 255, 255, 255, 255, 255, 56, 255, 93, 255, 255, 2, 255, 255, 20, 255, 255,
    41, 255, 255, 255, 255, 255, 255, 255, 255, 255, 255, 255, 255, 255, 255, 255, 255, 255, 255,
    70, 255, 255, 255, 255, 78, 255, 255, 255, 255, 255, 255, 255, 255, 255, 255, 255, 255, 255,
    34, 255, 255, 255, 255, 255, 255, 255, 63, 84, 64, 255, 55, 255, 255, 255, 255, 255, 48, 255,
    49, 14, 255, 255, 255, 94, 45, 255, 5, 255, 255, 255, 255, 255, 255, 7, 255, 255, 255, 255,
    255, 39, 255, 255, 255, 255, 255, 255, 255, 255, 255, 255, 255, 255, 255, 255, 255, 255, 255,
    255, 79, 35, 80, 255, 255, 255, 255, 255, 255, 255, 255, 255, 255, 255, 255, 255, 255, 255,
    255, 255, 255, 255, 255, 255, 255, 255, 255, 44, 255, 255, 32, 255, 54, 255, 255, 67, 255, 95,
    255, 255, 76, 255, 255, 255, 255, 40, 255, 255, 255, 255, 57, 255, 58, 255, 91, 255, 92, 255,
    255, 83, 255, 255, 255, 255, 255, 255, 255, 107, 255, 255, 255, 255, 255, 255, 255, 255, 255,
    255, 255, 255, 255, 255, 255, 255, 255, 255, 255, 255, 19, 255, 21, 10, 255, 255, 255, 255,
    255, 28, 255, 29, 255, 255, 255, 255, 255, 255, 255, 255, 255, 255, 81, 69, 255, 255, 255, 3,
    82, 255, 255, 255, 255, 255, 255, 255, 255, 255, 255, 255, 255, 255, 88, 255, 255, 255, 255,
    96, 255, 255, 255, 255, 255, 89, 255, 90, 255, 255, 255, 255, 255, 59, 106, 60, 255, 255, 255,
    255, 255, 255, 255, 255, 255, 255, 255, 8, 255, 255, 37, 255, 255, 255, 255, 255, 255, 255,
    255, 255, 255, 255, 255, 255, 255, 255, 255, 255, 255, 255, 255, 255, 255, 255, 255, 42, 255,
    255, 13, 255, 255, 255, 24, 255, 25, 255, 255, 255, 255, 255, 255, 255, 255, 255, 255, 255,
    255, 108, 255, 255, 255, 255, 255, 255, 9, 255, 255, 255, 255, 255, 255, 36, 255, 255, 255,
    255, 255, 255, 255, 255, 255, 255, 255, 255, 255, 255, 255, 30, 255, 31, 16, 255, 255, 255,
    255, 255, 255, 255, 255, 255, 50, 255, 51, 255, 255, 255, 255, 255, 255, 255, 255, 255, 255,
    102, 68, 103, 255, 255, 255, 255, 255, 255, 255, 255, 255, 255, 75, 255, 38, 255, 18, 255, 255,
    97, 255, 98, 255, 255, 255, 255, 255, 255, 255, 255, 255, 99, 255, 255, 255, 255, 255, 100,
    255, 22, 255, 23, 255, 0, 255, 255, 255, 255, 255, 33, 87, 255, 85, 255, 255, 255, 255, 255,
    255, 255, 255, 104, 255, 255, 255, 255, 255, 255, 66, 255, 255, 255, 255, 255, 105, 255, 255,
    255, 255, 255, 255, 255, 255, 255, 255, 52, 255, 53, 255, 255, 255, 255, 255, 73, 17, 74, 255,
    255, 255, 255, 255, 255, 6, 255, 255, 255, 255, 255, 255, 255, 255, 255, 255, 255, 255, 255,
    255, 255, 255, 255, 4, 255, 255, 255, 255, 255, 255, 11, 255, 255, 255, 255, 12, 255, 255, 255,
    255, 255, 255, 255, 255, 255, 255, 255, 255, 255, 255, 255, 255, 255, 255, 43, 255, 255, 255,
    255, 77, 255, 255, 255, 255, 255, 255, 255, 255, 255, 255, 255, 255, 255, 255, 255, 255, 255,
    15, 255, 1, 61, 65, 62, 71, 255, 72, 255, 255, 255, 255, 46, 255, 47, 255,
];
