// The numbers that words spell, at the ends of their ranges and one past them.
use wat_tokens::{i32_of, i64_of, index_of};

static INDICES: [(&[u8], Option<u32>); 26] = [
    (b"0", Some(0)),
    (b"007", Some(7)),
    (b"10", Some(10)),
    (b"1_0", Some(10)),
    (b"0x0", Some(0)),
    (b"0xaF", Some(0xaf)),
    (b"0xf_f", Some(0xff)),
    (b"4294967295", Some(u32::MAX)),
    (b"0xffff_ffff", Some(u32::MAX)),
    (b"00000000000000000000000000004294967295", Some(u32::MAX)),
    (b"4294967296", None),
    (b"0x1_0000_0000", None),
    (b"18446744073709551616", None),
    (b"99999999999999999999999999999999999999999", None),
    (b"", None),
    (b"_1", None),
    (b"1_", None),
    (b"1__0", None),
    (b"0x", None),
    (b"0x_1", None),
    (b"0X1", None),
    (b"0xg", None),
    (b"1a", None),
    (b"+1", None),
    (b"-1", None),
    (b"1.0", None),
];

static NARROW: [(&[u8], Option<i32>); 18] = [
    (b"0", Some(0)),
    (b"+0", Some(0)),
    (b"-0", Some(0)),
    (b"-1", Some(-1)),
    (b"2147483647", Some(i32::MAX)),
    (b"2147483648", Some(i32::MIN)),
    (b"-2147483648", Some(i32::MIN)),
    (b"-0x8000_0000", Some(i32::MIN)),
    (b"4294967295", Some(-1)),
    (b"+0xffffffff", Some(-1)),
    (b"-2147483649", None),
    (b"4294967296", None),
    (b"-18446744073709551616", None),
    (b"--1", None),
    (b"+-1", None),
    (b"-", None),
    (b"+", None),
    (b"", None),
];

static WIDE: [(&[u8], Option<i64>); 14] = [
    (b"0", Some(0)),
    (b"-0", Some(0)),
    (b"-1", Some(-1)),
    (b"9223372036854775807", Some(i64::MAX)),
    (b"9223372036854775808", Some(i64::MIN)),
    (b"-9223372036854775808", Some(i64::MIN)),
    (b"18446744073709551615", Some(-1)),
    (b"+0xffff_ffff_ffff_ffff", Some(-1)),
    (b"-9223372036854775809", None),
    (b"18446744073709551616", None),
    (b"-18446744073709551616", None),
    (b"0x1_0000_0000_0000_0000", None),
    (b"-", None),
    (b"1-", None),
];

#[test]
fn words_spell_numbers(rt: HostRuntime) {
    for (word, expected) in &INDICES {
        assert!(rt; index_of(word) == *expected, "{word:?}");
    }
    for (word, expected) in &NARROW {
        assert!(rt; i32_of(word) == *expected, "{word:?}");
    }
    for (word, expected) in &WIDE {
        assert!(rt; i64_of(word) == *expected, "{word:?}");
    }
}
