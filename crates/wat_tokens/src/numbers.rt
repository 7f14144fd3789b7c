// The numbers that words spell.
ghost use Rattle.std.specs.Prelude.{◌≡◌, ◌≢◌, ◌↔◌, ℕ, ◌+◌, ◌*◌, ◌^◌, ◌<◌, ◌≤◌, List, ◌∷◌, drop, length, true};
ghost use Rattle.std.specs.Prelude.{IfSome, IfNone};
ghost use Rattle.wat_grammar.specs.Numbers.{GoesOn, SpellsDigits, SpellsIndex, SpellsNatural};
ghost use Rattle.wat_tokens.specs.inner.Naturals.{IsNatural};

use crate::bytes::digit_of;

/// A number, as far as it fits 64 bits.
#[derive(Clone, Copy, Debug, PartialEq, Eq)]
pub(crate) enum Natural {
    Number(u64),
    TooLarge,
}

impl Natural {
    // The number with a digit more.
    fn with_digit(self, base: u8, digit: u8) -> Natural
        requires { base ≢ 0 }
        ensures { (number : ℕ) → IsNatural self number → IsNatural result (base * number + digit) }
    {
        let Natural::Number(number) = self else {
            return Natural::TooLarge;
        };
        match number.checked_mul(u64::from(base)) {
            Some(product) => match product.checked_add(u64::from(digit)) {
                Some(sum) => Natural::Number(sum),
                None => Natural::TooLarge,
            },
            None => Natural::TooLarge,
        }
    }
}

/// The digit at this place, behind a mark or not: how many bytes it takes, and its value.
fn digit_at(base: u8, text: &[u8], at: usize) -> Option<(usize, u8)>
    requires { at < length text.now }
    ensures within { IfSome result (λ found. (0 < found.0) × (at + found.0 ≤ length text.now)) }
    ensures found { IfSome result (λ found. (number total : ℕ) → GoesOn base number (drop at text.now) total
        ↔ GoesOn base (base * number + found.1) (drop (at + found.0) text.now) total) }
    ensures none { IfNone result ((number total : ℕ) → GoesOn base number (drop at text.now) total → ⊥) }
{
    if text[at] != b'_' {
        let Some(value) = digit_of(base, text[at]) else {
            return None;
        };
        return Some((1, value));
    }
    if at + 1 >= text.len() {
        return None;
    }
    let Some(value) = digit_of(base, text[at + 1]) else {
        return None;
    };
    Some((2, value))
}

/// The number that digits of a base spell.
fn digits_of(base: u8, text: &[u8]) -> Option<Natural>
    requires { base ≢ 0 }
    ensures found { IfSome result (λ natural. (number : ℕ) × SpellsDigits base text.now number
        × IsNatural natural number) }
    ensures only { IfSome result (λ natural. (number : ℕ) → SpellsDigits base text.now number
        → IsNatural natural number) }
    ensures none { IfNone result ((number : ℕ) → SpellsDigits base text.now number → ⊥) }
{
    if text.is_empty() {
        return None;
    }
    let Some(first) = digit_of(base, text[0]) else {
        return None;
    };
    let mut natural = Natural::Number(u64::from(first));
    let mut at = 1usize;
    'each: while at < text.len() {
        let Some((count, digit)) = digit_at(base, text, at) else {
            return None;
        };
        natural = natural.with_digit(base, digit);
        at += count;
    }
    Some(natural)
}

/// The number that a word spells: decimal digits, or `0x` and hexadecimal ones.
pub(crate) fn natural_of(word: &[u8]) -> Option<Natural>
    ensures found { IfSome result (λ natural. (number : ℕ) × SpellsNatural word.now number
        × IsNatural natural number) }
    ensures only { IfSome result (λ natural. (number : ℕ) → SpellsNatural word.now number
        → IsNatural natural number) }
    ensures none { IfNone result ((number : ℕ) → SpellsNatural word.now number → ⊥) }
{
    if is_hexadecimal(word) {
        digits_of(16, &word[2..])
    } else {
        digits_of(10, word)
    }
}

// Whether the word begins with `0x`.
fn is_hexadecimal(word: &[u8]) -> bool
    ensures yes { result ≡ true → (1 < length word.now) × (word.now ≡ 0x30 ∷ 0x78 ∷ drop 2 word.now) }
    ensures no { (text : List ℕ) → word.now ≡ 0x30 ∷ 0x78 ∷ text → result ≡ true }
{
    word.len() > 1 && word[0] == b'0' && word[1] == b'x'
}

/// The index that a word spells: a number below 2^32, decimal, or hexadecimal behind `0x`, with single `_`
/// between digits.
pub fn index_of(word: &[u8]) -> Option<u32>
    ensures found { IfSome result (λ index. SpellsIndex word.now index) }
    ensures only { IfSome result (λ index. (number : ℕ) → SpellsIndex word.now number → number ≡ index) }
    ensures none { IfNone result ((number : ℕ) → SpellsIndex word.now number → ⊥) }
{
    match natural_of(word) {
        Some(Natural::Number(number)) => u32::try_from(number).ok(),
        Some(Natural::TooLarge) | None => None,
    }
}
