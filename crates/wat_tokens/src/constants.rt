// The constants that words spell.
ghost use Rattle.std.specs.Prelude.{◌≡◌, ℕ, ℤ, IfSome, IfNone};
ghost use Rattle.wat_grammar.specs.Numbers.{SpellsConstant};
ghost use Rattle.wat_tokens.specs.inner.Naturals.{IsNatural};
ghost use Rattle.wat_tokens.specs.inner.Signs.{HasNumber, IsConstant, IsSigned};

use crate::numbers::{Natural, natural_of};

// The sign of a constant.
#[derive(Clone, Copy)]
enum Sign {
    None,
    Plus,
    Minus,
}

// The sign that a word begins with.
fn sign_of(word: &[u8]) -> Sign
    ensures { IsSigned word.now result }
{
    match word.first() {
        Some(b'+') => Sign::Plus,
        Some(b'-') => Sign::Minus,
        _ => Sign::None,
    }
}

/// The constant of 32 bits that a word spells: a number below 2^32, with a `+` or without, whose highest bit
/// is the sign, or one of at most 2^31 behind a `-`.
pub fn i32_of(word: &[u8]) -> Option<i32>
    ensures found { IfSome result (λ constant. SpellsConstant 32 word.now constant) }
    ensures only { IfSome result
        (λ constant. (other : ℤ) → SpellsConstant 32 word.now other → other ≡ constant) }
    ensures none { IfNone result ((other : ℤ) → SpellsConstant 32 word.now other → ⊥) }
{
    let sign = sign_of(word);
    match natural_behind(word, sign) {
        Some(natural) => constant_32(sign, natural),
        None => None,
    }
}

/// The constant of 64 bits that a word spells: a number below 2^64, with a `+` or without, whose highest bit
/// is the sign, or one of at most 2^63 behind a `-`.
pub fn i64_of(word: &[u8]) -> Option<i64>
    ensures found { IfSome result (λ constant. SpellsConstant 64 word.now constant) }
    ensures only { IfSome result
        (λ constant. (other : ℤ) → SpellsConstant 64 word.now other → other ≡ constant) }
    ensures none { IfNone result ((other : ℤ) → SpellsConstant 64 word.now other → ⊥) }
{
    let sign = sign_of(word);
    match natural_behind(word, sign) {
        Some(natural) => constant_64(sign, natural),
        None => None,
    }
}

// The constant of 32 bits of a sign and a number.
fn constant_32(sign: Sign, natural: Natural) -> Option<i32>
    ensures found { (number : ℕ) → IsNatural natural number
        → IfSome result (λ constant. IsConstant 32 sign number constant) }
    ensures none { (number : ℕ) → IsNatural natural number
        → IfNone result ((constant : ℤ) → IsConstant 32 sign number constant → ⊥) }
{
    let Natural::Number(number) = natural else {
        return None;
    };
    match sign {
        Sign::None | Sign::Plus => match u32::try_from(number) {
            Ok(low) => Some(low.cast_signed()),
            Err(_) => None,
        },
        Sign::Minus => match i64::try_from(number) {
            Ok(number) => i32::try_from(-number).ok(),
            Err(_) => None,
        },
    }
}

// The constant of 64 bits of a sign and a number.
fn constant_64(sign: Sign, natural: Natural) -> Option<i64>
    ensures found { (number : ℕ) → IsNatural natural number
        → IfSome result (λ constant. IsConstant 64 sign number constant) }
    ensures none { (number : ℕ) → IsNatural natural number
        → IfNone result ((constant : ℤ) → IsConstant 64 sign number constant → ⊥) }
{
    let Natural::Number(number) = natural else {
        return None;
    };
    match sign {
        Sign::None | Sign::Plus => Some(number.cast_signed()),
        Sign::Minus if number <= 1 << 63 => Some(0u64.wrapping_sub(number).cast_signed()),
        Sign::Minus => None,
    }
}

// The number behind the sign of a word.
fn natural_behind(word: &[u8], sign: Sign) -> Option<Natural>
    requires { IsSigned word.now sign }
    ensures found { IfSome result (λ natural. (number : ℕ) × HasNumber word.now sign number
        × IsNatural natural number) }
    ensures only { IfSome result (λ natural. (number : ℕ) → HasNumber word.now sign number
        → IsNatural natural number) }
    ensures none { IfNone result ((number : ℕ) → HasNumber word.now sign number → ⊥) }
{
    match sign {
        Sign::None => natural_of(word),
        Sign::Plus | Sign::Minus => natural_of(&word[1..]),
    }
}
