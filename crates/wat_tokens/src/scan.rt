// How long the word, the line, the comment or the string at the front of a text is.
ghost use Rattle.std.specs.Prelude.{◌≡◌, ◌≤◌, ◌<◌, ◌+◌, ◌⊎◌, ℕ, List, ◌∷◌, ◌++◌, All, length, take, drop};
ghost use Rattle.std.specs.Prelude.{get_or, IfSome, IfNone};
ghost use Rattle.wat_grammar.specs.Fronts.{EndsBefore, GoesOnAt, HasNoPart, IsPart, IsQuotedBefore};
ghost use Rattle.wat_grammar.specs.Tokens.{BeginsWithNo, IsInLine, IsWordByte, left_byte, line_feed};
ghost use Rattle.wat_grammar.specs.Tokens.{SpellsString, quote_byte, right_byte, semicolon};
ghost use Rattle.wat_tokens.specs.declared.scan.Mark.TheVariants as Mark;

use crate::bytes::{digit_of, escape_of, is_plain, is_word_byte};

/// How many bytes of words stand at the front.
pub(crate) fn word_length(rest: &[u8]) -> usize
    ensures within { result ≤ length rest.now }
    ensures word { All IsWordByte (take result rest.now) }
    ensures longest { BeginsWithNo IsWordByte (drop result rest.now) }
{
    let mut count = 0usize;
    'each: while count < rest.len() && is_word_byte(rest[count]) {
        count += 1;
    }
    count
}

/// How many bytes stand before the first line feed, or before the end where there is none.
pub(crate) fn line_length(rest: &[u8]) -> usize
    ensures within { result ≤ length rest.now }
    ensures line { IsInLine (take result rest.now) }
    ensures end { (result ≡ length rest.now) ⊎ (get_or rest.now result 0 ≡ line_feed) }
{
    let mut count = 0usize;
    'each: while count < rest.len() && rest[count] != b'\n' {
        count += 1;
    }
    count
}

/// How many bytes stand behind the begin of a comment in parentheses up to its end, which counts too.
pub(crate) fn comment_length(rest: &[u8]) -> Option<usize>
    ensures within { IfSome result (λ n. n ≤ length rest.now) }
    ensures found { IfSome result (λ n. EndsBefore 1 rest.now (drop n rest.now)) }
    ensures only { IfSome result
        (λ n. (more : List ℕ) → EndsBefore 1 rest.now more → more ≡ drop n rest.now) }
    ensures none { IfNone result ((more : List ℕ) → EndsBefore 1 rest.now more → ⊥) }
{
    let mut depth = 1usize;
    let mut at = 0usize;
    'each: while at < rest.len() {
        match mark_at(rest, at) {
            Mark::End => {
                depth -= 1;
                at += 2;
                if depth == 0 {
                    return Some(at);
                }
            }
            Mark::Begin => {
                depth += 1;
                at += 2;
            }
            Mark::None => at += 1,
        }
    }
    None
}

// What stands at a place of a comment: an end, a begin, or another byte.
#[derive(Clone, Copy)]
enum Mark {
    End,
    Begin,
    None,
}

// What stands at this place.
fn mark_at(rest: &[u8], at: usize) -> Mark
    requires { at < length rest.now }
    ensures end { result ≡ Mark.End → drop at rest.now ≡ semicolon ∷ right_byte ∷ drop (at + 2) rest.now }
    ensures begin { result ≡ Mark.Begin → drop at rest.now ≡ left_byte ∷ semicolon ∷ drop (at + 2) rest.now }
    ensures two { (result ≡ Mark.None → ⊥) → at + 1 < length rest.now }
    ensures none { result ≡ Mark.None
        → (byte : ℕ) × (drop at rest.now ≡ byte ∷ drop (at + 1) rest.now)
        × GoesOnAt byte (drop (at + 1) rest.now) }
{
    if at + 1 >= rest.len() {
        return Mark::None;
    }
    match (rest[at], rest[at + 1]) {
        (b';', b')') => Mark::End,
        (b'(', b';') => Mark::Begin,
        _ => Mark::None,
    }
}

/// How many bytes stand behind the quotation mark that begins a string up to the one that ends it.
pub(crate) fn string_length(rest: &[u8]) -> Option<usize>
    ensures within { IfSome result (λ n. n < length rest.now) }
    ensures found { IfSome result (λ n. (content : List ℕ) × SpellsString (take n rest.now) content
        × ((other more : List ℕ) → IsQuotedBefore other rest.now more
        → (other ≡ content) × (more ≡ drop (n + 1) rest.now))) }
    ensures end { IfSome result (λ n. drop n rest.now ≡ quote_byte ∷ drop (n + 1) rest.now) }
    ensures none { IfNone result ((content more : List ℕ) → IsQuotedBefore content rest.now more → ⊥) }
{
    let mut at = 0usize;
    'each: while at < rest.len() {
        if rest[at] == b'"' {
            return Some(at);
        }
        let Some((count, _)) = part_at(rest, at) else {
            return None;
        };
        at += count;
    }
    None
}

/// The part of a string at this place: how many bytes it has, and the byte that it stands for.
pub(crate) fn part_at(rest: &[u8], at: usize) -> Option<(usize, u8)>
    requires within { at < length rest.now }
    ensures some { IfSome result (λ found. (0 < found.0) × (at + found.0 ≤ length rest.now)) }
    ensures found { IfSome result (λ found. (part : List ℕ) × IsPart part found.1
        × (length part ≡ found.0) × (drop at rest.now ≡ part ++ drop (at + found.0) rest.now)) }
    ensures none { IfNone result (HasNoPart (drop at rest.now)) }
{
    let first = rest[at];
    if first != b'\\' {
        return if is_plain(first) {
            Some((1, first))
        } else {
            None
        };
    }
    if at + 1 >= rest.len() {
        return None;
    }
    if let Some(value) = escape_of(rest[at + 1]) {
        return Some((2, value));
    }
    let Some(high) = digit_of(16, rest[at + 1]) else {
        return None;
    };
    if at + 2 >= rest.len() {
        return None;
    }
    let Some(low) = digit_of(16, rest[at + 2]) else {
        return None;
    };
    Some((3, 16 * high + low))
}
