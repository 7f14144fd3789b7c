// What stands at the front of a text.
ghost use Rattle.std.specs.Prelude.{◌≡◌, ◌<◌, ◌^◌, ℕ, List, length, get_or};
ghost use Rattle.wat_grammar.specs.Tokens.{left_byte, quote_byte, semicolon};
ghost use Rattle.wat_tokens.specs.inner.Fronts.{IsFront, token_length};

use crate::bytes::{is_space, is_word_byte};
use crate::scan::{comment_length, line_length, string_length, word_length};

/// What stands at the front of a text, by the bytes that it has.
#[derive(Clone, Copy)]
pub(crate) enum Front {
    /// No byte.
    End,
    /// So many bytes that are a space or a comment.
    Blank(usize),
    Opening,
    Closing,
    /// A string with so many bytes between its quotation marks.
    Quoted(usize),
    /// A word of so many bytes.
    Word(usize),
    /// Nothing of these.
    Bad,
}

impl Front {
    /// How many bytes a token has.
    pub(crate) fn token_length(self) -> Option<usize>
        requires { (text : List ℕ) × IsFront text self × (length text < 2 ^ 63) }
        ensures { result ≡ token_length self }
    {
        match self {
            Front::Opening | Front::Closing => Some(1),
            Front::Quoted(count) => Some(count + 2),
            Front::Word(count) => Some(count),
            Front::End | Front::Blank(_) | Front::Bad => None,
        }
    }
}

pub(crate) fn front_of(rest: &[u8]) -> Front
    ensures { IsFront rest.now result }
{
    if rest.is_empty() {
        return Front::End;
    }
    match rest[0] {
        b'(' => front_of_left(rest),
        b')' => Front::Closing,
        b'"' => front_of_quote(rest),
        b';' => front_of_semicolon(rest),
        byte if is_space(byte) => Front::Blank(1),
        byte if is_word_byte(byte) => Front::Word(word_length(rest)),
        _ => Front::Bad,
    }
}

// The same of a text that begins with a left parenthesis.
fn front_of_left(rest: &[u8]) -> Front
    requires some { 0 < length rest.now }
    requires left { get_or rest.now 0 0 ≡ left_byte }
    ensures { IsFront rest.now result }
{
    if rest.len() < 2 || rest[1] != b';' {
        return Front::Opening;
    }
    match comment_length(&rest[2..]) {
        Some(count) => Front::Blank(count + 2),
        None => Front::Bad,
    }
}

// The same of a text that begins with a quotation mark.
fn front_of_quote(rest: &[u8]) -> Front
    requires some { 0 < length rest.now }
    requires left { get_or rest.now 0 0 ≡ quote_byte }
    ensures { IsFront rest.now result }
{
    match string_length(&rest[1..]) {
        Some(count) => Front::Quoted(count),
        None => Front::Bad,
    }
}

// The same of a text that begins with a semicolon.
fn front_of_semicolon(rest: &[u8]) -> Front
    requires some { 0 < length rest.now }
    requires first { get_or rest.now 0 0 ≡ semicolon }
    ensures { IsFront rest.now result }
{
    if rest.len() < 2 || rest[1] != b';' {
        return Front::Bad;
    }
    let count = line_length(&rest[2..]);
    if count + 2 < rest.len() {
        Front::Blank(count + 3)
    } else {
        Front::Blank(count + 2)
    }
}
