// The tokens of a text, one after the other.
ghost use Rattle.std.specs.Prelude.{◌≡◌, ◌≤◌, ◌<◌, ◌+◌, ℕ, List, [], ◌∷◌, length, drop, None, Some, IfSome};
ghost use Rattle.std.specs.Prelude.{IfNone, IfOk, OnErr};
ghost use Rattle.wat_grammar.specs.Fronts.{HasNoTokens, PassesTo, Starts};
ghost use Rattle.wat_grammar.specs.Tokens.{Token as Spelled};
ghost use Rattle.wat_tokens.specs.Seen.{IsSeen};
ghost use Rattle.wat_tokens.specs.inner.Fronts.{IsFront, IsNoBlank, token_length};

use crate::front::{Front, front_of};
use crate::token::Token;
use std::marker::Model;
use wasm_values::ReadFault;

/// Reads the tokens of a text, one after the other. Contracts see the bytes that are left.
#[derive(Drop)]
pub struct Tokens<'a> {
    text: &'a [u8],
    place: usize,
}

impl<'a> Model for Tokens<'a> {
    ghost use Rattle.std.specs.Prelude.{List, ℕ, ◌≤◌, drop, length};

    ghost Value = { List ℕ };

    ghost view = { λ tokens. drop tokens.place tokens.text.now };

    ghost invariant = { λ tokens. tokens.place ≤ length tokens.text.now };
}

/// What stands next is no token, no space and no comment.
#[derive(Clone, Copy, Debug, PartialEq, Eq)]
pub struct BadToken;

impl From<BadToken> for ReadFault {
    ghost use Rattle.std.specs.Prelude.{◌≡◌};
    ghost use Rattle.wasm_values.specs.declared.read.ReadFault.TheVariants.{Malformed};

    ghost from_gives = { λ _ e. e ≡ Malformed };

    fn from(_: BadToken) -> Self {
        ReadFault::Malformed
    }
}

impl<'a> Tokens<'a> {
    /// The tokens of a text.
    pub fn of(text: &'a [u8]) -> Tokens<'a>
        ensures { result ≡ text.now }
    {
        Tokens { text, place: 0 }
    }

    /// The same tokens, to look ahead.
    pub fn ahead(&self) -> Tokens<'a>
        ensures { result ≡ self.now }
    {
        Tokens {
            text: self.text,
            place: self.place,
        }
    }

    /// The next token, or none where no more is left.
    pub fn next(&mut self) -> Result<Option<Token<'a>>, BadToken>
        ensures token { IfOk result (λ found. IfSome found
            (λ token. (first : Spelled) × IsSeen token first × Starts first self.old self.new)) }
        ensures end { IfOk result (λ found. IfNone found (PassesTo self.old [])) }
        ensures bad { OnErr result (HasNoTokens self.old) }
        ensures shorter { IfOk result (λ found. IfSome found (λ token. length self.new < length self.old)) }
    {
        let text = self.text;
        let (place, front) = next_front(text, self.place);
        if matches!(front, Front::Bad) {
            return Err(BadToken);
        }
        let Some(count) = front.token_length() else {
            return Ok(None);
        };
        self.place = place + count;
        Ok(Some(seen(text, place, front)))
    }
}

/// What stands behind the blanks at a place of a text, and where.
fn next_front(text: &[u8], at: usize) -> (usize, Front)
    requires { at ≤ length text.now }
    ensures within { (at ≤ result.0) × (result.0 ≤ length text.now) }
    ensures passes { PassesTo (drop at text.now) (drop result.0 text.now) }
    ensures front { IsFront (drop result.0 text.now) result.1 }
    ensures no_blank { IsNoBlank result.1 }
{
    let mut place = at;
    'each: while place < text.len() {
        match front_of(&text[place..]) {
            Front::Blank(count) => place += count,
            front => return (place, front),
        }
    }
    (place, Front::End)
}

// The token at a place.
fn seen<'a>(text: &'a [u8], place: usize, front: Front) -> Token<'a>
    requires front { (place ≤ length text.now) × IsFront (drop place text.now) front }
    requires token { token_length front ≡ None → ⊥ }
    ensures { (token : Spelled) × IsSeen result token × (count : ℕ) × (token_length front ≡ Some count)
        × Starts token (drop place text.now) (drop (place + count) text.now) }
{
    match front {
        Front::Opening => Token::Opening,
        Front::Closing => Token::Closing,
        Front::Quoted(count) => Token::Quoted(&text[place + 1..place + 1 + count]),
        Front::Word(count) => Token::Word(&text[place..place + count]),
        Front::End | Front::Blank(_) | Front::Bad => unreachable!(),
    }
}
