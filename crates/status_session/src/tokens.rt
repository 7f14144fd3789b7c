// The players whose tokens a session knows.
ghost use Rattle.std.specs.Prelude.{◌≡◌, IfSome, IfNone, IsTrue, ◌↔◌};
ghost use Rattle.status_session.specs.Session.{IsNamed, IsListed, IsStranger};

use itoa::Buffer;
use world_text::{Text, Tokens};

// Whether the digits name the player of this entry.
fn is_named(entry: &(u32, Text), digits: &[u8]) -> bool
    ensures { IsTrue result ↔ IsNamed digits.now entry.now }
{
    let mut buffer = Buffer::new();
    buffer.format(entry.0).as_bytes() == digits
}

/// Whether the bytes are the token of this entry, whole.
pub fn has_token(entry: &(u32, Text), token: &[u8]) -> bool
    ensures { IsTrue result ↔ entry.now.1 ≡ token.now }
{
    entry.1.as_str().as_bytes() == token
}

/// The entry of the player that the digits name.
pub fn listed<'a>(tokens: &'a Tokens, digits: &[u8]) -> Option<&'a (u32, Text)>
    ensures some { IfSome result (λ entry. IsListed tokens.now digits.now entry.now) }
    ensures none { IfNone result (IsStranger tokens.now digits.now) }
{
    for at in 0..tokens.len() {
        let Some(entry) = tokens.nth(at) else {
            unreachable!()
        };
        if is_named(entry, digits) {
            return Some(entry);
        }
    }
    None
}
