// The lines of requests.
ghost use Rattle.std.specs.Prelude.{◌≡◌, ℕ, List, ◌∷◌, [], IsTrue, IfSome, IfNone, ◌↔◌};
ghost use Rattle.status_session.specs.Words.{words, IsNumber, IsToken, IsSize};
ghost use Rattle.status_session.specs.Asked.{Spells, IsUpload, IsNoRequest};
ghost use Rattle.status_session.specs.declared.asked.Offered.{Offered as AnOffer};

/// What a line asks. Numbers are the digits as they stand there.
pub enum Asked<'a> {
    Status,
    Player(&'a [u8]),
    Upload(Offered<'a>),
    Quit,
}

/// What the line of an upload says.
#[derive(Clone, Copy)]
pub struct Offered<'a> {
    pub player: &'a [u8],
    pub token: &'a [u8],
    pub size: u32,
}

/// The most bytes of an upload.
const UPLOAD_BYTES: u32 = 1_048_576;

// The bytes before the first space, and those after it.
fn cut(bytes: &[u8]) -> Option<(&[u8], &[u8])>
    ensures some { IfSome result (λ parts. words bytes.now ≡ parts.0.now ∷ words parts.1.now) }
    ensures none { IfNone result (words bytes.now ≡ bytes.now ∷ []) }
{
    for at in 0..bytes.len() {
        if bytes[at] == b' ' {
            return Some((&bytes[..at], &bytes[at + 1..]));
        }
    }
    None
}

// Whether these are digits without leading zeros.
fn is_number(bytes: &[u8]) -> bool
    ensures { IsTrue result ↔ IsNumber bytes.now }
{
    if bytes.is_empty() || (bytes[0] == b'0' && bytes.len() > 1) {
        return false;
    }
    for at in 0..bytes.len() {
        if bytes[at] < b'0' || bytes[at] > b'9' {
            return false;
        }
    }
    true
}

// Whether these are one or more bytes from `!` to `~`.
fn is_token(bytes: &[u8]) -> bool
    ensures { IsTrue result ↔ IsToken bytes.now }
{
    if bytes.is_empty() {
        return false;
    }
    for at in 0..bytes.len() {
        if bytes[at] < b'!' || bytes[at] > b'~' {
            return false;
        }
    }
    true
}

// The number of bytes of an upload.
fn size_of(bytes: &[u8]) -> Option<u32>
    ensures some { IfSome result (IsSize bytes.now) }
    ensures none { IfNone result ((n : ℕ) → IsSize bytes.now n → ⊥) }
{
    if !is_number(bytes) {
        return None;
    }
    let mut size = 0u32;
    for at in 0..bytes.len() {
        size = size * 10 + (bytes[at] - b'0') as u32;
        if size > UPLOAD_BYTES {
            return None;
        }
    }
    Some(size)
}

// The player that a line asks for, behind its first word.
#[tactic(auto, using(crate::proofs::Cuts::two_words))]
fn player_by(rest: &[u8]) -> Option<&[u8]>
    ensures some { IfSome result (λ digits. (words rest.now ≡ digits.now ∷ []) × IsNumber digits.now) }
    ensures none { IfNone result ((digits : List ℕ) → words rest.now ≡ digits ∷ []
        → IsNumber digits → ⊥) }
{
    if let Some((_word, _after)) = cut(rest) {
        return None;
    }
    if !is_number(rest) {
        return None;
    }
    Some(rest)
}

// The upload of a line, behind its first word.
fn upload_by(rest: &[u8]) -> Option<Offered<'_>>
    ensures some { IfSome result (IsUpload (words rest.now)) }
    ensures none { IfNone result ((offered : AnOffer) → IsUpload (words rest.now) offered → ⊥) }
{
    let (player, rest) = cut(rest)?;
    let (token, rest) = cut(rest)?;
    if let Some((_word, _after)) = cut(rest) {
        return None;
    }
    let size = size_of(rest)?;
    if !is_number(player) {
        return None;
    }
    if !is_token(token) {
        return None;
    }
    Some(Offered {
        player,
        token,
        size,
    })
}

/// What a line asks, which is given without its line feed.
pub fn asked_by(line: &[u8]) -> Option<Asked<'_>>
    ensures some { IfSome result (Spells (words line.now)) }
    ensures none { IfNone result (IsNoRequest line.now) }
{
    let Some((first, rest)) = cut(line) else {
        if line == b"STATUS".as_slice() {
            return Some(Asked::Status);
        }
        if line == b"QUIT".as_slice() {
            return Some(Asked::Quit);
        }
        return None;
    };
    if first == b"PLAYER".as_slice() {
        return match player_by(rest) {
            Some(player) => Some(Asked::Player(player)),
            None => None,
        };
    }
    if first == b"UPLOAD".as_slice() {
        return match upload_by(rest) {
            Some(offered) => Some(Asked::Upload(offered)),
            None => None,
        };
    }
    None
}
