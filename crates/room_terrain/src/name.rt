// The names of rooms.
ghost use Rattle.std.specs.Prelude.{◌≡◌, ℕ, ◌+◌, ◌<◌, ◌≤◌, ◌≢◌, ℤ, List, ◌∷◌, ◌++◌, [], length, drop};
ghost use Rattle.std.specs.Prelude.{slice_get, cond, int_lt, pos, Some, IfSome, IfNone, IfOk, OnErr};
ghost use Rattle.std.specs.Prelude.{MatchOption, decimal};
ghost use Rattle.room_terrain.specs.Names.{Names, name_text, side_text, IsSideInRange, EndsNumber};
ghost use Rattle.room_terrain.specs.declared.name.RoomName.{RoomName};

use std::fmt;

/// A room's column and row, each from -128 to 127. Column 0 is E0 and column -1 is W0, row 0 is S0
/// and row -1 is N0.
#[derive(Clone, Copy, Debug, PartialEq, Eq)]
pub struct RoomName {
    pub column: i32,
    pub row: i32,
}

/// The text is the name of no room.
#[derive(Clone, Copy, Debug, PartialEq, Eq)]
pub struct NotAName;

impl RoomName {
    /// The room that a text names.
    pub fn read(text: &str) -> Result<RoomName, NotAName>
        ensures ok { IfOk result (λ name. Names text.now name) }
        ensures only { IfOk result (λ name. (other : RoomName) → Names text.now other → other ≡ name) }
        ensures err { OnErr result ((name : RoomName) → Names text.now name → ⊥) }
    {
        let Some((column, rest)) = read_side(text.as_bytes(), b'W', b'E') else {
            return Err(NotAName);
        };
        let Some((row, rest)) = read_side(rest, b'N', b'S') else {
            return Err(NotAName);
        };
        if !rest.is_empty() {
            return Err(NotAName);
        }
        Ok(RoomName { column, row })
    }
}

// The column or row at the front of a text, and the text after it. Its letter is `before` where it
// is negative and else `after`.
fn read_side(text: &[u8], before: u8, after: u8) -> Option<(i32, &[u8])>
    requires { before ≢ after }
    ensures some { IfSome result
        (λ found. IsSideInRange found.0 × (text.now ≡ side_text before after found.0 ++ found.1.now)) }
    ensures all { (side : ℤ) → (rest : List ℕ) → IsSideInRange side → EndsNumber rest
        → text.now ≡ side_text before after side ++ rest
        → MatchOption result ⊥ (λ found. (found.0 ≡ side) × (found.1.now ≡ rest)) }
{
    if text.is_empty() {
        return None;
    }
    let letter = text[0];
    let Some((number, digits)) = read_number(&text[1..]) else {
        return None;
    };
    let rest = &text[1 + digits..];
    if letter == before {
        Some((-1 - number as i32, rest))
    } else if letter == after {
        Some((number as i32, rest))
    } else {
        None
    }
}

// The number from 0 to 127 at the front of a text, without leading zeros, and the number of its
// digits.
fn read_number(text: &[u8]) -> Option<(u8, usize)>
    ensures some { IfSome result
        (λ found. (found.0 ≤ 127) × (text.now ≡ decimal found.0 ++ drop found.1 text.now)) }
    ensures all { (number : ℕ) → (rest : List ℕ) → number ≤ 127 → EndsNumber rest
        → text.now ≡ decimal number ++ rest
        → MatchOption result ⊥ (λ found. (found.0 ≡ number) × (drop found.1 text.now ≡ rest)) }
    ensures within { IfSome result (λ found. found.1 ≤ length text.now) }
{
    let Some(first) = digit_at(text, 0) else {
        return None;
    };
    if first == 0 {
        return Some((0, 1));
    }
    let Some(second) = digit_at(text, 1) else {
        return Some((first, 1));
    };
    let Some(third) = digit_at(text, 2) else {
        return Some((first * 10 + second, 2));
    };
    if first > 1 || second * 10 + third > 27 {
        return None;
    }
    Some((100 + second * 10 + third, 3))
}

// The digit at a place of a text.
fn digit_at(text: &[u8], at: usize) -> Option<u8>
    ensures some { IfSome result (λ digit. (digit < 10) × (slice_get text.now at ≡ Some (48 + digit))) }
    ensures none { IfNone result ((digit : ℕ) → digit < 10 → slice_get text.now at ≡ Some (48 + digit) → ⊥) }
{
    match text.get(at) {
        Some(byte @ b'0'..=b'9') => Some(*byte - b'0'),
        _ => None,
    }
}

impl fmt::Display for RoomName {
    ghost output = { λ name. Some (name_text name) };

    fn fmt<W: fmt::Write>(&self, f: &mut fmt::Formatter<W>) -> fmt::Result {
        let column = letter(self.column, "W", "E");
        let row = letter(self.row, "N", "S");
        write!(
            f,
            "{column}{}{row}{}",
            number(self.column),
            number(self.row)
        )
    }
}

// The letter of a column or row.
fn letter<'a>(side: i32, before: &'a str, after: &'a str) -> &'a str
    ensures { result.now ≡ cond (int_lt side (pos 0)) before.now after.now }
{
    if side < 0 { before } else { after }
}

// The number of a column or row.
fn number(side: i32) -> u32
    ensures { side_text 0 1 side ≡ cond (int_lt side (pos 0)) 0 1 ∷ decimal result }
{
    if side < 0 {
        (-1 - side) as u32
    } else {
        side as u32
    }
}
