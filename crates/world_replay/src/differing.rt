// Where two lists of bytes differ.
ghost use Rattle.std.specs.Prelude.{◌≡◌, slice_get, IfSome, IfNone};
ghost use Rattle.world_replay.specs.Differing.{DifferAt};

/// The byte at a place, where there is one.
pub fn byte_at(bytes: &[u8], place: usize) -> Option<u8>
    ensures { result ≡ slice_get bytes.now place }
{
    bytes.get(place).copied()
}

/// The first place at which bytes differ, or at which one of them ends.
pub fn first_difference(one: &[u8], other: &[u8]) -> Option<usize>
    ensures some { IfSome result
        (λ at. DifferAt at (slice_get one.now at) (slice_get other.now at) one.now other.now) }
    ensures none { IfNone result (one.now ≡ other.now) }
{
    let shorter = if one.len() < other.len() {
        one.len()
    } else {
        other.len()
    };
    for place in 0..shorter {
        if one[place] != other[place] {
            return Some(place);
        }
    }
    if one.len() == other.len() {
        None
    } else {
        Some(shorter)
    }
}
