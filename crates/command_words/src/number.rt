// The numbers of a command line.
ghost use Rattle.std.specs.Prelude.{ℕ, ◌≤◌, IfSome, IfNone};
ghost use Rattle.command_words.specs.Numbers.{IsNumber};

/// The number that a word says, of at most this size: digits alone, with no sign.
pub(crate) fn number_of(text: &str, most: u64) -> Option<u64>
    ensures some { IfSome result (λ n. IsNumber text.now n × (n ≤ most)) }
    ensures none { IfNone result ((n : ℕ) → IsNumber text.now n → n ≤ most → ⊥) }
{
    if text.as_bytes().first() == Some(&b'+') {
        return None;
    }
    match text.parse::<u64>() {
        Ok(number) if number <= most => Some(number),
        _ => None,
    }
}
