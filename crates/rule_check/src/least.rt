// The least of numbers that may be nothing.
ghost use Rattle.std.specs.Prelude.{◌≡◌};
ghost use Rattle.rule_check.specs.inner.Checks.{lesser_of};

/// The lesser of two numbers, or the one that is there.
pub fn lesser(one: Option<u64>, other: Option<u64>) -> Option<u64>
    ensures { result ≡ lesser_of one other }
{
    match (one, other) {
        (Some(one), Some(other)) => Some(one.min(other)),
        (Some(number), None) | (None, Some(number)) => Some(number),
        (None, None) => None,
    }
}
