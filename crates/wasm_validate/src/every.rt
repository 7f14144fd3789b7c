// Rules that each entry of a list has to hold.
ghost use Rattle.std.specs.Prelude.{All};
ghost use Rattle.wasm_typing.specs.inner.Stands.{Exactly};

use wasm_module::Entries;

/// A rule for the entries of a list, with what it looks at beside them.
pub(crate) trait Rule {
    type Entry;

    ghost holds: { Self → Self.Entry → Type 0 };

    /// Whether the entry holds it.
    fn is_held(&self, entry: &Self::Entry) -> bool
        ensures { Exactly (holds self.now entry.now) result };
}

/// Whether each of these holds the rule, in one step an entry.
pub(crate) fn each_holds<R: Rule>(rule: &R, list: &[R::Entry]) -> bool
    ensures { Exactly (All (R.holds rule.now) list.now) result }
{
    let mut at = 0usize;
    while at < list.len() {
        if !rule.is_held(&list[at]) {
            return false;
        }
        at += 1;
    }
    true
}

/// Whether each entry holds the rule.
pub(crate) fn all_hold<R: Rule>(rule: &R, entries: &Entries<R::Entry>) -> bool
    ensures { Exactly (All (R.holds rule.now) entries.now) result }
{
    each_holds(rule, entries.as_slice())
}
