// The law of canonical lists.
ghost use Rattle.std.specs.Prelude.{◌≡◌, List};
ghost use Rattle.std.specs.List.{IsDistinct};
ghost use Rattle.intent_book.specs.Records.{IsCanonical, same_place};
ghost use Rattle.intent_book.specs.declared.intent.Intent.{Intent};

/// Says that entries of which no two have one action and actor have one canonical list. It does
/// nothing when it runs.
pub fn one_canonical_list()
    ensures { (entries one other : List Intent) → IsDistinct same_place entries → IsCanonical entries one
        → IsCanonical entries other → one ≡ other }
{}
