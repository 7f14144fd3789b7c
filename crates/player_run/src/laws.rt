// Laws of runs.
ghost use Rattle.std.specs.Prelude.{◌≡◌, ℕ, List};
ghost use Rattle.intent_book.specs.Records.{AreOf};
ghost use Rattle.intent_book.specs.declared.player_run.PlayerRun.{PlayerRun};
ghost use Rattle.intent_book.specs.declared.refusal.Refusal.{Refusal};
ghost use Rattle.visible_view.specs.Sights.{Sight};
ghost use Rattle.wasm_link.specs.Linking.{Link};
ghost use Rattle.player_run.specs.Admission.{Accepts, IsRefused};
ghost use Rattle.player_run.specs.Emitted.{Emits, EmitsBy};

/// Says that what a player emits depends on his module and on what he sees alone: equal bytes and
/// equal views give equal runs, whatever stands in other rooms and accounts. It does nothing when it
/// runs.
pub fn emitted_once()
    ensures linked { (link : Link) (sight : Sight) (one other : PlayerRun) → EmitsBy link sight one
        → EmitsBy link sight other → one ≡ other }
    ensures bytes { (bytes : List ℕ) (sight : Sight) (one other : PlayerRun) → Emits bytes sight one
        → Emits bytes sight other → one ≡ other }
{}

/// Says that a player wants in his own name alone: each intent of a run is of the player who sees what the
/// module was run on. It does nothing when it runs.
pub fn emitted_in_own_name()
    ensures { (bytes : List ℕ) (sight : Sight) (run : PlayerRun) → Emits bytes sight run
        → AreOf sight.account.player run.intents }
{}

/// Says that bytes have one judgement: they are accepted with one program, or refused for one reason. It does
/// nothing when it runs.
pub fn judged_once()
    ensures accepted { (bytes : List ℕ) (one other : Link) → Accepts bytes one → Accepts bytes other
        → one ≡ other }
    ensures one_reason { (bytes : List ℕ) (one other : Refusal) → IsRefused bytes one → IsRefused bytes other
        → one ≡ other }
    ensures refused { (bytes : List ℕ) (refusal : Refusal) (link : Link) → IsRefused bytes refusal
        → Accepts bytes link → ⊥ }
{}
