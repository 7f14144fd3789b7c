// Laws of the calls' replies.
ghost use Rattle.std.specs.Prelude.{◌≡◌, ◌≢◌, ℕ, ℤ, pos, List};
ghost use Rattle.wasm_store.specs.Memory.{Memory};
ghost use Rattle.wasm_steps.specs.Laws.{IsFunction};
ghost use Rattle.host_calls.specs.Desks.{Desk};
ghost use Rattle.host_calls.specs.Replies.{answers, reply};
ghost use Rattle.host_calls.specs.Agreement.{CallsAgree};

/// Says that a desk answers a call in one way, and that a call whose answer is not 0 changes nothing
/// of the desk and nothing of the module's memory. It does nothing when it runs.
pub fn desks_answer_once()
    ensures once { IsFunction answers }
    ensures refused { (number : ℕ) (desk : Desk) (memory : Memory) (args : List ℤ)
        → (reply number desk memory args).answer ≢ pos 0 → ((reply number desk memory args).desk ≡ desk)
        × ((reply number desk memory args).memory ≡ memory) }
{}

/// Says that a call by which a creep is to act, answered 0, fails no check of the action's rule on the world
/// that its player sees. It does nothing when it runs.
pub fn calls_agree_with_rules()
    ensures { CallsAgree }
{}
