// A law of sessions.
ghost use Rattle.std.specs.Prelude.{◌≡◌, ℕ, List, true, false};
ghost use Rattle.world_hub.specs.declared.queue.Upload.{Upload as Sent};
ghost use Rattle.world_hub.specs.declared.status.Shown.{Shown};
ghost use Rattle.status_session.specs.Session.{Answers, IsBad, Lasts};
ghost use Rattle.status_session.specs.declared.session.SessionEnd.{SessionEnd as AnEnd};

/// Says that the bytes of a request determine what it is: those after which a session goes on are not those
/// of a last request, whatever the tokens are; a last request has one reply and one end; and the input ended
/// in all bad requests of the same bytes or in none. It does nothing when it runs.
pub fn request_is_judged_once()
    ensures goes_on { (tokens : List (ℕ × List ℕ)) (heard : List ℕ) (reads : List Shown) (offers : List Sent)
        (fulls : ℕ) (said last : List ℕ) (end : AnEnd)
        → Answers tokens heard reads offers fulls said → Lasts heard last end → ⊥ }
    ensures ends { (heard said other : List ℕ) (end last : AnEnd) → Lasts heard said end
        → Lasts heard other last → (said ≡ other) × (end ≡ last) }
    ensures cut { (heard : List ℕ) → IsBad true heard → IsBad false heard → ⊥ }
{}
