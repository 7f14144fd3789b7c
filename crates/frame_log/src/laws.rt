// What holds of the bytes of logs.
ghost use Rattle.std.specs.Prelude.{◌≡◌, ℕ, List};
ghost use Rattle.frame_log.specs.Frames.{Stands};

/// The bytes of a log stand for one list of contents. The function does nothing.
pub fn bytes_stand_for_one_list()
    ensures { (bytes : List ℕ) (one other : List (List ℕ))
        → Stands one bytes → Stands other bytes → one ≡ other }
{}
