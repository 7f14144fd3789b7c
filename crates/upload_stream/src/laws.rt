// Laws of streams.
ghost use Rattle.std.specs.Prelude.{◌≡◌, ℕ, List};
ghost use Rattle.upload_stream.specs.Streams.{IsFirstBad, Upload, UploadList};

/// Says that bytes are a stream of one list of uploads at most, that a stream has no bad entry, and
/// that bytes have one first bad entry at most. It does nothing when it runs.
pub fn stream_is_judged_once()
    ensures one { (bytes : List ℕ) (one other : List Upload) → UploadList bytes one → UploadList bytes other
        → one ≡ other }
    ensures refused { (bytes : List ℕ) (uploads : List Upload) (at : ℕ) → UploadList bytes uploads
        → IsFirstBad bytes at → ⊥ }
    ensures first { (bytes : List ℕ) (at other : ℕ) → IsFirstBad bytes at → IsFirstBad bytes other
        → at ≡ other }
{}
