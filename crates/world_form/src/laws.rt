// The laws of the form of a world file.
ghost use Rattle.std.specs.Prelude.{◌≡◌, ◌≢◌, ◌↔◌, ℕ, List};
ghost use Rattle.serde_json.specs.Data.{Data};
ghost use Rattle.object_store.specs.Stored.{Stored};
ghost use Rattle.world_form.specs.declared.fault.WorldFault.{WorldFault};
ghost use Rattle.world_form.specs.Facts.{Filed, SaysWorld};
ghost use Rattle.world_form.specs.FirstFaults.{AllHold, IsFirst, world_checks};
ghost use Rattle.world_form.specs.Files.{HasFault, IsShort, Lists, Says};
ghost use Rattle.world_form.specs.Written.{IsWritable, IsOfTypes, written, filed_of};

use crate::fault::WorldFault;

/// Says that a file's value says a world exactly where all checks of its keys hold, and that the
/// first check that fails has one fault. It does nothing when it runs.
pub fn keys_are_checked()
    ensures said { (value : Data) → (filed : Filed) → SaysWorld value filed → AllHold (world_checks value) }
    ensures held { (value : Data) → AllHold (world_checks value) → (filed : Filed) × SaysWorld value filed }
    ensures fails { (value : Data) → AllHold (world_checks value) → (fault : WorldFault)
        → IsFirst (world_checks value) fault → ⊥ }
{}

/// Says that a file's bytes say one thing: one world with its players, or one fault, which is the
/// first; and never neither. Want of memory is no fault of the bytes. It does nothing when it runs.
pub fn a_file_says_one_thing()
    ensures world { (bytes : List ℕ) → (one other : Filed) → Says bytes one → Says bytes other → one ≡ other }
    ensures accepted { (bytes : List ℕ) → (filed : Filed) → (fault : WorldFault) → Lists bytes filed
        → HasFault bytes fault → fault ≡ WorldFault.Memory }
    ensures fault { (bytes : List ℕ) → (one other : WorldFault) → one ≢ WorldFault.Memory
        → other ≢ WorldFault.Memory → HasFault bytes one → HasFault bytes other → one ≡ other }
    ensures something { (bytes : List ℕ) → ((filed : Filed) → Lists bytes filed → ⊥)
        → ((fault : WorldFault) → fault ≢ WorldFault.Memory → HasFault bytes fault → ⊥) → ⊥ }
{}

/// Says that the text of a world that keeps the rules is never longer than a file may be, and that it
/// is an accepted file of that world. It does nothing when it runs.
pub fn a_written_world_is_read_back()
    ensures short { (world : Stored) → IsWritable world → IsOfTypes world → IsShort (written world) }
    ensures listed { (world : Stored) → IsWritable world → IsOfTypes world
        → Lists (written world) (filed_of world) }
{}
