// Rules that each object keeps by itself.
ghost use Rattle.std.specs.Prelude.{MatchBool};
ghost use Rattle.std.specs.List.{AllByRecursion};
ghost use Rattle.room_table.specs.declared.object.Object.{Object};
ghost use Rattle.rule_check.specs.inner.Checks.{IsLeast, AnyOf, AnyObject};
ghost use Rattle.rule_check.specs.Views.{IsOrdered};
ghost use Rattle.rule_check.specs.declared.view.RoomView.{RoomView};

use crate::least::lesser;
use crate::view::RoomView;
use object_store::Object;

/// A rule that each object keeps by itself, with what is looked at beside the object and its room.
pub trait ObjectRule {
    ghost broken: { Self → RoomView → Object → Type 0 };

    /// Whether the object, which stands in the room, breaks the rule.
    fn is_broken(&self, room: &RoomView, object: &Object) -> bool
        ensures { MatchBool result (broken self.now room.now object.now) (broken self.now room.now object.now
            → ⊥) };
}

/// The least id of an object that breaks the rule.
pub fn least_object<R: ObjectRule>(rule: &R, rooms: &[RoomView]) -> Option<u64>
    requires { AllByRecursion IsOrdered rooms.now }
    ensures { IsLeast (AnyOf (λ room. AnyObject (R.broken rule.now room) room.objects.now) rooms.now) result }
{
    let mut least = None;
    for room in rooms {
        least = lesser(least, first_object(rule, room));
    }
    least
}

/// The id of the first object of the room that breaks the rule.
pub fn first_object<R: ObjectRule>(rule: &R, room: &RoomView) -> Option<u64>
    requires { IsOrdered room.now }
    ensures { IsLeast (AnyObject (R.broken rule.now room.now) room.now.objects.now) result }
{
    for object in room.objects {
        if rule.is_broken(room, object) {
            return Some(object.id);
        }
    }
    None
}
