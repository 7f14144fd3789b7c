// What is counted of objects.
ghost use Rattle.std.specs.Prelude.{◌≡◌, [], ◌∷◌, IfOk, OnOk, MatchBool};
ghost use Rattle.changed_rules.specs.Counts.{most_of};
ghost use Rattle.changed_rules.specs.inner.Parts.{AreFew, Adds, Drops, Exceeds, number_of};

use crate::tally::Tally;
use game_tables::{is_site, most_sites};
use object_store::Object;
use std::alloc::AllocError as NoMemory;

/// What a tally counts: ids, each at most once, or the owners of sites, each with no more than he may have.
#[derive(Clone, Copy)]
pub(crate) enum Counted {
    Ids,
    SiteOwners,
}

// How many objects may be under one number.
fn most_of(counted: Counted) -> u64
    ensures { result ≡ most_of counted }
{
    match counted {
        Counted::Ids => 1,
        Counted::SiteOwners => u64::from(most_sites()),
    }
}

// The number that an object is counted under, where it is counted.
fn number_of(counted: Counted, object: &Object) -> Option<u64>
    ensures { result ≡ number_of counted object.now }
{
    match counted {
        Counted::Ids => Some(object.id),
        Counted::SiteOwners => {
            if is_site(object.kind) {
                Some(u64::from(object.owner))
            } else {
                None
            }
        }
    }
}

/// Adds the objects to a tally, where none is then under a number more often than may be, and says whether it
/// does. Where it does not, and on want of memory, the tally may be any.
pub(crate) fn enter_objects(
    counted: Counted,
    objects: &[Object],
    tally: &mut Tally,
) -> Result<bool, NoMemory>
    requires { AreFew counted tally.old }
    ensures { IfOk result (λ fits. MatchBool fits (Adds counted objects.now tally.old tally.new)
        (Exceeds counted objects.now tally.old)) }
{
    for object in objects {
        if !enter_object(counted, object, tally)? {
            return Ok(false);
        }
    }
    Ok(true)
}

/// Adds the object to a tally, where it is then under its number no more often than may be. Where it does
/// not, and on want of memory, the tally may be any.
pub(crate) fn enter_object(
    counted: Counted,
    object: &Object,
    tally: &mut Tally,
) -> Result<bool, NoMemory>
    requires { AreFew counted tally.old }
    ensures { IfOk result (λ fits. MatchBool fits (Adds counted (object.now ∷ []) tally.old tally.new)
        (Exceeds counted (object.now ∷ []) tally.old)) }
{
    match number_of(counted, object) {
        Some(number) => tally.enter(number, most_of(counted)),
        None => Ok(true),
    }
}

/// Takes the objects out of a tally. On want of memory the tally may be any.
pub(crate) fn leave_objects(
    counted: Counted,
    objects: &[Object],
    tally: &mut Tally,
) -> Result<(), NoMemory>
    ensures { OnOk result (Drops counted objects.now tally.old tally.new) }
{
    for object in objects {
        leave_object(counted, object, tally)?;
    }
    Ok(())
}

// Takes the object out of a tally.
fn leave_object(counted: Counted, object: &Object, tally: &mut Tally) -> Result<(), NoMemory>
    ensures { OnOk result (Drops counted (object.now ∷ []) tally.old tally.new) }
{
    match number_of(counted, object) {
        Some(number) => tally.leave(number),
        None => Ok(()),
    }
}
