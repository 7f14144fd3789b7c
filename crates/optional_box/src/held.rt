// A pointer to a value on the heap, or null.
ghost use Rattle.std.specs.Prelude.{◌≡◌, ◌<◌, ◌^◌, MatchOption};
ghost use Rattle.std.specs.Option.{option_copied};
ghost use Rattle.std.specs.declared.option.Option.{Option};
ghost use Rattle.std.specs.declared.option.Option.TheVariants.{None, Some};
ghost use denote.RawPtr.{count_of};
ghost use Rattle.optional_box.specs.Held.{owned, lent};

use crate::loose::Loose;
use std::alloc::Global;
use std::marker::Model;
use std::ptr::null_mut;

pub struct Held<T> {
    at: *mut T,
    alloc: Global,
    ghost value: { Option T },
    ghost tested: { count_of at < 2 ^ 63 },
}

impl<T> Model for Held<T> {
    ghost also_owns = { λ h. owned T.row h.alloc h.at h.value };

    ghost also_shares = { λ h _ κ. lent T.row h.at h.value κ };
}

unsafe impl<T: Send> Send for Held<T> {}

unsafe impl<T: Sync> Sync for Held<T> {}

impl<T> Held<T> {
    pub(crate) fn none(alloc: Global) -> Held<T>
        ensures { result.value ≡ None }
    {
        Held {
            at: null_mut(),
            alloc,
        }
    }

    pub(crate) fn of(loose: Loose<T, Global>) -> Held<T>
        ensures { result.value ≡ Some loose.value }
    {
        let Loose { at, alloc } = loose;
        Held { at, alloc }
    }

    pub(crate) fn into_loose(self) -> Option<Loose<T, Global>>
        ensures { MatchOption result (self.value ≡ None) (λ loose. self.value ≡ Some loose.value) }
    {
        let Held { at, alloc } = self;
        if at.is_null() {
            None
        } else {
            Some(Loose { at, alloc })
        }
    }

    pub(crate) fn get(&self) -> Option<&T>
        ensures { option_copied result ≡ self.now.value }
    {
        let at = self.at;
        if at.is_null() {
            None
        } else {
            Some(unsafe { &*at })
        }
    }
}
