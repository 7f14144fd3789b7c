// A value on the heap, or none, in the room of one pointer.
#![tactic(auto)]

ghost use Rattle.std.specs.Prelude.{◌≡◌, MatchOption};
ghost use Rattle.std.specs.Option.{option_copied};
ghost use Rattle.std.specs.declared.option.Option.TheVariants.{None, Some};

mod held;
mod loose;

use held::Held;
use loose::Loose;
use std::alloc::Global;
use std::marker::Model;
use std::mem::{replace, size_of};

/// A value on the heap, or none, in the room of one pointer. Contracts see the value as an `Option`.
pub struct OptionalBox<T> {
    held: Held<T>,
    alloc: Global,
}

impl<T> Model for OptionalBox<T> {
    ghost use Rattle.std.specs.declared.option.Option.{Option};

    ghost Value = { Option T };

    ghost view = { λ optional. optional.held.value };
}

const _: () = prove!(size_of::<OptionalBox<u64>>() == 8);

impl<T> OptionalBox<T> {
    /// No value. It takes no memory.
    pub fn none(alloc: Global) -> OptionalBox<T>
        ensures { result ≡ None }
    {
        OptionalBox {
            held: Held::none(alloc),
            alloc,
        }
    }

    /// The allocator that its value goes back to.
    pub fn allocator(&self) -> Global {
        self.alloc
    }

    /// The value.
    pub fn get(&self) -> Option<&T>
        ensures { option_copied result ≡ self.now }
    {
        self.held.get()
    }
}

impl<T: Drop> OptionalBox<T> {
    /// The value of a box. It takes no memory.
    pub fn of(value: Box<T>) -> OptionalBox<T>
        ensures { result ≡ Some value.value }
    {
        let alloc = *Box::allocator(&value);
        OptionalBox {
            held: Held::of(Loose::of(value)),
            alloc,
        }
    }

    /// The value in a box. It takes no memory.
    pub fn into_box(self) -> Option<Box<T>>
        ensures { MatchOption result (self ≡ None) (λ value. self ≡ Some value.value) }
    {
        let OptionalBox { held, alloc: _ } = self;
        match held.into_loose() {
            Some(loose) => Some(loose.into_box()),
            None => None,
        }
    }

    /// Takes the value out, so that there is none.
    pub fn take(&mut self) -> Option<Box<T>>
        ensures taken { MatchOption result (self.old ≡ None) (λ value. self.old ≡ Some value.value) }
        ensures left { self.new ≡ None }
    {
        let empty = OptionalBox::none(self.alloc);
        replace(self, empty).into_box()
    }
}

impl<T: Drop> Drop for OptionalBox<T> {
    fn drop(self) {
        drop(self.into_box());
    }
}
