// Forms that are made of other forms.
ghost use Rattle.byte_fields.specs.Front.{Begins, BeginsNone, BeginsOnly};

use crate::fields::counted;
use crate::read::{Form, ReadFault};
use byte_fields::Cursor;
use std::alloc::Global;
use std::marker::PhantomData;

/// A value, and another behind it.
pub struct Both<A, B> {
    _first: PhantomData<A>,
    _second: PhantomData<B>,
}

impl<A: Form, B: Form> Form for Both<A, B> {
    type Value = (A::Value, B::Value);

    ghost use Rattle.wasm_values.specs.Spelling.{Then};

    ghost Seen = { A.Seen × B.Seen };

    ghost seen = { λ value. (A.seen value.0, B.seen value.1) };

    ghost spells = { Then A.spells B.spells };

    fn read(alloc: Global, cursor: &mut Cursor) -> Result<(A::Value, B::Value), ReadFault> {
        let first = A::read(alloc, cursor)?;
        let second = B::read(alloc, cursor)?;
        Ok((first, second))
    }
}

/// A size, and so many bytes that are the value.
pub struct Measured<F> {
    _content: PhantomData<F>,
}

impl<F: Form> Form for Measured<F> {
    type Value = F::Value;

    ghost use Rattle.wasm_values.specs.Spelling.{SpellsSized};

    ghost Seen = { F.Seen };

    ghost seen = { F.seen };

    ghost spells = { SpellsSized F.spells };

    fn read(alloc: Global, cursor: &mut Cursor) -> Result<F::Value, ReadFault> {
        let content = counted(cursor)?;
        let mut inside = Cursor::over(content);
        let value = F::read(alloc, &mut inside)?;
        if inside.left() == 0 {
            Ok(value)
        } else {
            Err(ReadFault::Malformed)
        }
    }
}
