// The types on the stack, as far as they are known.
ghost use Rattle.std.specs.Prelude.{◌≡◌, ◌+◌, ◌≤◌, List, [], ◌∷◌, ◌++◌, length, reverse, OnOk, IfOk, Some};
ghost use Rattle.std.specs.Prelude.{None, true, false};
ghost use Rattle.wasm_values.specs.Syntax.{select as op_select, drop_value};
ghost use Rattle.wasm_typing.specs.Typing.{types_of};
ghost use Rattle.wasm_typing.specs.inner.Stands.{State, Fits, Exactly, Joins, TopOff, Pops, Applies, Ends};
ghost use Rattle.wasm_typing.specs.inner.Stands.{pushed, Checks};

use std::alloc::{AllocError, Global};
use std::marker::Model;
use wasm_module::ValType;

/// What `enter` keeps of the outer block.
#[derive(Clone, Copy)]
pub(crate) struct Outer {
    pub base: usize,
    pub is_open: bool,
}

/// The entries of all open blocks, the top last: those of the innermost block begin at `base`.
///
/// An entry of `None` stands for any one type, and an open bottom for any types below the entries.
#[derive(Drop)]
pub(crate) struct Operands {
    entries: Vec<Option<ValType>>,
    base: usize,
    is_open: bool,
}

impl Model for Operands {
    ghost use Rattle.std.specs.Prelude.{◌≤◌, length, reverse, take, drop};
    ghost use Rattle.wasm_typing.specs.inner.Stands.{State};

    ghost Value = { State };

    ghost view = { λ operands. (
      operands.is_open,
      reverse (drop operands.base operands.entries.items),
      reverse
          (take operands.base operands.entries.items),
    ) };

    ghost invariant = { λ operands. operands.base ≤ length operands.entries.items };
}

// Whether the entry may be of this type.
fn fits(entry: Option<ValType>, value: ValType) -> bool
    ensures { Exactly (Fits entry value) result }
{
    match entry {
        None => true,
        Some(known) => known == value,
    }
}

// The entry for the types that fit both.
fn joined(one: Option<ValType>, other: Option<ValType>) -> Option<Option<ValType>>
    ensures { Joins one other result }
{
    match one {
        None => Some(other),
        Some(value) => { if fits(other, value) { Some(one) } else { None } }
    }
}

impl Operands {
    /// An empty stack with a closed bottom. It takes no memory.
    pub fn new(alloc: Global) -> Operands
        ensures { result ≡ (false, [], []) }
    {
        Operands {
            entries: Vec::new(alloc),
            base: 0,
            is_open: false,
        }
    }

    /// Goes back to the empty stack, and keeps the room.
    pub fn clear(&mut self)
        ensures { self.new ≡ (false, [], []) }
    {
        self.entries.clear();
        self.base = 0;
        self.is_open = false;
    }

    fn push(&mut self, entry: Option<ValType>) -> Result<(), AllocError>
        ensures { OnOk result (self.new ≡ (self.old.0, entry ∷ self.old.1, self.old.2)) }
    {
        self.entries.push(entry)?;
        Ok(())
    }

    fn pop(&mut self) -> Option<Option<ValType>>
        ensures { TopOff self.old self.new result }
    {
        if self.entries.len() == self.base {
            if self.is_open {
                return Some(None);
            }
            return None;
        }
        self.entries.pop()
    }

    // Whether no entry is left above an open bottom: any types stand there.
    fn is_anything(&self) -> bool
        ensures { Exactly ((self.now.0 ≡ true) × (self.now.1 ≡ [])) result }
    {
        self.is_open && self.entries.len() == self.base
    }

    /// Forgets what is on the stack: any types may be there from here on.
    pub fn set_open(&mut self)
        ensures { self.new ≡ (true, [], self.old.2) }
    {
        self.entries.truncate(self.base);
        self.is_open = true;
    }

    /// Takes these types off the top, the last of them on top. It takes no more steps than there are entries,
    /// and one.
    pub fn pop_types(&mut self, types: &[ValType]) -> bool
        ensures { Pops (reverse types.now) self.old self.new result }
    {
        let mut left = types.len();
        while left > 0 {
            if self.is_anything() {
                return true;
            }
            left -= 1;
            let Some(entry) = self.pop() else {
                return false;
            };
            if !fits(entry, types[left]) {
                return false;
            }
        }
        true
    }

    /// Takes a result off the top.
    pub fn pop_kind(&mut self, kind: Option<ValType>) -> bool
        ensures { Pops (types_of kind) self.old self.new result }
    {
        match kind {
            None => self.pop_types(&[]),
            Some(value) => self.pop_types(&[value]),
        }
    }

    /// Puts a result on top.
    pub fn push_kind(&mut self, kind: Option<ValType>) -> Result<(), AllocError>
        ensures { OnOk result (self.new ≡ pushed (types_of kind) self.old) }
    {
        if let Some(_) = kind {
            self.push(kind)?;
        }
        Ok(())
    }

    /// Takes types off the top, and puts a result there.
    pub fn apply(&mut self, types: &[ValType], kind: Option<ValType>) -> Result<bool, AllocError>
        ensures { IfOk result (λ b. Applies (reverse types.now) (types_of kind) self.old self.new b) }
    {
        if !self.pop_types(types) {
            return Ok(false);
        }
        self.push_kind(kind)?;
        Ok(true)
    }

    /// Takes one value of any type off the top.
    pub fn drop_one(&mut self) -> bool
        ensures { (cx labels : _) → Checks cx labels drop_value self.old self.new result }
    {
        match self.pop() {
            Some(_) => true,
            None => false,
        }
    }

    /// Takes an i32 and two values of one type off the top, and puts one of that type there.
    pub fn select(&mut self) -> Result<bool, AllocError>
        ensures { IfOk result (λ b. (cx labels : _) → Checks cx labels op_select self.old self.new b) }
    {
        if !self.pop_types(&[ValType::I32]) {
            return Ok(false);
        }
        let Some(one) = self.pop() else {
            return Ok(false);
        };
        let Some(other) = self.pop() else {
            return Ok(false);
        };
        let Some(entry) = joined(one, other) else {
            return Ok(false);
        };
        self.push(entry)?;
        Ok(true)
    }

    /// Begins a block.
    pub fn enter(&mut self) -> Outer
        ensures inside { self.new ≡ (false, [], self.old.1 ++ self.old.2) }
        ensures outer { (result.base ≡ length self.old.2) × (result.is_open ≡ self.old.0) }
    {
        let outer = Outer {
            base: self.base,
            is_open: self.is_open,
        };
        self.base = self.entries.len();
        self.is_open = false;
        outer
    }

    /// Whether exactly this is on the stack of a block, at its end.
    pub fn ends(&mut self, kind: Option<ValType>) -> bool
        ensures { Ends (types_of kind) self.old self.new result }
    {
        if !self.pop_kind(kind) {
            return false;
        }
        self.is_bare()
    }

    fn is_bare(&self) -> bool
        ensures { Exactly (self.now.1 ≡ []) result }
    {
        self.entries.len() == self.base
    }

    /// Goes back to the outer block, at the end of a block that left nothing.
    pub fn leave(&mut self, outer: Outer)
        requires within { outer.base ≤ length self.old.2 }
        ensures { (here below : _) → self.old.1 ≡ [] → self.old.2 ≡ here ++ below → outer.base ≡ length below
            → self.new ≡ (outer.is_open, here, below) }
    {
        self.base = outer.base;
        self.is_open = outer.is_open;
    }
}
