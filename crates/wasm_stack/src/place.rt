// Places in instructions.
ghost use Rattle.std.specs.Prelude.{◌≡◌, true, MatchOption};
ghost use Rattle.wasm_values.specs.Syntax.{no_ops, next as next_op};
ghost use Rattle.wasm_values.specs.View.{instr_view, items_view};

use wasm_module::Instr;

/// A place in a list of instructions: those that are left of it.
#[derive(Clone, Copy)]
pub struct Place<'a> {
    pub code: &'a [Instr],
}

impl<'a> Place<'a> {
    ghost use Rattle.wasm_stack.specs.View.{ops_at, rest_of};

    /// Takes the next instruction, where one is left.
    #[inline]
    pub fn next(&mut self) -> Option<&'a Instr>
        ensures left { MatchOption result (ops_at self.old ≡ no_ops)
            (λ instr. ops_at self.old ≡ next_op (instr_view instr.now) (ops_at self.new)) }
        ensures behind { MatchOption result (self.new ≡ self.old) (λ _.
            ops_at self.new ≡ rest_of true self.old) }
    {
        let (instr, rest) = self.code.split_first()?;
        self.code = rest;
        Some(instr)
    }

    /// The place behind the next instruction.
    #[inline]
    pub(crate) fn behind(&self) -> Place<'a>
        ensures { ops_at result ≡ rest_of true self.now }
    {
        match self.code.split_first() {
            Some((_, rest)) => Place { code: rest },
            None => *self,
        }
    }
}
