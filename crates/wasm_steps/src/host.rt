// What answers the calls of a module.
ghost use Rattle.std.specs.Prelude.{◌≡◌, ℕ, ℤ, List, length};
ghost use Rattle.wasm_store.specs.Memory.{Memory};

use wasm_store::Pages;

/// A host, which answers the calls of a module.
pub trait Host {
    /// From a state of the host: the call of a number with these arguments on this memory is answered so, the
    /// memory
    /// is then this one, and the host in that state.
    ghost answers: { Self → ℕ → List ℤ → Memory → ℤ → Memory → Self → Type 0 };

    /// Answers the call of a number. Arguments of type i32 are sign-extended; of an answer of type i32 the
    /// low 32
    /// bits count. It may write the memory, and keeps its size.
    fn answer(&mut self, call: u32, args: &[i64], pages: &mut Pages) -> i64
        ensures answered { answers self.old call args.now pages.old result pages.new self.new }
        ensures size { length pages.new.bytes ≡ length pages.old.bytes }
        ensures limit { pages.new.limit ≡ pages.old.limit };
}
