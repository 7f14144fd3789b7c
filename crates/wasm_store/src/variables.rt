// The values of global variables.
ghost use Rattle.std.specs.Prelude.{◌≡◌, ◌<◌, IfOk, length, replicate, slice_index, slice_set};

use std::alloc::{AllocError, Global};
use std::marker::Model;

/// The values of a module's global variables, an `i32` in the low 32 bits.
#[derive(Drop)]
pub struct GlobalValues {
    values: Vec<u64>,
}

impl Model for GlobalValues {
    ghost use Rattle.std.specs.Prelude.{List, ℕ};

    ghost Value = { List ℕ };

    ghost view = { λ g. g.values.items };
}

impl GlobalValues {
    /// So many variables, each 0.
    pub fn new(alloc: Global, n: u32) -> Result<GlobalValues, AllocError>
        ensures { IfOk result (λ g. g ≡ replicate n 0) }
    {
        let mut values = Vec::new(alloc);
        values.resize(n as usize, 0)?;
        Ok(GlobalValues { values })
    }

    /// Variables of these values.
    pub fn of(alloc: Global, values: &[u64]) -> Result<GlobalValues, AllocError>
        ensures { IfOk result (λ g. g ≡ values.now) }
    {
        let mut copied = Vec::with_capacity(alloc, values.len())?;
        copied.extend_from_slice(values)?;
        Ok(GlobalValues { values: copied })
    }

    /// The value of variable `i`.
    #[inline]
    pub fn get(&self, i: u32) -> u64
        requires { i < length self.now }
        ensures { result ≡ slice_index self.now i }
    {
        self.values[i as usize]
    }

    /// Gives variable `i` a value.
    #[inline]
    pub fn set(&mut self, i: u32, value: u64)
        requires { i < length self.old }
        ensures { self.new ≡ slice_set self.old i value }
    {
        self.values[i as usize] = value;
    }
}
