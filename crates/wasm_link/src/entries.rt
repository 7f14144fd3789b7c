// The functions of a linked module, in entries of one size.

/// A function, with what a call of it needs.
#[derive(Clone, Copy)]
pub(crate) enum Entry {
    /// A call of the host: the index of its type, and its number.
    Imported {
        kind: u32,
        call: u32,
    },
    /// A function of the module: the index of its type, the place of its code, and how many parameters it
    /// has, how many locals more and
    /// how many results.
    Defined {
        kind: u32,
        place: u32,
        params: u32,
        more: u32,
        results: u32,
    },
}

impl Entry {
    ghost use Rattle.std.specs.Prelude.{◌≡◌};
    ghost use Rattle.wasm_link.specs.Made.{kind_of};

    /// The index of its type.
    #[inline]
    pub fn kind(self) -> u32
        ensures { result ≡ kind_of self }
    {
        match self {
            Entry::Imported { kind, .. } => kind,
            Entry::Defined { kind, .. } => kind,
        }
    }
}
