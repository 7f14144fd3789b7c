// What a string stands for.
ghost use Rattle.std.specs.Prelude.{◌≡◌, ℕ, List, ◌++◌, OnOk};
ghost use Rattle.wat_grammar.specs.Tokens.{SpellsString};

use crate::scan::part_at;
use std::alloc::AllocError;

/// Writes a string to the end of bytes, by what stands between its quotation marks. Where memory is refused a
/// first part of it may have been written.
pub fn put_string(out: &mut Vec<u8>, inner: &[u8]) -> Result<(), AllocError>
    requires { (content : List ℕ) × SpellsString inner.now content }
    ensures { OnOk result ((content : List ℕ) × SpellsString inner.now content
        × (out.new.items ≡ out.old.items ++ content)) }
{
    let mut at = 0usize;
    'each: while at < inner.len() {
        let Some((count, byte)) = part_at(inner, at) else {
            unreachable!();
        };
        out.push(byte)?;
        at += count;
    }
    Ok(())
}
