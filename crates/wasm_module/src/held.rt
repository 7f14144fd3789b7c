// What the sections of a module hold.
ghost use Rattle.std.specs.Prelude.{◌≡◌, List, ℕ, [], Option, map, Some, None, IfOk, IfErr};
ghost use Rattle.wasm_values.specs.Spelling.{SpellsList};
ghost use Rattle.wasm_module.specs.Sections.{Holds, SpellsStart, content_of as content_of_number};
ghost use Rattle.wasm_module.specs.inner.Parts.{section_view};

use crate::outline::{Section, content_of};
use byte_fields::Cursor;
use std::alloc::Global;
use wasm_values::{Entries, Form, ReadFault, entries};

// Reads the list that the content of a section is.
fn whole_entries<F: Form>(alloc: Global, content: &[u8]) -> Result<Entries<F::Value>, ReadFault>
    ensures found { IfOk result (λ list. SpellsList F.spells content.now (map F.seen list)) }
    ensures only { IfOk result (λ list. (other : List F.Seen) → SpellsList F.spells content.now other
        → other ≡ map F.seen list) }
    ensures malformed { IfErr result (λ e. e ≡ ReadFault.Malformed → (other : List F.Seen)
        → SpellsList F.spells content.now other → ⊥) }
{
    let mut cursor = Cursor::over(content);
    let list = entries::<F>(alloc, &mut cursor)?;
    if cursor.left() == 0 {
        let kept = Entries::of(list)?;
        Ok(kept)
    } else {
        Err(ReadFault::Malformed)
    }
}

/// Reads the list that the section of a number holds, which is empty where there is no such section.
pub(crate) fn held<F: Form>(
    alloc: Global,
    sections: &[Section],
    number: u8,
) -> Result<Entries<F::Value>, ReadFault>
    ensures found { IfOk result
        (λ list. Holds (SpellsList F.spells) [] (content_of_number number (map section_view sections.now))
        (map F.seen list)) }
    ensures only { IfOk result (λ list. (other : List F.Seen)
        → Holds (SpellsList F.spells) [] (content_of_number number (map section_view sections.now)) other
        → other ≡ map F.seen list) }
    ensures malformed { IfErr result (λ e. e ≡ ReadFault.Malformed → (other : List F.Seen)
        → Holds (SpellsList F.spells) [] (content_of_number number (map section_view sections.now)) other
        → ⊥) }
{
    match content_of(sections, number) {
        Some(content) => whole_entries::<F>(alloc, content),
        None => Ok(Entries::new(alloc)),
    }
}

// Reads the index that the content of a section is.
fn whole_index(content: &[u8]) -> Result<u32, ReadFault>
    ensures found { IfOk result (λ index. SpellsStart content.now (Some index)) }
    ensures malformed { IfErr result (λ e. e ≡ ReadFault.Malformed → (other : Option ℕ)
        → SpellsStart content.now other → ⊥) }
    ensures cause { IfErr result (λ e. e ≡ ReadFault.Malformed) }
{
    let mut cursor = Cursor::over(content);
    let index = cursor.leb_u32()?;
    if cursor.left() == 0 {
        Ok(index)
    } else {
        Err(ReadFault::Malformed)
    }
}

/// Reads the index of the start function, where there is a section for it.
pub(crate) fn start_of(sections: &[Section]) -> Result<Option<u32>, ReadFault>
    ensures found { IfOk result
        (λ start. Holds SpellsStart None (content_of_number 8 (map section_view sections.now)) start) }
    ensures malformed { IfErr result (λ e. e ≡ ReadFault.Malformed → (other : Option ℕ)
        → Holds SpellsStart None (content_of_number 8 (map section_view sections.now)) other → ⊥) }
    ensures cause { IfErr result (λ e. e ≡ ReadFault.Malformed) }
{
    match content_of(sections, 8) {
        Some(content) => {
            let index = whole_index(content)?;
            Ok(Some(index))
        }
        None => Ok(None),
    }
}
