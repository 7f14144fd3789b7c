// The sections of a module, as they stand.
ghost use Rattle.std.specs.Prelude.{◌≡◌, ◌↔◌, List, ℕ, map, IfOk, IfErr, IsTrue, MatchOption, Some, None};
ghost use Rattle.byte_fields.specs.Front.{Begins, BeginsNone, BeginsOnly};
ghost use Rattle.wasm_values.specs.Spelling.{SpellsEach};
ghost use Rattle.wasm_module.specs.Sections.{AreOrdered, IsCustom, SpellsSection};
ghost use Rattle.wasm_module.specs.Sections.{content_of as content_of_number};
ghost use Rattle.wasm_module.specs.inner.Parts.{section_view};

use byte_fields::Cursor;
use std::alloc::Global;
use std::str;
use wasm_values::{ReadFault, counted};

/// A section: its number, and its content.
#[derive(Clone, Copy)]
pub(crate) struct Section<'a> {
    number: u8,
    content: &'a [u8],
}

// Reads the section at the front.
fn next_section<'a>(cursor: &mut Cursor<'a>) -> Result<Section<'a>, ReadFault>
    ensures found { IfOk result
        (λ section. Begins SpellsSection cursor.old.0 (section_view section) cursor.new.0) }
    ensures only { IfOk result
        (λ section. BeginsOnly SpellsSection cursor.old.0 (section_view section) cursor.new.0) }
    ensures malformed { IfErr result (λ e. e ≡ ReadFault.Malformed → BeginsNone SpellsSection cursor.old.0) }
    ensures cause { IfErr result (λ e. e ≡ ReadFault.Malformed) }
{
    let number = cursor.u8()?;
    let content = counted(cursor)?;
    Ok(Section { number, content })
}

/// Splits the bytes into sections.
pub(crate) fn split<'a>(alloc: Global, bytes: &'a [u8]) -> Result<Vec<Section<'a>>, ReadFault>
    ensures found { IfOk result
        (λ list. SpellsEach SpellsSection bytes.entry.now (map section_view list.items)) }
    ensures only { IfOk result (λ list. (other : List (ℕ × List ℕ))
        → SpellsEach SpellsSection bytes.entry.now other → other ≡ map section_view list.items) }
    ensures malformed { IfErr result (λ e. e ≡ ReadFault.Malformed → (other : List (ℕ × List ℕ))
        → SpellsEach SpellsSection bytes.entry.now other → ⊥) }
{
    let mut cursor = Cursor::over(bytes);
    let mut list = Vec::new(alloc);
    'each: while cursor.left() > 0 {
        let next = next_section(&mut cursor)?;
        list.push(next)?;
    }
    Ok(list)
}

// Whether the content begins with a name.
fn is_custom(content: &[u8]) -> bool
    ensures { IsTrue result ↔ IsCustom content.now }
{
    let mut cursor = Cursor::over(content);
    let Ok(text) = counted(&mut cursor) else {
        return false;
    };
    match str::from_utf8(text) {
        Ok(_) => true,
        Err(_) => false,
    }
}

/// Whether the custom sections are well formed, and the numbers of the others rise.
pub(crate) fn are_ordered(sections: &[Section]) -> bool
    ensures { IsTrue result ↔ AreOrdered 0 (map section_view sections.now) }
{
    let mut last = 0;
    'each: for section in sections {
        if section.number == 0 {
            if !is_custom(section.content) {
                return false;
            }
        } else {
            if section.number <= last || section.number > 11 {
                return false;
            }
            last = section.number;
        }
    }
    true
}

/// The content of the section of a number.
pub(crate) fn content_of<'a>(sections: &[Section<'a>], number: u8) -> Option<&'a [u8]>
    ensures { MatchOption result (content_of_number number (map section_view sections.entry.now) ≡ None)
        (λ content. content_of_number number (map section_view sections.entry.now) ≡ Some content.now) }
{
    for section in sections {
        if section.number == number {
            return Some(section.content);
        }
    }
    None
}
