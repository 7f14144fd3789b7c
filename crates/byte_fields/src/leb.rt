// The text of a LEB128 number, and the number that it spells.
ghost use Rattle.std.specs.Prelude.{◌≡◌, ℕ, ◌+◌, ◌-◌, ◌*◌, ◌^◌, ◌<◌, ◌≤◌, List, [], ◌∷◌, ◌++◌, ℤ, length};
ghost use Rattle.std.specs.Prelude.{IfSome, IfNone};
ghost use Rattle.byte_fields.specs.Leb.{SpellsSigned, SpellsUnsigned};
ghost use Rattle.byte_fields.specs.inner.Texts.{LebText};

// The bytes up to the first with its high bit clear, which ends a LEB128 number, if it is among the
// first so many.
pub(crate) fn leb_text(bytes: &[u8], most: usize) -> Option<&[u8]>
    ensures whole { IfSome result (λ text. LebText text.now) }
    ensures front { IfSome result (λ text. (rest : List ℕ) × (bytes.entry.now ≡ text.now ++ rest)) }
    ensures most { IfSome result (λ text. length text.now ≤ most) }
    ensures none { IfNone result ((text rest : List ℕ) → LebText text → length text ≤ most
        → bytes.entry.now ≡ text ++ rest → ⊥) }
{
    for last in 0..bytes.len().min(most) {
        if bytes[last] < 0x80 {
            return Some(&bytes[..last + 1]);
        }
    }
    None
}

// The unsigned number of 32 bits that a text spells.
pub(crate) fn unsigned_value(text: &[u8]) -> Option<u32>
    requires whole { LebText text.now }
    requires most { length text.now ≤ 5 }
    ensures spelled { IfSome result (λ value. SpellsUnsigned 32 text.now value) }
    ensures none { IfNone result ((value : ℕ) → SpellsUnsigned 32 text.now value → ⊥) }
{
    let last = text.len() - 1;
    if last == 4 && text[last] >= 0x10 {
        return None;
    }
    let mut value = text[last] as u32;
    for at in (0..last).rev() {
        value = value * 128 + (text[at] - 0x80) as u32;
    }
    Some(value)
}

// The signed number of so many bits that a text spells.
pub(crate) fn signed_value(text: &[u8], width: usize) -> Option<i64>
    requires whole { LebText text.now }
    requires most { 7 * (length text.now - 1) < width }
    requires width { width ≤ 64 }
    ensures spelled { IfSome result (λ value. SpellsSigned width text.now value) }
    ensures none { IfNone result ((value : ℤ) → SpellsSigned width text.now value → ⊥) }
{
    let last = text.len() - 1;
    let mut value = signed_last(text[last], width - 7 * last)?;
    for at in (0..last).rev() {
        value = value * 128 + (text[at] - 0x80) as i64;
    }
    Some(value)
}

// The signed number of so many bits that a last byte spells.
fn signed_last(byte: u8, bits: usize) -> Option<i64>
    requires last { byte < 128 }
    requires bits { 0 < bits }
    ensures spelled { IfSome result (λ value. SpellsSigned bits (byte ∷ []) value) }
    ensures none { IfNone result ((value : ℤ) → SpellsSigned bits (byte ∷ []) value → ⊥) }
{
    let half = 1u8 << (bits.min(7) - 1);
    if byte < half {
        Some(byte as i64)
    } else if byte >= 128 - half {
        Some(byte as i64 - 128)
    } else {
        None
    }
}
