// Objects at the front of bytes, read in groups of fields.
ghost use Rattle.std.specs.Prelude.{◌≡◌, ◌+◌, ◌<◌, ◌≤◌, ℕ, true, List, ◌∷◌, map, length, IfOk, OnOk, OnErr};
ghost use Rattle.std.specs.Prelude.{IfSome, IfNone};
ghost use Rattle.game_tables.specs.Kinds.{is_in_rules};
ghost use Rattle.game_tables.specs.Numbers.{kind_number, part_number};
ghost use Rattle.game_tables.specs.declared.kind.Kind.{Kind};
ghost use Rattle.game_tables.specs.declared.kind.Part.{Part};
ghost use Rattle.world_bytes.specs.Forms.{HasObjectForm};
ghost use Rattle.world_bytes.specs.inner.Rows.{Leads, LeadsNone, HasHeadForm, head_row, HasCountsForm};
ghost use Rattle.world_bytes.specs.inner.Rows.{counts_row, HasBodyForm, body_row, object_row};

use crate::fault::NoForm;
use byte_fields::{Cursor, Short};
use game_tables::{is_in_rules, most_parts};
use object_store::{Body, Kind, Object, Part};

/// What an object is, where it stands and whose it is.
#[derive(Clone, Copy)]
pub(crate) struct Head {
    pub id: u64,
    pub kind: Kind,
    pub x: u8,
    pub y: u8,
    pub owner: u32,
}

/// The numbers that an object has.
#[derive(Clone, Copy)]
pub(crate) struct Counts {
    pub hits: u32,
    pub energy: u64,
    pub timer: u32,
    pub extra: u32,
    pub progress: u64,
    pub other: u32,
    pub other_ticks: u32,
}

// Reads the number of a kind in force.
fn read_kind(from: &mut Cursor) -> Result<Kind, NoForm>
    ensures found { IfOk result
        (λ kind. (is_in_rules kind 1 ≡ true) × (from.old.0 ≡ kind_number kind ∷ from.new.0)) }
    ensures none { OnErr result ((kind : Kind) (rest : List ℕ) → is_in_rules kind 1 ≡ true
        → from.old.0 ≡ kind_number kind ∷ rest → ⊥) }
    ensures place { OnOk result (from.new.1 ≡ from.old.1 + 1) }
{
    let number = from.u8()?;
    match Kind::of_number(number) {
        Some(kind) if is_in_rules(kind, 1) => Ok(kind),
        _ => Err(NoForm),
    }
}

// Reads the column or the row of a tile.
fn read_coordinate(from: &mut Cursor) -> Result<u8, NoForm>
    ensures found { IfOk result (λ at. (at ≤ 49) × (from.old.0 ≡ at ∷ from.new.0)) }
    ensures none { OnErr result ((at : ℕ) (rest : List ℕ) → at ≤ 49 → from.old.0 ≡ at ∷ rest → ⊥) }
    ensures place { OnOk result (from.new.1 ≡ from.old.1 + 1) }
{
    let at = from.u8()?;
    if at > 49 {
        return Err(NoForm);
    }
    Ok(at)
}

// Reads what an object is.
fn read_head(from: &mut Cursor) -> Result<Head, NoForm>
    ensures found { IfOk result (λ head. Leads HasHeadForm head_row from.old.0 head from.new.0) }
    ensures none { OnErr result (LeadsNone HasHeadForm head_row from.old.0) }
    ensures place { OnOk result (from.new.1 ≡ from.old.1 + 15) }
{
    let id = from.u64()?;
    let kind = read_kind(from)?;
    let x = read_coordinate(from)?;
    let y = read_coordinate(from)?;
    let owner = from.u32()?;
    Ok(Head {
        id,
        kind,
        x,
        y,
        owner,
    })
}

// Reads an object's numbers.
fn read_counts(from: &mut Cursor) -> Result<Counts, Short>
    ensures found { IfOk result (λ counts. Leads HasCountsForm counts_row from.old.0 counts from.new.0) }
    ensures short { OnErr result (length from.old.0 < 36) }
    ensures place { OnOk result (from.new.1 ≡ from.old.1 + 36) }
{
    let hits = from.u32()?;
    let energy = from.u64()?;
    let timer = from.u32()?;
    let extra = from.u32()?;
    let progress = from.u64()?;
    let other = from.u32()?;
    let other_ticks = from.u32()?;
    Ok(Counts {
        hits,
        energy,
        timer,
        extra,
        progress,
        other,
        other_ticks,
    })
}

// The body of these part numbers.
fn body_of(numbers: &[u8]) -> Option<Body>
    requires { length numbers.now ≤ 50 }
    ensures some { IfSome result (λ body. numbers.now ≡ map part_number body) }
    ensures none { IfNone result ((body : List Part) → numbers.now ≡ map part_number body → ⊥) }
{
    let mut body = Body::new();
    'each: for number in numbers {
        let Some(part) = Part::of_number(*number) else {
            return None;
        };
        body.push(part);
    }
    Some(body)
}

/// Reads a body, behind the number of its parts. Where there is none, the cursor may stand anywhere.
pub(crate) fn read_body(from: &mut Cursor) -> Result<Body, NoForm>
    ensures found { IfOk result (λ body. Leads HasBodyForm body_row from.old.0 body from.new.0) }
    ensures none { OnErr result (LeadsNone HasBodyForm body_row from.old.0) }
    ensures place { IfOk result (λ body. from.new.1 ≡ from.old.1 + (1 + length body)) }
{
    let count = from.u8()?;
    if u32::from(count) > most_parts() {
        return Err(NoForm);
    }
    let numbers = from.take(count as usize)?;
    match body_of(numbers) {
        Some(body) => Ok(body),
        None => Err(NoForm),
    }
}

/// Reads the object at the front. Where there is none, the cursor may stand anywhere.
pub(crate) fn read_object(from: &mut Cursor) -> Result<Object, NoForm>
    ensures found { IfOk result (λ object. Leads HasObjectForm object_row from.old.0 object from.new.0) }
    ensures none { OnErr result (LeadsNone HasObjectForm object_row from.old.0) }
    ensures place { OnOk result (from.new.1 + length from.new.0 ≡ from.old.1 + length from.old.0) }
{
    let head = read_head(from)?;
    let counts = read_counts(from)?;
    let body = read_body(from)?;
    Ok(Object {
        id: head.id,
        kind: head.kind,
        x: head.x,
        y: head.y,
        owner: head.owner,
        hits: counts.hits,
        energy: counts.energy,
        timer: counts.timer,
        extra: counts.extra,
        progress: counts.progress,
        other: counts.other,
        other_ticks: counts.other_ticks,
        body,
    })
}
