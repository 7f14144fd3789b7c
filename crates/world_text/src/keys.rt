// Single keys of a part of a world file.
ghost use Rattle.std.specs.Prelude.{◌≡◌, ◌≤◌, ◌<◌, Some, IfOk, IfErr};
ghost use Rattle.serde_json.specs.View.{view, items_view};
ghost use Rattle.serde_json.specs.Find.{get};
ghost use Rattle.world_form.specs.Keys.{key};
ghost use Rattle.world_form.specs.Facts.{Requires, Defaults, IsWhole, IsList};
ghost use Rattle.world_form.specs.FirstFaults.{IsAbsent, required, optional};

use crate::values::number_of;
use serde_json::Value;
use world_form::{Field, WorldFault};

/// The value of a key that must be there.
pub fn required_value(part: &Value, field: Field) -> Result<&Value, WorldFault>
    ensures ok { IfOk result (λ value. get (key field) (view part.now) ≡ Some (view value.now)) }
    ensures err { IfErr result (λ e. IsAbsent field (view part.now) × (e ≡ WorldFault.Missing field)) }
{
    match part.get(field.key()) {
        Some(value) => Ok(value),
        None => Err(WorldFault::Missing(field)),
    }
}

/// A required whole number in a range.
pub fn required_number(
    part: &Value,
    field: Field,
    place: u64,
    low: u64,
    high: u64,
) -> Result<u64, WorldFault>
    ensures ok { IfOk result (Requires field (IsWhole low high) (view part.now)) }
    ensures within { IfOk result (λ n. n ≤ high) }
    ensures err { IfErr result (required field (IsWhole low high) place (view part.now)).Fails }
{
    let value = required_value(part, field)?;
    match number_of(value, low, high) {
        Some(number) => Ok(number),
        None => Err(WorldFault::BadValue(field, place)),
    }
}

/// A whole number from 0 on, which is the default where the key is absent.
pub fn optional_number(
    part: &Value,
    field: Field,
    place: u64,
    default: u64,
    high: u64,
) -> Result<u64, WorldFault>
    requires { default ≤ high }
    ensures ok { IfOk result (Defaults field (IsWhole 0 high) default (view part.now)) }
    ensures within { IfOk result (λ n. n ≤ high) }
    ensures err { IfErr result (optional field (IsWhole 0 high) place (view part.now)).Fails }
{
    let Some(value) = part.get(field.key()) else {
        return Ok(default);
    };
    match number_of(value, 0, high) {
        Some(number) => Ok(number),
        None => Err(WorldFault::BadValue(field, place)),
    }
}

/// A required list.
pub fn required_list(part: &Value, field: Field, place: u64) -> Result<&[Value], WorldFault>
    ensures ok { IfOk result (λ values. Requires field IsList (view part.now) (items_view values.now)) }
    ensures err { IfErr result (required field IsList place (view part.now)).Fails }
{
    let value = required_value(part, field)?;
    match value.as_array() {
        Some(values) => Ok(values),
        None => Err(WorldFault::BadValue(field, place)),
    }
}
