// Which types of a module are equal: each has the least index of a type that is equal to it, its class.
ghost use Rattle.std.specs.Prelude.{◌≡◌, ◌<◌, ◌^◌, length, map, IfOk};
ghost use Rattle.wasm_link.specs.inner.Learned.{Learns};
ghost use Rattle.wasm_link.specs.Made.{code_of, result_code, text_of, AreClasses};

use std::alloc::{AllocError, Global};
use std::collections::BTreeMap;
use wasm_module::{FuncType, ValType};

fn byte_of(value: ValType) -> u8
    ensures { result ≡ code_of value }
{
    match value {
        ValType::I32 => 0,
        ValType::I64 => 1,
        ValType::F32 => 2,
        ValType::F64 => 3,
    }
}

fn byte_of_result(result_type: Option<ValType>) -> u8
    ensures { result ≡ result_code result_type }
{
    match result_type {
        Some(value) => byte_of(value),
        None => 4,
    }
}

/// The result and the parameters of a type, a byte each.
fn text(alloc: Global, kind: &FuncType) -> Result<Vec<u8>, AllocError>
    ensures { IfOk result (λ text. text.items ≡ text_of kind.now) }
{
    let params = kind.params.as_slice();
    let mut text = Vec::new(alloc);
    text.push(byte_of_result(kind.result))?;
    let mut at = 0usize;
    while at < params.len() {
        text.push(byte_of(params[at]))?;
        at += 1;
    }
    Ok(text)
}

/// The texts of the types.
fn texts(alloc: Global, types: &[FuncType]) -> Result<Vec<Vec<u8>>, AllocError>
    ensures { IfOk result (λ texts. map (λ text. text.items) texts.items ≡ map text_of types.now) }
{
    let mut list = Vec::new(alloc);
    let mut at = 0usize;
    while at < types.len() {
        list.push(text(alloc, &types[at])?)?;
        at += 1;
    }
    Ok(list)
}

/// The class of a text, which is this number where the text is a new one.
fn class_of<'a>(
    known: &mut BTreeMap<&'a [u8], u32>,
    text: &'a [u8],
    number: u32,
) -> Result<u32, AllocError>
    ensures { IfOk result (Learns known.old known.new text.now number) }
{
    if let Some(class) = known.get(&text).copied() {
        return Ok(class);
    }
    known.insert(text, number)?;
    Ok(number)
}

/// The class of each text.
fn classes_of_texts(alloc: Global, texts: &[Vec<u8>]) -> Result<Vec<u32>, AllocError>
    requires { length texts.now < 2 ^ 32 }
    ensures { IfOk result (λ classes. AreClasses (map (λ text. text.items) texts.now) classes.items) }
{
    let mut known = BTreeMap::new(alloc);
    let mut classes = Vec::new(alloc);
    let mut at = 0usize;
    while at < texts.len() {
        let class = class_of(&mut known, texts[at].as_slice(), at as u32)?;
        classes.push(class)?;
        at += 1;
    }
    Ok(classes)
}

/// The class of each type.
pub(crate) fn classes_of(alloc: Global, types: &[FuncType]) -> Result<Vec<u32>, AllocError>
    requires { length types.now < 2 ^ 32 }
    ensures { IfOk result (λ classes. AreClasses types.now classes.items) }
{
    let list = texts(alloc, types)?;
    classes_of_texts(alloc, list.as_slice())
}
