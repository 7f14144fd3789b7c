// The module of each player of a generated world.
ghost use Rattle.std.specs.Prelude.{◌≡◌, ◌∷◌, [], ◌++◌, map, IfOk, OnOk};
ghost use Rattle.wasm_module.specs.Entries.{code_view};
ghost use Rattle.wasm_module.specs.Sections.{module_view};
ghost use Rattle.world_gen.specs.PlayerModule.{host_calls, host_types, imported, loop_codes, loop_exports};
ghost use Rattle.world_gen.specs.PlayerModule.{player_module, takes};

use crate::NoMemory;
use crate::code::body_of;
use crate::player::turns;
use std::alloc::Global;
use wasm_module::{
    Code, Codes, Entries, Export, ExportDesc, Exports, FuncType, FuncTypes, Import, ImportDesc,
    Imports, LocalRun, Module, Name, ValType,
};

/// The module that each player of a generated world runs, whatever its seed and its rooms.
///
/// In each tick each own creep with free room harvests the first source of its room, and one without
/// fills the first own spawn of its room, or drops its load where that is full. What is out of range
/// it steps towards, straight on.
pub fn player_module(alloc: Global) -> Result<Module, NoMemory>
    ensures { IfOk result (λ made. module_view made ≡ player_module) }
{
    let types = host_types(alloc)?;
    let imports = host_calls(alloc)?;
    let list = Vec::from_array(alloc, [5])?;
    let funcs = Entries::of(list)?;
    let exports = loop_export(alloc)?;
    let codes = loop_code(alloc)?;
    Ok(Module {
        types,
        imports,
        funcs,
        tables: Entries::new(alloc),
        memories: Entries::new(alloc),
        globals: Entries::new(alloc),
        exports,
        start: None,
        elements: Entries::new(alloc),
        codes,
        segments: Entries::new(alloc),
    })
}

// The types of the host calls, and that of the function `loop`.
#[tactic(auto, unfolding(crate::specs::PlayerModule::host_types))]
fn host_types(alloc: Global) -> Result<FuncTypes, NoMemory>
    ensures { IfOk result (λ types. types ≡ host_types) }
{
    const I: ValType = ValType::I32;
    const L: ValType = ValType::I64;
    let mut list = Vec::new(alloc);
    add_type(alloc, &mut list, &[], Some(I))?;
    add_type(alloc, &mut list, &[I, I], Some(L))?;
    add_type(alloc, &mut list, &[L, L], Some(I))?;
    add_type(alloc, &mut list, &[L, L, I], Some(I))?;
    add_type(alloc, &mut list, &[L, I], Some(I))?;
    add_type(alloc, &mut list, &[], None)?;
    Entries::of(list)
}

// Adds a function's type at the end of a list.
fn add_type(
    alloc: Global,
    list: &mut Vec<FuncType>,
    params: &[ValType],
    gives: Option<ValType>,
) -> Result<(), NoMemory>
    ensures { OnOk result (list.new.items ≡ list.old.items ++ takes params.now gives ∷ []) }
{
    list.push(takes(alloc, params, gives)?)?;
    Ok(())
}

// A function's type.
fn takes(alloc: Global, params: &[ValType], gives: Option<ValType>) -> Result<FuncType, NoMemory>
    ensures { IfOk result (λ kind. kind ≡ takes params.now gives) }
{
    let list = params.to_vec(alloc)?;
    let params = Entries::of(list)?;
    Ok(FuncType {
        params,
        result: gives,
    })
}

// The host calls that the module imports.
#[tactic(auto, unfolding(crate::specs::PlayerModule::host_calls))]
fn host_calls(alloc: Global) -> Result<Imports, NoMemory>
    ensures { IfOk result (λ imports. imports ≡ host_calls) }
{
    let mut list = Vec::new(alloc);
    add_call(alloc, &mut list, "count", 0)?;
    add_call(alloc, &mut list, "me", 0)?;
    add_call(alloc, &mut list, "get", 1)?;
    add_call(alloc, &mut list, "harvest", 2)?;
    add_call(alloc, &mut list, "transfer", 3)?;
    add_call(alloc, &mut list, "drop", 4)?;
    add_call(alloc, &mut list, "move", 4)?;
    Entries::of(list)
}

// Adds a host call at the end of a list.
fn add_call(alloc: Global, list: &mut Vec<Import>, name: &str, kind: u32) -> Result<(), NoMemory>
    ensures { OnOk result (list.new.items ≡ list.old.items ++ imported name.now kind ∷ []) }
{
    list.push(imported(alloc, name, kind)?)?;
    Ok(())
}

// A host call of a name and a type.
fn imported(alloc: Global, name: &str, kind: u32) -> Result<Import, NoMemory>
    ensures { IfOk result (λ entry. entry ≡ imported name.now kind) }
{
    let module = text(alloc, "screeps")?;
    let name = text(alloc, name)?;
    Ok(Import {
        module,
        name,
        desc: ImportDesc::Func(kind),
    })
}

// The function `loop` is exported.
fn loop_export(alloc: Global) -> Result<Exports, NoMemory>
    ensures { IfOk result (λ exports. exports ≡ loop_exports) }
{
    let name = text(alloc, "loop")?;
    let entry = Export {
        name,
        desc: ExportDesc::Func(7),
    };
    let list = Vec::from_array(alloc, [entry])?;
    let exports = Entries::of(list)?;
    Ok(exports)
}

fn text(alloc: Global, letters: &str) -> Result<Name, NoMemory>
    ensures { IfOk result (λ name. name ≡ letters.now) }
{
    let list = letters.as_bytes().to_vec(alloc)?;
    let name = Entries::of(list)?;
    Ok(name)
}

// The code of the function `loop`, with its three locals.
#[tactic(auto, using(crate::proofs::Wholes::code_whole))]
fn loop_code(alloc: Global) -> Result<Codes, NoMemory>
    ensures { IfOk result (λ codes. map code_view codes ≡ loop_codes) }
{
    let run = LocalRun {
        count: 3,
        value: ValType::I32,
    };
    let runs = Vec::from_array(alloc, [run])?;
    let locals = Entries::of(runs)?;
    let instrs = turns(alloc)?;
    let body = body_of(instrs)?;
    let list = Vec::from_array(alloc, [Code { locals, body }])?;
    let codes = Entries::of(list)?;
    Ok(codes)
}
