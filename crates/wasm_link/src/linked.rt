// Linked modules.
ghost use Rattle.std.specs.Prelude.{◌≡◌, ◌≤◌, ◌<◌, ◌^◌, ◌↔◌, ℕ, List, [], length, All, None, Some, slice_get};
ghost use Rattle.std.specs.Prelude.{IfOk, IfErr, IfSome, IsTrue};
ghost use Rattle.wasm_module.specs.Limits.{IsWithin, WithinBytes};
ghost use Rattle.wasm_module.specs.Sections.{Spells, module_view};
ghost use Rattle.wasm_validate.specs.Modules.{IsValid};
ghost use Rattle.wasm_link.specs.Linking.{IsLinked, IsFault, IsLinkable};
ghost use Rattle.wasm_link.specs.Kept.{IsKept, IsMost, link_of, link_view};
ghost use Rattle.wasm_link.specs.Made.{AreBusy, IsCounted};
ghost use Rattle.wasm_link.specs.inner.Beginnings.{IsReady};

use crate::beginning::{Beginning, beginning_of};
use crate::classes::classes_of;
use crate::entries::Entry;
use crate::exports::find_loop;
use crate::fault::LinkFault;
use crate::functions::own_functions;
use crate::imports::{call_numbers, imported_functions, most_params};
use crate::segments::first_misfit;
use crate::stored::{Stored, memory_of, table_of};
use std::alloc::{AllocError as NoMemory, Global};
use std::marker::Model;
use wasm_module::{FuncType, HostSig, Instr, Module};
use wasm_store::GlobalValues;
use wasm_validate::Valid;

/// What a call leads to.
#[derive(Clone, Copy)]
pub enum Callee<'a> {
    /// A call of the host, by its number, and its type.
    Imported {
        call: u32,
        kind: &'a FuncType,
    },
    /// A function of the module: how many parameters it has, how many locals more, how many results, and its
    /// body.
    Defined {
        params: usize,
        more: usize,
        results: usize,
        body: &'a [Instr],
    },
}

/// What linking makes of the parts of a module.
#[derive(Drop)]
struct Parts {
    functions: Vec<Entry>,
    classes: Vec<u32>,
    most: usize,
    main: u32,
}

/// The parts of a module, with what an instance begins with.
#[derive(Drop)]
struct Made {
    parts: Parts,
    beginning: Beginning,
}

/// A module that links against the calls of a host. Contracts see the module, its functions and its function
/// `loop`.
pub struct Linked {
    valid: Valid,
    functions: Vec<Entry>,
    classes: Vec<u32>,
    most: usize,
    main: u32,
    beginning: Beginning,
}

impl Drop for Linked {
    fn drop(self) {
        let Linked {
            valid: _,
            functions: _,
            classes: _,
            most: _,
            main: _,
            beginning: _,
        } = self;
    }
}

impl Model for Linked {
    ghost use Rattle.wasm_link.specs.Kept.{Kept};
    ghost use Rattle.wasm_link.specs.inner.Beginnings.{IsReady};
    ghost use Rattle.wasm_module.specs.Sections.{module_view};
    ghost use Rattle.std.specs.Coded.{codes};
    ghost use Rattle.wasm_module.specs.contracts.module.Module as whole_row;
    ghost use Rattle.wasm_link.specs.contracts.entries.Entry as entry_row;

    ghost Value = { Kept };

    ghost coded = { Prim.hlevel (codes, whole_row.the_row.coded, entry_row.the_row.coded) };

    ghost view = { λ linked. record {
      whole = linked.valid;
      entries = linked.functions.items;
      main = linked.main;
    } };

    ghost invariant = { λ linked. IsReady (module_view linked.valid) linked.functions.items
        linked.classes.items linked.most linked.main linked.beginning };
}

/// The parts of a module, each looked at in the order of the refusals.
fn parts_of(alloc: Global, whole: &Module, sigs: &[HostSig]) -> Result<Parts, LinkFault>
    requires valid { IsValid (module_view whole.now) }
    requires within { IsWithin (module_view whole.now) }
    requires counted { IsCounted (module_view whole.now) }
    requires few { length sigs.now < 2 ^ 32 }
    requires busy { AreBusy sigs.now }
    ensures kept { IfOk result
        (λ parts. IsKept
        (module_view whole.now) parts.functions.items parts.classes.items parts.most parts.main) }
    ensures linked { IfOk result
        (λ parts. IsLinked sigs.now (module_view whole.now)
        (link_of (module_view whole.now) parts.functions.items parts.main)) }
    ensures fault { IfErr result (IsFault sigs.now (module_view whole.now)) }
{
    let types = whole.types.as_slice();
    let imports = whole.imports.as_slice();
    let calls = call_numbers(alloc, sigs, imports)?;
    let most = most_params(sigs, calls.as_slice());
    let mut functions = imported_functions(alloc, sigs, types, imports, calls.as_slice())?;
    let own = own_functions(alloc, whole)?;
    functions.extend_from_slice(own.as_slice())?;
    let Some(main) = find_loop(types, functions.as_slice(), whole.exports.as_slice()) else {
        return Err(LinkFault::NoLoop);
    };
    if let Some(place) = first_misfit(whole) {
        return Err(LinkFault::Segment(place));
    }
    let classes = classes_of(alloc, types)?;
    Ok(Parts {
        functions,
        classes,
        most,
        main,
    })
}

/// The parts of a module, and what an instance of it begins with.
fn made_of(alloc: Global, whole: &Module, sigs: &[HostSig]) -> Result<Made, LinkFault>
    requires valid { IsValid (module_view whole.now) }
    requires within { IsWithin (module_view whole.now) }
    requires counted { IsCounted (module_view whole.now) }
    requires few { length sigs.now < 2 ^ 32 }
    requires busy { AreBusy sigs.now }
    ensures ready { IfOk result
        (λ made. IsReady
        (module_view whole.now) made.parts.functions.items made.parts.classes.items made.parts.most
        made.parts.main made.beginning) }
    ensures linked { IfOk result
        (λ made. IsLinked sigs.now (module_view whole.now)
        (link_of (module_view whole.now) made.parts.functions.items made.parts.main)) }
    ensures fault { IfErr result (IsFault sigs.now (module_view whole.now)) }
{
    let parts = parts_of(alloc, whole, sigs)?;
    let beginning = beginning_of(alloc, whole)?;
    Ok(Made { parts, beginning })
}

/// Links a module against the calls that a host offers: WebAssembly Core 1.0, chapter 4.5.4, where imports
/// are the host's alone.
///
/// All imports are looked at for their names first, then all of them for their types; then the export `loop`,
/// then the segments of the
/// table, then those of the memory. The first that is refused says the fault.
pub fn link(alloc: Global, valid: Valid, sigs: &[HostSig]) -> Result<Linked, LinkFault>
    requires within { IsWithin (module_view valid) }
    requires spelled { (bytes : List ℕ) × WithinBytes bytes × Spells bytes (module_view valid) }
    requires few { length sigs.now < 2 ^ 32 }
    requires plain { All (λ sig. sig.params.now ≡ [] → sig.result ≡ None → ⊥) sigs.now }
    ensures linked { IfOk result (λ linked. IsLinked sigs.now (module_view valid) (link_view linked)) }
    ensures fault { IfErr result (IsFault sigs.now (module_view valid)) }
    ensures complete { IsLinkable sigs.now (module_view valid) → IfErr result (λ e. e ≡ LinkFault.Memory) }
{
    let whole = valid.module();
    let made = made_of(alloc, whole, sigs)?;
    let parts = made.parts;
    Ok(Linked {
        valid,
        functions: parts.functions,
        classes: parts.classes,
        most: parts.most,
        main: parts.main,
        beginning: made.beginning,
    })
}

impl Linked {
    ghost use Rattle.wasm_steps.specs.Program.{Function, imported, type_of};
    ghost use Rattle.wasm_values.specs.declared.types.FuncType.{FuncType};
    ghost use Rattle.wasm_soundness.specs.Typed.{IsTypedProgram, IsTypedStore};
    ghost use Rattle.wasm_typing.specs.Context.{module_context};
    ghost use Rattle.wasm_link.specs.Linking.{first_store};
    ghost use Rattle.wasm_link.specs.Callee.{IsCallee, IsEntry, store_view};

    /// The function that runs before all others.
    pub fn start(&self) -> Option<u32>
        ensures start { result ≡ (link_view self.now).whole.start }
        ensures entry { IfSome result (IsEntry (link_view self.now).program) }
    {
        self.valid.module().start
    }

    /// The function that is exported as `loop`.
    pub fn main(&self) -> u32
        ensures main { result ≡ (link_view self.now).main }
        ensures entry { IsEntry (link_view self.now).program (link_view self.now).main }
        ensures typed { IsTypedProgram (module_context (link_view self.now).whole)
            (link_view self.now).program }
    {
        let _valid = self.valid.module();
        self.main
    }

    /// What a call of a function leads to, in constant time.
    #[inline]
    pub fn callee(&self, func: u32) -> Callee<'_>
        requires { func < length (link_view self.now).program.functions }
        ensures { (found : Function) × (slice_get (link_view self.now).program.functions func ≡ Some found)
            × IsCallee found result }
    {
        let whole = self.valid.module();
        match self.functions[func as usize] {
            Entry::Imported { kind, call } => Callee::Imported {
                call,
                kind: &whole.types.as_slice()[kind as usize],
            },
            Entry::Defined {
                place,
                params,
                more,
                results,
                ..
            } => Callee::Defined {
                params: params as usize,
                more: more as usize,
                results: results as usize,
                body: whole.codes.as_slice()[place as usize].body.as_slice(),
            },
        }
    }

    /// Whether a function has the type of this index, in constant time.
    #[inline]
    pub fn has_type(&self, func: u32, index: u32) -> bool
        requires func { func < length (link_view self.now).program.functions }
        requires index { index < length (link_view self.now).program.types }
        ensures { IsTrue result
            ↔ ((found : Function) → slice_get (link_view self.now).program.functions func ≡ Some found
            → slice_get (link_view self.now).program.types index ≡ Some (type_of found)) }
    {
        let kind = self.functions[func as usize].kind();
        self.classes[kind as usize] == self.classes[index as usize]
    }

    /// The most parameters of an imported function.
    pub fn most_arguments(&self) -> usize
        ensures { IsMost (link_view self.now).program result }
    {
        self.most
    }

    /// A new store with the segments in it: the memory of the module's least size, zeros but for the data;
    /// the table, empty but for the elements; the globals. It copies what linking worked out, and touches no
    /// page past the least size.
    pub fn store(&self, alloc: Global) -> Result<Stored, NoMemory>
        ensures store { IfOk result (λ stored. store_view stored ≡ first_store (link_view self.now).whole) }
        ensures typed { IfOk result
            (λ stored. IsTypedStore (module_context (link_view self.now).whole) (store_view stored)) }
    {
        let whole = self.valid.module();
        let first = &self.beginning;
        Ok(Stored {
            pages: memory_of(alloc, whole.memories.as_slice(), &first.memory)?,
            globals: GlobalValues::of(alloc, first.globals.as_slice())?,
            table: table_of(alloc, whole.tables.as_slice(), &first.table)?,
        })
    }
}
