// What stands around the functions of a module.
ghost use Rattle.std.specs.Prelude.{◌≡◌, ◌≤◌, ◌-◌, length, take, map, OnOk, IfOk, [], option_to_list};
ghost use Rattle.std.specs.List.{filter_map};
ghost use Rattle.wasm_module.specs.Sections.{module_view};

use std::alloc::{AllocError, Global};
use wasm_module::{Bounds, FuncType, GlobalDef, GlobalType, Import, ImportDesc, Module};

/// The types of what a module declares and imports: WebAssembly Core 1.0, chapter 3.1.1. What is imported
/// comes first.
#[derive(Drop)]
pub struct Context<'a> {
    /// The types that the module declares.
    pub types: &'a [FuncType],
    /// The index of its type for each function.
    pub funcs: Vec<u32>,
    pub tables: Vec<Bounds>,
    pub memories: Vec<Bounds>,
    pub globals: Vec<GlobalType>,
}

impl<'a> Context<'a> {
    ghost use Rattle.wasm_typing.specs.inner.Adds.{Adds};
    ghost use Rattle.wasm_typing.specs.Context.{imported_func, imported_table, imported_memory};
    ghost use Rattle.wasm_typing.specs.Context.{imported_global, module_context};
    ghost use Rattle.wasm_typing.specs.Views.{context_view};

    /// The number of functions.
    pub fn funcs(&self) -> usize
        ensures { result ≡ length (context_view self.now).funcs }
    {
        self.funcs.len()
    }

    /// The globals that are imported, where the module has so many of its own.
    pub fn imported(&self, own: usize) -> &[GlobalType]
        requires { own ≤ length (context_view self.now).globals }
        ensures { result.now ≡ take (length (context_view self.now).globals - own)
            (context_view self.now).globals }
    {
        &self.globals[..self.globals.len() - own]
    }

    fn add_import(&mut self, desc: ImportDesc) -> Result<(), AllocError>
        ensures { OnOk result
            (Adds (context_view self.old) (context_view self.new) (option_to_list (imported_func desc))
            (option_to_list (imported_table desc)) (option_to_list (imported_memory desc))
            (option_to_list (imported_global desc))) }
    {
        match desc {
            ImportDesc::Func(kind) => self.funcs.push(kind)?,
            ImportDesc::Table(bounds) => self.tables.push(bounds)?,
            ImportDesc::Memory(bounds) => self.memories.push(bounds)?,
            ImportDesc::Global(kind) => self.globals.push(kind)?,
        }
        Ok(())
    }

    fn add_imports(&mut self, imports: &[Import]) -> Result<(), AllocError>
        ensures { OnOk result
            (Adds (context_view self.old) (context_view self.new)
            (filter_map (λ entry. imported_func entry.desc) imports.now)
            (filter_map (λ entry. imported_table entry.desc) imports.now)
            (filter_map (λ entry. imported_memory entry.desc) imports.now)
            (filter_map (λ entry. imported_global entry.desc) imports.now)) }
    {
        let mut at = 0usize;
        while at < imports.len() {
            self.add_import(imports[at].desc)?;
            at += 1;
        }
        Ok(())
    }

    fn add_globals(&mut self, globals: &[GlobalDef]) -> Result<(), AllocError>
        ensures { OnOk result
            (Adds (context_view self.old) (context_view self.new) [] [] []
            (map (λ global. global.kind) globals.now)) }
    {
        let mut at = 0usize;
        while at < globals.len() {
            self.globals.push(globals[at].kind)?;
            at += 1;
        }
        Ok(())
    }

    /// Of a module, in one step an entry of its lists.
    pub fn of(alloc: Global, whole: &'a Module) -> Result<Context<'a>, AllocError>
        ensures { IfOk result
            (λ context. context_view context ≡ module_context (module_view whole.entry.now)) }
    {
        let mut context = Context {
            types: whole.types.as_slice(),
            funcs: Vec::new(alloc),
            tables: Vec::new(alloc),
            memories: Vec::new(alloc),
            globals: Vec::new(alloc),
        };
        context.add_imports(whole.imports.as_slice())?;
        context.funcs.extend_from_slice(whole.funcs.as_slice())?;
        context.tables.extend_from_slice(whole.tables.as_slice())?;
        context
            .memories
            .extend_from_slice(whole.memories.as_slice())?;
        context.add_globals(whole.globals.as_slice())?;
        Ok(context)
    }
}
