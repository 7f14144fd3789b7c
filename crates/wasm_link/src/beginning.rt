// What an instance begins with, worked out once.
ghost use Rattle.std.specs.Prelude.{◌≡◌, ◌^◌, ℕ, List, Option, [], None, length, map, replicate};
ghost use Rattle.std.specs.Prelude.{All, AllPairs, IfOk, OnOk};
ghost use Rattle.wasm_module.specs.Entries.{global_view, element_view, segment_view};
ghost use Rattle.wasm_module.specs.Sections.{module_view};
ghost use Rattle.wasm_values.specs.View.{instrs_view};
ghost use Rattle.wasm_typing.specs.Typing.{IsConstant};
ghost use Rattle.wasm_validate.specs.Modules.{IsValid};
ghost use Rattle.wasm_soundness.specs.Typed.{IsValue};
ghost use Rattle.wasm_store.specs.Memory.{Memory};
ghost use Rattle.wasm_module.specs.Limits.{IsWithin};
ghost use Rattle.wasm_values.specs.declared.host_sig.HostSig.{HostSig};
ghost use Rattle.wasm_link.specs.Linking.{Fits, IsOfKind, constant, first_table, with_segments, spans};
ghost use Rattle.wasm_link.specs.Made.{element_span, data_span};
ghost use Rattle.wasm_link.specs.inner.Beginnings.{IsBeginning};
ghost use Rattle.wasm_link.specs.inner.Images.{IsBefore, Ends, Valued, IsCovered, Stands};

use crate::constants::value_of;
use crate::image::{Image, Stretch};
use crate::segments::{Placed, intervals_of};
use crate::stretches::stretches_of;
use crate::values::{count_of, write_elements, write_segments};
use std::alloc::{AllocError, Global};
use wasm_module::{Element, GlobalDef, Module, Segment};

/// The values of the globals, and what stands in the memory and the table, at first.
#[derive(Drop)]
pub(crate) struct Beginning {
    pub globals: Vec<u64>,
    pub memory: Image<u8>,
    pub table: Image<Option<u32>>,
}

/// The values that the globals begin with.
fn values_of(alloc: Global, globals: &[GlobalDef]) -> Result<Vec<u64>, AllocError>
    requires { All (λ global. IsConstant [] (instrs_view global.init) global.kind.value) globals.now }
    ensures values { IfOk result
        (λ values. values.items ≡ map (λ global. constant global.1) (map global_view globals.now)) }
    ensures typed { OnOk result
        (All (λ global. IsValue global.kind.value (constant (instrs_view global.init))) globals.now) }
{
    let mut values = Vec::with_capacity(alloc, globals.len())?;
    let mut at = 0usize;
    while at < globals.len() {
        let global = &globals[at];
        values.push(value_of(&global.init))?;
        at += 1;
    }
    Ok(values)
}

/// The stretches that segments write. Each segment that has entries is within one.
fn stretches_for<S: Placed>(alloc: Global, segments: &[S]) -> Result<Vec<Stretch>, AllocError>
    requires { All (λ segment. Fits (S.span (2 ^ 32) segment)) segments.now }
    ensures apart { IfOk result (λ stretches. AllPairs IsBefore stretches.items) }
    ensures small { IfOk result (λ stretches. All (Valued (2 ^ 32)) stretches.items) }
    ensures ends { IfOk result
        (λ stretches. (size : ℕ) → All (λ segment. Fits (S.span size segment)) segments.now
        → All (Ends size) stretches.items) }
    ensures covered { IfOk result
        (λ stretches. All (λ segment. IsCovered stretches.items (S.span 0 segment)) segments.now) }
{
    stretches_of(alloc, intervals_of(alloc, segments)?)
}

/// What the segments of the memory write into zeros.
fn memory_image(alloc: Global, segments: &[Segment]) -> Result<Image<u8>, AllocError>
    requires { All (λ segment. Fits (data_span (2 ^ 32) segment)) segments.now }
    ensures { IfOk result
        (λ image. (memory : Memory)
        → All (λ segment. Fits (data_span (length memory.bytes) segment)) segments.now
        → memory.bytes ≡ replicate (length memory.bytes) 0
        → Stands 0 image.stretches.items image.values.items
        (with_segments memory (map segment_view segments.now)).bytes) }
{
    let stretches = stretches_for(alloc, segments)?;
    let mut values = Vec::new(alloc);
    values.resize(count_of(stretches.as_slice()), 0)?;
    write_segments(values.as_mut_slice(), stretches.as_slice(), segments);
    Ok(Image { stretches, values })
}

/// What the segments of the table write into empty entries.
fn table_image(alloc: Global, elements: &[Element]) -> Result<Image<Option<u32>>, AllocError>
    requires { All (λ segment. Fits (element_span (2 ^ 32) segment)) elements.now }
    ensures { IfOk result
        (λ image. (table : List (Option ℕ))
        → All (λ segment. Fits (element_span (length table) segment)) elements.now
        → table ≡ replicate (length table) None
        → Stands None image.stretches.items image.values.items
        (first_table table (map element_view elements.now))) }
{
    let stretches = stretches_for(alloc, elements)?;
    let mut values = Vec::new(alloc);
    values.resize(count_of(stretches.as_slice()), None)?;
    write_elements(values.as_mut_slice(), stretches.as_slice(), elements);
    Ok(Image { stretches, values })
}

/// What an instance of a module begins with.
pub(crate) fn beginning_of(alloc: Global, whole: &Module) -> Result<Beginning, AllocError>
    requires valid { IsValid (module_view whole.now) }
    requires within { IsWithin (module_view whole.now) }
    requires imports { (sigs : List HostSig)
        × All (IsOfKind sigs (module_view whole.now).types) (module_view whole.now).imports }
    requires fit { All Fits (spans (module_view whole.now)) }
    ensures { IfOk result (IsBeginning (module_view whole.now)) }
{
    Ok(Beginning {
        globals: values_of(alloc, whole.globals.as_slice())?,
        memory: memory_image(alloc, whole.segments.as_slice())?,
        table: table_image(alloc, whole.elements.as_slice())?,
    })
}
