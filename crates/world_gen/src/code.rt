// Code that is put together from parts.
ghost use Rattle.std.specs.Prelude.{◌≡◌, ◌++◌, IfOk, OnOk};
ghost use Rattle.wasm_values.specs.View.{instrs_view, ops_of};
ghost use Rattle.world_gen.specs.PlayerModule.{again, either, when};
ghost use Rattle.world_gen.specs.inner.Lines.{lines};

use std::alloc::{AllocError as NoMemory, Global};
use wasm_module::{Entries, Instr, Instrs};

/// Adds code at the end of other code.
#[tactic(auto, using(crate::proofs::Lines::lines_joined))]
pub(crate) fn put(code: &mut Vec<Instr>, mut added: Vec<Instr>) -> Result<(), NoMemory>
    ensures { OnOk result (lines code.new.items ≡ lines code.old.items ++ lines added.items) }
{
    code.append(&mut added)?;
    Ok(())
}

/// Code that runs where the test before it holds.
#[tactic(auto, using(crate::proofs::Lines::when_lines))]
pub(crate) fn when(alloc: Global, code: Vec<Instr>) -> Result<Vec<Instr>, NoMemory>
    ensures { IfOk result (λ made. lines made.items ≡ when (lines code.items)) }
{
    let body = body_of(code)?;
    Ok(Vec::from_array(alloc, [Instr::If(None, body, Instrs::new(alloc))])?)
}

/// One code or the other, by the test before it.
#[tactic(auto, using(crate::proofs::Lines::either_lines))]
pub(crate) fn either(
    alloc: Global,
    code: Vec<Instr>,
    other: Vec<Instr>,
) -> Result<Vec<Instr>, NoMemory>
    ensures { IfOk result (λ made. lines made.items ≡ either (lines code.items) (lines other.items)) }
{
    let first = body_of(code)?;
    let second = body_of(other)?;
    Ok(Vec::from_array(alloc, [Instr::If(None, first, second)])?)
}

/// Code that may begin again.
#[tactic(auto, using(crate::proofs::Lines::again_lines))]
pub(crate) fn again(alloc: Global, code: Vec<Instr>) -> Result<Vec<Instr>, NoMemory>
    ensures { IfOk result (λ made. lines made.items ≡ again (lines code.items)) }
{
    let body = body_of(code)?;
    Ok(Vec::from_array(alloc, [Instr::Loop(None, body)])?)
}

/// The instructions of a block.
#[tactic(auto, using(crate::proofs::Lines::body_lines))]
pub(crate) fn body_of(code: Vec<Instr>) -> Result<Instrs, NoMemory>
    ensures { IfOk result (λ body. instrs_view body ≡ ops_of (lines code.items)) }
{
    Ok(Instrs {
        list: Entries::of(code)?,
    })
}
