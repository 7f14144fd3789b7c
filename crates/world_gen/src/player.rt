// The code of the module that each player of a generated world runs.
ghost use Rattle.std.specs.Prelude.{◌≡◌, IfOk};
ghost use Rattle.world_gen.specs.PlayerModule.{both_fields, both_ids, delivers, direction, drops, field};
ghost use Rattle.world_gen.specs.PlayerModule.{harvests, has_room, in_room, is_seen, look, of_kind, on_code};
ghost use Rattle.world_gen.specs.PlayerModule.{own, own_creep, seek, sign, source_sought, spawn_sought};
ghost use Rattle.world_gen.specs.PlayerModule.{steps, to_next, turn, turns, visit};
ghost use Rattle.world_gen.specs.inner.Lines.{lines};

use crate::code::{again, either, put, when};
use std::alloc::{AllocError as NoMemory, Global};
use wasm_module::Instr;

// The locals: the indices of the creep and of its target, and the code that a call of the creep gave.
const CREEP: u32 = 0;

const TARGET: u32 = 1;

const CODE: u32 = 2;

// The host calls, by their places among the imports.
const COUNT: u32 = 0;

const ME: u32 = 1;

const GET: u32 = 2;

const HARVEST: u32 = 3;

const TRANSFER: u32 = 4;

const DROP: u32 = 5;

const MOVE: u32 = 6;

// The fields of an object.
const ID: u8 = 0;

const KIND: u8 = 1;

const ROOM: u8 = 2;

const COLUMN: u8 = 3;

const ROW: u8 = 4;

const OWNER: u8 = 5;

const ENERGY: u8 = 8;

const CAPACITY: u8 = 9;

// The kinds of objects.
const SOURCE: u8 = 1;

const CREEP_KIND: u8 = 3;

const SPAWN: u8 = 4;

// What a call may answer.
const FULL: i32 = -8;

const NOT_IN_RANGE: i32 = -9;

// The directions by the signs of the way, four bits each.
const DIRECTIONS: i64 = 0x4_5630_7218;

// The operations, by their opcodes.
const I32_EQZ: u8 = 0x45;

const I32_EQ: u8 = 0x46;

const I32_LT_U: u8 = 0x49;

const I64_EQ: u8 = 0x51;

const I64_LT_S: u8 = 0x53;

const I64_GT_S: u8 = 0x55;

const I32_ADD: u8 = 0x6a;

const I32_SUB: u8 = 0x6b;

const I32_MUL: u8 = 0x6c;

const I32_AND: u8 = 0x71;

const I64_SHR_U: u8 = 0x88;

const I32_WRAP_I64: u8 = 0xa7;

const I64_EXTEND_I32_U: u8 = 0xad;

/// All objects, in rising index.
#[tactic(auto, using(crate::proofs::Lines::turns_lines))]
pub(crate) fn turns(alloc: Global) -> Result<Vec<Instr>, NoMemory>
    ensures { IfOk result (λ made. lines made.items ≡ turns) }
{
    let mut code = is_seen(alloc, CREEP)?;
    let inner = visit(alloc)?;
    let rest = when(alloc, inner)?;
    put(&mut code, rest)?;
    let whole = again(alloc, code)?;
    Ok(whole)
}

// One object is looked at: if it is an own creep, it has its turn.
#[tactic(auto, using(crate::proofs::Lines::visit_lines))]
fn visit(alloc: Global) -> Result<Vec<Instr>, NoMemory>
    ensures { IfOk result (λ made. lines made.items ≡ visit) }
{
    let mut code = own_creep(alloc)?;
    let inner = turn(alloc)?;
    let acts = when(alloc, inner)?;
    put(&mut code, acts)?;
    let next = to_next(alloc, CREEP)?;
    put(&mut code, next)?;
    Ok(code)
}

// It is an own creep.
#[tactic(auto, using(crate::proofs::Lines::own_creep_lines))]
fn own_creep(alloc: Global) -> Result<Vec<Instr>, NoMemory>
    ensures { IfOk result (λ made. lines made.items ≡ own_creep) }
{
    let mut code = of_kind(alloc, CREEP, CREEP_KIND)?;
    let mine = own(alloc, CREEP)?;
    put(&mut code, mine)?;
    let rest = Vec::from_array(alloc, [Instr::Numeric(I32_AND)])?;
    put(&mut code, rest)?;
    Ok(code)
}

// With free room it harvests, and else it delivers; where the target is not in range it steps.
#[tactic(auto, using(crate::proofs::Lines::turn_lines))]
fn turn(alloc: Global) -> Result<Vec<Instr>, NoMemory>
    ensures { IfOk result (λ made. lines made.items ≡ turn) }
{
    let mut code = has_room(alloc)?;
    let first = harvests(alloc)?;
    let second = delivers(alloc)?;
    let acts = either(alloc, first, second)?;
    put(&mut code, acts)?;
    let inner = steps(alloc)?;
    let far = on_code(alloc, NOT_IN_RANGE, inner)?;
    put(&mut code, far)?;
    Ok(code)
}

// It has free room.
#[tactic(auto, using(crate::proofs::Lines::has_room_lines))]
fn has_room(alloc: Global) -> Result<Vec<Instr>, NoMemory>
    ensures { IfOk result (λ made. lines made.items ≡ has_room) }
{
    let mut code = field(alloc, CREEP, ENERGY)?;
    let capacity = field(alloc, CREEP, CAPACITY)?;
    put(&mut code, capacity)?;
    let rest = Vec::from_array(alloc, [Instr::Numeric(I64_LT_S)])?;
    put(&mut code, rest)?;
    Ok(code)
}

// It harvests the first source of its room.
#[tactic(auto, using(crate::proofs::Lines::harvests_lines))]
fn harvests(alloc: Global) -> Result<Vec<Instr>, NoMemory>
    ensures { IfOk result (λ made. lines made.items ≡ harvests) }
{
    let sought = source_sought(alloc)?;
    let mut code = seek(alloc, sought)?;
    let ids = both_ids(alloc)?;
    put(&mut code, ids)?;
    let rest = Vec::from_array(alloc, [Instr::Call(HARVEST), Instr::LocalSet(CODE)])?;
    put(&mut code, rest)?;
    Ok(code)
}

// It hands all that it carries to the first own spawn of its room, and where that is full drops it.
#[tactic(auto, using(crate::proofs::Lines::delivers_lines))]
fn delivers(alloc: Global) -> Result<Vec<Instr>, NoMemory>
    ensures { IfOk result (λ made. lines made.items ≡ delivers) }
{
    let sought = spawn_sought(alloc)?;
    let mut code = seek(alloc, sought)?;
    let ids = both_ids(alloc)?;
    put(&mut code, ids)?;
    let acts = Vec::from_array(
        alloc,
        [
            Instr::I32Const(0),
            Instr::Call(TRANSFER),
            Instr::LocalSet(CODE),
        ],
    )?;
    put(&mut code, acts)?;
    let inner = drops(alloc)?;
    let full = on_code(alloc, FULL, inner)?;
    put(&mut code, full)?;
    Ok(code)
}

// It drops all that it carries.
#[tactic(auto, using(crate::proofs::Lines::drops_lines))]
fn drops(alloc: Global) -> Result<Vec<Instr>, NoMemory>
    ensures { IfOk result (λ made. lines made.items ≡ drops) }
{
    let mut code = field(alloc, CREEP, ID)?;
    let rest = Vec::from_array(alloc, [Instr::I32Const(0), Instr::Call(DROP), Instr::Drop])?;
    put(&mut code, rest)?;
    Ok(code)
}

// It steps towards its target.
#[tactic(auto, using(crate::proofs::Lines::steps_lines))]
fn steps(alloc: Global) -> Result<Vec<Instr>, NoMemory>
    ensures { IfOk result (λ made. lines made.items ≡ steps) }
{
    let mut code = field(alloc, CREEP, ID)?;
    let to = direction(alloc)?;
    put(&mut code, to)?;
    let rest = Vec::from_array(alloc, [Instr::Call(MOVE), Instr::Drop])?;
    put(&mut code, rest)?;
    Ok(code)
}

// The direction from the creep to its target.
#[tactic(auto, using(crate::proofs::Lines::direction_lines))]
fn direction(alloc: Global) -> Result<Vec<Instr>, NoMemory>
    ensures { IfOk result (λ made. lines made.items ≡ direction) }
{
    let mut code = Vec::from_array(alloc, [Instr::I64Const(DIRECTIONS)])?;
    let across = sign(alloc, COLUMN)?;
    put(&mut code, across)?;
    let down = sign(alloc, ROW)?;
    put(&mut code, down)?;
    let rest = Vec::from_array(
        alloc,
        [
            Instr::I32Const(3),
            Instr::Numeric(I32_MUL),
            Instr::Numeric(I32_ADD),
            Instr::I32Const(4),
            Instr::Numeric(I32_ADD),
            Instr::I32Const(4),
            Instr::Numeric(I32_MUL),
            Instr::Numeric(I64_EXTEND_I32_U),
            Instr::Numeric(I64_SHR_U),
            Instr::Numeric(I32_WRAP_I64),
            Instr::I32Const(15),
            Instr::Numeric(I32_AND),
        ],
    )?;
    put(&mut code, rest)?;
    Ok(code)
}

// The sign of what the target's coordinate is more than the creep's.
#[tactic(auto, using(crate::proofs::Lines::sign_lines))]
fn sign(alloc: Global, number: u8) -> Result<Vec<Instr>, NoMemory>
    ensures { IfOk result (λ made. lines made.items ≡ sign number) }
{
    let mut code = both_fields(alloc, number)?;
    let more = Vec::from_array(alloc, [Instr::Numeric(I64_GT_S)])?;
    put(&mut code, more)?;
    let second = both_fields(alloc, number)?;
    put(&mut code, second)?;
    let less = Vec::from_array(alloc, [Instr::Numeric(I64_LT_S), Instr::Numeric(I32_SUB)])?;
    put(&mut code, less)?;
    Ok(code)
}

// A field of the target, and the same of the creep.
#[tactic(auto, using(crate::proofs::Lines::both_fields_lines))]
fn both_fields(alloc: Global, number: u8) -> Result<Vec<Instr>, NoMemory>
    ensures { IfOk result (λ made. lines made.items ≡ both_fields number) }
{
    let mut code = field(alloc, TARGET, number)?;
    let other = field(alloc, CREEP, number)?;
    put(&mut code, other)?;
    Ok(code)
}

// Code that runs where the last call of a creep gave this code.
#[tactic(auto, using(crate::proofs::Lines::on_code_lines))]
fn on_code(alloc: Global, number: i32, inner: Vec<Instr>) -> Result<Vec<Instr>, NoMemory>
    ensures { IfOk result (λ made. lines made.items ≡ on_code number (lines inner.items)) }
{
    let mut code = Vec::from_array(
        alloc,
        [
            Instr::LocalGet(CODE),
            Instr::I32Const(number),
            Instr::Numeric(I32_EQ),
        ],
    )?;
    let rest = when(alloc, inner)?;
    put(&mut code, rest)?;
    Ok(code)
}

// The ids of the creep and its target.
#[tactic(auto, using(crate::proofs::Lines::both_ids_lines))]
fn both_ids(alloc: Global) -> Result<Vec<Instr>, NoMemory>
    ensures { IfOk result (λ made. lines made.items ≡ both_ids) }
{
    let mut code = field(alloc, CREEP, ID)?;
    let other = field(alloc, TARGET, ID)?;
    put(&mut code, other)?;
    Ok(code)
}

// The first target that is what is sought.
#[tactic(auto, using(crate::proofs::Lines::seek_lines))]
fn seek(alloc: Global, sought: Vec<Instr>) -> Result<Vec<Instr>, NoMemory>
    ensures { IfOk result (λ made. lines made.items ≡ seek (lines sought.items)) }
{
    let mut code = Vec::from_array(alloc, [Instr::I32Const(0), Instr::LocalSet(TARGET)])?;
    let inner = look(alloc, sought)?;
    let rest = again(alloc, inner)?;
    put(&mut code, rest)?;
    Ok(code)
}

// One object is looked at: if it is not what is sought, the next one is.
#[tactic(auto, using(crate::proofs::Lines::look_lines))]
fn look(alloc: Global, sought: Vec<Instr>) -> Result<Vec<Instr>, NoMemory>
    ensures { IfOk result (λ made. lines made.items ≡ look (lines sought.items)) }
{
    let mut code = is_seen(alloc, TARGET)?;
    put(&mut code, sought)?;
    let other = Vec::from_array(alloc, [Instr::Numeric(I32_EQZ), Instr::Numeric(I32_AND)])?;
    put(&mut code, other)?;
    let inner = to_next(alloc, TARGET)?;
    let rest = when(alloc, inner)?;
    put(&mut code, rest)?;
    Ok(code)
}

// The target is a source of the creep's room.
#[tactic(auto, using(crate::proofs::Lines::source_sought_lines))]
fn source_sought(alloc: Global) -> Result<Vec<Instr>, NoMemory>
    ensures { IfOk result (λ made. lines made.items ≡ source_sought) }
{
    let mut code = of_kind(alloc, TARGET, SOURCE)?;
    let near = in_room(alloc)?;
    put(&mut code, near)?;
    let rest = Vec::from_array(alloc, [Instr::Numeric(I32_AND)])?;
    put(&mut code, rest)?;
    Ok(code)
}

// The target is an own spawn of the creep's room.
#[tactic(auto, using(crate::proofs::Lines::spawn_sought_lines))]
fn spawn_sought(alloc: Global) -> Result<Vec<Instr>, NoMemory>
    ensures { IfOk result (λ made. lines made.items ≡ spawn_sought) }
{
    let mut code = of_kind(alloc, TARGET, SPAWN)?;
    let mine = own(alloc, TARGET)?;
    put(&mut code, mine)?;
    let both = Vec::from_array(alloc, [Instr::Numeric(I32_AND)])?;
    put(&mut code, both)?;
    let near = in_room(alloc)?;
    put(&mut code, near)?;
    let rest = Vec::from_array(alloc, [Instr::Numeric(I32_AND)])?;
    put(&mut code, rest)?;
    Ok(code)
}

// There is such an object.
#[tactic(auto, using(crate::proofs::Lines::is_seen_lines))]
fn is_seen(alloc: Global, object: u32) -> Result<Vec<Instr>, NoMemory>
    ensures { IfOk result (λ made. lines made.items ≡ is_seen object) }
{
    let code = Vec::from_array(
        alloc,
        [
            Instr::LocalGet(object),
            Instr::Call(COUNT),
            Instr::Numeric(I32_LT_U),
        ],
    )?;
    Ok(code)
}

// On to the next object.
#[tactic(auto, using(crate::proofs::Lines::to_next_lines))]
fn to_next(alloc: Global, object: u32) -> Result<Vec<Instr>, NoMemory>
    ensures { IfOk result (λ made. lines made.items ≡ to_next object) }
{
    let code = Vec::from_array(
        alloc,
        [
            Instr::LocalGet(object),
            Instr::I32Const(1),
            Instr::Numeric(I32_ADD),
            Instr::LocalSet(object),
            Instr::Br(1),
        ],
    )?;
    Ok(code)
}

// The target is in the creep's room.
#[tactic(auto, using(crate::proofs::Lines::in_room_lines))]
fn in_room(alloc: Global) -> Result<Vec<Instr>, NoMemory>
    ensures { IfOk result (λ made. lines made.items ≡ in_room) }
{
    let mut code = both_fields(alloc, ROOM)?;
    let rest = Vec::from_array(alloc, [Instr::Numeric(I64_EQ)])?;
    put(&mut code, rest)?;
    Ok(code)
}

// It belongs to the player.
#[tactic(auto, using(crate::proofs::Lines::own_lines))]
fn own(alloc: Global, object: u32) -> Result<Vec<Instr>, NoMemory>
    ensures { IfOk result (λ made. lines made.items ≡ own object) }
{
    let mut code = field(alloc, object, OWNER)?;
    let rest = Vec::from_array(
        alloc,
        [
            Instr::Call(ME),
            Instr::Numeric(I64_EXTEND_I32_U),
            Instr::Numeric(I64_EQ),
        ],
    )?;
    put(&mut code, rest)?;
    Ok(code)
}

// It is of this kind.
#[tactic(auto, using(crate::proofs::Lines::of_kind_lines))]
fn of_kind(alloc: Global, object: u32, kind: u8) -> Result<Vec<Instr>, NoMemory>
    ensures { IfOk result (λ made. lines made.items ≡ of_kind object kind) }
{
    let mut code = field(alloc, object, KIND)?;
    let rest = Vec::from_array(
        alloc,
        [Instr::I64Const(i64::from(kind)), Instr::Numeric(I64_EQ)],
    )?;
    put(&mut code, rest)?;
    Ok(code)
}

// A field of an object.
#[tactic(auto, using(crate::proofs::Lines::field_lines))]
fn field(alloc: Global, object: u32, number: u8) -> Result<Vec<Instr>, NoMemory>
    ensures { IfOk result (λ made. lines made.items ≡ field object number) }
{
    let code = Vec::from_array(
        alloc,
        [
            Instr::LocalGet(object),
            Instr::I32Const(i32::from(number)),
            Instr::Call(GET),
        ],
    )?;
    Ok(code)
}
