// Rooms, accounts and intents, read from the front of bytes.
ghost use Rattle.std.specs.Prelude.{◌≡◌, ◌+◌, ◌<◌, ◌^◌, ◌↔◌, ℕ, List, ◌∷◌, length, IsTrue, IfOk, IfErr, OnOk};
ghost use Rattle.std.specs.Prelude.{OnErr};
ghost use Rattle.std.specs.List.{AllByRecursion};
ghost use Rattle.byte_fields.specs.Front.{Begins, BeginsNone, BeginsOnly};
ghost use Rattle.game_tables.specs.Actions.{action_number};
ghost use Rattle.game_tables.specs.declared.action.Action.{Action};
ghost use Rattle.room_table.specs.Tables.{IsRising};
ghost use Rattle.world_bytes.specs.Forms.{SpellsRoom, SpellsAccount, SpellsIntent};
ghost use Rattle.world_bytes.specs.inner.Rows.{Leads, LeadsNone, AreObjects, objects_row, HasMemoryForm};
ghost use Rattle.world_bytes.specs.inner.Rows.{memory_row};

use crate::NoMemory;
use crate::fault::{BytesFault, NoForm};
use crate::object::{read_body, read_object};
use byte_fields::Cursor;
use game_tables::most_memory;
use intent_book::{Action, Intent};
use object_store::{Account, Bytes, Object, RoomTable};
use std::alloc::Global;

// Whether the id is greater than those of all objects.
fn is_behind(id: u64, objects: &[Object]) -> bool
    requires { IsRising objects.now }
    ensures { IsTrue result ↔ AllByRecursion (λ earlier. earlier.id < id) objects.now }
{
    match objects.last() {
        Some(last) => last.id < id,
        None => true,
    }
}

// Reads so many objects, and takes memory as they are read.
fn read_objects(alloc: Global, count: u32, from: &mut Cursor) -> Result<Vec<Object>, BytesFault>
    ensures found { IfOk result
        (λ objects. Leads (AreObjects count) objects_row from.old.0 objects.items from.new.0) }
    ensures malformed { IfErr result (λ e. e ≡ BytesFault.Malformed
        → LeadsNone (AreObjects count) objects_row from.old.0) }
    ensures place { OnOk result (from.new.1 + length from.new.0 ≡ from.old.1 + length from.old.0) }
{
    let mut objects = Vec::new(alloc);
    'each: for _ in 0..count {
        let object = read_object(from)?;
        if !is_behind(object.id, &objects) {
            return Err(BytesFault::Malformed);
        }
        objects.push(object)?;
    }
    Ok(objects)
}

// Reads a room. Where there is none, the cursor may stand anywhere.
fn room_ahead(alloc: Global, from: &mut Cursor) -> Result<RoomTable, BytesFault>
    ensures found { IfOk result (λ table. Begins SpellsRoom from.old.0 table from.new.0) }
    ensures malformed { IfErr result (λ e. e ≡ BytesFault.Malformed → BeginsNone SpellsRoom from.old.0) }
    ensures place { OnOk result (from.new.1 + length from.new.0 ≡ from.old.1 + length from.old.0) }
{
    let index = from.u32()?;
    let next = from.u32()?;
    if next == 0 {
        return Err(BytesFault::Malformed);
    }
    let count = from.u32()?;
    let objects = read_objects(alloc, count, from)?;
    let table = RoomTable::of(alloc, index, next, objects)?;
    Ok(table)
}

/// Reads the room at the front, with its index. Memory is taken as objects are read, whatever number
/// of them is promised.
pub fn read_room(alloc: Global, from: &mut Cursor) -> Result<(u32, RoomTable), BytesFault>
    ensures found { IfOk result (λ room. Begins SpellsRoom from.old.0 room.1 from.new.0) }
    ensures only { IfOk result (λ room. BeginsOnly SpellsRoom from.old.0 room.1 from.new.0) }
    ensures index { IfOk result (λ room. room.0 ≡ room.1.index) }
    ensures place { from.new.1 + length from.new.0 ≡ from.old.1 + length from.old.0 }
    ensures malformed { IfErr result (λ e. e ≡ BytesFault.Malformed → BeginsNone SpellsRoom from.old.0) }
    ensures unchanged { OnErr result (from.new ≡ from.old) }
{
    let mut ahead = from.copy();
    let table = room_ahead(alloc, &mut ahead)?;
    *from = ahead;
    Ok((table.index(), table))
}

// A copy of these bytes.
fn text_of(alloc: Global, part: &[u8]) -> Result<Bytes, NoMemory>
    ensures same { IfOk result (λ text. text ≡ part.now) }
    ensures bytes { AllByRecursion (λ byte. byte < 2 ^ 8) part.now }
{
    Bytes::of(alloc, part)
}

// Reads a memory text, behind its length. Where there is none, the cursor may stand anywhere.
fn read_memory(alloc: Global, from: &mut Cursor) -> Result<Bytes, BytesFault>
    ensures found { IfOk result (λ text. Leads HasMemoryForm memory_row from.old.0 text from.new.0) }
    ensures malformed { IfErr result (λ e. e ≡ BytesFault.Malformed
        → LeadsNone HasMemoryForm memory_row from.old.0) }
    ensures place { OnOk result (from.new.1 + length from.new.0 ≡ from.old.1 + length from.old.0) }
{
    let length = from.u32()?;
    if length > most_memory() {
        return Err(BytesFault::Malformed);
    }
    let part = from.take(length as usize)?;
    Ok(text_of(alloc, part)?)
}

// Reads an account. Where there is none, the cursor may stand anywhere.
fn account_ahead(alloc: Global, from: &mut Cursor) -> Result<Account, BytesFault>
    ensures found { IfOk result (λ account. Begins SpellsAccount from.old.0 account from.new.0) }
    ensures malformed { IfErr result (λ e. e ≡ BytesFault.Malformed → BeginsNone SpellsAccount from.old.0) }
    ensures place { OnOk result (from.new.1 + length from.new.0 ≡ from.old.1 + length from.old.0) }
{
    let player = from.u32()?;
    let limit = from.u32()?;
    let bucket = from.u32()?;
    let points = from.u64()?;
    let memory = read_memory(alloc, from)?;
    Ok(Account {
        player,
        limit,
        bucket,
        points,
        memory,
    })
}

/// Reads the account at the front.
pub fn read_account(alloc: Global, from: &mut Cursor) -> Result<Account, BytesFault>
    ensures found { IfOk result (λ account. Begins SpellsAccount from.old.0 account from.new.0) }
    ensures only { IfOk result (λ account. BeginsOnly SpellsAccount from.old.0 account from.new.0) }
    ensures place { from.new.1 + length from.new.0 ≡ from.old.1 + length from.old.0 }
    ensures malformed { IfErr result (λ e. e ≡ BytesFault.Malformed → BeginsNone SpellsAccount from.old.0) }
    ensures unchanged { OnErr result (from.new ≡ from.old) }
{
    let mut ahead = from.copy();
    let account = account_ahead(alloc, &mut ahead)?;
    *from = ahead;
    Ok(account)
}

// Reads the number of an action.
fn read_action(from: &mut Cursor) -> Result<Action, NoForm>
    ensures found { IfOk result (λ action. from.old.0 ≡ action_number action ∷ from.new.0) }
    ensures none { OnErr result ((action : Action) (rest : List ℕ) → from.old.0 ≡ action_number action ∷ rest
        → ⊥) }
    ensures place { OnOk result (from.new.1 ≡ from.old.1 + 1) }
{
    let number = from.u8()?;
    match Action::of_number(number) {
        Some(action) => Ok(action),
        _ => Err(NoForm),
    }
}

// Reads an intent of a player. Where there is none, the cursor may stand anywhere.
fn intent_ahead(player: u32, from: &mut Cursor) -> Result<Intent, NoForm>
    ensures found { IfOk result (λ intent. Begins (SpellsIntent player) from.old.0 intent from.new.0) }
    ensures none { OnErr result (BeginsNone (SpellsIntent player) from.old.0) }
    ensures place { OnOk result (from.new.1 + length from.new.0 ≡ from.old.1 + length from.old.0) }
{
    let action = read_action(from)?;
    let actor = from.u64()?;
    let target = from.u64()?;
    let amount = from.u64()?;
    let body = read_body(from)?;
    Ok(Intent {
        player,
        action,
        actor,
        target,
        amount,
        body,
    })
}

/// Reads the intent of this player at the front. It takes no memory.
pub fn read_intent(player: u32, from: &mut Cursor) -> Result<Intent, BytesFault>
    ensures found { IfOk result (λ intent. Begins (SpellsIntent player) from.old.0 intent from.new.0) }
    ensures only { IfOk result (λ intent. BeginsOnly (SpellsIntent player) from.old.0 intent from.new.0) }
    ensures place { from.new.1 + length from.new.0 ≡ from.old.1 + length from.old.0 }
    ensures malformed { IfErr result (λ e. e ≡ BytesFault.Malformed
        → BeginsNone (SpellsIntent player) from.old.0) }
    ensures never_memory { IfErr result (λ e. e ≡ BytesFault.Malformed) }
    ensures unchanged { OnErr result (from.new ≡ from.old) }
{
    let mut ahead = from.copy();
    let intent = intent_ahead(player, &mut ahead)?;
    *from = ahead;
    Ok(intent)
}
