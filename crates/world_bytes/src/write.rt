// Rooms, accounts and intents, written to the end of bytes.
ghost use Rattle.std.specs.Prelude.{◌≡◌, ◌<◌, ◌^◌, ◌++◌, [], length, take, OnOk, OnErr};
ghost use Rattle.std.specs.List.{AllByRecursion, flat_map};
ghost use Rattle.byteorder.specs.Endian.{little_bytes};
ghost use Rattle.world_bytes.specs.Forms.{object_bytes, room_bytes, account_bytes, intent_bytes};
ghost use Rattle.world_bytes.specs.Numbers.{AccountFits, IntentFits, ObjectFits, TableFits};
ghost use Rattle.world_bytes.specs.inner.Rows.{head_of, head_row, counts_of, counts_row, body_row};
ghost use Rattle.world_bytes.specs.inner.Rows.{HasCountsForm};

use crate::NoMemory;
use byte_fields::{put_u32, put_u64};
use intent_book::Intent;
use object_store::{Account, Body, Object, Objects, RoomTable};

// Writes what an object is. On want of memory a part of it may stand there.
fn put_head(object: &Object, out: &mut Vec<u8>) -> Result<(), NoMemory>
    ensures written { OnOk result (out.new.items ≡ out.old.items ++ head_row (head_of object.now) []) }
    ensures kept { OnErr result (take (length out.old.items) out.new.items ≡ out.old.items) }
    ensures fits { OnOk result ((object.now.id < 2 ^ 64) × (object.now.owner < 2 ^ 32)) }
{
    put_u64(out, object.id)?;
    out.extend_from_slice(&[object.kind.number(), object.x, object.y])?;
    put_u32(out, object.owner)
}

// Writes an object's numbers. On want of memory a part of them may stand there.
fn put_counts(object: &Object, out: &mut Vec<u8>) -> Result<(), NoMemory>
    ensures written { OnOk result (out.new.items ≡ out.old.items ++ counts_row (counts_of object.now) []) }
    ensures kept { OnErr result (take (length out.old.items) out.new.items ≡ out.old.items) }
    ensures fits { OnOk result (HasCountsForm (counts_of object.now)) }
{
    put_u32(out, object.hits)?;
    put_u64(out, object.energy)?;
    put_u32(out, object.timer)?;
    put_u32(out, object.extra)?;
    put_u64(out, object.progress)?;
    put_u32(out, object.other)?;
    put_u32(out, object.other_ticks)
}

// Writes a body behind the number of its parts. On want of memory a part of it may stand there.
fn put_body(body: &Body, out: &mut Vec<u8>) -> Result<(), NoMemory>
    ensures written { OnOk result (out.new.items ≡ out.old.items ++ body_row body.now []) }
    ensures kept { OnErr result (take (length out.old.items) out.new.items ≡ out.old.items) }
{
    let parts = body.parts();
    out.push(parts.len() as u8)?;
    'each: for part in parts {
        out.push(part.number())?;
    }
    Ok(())
}

// Writes an object. On want of memory a part of it may stand there.
fn put_object(object: &Object, out: &mut Vec<u8>) -> Result<(), NoMemory>
    ensures written { OnOk result (out.new.items ≡ out.old.items ++ object_bytes object.now) }
    ensures kept { OnErr result (take (length out.old.items) out.new.items ≡ out.old.items) }
    ensures fits { OnOk result (ObjectFits object.now) }
{
    put_head(object, out)?;
    put_counts(object, out)?;
    put_body(&object.body, out)
}

// Writes objects, one behind the other. On want of memory some of them may stand there.
fn put_objects(objects: Objects<'_>, out: &mut Vec<u8>) -> Result<(), NoMemory>
    ensures written { OnOk result (out.new.items ≡ out.old.items ++ flat_map object_bytes objects.entry) }
    ensures kept { OnErr result (take (length out.old.items) out.new.items ≡ out.old.items) }
    ensures fits { OnOk result (AllByRecursion ObjectFits objects.entry) }
{
    'each: for object in objects {
        put_object(object, out)?;
    }
    Ok(())
}

// Writes a room. On want of memory a part of it may stand there.
fn put_room(index: u32, room: &RoomTable, out: &mut Vec<u8>) -> Result<(), NoMemory>
    requires { index ≡ room.now.index }
    ensures written { OnOk result (out.new.items ≡ out.old.items ++ room_bytes room.now) }
    ensures kept { OnErr result (take (length out.old.items) out.new.items ≡ out.old.items) }
    ensures fits { OnOk result (TableFits room.now) }
{
    put_u32(out, index)?;
    put_u32(out, room.next())?;
    put_u32(out, room.len())?;
    put_objects(room.objects(), out)
}

/// Writes the room of this index to the end of the bytes. A room that has no form is written too, and
/// is not read again as it was.
pub fn write_room(index: u32, room: &RoomTable, out: &mut Vec<u8>) -> Result<(), NoMemory>
    requires { index ≡ room.now.index }
    ensures written { OnOk result (out.new.items ≡ out.old.items ++ room_bytes room.now) }
    ensures unchanged { OnErr result (out.new.items ≡ out.old.items) }
    ensures fits { OnOk result (TableFits room.now) }
{
    let held = out.len();
    let written = put_room(index, room, out);
    if written.is_err() {
        out.truncate(held);
    }
    written
}

/// Writes a length as four bytes. One that four bytes don't hold, of 2^32 or more, is want of memory.
pub fn put_length(length: u64, out: &mut Vec<u8>) -> Result<(), NoMemory>
    ensures written { OnOk result (out.new.items ≡ out.old.items ++ little_bytes 4 length) }
    ensures unchanged { OnErr result (out.new.items ≡ out.old.items) }
    ensures fits { OnOk result (length < 2 ^ 32) }
{
    if length > u64::from(u32::MAX) {
        return Err(NoMemory);
    }
    put_u32(out, length as u32)
}

// Writes an account. On want of memory a part of it may stand there.
fn put_account(account: &Account, out: &mut Vec<u8>) -> Result<(), NoMemory>
    ensures written { OnOk result (out.new.items ≡ out.old.items ++ account_bytes account.now) }
    ensures kept { OnErr result (take (length out.old.items) out.new.items ≡ out.old.items) }
    ensures fits { OnOk result (AccountFits account.now) }
{
    put_u32(out, account.player)?;
    put_u32(out, account.limit)?;
    put_u32(out, account.bucket)?;
    put_u64(out, account.points)?;
    put_length(account.memory.len(), out)?;
    out.extend_from_slice(account.memory.as_slice())
}

/// Writes the account to the end of the bytes. An account that has no form is written too, and is not
/// read again as it was; a memory text of 2^32 bytes or more is want of memory.
pub fn write_account(account: &Account, out: &mut Vec<u8>) -> Result<(), NoMemory>
    ensures written { OnOk result (out.new.items ≡ out.old.items ++ account_bytes account.now) }
    ensures unchanged { OnErr result (out.new.items ≡ out.old.items) }
    ensures fits { OnOk result (AccountFits account.now) }
{
    let held = out.len();
    let written = put_account(account, out);
    if written.is_err() {
        out.truncate(held);
    }
    written
}

// Writes an intent. On want of memory a part of it may stand there.
fn put_intent(intent: &Intent, out: &mut Vec<u8>) -> Result<(), NoMemory>
    ensures written { OnOk result (out.new.items ≡ out.old.items ++ intent_bytes intent.now) }
    ensures kept { OnErr result (take (length out.old.items) out.new.items ≡ out.old.items) }
    ensures fits { OnOk result (IntentFits intent.now) }
{
    out.push(intent.action.number())?;
    put_u64(out, intent.actor)?;
    put_u64(out, intent.target)?;
    put_u64(out, intent.amount)?;
    put_body(&intent.body, out)
}

/// Writes the intent, without its player, to the end of the bytes.
pub fn write_intent(intent: &Intent, out: &mut Vec<u8>) -> Result<(), NoMemory>
    ensures written { OnOk result (out.new.items ≡ out.old.items ++ intent_bytes intent.now) }
    ensures unchanged { OnErr result (out.new.items ≡ out.old.items) }
    ensures fits { OnOk result (IntentFits intent.now) }
{
    let held = out.len();
    let written = put_intent(intent, out);
    if written.is_err() {
        out.truncate(held);
    }
    written
}
