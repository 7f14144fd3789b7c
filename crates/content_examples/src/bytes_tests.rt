// What is written in bytes and read back.
use crate::worlds::all_kinds;
use byte_fields::Cursor;
use game_tables::{Action, Body, Part};
use intent_book::Intent;
use object_store::World;
use std::alloc::Global;
use std::test::Fail;
use world_bytes::{read_account, read_intent, read_room, write_account, write_intent, write_room};

// The rooms of a world and its accounts.
fn bytes_of(alloc: Global, world: &World) -> Result<Vec<u8>, Fail> {
    let mut written = Vec::new(alloc);
    for room in world.room_list() {
        write_room(room.table.index(), &room.table, &mut written)?;
    }
    for account in world.account_list() {
        write_account(account, &mut written)?;
    }
    Ok(written)
}

// The bytes of the world of all kinds.
fn all_bytes(alloc: Global) -> Result<Vec<u8>, Fail> {
    bytes_of(alloc, &all_kinds(alloc)?.world)
}

// Reads a room and writes it again. Gives its index twice, and the number of its objects.
fn room_back(
    alloc: Global,
    from: &mut Cursor,
    again: &mut Vec<u8>,
) -> Result<(u32, u32, u32), Fail> {
    let (index, table) = read_room(alloc, from)?;
    write_room(table.index(), &table, again)?;
    Ok((index, table.index(), table.len()))
}

// Reads an account and writes it again. Gives its player.
fn account_back(alloc: Global, from: &mut Cursor, again: &mut Vec<u8>) -> Result<u32, Fail> {
    let account = read_account(alloc, from)?;
    write_account(&account, again)?;
    Ok(account.player)
}

// Reads both rooms and both accounts and writes them again. Tells what is another one, or how many bytes
// are left.
fn all_back(
    alloc: Global,
    written: &[u8],
    again: &mut Vec<u8>,
) -> Result<Result<usize, &'static str>, Fail> {
    let mut from = Cursor::over(written);
    for (index, len) in [(0, 0), (1, 10)] {
        if room_back(alloc, &mut from, again)? != (index, index, len) {
            return Ok(Err("a room"));
        }
    }
    for player in [7, 9] {
        if account_back(alloc, &mut from, again)? != player {
            return Ok(Err("an account"));
        }
    }
    Ok(Ok(from.left()))
}

// The same, with whether the same bytes were written.
fn comes_back(alloc: Global, written: &[u8]) -> Result<(Result<usize, &'static str>, bool), Fail> {
    let mut again = Vec::new(alloc);
    let left = all_back(alloc, written, &mut again)?;
    Ok((left, again.as_slice() == written))
}

#[test]
fn rooms_and_accounts_come_back(rt: HostRuntime) -> Result<(), Fail> {
    let written = all_bytes(rt.alloc())?;
    assert!(rt; comes_back(rt.alloc(), &written)? == (Ok(0), true));
    Ok(())
}

// Writes an intent and reads it back. Gives the number of its action, its actor, its amount, the length of
// its body, and the bytes that are left.
fn intent_back(alloc: Global, intent: &Intent) -> Result<(u8, u64, u64, u64, usize), Fail> {
    let mut bytes = Vec::new(alloc);
    write_intent(intent, &mut bytes)?;
    let mut from = Cursor::over(&bytes);
    let back = read_intent(intent.player, &mut from)?;
    Ok((
        back.action.number(),
        back.actor,
        back.amount,
        back.body.len(),
        from.left(),
    ))
}

#[test]
fn intents_of_all_actions_come_back(rt: HostRuntime) -> Result<(), Fail> {
    for number in 1..=22 {
        let action = Action::of_number(number).ok_or("a number of no action")?;
        let mut body = Body::new();
        for _ in 0..50 {
            let intent = Intent {
                player: 9,
                action,
                actor: 0x0807_0605_0403_0201,
                target: 0x1122_3344_5566_7788,
                amount: u64::MAX,
                body,
            };
            assert!(rt;
                intent_back(rt.alloc(), &intent)? == (number, intent.actor, u64::MAX, body.len(), 0)
            );
            if body.len() < 50 {
                body.push(Part::Claim);
            }
        }
    }
    Ok(())
}
