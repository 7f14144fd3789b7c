// What is seen of a world that a record follows, and of those after it.
ghost use Rattle.std.specs.Prelude.{IfOk};
ghost use Rattle.changed_rules.specs.Census.{ArePlaced};

use crate::worlds::{PARTS, world_of};
use changed_rules::Census;
use object_store::World;
use record_follows::{advance, after, follows};
use std::alloc::{AllocError, Global};
use std::test::Fail;
use tick_journal::{TickRecord, read_base_form, write_base};

// The energy of the first object of a room.
fn energy_in(world: &World, index: usize) -> Option<u64> {
    let room = world.room_list().get(index)?;
    let object = room.table.nth(0)?;
    Some(object.energy)
}

// The bucket of a player.
fn bucket_of(world: &World, player: u32) -> Option<u32> {
    let account = world.account(player)?;
    Some(account.bucket)
}

/// The tick of a world, the energy of the first object of each room, and the buckets of players 7 and 9.
pub type Seen = (u64, Option<u64>, Option<u64>, Option<u32>, Option<u32>);

fn seen(world: &World) -> Seen {
    (
        world.tick(),
        energy_in(world, 0),
        energy_in(world, 1),
        bucket_of(world, 7),
        bucket_of(world, 9),
    )
}

// The content of the world of tick 41.
fn content(alloc: Global) -> Result<Vec<u8>, Fail> {
    Ok(write_base(alloc, &world_of(alloc, 41, PARTS)?)?)
}

// The world of that content.
fn world_read(alloc: Global) -> Result<World, Fail>
    ensures { IfOk result (λ world. ArePlaced world.rooms) }
{
    match read_base_form(alloc, &content(alloc)?) {
        Ok(world) => Ok(world),
        Err(_) => Err("not read".into()),
    }
}

// What is seen of the world after another one, where the record follows it.
fn seen_after(
    alloc: Global,
    world: &World,
    entry: &TickRecord,
) -> Result<Option<Seen>, AllocError> {
    if !follows(alloc, world, entry)? {
        return Ok(None);
    }
    let next = after(alloc, world, entry)?;
    Ok(Some(seen(&next)))
}

// What is seen of a world that went on by the record, and whether it goes on by it once more.
fn seen_advanced(alloc: Global, world: &mut World, entry: &TickRecord) -> Result<(Seen, bool), Fail>
    requires { ArePlaced world.old.rooms }
{
    let Some(mut census) = Census::of(alloc, world)? else {
        return Err("no census".into());
    };
    if !advance(alloc, &mut census, world, entry)? {
        return Err("not followed".into());
    }
    let once = seen(world);
    Ok((once, advance(alloc, &mut census, world, entry)?))
}

/// What is seen of the world, of the one after it, and of the same once it went on by the record, and whether
/// it goes on by it once more.
pub fn all_seen(
    alloc: Global,
    entry: &TickRecord,
) -> Result<(Seen, Option<Seen>, Seen, bool), Fail> {
    let mut world = world_read(alloc)?;
    let before = seen(&world);
    let after = seen_after(alloc, &world, entry)?;
    let (once, again) = seen_advanced(alloc, &mut world, entry)?;
    Ok((before, after, once, again))
}
