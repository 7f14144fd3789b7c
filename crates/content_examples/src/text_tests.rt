// World files that are read and written again.
use crate::worlds::{all_kinds, file_of, grounds, read_file};
use object_store::World;
use std::alloc::{AllocError, Global};
use std::test::Fail;
use world_text::{Text, Tokens, write_world};

// A creep, as it is read and as it is written, and the players as they are written.
const CREEP: &str =
    "{\"id\":3,\"kind\":\"creep\",\"x\":1,\"y\":9,\"owner\":7,\"body\":[\"ranged_attack\",\"carry\"],\"energy\":50,\"timer\":2}";

const WRITTEN_CREEP: &str =
    "{\"body\":[\"ranged_attack\",\"carry\"],\"energy\":50,\"extra\":0,\"hits\":200,\"id\":3,\"kind\":\"creep\",\"other\":0,\"other_ticks\":0,\"owner\":7,\"progress\":0,\"timer\":2,\"x\":1,\"y\":9}";

const WRITTEN_PLAYERS: &str =
    "{\"bucket\":5,\"limit\":20,\"memory\":\"00fa9b\",\"player\":7,\"points\":6},{\"bucket\":0,\"limit\":0,\"memory\":\"\",\"player\":9,\"points\":0}";

// The text that is written of a world.
fn text_of(alloc: Global, world: &World) -> Result<Vec<u8>, Fail> {
    Ok(write_world(alloc, world)?)
}

// How many objects the second room has, and the hits and the number of parts of its creep.
fn second_room(world: &World) -> Option<(u32, u32, u64)> {
    let table = &world.room_list().get(1)?.table;
    let creep = table.get(4_294_967_299)?;
    Some((table.len(), creep.hits, creep.body.len()))
}

#[test]
fn all_kinds_are_read(rt: HostRuntime) -> Result<(), Fail> {
    let file = all_kinds(rt.alloc())?;
    let world = &file.world;
    assert!(rt; (world.tick(), world.rooms(), world.accounts()) == (3, 2, 2));
    assert!(rt; second_room(world) == Some((10, 200, 2)));
    Ok(())
}

// The number, the bucket, the points and the memory text of the first player.
fn first_player(world: &World) -> Option<(u32, u32, u64, &[u8])> {
    let first = world.account_list().first()?;
    Some((
        first.player,
        first.bucket,
        first.points,
        first.memory.as_slice(),
    ))
}

// The player of a token, and its text.
fn token(tokens: &Tokens, place: u64) -> Option<(u32, &str)> {
    let entry = tokens.nth(place)?;
    Some((entry.0, entry.1.as_str()))
}

#[test]
fn players_and_tokens_are_read(rt: HostRuntime) -> Result<(), Fail> {
    let file = all_kinds(rt.alloc())?;
    let memory = [0x00, 0xfa, 0x9b].as_slice();
    assert!(rt; first_player(&file.world) == Some((7, 5, 6, memory)));
    assert!(rt; token(&file.tokens, 0) == Some((7, "b!~")));
    assert!(rt; token(&file.tokens, 1) == Some((9, "")));
    Ok(())
}

// The text that is written of the world of all kinds.
fn all_text(alloc: Global) -> Result<Vec<u8>, Fail> {
    text_of(alloc, &all_kinds(alloc)?.world)
}

// The text that is written of the world of a text.
fn text_again(alloc: Global, text: &[u8]) -> Result<Vec<u8>, Fail> {
    text_of(alloc, &read_file(alloc, text)?.world)
}

// Whether a text is written again as it is.
fn is_written_again(alloc: Global, text: &[u8]) -> Result<bool, Fail> {
    Ok(text_again(alloc, text)?.as_slice() == text)
}

#[test]
fn all_kinds_are_written_again(rt: HostRuntime) -> Result<(), Fail> {
    let written = all_text(rt.alloc())?;
    assert!(rt; is_written_again(rt.alloc(), &written)?);
    Ok(())
}

// The text that is to be written of the world of the creep.
fn expected(alloc: Global) -> Result<String, AllocError> {
    let ground = grounds(alloc)?;
    let front = format!(in alloc;
        "{{\"players\":[{WRITTEN_PLAYERS}],\"rooms\":[{{\"name\":\"E0S0\",\"next\":9,\"objects\":[],\"terrain\":\"{ground}\"}},"
    )?;
    format!(in alloc;
        "{front}{{\"name\":\"E1S0\",\"next\":9,\"objects\":[{WRITTEN_CREEP}],\"terrain\":\"{ground}\"}}],\"tick\":3,\"version\":1}}"
    )
}

// The text that is written of the world of the creep.
fn creep_text(alloc: Global) -> Result<Vec<u8>, Fail> {
    text_again(alloc, file_of(alloc, CREEP)?.as_bytes())
}

#[test]
fn a_world_has_its_text(rt: HostRuntime) -> Result<(), Fail> {
    let text = creep_text(rt.alloc())?;
    assert!(rt; text.as_slice() == expected(rt.alloc())?.as_bytes());
    Ok(())
}

// A text of two characters.
fn two_characters(alloc: Global) -> Result<Text, AllocError> {
    let mut text = Text::new(alloc);
    text.push('a')?;
    text.push('é')?;
    Ok(text)
}

// The token of player 4 alone.
fn one_token(alloc: Global) -> Result<Tokens, AllocError> {
    let mut tokens = Tokens::new(alloc);
    tokens.push((4, two_characters(alloc)?))?;
    Ok(tokens)
}

#[test]
fn texts_and_tokens_are_lists(rt: HostRuntime) -> Result<(), Fail> {
    let text = two_characters(rt.alloc())?;
    assert!(rt; (text.len(), text.nth(1), text.nth(2)) == (2, Some('é'), None));
    let tokens = one_token(rt.alloc())?;
    assert!(rt; tokens.len() == 1);
    assert!(rt; tokens.nth(1).is_none());
    Ok(())
}
