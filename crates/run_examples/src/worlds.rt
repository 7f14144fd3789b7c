// The texts of worlds, and the worlds that they say.
ghost use Rattle.std.specs.Prelude.{IfOk};
ghost use Rattle.world_rules.specs.Sound.{IsSound};

use object_store::World;
use std::alloc::{AllocError, Global};
use std::test::Fail;
use world_text::read_world;

// So many zeros.
fn zeros(alloc: Global, count: usize) -> Result<String, AllocError> {
    let mut text = String::new(alloc);
    for _ in 0..count {
        text.push('0')?;
    }
    Ok(text)
}

// Plain ground with walls at the corners.
fn grounds(alloc: Global) -> Result<String, AllocError> {
    let edge = zeros(alloc, 48)?;
    let middle = zeros(alloc, 2_400)?;
    format!(in alloc; "1{edge}1{middle}1{edge}1")
}

/// The text of a room of that ground with this name, next serial and objects.
pub fn room(alloc: Global, name: &str, next: u32, objects: &str) -> Result<String, AllocError> {
    let terrain = grounds(alloc)?;
    format!(in alloc;
        "{{\"name\":\"{name}\",\"terrain\":\"{terrain}\",\"next\":{next},\"objects\":[{objects}]}}"
    )
}

/// The world that a file of this text says.
pub fn world_in(alloc: Global, text: &str) -> Result<World, Fail>
    ensures { IfOk result (λ world. IsSound world) }
{
    match read_world(alloc, text.as_bytes()) {
        Ok(file) => Ok(file.world),
        Err(_) => Err("refused".into()),
    }
}
