// The texts of worlds, and the worlds that they say.
use std::alloc::{AllocError, Global};
use std::test::Fail;
use world_text::{WorldFile, read_world};

// So many zeros.
fn zeros(alloc: Global, count: usize) -> Result<String, AllocError> {
    let mut text = String::new(alloc);
    for _ in 0..count {
        text.push('0')?;
    }
    Ok(text)
}

/// Plain ground with walls at the corners.
pub fn grounds(alloc: Global) -> Result<String, AllocError> {
    let edge = zeros(alloc, 48)?;
    let middle = zeros(alloc, 2_400)?;
    format!(in alloc; "1{edge}1{middle}1{edge}1")
}

/// The text of a room of that ground with this name, next serial and objects.
pub fn room(alloc: Global, name: &str, next: u32, objects: &str) -> Result<String, AllocError> {
    let terrain = grounds(alloc)?;
    format!(in alloc;
        "{{\"name\":\"{name}\",\"terrain\":\"{terrain}\",\"next\":{next},\"objects\":[{objects}]}}"
    )
}

/// One object of each kind, in falling id.
pub const ALL_KINDS: &str = "{\"id\":8,\"kind\":\"pile\",\"x\":20,\"y\":20,\"energy\":1},\
    {\"id\":7,\"kind\":\"site\",\"x\":5,\"y\":9,\"owner\":9,\"extra\":4,\"progress\":14999},{\"id\":6,\"kind\":\"road\",\"x\":6,\"y\":9,\"timer\":1000},\
    {\"id\":5,\"kind\":\"container\",\"x\":7,\"y\":9,\"energy\":2000,\"timer\":500},{\"id\":4,\"kind\":\"storage\",\"x\":8,\"y\":9,\"owner\":7,\"energy\":1000000},\
    {\"id\":3,\"kind\":\"extension\",\"x\":9,\"y\":9,\"owner\":7,\"energy\":200,\"hits\":1},{\"id\":2,\"kind\":\"spawn\",\"x\":10,\"y\":9,\"owner\":7,\"energy\":300,\"timer\":6,\"body\":[\"work\",\"move\"]},\
    {\"id\":4294967299,\"kind\":\"creep\",\"x\":0,\"y\":9,\"owner\":7,\"body\":[\"carry\",\"heal\"],\"energy\":50,\"timer\":1500,\"extra\":500},{\"id\":4294967298,\"kind\":\"controller\",\"x\":12,\"y\":9,\"owner\":7,\"extra\":1,\"timer\":20000,\"progress\":199},\
    {\"id\":4294967297,\"kind\":\"source\",\"x\":13,\"y\":9,\"energy\":3000,\"timer\":300}";

/// A file of two rooms, of which the second has these objects, and two players in falling number.
pub fn file_of(alloc: Global, objects: &str) -> Result<String, AllocError> {
    let first = room(alloc, "E0S0", 9, "")?;
    let second = room(alloc, "E1S0", 9, objects)?;
    let players =
        "{\"player\":9,\"limit\":0},{\"player\":7,\"token\":\"b!~\",\"limit\":20,\"bucket\":5,\"points\":6,\"memory\":\"00fa9b\"}";
    format!(in alloc;
        "{{\"version\":1,\"tick\":3,\"rooms\":[{first},{second}],\"players\":[{players}]}}"
    )
}

/// What a file of these bytes says.
pub fn read_file(alloc: Global, bytes: &[u8]) -> Result<WorldFile, Fail> {
    match read_world(alloc, bytes) {
        Ok(file) => Ok(file),
        Err(_) => Err("refused".into()),
    }
}

/// What the file of all kinds says.
pub fn all_kinds(alloc: Global) -> Result<WorldFile, Fail> {
    read_file(alloc, file_of(alloc, ALL_KINDS)?.as_bytes())
}
