// How a run ends.
ghost use Rattle.std.specs.Prelude.{◌≡◌, string_bytes, IfOk};
ghost use Rattle.run_status.specs.Faults.{byte_text as text_of_byte, differs_text, field_name, kind_name};
ghost use Rattle.run_status.specs.Faults.{other_world_text, rule_name, world_fault_text, status_number};
ghost use Rattle.run_status.specs.Faults.{status_text, fault_text};

use game_tables::Kind;
use player_run::Refusal;
use std::alloc::{AllocError, Global};
use world_rules::Rule;
use world_text::{Field, WorldFault};

/// How a call of the program ends, with its exit status.
#[derive(Clone, Copy, Debug, PartialEq, Eq)]
pub enum Status {
    /// 0: all was done.
    Done,
    /// 2: the words are none of the program's.
    Usage,
    /// 3: the world file is refused.
    World(WorldFault),
    /// 4: the upload stream is refused, at this place.
    Uploads(u64),
    /// 5: a source failed.
    ReadFault,
    /// 6: the sink failed.
    WriteFault,
    /// 7: the disk failed.
    DiskFault,
    /// 8: the journal is refused, at this place.
    NotAJournal(u64),
    /// 9: the journal begins with another world than that of the file. Their base contents differ first at
    /// this place, where they have these bytes; a content that ends there has none.
    OtherWorld {
        at: u64,
        kept: Option<u8>,
        given: Option<u8>,
    },
    /// 10: the room of this index has too few serials left for a tick.
    IdsExhausted(u32),
    /// 11: there is not enough memory.
    Memory,
    /// 12: the module is refused.
    Refused(Refusal),
    /// 13: the journal's worlds are those of the ticks from the first to the last, and the one that is asked
    /// for is none of them.
    NoSuchTick {
        first: u64,
        last: u64,
    },
    /// 14: the record of this tick is not what the rules make of the world before it. The byte forms of this
    /// room differ first at this place, where they have these bytes; a form that ends there has none.
    Differs {
        tick: u64,
        room: u32,
        at: u64,
        kept: Option<u8>,
        ruled: Option<u8>,
    },
    /// 15: there is no journal: nothing was ever recorded on the disk.
    NoJournal,
}

impl Status {
    /// Its exit status.
    pub fn number(self) -> u8
        ensures { result ≡ status_number self }
    {
        match self {
            Status::Done => 0,
            Status::Usage => 2,
            Status::World(_) => 3,
            Status::Uploads(_) => 4,
            Status::ReadFault => 5,
            Status::WriteFault => 6,
            Status::DiskFault => 7,
            Status::NotAJournal(_) => 8,
            Status::OtherWorld { .. } => 9,
            Status::IdsExhausted(_) => 10,
            Status::Memory => 11,
            Status::Refused(_) => 12,
            Status::NoSuchTick { .. } => 13,
            Status::Differs { .. } => 14,
            Status::NoJournal => 15,
        }
    }

    /// The line that the program prints for it, with its line feed: `fault N TEXT`.
    pub fn fault_line(self, alloc: Global) -> Result<Vec<u8>, AllocError>
        ensures { IfOk result (λ line. line.items ≡ fault_text self) }
    {
        let number = self.number();
        let text = self.text(alloc)?;
        let line = format!(in alloc; "fault {number} {text}\n")?;
        Ok(line.into_bytes())
    }

    // Its name, and its values each after a space.
    fn text(self, alloc: Global) -> Result<String, AllocError>
        ensures { IfOk result (λ text. string_bytes text ≡ status_text self) }
    {
        match self {
            Status::Done => String::from_str(alloc, "Done"),
            Status::Usage => String::from_str(alloc, "Usage"),
            Status::World(fault) => {
                let text = world_fault(alloc, fault)?;
                format!(in alloc; "World {text}")
            }
            Status::Uploads(place) => format!(in alloc; "Uploads {place}"),
            Status::ReadFault => String::from_str(alloc, "ReadFault"),
            Status::WriteFault => String::from_str(alloc, "WriteFault"),
            Status::DiskFault => String::from_str(alloc, "DiskFault"),
            Status::NotAJournal(place) => format!(in alloc; "NotAJournal {place}"),
            Status::OtherWorld { at, kept, given } => other_world(alloc, at, kept, given),
            Status::IdsExhausted(index) => format!(in alloc; "IdsExhausted {index}"),
            Status::Memory => String::from_str(alloc, "Memory"),
            Status::Refused(refusal) => {
                let name = refusal.name();
                format!(in alloc; "Refused {name}")
            }
            Status::NoSuchTick { first, last } => format!(in alloc; "NoSuchTick {first} {last}"),
            Status::Differs {
                tick,
                room,
                at,
                kept,
                ruled,
            } => differs(alloc, tick, room, at, kept, ruled),
            Status::NoJournal => String::from_str(alloc, "NoJournal"),
        }
    }
}

// That a journal begins with another world: where, and the two bytes.
fn other_world(
    alloc: Global,
    at: u64,
    kept: Option<u8>,
    given: Option<u8>,
) -> Result<String, AllocError>
    ensures { IfOk result (λ text. string_bytes text ≡ other_world_text at kept given) }
{
    let one = byte_text(alloc, kept)?;
    let other = byte_text(alloc, given)?;
    let text = format!(in alloc; "OtherWorld {at} {one} {other}")?;
    Ok(text)
}

// That a record is not what the rules make: where, and the two bytes.
fn differs(
    alloc: Global,
    tick: u64,
    room: u32,
    at: u64,
    kept: Option<u8>,
    ruled: Option<u8>,
) -> Result<String, AllocError>
    ensures { IfOk result (λ text. string_bytes text ≡ differs_text tick room at kept ruled) }
{
    let one = byte_text(alloc, kept)?;
    let other = byte_text(alloc, ruled)?;
    let text = format!(in alloc; "Differs {tick} {room} {at} {one} {other}")?;
    Ok(text)
}

// A byte in decimal, or `none`.
fn byte_text(alloc: Global, byte: Option<u8>) -> Result<String, AllocError>
    ensures { IfOk result (λ text. string_bytes text ≡ text_of_byte byte) }
{
    match byte {
        Some(byte) => format!(in alloc; "{byte}"),
        None => String::from_str(alloc, "none"),
    }
}

// A fault of a world file: its name, and its values each after a space.
fn world_fault(alloc: Global, fault: WorldFault) -> Result<String, AllocError>
    ensures { IfOk result (λ text. string_bytes text ≡ world_fault_text fault) }
{
    match fault {
        WorldFault::TooLong => String::from_str(alloc, "TooLong"),
        WorldFault::NotJson => String::from_str(alloc, "NotJson"),
        WorldFault::Missing(field) => {
            let name = name_of_field(field);
            format!(in alloc; "Missing {name}")
        }
        WorldFault::BadValue(field, place) => {
            let name = name_of_field(field);
            format!(in alloc; "BadValue {name} {place}")
        }
        WorldFault::NotBuilt(kind) => {
            let name = name_of_kind(kind);
            format!(in alloc; "NotBuilt {name}")
        }
        WorldFault::Rule(rule, number) => {
            let name = name_of_rule(rule);
            format!(in alloc; "Rule {name} {number}")
        }
        WorldFault::Memory => String::from_str(alloc, "Memory"),
    }
}

// The name of a field in a fault line.
fn name_of_field(field: Field) -> &'static str
    ensures { result.now ≡ field_name field }
{
    match field {
        Field::Version => "Version",
        Field::Tick => "Tick",
        Field::Rooms => "Rooms",
        Field::Players => "Players",
        Field::Name => "Name",
        Field::Terrain => "Terrain",
        Field::Next => "Next",
        Field::Objects => "Objects",
        Field::Id => "Id",
        Field::Kind => "Kind",
        Field::X => "X",
        Field::Y => "Y",
        Field::Owner => "Owner",
        Field::Body => "Body",
        Field::Hits => "Hits",
        Field::Energy => "Energy",
        Field::Timer => "Timer",
        Field::Extra => "Extra",
        Field::Progress => "Progress",
        Field::Other => "Other",
        Field::OtherTicks => "OtherTicks",
        Field::Player => "Player",
        Field::Token => "Token",
        Field::Limit => "Limit",
        Field::Bucket => "Bucket",
        Field::Points => "Points",
        Field::Memory => "Memory",
    }
}

// The name of a kind in a fault line.
fn name_of_kind(kind: Kind) -> &'static str
    ensures { result.now ≡ kind_name kind }
{
    match kind {
        Kind::Source => "Source",
        Kind::Controller => "Controller",
        Kind::Creep => "Creep",
        Kind::Spawn => "Spawn",
        Kind::Extension => "Extension",
        Kind::Storage => "Storage",
        Kind::Container => "Container",
        Kind::Road => "Road",
        Kind::Pile => "Pile",
        Kind::Site => "Site",
        Kind::Tower => "Tower",
        Kind::Rampart => "Rampart",
        Kind::Wall => "Wall",
        Kind::Tombstone => "Tombstone",
    }
}

// The name of a rule in a fault line.
fn name_of_rule(rule: Rule) -> &'static str
    ensures { result.now ≡ rule_name rule }
{
    match rule {
        Rule::Counts => "Counts",
        Rule::RoomTwice => "RoomTwice",
        Rule::Corner => "Corner",
        Rule::Serial => "Serial",
        Rule::IdTwice => "IdTwice",
        Rule::Tile => "Tile",
        Rule::Shared => "Shared",
        Rule::Owner => "Owner",
        Rule::Controllers => "Controllers",
        Rule::Range => "Range",
        Rule::PlayerTwice => "PlayerTwice",
        Rule::Sites => "Sites",
    }
}
