// The keys of a world file.
ghost use Rattle.std.specs.Prelude.{◌≡◌};
ghost use Rattle.world_form.specs.Keys.{key};

/// A key of a world file.
#[derive(Clone, Copy, Debug, PartialEq, Eq)]
pub enum Field {
    Version,
    Tick,
    Rooms,
    Players,
    Name,
    Terrain,
    Next,
    Objects,
    Id,
    Kind,
    X,
    Y,
    Owner,
    Body,
    Hits,
    Energy,
    Timer,
    Extra,
    Progress,
    Other,
    OtherTicks,
    Player,
    Token,
    Limit,
    Bucket,
    Points,
    Memory,
}

impl Field {
    /// The key as the file spells it.
    pub fn key(self) -> &'static str
        ensures { result.now ≡ key self }
    {
        match self {
            Field::Version => "version",
            Field::Tick => "tick",
            Field::Rooms => "rooms",
            Field::Players => "players",
            Field::Name => "name",
            Field::Terrain => "terrain",
            Field::Next => "next",
            Field::Objects => "objects",
            Field::Id => "id",
            Field::Kind => "kind",
            Field::X => "x",
            Field::Y => "y",
            Field::Owner => "owner",
            Field::Body => "body",
            Field::Hits => "hits",
            Field::Energy => "energy",
            Field::Timer => "timer",
            Field::Extra => "extra",
            Field::Progress => "progress",
            Field::Other => "other",
            Field::OtherTicks => "other_ticks",
            Field::Player => "player",
            Field::Token => "token",
            Field::Limit => "limit",
            Field::Bucket => "bucket",
            Field::Points => "points",
            Field::Memory => "memory",
        }
    }
}
