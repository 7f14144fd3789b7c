// How much there may be in a world.
ghost use Rattle.std.specs.Prelude.{◌≡◌, ◌^◌};
ghost use Rattle.game_tables.specs.Limits.{most_bucket, most_limit, most_memory, most_objects, most_players};
ghost use Rattle.game_tables.specs.Limits.{most_points, most_rooms, most_sites, unit_instructions};

/// The most rooms.
pub fn most_rooms() -> u32
    ensures { result ≡ most_rooms }
{
    400
}

/// The most objects, over all rooms.
pub fn most_objects() -> u32
    ensures { result ≡ most_objects }
{
    20_000
}

/// The most players.
pub fn most_players() -> u32
    ensures { result ≡ most_players }
{
    64
}

/// The most sites of one player.
pub fn most_sites() -> u32
    ensures { result ≡ most_sites }
{
    100
}

/// The most bytes of a player's memory text.
pub fn most_memory() -> u32
    ensures { result ≡ most_memory }
{
    65_536
}

/// The most CPU units that a player gets in a tick.
pub fn most_limit() -> u32
    ensures { result ≡ most_limit }
{
    500
}

/// The most CPU units that a player saves.
pub fn most_bucket() -> u32
    ensures { result ≡ most_bucket }
{
    10_000
}

/// The instructions of a CPU unit.
pub fn unit_instructions() -> u64
    ensures { result ≡ unit_instructions }
{
    10_000
}

/// The most points of a player.
pub fn most_points() -> u64
    ensures { result ≡ most_points }
{
    0x20_0000_0000_0000
}
