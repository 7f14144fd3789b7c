// The tables by a controller's level.
ghost use Rattle.std.specs.Prelude.{◌≡◌};
ghost use Rattle.game_tables.specs.Levels.{allowed, counts, downgrade_number, total_for_next};

use crate::kind::Kind;

/// The greatest level.
pub const LAST_LEVEL: u8 = 8;

const TOTALS: [Option<u32>; 9] = [
    None,
    Some(200),
    Some(45_000),
    Some(135_000),
    Some(405_000),
    Some(1_215_000),
    Some(3_645_000),
    Some(10_935_000),
    None,
];

const DOWNGRADES: [Option<u32>; 9] = [
    None,
    Some(20_000),
    Some(10_000),
    Some(20_000),
    Some(40_000),
    Some(80_000),
    Some(120_000),
    Some(150_000),
    Some(200_000),
];

/// The progress at which a controller of the level reaches the next, where there is a next.
pub fn total_for_next(level: u8) -> Option<u32>
    ensures { result ≡ total_for_next level }
{
    TOTALS.get(level as usize).copied().unwrap_or(None)
}

/// The full timer, in ticks, after which a controller loses the level, where it has one to lose.
pub fn downgrade_number(level: u8) -> Option<u32>
    ensures { result ≡ downgrade_number level }
{
    DOWNGRADES.get(level as usize).copied().unwrap_or(None)
}

/// How many buildings of a kind a room of the level may have, with those that sites are for.
pub fn allowed(kind: Kind, level: u8) -> u32
    ensures { result ≡ allowed kind level }
{
    row(kind).get(level as usize).copied().unwrap_or(0)
}

// The allowed counts of a kind, from level 0 on.
fn row(kind: Kind) -> &'static [u32]
    ensures { result.now ≡ counts kind }
{
    match kind {
        Kind::Spawn => &[0, 1, 1, 1, 1, 1, 1, 2, 3],
        Kind::Extension => &[0, 0, 5, 10, 20, 30, 40, 50, 60],
        Kind::Storage => &[0, 0, 0, 0, 1, 1, 1, 1, 1],
        Kind::Container => &[5; 9],
        Kind::Road => &[2_500; 9],
        _ => &[],
    }
}
