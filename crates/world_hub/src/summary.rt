// What players are told of the world after a tick.
ghost use Rattle.std.specs.Prelude.{◌≤◌};

mod calls;

/// What players are told of one player.
#[derive(Clone, Copy)]
pub struct PlayerLine {
    pub player: u32,
    pub uploads: u64,
    pub last: u8,
    pub bucket: u32,
    pub points: u64,
}

/// How many players a summary has at most.
pub const LINES: usize = 64;

/// What players are told of the world, with a line for each player. It needs no memory.
#[derive(Clone, Copy)]
pub struct Summary {
    pub tick: u64,
    pub rooms: u32,
    pub objects: u64,
    pub energy: u64,
    lines: [PlayerLine; 64],
    count: usize,
    ghost few: { count ≤ 64 },
}
