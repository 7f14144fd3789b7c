// How a summary is made and read.
ghost use Rattle.std.specs.Prelude.{◌≡◌, ◌≤◌, length, All, Contains, IfSome, IfNone};
ghost use Rattle.world_hub.specs.Summary.{lines_of, IsOf};

use super::{LINES, PlayerLine, Summary};

const NOBODY: PlayerLine = PlayerLine {
    player: 0,
    uploads: 0,
    last: 255,
    bucket: 0,
    points: 0,
};

impl Summary {
    /// A summary of a world with these numbers and lines.
    pub fn new(tick: u64, rooms: u32, objects: u64, energy: u64, lines: &[PlayerLine]) -> Summary
        requires { length lines.now ≤ 64 }
        ensures world { (result.tick ≡ tick) × (result.rooms ≡ rooms) × (result.objects ≡ objects)
            × (result.energy ≡ energy) }
        ensures lines { lines_of result ≡ lines.now }
    {
        let mut kept = [NOBODY; 64];
        for i in 0..lines.len() {
            kept[i] = lines[i];
        }
        Summary {
            tick,
            rooms,
            objects,
            energy,
            lines: kept,
            count: lines.len(),
        }
    }

    /// The line of a player, if there is one.
    pub fn line(&self, player: u32) -> Option<PlayerLine>
        ensures some { IfSome result (λ l. Contains (lines_of self.now) l × IsOf player l) }
        ensures none { IfNone result (All (λ l. ¬ IsOf player l) (lines_of self.now)) }
    {
        for i in 0..self.count {
            if self.lines[i].player == player {
                return Some(self.lines[i]);
            }
        }
        None
    }
}
