// The accounts of the players.
ghost use Rattle.std.specs.Prelude.{◌≡◌, IfOk};

use crate::bytes::Bytes;
use std::alloc::{AllocError, Global};

/// A player's account.
#[derive(Drop)]
pub struct Account {
    /// 1 to 2^32 - 1.
    pub player: u32,
    /// The CPU units that he gets in each tick, of 10,000 instructions each.
    pub limit: u32,
    /// The CPU units that he has saved, 0 to 10,000.
    pub bucket: u32,
    /// What his controllers were upgraded by, 0 to 2^53.
    pub points: u64,
    /// What lasts of him from tick to tick, at most 65,536 bytes.
    pub memory: Bytes,
}

impl Account {
    /// The same account once more.
    pub fn copy(&self, alloc: Global) -> Result<Account, AllocError>
        ensures { IfOk result (λ copy. copy ≡ self.now) }
    {
        Ok(Account {
            player: self.player,
            limit: self.limit,
            bucket: self.bucket,
            points: self.points,
            memory: Bytes::of(alloc, self.memory.as_slice())?,
        })
    }
}
