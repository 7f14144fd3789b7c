// A creep's body.
ghost use Rattle.std.specs.Prelude.{◌≡◌, ◌-◌, ◌<◌, ◌≤◌, [], ◌∷◌, ◌++◌, ◌↔◌, IsTrue, length, slice_get};
ghost use Rattle.std.specs.Prelude.{option_copied};
ghost use Rattle.game_tables.specs.Bodies.{body_cost, has_part, lifetime, live_count, live_parts, load_room};
ghost use Rattle.game_tables.specs.Bodies.{part_hits, most_parts};

use crate::kind::Part;
use std::marker::Model;

/// A list of at most 50 parts, held without an allocation.
///
/// The places past its end hold `Part::Move`, so that equal lists are equal bodies.
#[derive(Clone, Copy)]
pub struct Body {
    parts: [Part; 50],
    len: u8,
}

impl Model for Body {
    ghost use Rattle.std.specs.Prelude.{List};
    ghost use Rattle.game_tables.specs.declared.kind.Part.{Part};

    ghost Value = { List Part };

    ghost use Rattle.game_tables.specs.inner.Held.{parts_of, IsHeld, held, held_ok};

    ghost view = { parts_of };

    ghost invariant = { IsHeld };

    ghost inverse = { held };

    ghost inverse_ok = { held_ok };
}

/// The most parts of a body.
pub fn most_parts() -> u32
    ensures { result ≡ most_parts }
{
    50
}

impl Body {
    /// The empty body.
    pub fn new() -> Body
        ensures { result ≡ [] }
    {
        Body {
            parts: [Part::Move; 50],
            len: 0,
        }
    }

    /// The number of parts.
    pub fn len(&self) -> u64
        ensures { result ≡ length self.now }
    {
        self.len as u64
    }

    /// Whether there is no part.
    pub fn is_empty(&self) -> bool
        ensures { IsTrue result ↔ (self.now ≡ []) }
    {
        self.len == 0
    }

    /// The part at a place, from 0 on.
    pub fn nth(&self, i: u64) -> Option<&Part>
        ensures { option_copied result ≡ slice_get self.now i }
    {
        self.parts().get(i as usize)
    }

    /// The parts, in order.
    pub fn parts(&self) -> &[Part]
        ensures same { result.now ≡ self.now }
        ensures most { length result.now ≤ 50 }
    {
        &self.parts[..self.len as usize]
    }

    /// The energy that the body costs.
    pub fn cost(&self) -> u32
        ensures { result ≡ body_cost self.now }
    {
        self.parts().iter().map(|part| part.cost()).sum()
    }

    /// Whether the body has the part.
    pub fn has(&self, part: Part) -> bool
        ensures { result ≡ has_part part self.now }
    {
        self.parts()
            .iter()
            .any(|other| part.number() == other.number())
    }

    /// How many ticks a creep of the body lives.
    pub fn lifetime(&self) -> u32
        ensures { result ≡ lifetime self.now }
    {
        if self.has(Part::Claim) { 600 } else { 1_500 }
    }

    /// The hits of the part at a place, from 0 on, of a creep that has these hits.
    pub fn part_hits(&self, i: u64, hits: u32) -> u32
        requires { i < length self.now }
        ensures { result ≡ part_hits hits (length self.now - 1 - i) }
    {
        let after = (self.parts().len() as u64 - 1 - i) as u32;
        hits.saturating_sub(100 * after).min(100)
    }

    /// The parts that have hits, in order, of a creep that has these hits.
    pub fn live_parts(&self, hits: u32) -> &[Part]
        ensures same { result.now ≡ live_parts hits self.now }
        ensures most { length result.now ≤ 50 }
    {
        let parts = self.parts();
        let dead = parts.len().saturating_sub(hits.div_ceil(100) as usize);
        &parts[dead..]
    }

    /// How many live parts of a kind a creep that has these hits has.
    pub fn live(&self, part: Part, hits: u32) -> u32
        ensures count { result ≡ live_count part hits self.now }
        ensures most { result ≤ 50 }
    {
        let live = self.live_parts(hits);
        live.iter()
            .filter(|other| part.number() == other.number())
            .count() as u32
    }

    /// The energy that a creep that has these hits can carry.
    pub fn capacity(&self, hits: u32) -> u32
        ensures { result ≡ load_room hits self.now }
    {
        50 * self.live(Part::Carry, hits)
    }

    /// Adds a part at the end.
    pub fn push(&mut self, part: Part)
        requires { length self.old < 50 }
        ensures { self.new ≡ self.old ++ part ∷ [] }
    {
        self.parts[self.len as usize] = part;
        self.len += 1;
    }
}
