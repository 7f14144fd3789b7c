// The greatest values of an object's fields between ticks.
ghost use Rattle.std.specs.Prelude.{◌≡◌};
ghost use Rattle.game_tables.specs.Fields.{most_energy, most_extra, most_other_ticks, most_timer};

use crate::body::Body;
use crate::by_kind::{full_timer, renewal_ticks, source_capacity, store_capacity};
use crate::kind::Kind;
use crate::level::{LAST_LEVEL, downgrade_number};

/// The most energy, of a creep by its hits and its body.
pub fn most_energy(kind: Kind, hits: u32, body: &Body) -> u64
    ensures { result ≡ most_energy kind hits body.now }
{
    match kind {
        Kind::Source => source_capacity(true),
        Kind::Creep => body.capacity(hits) as u64,
        Kind::Pile => 1_000_000_000,
        _ => store_capacity(kind, LAST_LEVEL),
    }
}

/// The greatest timer in ticks, of a controller by its level, of a creep and of a spawn by the body.
pub fn most_timer(kind: Kind, level: u8, body: &Body) -> u32
    ensures { result ≡ most_timer kind level body.now }
{
    match kind {
        Kind::Source => renewal_ticks(),
        Kind::Controller => downgrade_number(level).unwrap_or(0),
        Kind::Creep => body.lifetime(),
        Kind::Spawn => 3 * body.parts().len() as u32,
        _ => full_timer(kind, true),
    }
}

/// The greatest `extra`: a controller's level, a creep's fatigue, the number of a site's kind.
pub fn most_extra(kind: Kind) -> u32
    ensures { result ≡ most_extra kind }
{
    match kind {
        Kind::Controller => LAST_LEVEL as u32,
        Kind::Creep => 500,
        Kind::Site => 8,
        _ => 0,
    }
}

/// The greatest `other_ticks`: the ticks of a reservation of a controller.
pub fn most_other_ticks(kind: Kind) -> u32
    ensures { result ≡ most_other_ticks kind }
{
    if kind == Kind::Controller { 5_000 } else { 0 }
}
