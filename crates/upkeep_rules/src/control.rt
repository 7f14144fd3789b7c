// What time does to controllers.
ghost use Rattle.std.specs.Prelude.{◌≡◌, ◌≤◌};
ghost use Rattle.game_tables.specs.declared.kind.Kind.TheVariants.{Controller};
ghost use Rattle.world_rules.specs.Claims.{controller_aged_as, downgraded, full_time, owned_aged};
ghost use Rattle.world_rules.specs.Claims.{reservation_aged};

use game_tables::downgrade_number;
use object_store::Object;

/// A controller that loses a tick of its time, or of its reservation.
pub(crate) fn aged(controller: &Object) -> Object
    ensures { result ≡ controller_aged_as Controller controller.now }
{
    if controller.extra == 0 {
        reservation_aged(controller)
    } else {
        owned_aged(controller)
    }
}

// A controller whose reservation falls by 1 tick, and is gone after the last one.
fn reservation_aged(controller: &Object) -> Object
    ensures { result ≡ reservation_aged controller.now }
{
    if controller.other_ticks > 1 {
        Object {
            other_ticks: controller.other_ticks - 1,
            ..*controller
        }
    } else {
        Object {
            other: 0,
            other_ticks: 0,
            ..*controller
        }
    }
}

// A controller of a level without what was put into it in the tick, whose timer falls by 1, and which loses
// the level where it was the last one.
fn owned_aged(controller: &Object) -> Object
    requires { 1 ≤ controller.now.extra }
    ensures { result ≡ owned_aged controller.now }
{
    let rested = Object {
        other_ticks: 0,
        ..*controller
    };
    if controller.timer > 1 {
        Object {
            timer: controller.timer - 1,
            ..rested
        }
    } else {
        downgraded(&rested)
    }
}

// A controller of the level below, with half of that level's time; of level 0 nobody is the owner.
fn downgraded(controller: &Object) -> Object
    requires { 1 ≤ controller.now.extra }
    ensures { result ≡ downgraded controller.now }
{
    let level = controller.extra - 1;
    Object {
        extra: level,
        owner: if level == 0 { 0 } else { controller.owner },
        progress: 0,
        timer: full_time(level) / 2,
        ..*controller
    }
}

/// The ticks for which a controller keeps a level where nobody upgrades it, and 0 where it has none to lose.
pub fn full_time(level: u32) -> u32
    ensures { result ≡ full_time level }
{
    match u8::try_from(level) {
        Ok(level) => downgrade_number(level).unwrap_or(0),
        Err(_) => 0,
    }
}
