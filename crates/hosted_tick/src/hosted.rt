// A world with the modules of its players.
ghost use Rattle.std.specs.Prelude.{◌≡◌, ◌<◌, ◌≤◌, ◌-◌, ◌^◌, [], length, IfOk};
ghost use Rattle.std.specs.FinMap.{from_entries};
ghost use Rattle.std.specs.List.{AllByRecursion};
ghost use Rattle.game_tables.specs.Limits.{most_memory};
ghost use Rattle.world_rules.specs.World.{world_of};
ghost use Rattle.world_rules.specs.Tick.{intents_of};
ghost use Rattle.kept_entries.specs.Split.{AreSplit};
ghost use Rattle.world_rules.specs.Sound.{HaveSerials};
ghost use Rattle.hosted_tick.specs.Hosting.{AreAccepted, AreLinked, IsHosted, modules_of, state_of};
ghost use Rattle.hosted_tick.specs.Next.{AreRuns, Next};

use crate::judge::judge_all;
use crate::modules::Modules;
use crate::restore::link_all;
use crate::runs::run_all;
use intent_book::{Intents, PlayerRun};
use judged_uploads::JudgedUploads;
use kept_entries::{intents_by_room, no_intents_by_room};
use object_store::{Bytes, World};
use player_runs::RunsPlayers;
use room_step::{StepsRooms, all_intents, next_world};
pub use std::alloc::AllocError as NoMemory;
use std::alloc::Global;
use std::collections::BTreeMap;
use std::marker::Model;
use upload_stream::Uploads;
use world_roster::Roster;

/// A world with the modules of its players, each decoded, validated and linked once.
pub struct Hosted {
    world: World,
    modules: Modules,
}

impl Drop for Hosted {
    fn drop(self) {
        let Hosted {
            world: _,
            modules: _,
        } = self;
    }
}

impl Model for Hosted {
    ghost use Rattle.std.specs.Coded.{codes};
    ghost use Rattle.room_table.specs.Tallies.{tallies_code};
    ghost use Rattle.hosted_tick.specs.Hosting.{AreLinked, Held, bytes_of};

    ghost Value = { Held };

    ghost coded = { Prim.hlevel (codes, tallies_code) };

    ghost view = { λ h. record { world = h.world; modules = bytes_of h.modules.entries } };

    ghost invariant = { λ h. AreLinked h.modules.entries };
}

impl Hosted {
    /// The world, to which no module was uploaded yet.
    pub fn new(alloc: Global, world: World) -> Hosted
        ensures { result ≡ record { world = world; modules = [] } }
    {
        Hosted {
            world,
            modules: Modules::new(alloc),
        }
    }

    /// The world with these modules of its players, which were accepted before, each decoded, validated and
    /// linked again.
    pub fn restored(
        alloc: Global,
        world: World,
        modules: BTreeMap<u32, Bytes>,
    ) -> Result<Hosted, NoMemory>
        requires accepted { AreAccepted (from_entries modules.entries) }
        ensures world { IfOk result (λ hosted. hosted.world ≡ world) }
        ensures modules { IfOk result
            (λ hosted. (state_of hosted).modules ≡ from_entries modules.entries) }
    {
        let modules = link_all(alloc, modules)?;
        Ok(Hosted { world, modules })
    }

    /// The world.
    pub fn world(&self) -> &World
        ensures { result.now ≡ self.now.world }
    {
        &self.world
    }

    /// One tick: the uploads are judged in their order, the runner runs each player with a module on the
    /// world as it is, and what the runs want is ruled, with the rooms stepped by the stepper. The two take
    /// players and rooms in whatever order; the runs stand in rising player. An upload that is refused takes
    /// one byte, for its result.
    pub fn tick<'a, P: RunsPlayers, S: StepsRooms>(
        self,
        alloc: Global,
        runner: &P,
        stepper: &S,
        uploads: Uploads<'a>,
    ) -> Result<Ticked<'a>, NoMemory>
        requires runner { P.ready runner.now }
        requires stepper { S.ready stepper.now }
        requires hosted { IsHosted self.world }
        requires tick { self.world.tick < 2 ^ 64 - 1 }
        requires serials { HaveSerials self.world.rooms }
        ensures next { IfOk result
            (λ done. Next (state_of self) uploads.entry done.uploads done.runs.items
            (state_of done.hosted)) }
        ensures hosted { IfOk result (λ done. IsHosted done.hosted.world) }
    {
        let Hosted { world, mut modules } = self;
        let judged = judge_all(alloc, &world, uploads, &mut modules)?;
        let Wanted { runs, lists } = run_players(alloc, runner, &world, &modules)?;
        let after = next_world(alloc, stepper, world, &lists, &runs)?;
        Ok(Ticked {
            hosted: Hosted {
                world: after,
                modules,
            },
            uploads: judged,
            runs,
        })
    }
}

// The runs of a tick, and what they want, room by room.
#[derive(Drop)]
struct Wanted {
    runs: Vec<PlayerRun>,
    lists: Vec<Intents>,
}

// Runs all players on the world as it is. Where its objects stand is listed once, for all of them and to tell
// the rooms of the entries; where nobody has a module it is not listed.
fn run_players<P: RunsPlayers>(
    alloc: Global,
    runner: &P,
    world: &World,
    modules: &Modules,
) -> Result<Wanted, NoMemory>
    requires ready { P.ready runner.now }
    requires hosted { IsHosted world.now }
    requires linked { AreLinked modules.now.entries }
    ensures runs { IfOk result
        (λ wanted. AreRuns (world_of world.now)
        (modules_of modules.now.entries) world.now.accounts wanted.runs.items) }
    ensures rooms { IfOk result (λ wanted. length wanted.lists.items ≡ length world.now.rooms) }
    ensures split { IfOk result
        (λ wanted. AreSplit (world_of world.now) (intents_of wanted.runs.items) wanted.lists.items) }
    ensures few { IfOk result (λ wanted. length (intents_of wanted.runs.items) ≤ 2 ^ 18) }
    ensures short { IfOk result
        (λ wanted. AllByRecursion (λ run. length run.memory ≤ most_memory) wanted.runs.items) }
{
    if modules.is_empty() {
        return Ok(Wanted {
            runs: Vec::new(alloc),
            lists: no_intents_by_room(alloc, world)?,
        });
    }
    let roster = Roster::of(alloc, world)?;
    let runs = run_all(alloc, runner, world, &roster, modules)?;
    let intents = all_intents(alloc, &runs)?;
    let lists = intents_by_room(alloc, world, &roster, &intents)?;
    Ok(Wanted { runs, lists })
}

/// A world after a tick, and what is recorded of the tick.
#[derive(Drop)]
pub struct Ticked<'a> {
    pub hosted: Hosted,
    /// The uploads with their results, in their order.
    pub uploads: JudgedUploads<'a>,
    /// The runs, in rising player.
    pub runs: Vec<PlayerRun>,
}
