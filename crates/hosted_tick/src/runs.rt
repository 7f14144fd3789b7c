// The runs of a tick.
ghost use Rattle.std.specs.Prelude.{◌≡◌, ◌≤◌, ◌^◌, length, IfOk};
ghost use Rattle.std.specs.List.{AllByRecursion};
ghost use Rattle.game_tables.specs.Limits.{most_memory};
ghost use Rattle.world_rules.specs.Tick.{intents_of};
ghost use Rattle.world_rules.specs.World.{world_of};
ghost use Rattle.hosted_tick.specs.Hosting.{AreLinked, IsHosted, modules_of};
ghost use Rattle.hosted_tick.specs.Next.{AreRuns};
ghost use Rattle.hosted_tick.specs.inner.Listing.{AreListed};

use crate::hosted::NoMemory;
use crate::modules::Modules;
use intent_book::PlayerRun;
use object_store::World;
use player_runs::{PlayerModule, RunsPlayers};
use std::alloc::Global;
use world_roster::Roster;

/// Runs each player that has a module on the same world: the runs, in rising player.
pub(crate) fn run_all<P: RunsPlayers>(
    alloc: Global,
    runner: &P,
    world: &World,
    roster: &Roster,
    modules: &Modules,
) -> Result<Vec<PlayerRun>, NoMemory>
    requires ready { P.ready runner.now }
    requires hosted { IsHosted world.now }
    requires roster { roster.now ≡ (world_of world.now).objects }
    requires linked { AreLinked modules.now.entries }
    ensures runs { IfOk result
        (λ runs. AreRuns (world_of world.now)
        (modules_of modules.now.entries) world.now.accounts runs.items) }
    ensures few { IfOk result (λ runs. length (intents_of runs.items) ≤ 2 ^ 18) }
    ensures short { IfOk result
        (λ runs. AllByRecursion (λ run. length run.memory ≤ most_memory) runs.items) }
{
    let players = players_with_modules(alloc, world, modules)?;
    runner.run_players(alloc, world, roster, &players)
}

// The players of a world who have modules, in rising player.
fn players_with_modules<'a>(
    alloc: Global,
    world: &World,
    modules: &'a Modules,
) -> Result<Vec<PlayerModule<'a>>, NoMemory>
    requires hosted { IsHosted world.now }
    requires linked { AreLinked modules.now.entries }
    ensures { IfOk result (λ players. AreListed world.now (modules_of modules.entry.now.entries)
        world.now.accounts players.items) }
{
    let mut players = Vec::new(alloc);
    for account in world.account_list() {
        if let Some(module) = modules.get(&account.player) {
            players.push(PlayerModule {
                player: account.player,
                linked: &module.linked,
            })?;
        }
    }
    Ok(players)
}
