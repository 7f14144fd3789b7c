// One player's run of a tick.
ghost use Rattle.std.specs.Prelude.{◌≡◌, ◌≤◌, length, Some, IfOk};
ghost use Rattle.game_tables.specs.Limits.{most_memory, most_rooms};
ghost use Rattle.object_store.specs.declared.account.Account.{Account};
ghost use Rattle.object_store.specs.Stored.{HasAccount, find_account};
ghost use Rattle.intent_book.specs.Records.{entries_bound};
ghost use Rattle.world_rules.specs.Sound.{IsSound};
ghost use Rattle.world_rules.specs.World.{world_of};
ghost use Rattle.visible_view.specs.Sights.{sight_of};
ghost use Rattle.wasm_link.specs.Kept.{link_view};
ghost use Rattle.player_run.specs.Emitted.{EmitsBy, fuel_of};

use crate::outcome::{instructions, run_outcome};
use game_tables::unit_instructions;
use host_calls::{Desk, DeskRoom, allowance};
use intent_book::PlayerRun;
use object_store::{Account, Bytes, World};
pub use std::alloc::AllocError as NoMemory;
use std::alloc::Global;
use visible_view::View;
use wasm_link::Linked;
use wasm_machine::Machine;
use world_roster::Roster;

/// The room that runs of players take, one after the other.
pub struct RunRoom<'a> {
    machine: Machine<'a>,
    /// None where a desk works in it, and where a run ended for want of memory.
    desk: Option<DeskRoom>,
}

impl Drop for RunRoom<'_> {
    fn drop(self) {
        let RunRoom {
            machine: _,
            desk: _,
        } = self;
    }
}

impl<'a> RunRoom<'a> {
    /// Room in which nothing was run yet.
    pub fn new(alloc: Global) -> Result<RunRoom<'a>, NoMemory> {
        Ok(RunRoom {
            machine: Machine::new(alloc)?,
            desk: Some(DeskRoom::new(alloc)?),
        })
    }

    // The room of the desk, taken out.
    fn take_desk(&mut self, alloc: Global) -> Result<DeskRoom, NoMemory> {
        match self.desk.take() {
            Some(room) => Ok(room),
            None => DeskRoom::new(alloc),
        }
    }
}

/// Runs a player's module on what he sees of the world, with the instructions that his account
/// allows: 10,000 for each CPU unit. The instance is made anew, and what was recorded and written to
/// the memory text before a trap or the end of the allowance stands.
pub fn run_player(
    alloc: Global,
    linked: &Linked,
    world: &World,
    player: u32,
) -> Result<PlayerRun, NoMemory>
    requires account { HasAccount player world.now.accounts }
    requires memory { (account : Account) → find_account player world.now.accounts ≡ Some account
        → length account.memory ≤ most_memory }
    requires sound { IsSound world.now }
    requires rooms { length world.now.rooms ≤ most_rooms }
    ensures emitted { IfOk result
        (λ run. (account : Account) × (find_account player world.now.accounts ≡ Some account)
        × EmitsBy (link_view linked.now) (sight_of (world_of world.now) account) run
        × (run.used ≤ fuel_of account)) }
    ensures few { IfOk result (λ run. length run.intents ≤ entries_bound) }
    ensures short { IfOk result (λ run. length run.memory ≤ most_memory) }
{
    let roster = Roster::of(alloc, world)?;
    run_player_among(alloc, linked, world, &roster, player)
}

/// Runs a player's module as `run_player` does, on what he sees among the world's objects, which are
/// listed once for all players.
pub fn run_player_among<'a>(
    alloc: Global,
    linked: &Linked,
    world: &'a World,
    roster: &Roster<'a>,
    player: u32,
) -> Result<PlayerRun, NoMemory>
    requires account { HasAccount player world.now.accounts }
    requires memory { (account : Account) → find_account player world.now.accounts ≡ Some account
        → length account.memory ≤ most_memory }
    requires sound { IsSound world.now }
    requires rooms { length world.now.rooms ≤ most_rooms }
    requires roster { roster.now ≡ (world_of world.now).objects }
    ensures emitted { IfOk result
        (λ run. (account : Account) × (find_account player world.now.accounts ≡ Some account)
        × EmitsBy (link_view linked.now) (sight_of (world_of world.now) account) run
        × (run.used ≤ fuel_of account)) }
    ensures few { IfOk result (λ run. length run.intents ≤ entries_bound) }
    ensures short { IfOk result (λ run. length run.memory ≤ most_memory) }
{
    let mut room = RunRoom::new(alloc)?;
    run_player_in(alloc, &mut room, linked, world, roster, player)
}

/// Runs a player's module as `run_player_among` does, in the room of earlier runs, of which nothing is left.
/// Beside it a run takes what a player sees, the instance's memory, globals and table, and what comes of the
/// run.
pub fn run_player_in<'a, 'w>(
    alloc: Global,
    room: &mut RunRoom<'a>,
    linked: &'a Linked,
    world: &'w World,
    roster: &Roster<'w>,
    player: u32,
) -> Result<PlayerRun, NoMemory>
    requires account { HasAccount player world.now.accounts }
    requires memory { (account : Account) → find_account player world.now.accounts ≡ Some account
        → length account.memory ≤ most_memory }
    requires sound { IsSound world.now }
    requires rooms { length world.now.rooms ≤ most_rooms }
    requires roster { roster.now ≡ (world_of world.now).objects }
    ensures emitted { IfOk result
        (λ run. (account : Account) × (find_account player world.now.accounts ≡ Some account)
        × EmitsBy (link_view linked.entry.now) (sight_of (world_of world.now) account) run
        × (run.used ≤ fuel_of account)) }
    ensures few { IfOk result (λ run. length run.intents ≤ entries_bound) }
    ensures short { IfOk result (λ run. length run.memory ≤ most_memory) }
{
    let view = View::among(alloc, world, roster, player)?;
    run_view(alloc, room, linked, &view, player)
}

// Runs a module on what its player sees.
fn run_view<'a>(
    alloc: Global,
    room: &mut RunRoom<'a>,
    linked: &'a Linked,
    view: &View,
    player: u32,
) -> Result<PlayerRun, NoMemory>
    requires own { player ≡ view.now.account.player }
    requires memory { length view.now.account.memory ≤ most_memory }
    ensures emitted { IfOk result (EmitsBy (link_view linked.entry.now) view.now) }
    ensures used { IfOk result (λ run. run.used ≤ fuel_of view.now.account) }
    ensures few { IfOk result (λ run. length run.intents ≤ entries_bound) }
    ensures short { IfOk result (λ run. length run.memory ≤ most_memory) }
{
    let account = view.account();
    let lent = room.take_desk(alloc)?;
    let mut desk = Desk::over(alloc, view, player, account.memory.as_slice(), lent)?;
    let outcome = room.machine.run(alloc, linked, &mut desk, fuel(account))?;
    let intents = desk.book().canonical(alloc)?;
    let memory = Bytes::of(alloc, desk.memory())?;
    room.desk = Some(desk.into_room());
    Ok(PlayerRun {
        player,
        outcome: run_outcome(outcome),
        used: instructions(outcome),
        intents,
        memory,
    })
}

// The instructions that a player's module may use in this tick.
fn fuel(account: &Account) -> u64
    ensures { result ≡ fuel_of account.now }
{
    unit_instructions() * allowance(account)
}
