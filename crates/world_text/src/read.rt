// A world file, from its bytes to a world.
ghost use Rattle.std.specs.Prelude.{◌≡◌, ◌≢◌, ◌≤◌, ◌^◌, IfOk, IfErr, OnOk};
ghost use Rattle.world_rules.specs.World.{World as GameWorld, listing_of, world_of, world_listed};
ghost use Rattle.world_rules.specs.Rules.{KeepsRules};
ghost use Rattle.world_rules.specs.Sound.{IsSound};
ghost use Rattle.world_form.specs.Facts.{Filed, filed_listing};
ghost use Rattle.world_form.specs.Files.{AreTokens, HasFault, Lists, Says, WorldForm};
ghost use Rattle.world_form.specs.Written.{IsWritable};
ghost use Rattle.world_text.specs.inner.Drafts.{drafted, BreaksFirst, IsDraft, IsInOrder, HavePlaces};

use crate::build::{add_accounts, add_rooms, views_of};
use crate::draft::Draft;
use crate::file::{read_file, read_json};
use crate::tokens::Tokens;
use game_tables::{most_players, most_rooms};
use object_store::World;
use rule_check::first_broken;
use std::alloc::Global;
use world_form::WorldFault;
use world_rules::Rule;

/// What a world file says.
#[derive(Drop)]
pub struct WorldFile {
    pub world: World,
    /// The players' tokens, in rising number. A player without one has the empty text.
    pub tokens: Tokens,
}

/// Reads a world file of at most 64 MiB.
///
/// Of the faults of its keys the answer is the first one from the top down: the version, the tick,
/// each room with its own keys and then its objects, each player. The rules are tested after that.
pub fn read_world(alloc: Global, bytes: &[u8]) -> Result<WorldFile, WorldFault>
    // What is read is what the file says, and the tokens are its players', in rising number.
    ensures ok { IfOk result (λ file. (filed : Filed) × Lists bytes.now filed
        × (world_of file.world ≡ world_listed (filed_listing filed)) × AreTokens filed.players file.tokens) }
    ensures form { IfOk result (λ file. WorldForm bytes.now (world_of file.world)) }
    ensures sound { IfOk result (λ file. IsSound file.world) }
    ensures tick { IfOk result (λ file. file.world.tick ≤ 2 ^ 53) }
    ensures writable { IfOk result (λ file. IsWritable file.world) }

    // Each fault is the first that the bytes have, and bytes with a fault are no world file.
    ensures fault { IfErr result (HasFault bytes.now) }
    ensures refused { IfErr result (λ e. e ≢ WorldFault.Memory → (world : GameWorld)
        → WorldForm bytes.now world → ⊥) }
{
    let draft = read_draft(alloc, bytes)?;
    test_rules(alloc, &draft)?;
    let mut world = World::empty(alloc, draft.tick);
    add_rooms(alloc, &mut world, draft.rooms)?;
    let players = draft.players;
    add_accounts(&mut world, players.accounts)?;
    Ok(WorldFile {
        world,
        tokens: Tokens::of(players.tokens),
    })
}

// What the keys of a file list.
fn read_draft(alloc: Global, bytes: &[u8]) -> Result<Draft, WorldFault>
    ensures ok { IfOk result (λ draft. (filed : Filed) × Says bytes.now filed × IsDraft filed draft) }
    ensures fault { IfErr result (HasFault bytes.now) }
{
    let value = read_json(alloc, bytes)?;
    read_file(alloc, &value)
}

// Tests the rules on a draft.
fn test_rules(alloc: Global, draft: &Draft) -> Result<(), WorldFault>
    requires { IsInOrder draft.now }
    ensures kept { OnOk result (KeepsRules (drafted draft.now)) }
    ensures broken { IfErr result (BreaksFirst (drafted draft.now)) }
{
    if draft.rooms.len() > most_rooms() as usize
        || draft.players.accounts.len() > most_players() as usize
    {
        return Err(WorldFault::Rule(Rule::Counts, 0));
    }
    let views = views_of(alloc, &draft.rooms)?;
    match first_broken(alloc, &views, &draft.players.accounts)? {
        Some((rule, number)) => Err(WorldFault::Rule(rule, number)),
        None => Ok(()),
    }
}
