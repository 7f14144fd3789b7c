// The players of a world file.
ghost use Rattle.std.specs.Prelude.{◌≡◌, ◌≢◌, ◌≤◌, ◌-◌, ◌^◌, List, [], ◌∷◌, IfOk, IfErr};
ghost use Rattle.serde_json.specs.View.{view, items_view};
ghost use Rattle.world_form.specs.Facts.{Defaults, IsList, IsListOf, IsTokenText, IsMemoryText, Player};
ghost use Rattle.world_form.specs.Facts.{SayEach, SaysPlayer};
ghost use Rattle.world_form.specs.FirstFaults.{IsFirst, optional, each_from, values_at, player_checks};
ghost use Rattle.world_form.specs.declared.field.Field.TheVariants as fields;
ghost use Rattle.world_text.specs.inner.Readings.{player_of, SaysAccount, account_checks};
ghost use Rattle.world_text.specs.inner.Drafts.{AreListed, AreSorted};

use crate::draft::Players;
use crate::keys::{optional_number, required_number};
use crate::text::Text;
use crate::values::{memory_of, token_of};
use game_tables::{most_bucket, most_limit, most_points};
use object_store::{Account, Bytes};
use serde_json::Value;
use std::alloc::Global;
use world_form::{Field, WorldFault};

const MOST_PLAYER: u64 = 0xffff_ffff;

/// A player's account and his token.
#[derive(Drop)]
pub struct PlayerDraft {
    pub account: Account,
    pub token: Text,
}

/// The players of a file in rising number, or the first fault of their list.
pub fn read_players(alloc: Global, part: &Value) -> Result<Players, WorldFault>
    ensures ok { IfOk result
        (λ players. (said : List Player) × Defaults fields.Players (IsListOf SaysPlayer) []
        (view part.now) said × AreSorted said players) }
    ensures err { IfErr result (λ e. e ≢ WorldFault.Memory
        → IsFirst (optional fields.Players IsList 0 (view part.now)
        ∷ each_from player_checks 0 (values_at fields.Players (view part.now))) e) }
{
    let values = optional_list(part)?;
    let mut players = read_player_list(alloc, values)?;
    players
        .accounts
        .sort_unstable_by_key(|account| account.player);
    players.tokens.sort_unstable_by_key(|token| token.0);
    Ok(players)
}

// The values of the list of players, which is empty where the key is absent.
fn optional_list(part: &Value) -> Result<&[Value], WorldFault>
    ensures ok { IfOk result
        (λ values. Defaults fields.Players IsList (items_view []) (view part.now) (items_view values.now)) }
    ensures err { IfErr result (optional fields.Players IsList 0 (view part.now)).Fails }
{
    let Some(value) = part.get(Field::Players.key()) else {
        return Ok(&[]);
    };
    match value.as_array() {
        Some(values) => Ok(values),
        None => Err(WorldFault::BadValue(Field::Players, 0)),
    }
}

fn read_player_list(alloc: Global, values: &[Value]) -> Result<Players, WorldFault>
    ensures ok { IfOk result
        (λ players. (said : List Player) × SayEach SaysPlayer (items_view values.now) said
        × AreListed said players) }
    ensures err { IfErr result (λ e. e ≢ WorldFault.Memory
        → IsFirst (each_from player_checks 0 (items_view values.now)) e) }
{
    let mut accounts = Vec::with_capacity(alloc, values.len())?;
    let mut tokens = Vec::with_capacity(alloc, values.len())?;
    for (place, value) in values.iter().enumerate() {
        let PlayerDraft { account, token } = read_player(alloc, value, place as u64)?;
        tokens.push((account.player, token))?;
        accounts.push(account)?;
    }
    Ok(Players { accounts, tokens })
}

// A player, or the first fault of his keys.
fn read_player(alloc: Global, part: &Value, place: u64) -> Result<PlayerDraft, WorldFault>
    ensures ok { IfOk result (λ player. SaysPlayer (view part.now) (player_of player)) }
    ensures err { IfErr result (λ e. e ≢ WorldFault.Memory
        → IsFirst (player_checks place (view part.now)) e) }
{
    let player = required_number(part, Field::Player, place, 1, MOST_PLAYER)?;
    let token = read_token(alloc, part, place)?;
    let account = read_account(alloc, part, place, player as u32)?;
    Ok(PlayerDraft { account, token })
}

// The account of a player, whose number was read before.
fn read_account(alloc: Global, part: &Value, place: u64, player: u32) -> Result<Account, WorldFault>
    ensures ok { IfOk result (SaysAccount (view part.now)) }
    ensures number { IfOk result (λ account. account.player ≡ player) }
    ensures err { IfErr result (λ e. e ≢ WorldFault.Memory
        → IsFirst (account_checks place (view part.now)) e) }
{
    let limit = required_number(part, Field::Limit, place, 0, most_limit() as u64)?;
    let bucket = optional_number(part, Field::Bucket, place, 0, most_bucket() as u64)?;
    let points = optional_number(part, Field::Points, place, 0, most_points())?;
    let memory = read_memory(alloc, part, place)?;
    Ok(Account {
        player,
        limit: limit as u32,
        bucket: bucket as u32,
        points,
        memory,
    })
}

fn read_token(alloc: Global, part: &Value, place: u64) -> Result<Text, WorldFault>
    ensures ok { IfOk result (Defaults fields.Token IsTokenText [] (view part.now)) }
    ensures err { IfErr result (λ e. e ≢ WorldFault.Memory
        → (optional fields.Token IsTokenText place (view part.now)).Fails e) }
{
    let Some(value) = part.get(Field::Token.key()) else {
        return Ok(Text::new(alloc));
    };
    match token_of(alloc, value)? {
        Some(token) => Ok(token),
        None => Err(WorldFault::BadValue(Field::Token, place)),
    }
}

fn read_memory(alloc: Global, part: &Value, place: u64) -> Result<Bytes, WorldFault>
    ensures ok { IfOk result (Defaults fields.Memory IsMemoryText [] (view part.now)) }
    ensures err { IfErr result (λ e. e ≢ WorldFault.Memory
        → (optional fields.Memory IsMemoryText place (view part.now)).Fails e) }
{
    let Some(value) = part.get(Field::Memory.key()) else {
        return Ok(Bytes::new(alloc));
    };
    match memory_of(alloc, value)? {
        Some(memory) => Ok(memory),
        None => Err(WorldFault::BadValue(Field::Memory, place)),
    }
}
