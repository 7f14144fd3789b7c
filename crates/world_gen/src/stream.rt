// The uploads of the players of a generated world.
ghost use Rattle.std.specs.Prelude.{◌≡◌, ◌+◌, ◌<◌, ◌≤◌, ◌^◌, ◌++◌, ℕ, List, length, IfOk, OnOk};
ghost use Rattle.byte_fields.specs.Front.{SpellsShortest};
ghost use Rattle.upload_stream.specs.Streams.{UploadList, entry_bytes};
ghost use Rattle.wasm_module.specs.Sections.{Spells};
ghost use Rattle.world_gen.specs.PlayerModule.{player_module};
ghost use Rattle.world_gen.specs.Uploads.{upload, uploads, uploads_to};

use crate::NoMemory;
use crate::whole::player_module;
use crate::worlds::players_of;
use byte_fields::{put_u32, put_u64};
use std::alloc::{AllocError, Global};
use wasm_encode::encode;

/// The upload stream of a generated world: in tick 0 each of its players, in rising number, uploads
/// the players' module in its shortest form.
///
/// The seed changes nothing.
pub fn generate_uploads(alloc: Global, _seed: u64, rooms: u32) -> Result<Vec<u8>, NoMemory>
    requires some { 1 ≤ rooms }
    requires most { rooms ≤ 400 }
    ensures found { IfOk result (λ bytes. (text : List ℕ) × SpellsShortest Spells text player_module
        × UploadList bytes.items (uploads text rooms)) }
    ensures only { IfOk result (λ bytes. (text : List ℕ) → SpellsShortest Spells text player_module
        → UploadList bytes.items (uploads text rooms)) }
{
    let text = module_text(alloc)?;
    let bytes = entries(alloc, &text, players_of(rooms))?;
    Ok(bytes)
}

// The players' module in its shortest form.
#[tactic(auto, using(crate::proofs::Streamed::spelled_as))]
fn module_text(alloc: Global) -> Result<Vec<u8>, NoMemory>
    ensures shortest { IfOk result (λ text. SpellsShortest Spells text.items player_module) }
    ensures once { IfOk result (λ text. (other : List ℕ) → SpellsShortest Spells other player_module
        → other ≡ text.items) }
{
    let whole = player_module(alloc)?;
    let text = encode(alloc, &whole)?;
    Ok(text)
}

// The entries of the first players, who upload the same text.
#[tactic(auto, using(crate::proofs::Streamed::uploads_none, crate::proofs::Streamed::upload_next))]
fn entries(alloc: Global, text: &[u8], players: u32) -> Result<Vec<u8>, NoMemory>
    requires { players ≤ 8 }
    ensures { IfOk result (λ bytes. UploadList bytes.items (uploads_to text.now players)) }
{
    // A text that its count doesn't fit is none that memory holds.
    if text.len() > u32::MAX as usize {
        return Err(AllocError);
    }
    let mut bytes = Vec::new(alloc);
    for before in 0..players {
        put_entry(&mut bytes, before + 1, text)?;
    }
    Ok(bytes)
}

// Adds the entry of a player for tick 0.
#[tactic(auto, using(crate::proofs::Streamed::entry_whole))]
fn put_entry(bytes: &mut Vec<u8>, player: u32, text: &[u8]) -> Result<(), NoMemory>
    requires { length text.now < 2 ^ 32 }
    ensures { OnOk result (bytes.new.items ≡ bytes.old.items ++ entry_bytes (upload text.now player)) }
{
    let count = text.len() as u32;
    put_u64(bytes, 0)?;
    put_u32(bytes, player)?;
    put_u32(bytes, count)?;
    bytes.extend_from_slice(text)?;
    Ok(())
}
