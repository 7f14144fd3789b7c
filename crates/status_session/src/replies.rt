// The texts of replies.
ghost use Rattle.std.specs.Prelude.{◌≡◌, IfOk};
ghost use Rattle.status_session.specs.Replies.{status_reply, line_reply, last_name as last_name_of};

use intent_book::Refusal;
use std::alloc::{AllocError, Global};
use world_hub::{PlayerLine, Summary};

/// What stands for the last result of a player who has none.
const NONE: u8 = 255;

/// The result of an upload that was accepted.
const ACCEPTED: u8 = 0;

// The name of the last result of a player's uploads, by its number.
#[tactic(auto, unfolding(crate::specs::Replies::last_name))]
fn last_name(number: u8) -> &'static str
    ensures { result.now ≡ last_name_of number }
{
    if number == NONE {
        return "none";
    }
    if number == ACCEPTED {
        return "accepted";
    }
    match Refusal::of_number(number) {
        Some(refusal) => refusal.name(),
        None => "",
    }
}

/// The reply to `STATUS`.
pub fn status_text(alloc: Global, summary: &Summary) -> Result<Vec<u8>, AllocError>
    ensures { IfOk result (λ text. text.items ≡ status_reply summary.now) }
{
    let tick = summary.tick;
    let rooms = summary.rooms;
    let objects = summary.objects;
    let energy = summary.energy;
    let text = format!(in alloc; "tick {tick} rooms {rooms} objects {objects} energy {energy}\n")?;
    Ok(text.into_bytes())
}

/// The reply to `PLAYER`, with the line of that player.
pub fn line_text(alloc: Global, line: &PlayerLine) -> Result<Vec<u8>, AllocError>
    ensures { IfOk result (λ text. text.items ≡ line_reply line.now) }
{
    let player = line.player;
    let uploads = line.uploads;
    let last = last_name(line.last);
    let bucket = line.bucket;
    let points = line.points;
    let text = format!(in alloc;
        "player {player} uploads {uploads} last {last} bucket {bucket} points {points}\n"
    )?;
    Ok(text.into_bytes())
}
