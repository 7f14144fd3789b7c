// The judgement of a tick's uploads.
ghost use Rattle.std.specs.Prelude.{◌≡◌, ◌≢◌, Option, None, Some};
ghost use Rattle.std.specs.Prelude.{IfOk, IfErr, OnOk};
ghost use Rattle.std.specs.FinMap.{insert};
ghost use Rattle.world_rules.specs.World.{world_of};
ghost use Rattle.wasm_link.specs.Kept.{link_view};
ghost use Rattle.intent_book.specs.declared.refusal.Refusal.{Refusal};
ghost use Rattle.player_run.specs.Admission.{Accepts};
ghost use Rattle.upload_stream.specs.Entries.{upload_of};
ghost use Rattle.hosted_tick.specs.Hosting.{AreLinked, modules_of};
ghost use Rattle.hosted_tick.specs.Next.{AreJudged, IsResult, modules_after, result_number};

use crate::hosted::NoMemory;
use crate::modules::{Modules, put};
use judged_uploads::JudgedUploads;
use object_store::{Bytes, World};
use player_run::{Linked, Refusal, admit};
use std::alloc::Global;
use upload_stream::{Upload, Uploads};

/// Judges uploads in their order, and gives them with their results.
pub(crate) fn judge_all<'a>(
    alloc: Global,
    world: &World,
    uploads: Uploads<'a>,
    modules: &mut Modules,
) -> Result<JudgedUploads<'a>, NoMemory>
    requires linked { AreLinked modules.old.entries }
    ensures judged { IfOk result (λ judged. AreJudged (world_of world.now) (modules_of modules.old.entries)
        uploads.entry (modules_of modules.new.entries) judged) }
    ensures linked { OnOk result (AreLinked modules.new.entries) }
{
    let mut left = uploads.copy();
    let mut results = Vec::new(alloc);
    'each: while let Some(upload) = left.next() {
        results.push(settle(alloc, world, &upload, modules)?)?;
    }
    Ok(JudgedUploads::new(uploads, results))
}

// Keeps the module of an upload that is accepted, and says the number of the result.
fn settle(
    alloc: Global,
    world: &World,
    upload: &Upload,
    modules: &mut Modules,
) -> Result<u8, NoMemory>
    requires linked { AreLinked modules.old.entries }
    ensures settled { IfOk result (λ number. (judgement : Option Refusal)
        × IsResult (world_of world.now) (upload_of upload.now) judgement × (number ≡ result_number judgement)
        × (modules_of modules.new.entries ≡ modules_after (modules_of modules.old.entries)
        (upload_of upload.now) judgement)) }
    ensures linked { OnOk result (AreLinked modules.new.entries) }
{
    match decide(alloc, world, upload)? {
        Ok(linked) => {
            keep(alloc, upload, linked, modules)?;
            Ok(0)
        }
        Err(refusal) => Ok(refusal.number()),
    }
}

// Keeps an upload's module as that of its player.
fn keep(
    alloc: Global,
    upload: &Upload,
    linked: Linked,
    modules: &mut Modules,
) -> Result<(), NoMemory>
    requires linked { AreLinked modules.old.entries }
    requires accepted { Accepts upload.now.bytes.now (link_view linked) }
    ensures kept { OnOk result
        (modules_of modules.new.entries
        ≡ insert (modules_of modules.old.entries) upload.now.player upload.now.bytes.now) }
    ensures linked { OnOk result (AreLinked modules.new.entries) }
{
    let bytes = Bytes::of(alloc, upload.bytes)?;
    put(modules, upload.player, bytes, linked)
}

// What becomes of an upload.
fn decide(
    alloc: Global,
    world: &World,
    upload: &Upload,
) -> Result<Result<Linked, Refusal>, NoMemory>
    ensures accepted { IfOk result
        (λ judgement. IfOk judgement (λ linked. IsResult (world_of world.now) (upload_of upload.now) None
        × Accepts upload.now.bytes.now (link_view linked))) }
    ensures refused { IfOk result
        (λ judgement.
        IfErr judgement (λ refusal. IsResult (world_of world.now) (upload_of upload.now) (Some refusal))) }
{
    let Some(_) = world.account(upload.player) else {
        return Ok(Err(Refusal::UnknownPlayer));
    };
    match admit(alloc, upload.bytes) {
        Ok(linked) => Ok(Ok(linked)),
        Err(refusal) => Ok(Err(unless_memory(refusal)?)),
    }
}

/// A refusal, but for want of memory, which judges nothing.
pub(crate) fn unless_memory(refusal: Refusal) -> Result<Refusal, NoMemory>
    ensures { IfOk result (λ same. (same ≡ refusal) × (refusal ≢ Refusal.Memory)) }
{
    match refusal {
        Refusal::Memory => Err(NoMemory),
        _ => Ok(refusal),
    }
}
