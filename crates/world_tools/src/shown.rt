// The world of a tick of a journal.
ghost use Rattle.std.specs.Prelude.{◌≡◌, ◌≢◌, ◌⊎◌, ◌≤◌, ◌++◌, ℕ, List, Some, codes, IfOk, IfErr, OnOk};
ghost use Rattle.object_store.specs.Stored.{Stored};
ghost use Rattle.record_follows.specs.Courses.{IsWorldAt};
ghost use Rattle.tick_journal.specs.declared.tick_record.TickRecord.{TickRecord};
ghost use Rattle.world_form.specs.Written.{written};
ghost use Rattle.world_io.specs.Causes.{Rose};
ghost use Rattle.world_journal.specs.Journals.{IsJournal};
ghost use Rattle.world_tools.specs.Shown.{EndsShowing, IsNotShown, IsShown};
ghost use Rattle.world_tools.specs.inner.Statuses.{status_of_at};

use object_store::World;
use run_status::Status;
use std::alloc::{AllocError, Global};
use world_io::{Disk, Sink, write_all};
use world_journal::{AtFault, world_at};
use world_text::write_world;

/// Writes the world of a tick of the journal on the disk, and a line feed.
pub(crate) fn show_tick<O: Sink, D: Disk>(
    alloc: Global,
    tick: u64,
    out: &mut O,
    disk: &mut D,
) -> Status
    ensures ends { EndsShowing tick (D.seen disk.old) (D.faults disk.old) (D.faults disk.new)
        (O.written out.old) (O.written out.new) result }
    ensures write_fault { result ≡ Status.WriteFault → Rose (O.faults out.old) (O.faults out.new) }
    ensures complete { (bytes : List ℕ) (base world : Stored) (entries : List TickRecord)
        → D.seen disk.old ≡ Some bytes → IsJournal base entries bytes → IsWorldAt base entries tick world
        → (Rose (D.faults disk.old) (D.faults disk.new) → ⊥)
        → (Rose (O.faults out.old) (O.faults out.new) → ⊥)
        → (result ≡ Status.Memory) ⊎ (result ≡ Status.Done) }
    ensures disk { (D.seen disk.new ≡ D.seen disk.old) × (D.moments disk.new ≡ D.moments disk.old) }
    ensures disk_steady { result ≢ Status.DiskFault → D.faults disk.new ≡ D.faults disk.old }
    ensures disk_later { D.faults disk.old ≤ D.faults disk.new }
    ensures write_steady { result ≢ Status.WriteFault → O.faults out.new ≡ O.faults out.old }
    ensures out_later { O.faults out.old ≤ O.faults out.new }
{
    let text = match text_at(alloc, tick, disk) {
        Ok(text) => text,
        Err(status) => return status,
    };
    match write_all(out, &text) {
        Ok(()) => Status::Done,
        Err(_) => Status::WriteFault,
    }
}

// The text of the world of a tick, and a line feed.
fn text_at<D: Disk>(alloc: Global, tick: u64, disk: &mut D) -> Result<Vec<u8>, Status>
    ensures found { IfOk result (λ text. IsShown (D.seen disk.old) tick text.items) }
    ensures fault { IfErr result
        (IsNotShown tick (D.seen disk.old) (D.faults disk.old) (D.faults disk.new)) }
    ensures disk { (D.seen disk.new ≡ D.seen disk.old) × (D.moments disk.new ≡ D.moments disk.old) }
    ensures steady { OnOk result (D.faults disk.new ≡ D.faults disk.old) }
    ensures steady_else { IfErr result (λ status. status ≢ Status.DiskFault
        → D.faults disk.new ≡ D.faults disk.old) }
    ensures later { D.faults disk.old ≤ D.faults disk.new }
{
    let world = match world_at(alloc, disk, tick) {
        Ok(world) => world,
        Err(fault) => return Err(status_of(fault)),
    };
    match text_of(alloc, &world) {
        Ok(text) => Ok(text),
        Err(_) => Err(Status::Memory),
    }
}

// The text of a world, and a line feed.
fn text_of(alloc: Global, world: &World) -> Result<Vec<u8>, AllocError>
    ensures { IfOk result (λ text. text.items ≡ written world.now ++ codes "\n") }
{
    let mut text = write_world(alloc, world)?;
    text.push(b'\n')?;
    Ok(text)
}

// The status where the journal answers no world.
fn status_of(fault: AtFault) -> Status
    ensures { result ≡ status_of_at fault }
{
    match fault {
        AtFault::NoJournal => Status::NoJournal,
        AtFault::NoSuchTick { first, last } => Status::NoSuchTick { first, last },
        AtFault::DiskFault => Status::DiskFault,
        AtFault::NotAJournal(place) => Status::NotAJournal(place),
        AtFault::Memory => Status::Memory,
    }
}
