// The rule of the status: the shared value is the last summary that was published, with its place.
ghost use Rattle.std.specs.Prelude.{◌≡◌, ◌+◌, ◌<◌, ◌^◌, [], ◌∷◌, ◌++◌, length, drop, IfOk, MatchResult};
ghost use Rattle.left_right.specs.Sides.{view};
ghost use Rattle.world_hub.specs.Status.{told, no_sight, Reads};

use crate::summary::Summary;
use crossbeam_utils::rule::{Outcome, Protocol};
use left_right::Absorb;
use left_right::reader::Reader;
use left_right::writer::Writer;
use std::alloc::{AllocError, Global};
use std::collections::LinkedList;
use std::sync::Wait;
use std::thread;

/// A summary with its place among those that were published.
#[derive(Clone, Copy)]
pub struct Shown {
    pub place: u64,
    pub summary: Summary,
}

impl Absorb<Shown> for Shown {
    type State = Shown;

    ghost state = { λ s. s };

    ghost applied = { λ s next. next };

    ghost never_fails = { Unit {0} };

    fn absorb_first(&mut self, operation: &Shown, _other: &Shown) -> Result<(), AllocError> {
        *self = *operation;
        Ok(())
    }
}

/// What a pass has read, or the ticker published. No value of it is made.
pub struct Sight {
    pub published: LinkedList<Summary>,
    pub reads: LinkedList<Shown>,
}

/// The rule of the status.
pub struct StatusRule;

impl Protocol<Shown, Sight> for StatusRule {
    ghost use Rattle.world_hub.specs.Status.{Stands, no_sight};

    ghost holds = { Stands };

    ghost first = { no_sight };
}

/// The first summary counts as published.
pub struct Open;

impl Outcome<Shown, Sight> for Open {
    ghost use Rattle.world_hub.specs.Status.{Opens};

    ghost then = { Opens };
}

/// The summary is added to those that were published.
pub struct Publish;

impl Outcome<Shown, Sight> for Publish {
    ghost use Rattle.world_hub.specs.Status.{Publishes};

    ghost then = { Publishes };
}

/// A read is what was published last, and no earlier one than what was read before.
pub struct Read;

impl Outcome<Shown, Sight> for Read {
    ghost use Rattle.world_hub.specs.Status.{Reads};

    ghost then = { Reads };
}

/// What a pass reads with.
pub type StatusReader = Reader<Shown, Sight, StatusRule>;

/// What the ticker publishes with.
pub type StatusWriter = Writer<Shown, Shown, Sight, StatusRule>;

/// Counts the first summary as published.
pub fn open_first<R: Wait>(
    rt: &R,
    mut writer: StatusWriter,
) -> (StatusWriter, Result<(), AllocError>)
    requires first { writer.desk.shown.value.place ≡ 0 }
    requires pending { drop writer.behind writer.log.items ≡ [] }
    ensures ready { IfOk result.1 (λ _. (drop result.0.behind result.0.log.items ≡ [])
        × (result.0.desk.shown.value ≡ writer.desk.shown.value)) }
    ensures opened { IfOk result.1 (λ _. view result.0.desk.place
        ≡ told (view writer.desk.place) (writer.desk.shown.value.summary ∷ [])) }
{
    let first = *writer.published();
    match writer.append(first) {
        Ok(()) => writer.publish_as::<Open, R>(rt),
        Err(_) => (writer, Err(AllocError)),
    }
}

/// Publishes a summary at the next place.
pub fn publish_next<R: Wait>(
    rt: &R,
    mut writer: StatusWriter,
    summary: Summary,
) -> (StatusWriter, Result<(), AllocError>)
    requires pending { drop writer.behind writer.log.items ≡ [] }
    requires place { length (view writer.desk.place).published ≡ writer.desk.shown.value.place + 1 }
    requires fewer { length (view writer.desk.place).published < 2 ^ 63 }
    ensures pending { drop result.0.behind result.0.log.items ≡ [] }
    ensures place { length (view result.0.desk.place).published ≡ result.0.desk.shown.value.place + 1 }
    ensures published { MatchResult result.1 (λ _. view result.0.desk.place
        ≡ told (view writer.desk.place) ((view writer.desk.place).published ++ summary ∷ []))
        (λ _. view result.0.desk.place ≡ view writer.desk.place) }
{
    let place = writer.published().place + 1;
    match writer.append(Shown { place, summary }) {
        Ok(()) => writer.publish_as::<Publish, R>(rt),
        Err(_) => (writer, Err(AllocError)),
    }
}

/// Reads what was published last.
pub fn read_last<R: Wait>(rt: &R, mut reader: StatusReader) -> (StatusReader, Shown)
    ensures { Reads (view reader.place) result.1 result.1 (view result.0.place) }
{
    for _ in rt.forever() {
        match reader.enter_as::<Read>() {
            Ok(reading) => {
                let shown = *reading.get();
                return (reading.leave(), shown);
            }
            Err(back) => reader = back,
        }
        thread::yield_now();
    }
    unreachable!()
}

/// A writer that has published the first summary.
pub fn opened<R: Wait>(
    rt: &R,
    alloc: Global,
    first: Summary,
    readers: u32,
) -> Result<StatusWriter, AllocError>
    requires { 0 < readers }
    ensures ready { IfOk result (λ w. (drop w.behind w.log.items ≡ []) × (w.desk.shown.value.place ≡ 0)) }
    ensures published { IfOk result (λ w. view w.desk.place ≡ told no_sight (first ∷ [])) }
{
    let opening = Shown {
        place: 0,
        summary: first,
    };
    let writer = StatusWriter::new(alloc, opening, opening, readers as usize)?;
    let (writer, done) = open_first(rt, writer);
    match done {
        Ok(()) => Ok(writer),
        Err(_) => {
            writer.take(rt);
            Err(AllocError)
        }
    }
}

/// A reader, as soon as there is a place for it.
pub fn another_reader<R: Wait>(rt: &R, writer: &StatusWriter) -> StatusReader
    ensures view { view result.place ≡ no_sight }
    ensures board { result.place.table_id ≡ writer.now.desk.place.table_id }
{
    for _ in rt.forever() {
        match writer.factory().reader() {
            Ok(reader) => return reader,
            Err(_) => thread::yield_now(),
        }
    }
    unreachable!()
}
