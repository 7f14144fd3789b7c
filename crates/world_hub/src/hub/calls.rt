// What a session and the ticker call.
ghost use Rattle.std.specs.Prelude.{List, ◌≡◌, ◌+◌, ◌^◌, ◌<◌, ◌≤◌, ◌++◌, true, [], ◌∷◌, map, length, vec_len};
ghost use Rattle.std.specs.Prelude.{vec_capacity, All, IfOk, IfErr, MatchResult};
ghost use Rattle.crossbeam_queue.specs.Fifo.{Forks};
ghost use Rattle.crossbeam_queue.specs.Passes.{view, IsPassOf};
ghost use Rattle.world_hub.specs.declared.queue.Upload.{Upload as AnUpload};
ghost use Rattle.world_hub.specs.Queue.{Queued, ticker_hand, turn_hand, with_turn, offered, refused};
ghost use Rattle.world_hub.specs.Queue.{TookUpTo};
ghost use Rattle.world_hub.specs.Status.{no_sight, ReadOne, told};
ghost use Rattle.world_hub.specs.Hub.{hand, sight, ticker_hand_of, ticker_sight, IsPlaceOf, IsPassOfHub};
ghost use Rattle.world_hub.specs.Hub.{IsTickerOf, IsNewPass, SomeIs};

use super::{Hub, NoMemory, PLACES, Pass, Ticker};
use crate::queue::{
    GiveTurn, Hand, NewPass, Offer, QueuePass, Refuse, Starve, Take, TakeTurn, Upload, UploadQueue,
};
use crate::status::{StatusWriter, another_reader, opened, publish_next, read_last};
use crate::summary::Summary;
use crate::turns::{Place, Turns};
use crossbeam_queue::protocol::Split;
use std::alloc::Global;
use std::sync::Wait;

// Adds so many passes.
fn with_passes<R: Wait>(
    rt: &R,
    hub: &Hub,
    seat: &mut QueuePass,
    writer: &StatusWriter,
    passes: u32,
    mut all: Vec<Pass>,
) -> Vec<Pass>
    requires seat { IsPassOf hub.now.queue seat.old × (view seat.old ≡ ticker_hand) }
    requires room { (all.items ≡ []) × (vec_len all ≡ 0) × (vec_capacity all ≡ passes) }
    ensures seat { IsPassOf hub.now.queue seat.new × (view seat.new ≡ ticker_hand) }
    ensures each { All (IsPassOfHub hub.now) result.items }
    ensures passes { (vec_len result ≡ passes)
        × All (IsNewPass hub.now writer.now.desk.place.table_id) result.items }
{
    for _ in 0..passes {
        all.push_reserved(Pass {
            seat: hub.queue.another::<NewPass>(seat),
            reader: Some(another_reader(rt, writer)),
        });
    }
    all
}

impl Hub {
    // Takes the turn at the queue, as soon as nobody has it.
    fn take_turn<R: Wait>(&self, rt: &R, seat: &mut QueuePass) -> Place
        requires { IsPassOf self.now.queue seat.old }
        ensures place { IsPlaceOf self.now result }
        ensures seat { IsPassOf self.now.queue seat.new × (seat.new.id ≡ seat.old.id) }
        ensures turn { (c : List AnUpload) × (view seat.new ≡ with_turn (view seat.old) c) }
    {
        let (place, turn) = self.turns.take(rt);
        self.queue.absorb::<TakeTurn>(seat, turn);
        place
    }

    // Gives the turn back, by a step that may also count an answer.
    fn give_turn<M: Split<Hand>>(&self, place: Place, seat: &mut QueuePass)
        requires seat { IsPassOf self.now.queue seat.old }
        requires place { IsPlaceOf self.now place }
        requires rule { Forks Queued seat.old.id (view seat.old) (M.left (view seat.old))
            (M.right (view seat.old)) }
        requires turn { M.right (view seat.old) ≡ turn_hand (view seat.old).content }
        ensures seat { IsPassOf self.now.queue seat.new × (seat.new.id ≡ seat.old.id) }
        ensures left { view seat.new ≡ M.left (view seat.old) }
    {
        let turn = self.queue.another::<M>(seat);
        self.turns.give(place, turn);
    }

    /// A hub with an empty queue, whose first summary is published, and so many passes.
    pub fn new<R: Wait>(
        rt: &R,
        alloc: Global,
        passes: u32,
        first: Summary,
    ) -> Result<(Hub, Ticker, Vec<Pass>), NoMemory>
        requires { 0 < passes }
        ensures ticker { IfOk result (λ t. IsTickerOf t.0 t.1 × (ticker_hand_of t.1 ≡ ticker_hand)
            × (ticker_sight t.1 ≡ told no_sight (first ∷ []))) }
        ensures each { IfOk result (λ t. All (IsPassOfHub t.0) t.2.items) }
        ensures passes { IfOk result (λ t. (vec_len t.2 ≡ passes)
            × SomeIs (λ w. All (IsNewPass t.0 w.desk.place.table_id) t.2.items) t.1.writer) }
    {
        let all = match Vec::with_capacity(alloc, passes as usize) {
            Ok(all) => all,
            Err(_) => return Err(NoMemory),
        };
        let (queue, mut seat) = match UploadQueue::ruled(alloc, PLACES) {
            Ok(made) => made,
            Err(_) => return Err(NoMemory),
        };
        let turn = queue.another::<GiveTurn>(&mut seat);
        let turns = match Turns::new(alloc, turn, &seat) {
            Ok(turns) => turns,
            Err(_) => return Err(NoMemory),
        };
        let writer = match opened(rt, alloc, first, passes) {
            Ok(writer) => writer,
            Err(_) => return Err(NoMemory),
        };
        let hub = Hub { queue, turns };
        let all = with_passes(rt, &hub, &mut seat, &writer, passes, all);
        let ticker = Ticker {
            seat,
            writer: Some(writer),
        };
        Ok((hub, ticker, all))
    }

    /// Offers an upload. It comes back only where a step of this call found 64 uploads in the queue, which
    /// the pass then counts. It waits for its turn at the queue.
    pub fn offer_upload<R: Wait>(
        &self,
        rt: &R,
        pass: &mut Pass,
        upload: Upload,
    ) -> Result<(), Upload>
        requires { IsPassOfHub self.now pass.old }
        ensures pass { IsPassOfHub self.now pass.new × (pass.new.seat.id ≡ pass.old.seat.id)
            × (pass.new.reader ≡ pass.old.reader) }
        ensures offered { IfOk result (λ _. hand pass.new ≡ offered (hand pass.old) upload) }
        ensures refused { IfErr result (λ back. (back ≡ upload) × (hand pass.new ≡ refused (hand pass.old))) }
    {
        let place = self.take_turn(rt, &mut pass.seat);
        match self.queue.push_as::<Offer, R>(rt, &mut pass.seat, upload) {
            Ok(()) => {
                self.give_turn::<GiveTurn>(place, &mut pass.seat);
                Ok(())
            }
            Err(back) => {
                self.give_turn::<Refuse>(place, &mut pass.seat);
                Err(back)
            }
        }
    }

    /// Takes the first uploads, at most 64, and fewer only where a step of this call found the queue empty,
    /// which the ticker then counts. It waits for its turn at the queue; where there is no memory for 64
    /// uploads none is taken.
    pub fn take_uploads<R: Wait>(
        &self,
        rt: &R,
        alloc: Global,
        ticker: &mut Ticker,
    ) -> Result<Vec<Upload>, NoMemory>
        requires { IsTickerOf self.now ticker.old }
        ensures ticker { IsTickerOf self.now ticker.new × (ticker.new.writer ≡ ticker.old.writer) }
        ensures taken { IfOk result
            (λ v. TookUpTo (ticker_hand_of ticker.old) v.items (ticker_hand_of ticker.new)) }
        ensures none { IfErr result (λ _. ticker.new ≡ ticker.old) }
    {
        let mut uploads = match Vec::with_capacity(alloc, PLACES) {
            Ok(uploads) => uploads,
            Err(_) => return Err(NoMemory),
        };
        let place = self.take_turn(rt, &mut ticker.seat);
        for _ in 0..PLACES {
            match self.queue.pop_as::<Take, R>(rt, &mut ticker.seat) {
                Some(upload) => uploads.push_reserved(upload),
                None => {
                    self.give_turn::<Starve>(place, &mut ticker.seat);
                    return Ok(uploads);
                }
            }
        }
        self.give_turn::<GiveTurn>(place, &mut ticker.seat);
        Ok(uploads)
    }

    /// Publishes a summary. It waits for those that read an earlier one; where there is no memory none is
    /// published.
    pub fn publish<R: Wait>(
        &self,
        rt: &R,
        ticker: &mut Ticker,
        next: Summary,
    ) -> Result<(), NoMemory>
        requires ticker { IsTickerOf self.now ticker.old }
        requires fewer { length (ticker_sight ticker.old).published < 2 ^ 63 }
        ensures ticker { IsTickerOf self.now ticker.new × (ticker.new.seat ≡ ticker.old.seat) }
        ensures published { MatchResult result (λ _. ticker_sight ticker.new
            ≡ told (ticker_sight ticker.old) ((ticker_sight ticker.old).published ++ next ∷ []))
            (λ _. ticker_sight ticker.new ≡ ticker_sight ticker.old) }
    {
        let writer = ticker.writer.take().unwrap();
        let (writer, published) = publish_next(rt, writer, next);
        match ticker.writer.replace(writer) {
            None => {}
            Some(_) => unreachable!(),
        }
        published.map_err(|_| NoMemory)
    }

    /// The summary that was published last, at one step of this call. It tries again while a publish goes
    /// on.
    pub fn read_status<R: Wait>(&self, rt: &R, pass: &mut Pass) -> Summary
        requires { IsPassOfHub self.now pass.old }
        ensures pass { IsPassOfHub self.now pass.new × (pass.new.seat ≡ pass.old.seat) }
        ensures read { ReadOne (sight pass.old) (sight pass.new) result }
    {
        let reader = pass.reader.take().unwrap();
        let (reader, shown) = read_last(rt, reader);
        pass.reader = Some(reader);
        shown.summary
    }
}

impl Ticker {
    /// Ends the ticker, and waits for those that still read.
    pub fn end<R: Wait>(self, rt: &R) {
        let Ticker {
            seat: _seat,
            writer,
        } = self;
        match writer {
            Some(writer) => {
                writer.take(rt);
            }
            None => {}
        }
    }
}
