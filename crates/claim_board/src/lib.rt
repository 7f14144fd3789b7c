// The numbers below a limit, which several threads draw from one board, each number once.
#![tactic(auto)]

mod law;
pub mod rule;
pub mod view;

ghost use Rattle.std.specs.Prelude.{◌≡◌, ℕ, ◌+◌, ◌-◌, ◌<◌, ◌≤◌, ◌^◌, ◌∷◌, ◌++◌, [], true, false, length};
ghost use Rattle.std.specs.Prelude.{replicate, vec_len, All, IfNone, IfOk, IfSome};
ghost use Rattle.claim_board.specs.Rule.{beyond, both_views, drew, ended, first_view, left_view, new_view};
ghost use Rattle.claim_board.specs.Rule.{EachOnceBelow};
ghost use Rattle.claim_board.specs.Seats.{all_drawn, all_ends, fresh, sizes, with_view, AnyOpen, BoardSeen};
ghost use Rattle.claim_board.specs.Seats.{IsSeatOf, SeatSeen};

use atomic_table::Table;
pub use law::numbers_are_apart;
use rule::{Cut, Draws, Looks};
pub use std::alloc::AllocError as NoMemory;
use std::alloc::Global;
use std::marker::Model;
use view::{Bounds, View};

/// The numbers below a limit, which 1 to 16 seats draw. It holds one shared word, which each draw raises by
/// 1.
#[derive(Drop)]
pub struct Board {
    table: Table<(), View, Bounds, Draws, Global>,
    limit: u32,
    seats: u32,
}

impl Model for Board {
    ghost use Rattle.std.specs.Prelude.{◌≡◌, ◌<◌, ◌≤◌};
    ghost use Rattle.claim_board.specs.Seats.{BoardSeen};

    ghost Value = { BoardSeen };

    ghost view = { λ b. (b.table.shared.table_id, b.table.shared.key) };

    ghost invariant = { λ b. (b.table.shared.table_id.words ≡ 1)
        × (b.table.shared.key.limit ≡ b.limit) × (b.table.shared.key.seats ≡ b.seats)
        × (0 < b.seats) × (b.seats ≤ 16) };
}

/// The right to draw from a board, which one thread holds.
#[derive(Drop)]
pub struct Seat {
    place: atomic_table::Seat<(), View>,
    ended: bool,
}

impl Model for Seat {
    ghost use Rattle.std.specs.Prelude.{◌≡◌, ◌<◌, [], true, false};
    ghost use Rattle.claim_board.specs.Seats.{SeatSeen};

    ghost Value = { SeatSeen };

    ghost view = { λ s. (s.place.table_id, s.place.me.0) };

    ghost invariant = { λ s. (s.place.me.1 ≡ []) × (s.ended ≡ true → 0 < s.place.me.0.ends)
        × (s.ended ≡ false → s.place.me.0.ends ≡ 0) };
}

impl Seat {
    // Whether a draw of it found no number.
    fn has_ended(&self) -> bool
        ensures yes { result ≡ true → 0 < self.now.1.ends }
        ensures not { result ≡ false → self.now.1.ends ≡ 0 }
    {
        self.ended
    }
}

impl Board {
    /// A board of the numbers below `n`, and its seats, which have drawn nothing yet.
    pub fn new(alloc: Global, n: u32, seats: u32) -> Result<(Board, Vec<Seat>), NoMemory>
        requires { (0 < seats) × (seats ≤ 16) }
        ensures limit { IfOk result (λ r. (r.0.1.limit ≡ n) × (r.0.1.seats ≡ seats)) }
        ensures seats { IfOk result (λ r. r.1.items ≡ replicate seats (fresh r.0)) }
        ensures of { IfOk result (λ r. All (λ s. IsSeatOf r.0 s × (s.1.drawn ≡ [])) r.1.items) }
        ensures all { IfOk result (λ r. sizes r.1.items ≡ r.0.1.seats) }
    {
        let (board, first) = Board::with_first(alloc, n, seats)?;
        let all = board.deal(alloc, first, seats)?;
        Ok((board, all))
    }

    /// For how many seats it was made.
    pub fn seats(&self) -> u32
        ensures number { result ≡ self.now.1.seats }
        ensures bounds { (0 < result) × (result ≤ 16) }
    {
        self.seats
    }

    // The first seat, cut into seats of size 1.
    fn deal(&self, alloc: Global, mut first: Seat, seats: u32) -> Result<Vec<Seat>, NoMemory>
        requires { (0 < seats) × (seats ≡ self.now.1.seats) × (first ≡ (self.now.0, first_view self.now.1)) }
        ensures { IfOk result (λ all. all.items ≡ replicate seats (fresh self.now)) }
    {
        let mut all = Vec::new(alloc);
        for i in 0..seats - 1 {
            all.push(self.split(&mut first))?;
        }
        all.push(first)?;
        Ok(all)
    }

    // A board, and one seat that stands for all of them.
    fn with_first(alloc: Global, n: u32, seats: u32) -> Result<(Board, Seat), NoMemory>
        requires { (0 < seats) × (seats ≤ 16) }
        ensures board { IfOk result (λ r. (r.0.1.limit ≡ n) × (r.0.1.seats ≡ seats)) }
        ensures seat { IfOk result (λ r. r.1 ≡ (r.0.0, first_view r.0.1)) }
    {
        let bounds = Bounds {
            limit: u64::from(n),
            seats: u64::from(seats),
        };
        let (table, place) = Table::of_words(alloc, &[0], &bounds)?;
        let board = Board {
            table,
            limit: n,
            seats,
        };
        let seat = Seat {
            place,
            ended: false,
        };
        Ok((board, seat))
    }

    // A new seat of size 1, cut off from this one.
    fn split(&self, seat: &mut Seat) -> Seat
        requires { IsSeatOf self.now seat.old × (seat.old.1.ends ≡ 0) × (1 < seat.old.1.size) }
        ensures new { result ≡ fresh self.now }
        ensures old { seat.new ≡ with_view seat.old (left_view seat.old.1) }
    {
        let place = self.table.shared.split_seat::<Cut>(&mut seat.place);
        Seat {
            place,
            ended: false,
        }
    }

    // Adds what another seat drew, which stands first.
    fn join(&self, seat: &mut Seat, other: Seat)
        requires { IsSeatOf self.now seat.old × IsSeatOf self.now other }
        ensures { seat.new ≡ with_view seat.old (both_views seat.old.1 other.1) }
    {
        let Seat { place, ended } = other;
        self.table.shared.join_seat::<Cut>(&mut seat.place, place);
        seat.ended = seat.ended || ended;
    }

    // A look at the board, which tells a seat that stands for all seats, and has ended, that it has all
    // numbers.
    fn look(&self, seat: &mut Seat)
        requires { IsSeatOf self.now seat.old }
        ensures same { seat.new ≡ seat.old }
        ensures whole { 0 < seat.old.1.ends → seat.old.1.size ≡ seat.old.1.seats
            → EachOnceBelow seat.old.1.limit seat.old.1.drawn }
    {
        self.table.shared.load::<Looks>(&mut seat.place, 0);
    }

    /// The next number, which no seat draws again; none where all were given out. It is one step of the
    /// board's word, and no step where this seat found none before.
    pub fn draw(&self, seat: &mut Seat) -> Option<u32>
        requires { IsSeatOf self.now seat.old }
        ensures some { IfSome result (λ k. (seat.old.1.ends ≡ 0) × (k < self.now.1.limit)
            × (seat.new ≡ with_view seat.old (drew k seat.old.1))) }
        ensures later { IfSome result (λ k. beyond seat.old.1.drawn ≤ k) }
        ensures none { IfNone result (0 < seat.new.1.ends) }
        ensures ended { IfNone result
            (seat.old.1.ends ≡ 0 → seat.new ≡ with_view seat.old (ended seat.old.1)) }
        ensures still { 0 < seat.old.1.ends → seat.new ≡ seat.old }
    {
        if seat.ended {
            return None;
        }
        let found = self.table.shared.fetch_add::<Draws>(&mut seat.place, 0, 1);
        if found < u64::from(self.limit) {
            Some(found as u32)
        } else {
            seat.ended = true;
            None
        }
    }

    /// One seat that stands for all of them, where each found that there is none left: what it drew is each
    /// number below the limit, once, and nothing else. Else there is none, and the seats are given up.
    #[tactic(auto, using(crate::proofs::Sums::sizes_snoc, crate::proofs::Sums::ends_snoc, crate::proofs::Sums::drawn_snoc))]
    pub fn finish(&self, mut seats: Vec<Seat>) -> Option<Seat>
        requires of { All (λ s. IsSeatOf self.now s) seats.items }
        requires all { sizes seats.items ≡ self.now.1.seats }
        ensures none { IfNone result (AnyOpen seats.items) }
        ensures some { IfSome result (λ s. All (λ t. 0 < t.1.ends) seats.items) }
        ensures seat { IfSome result (λ s. IsSeatOf self.now s × (s.1.size ≡ self.now.1.seats)
            × (s.1.ends ≡ all_ends seats.items)) }
        ensures lists { IfSome result (λ s. s.1.drawn ≡ all_drawn seats.items) }
        ensures whole { IfSome result (λ s. EachOnceBelow self.now.1.limit s.1.drawn) }
    {
        if !have_ended(&seats) {
            return None;
        }
        prove!(self.seats > 0);
        let mut whole = seats.pop()?;
        self.join_all(&mut whole, seats);
        self.look(&mut whole);
        Some(whole)
    }

    // Joins all others to a seat.
    fn join_all(&self, whole: &mut Seat, mut seats: Vec<Seat>)
        requires { IsSeatOf self.now whole.old × All (λ s. IsSeatOf self.now s) seats.items }
        ensures seat { IsSeatOf self.now whole.new }
        ensures size { whole.new.1.size ≡ sizes seats.items + whole.old.1.size }
        ensures ends { whole.new.1.ends ≡ all_ends seats.items + whole.old.1.ends }
        ensures lists { whole.new.1.drawn ≡ all_drawn seats.items ++ whole.old.1.drawn }
    {
        while let Some(next) = seats.pop() {
            self.join(whole, next);
        }
    }
}

// Whether each seat has ended.
fn have_ended(seats: &[Seat]) -> bool
    ensures yes { result ≡ true → All (λ t. 0 < t.1.ends) seats.now }
    ensures not { result ≡ false → AnyOpen seats.now }
{
    for seat in seats {
        if !seat.has_ended() {
            return false;
        }
    }
    true
}
