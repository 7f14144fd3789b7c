// The turn at the queue. One seat has it at a time, pushes or pops, and knows what the queue holds.
ghost use Rattle.std.specs.Prelude.{◌≡◌, IfOk};
ghost use Rattle.world_hub.specs.Turns.{IsTurn, HasPlace};

use crate::queue::QueuePass;
use atomic_table::{Play, Refused, Seat, Table, TableRule};
use std::alloc::{AllocError, Global};
use std::sync::Wait;
use std::thread;

/// The rule of the turn, and what the one is told who finds it in its place.
pub struct TurnRule;

impl TableRule<Option<QueuePass>, QueuePass, QueuePass> for TurnRule {
    ghost use Rattle.world_hub.specs.Turns.{InPlace};

    ghost holds = { InPlace };

    ghost first = { λ key. key };
}

impl Play<Option<QueuePass>, QueuePass> for TurnRule {
    ghost use Rattle.world_hub.specs.Turns.{Gets};

    ghost then = { λ step me found after. Gets me found after };
}

/// A step that tells nothing.
pub struct PutBack;

impl Play<Option<QueuePass>, QueuePass> for PutBack {
    ghost then = { λ step me found after. Unit {0} };
}

/// The place of the turn.
#[derive(Drop)]
pub struct Turns {
    pub table: Table<Option<QueuePass>, QueuePass, QueuePass, TurnRule, Global>,
    ghost sized: { (table.shared.table_id.words ≡ 1) × (table.shared.table_id.slots ≡ 1) },
}

/// The right to put the turn back into its place. It is no `Drop`, so that none is lost.
pub struct Place {
    pub seat: Seat<Option<QueuePass>, QueuePass>,
}

impl Turns {
    /// A place for the turn at the queue of this seat.
    pub fn new(alloc: Global, turn: QueuePass, whose: &QueuePass) -> Result<Turns, AllocError>
        requires { IsTurn whose.now turn }
        ensures { IfOk result (λ turns. turns.table.shared.key ≡ whose.now) }
    {
        let mut slots = Vec::with_capacity(alloc, 1)?;
        slots.push_reserved(Some(turn));
        match Table::new(alloc, &[0], slots, whose) {
            Ok((table, _seat)) => Ok(Turns { table }),
            Err(Refused { slots: _slots }) => Err(AllocError),
        }
    }

    /// Takes the turn as soon as nobody has it.
    pub fn take<R: Wait>(&self, rt: &R) -> (Place, QueuePass)
        ensures place { (result.0.seat.table_id ≡ self.now.table.shared.table_id)
            × HasPlace result.0.seat.me }
        ensures turn { IsTurn self.now.table.shared.key result.1 }
    {
        for _ in rt.forever() {
            if self.table.shared.peek(0) == 0 {
                let (found, mut seat) = self.table.shared.swap_new_seat::<TurnRule>(0, 1);
                if found == 0 {
                    let turn = self.table.shared.exchange(&mut seat, 0, None).unwrap();
                    return (Place { seat }, turn);
                }
            }
            thread::yield_now();
        }
        unreachable!()
    }

    /// Puts the turn back.
    pub fn give(&self, place: Place, turn: QueuePass)
        requires place { (place.seat.table_id ≡ self.now.table.shared.table_id) × HasPlace place.seat.me }
        requires turn { IsTurn self.now.table.shared.key turn }
    {
        let Place { mut seat } = place;
        match self.table.shared.exchange(&mut seat, 0, Some(turn)) {
            None => {}
            Some(_) => unreachable!(),
        }
        self.table.shared.store::<PutBack>(&mut seat, 0, 0);
    }
}
