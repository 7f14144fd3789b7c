// The rule of the queue: what was taken and then what the queue holds are all uploads that were offered, in
// order, and each full or empty answer was given at a moment when the queue was full or empty.
use crossbeam_queue::protocol::{Join, Lesson, Outcome, Protocol, Split};
use crossbeam_queue::{Pass, RuledArrayQueue};
use std::collections::LinkedList;

/// What a player uploads.
#[derive(Drop)]
pub struct Upload {
    pub player: u32,
    pub bytes: Vec<u8>,
}

/// An upload with the number of the pass that offered it. No value of it is made.
pub struct Marked {
    pub by: u64,
    pub upload: Upload,
}

/// What a seat at the queue knows. A pass: what it has offered, and how often it found the queue full. The
/// ticker: what it has taken, and how often it found the queue empty. Whoever has the turn: what the queue
/// holds. No value of it is made.
pub struct Hand {
    pub takes: bool,
    pub offers: LinkedList<Upload>,
    pub fulls: u64,
    pub taken: LinkedList<Marked>,
    pub empties: u64,
    pub turn: bool,
    pub content: LinkedList<Upload>,
}

/// The rule of the queue.
pub struct QueueRule;

impl Protocol<Upload, Hand> for QueueRule {
    ghost use Rattle.world_hub.specs.Queue.{Queued, first_hand};

    ghost holds = { Queued };

    ghost first = { first_hand };
}

/// A push adds the upload to the offers of its pass.
pub struct Offer;

impl Outcome<Upload, Hand> for Offer {
    ghost use Rattle.world_hub.specs.Queue.{Offered};

    ghost then = { Offered };
}

impl Lesson<Upload, Hand> for Offer {
    ghost use Rattle.world_hub.specs.Queue.{Holds};

    ghost fact = { Holds };
}

/// A pop adds the upload, with its mark, to what was taken.
pub struct Take;

impl Outcome<Upload, Hand> for Take {
    ghost use Rattle.world_hub.specs.Queue.{Took};

    ghost then = { Took };
}

impl Lesson<Upload, Hand> for Take {
    ghost use Rattle.world_hub.specs.Queue.{Holds};

    ghost fact = { Holds };
}

/// The turn is taken: what it knows comes to the seat that takes it.
pub struct TakeTurn;

impl Join<Hand> for TakeTurn {
    ghost use Rattle.world_hub.specs.Queue.{with_turn, new_hand};

    ghost both = { λ v w. with_turn v w.content };

    ghost spent = { new_hand };
}

/// The turn is given back.
pub struct GiveTurn;

impl Split<Hand> for GiveTurn {
    ghost use Rattle.world_hub.specs.Queue.{without_turn, turn_hand};

    ghost left = { without_turn };

    ghost right = { λ v. turn_hand v.content };
}

/// The queue was found full: the count is raised, and the turn given back.
pub struct Refuse;

impl Split<Hand> for Refuse {
    ghost use Rattle.world_hub.specs.Queue.{refused, without_turn, turn_hand};

    ghost left = { λ v. refused (without_turn v) };

    ghost right = { λ v. turn_hand v.content };
}

/// The queue was found empty: the count is raised, and the turn given back.
pub struct Starve;

impl Split<Hand> for Starve {
    ghost use Rattle.world_hub.specs.Queue.{starved, without_turn, turn_hand};

    ghost left = { λ v. starved (without_turn v) };

    ghost right = { λ v. turn_hand v.content };
}

/// A new pass has offered nothing.
pub struct NewPass;

impl Split<Hand> for NewPass {
    ghost use Rattle.world_hub.specs.Queue.{new_hand};

    ghost left = { λ v. v };

    ghost right = { λ v. new_hand };
}

/// The queue of uploads.
pub type UploadQueue = RuledArrayQueue<Upload, Hand, QueueRule>;

/// A seat at the queue.
pub type QueuePass = Pass<Upload, Hand>;
