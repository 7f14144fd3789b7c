// A journal read from its front, one frame at a time.
ghost use Rattle.std.specs.Prelude.{◌≡◌, ◌≢◌, ℕ, ◌<◌, ◌≤◌, ◌^◌, [], List, Option};
ghost use Rattle.std.specs.Prelude.{IfOk, IfErr, IfSome, IfNone, OnOk};
ghost use Rattle.changed_rules.specs.Census.{ArePlaced};
ghost use Rattle.world_io.specs.Disk.{LengthIs};
ghost use Rattle.object_store.specs.Stored.{Stored};
ghost use Rattle.record_follows.specs.Follows.{Follows, after as world_next};
ghost use Rattle.tick_journal.specs.BaseForms.{SpellsBase};
ghost use Rattle.tick_journal.specs.TickForms.{SpellsTick};
ghost use Rattle.tick_journal.specs.declared.tick_record.TickRecord.{TickRecord as Recorded};
ghost use Rattle.world_journal.specs.Answers.{IsRecoverFaultOf, OnlyReads};
ghost use Rattle.world_journal.specs.Counted.{IsCounted};
ghost use Rattle.world_journal.specs.Journals.{KeepsRules};
ghost use Rattle.world_journal.specs.declared.fault.RecoverFault.TheVariants.{DiskFault};

use crate::NoMemory;
use crate::base::read_base;
use crate::fault::RecoverFault;
use crate::frames::next_frame;
use crate::untested::UntestedWalk;
use changed_rules::Census;
use frame_log::Behind;
use object_store::World;
use record_follows::advance;
use std::alloc::Global;
use tick_journal::{BytesFault, TickRecord, read_tick};
use world_io::Disk;

// The bytes of a gate and of a content's length.
pub(crate) const HEAD: u64 = 9;

/// Where the reading of a journal stands: the world so far, and the place of the gate that comes next, on a
/// disk of so many bytes. Where another program adds to it meanwhile, the reading goes on or ends there. It
/// holds no record, and the reading of the next one holds one frame. By a census of the world the rules are
/// tested over what a record changed.
pub struct Walk {
    pub(crate) world: World,
    pub(crate) census: Census,
    pub(crate) gate: u64,
    pub(crate) len: u64,
    ghost place: { gate < len },
    ghost limit: { len < 2 ^ 62 },
}

impl Drop for Walk {
    fn drop(self) {
        let Walk {
            world: _,
            census: _,
            gate: _,
            len: _,
        } = self;
    }
}

// The world that a content spells, where it spells one that keeps the rules, with its census.
fn first_world(alloc: Global, content: &[u8]) -> Result<Option<(World, Census)>, NoMemory>
    ensures some { IfOk result (λ found. IfSome found
        (λ first. SpellsBase content.now first.0 × KeepsRules first.0 × IsCounted first.0 first.1)) }
    ensures none { IfOk result (λ found. IfNone found
        ((world : Stored) → SpellsBase content.now world → KeepsRules world → ⊥)) }
{
    let world = match read_base(alloc, content) {
        Ok(world) => world,
        Err(BytesFault::Malformed) => return Ok(None),
        Err(BytesFault::Memory) => return Err(NoMemory),
    };
    match Census::of(alloc, &world)? {
        Some(census) => Ok(Some((world, census))),
        None => Ok(None),
    }
}

// The record that a content spells, where it spells one that follows the world, which is then led on with its
// census. Else both may be any.
fn next_record(
    alloc: Global,
    world: &mut World,
    census: &mut Census,
    content: &[u8],
) -> Result<Option<TickRecord>, NoMemory>
    requires { IsCounted world.old census.old }
    ensures some { IfOk result (λ found. IfSome found (λ entry. SpellsTick content.now entry
        × Follows world.old entry × (world.new ≡ world_next world.old entry)
        × IsCounted world.new census.new)) }
    ensures none { IfOk result (λ found. IfNone found
        ((entry : Recorded) → SpellsTick content.now entry → Follows world.old entry → ⊥)) }
{
    let entry = match read_tick(alloc, content) {
        Ok(entry) => entry,
        Err(BytesFault::Malformed) => return Ok(None),
        Err(BytesFault::Memory) => return Err(NoMemory),
    };
    if advance(alloc, census, world, &entry)? {
        Ok(Some(entry))
    } else {
        Ok(None)
    }
}

impl Walk {
    ghost use Rattle.world_journal.specs.Walking.{HasPassed, HasStepped, HasWalked};

    /// The world that the records so far lead to.
    pub fn world(&self) -> &World
        ensures { result.now ≡ self.now.world }
    {
        &self.world
    }

    /// Reads the world that a journal begins with.
    pub fn begin<D: Disk>(alloc: Global, disk: &mut D) -> Result<Walk, RecoverFault>
        ensures begun { IfOk result (λ walk. HasWalked walk.world [] walk (D.seen disk.old)) }
        ensures length { IfOk result (λ walk. LengthIs (D.seen disk.old) walk.len) }
        ensures counted { IfOk result (λ walk. IsCounted walk.world walk.census) }
        ensures fault { IfErr result
            (IsRecoverFaultOf (D.seen disk.old) (D.faults disk.old) (D.faults disk.new)) }
        ensures steady { IfErr result (λ e. e ≢ DiskFault → D.faults disk.new ≡ D.faults disk.old) }
        ensures reads { OnlyReads (D.seen disk.old) (D.seen disk.new)
            (D.moments disk.old) (D.moments disk.new) (D.faults disk.old) (D.faults disk.new) result }
    {
        let mut len = disk.len()?;
        if len <= 1 {
            return Err(RecoverFault::Empty);
        }
        let content = match next_frame(alloc, disk, &mut len, 0)? {
            Behind::Closed => return Err(RecoverFault::Empty),
            Behind::Broken => return Err(RecoverFault::NotAJournal(0)),
            Behind::Frame(content) => content,
        };
        let Some((world, census)) = first_world(alloc, &content)? else {
            return Err(RecoverFault::NotAJournal(0));
        };
        let gate = HEAD + content.len() as u64;
        Ok(Walk {
            world,
            census,
            gate,
            len,
        })
    }

    /// Reads the next record, and leads the world on. There is none at the closed gate.
    pub fn next<D: Disk>(
        &mut self,
        alloc: Global,
        disk: &mut D,
    ) -> Result<Option<TickRecord>, RecoverFault>
        requires length { LengthIs (D.seen disk.old) self.old.len }
        requires counted { IsCounted self.old.world self.old.census }
        ensures stepped { IfOk result (λ found. (base : Stored) (entries : List Recorded)
            → HasWalked base entries self.old (D.seen disk.old)
            → HasStepped base entries self.new (D.seen disk.old) found) }
        ensures fault { IfErr result (λ e. (base : Stored) (entries : List Recorded)
            → HasWalked base entries self.old (D.seen disk.old)
            → IsRecoverFaultOf (D.seen disk.old) (D.faults disk.old) (D.faults disk.new) e) }
        ensures moves { IfOk result (λ found. IfSome found (λ entry. self.old.gate < self.new.gate)) }
        ensures length { LengthIs (D.seen disk.old) self.new.len }
        ensures counted { OnOk result (IsCounted self.new.world self.new.census) }
        ensures steady { IfErr result (λ e. e ≢ DiskFault → D.faults disk.new ≡ D.faults disk.old) }
        ensures reads { OnlyReads (D.seen disk.old) (D.seen disk.new)
            (D.moments disk.old) (D.moments disk.new) (D.faults disk.old) (D.faults disk.new) result }
    {
        let mut len = self.len;
        let content = match next_frame(alloc, disk, &mut len, self.gate)? {
            Behind::Closed => return Ok(None),
            Behind::Broken => return Err(RecoverFault::NotAJournal(self.gate)),
            Behind::Frame(content) => content,
        };
        let Some(entry) = next_record(alloc, &mut self.world, &mut self.census, &content)? else {
            return Err(RecoverFault::NotAJournal(self.gate));
        };
        self.len = len;
        self.gate += HEAD + content.len() as u64;
        Ok(Some(entry))
    }

    /// The world alone.
    pub(crate) fn into_world(self) -> World
        ensures { result ≡ self.world }
    {
        let Walk {
            world,
            census: _,
            gate: _,
            len: _,
        } = self;
        world
    }

    /// The reading that goes on without testing the rules of objects.
    pub fn untested(self) -> UntestedWalk
        requires { IsCounted self.world self.census }
        ensures same { (result.world ≡ self.world) × (result.gate ≡ self.gate) × (result.len ≡ self.len) }
        ensures places { ArePlaced result.world.rooms }
        ensures passed { (base : Stored) (entries : List Recorded) (seen : Option (List ℕ))
            → HasWalked base entries self seen → HasPassed base entries result seen }
    {
        let Walk {
            world,
            census: _,
            gate,
            len,
        } = self;
        UntestedWalk {
            world,
            from: gate,
            gate,
            len,
        }
    }
}
