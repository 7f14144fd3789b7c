// A journal read from its front, whose reader knows of records that they keep the rules of objects.
ghost use Rattle.std.specs.Prelude.{◌≡◌, ◌≢◌, ℕ, ◌<◌, [], List, IfOk, IfErr, IfSome, IfNone, OnOk, ◌^◌};
ghost use Rattle.changed_rules.specs.Census.{ArePlaced};
ghost use Rattle.world_io.specs.Disk.{LengthIs};
ghost use Rattle.object_store.specs.Stored.{Stored};
ghost use Rattle.record_follows.specs.Follows.{Fits, after as world_next};
ghost use Rattle.rule_check.specs.Kept.{KeepsObjectRules};
ghost use Rattle.tick_journal.specs.TickForms.{SpellsTick};
ghost use Rattle.tick_journal.specs.declared.tick_record.TickRecord.{TickRecord as Recorded};
ghost use Rattle.world_journal.specs.Answers.{IsRecoverFaultOf, OnlyReads};
ghost use Rattle.world_journal.specs.Counted.{IsCounted};
ghost use Rattle.world_journal.specs.declared.fault.RecoverFault.TheVariants.{DiskFault, Empty};
ghost use Rattle.world_journal.specs.declared.fault.RecoverFault.TheVariants.{Memory, NotAJournal};

use crate::NoMemory;
use crate::fault::RecoverFault;
use crate::frames::next_frame;
use crate::walk::{HEAD, Walk};
use changed_rules::Census;
use frame_log::Behind;
use object_store::World;
use record_follows::{fits, put_taken};
use std::alloc::Global;
use tick_journal::{BytesFault, TickRecord, read_tick};
use world_io::Disk;

/// Where the reading of a journal stands that doesn't test whether the world after a record keeps the rules
/// of objects: for a reader who knows it in another way. The journal is one only if they are kept, so who
/// doesn't know it has to ask (`tested`).
pub struct UntestedWalk {
    pub(crate) world: World,
    // The gate before the last record.
    pub(crate) from: u64,
    pub(crate) gate: u64,
    pub(crate) len: u64,
    ghost place: { gate < len },
    ghost limit: { len < 2 ^ 62 },
}

impl Drop for UntestedWalk {
    fn drop(self) {
        let UntestedWalk {
            world: _,
            from: _,
            gate: _,
            len: _,
        } = self;
    }
}

// The record that a content spells, where it spells one that fits behind the world, which is then led on by
// its tables: they are gone from it. Else the world may be any.
fn next_fitting(
    alloc: Global,
    world: &mut World,
    content: &[u8],
) -> Result<Option<TickRecord>, NoMemory>
    requires { ArePlaced world.old.rooms }
    ensures some { IfOk result (λ found. IfSome found (λ told. (entry : Recorded)
        × SpellsTick content.now entry × Fits world.old entry × (world.new ≡ world_next world.old entry)
        × (told ≡ record entry { rooms = [] }))) }
    ensures none { IfOk result (λ found. IfNone found
        ((entry : Recorded) → SpellsTick content.now entry → Fits world.old entry → ⊥)) }
{
    let entry = match read_tick(alloc, content) {
        Ok(entry) => entry,
        Err(BytesFault::Malformed) => return Ok(None),
        Err(BytesFault::Memory) => return Err(NoMemory),
    };
    if !fits(alloc, world, &entry)? {
        return Ok(None);
    }
    let told = put_taken(alloc, world, entry)?;
    Ok(Some(told))
}

impl UntestedWalk {
    ghost use Rattle.world_journal.specs.Walking.{HasPassed, HasPassedOn};

    /// The world that the records so far lead to.
    pub fn world(&self) -> &World
        ensures { result.now ≡ self.now.world }
    {
        &self.world
    }

    /// Reads the next record, leads the world on by it, and answers the record without its tables, which are
    /// the world's then. There is none at the closed gate. It takes time and memory for what is recorded.
    pub fn next<D: Disk>(
        &mut self,
        alloc: Global,
        disk: &mut D,
    ) -> Result<Option<TickRecord>, RecoverFault>
        requires length { LengthIs (D.seen disk.old) self.old.len }
        requires places { ArePlaced self.old.world.rooms }
        ensures passed { IfOk result (λ found. (base : Stored) (entries : List Recorded)
            → HasPassed base entries self.old (D.seen disk.old)
            → HasPassedOn base entries self.old self.new (D.seen disk.old) found) }
        ensures fault { IfErr result (λ e. (base : Stored) (entries : List Recorded)
            → HasPassed base entries self.old (D.seen disk.old)
            → IsRecoverFaultOf (D.seen disk.old) (D.faults disk.old) (D.faults disk.new) e) }
        ensures places { OnOk result (ArePlaced self.new.world.rooms) }
        ensures never_empty { IfErr result (λ e. e ≢ Empty) }
        ensures moves { IfOk result (λ found. IfSome found (λ entry. self.old.gate < self.new.gate)) }
        ensures length { LengthIs (D.seen disk.old) self.new.len }
        ensures steady { IfErr result (λ e. e ≢ DiskFault → D.faults disk.new ≡ D.faults disk.old) }
        ensures reads { OnlyReads (D.seen disk.old) (D.seen disk.new)
            (D.moments disk.old) (D.moments disk.new) (D.faults disk.old) (D.faults disk.new) result }
    {
        let mut len = self.len;
        let content = match next_frame(alloc, disk, &mut len, self.gate)? {
            Behind::Closed => return Ok(None),
            Behind::Broken => return Err(RecoverFault::NotAJournal(self.gate)),
            Behind::Frame(content) => content,
        };
        let Some(entry) = next_fitting(alloc, &mut self.world, &content)? else {
            return Err(RecoverFault::NotAJournal(self.gate));
        };
        self.len = len;
        self.from = self.gate;
        self.gate += HEAD + content.len() as u64;
        Ok(Some(entry))
    }

    /// The reading that tests the rules from here on, if the world keeps the rules of objects: the frame of
    /// the last record fails where it doesn't. It takes time and memory for the whole world.
    pub fn tested(self, alloc: Global) -> Result<Walk, RecoverFault>
        requires { ArePlaced self.world.rooms }
        ensures same { IfOk result (λ walk. (walk.world ≡ self.world) × (walk.gate ≡ self.gate)
            × (walk.len ≡ self.len)) }
        ensures counted { IfOk result (λ walk. IsCounted walk.world walk.census) }
        ensures fault { IfErr result (λ e. e ≢ Memory
            → (e ≡ NotAJournal self.from) × (KeepsObjectRules self.world → ⊥)) }
    {
        let UntestedWalk {
            world,
            from,
            gate,
            len,
        } = self;
        match Census::of(alloc, &world)? {
            Some(census) => Ok(Walk {
                world,
                census,
                gate,
                len,
            }),
            None => Err(RecoverFault::NotAJournal(from)),
        }
    }
}
