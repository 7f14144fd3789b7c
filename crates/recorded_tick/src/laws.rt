// The records of ticks may stand in a journal.
ghost use Rattle.std.specs.Prelude.{◌≡◌, List};
ghost use Rattle.std.specs.FinMap.{empty};
ghost use Rattle.hosted_tick.specs.Hosting.{AreAccepted, Held, IsHosted, state_of};
ghost use Rattle.hosted_tick.specs.Next.{Next};
ghost use Rattle.intent_book.specs.declared.player_run.PlayerRun.{PlayerRun};
ghost use Rattle.object_store.specs.Stored.{Stored};
ghost use Rattle.record_follows.specs.Courses.{modules_after, world_after};
ghost use Rattle.record_follows.specs.Follows.{after as world_after_one};
ghost use Rattle.recorded_tick.specs.Recording.{HaveAsMany, IsRecordOf};
ghost use Rattle.site_limit.specs.FewSites.{HaveFewSites};
ghost use Rattle.tick_journal.specs.BaseForms.{world_as_read};
ghost use Rattle.tick_journal.specs.TickForms.{tick_as_read};
ghost use Rattle.tick_journal.specs.declared.entries.UploadEntry.{UploadEntry};
ghost use Rattle.tick_journal.specs.declared.tick_record.TickRecord.{TickRecord};
ghost use Rattle.upload_stream.specs.Streams.{Upload};
ghost use Rattle.world_journal.specs.Journals.{IsCourse, MayFollow};

/// Says of a tick of what players' modules emit, from a world that can be hosted and in which nobody has too
/// many sites: its record may stand behind the world before, and leads to the world after. It does nothing
/// when it runs.
pub fn records_may_stand()
    ensures stands { (before after : Held) (uploads : List Upload) (judged : List UploadEntry)
        (runs : List PlayerRun) (entry : TickRecord)
        → IsHosted before.world → HaveFewSites before.world → IsHosted after.world
        → Next (state_of before) uploads judged runs (state_of after)
        → IsRecordOf before.world after.world judged runs entry
        → MayFollow (world_as_read before.world) entry }
    ensures leads { (before after : Held) (uploads : List Upload) (judged : List UploadEntry)
        (runs : List PlayerRun) (entry : TickRecord)
        → IsHosted before.world → HaveFewSites before.world → IsHosted after.world
        → Next (state_of before) uploads judged runs (state_of after)
        → IsRecordOf before.world after.world judged runs entry
        → world_after_one (world_as_read before.world) (tick_as_read entry) ≡ world_as_read after.world }
    ensures as_many { (before after : Held) (uploads : List Upload) (judged : List UploadEntry)
        (runs : List PlayerRun)
        → IsHosted before.world → IsHosted after.world
        → Next (state_of before) uploads judged runs (state_of after)
        → HaveAsMany before.world after.world }
{}

/// Says that the last world of a journal can be hosted, and that nobody has too many sites in it. It does
/// nothing when it runs.
pub fn courses_can_be_hosted()
    ensures { (base : Stored) (entries : List TickRecord) → IsCourse base entries
        → IsHosted (world_after base entries) × HaveFewSites (world_after base entries) }
{}

/// Says that the modules that a journal leaves to its players were accepted. It does nothing when it runs.
pub fn courses_have_accepted_modules()
    ensures { (base : Stored) (entries : List TickRecord) → IsCourse base entries
        → AreAccepted (modules_after empty entries) }
{}
