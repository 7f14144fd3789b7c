// The law that a tick keeps the limit of sites.
#![tactic(auto)]

ghost use Rattle.std.specs.Prelude.{List};
ghost use Rattle.intent_book.specs.declared.player_run.PlayerRun.{PlayerRun};
ghost use Rattle.upload_stream.specs.Streams.{Upload};
ghost use Rattle.tick_journal.specs.declared.entries.UploadEntry.{UploadEntry};
ghost use Rattle.world_rules.specs.Sound.{IsSound};
ghost use Rattle.hosted_tick.specs.Hosting.{Held, state_of};
ghost use Rattle.hosted_tick.specs.Next.{Next};
ghost use Rattle.site_limit.specs.FewSites.{HaveFewSites};

/// Says that a tick of what players' modules emit keeps the limit of sites, which entries from elsewhere need
/// not keep: where no player has more sites in a sound world than he may have, none has in the sound world
/// after the tick. It does nothing when it runs.
pub fn ticks_keep_the_limit_of_sites()
    ensures { (before after : Held) (uploads : List Upload) (records : List UploadEntry)
        (runs : List PlayerRun)
        → IsSound before.world → IsSound after.world
        → Next (state_of before) uploads records runs (state_of after)
        → HaveFewSites before.world → HaveFewSites after.world }
{}
