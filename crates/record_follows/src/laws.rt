// Laws of worlds and the records that follow them.
ghost use Rattle.std.specs.Prelude.{◌≡◌, ℕ, List, Some, slice_get};
ghost use Rattle.object_store.specs.declared.world.Room.{Room};
ghost use Rattle.object_store.specs.Stored.{Stored};
ghost use Rattle.rule_check.specs.Kept.{AreOnTiles, KeepsAllButCounts};
ghost use Rattle.tick_journal.specs.declared.tick_record.TickRecord.{TickRecord};
ghost use Rattle.world_rules.specs.World.{listing_of};
ghost use Rattle.record_follows.specs.Courses.{AreFollowing, world_after};

/// Says that a world that keeps each rule but that of the counts still does so after records that follow
/// it, that its objects then stand on tiles if they did so before, and that the index of each room's table
/// is the room's place if it was so before. It does nothing when it runs.
pub fn records_keep_rules()
    ensures rules { (before : Stored) (entries : List TickRecord) → KeepsAllButCounts (listing_of before)
        → AreFollowing before entries → KeepsAllButCounts (listing_of (world_after before entries)) }
    ensures tiles { (before : Stored) (entries : List TickRecord) → AreOnTiles before.rooms
        → AreFollowing before entries → AreOnTiles (world_after before entries).rooms }
    ensures places { (before : Stored) (entries : List TickRecord)
        → ((index : ℕ) (room : Room) → slice_get before.rooms index ≡ Some room → room.table.index ≡ index)
        → (index : ℕ) (room : Room) → slice_get (world_after before entries).rooms index ≡ Some room
        → room.table.index ≡ index }
{}
