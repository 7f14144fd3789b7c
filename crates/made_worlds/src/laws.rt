// The laws of the worlds that are made of a number.
ghost use Rattle.std.specs.Prelude.{◌≡◌, ◌≤◌, ℕ, List, Some, min, slice_get};
ghost use Rattle.byte_fields.specs.Front.{SpellsShortest};
ghost use Rattle.object_store.specs.Stored.{HasAccount};
ghost use Rattle.object_store.specs.declared.world.Room.{Room};
ghost use Rattle.player_run.specs.Admission.{IsAccepted};
ghost use Rattle.room_terrain.specs.Geometry.{Mirrors};
ghost use Rattle.room_terrain.specs.Tiles.{tile};
ghost use Rattle.upload_stream.specs.Streams.{UploadList};
ghost use Rattle.wasm_module.specs.Limits.{WithinBytes};
ghost use Rattle.wasm_module.specs.Sections.{Spells};
ghost use Rattle.world_form.specs.Files.{WorldForm};
ghost use Rattle.world_form.specs.Written.{IsOfTypes, IsWritable, written};
ghost use Rattle.world_gen.specs.Generator.{generated};
ghost use Rattle.world_gen.specs.PlayerModule.{player_module};
ghost use Rattle.world_gen.specs.Uploads.{uploads};
ghost use Rattle.world_rules.specs.World.{world_of};
ghost use Rattle.made_worlds.specs.Streams.{IsPlayersStream};

/// Says that the world of any number and one to four hundred rooms keeps all rules of world files, and
/// that the text that is written for it is an accepted file of it. It does nothing when it runs.
pub fn generated_worlds_are_writable()
    ensures writable { (seed rooms : ℕ) → 1 ≤ rooms → rooms ≤ 400 → IsWritable (generated seed rooms) }
    ensures of_types { (seed rooms : ℕ) → IsOfTypes (generated seed rooms) }
    ensures accepted { (seed rooms : ℕ) → 1 ≤ rooms → rooms ≤ 400
        → WorldForm (written (generated seed rooms)) (world_of (generated seed rooms)) }
{}

/// Says that the exits of such a world meet: what a creep crosses to, from a border tile of one room to
/// that of another, has the same ground. It does nothing when it runs.
pub fn generated_exits_meet()
    ensures { (seed rooms i j x y v w : ℕ) (one other : Room)
        → slice_get (generated seed rooms).rooms i ≡ Some one
        → slice_get (generated seed rooms).rooms j ≡ Some other
        → Mirrors one.name x y other.name v w
        → slice_get one.terrain (tile x y) ≡ slice_get other.terrain (tile v w) }
{}

/// Says that the stream that is made for such a world has one upload of the players' module for each of
/// its players, that there is one such stream, and that each of these players has an account in the
/// world. It does nothing when it runs.
pub fn generated_uploads_are_good()
    ensures good { (rooms : ℕ) (text bytes : List ℕ) → SpellsShortest Spells text player_module
        → UploadList bytes (uploads text rooms) → IsPlayersStream rooms bytes }
    ensures alone { (rooms : ℕ) (bytes other : List ℕ) → IsPlayersStream rooms bytes
        → IsPlayersStream rooms other → bytes ≡ other }
    ensures known { (seed rooms player : ℕ) → 1 ≤ player → player ≤ min 8 rooms
        → HasAccount player (generated seed rooms).accounts }
{}

/// Says that the module of these players is one that a player may have: each text of it of at most 1 MiB
/// spells a valid module that links to the host calls, and its shortest text, which these players upload,
/// is no longer. It does nothing when it runs.
pub fn player_modules_are_accepted()
    ensures any { (text : List ℕ) → Spells text player_module → WithinBytes text → IsAccepted text }
    ensures short { (text : List ℕ) → SpellsShortest Spells text player_module → WithinBytes text }
    ensures shortest { (text : List ℕ) → SpellsShortest Spells text player_module → IsAccepted text }
{}
