// The commands of the program.
ghost use Rattle.std.specs.Prelude.{◌≡◌};
ghost use Rattle.command_words.specs.declared.command.WordsFault.TheVariants.{Memory};

use std::alloc::AllocError;

/// What the program is asked to do.
#[derive(Drop)]
pub enum Command {
    /// Runs this many ticks on a world file and an upload file by so many workers, 1 to 16, and keeps a
    /// journal at a path.
    Run {
        world: String,
        uploads: String,
        journal: String,
        ticks: u64,
        workers: u32,
    },
    /// Serves this many ticks of a world file and this many links of players at a port of this machine, 1 to
    /// 65,535, by so many workers, 1 to 16, with a pause of so many milliseconds before each tick, at most
    /// 60,000, and keeps a journal at a path.
    Serve {
        world: String,
        journal: String,
        ticks: u64,
        links: u32,
        port: u16,
        workers: u32,
        pace: u32,
    },
    /// Says whether the file at a path is a module that is taken.
    Check {
        module: String,
    },
    /// Rules the ticks of the journal at a path again.
    Replay {
        journal: String,
    },
    /// Shows the world of a tick of the journal at a path.
    Show {
        journal: String,
        tick: u64,
    },
    /// Makes a world of a seed and so many rooms, 1 to 400, or the uploads of its players.
    Gen {
        seed: u64,
        rooms: u32,
        part: GenPart,
    },
    /// Runs so many ticks on the world of a seed and so many rooms, 1 to 400, in memory.
    Demo {
        seed: u64,
        rooms: u32,
        ticks: u64,
    },
}

/// What is made of a seed.
#[derive(Clone, Copy, Debug, PartialEq, Eq)]
pub enum GenPart {
    /// The world file.
    World,
    /// The upload stream.
    Uploads,
}

/// Why words are no command.
#[derive(Clone, Copy, Debug, PartialEq, Eq)]
pub enum WordsFault {
    /// The words are none of the program's.
    Usage,
    /// There is not enough memory.
    Memory,
}

impl From<AllocError> for WordsFault {
    ghost from_gives = { λ _ e. e ≡ Memory };

    fn from(_: AllocError) -> Self {
        WordsFault::Memory
    }
}
