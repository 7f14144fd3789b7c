// What the program says of itself.

const VERSION: &str = "world_server 1\n";

const HELP: &str =
    "world_server hosts a programming game: it runs the modules of the players in a world of rooms, tick by\n\
    tick, and keeps all that happens in a journal.\n\
    \n\
    Choices:\n\
    \x20 run WORLD UPLOADS JOURNAL --ticks N  runs N ticks and prints the lines of each; with --workers K by K threads\n\
    \x20 serve WORLD JOURNAL --ticks N --links M --port P\n\
    \x20                                      runs N ticks, and serves M links of players at a port meanwhile\n\
    \x20 check MODULE                         says whether players may upload a module\n\
    \x20 gen SEED ROOMS PART                  prints a world that is made of a number, or its players' modules\n\
    \x20 demo SEED ROOMS TICKS                runs such a world in memory, and prints how its last tick ended\n\
    \x20 show JOURNAL TICK                    prints the world of a tick of a journal\n\
    \x20 replay JOURNAL                       says whether the ticks of a journal are what the rules make\n\
    \n\
    CHOICE --help says what the words of a choice mean. --version prints the version.\n\
    \n\
    An example, on a world that is made for it:\n\
    \x20 world_server gen 7 9 world > seven.json\n\
    \x20 world_server gen 7 9 uploads > seven.uploads\n\
    \x20 world_server run seven.json seven.uploads seven.journal --ticks 10\n\
    \n\
    Options stand anywhere behind the first word. Behind the word -- all words are paths, also those that\n\
    begin with -. The exit status is 0 where all was done; else a line `fault STATUS CAUSE` goes to standard\n\
    error. The guide for hosts explains each, and the guide for players how to write a module.\n";

const RUN_HELP: &str = "world_server run WORLD UPLOADS JOURNAL --ticks N [--workers K]\n\
    \n\
    Runs N ticks on a world, and prints the lines of each. Each tick is in the journal before it is printed.\n\
    \n\
    \x20 WORLD        the path of a world file, of at most 64 MiB\n\
    \x20 UPLOADS      the path of a stream of modules that players upload, of at most 256 MiB; where nobody\n\
    \x20              uploads, an empty file\n\
    \x20 JOURNAL      the path of the journal: where none stands it is begun, and else the run goes on from its\n\
    \x20              last tick; it has to begin with this world\n\
    \x20 --ticks N    how many ticks, in digits: 0 to 1000000\n\
    \x20 --workers K  how many threads run players and step rooms, in digits: 1 to 16; where it is left out, 1.\n\
    \x20              The lines and the journal are the same with any number\n\
    \n\
    An example, on a world that is made for it:\n\
    \x20 world_server gen 7 9 world > seven.json\n\
    \x20 world_server gen 7 9 uploads > seven.uploads\n\
    \x20 world_server run seven.json seven.uploads seven.journal --ticks 10\n\
    \n\
    The guide for hosts explains the files, the lines and the exit statuses.\n";

const SERVE_HELP: &str =
    "world_server serve WORLD JOURNAL --ticks N --links M --port P [--workers K] [--pace MS]\n\
    \n\
    Runs N ticks on a world, and meanwhile serves M links of players at a port of this machine, four at a time.\n\
    They upload modules and ask how the world stands. A line on standard error says where links are served.\n\
    \n\
    \x20 WORLD        the path of a world file, of at most 64 MiB, which has the players' tokens\n\
    \x20 JOURNAL      the path of the journal: where none stands it is begun, and else the ticks go on from its\n\
    \x20              last one; it has to begin with this world\n\
    \x20 --ticks N    how many ticks, in digits: 0 to 1000000\n\
    \x20 --links M    how many links, in digits: 0 to 1000000; it ends when ticks and links are over\n\
    \x20 --port P     the port of 127.0.0.1, in digits: 1 to 65535\n\
    \x20 --workers K  how many threads run players and step rooms, in digits: 1 to 16; where it is left out, 1\n\
    \x20 --pace MS    how many milliseconds to wait before each tick, in digits: 0 to 60000; where it is left\n\
    \x20              out, 0\n\
    \n\
    An example, ten ticks without links on a world that is made for it:\n\
    \x20 world_server gen 7 9 world > seven.json\n\
    \x20 world_server serve seven.json served.journal --ticks 10 --links 0 --port 7777\n\
    \n\
    The guide for hosts says how to serve a world, and the page on formats what a link says.\n";

const CHECK_HELP: &str = "world_server check MODULE\n\
    \n\
    Says whether players may upload a module: prints `accepted`, or `refused` and why.\n\
    \n\
    \x20 MODULE  the path of a WebAssembly module, of at most 1 MiB\n\
    \n\
    An example:\n\
    \x20 world_server check player.wasm\n\
    \n\
    The guide for players says how to write a module, and what each refusal means.\n";

const GEN_HELP: &str = "world_server gen SEED ROOMS PART\n\
    \n\
    Makes a world of a number and prints a part of it: the same words always print the same bytes.\n\
    \n\
    \x20 SEED   the number that the world is made of, in digits: 0 to 18446744073709551615\n\
    \x20 ROOMS  how many rooms it has, in digits: 1 to 400; each of the first eight has a player with a creep\n\
    \x20 PART   `world`, the world file, or `uploads`, the stream in which each player uploads a module that works\n\
    \n\
    An example, which runs ten ticks of such a world:\n\
    \x20 world_server gen 7 9 world > seven.json\n\
    \x20 world_server gen 7 9 uploads > seven.uploads\n\
    \x20 world_server run seven.json seven.uploads seven.journal --ticks 10\n\
    \n\
    The guide for hosts says what stands in such a world, and the page on formats what the bytes are.\n";

const DEMO_HELP: &str = "world_server demo SEED ROOMS TICKS\n\
    \n\
    Runs so many ticks in memory on the world that `gen` makes, with the modules of its players, and prints the\n\
    line of the last tick, then `journal` and how many bytes the journal of the run has. No file is read or written.\n\
    \n\
    \x20 SEED   the number that the world is made of, in digits: 0 to 18446744073709551615\n\
    \x20 ROOMS  how many rooms it has, in digits: 1 to 400; each of the first eight has a player with a creep\n\
    \x20 TICKS  how many ticks, in digits: 0 to 1000000\n\
    \n\
    An example, twenty ticks of a hundred rooms with eight players:\n\
    \x20 world_server demo 7 100 20\n\
    \n\
    The guide for hosts says what stands in such a world.\n";

const SHOW_HELP: &str = "world_server show JOURNAL TICK\n\
    \n\
    Prints the world of a tick of a journal, as a world file, which `run` takes. The journal is not changed.\n\
    \n\
    \x20 JOURNAL  the path of a journal that a run made\n\
    \x20 TICK     which tick, in digits: that of the world that the journal begins with, or of one after it\n\
    \n\
    An example, behind the one of `world_server run --help`:\n\
    \x20 world_server show seven.journal 2 > later.json\n\
    \n\
    The guide for hosts says how it ends where there is no such tick, and the page on formats what the text is.\n";

const REPLAY_HELP: &str = "world_server replay JOURNAL\n\
    \n\
    Rules each tick of a journal again: prints `replayed` and how many there are, where each made of the world\n\
    before it what the rules make of what is recorded that players wanted. The journal is not changed.\n\
    \n\
    \x20 JOURNAL  the path of a journal that a run made\n\
    \n\
    An example, behind the one of `world_server run --help`:\n\
    \x20 world_server replay seven.journal\n\
    \n\
    The guide for hosts says how it ends where a tick is not what the rules make.\n";

/// The text that the words ask for: `--help` or `--version`, alone or behind a choice.
pub(crate) fn page_of(words: &[String]) -> Option<&'static str> {
    match words {
        [word] => match word.as_str() {
            "--help" => Some(HELP),
            "--version" => Some(VERSION),
            _ => None,
        },
        [choice, word] => page_of_choice(choice.as_str(), word.as_str()),
        _ => None,
    }
}

/// The form of a choice's words, which is the first line of its help.
pub(crate) fn form_of(choice: &str) -> Option<&'static str> {
    let help = help_of(choice)?;
    match help.split_once('\n') {
        Some((form, _)) => Some(form),
        None => Some(help),
    }
}

// The help of a choice.
fn help_of(choice: &str) -> Option<&'static str> {
    match choice {
        "run" => Some(RUN_HELP),
        "serve" => Some(SERVE_HELP),
        "check" => Some(CHECK_HELP),
        "gen" => Some(GEN_HELP),
        "demo" => Some(DEMO_HELP),
        "show" => Some(SHOW_HELP),
        "replay" => Some(REPLAY_HELP),
        _ => None,
    }
}

// The text that a word behind a choice asks for.
fn page_of_choice(choice: &str, word: &str) -> Option<&'static str> {
    let help = help_of(choice)?;
    match word {
        "--help" => Some(help),
        "--version" => Some(VERSION),
        _ => None,
    }
}
