// The choices of the program.
ghost use Rattle.std.specs.Prelude.{◌≡◌};
ghost use Rattle.command_words.specs.Choices.{run as run_of_words, check as check_of_words};
ghost use Rattle.command_words.specs.Choices.{replay as replay_of_words, show as show_of_words};
ghost use Rattle.command_words.specs.Choices.{gen as gen_of_words, demo as demo_of_words};
ghost use Rattle.command_words.specs.Choices.{serve as serve_of_words};

use crate::simple::Choice;

/// `run WORLD UPLOADS JOURNAL --ticks N`, and `--workers K`, which may be left out
pub(crate) fn run<'a>() -> Choice<'a>
    ensures { result ≡ run_of_words }
{
    Choice {
        word: "run",
        positionals: &["WORLD", "UPLOADS", "JOURNAL"],
        options: &["ticks"],
        optional: &["workers"],
    }
}

/// `check MODULE`
pub(crate) fn check<'a>() -> Choice<'a>
    ensures { result ≡ check_of_words }
{
    Choice {
        word: "check",
        positionals: &["MODULE"],
        options: &[],
        optional: &[],
    }
}

/// `replay JOURNAL`
pub(crate) fn replay<'a>() -> Choice<'a>
    ensures { result ≡ replay_of_words }
{
    Choice {
        word: "replay",
        positionals: &["JOURNAL"],
        options: &[],
        optional: &[],
    }
}

/// `show JOURNAL TICK`
pub(crate) fn show<'a>() -> Choice<'a>
    ensures { result ≡ show_of_words }
{
    Choice {
        word: "show",
        positionals: &["JOURNAL", "TICK"],
        options: &[],
        optional: &[],
    }
}

/// `gen SEED ROOMS PART`
pub(crate) fn gen_<'a>() -> Choice<'a>
    ensures { result ≡ gen_of_words }
{
    Choice {
        word: "gen",
        positionals: &["SEED", "ROOMS", "PART"],
        options: &[],
        optional: &[],
    }
}

/// `demo SEED ROOMS TICKS`
pub(crate) fn demo<'a>() -> Choice<'a>
    ensures { result ≡ demo_of_words }
{
    Choice {
        word: "demo",
        positionals: &["SEED", "ROOMS", "TICKS"],
        options: &[],
        optional: &[],
    }
}

/// `serve WORLD JOURNAL --ticks N --links M --port P`, and `--workers K` and `--pace MS`, which may be left
/// out
pub(crate) fn serve<'a>() -> Choice<'a>
    ensures { result ≡ serve_of_words }
{
    Choice {
        word: "serve",
        positionals: &["WORLD", "JOURNAL"],
        options: &["ticks", "links", "port"],
        optional: &["workers", "pace"],
    }
}
