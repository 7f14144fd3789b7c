// What words say, with memory at hand.
use command_words::{Command, WordsFault, read_words};
use std::alloc::{AllocError, Global};
use std::test::Fail;

// Words of these texts.
fn words_of(alloc: Global, texts: &[&str]) -> Result<Vec<String>, AllocError> {
    let mut words = Vec::new(alloc);
    for text in texts {
        words.push(String::from_str(alloc, text)?)?;
    }
    Ok(words)
}

// A command as one line.
fn line_of(alloc: Global, command: &Command) -> Result<String, AllocError> {
    match command {
        Command::Run {
            world,
            uploads,
            journal,
            ticks,
            workers,
        } => format!(in alloc; "run {world} {uploads} {journal} {ticks} by {workers}"),
        Command::Serve {
            world,
            journal,
            ticks,
            links,
            port,
            workers,
            pace,
        } => format!(in alloc;
            "serve {world} {journal} {ticks} {links} {port} by {workers} at {pace}"
        ),
        Command::Check { module } => format!(in alloc; "check {module}"),
        Command::Replay { journal } => format!(in alloc; "replay {journal}"),
        Command::Show { journal, tick } => format!(in alloc; "show {journal} {tick}"),
        Command::Gen { seed, rooms, part } => format!(in alloc; "gen {seed} {rooms} {part:?}"),
        Command::Demo { seed, rooms, ticks } => format!(in alloc; "demo {seed} {rooms} {ticks}"),
    }
}

// The command that words say as one line.
fn said(alloc: Global, words: &[String]) -> Result<String, AllocError> {
    match read_words(alloc, words) {
        Ok(command) => line_of(alloc, &command),
        Err(WordsFault::Usage) => String::from_str(alloc, "usage"),
        Err(WordsFault::Memory) => String::from_str(alloc, "memory"),
    }
}

// Whether words of these texts say this line.
fn is_said(alloc: Global, texts: &[&str], line: &str) -> Result<bool, AllocError> {
    let words = words_of(alloc, texts)?;
    Ok(said(alloc, &words)?.as_str() == line)
}

// Words, and what they say.
static COMMANDS: [(&[&str], &str); 12] = [
    (
        &["run", "w", "u", "j", "--ticks", "0007"],
        "run w u j 7 by 1",
    ),
    (
        &["run", "--ticks=1000000", "w", "u", "j"],
        "run w u j 1000000 by 1",
    ),
    (
        &["run", "w", "--ticks", "0", "u", "--", "-j"],
        "run w u -j 0 by 1",
    ),
    (&["run", "w", "u", "j", "--ticks", "1000001"], "usage"),
    (&["run", "w", "u", "j", "--ticks=+1"], "usage"),
    (
        &["run", "w", "u", "j", "--ticks", "1", "--ticks", "1"],
        "usage",
    ),
    (&["run", "w", "u", "--ticks", "1"], "usage"),
    (&["check", "m"], "check m"),
    (&["check", "--", "--help"], "check --help"),
    (&["check", "--help"], "usage"),
    (&["watch", "m"], "usage"),
    (&[], "usage"),
];

#[test]
fn words_say_their_command(rt: HostRuntime) -> Result<(), Fail> {
    for row in &COMMANDS {
        let (words, line) = *row;
        assert!(rt; is_said(rt.alloc(), words, line)?, "{line}");
    }
    Ok(())
}

static WORKERS: [(&[&str], &str); 15] = [
    (
        &["run", "w", "u", "j", "--ticks", "3", "--workers", "1"],
        "run w u j 3 by 1",
    ),
    (
        &["run", "w", "u", "j", "--ticks", "3", "--workers", "16"],
        "run w u j 3 by 16",
    ),
    (
        &["run", "w", "u", "j", "--ticks", "3", "--workers=2"],
        "run w u j 3 by 2",
    ),
    (
        &["run", "--workers", "0004", "w", "--ticks", "3", "u", "j"],
        "run w u j 3 by 4",
    ),
    (
        &["run", "w", "u", "j", "--ticks", "3", "--", "--workers"],
        "usage",
    ),
    (
        &["run", "w", "u", "--ticks", "3", "--", "--workers"],
        "run w u --workers 3 by 1",
    ),
    (
        &["run", "w", "u", "j", "--ticks", "3", "--workers", "17"],
        "usage",
    ),
    (
        &["run", "w", "u", "j", "--ticks", "3", "--workers", "0"],
        "usage",
    ),
    (
        &["run", "w", "u", "j", "--ticks", "3", "--workers", "-1"],
        "usage",
    ),
    (
        &["run", "w", "u", "j", "--ticks", "3", "--workers", "=2"],
        "usage",
    ),
    (
        &["run", "w", "u", "j", "--ticks", "3", "--workers=+2"],
        "usage",
    ),
    (
        &[
            "run",
            "w",
            "u",
            "j",
            "--ticks",
            "3",
            "--workers",
            "2",
            "--workers",
            "2",
        ],
        "usage",
    ),
    (
        &["run", "w", "u", "j", "--ticks", "3", "--workers"],
        "usage",
    ),
    (&["run", "w", "u", "j", "--workers", "2"], "usage"),
    (&["check", "m", "--workers", "2"], "usage"),
];

#[test]
fn words_say_how_many_workers(rt: HostRuntime) -> Result<(), Fail> {
    for row in &WORKERS {
        let (words, line) = *row;
        assert!(rt; is_said(rt.alloc(), words, line)?, "{line}");
    }
    Ok(())
}

static SERVING: [(&[&str], &str); 21] = [
    (
        &[
            "serve",
            "w",
            "j",
            "--ticks",
            "3",
            "--links",
            "2",
            "--port",
            "8080",
            "--workers",
            "4",
            "--pace",
            "250",
        ],
        "serve w j 3 2 8080 by 4 at 250",
    ),
    (
        &[
            "serve", "w", "j", "--ticks", "3", "--links", "2", "--port", "8080",
        ],
        "serve w j 3 2 8080 by 1 at 0",
    ),
    (
        &[
            "serve",
            "w",
            "j",
            "--ticks",
            "3",
            "--links",
            "2",
            "--port",
            "8080",
            "--workers",
            "16",
        ],
        "serve w j 3 2 8080 by 16 at 0",
    ),
    (
        &[
            "serve", "w", "j", "--ticks", "3", "--links", "2", "--port", "8080", "--pace", "60000",
        ],
        "serve w j 3 2 8080 by 1 at 60000",
    ),
    (
        &[
            "serve",
            "--port=65535",
            "w",
            "--pace=0",
            "--links=1000000",
            "j",
            "--ticks=1000000",
        ],
        "serve w j 1000000 1000000 65535 by 1 at 0",
    ),
    (
        &[
            "serve", "w", "--ticks", "0", "--links", "0", "--port", "0001", "--", "-j",
        ],
        "serve w -j 0 0 1 by 1 at 0",
    ),
    (
        &[
            "serve", "w", "j", "--ticks", "3", "--links", "2", "--port", "0",
        ],
        "usage",
    ),
    (
        &[
            "serve", "w", "j", "--ticks", "3", "--links", "2", "--port", "65536",
        ],
        "usage",
    ),
    (
        &[
            "serve",
            "w",
            "j",
            "--ticks",
            "3",
            "--links",
            "2",
            "--port=+1",
        ],
        "usage",
    ),
    (
        &[
            "serve", "w", "j", "--ticks", "3", "--links", "2", "--port", "8080", "--pace", "60001",
        ],
        "usage",
    ),
    (
        &[
            "serve", "w", "j", "--ticks", "3", "--links", "1000001", "--port", "8080",
        ],
        "usage",
    ),
    (
        &[
            "serve",
            "w",
            "j",
            "--ticks",
            "3",
            "--links",
            "2",
            "--port",
            "8080",
            "--workers",
            "17",
        ],
        "usage",
    ),
    (
        &[
            "serve", "w", "j", "--ticks", "1000001", "--links", "2", "--port", "8080",
        ],
        "usage",
    ),
    (
        &["serve", "w", "j", "--ticks", "3", "--links", "2"],
        "usage",
    ),
    (
        &["serve", "w", "j", "--ticks", "3", "--port", "8080"],
        "usage",
    ),
    (
        &["serve", "w", "j", "--links", "2", "--port", "8080"],
        "usage",
    ),
    (
        &[
            "serve", "w", "j", "--ticks", "3", "--links", "2", "--port", "8080", "--port", "8080",
        ],
        "usage",
    ),
    (
        &[
            "serve", "w", "j", "--ticks", "3", "--links", "2", "--port", "8080", "--pace", "1",
            "--pace", "1",
        ],
        "usage",
    ),
    (
        &[
            "serve", "w", "j", "k", "--ticks", "3", "--links", "2", "--port", "8080",
        ],
        "usage",
    ),
    (&["serve", "m"], "usage"),
    (
        &["run", "w", "u", "j", "--ticks", "3", "--port", "8080"],
        "usage",
    ),
];

#[test]
fn words_say_what_is_served(rt: HostRuntime) -> Result<(), Fail> {
    for row in &SERVING {
        let (words, line) = *row;
        assert!(rt; is_said(rt.alloc(), words, line)?, "{line}");
    }
    Ok(())
}

static JOURNALS: [(&[&str], &str); 10] = [
    (&["replay", "j"], "replay j"),
    (&["replay", "--", "-j"], "replay -j"),
    (&["replay"], "usage"),
    (&["replay", "j", "k"], "usage"),
    (&["show", "j", "007"], "show j 7"),
    (
        &["show", "j", "18446744073709551615"],
        "show j 18446744073709551615",
    ),
    (&["show", "j", "18446744073709551616"], "usage"),
    (&["show", "j", "+1"], "usage"),
    (&["show", "j"], "usage"),
    (&["show", "1", "j"], "usage"),
];

#[test]
fn words_say_a_journal(rt: HostRuntime) -> Result<(), Fail> {
    for row in &JOURNALS {
        let (words, line) = *row;
        assert!(rt; is_said(rt.alloc(), words, line)?, "{line}");
    }
    Ok(())
}

static WORLDS: [(&[&str], &str); 16] = [
    (&["gen", "7", "1", "world"], "gen 7 1 World"),
    (
        &["gen", "18446744073709551615", "400", "uploads"],
        "gen 18446744073709551615 400 Uploads",
    ),
    (&["gen", "18446744073709551616", "1", "world"], "usage"),
    (&["gen", "7", "0", "world"], "usage"),
    (&["gen", "7", "401", "world"], "usage"),
    (&["gen", "7", "1", "worlds"], "usage"),
    (&["gen", "7", "1", "World"], "usage"),
    (&["gen", "7", "1", ""], "usage"),
    (&["gen", "7", "1"], "usage"),
    (&["gen", "x", "1", "world"], "usage"),
    (&["demo", "7", "400", "1000000"], "demo 7 400 1000000"),
    (&["demo", "0", "1", "0"], "demo 0 1 0"),
    (&["demo", "7", "1", "1000001"], "usage"),
    (&["demo", "7", "0", "1"], "usage"),
    (&["demo", "7", "401", "1"], "usage"),
    (&["demo", "7", "1"], "usage"),
];

#[test]
fn words_say_a_world(rt: HostRuntime) -> Result<(), Fail> {
    for row in &WORLDS {
        let (words, line) = *row;
        assert!(rt; is_said(rt.alloc(), words, line)?, "{line}");
    }
    Ok(())
}
