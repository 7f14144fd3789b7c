// The reading of words.
ghost use Rattle.std.specs.Prelude.{◌≡◌, ℕ, ◌≤◌, List, ◌∷◌, Some, None, true, false, map, codes, option_map};
ghost use Rattle.std.specs.Prelude.{string_bytes, IfOk, IfErr};
ghost use Rattle.clap.specs.Matches.{found_of};
ghost use Rattle.clap.specs.Walk.{rows_of, first_of};
ghost use Rattle.command_words.specs.Numbers.{IsNumber};
ghost use Rattle.command_words.specs.Commands.{Words, IsAlone, AreNone};
ghost use Rattle.command_words.specs.Words.{AreRooms, AreWorkers, IsPace, part_word};
ghost use Rattle.command_words.specs.Shown.{TakesShown};
ghost use Rattle.command_words.specs.declared.command.GenPart.{GenPart as Part};

use crate::choices::{check, demo, gen_, replay, run, serve, show};
use crate::command::{Command, GenPart, WordsFault};
use crate::number::number_of;
use crate::simple::matches;
use clap::ArgMatches;
use std::alloc::Global;

/// The most ticks of a run or of serving.
const MOST_TICKS: u64 = 1_000_000;

/// The most links of serving.
const MOST_LINKS: u64 = 1_000_000;

/// The highest port.
const MOST_PORT: u64 = 65_535;

/// The most workers of a run or of serving.
const MOST_WORKERS: u64 = 16;

/// The longest pause before a tick, in milliseconds.
const MOST_PACE: u64 = 60_000;

/// The most rooms of a generated world.
const MOST_ROOMS: u64 = 400;

/// The command that words after the program's name say.
///
/// The first word chooses. The rest is read by one command of `clap` for each choice, whose positionals
/// and options take one value each and have to be given, but for `--workers` and `--pace`. `--help` and
/// `--version` are faults.
#[tactic(auto, using(crate::proofs::Shown::takes_shown, crate::proofs::Apart::unchosen))]
pub fn read_words(alloc: Global, words: &[String]) -> Result<Command, WordsFault>
    ensures ok { IfOk result (Words (map string_bytes words.now)) }
    ensures alone { IfOk result (IsAlone (map string_bytes words.now)) }
    ensures usage { IfErr result (λ e. e ≡ WordsFault.Usage → AreNone (map string_bytes words.now)) }

    // Words in the order in which the choices are shown are taken.
    ensures shown { TakesShown (map string_bytes words.now) }
{
    if is_chosen(words, "run") {
        read_run(alloc, words)
    } else if is_chosen(words, "check") {
        read_check(alloc, words)
    } else if is_chosen(words, "replay") {
        read_replay(alloc, words)
    } else if is_chosen(words, "show") {
        read_show(alloc, words)
    } else if is_chosen(words, "gen") {
        read_gen(alloc, words)
    } else if is_chosen(words, "demo") {
        read_demo(alloc, words)
    } else if is_chosen(words, "serve") {
        read_serve(alloc, words)
    } else {
        Err(WordsFault::Usage)
    }
}

// Whether the first word is this one.
fn is_chosen(words: &[String], word: &str) -> bool
    ensures chosen { result ≡ true
        → (rest : List (List ℕ)) × (map string_bytes words.now ≡ word.now ∷ rest) }
    ensures other { result ≡ false
        → (rest : List (List ℕ)) → map string_bytes words.now ≡ word.now ∷ rest → ⊥ }
{
    match words.first() {
        Some(first) => first.as_str() == word,
        None => false,
    }
}

// The words of a run.
fn read_run(alloc: Global, words: &[String]) -> Result<Command, WordsFault>
    requires { (rest : List (List ℕ)) × (map string_bytes words.now ≡ codes "run" ∷ rest) }
    ensures ok { IfOk result (Words (map string_bytes words.now)) }
    ensures alone { IfOk result (IsAlone (map string_bytes words.now)) }
    ensures usage { IfErr result (λ e. e ≡ WordsFault.Usage → AreNone (map string_bytes words.now)) }
{
    let matches = matches(alloc, &run(), words)?;
    let world = value(alloc, &matches, "WORLD")?;
    let uploads = value(alloc, &matches, "UPLOADS")?;
    let journal = value(alloc, &matches, "JOURNAL")?;
    let ticks = number(&matches, "ticks", MOST_TICKS)?;
    let workers = workers(&matches)?;
    Ok(Command::Run {
        world,
        uploads,
        journal,
        ticks,
        workers,
    })
}

// The words of a check.
fn read_check(alloc: Global, words: &[String]) -> Result<Command, WordsFault>
    requires { (rest : List (List ℕ)) × (map string_bytes words.now ≡ codes "check" ∷ rest) }
    ensures ok { IfOk result (Words (map string_bytes words.now)) }
    ensures alone { IfOk result (IsAlone (map string_bytes words.now)) }
    ensures usage { IfErr result (λ e. e ≡ WordsFault.Usage → AreNone (map string_bytes words.now)) }
{
    let matches = matches(alloc, &check(), words)?;
    let module = value(alloc, &matches, "MODULE")?;
    Ok(Command::Check { module })
}

// The words of a replay.
fn read_replay(alloc: Global, words: &[String]) -> Result<Command, WordsFault>
    requires { (rest : List (List ℕ)) × (map string_bytes words.now ≡ codes "replay" ∷ rest) }
    ensures ok { IfOk result (Words (map string_bytes words.now)) }
    ensures alone { IfOk result (IsAlone (map string_bytes words.now)) }
    ensures usage { IfErr result (λ e. e ≡ WordsFault.Usage → AreNone (map string_bytes words.now)) }
{
    let matches = matches(alloc, &replay(), words)?;
    let journal = value(alloc, &matches, "JOURNAL")?;
    Ok(Command::Replay { journal })
}

// The words of the showing of a tick.
fn read_show(alloc: Global, words: &[String]) -> Result<Command, WordsFault>
    requires { (rest : List (List ℕ)) × (map string_bytes words.now ≡ codes "show" ∷ rest) }
    ensures ok { IfOk result (Words (map string_bytes words.now)) }
    ensures alone { IfOk result (IsAlone (map string_bytes words.now)) }
    ensures usage { IfErr result (λ e. e ≡ WordsFault.Usage → AreNone (map string_bytes words.now)) }
{
    let matches = matches(alloc, &show(), words)?;
    let journal = value(alloc, &matches, "JOURNAL")?;
    let tick = number(&matches, "TICK", u64::MAX)?;
    Ok(Command::Show { journal, tick })
}

// The words of the making of a world.
fn read_gen(alloc: Global, words: &[String]) -> Result<Command, WordsFault>
    requires { (rest : List (List ℕ)) × (map string_bytes words.now ≡ codes "gen" ∷ rest) }
    ensures ok { IfOk result (Words (map string_bytes words.now)) }
    ensures alone { IfOk result (IsAlone (map string_bytes words.now)) }
    ensures usage { IfErr result (λ e. e ≡ WordsFault.Usage → AreNone (map string_bytes words.now)) }
{
    let matches = matches(alloc, &gen_(), words)?;
    let seed = number(&matches, "SEED", u64::MAX)?;
    let rooms = rooms(&matches)?;
    let part = part(&matches)?;
    Ok(Command::Gen { seed, rooms, part })
}

// The words of a run in memory.
fn read_demo(alloc: Global, words: &[String]) -> Result<Command, WordsFault>
    requires { (rest : List (List ℕ)) × (map string_bytes words.now ≡ codes "demo" ∷ rest) }
    ensures ok { IfOk result (Words (map string_bytes words.now)) }
    ensures alone { IfOk result (IsAlone (map string_bytes words.now)) }
    ensures usage { IfErr result (λ e. e ≡ WordsFault.Usage → AreNone (map string_bytes words.now)) }
{
    let matches = matches(alloc, &demo(), words)?;
    let seed = number(&matches, "SEED", u64::MAX)?;
    let rooms = rooms(&matches)?;
    let ticks = number(&matches, "TICKS", MOST_TICKS)?;
    Ok(Command::Demo { seed, rooms, ticks })
}

// The words of serving.
fn read_serve(alloc: Global, words: &[String]) -> Result<Command, WordsFault>
    requires { (rest : List (List ℕ)) × (map string_bytes words.now ≡ codes "serve" ∷ rest) }
    ensures ok { IfOk result (Words (map string_bytes words.now)) }
    ensures alone { IfOk result (IsAlone (map string_bytes words.now)) }
    ensures usage { IfErr result (λ e. e ≡ WordsFault.Usage → AreNone (map string_bytes words.now)) }
{
    let matches = matches(alloc, &serve(), words)?;
    let world = value(alloc, &matches, "WORLD")?;
    let journal = value(alloc, &matches, "JOURNAL")?;
    let ticks = number(&matches, "ticks", MOST_TICKS)?;
    let links = number(&matches, "links", MOST_LINKS)?;
    let port = port(&matches)?;
    let workers = workers(&matches)?;
    let pace = pace(&matches)?;
    Ok(Command::Serve {
        world,
        journal,
        ticks,
        links: links as u32,
        port,
        workers,
        pace,
    })
}

// The value of an argument.
fn value(alloc: Global, matches: &ArgMatches, name: &str) -> Result<String, WordsFault>
    ensures ok { IfOk result (λ text.
        first_of name.now (rows_of (found_of matches.now)) ≡ Some (string_bytes text)) }
    ensures usage { IfErr result (λ e. e ≡ WordsFault.Usage
        → first_of name.now (rows_of (found_of matches.now)) ≡ None) }
{
    match text_of(matches, name) {
        Some(text) => Ok(String::from_str(alloc, text)?),
        None => Err(WordsFault::Usage),
    }
}

// The value of an argument as a number of at most this size.
fn number(matches: &ArgMatches, name: &str, most: u64) -> Result<u64, WordsFault>
    ensures ok { IfOk result (λ n. (text : List ℕ)
        × (first_of name.now (rows_of (found_of matches.now)) ≡ Some text) × IsNumber text n × (n ≤ most)) }
    ensures usage { IfErr result (λ e. e ≡ WordsFault.Usage → (text : List ℕ) → (n : ℕ)
        → first_of name.now (rows_of (found_of matches.now)) ≡ Some text → IsNumber text n → n ≤ most → ⊥) }
{
    match text_of(matches, name) {
        Some(text) => match number_of(text, most) {
            Some(number) => Ok(number),
            None => Err(WordsFault::Usage),
        },
        None => Err(WordsFault::Usage),
    }
}

// The value of an argument as it stands in the words.
fn text_of<'a>(matches: &ArgMatches<'a>, name: &str) -> Option<&'a str>
    ensures { option_map (λ s. s.now) result ≡ first_of name.now (rows_of (found_of matches.now)) }
{
    matches.get_str(name)
}

// The port of serving.
fn port(matches: &ArgMatches) -> Result<u16, WordsFault>
    ensures ok { IfOk result (λ n. (text : List ℕ)
        × (first_of (codes "port") (rows_of (found_of matches.now)) ≡ Some text) × IsNumber text n
        × (1 ≤ n) × (n ≤ 65535)) }
    ensures usage { IfErr result (λ e. e ≡ WordsFault.Usage → (text : List ℕ) → (n : ℕ)
        → first_of (codes "port") (rows_of (found_of matches.now)) ≡ Some text → IsNumber text n
        → 1 ≤ n → n ≤ 65535 → ⊥) }
{
    let port = number(matches, "port", MOST_PORT)?;
    if port == 0 {
        return Err(WordsFault::Usage);
    }
    Ok(port as u16)
}

// The pause before each tick of serving, in milliseconds: none, where none is said.
fn pace(matches: &ArgMatches) -> Result<u32, WordsFault>
    ensures ok { IfOk result (IsPace (first_of (codes "pace") (rows_of (found_of matches.now)))) }
    ensures usage { IfErr result (λ e. e ≡ WordsFault.Usage → (n : ℕ)
        → IsPace (first_of (codes "pace") (rows_of (found_of matches.now))) n → ⊥) }
{
    let Some(text) = text_of(matches, "pace") else {
        return Ok(0);
    };
    match number_of(text, MOST_PACE) {
        Some(pace) => Ok(pace as u32),
        None => Err(WordsFault::Usage),
    }
}

// The number of workers of a run or of serving: one, where none is said.
fn workers(matches: &ArgMatches) -> Result<u32, WordsFault>
    ensures ok { IfOk result (AreWorkers (first_of (codes "workers") (rows_of (found_of matches.now)))) }
    ensures usage { IfErr result (λ e. e ≡ WordsFault.Usage → (n : ℕ)
        → AreWorkers (first_of (codes "workers") (rows_of (found_of matches.now))) n → ⊥) }
{
    let Some(text) = text_of(matches, "workers") else {
        return Ok(1);
    };
    match number_of(text, MOST_WORKERS) {
        Some(0) | None => Err(WordsFault::Usage),
        Some(workers) => Ok(workers as u32),
    }
}

// The number of rooms of a generated world.
fn rooms(matches: &ArgMatches) -> Result<u32, WordsFault>
    ensures ok { IfOk result (λ n. (text : List ℕ)
        × (first_of (codes "ROOMS") (rows_of (found_of matches.now)) ≡ Some text) × IsNumber text n
        × AreRooms n) }
    ensures usage { IfErr result (λ e. e ≡ WordsFault.Usage → (text : List ℕ) → (n : ℕ)
        → first_of (codes "ROOMS") (rows_of (found_of matches.now)) ≡ Some text → IsNumber text n
        → AreRooms n → ⊥) }
{
    let rooms = number(matches, "ROOMS", MOST_ROOMS)?;
    if rooms == 0 {
        return Err(WordsFault::Usage);
    }
    Ok(rooms as u32)
}

// The part of a generated world.
fn part(matches: &ArgMatches) -> Result<GenPart, WordsFault>
    ensures ok { IfOk result (λ part.
        first_of (codes "PART") (rows_of (found_of matches.now)) ≡ Some (part_word part)) }
    ensures usage { IfErr result (λ e. e ≡ WordsFault.Usage → (part : Part)
        → first_of (codes "PART") (rows_of (found_of matches.now)) ≡ Some (part_word part) → ⊥) }
{
    let Some(word) = text_of(matches, "PART") else {
        return Err(WordsFault::Usage);
    };
    if word == "world" {
        Ok(GenPart::World)
    } else if word == "uploads" {
        Ok(GenPart::Uploads)
    } else {
        Err(WordsFault::Usage)
    }
}
