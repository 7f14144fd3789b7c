// The commands of `clap` that read the words of the choices.
ghost use Rattle.std.specs.Prelude.{◌≡◌, List, [], map, true, false, string_bytes, IfOk, IfErr};
ghost use Rattle.clap.specs.Values.{kind_of};
ghost use Rattle.clap.specs.Matches.{found_of};
ghost use Rattle.clap.specs.Walk.{rows_of, rule_of};
ghost use Rattle.clap.specs.Simple.{app_of};
ghost use Rattle.clap.specs.Faults.{is_simple_and_free};
ghost use Rattle.command_words.specs.Choices.{command_of, positional, option, optional_option};
ghost use Rattle.command_words.specs.Words.{faults_in, rows_in};

use crate::command::WordsFault;
use clap::error::ErrorKind;
use clap::{Arg, ArgAction, ArgMatches, Command, Error};
use std::alloc::{AllocError, Global};
use std::marker::Model;

/// A choice of the program: the word that names it, the positionals that follow, in their order,
/// the options, and the options that may be left out. Each takes one value; all others have to be given.
#[derive(Drop)]
pub(crate) struct Choice<'a> {
    pub word: &'a str,
    pub positionals: &'a [&'a str],
    pub options: &'a [&'a str],
    pub optional: &'a [&'a str],
}

impl<'a> Model for Choice<'a> {
    ghost use Rattle.std.specs.Prelude.{map};
    ghost use Rattle.command_words.specs.Choices.{Choice as ChoiceOfWords};

    ghost Value = { ChoiceOfWords };

    ghost view = { λ c. record {
      word = c.word.now;
      positionals = map (λ s. s.now) c.positionals.now;
      options = map (λ s. s.now) c.options.now;
      optional = map (λ s. s.now) c.optional.now;
    } };
}

// An argument in its place.
fn positional_named(alloc: Global, name: &str) -> Arg<'_>
    ensures rule { rule_of result ≡ positional name.entry.now }
    ensures local { result.global ≡ false }
{
    Arg::new(alloc, name).required(true).action(ArgAction::Set)
}

// An argument behind its name.
fn option_named(alloc: Global, name: &str) -> Arg<'_>
    ensures rule { rule_of result ≡ option name.entry.now }
    ensures local { result.global ≡ false }
{
    positional_named(alloc, name).long(name)
}

// An option that may be left out.
fn optional_named(alloc: Global, name: &str) -> Arg<'_>
    ensures rule { rule_of result ≡ optional_option name.entry.now }
    ensures local { result.global ≡ false }
{
    option_named(alloc, name).required(false)
}

// The command of a choice.
fn command<'a>(alloc: Global, choice: &Choice<'a>) -> Result<Command<'a>, AllocError>
    ensures { IfOk result (λ command. app_of command ≡ command_of choice.now) }
{
    let mut command = Command::new(alloc, choice.word);
    for name in choice.positionals {
        command = command.arg(positional_named(alloc, name))?;
    }
    for option in choice.options {
        command = command.arg(option_named(alloc, option))?;
    }
    for optional in choice.optional {
        command = command.arg(optional_named(alloc, optional))?;
    }
    Ok(command)
}

/// What `clap` makes of the words of a choice.
pub(crate) fn matches<'a>(
    alloc: Global,
    choice: &Choice<'a>,
    words: &'a [String],
) -> Result<ArgMatches<'a>, WordsFault>
    requires { is_simple_and_free (command_of choice.now) ≡ true }
    ensures taken { IfOk result (λ _. faults_in choice.now (map string_bytes words.now) ≡ []) }
    ensures rows { IfOk result (λ matches. rows_of (found_of matches)
        ≡ rows_in choice.now (map string_bytes words.now)) }
    ensures usage { IfErr result (λ e. e ≡ WordsFault.Usage
        → faults_in choice.now (map string_bytes words.now) ≡ [] → ⊥) }
{
    let command = command(alloc, choice)?;
    match command.try_get_matches_from(words) {
        Ok(matches) => Ok(matches),
        Err(error) => Err(refusal(&error)),
    }
}

// Why `clap` gives no matches.
fn refusal(error: &Error) -> WordsFault
    ensures { result ≡ WordsFault.Usage → kind_of error.now ≡ ErrorKind.OutOfMemory → ⊥ }
{
    match error.kind() {
        ErrorKind::OutOfMemory => WordsFault::Memory,
        _ => WordsFault::Usage,
    }
}
