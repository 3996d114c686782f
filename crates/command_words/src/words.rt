//! Reading the words.

ghost use Rattle.std.specs.Prelude.{◌≡◌};
ghost use Rattle.clap.specs.Words.{app_of, kind_of, subcommand_rows_of};
ghost use Rattle.command_paths.specs.Sets.{sets_of};
ghost use Rattle.command_words.specs.Program.{octimap_app};
ghost use Rattle.command_words.specs.Words.{Matches, Reads, asked_in, named_in};

use crate::command::Command;
use crate::fault::WordsFault;
use crate::help;
use crate::matches::command_in;
use crate::program::program;
use clap::error::ErrorKind;
use clap::{ArgMatches, Error};
use std::alloc::{AllocError, Global};

/// The command that the words after the program's name ask for. Words that `clap` refuses by the definition of the
/// commands, that ask for help, or that would write a map and its certificate, or a page and its map, to one file ask for none;
/// the text for the user comes in place of a command.
pub fn command_of<'a>(alloc: Global, words: &'a [String]) -> Result<Command<'a>, WordsFault>
    ensures { Reads (asked_in words.now) result }
{
    match matches_of(alloc, words) {
        Ok(matches) => command_by(alloc, &matches, words),
        Err(fault) => Err(fault),
    }
}

/// The command that the matches ask for.
fn command_by<'a>(
    alloc: Global,
    matches: &ArgMatches<'a>,
    words: &'a [String],
) -> Result<Command<'a>, WordsFault>
    ensures { Reads (named_in (sets_of words.now) (subcommand_rows_of matches.now)) result }
{
    match command_in(matches, words) {
        Some(command) => Ok(command),
        None => Err(shown(String::from_str(alloc, one_file(matches)))),
    }
}

/// What is said where two files of the command that was met are one.
fn one_file(matches: &ArgMatches<'_>) -> &'static str {
    match matches.subcommand_name() {
        Some(name) if name == "page" => help::ONE_PAGE,
        Some(name) if name == "map" => help::ONE_MAP,
        Some(name) if name == "improve" => help::ONE_IMPROVED,
        Some(name) if name == "import" => help::ONE_IMPORTED,
        _ => help::ONE_FILE,
    }
}

/// The matches of the words, or the text for the user.
fn matches_of<'a>(alloc: Global, words: &'a [String]) -> Result<ArgMatches<'a>, WordsFault>
    ensures { Matches (sets_of words.now) (asked_in words.now) result }
{
    match program(alloc) {
        Ok(program) => matches_by(alloc, program, words),
        Err(_) => Err(WordsFault::NoMemory),
    }
}

/// The matches of the words by the definition of the program.
fn matches_by<'a>(
    alloc: Global,
    program: clap::Command<'a>,
    words: &'a [String],
) -> Result<ArgMatches<'a>, WordsFault>
    requires { app_of program ≡ octimap_app }
    ensures { Matches (sets_of words.now) (asked_in words.now) result }
{
    match program.try_get_matches_from(words) {
        Ok(matches) => Ok(matches),
        Err(error) => Err(refused(alloc, &error)),
    }
}

/// Words that `clap` refuses, with its text for the user.
fn refused(alloc: Global, error: &Error) -> WordsFault
    ensures { kind_of error.now ≡ ErrorKind.OutOfMemory → result ≡ WordsFault.NoMemory }
{
    if error.kind() == ErrorKind::OutOfMemory {
        return WordsFault::NoMemory;
    }
    shown(format!(in alloc; "{error}"))
}

/// The fault with this text for the user, if there was memory for it.
fn shown(text: Result<String, AllocError>) -> WordsFault {
    match text {
        Ok(text) => WordsFault::Usage(text),
        Err(_) => WordsFault::NoMemory,
    }
}
