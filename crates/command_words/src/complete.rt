//! The words of `complete`.
ghost use Rattle.std.specs.Prelude.{◌≡◌, ◌⊎◌, ℕ, List, None, Some, IfOk, IsErrOf, MatchResult};
ghost use Rattle.std.specs.Prelude.{map, drop, string_bytes, option_map};
ghost use Rattle.clap.specs.Words.{app_of, found_of, kind_of, first_value};
ghost use Rattle.clap.specs.Walk.{first_of, rows_of};
ghost use Rattle.command_words.specs.Commands.{complete_app, complete_line, option_rule, word_rule, bare_app, app_of_words};
ghost use Rattle.command_words.specs.Words.{Text, Use, value_of, complete_of, limits_by};
ghost use Rattle.command_words.specs.Said.{said, limits_from};

use crate::arguments::command_of;
use crate::command::{Command, WordsError};
use crate::number::option_in;
use clap::error::ErrorKind;
use clap::{ArgMatches, Error};
use std::alloc::{AllocError, Global};
use ta_core::Options;

/// Reads the words of `complete`, its name first.
pub(crate) fn complete_words<'a>(
    alloc: Global,
    words: &'a [String],
) -> Result<Command<'a>, WordsError>
    ensures command { IfOk result (λ command. complete_of (drop 1 (map string_bytes words.now)) ≡ Some (said command)) }
    ensures bad { IsErrOf result WordsError.BadWords → complete_of (drop 1 (map string_bytes words.now)) ≡ None }
{
    let matches = complete_matches(alloc, words)?;
    match (matches.get_str("file"), options_in(&matches)) {
        (Some(file), Some(options)) => Ok(Command::Complete { file, options }),
        _ => Err(WordsError::BadWords),
    }
}

// The options that are given, and the usual values of those that aren't.
fn options_in(matches: &ArgMatches) -> Option<Options>
    ensures { option_map limits_from result ≡ limits_by (first_value (found_of matches.now)) }
{
    let usual = Options::default();
    Some(Options {
        rounds: option_in(matches, "rounds", usual.rounds, 0, 1000)?,
        steps: option_in(matches, "steps", usual.steps, 0, 100)?,
        height: option_in(matches, "height", usual.height, 1, 50)?,
        terms: option_in(matches, "terms", usual.terms, 1, 50000)?,
        pairs: option_in(matches, "pairs", usual.pairs, 0, 1000000)?,
        states: option_in(matches, "states", usual.states, 1, 16384)?,
    })
}

// What clap makes of the words.
fn complete_matches<'a>(alloc: Global, words: &'a [String]) -> Result<ArgMatches<'a>, Error>
    ensures { MatchResult result
        (λ m. (uses : List Use) × (complete_line (map string_bytes words.now) ≡ Some uses)
        × ((name : List ℕ) → first_of name (rows_of (found_of m)) ≡ value_of name uses))
        (λ e. (kind_of e ≡ ErrorKind.OutOfMemory) ⊎ (complete_line (map string_bytes words.now) ≡ None)) }
{
    let command = complete_command(alloc)?;
    command.try_get_matches_from(words)
}

fn complete_command<'a>(alloc: Global) -> Result<clap::Command<'a>, AllocError>
    ensures { IfOk result (λ c. app_of c ≡ complete_app) }
{
    let options = ["rounds", "steps", "height", "terms", "pairs", "states"];
    command_of(alloc, "complete", &options, &["file"])
}
