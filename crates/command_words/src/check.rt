//! The words of `check`.
ghost use Rattle.std.specs.Prelude.{◌≡◌, ◌⊎◌, ℕ, List, None, Some, IfOk, IsErrOf, MatchResult, map, drop, string_bytes};
ghost use Rattle.clap.specs.Words.{app_of, found_of, kind_of};
ghost use Rattle.clap.specs.Walk.{first_of, rows_of};
ghost use Rattle.command_words.specs.Commands.{check_app, check_line};
ghost use Rattle.command_words.specs.Words.{Use, value_of, check_of};
ghost use Rattle.command_words.specs.Said.{said};

use crate::arguments::command_of;
use crate::command::{Command, WordsError};
use clap::error::ErrorKind;
use clap::{ArgMatches, Error};
use std::alloc::{AllocError, Global};

/// Reads the words of `check`, its name first.
pub(crate) fn check_words<'a>(alloc: Global, words: &'a [String]) -> Result<Command<'a>, WordsError>
    ensures command { IfOk result (λ command. check_of (drop 1 (map string_bytes words.now)) ≡ Some (said command)) }
    ensures bad { IsErrOf result WordsError.BadWords → check_of (drop 1 (map string_bytes words.now)) ≡ None }
{
    let matches = check_matches(alloc, words)?;
    match (matches.get_str("spec"), matches.get_str("cert")) {
        (Some(spec), Some(certificate)) => Ok(Command::Check { spec, certificate }),
        _ => Err(WordsError::BadWords),
    }
}

// What clap makes of the words.
fn check_matches<'a>(alloc: Global, words: &'a [String]) -> Result<ArgMatches<'a>, Error>
    ensures { MatchResult result
        (λ m. (uses : List Use) × (check_line (map string_bytes words.now) ≡ Some uses)
        × ((name : List ℕ) → first_of name (rows_of (found_of m)) ≡ value_of name uses))
        (λ e. (kind_of e ≡ ErrorKind.OutOfMemory) ⊎ (check_line (map string_bytes words.now) ≡ None)) }
{
    let command = check_command(alloc)?;
    command.try_get_matches_from(words)
}

fn check_command<'a>(alloc: Global) -> Result<clap::Command<'a>, AllocError>
    ensures { IfOk result (λ c. app_of c ≡ check_app) }
{
    command_of(alloc, "check", &[], &["spec", "cert"])
}
