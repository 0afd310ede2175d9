//! Commands, and which words are one.
ghost use Rattle.std.specs.Prelude.{◌≡◌, None, Some, Err, IfOk, IsErrOf, map, false, string_bytes};
ghost use Rattle.clap.specs.Words.{kind_of};
ghost use Rattle.command_words.specs.Words.{command_of, names_command};
ghost use Rattle.command_words.specs.Said.{said, words_error};

use crate::check::check_words;
use crate::complete::complete_words;
use clap::Error;
use clap::error::ErrorKind;
use std::alloc::{AllocError, Global};
use ta_core::Options;

/// What the words of a command line ask for.
#[derive(Debug, Clone, Copy)]
pub enum Command<'a> {
    /// `complete FILE` with its options: to complete the specification of the file.
    Complete {
        /// The specification's file.
        file: &'a str,
        /// How far completion and search go.
        options: Options,
    },
    /// `check SPEC CERT`: to check a certificate.
    Check {
        /// The specification's file.
        spec: &'a str,
        /// The certificate's file.
        certificate: &'a str,
    },
}

/// Why there is no command.
#[derive(Debug, Clone, Copy, PartialEq, Eq)]
pub enum WordsError {
    /// The words are no command line.
    BadWords,
    /// There was no memory.
    Memory,
}

impl From<Error> for WordsError {
    ghost from_gives = { λ error words. words ≡ words_error (kind_of error) };

    fn from(error: Error) -> WordsError {
        match error.kind() {
            ErrorKind::OutOfMemory => WordsError::Memory,
            _ => WordsError::BadWords,
        }
    }
}

/// The command that the words are. `BadWords` exactly where they are none, and of words whose first one names no command
/// without a need of memory. The only other error is running out of memory.
pub fn read_command<'a>(alloc: Global, words: &'a [String]) -> Result<Command<'a>, WordsError>
    ensures command { IfOk result (λ command. command_of (map string_bytes words.now) ≡ Some (said command)) }
    ensures bad { IsErrOf result WordsError.BadWords → command_of (map string_bytes words.now) ≡ None }
    ensures unknown { names_command (map string_bytes words.now) ≡ false → result ≡ Err WordsError.BadWords }
{
    let Some(name) = words.first() else {
        return Err(WordsError::BadWords);
    };
    match name.as_str() {
        "complete" => complete_words(alloc, words),
        "check" => check_words(alloc, words),
        _ => Err(WordsError::BadWords),
    }
}
