//! The program `timbuk`: it decides whether a left-linear rewriting system can reach a forbidden term from an initial
//! language, by tree automata.
//!
//! [`run`] is all that the program does, as one call over a shelf of files and a sink; its contract says what each answer
//! means. [`main`] makes the real files and standard output, calls it, and ends with [`exit_code`] of its answer.
#![tactic(auto)]

ghost use Rattle.std.specs.Prelude.{◌≡◌, ◌≢◌, drop};
ghost use Rattle.std.specs.IoError.{error_kind};
ghost use Rattle.std.specs.Process.{exit_status};
ghost use Rattle.calls.specs.Codes.{code_of};

use calls::status::Status;
use std::env;
use std::io::{Error, ErrorKind};
use std::process::ExitCode;
use std::rt::Env;
use tim_io::{FileShelf, StdSink};
use top_call::run::run;

/// The words after the program's name, which is the first of all where there is any.
fn words_after_name(mut all: Vec<String>) -> Vec<String>
    ensures { result.items ≡ drop 1 all.items }
{
    if !all.is_empty() {
        let _ = all.remove(0);
    }
    all
}

/// The words of the command line. An error says that there was no memory for them, or that one of them is not UTF-8.
fn command_line<R: Env + AllocGlobal>(rt: &R) -> Result<Vec<String>, Error> {
    let all = env::args(rt)?.collect(rt.alloc())?;
    Ok(words_after_name(all))
}

/// The status where there are no words to read: because memory ran out, or because one of them is not UTF-8.
fn status_without_words(error: &Error) -> Status
    ensures memory { error_kind error.now ≡ ErrorKind.OutOfMemory → result ≡ Status.Memory }
    ensures other { error_kind error.now ≢ ErrorKind.OutOfMemory → result ≡ Status.BadWords }
{
    match error.kind() {
        ErrorKind::OutOfMemory => Status::Memory,
        _ => Status::BadWords,
    }
}

/// What the program ends with: the exit status of its answer.
fn exit_code(status: Status) -> ExitCode
    ensures { exit_status result ≡ code_of status }
{
    ExitCode::from(status.code())
}

fn main(rt: HostRuntime) -> ExitCode {
    let status = match command_line(&rt) {
        Ok(words) => {
            let mut shelf = FileShelf::new(&rt, rt.alloc());
            let mut out = StdSink::new(&rt);
            run(rt.alloc(), words.as_slice(), &mut shelf, &mut out)
        }
        Err(error) => status_without_words(&error),
    };
    exit_code(status)
}
