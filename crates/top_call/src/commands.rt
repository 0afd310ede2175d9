//! What each command says.
ghost use Rattle.std.specs.Prelude.{◌≡◌, ◌≤◌, ℕ, List, Contains, length};
ghost use Rattle.tim_io.specs.Shelves.{OthersStay};
ghost use Rattle.command_words.specs.Words.{files_of};
ghost use Rattle.command_words.specs.Said.{said, limits_from};
ghost use Rattle.calls.specs.Files.{Told, told_by, Aside};
ghost use Rattle.calls.specs.Endings.{Ends};
ghost use Rattle.top_call.specs.Calls.{CompletesFile, Does, SaysVerdict, status_of};

use calls::status::Status;
use calls::{Ending, check_command, specification};
use cert_text::Outcome;
use command_words::Command;
use std::alloc::{AllocError, Global};
use ta_core::{Options, Spec};
use tim_io::Shelf;
use verdicts::complete;

/// Does what a command asks for.
pub(crate) fn perform<F: Shelf>(alloc: Global, command: Command<'_>, shelf: &mut F) -> Ending
    ensures says { Ends (Does (said command.entry)) (told_by (F.left shelf.old) (F.faults shelf.old))
        (told_by (F.left shelf.new) (F.faults shelf.new)) result }

    // What is told of other names stays.
    ensures others { (name : List ℕ) → ¬ Contains (files_of (said command.entry)) name →
        (F.left shelf.new name ≡ F.left shelf.old name) × (F.faults shelf.new name ≡ F.faults shelf.old name) }
{
    match command {
        Command::Complete { file, options } => complete_command(alloc, file, options, shelf),
        Command::Check { spec, certificate } => check_command(alloc, spec, certificate, shelf),
    }
}

/// Does `complete FILE`: reads the specification whole, and says the verdict on it within the options.
fn complete_command<F: Shelf>(alloc: Global, file: &str, options: Options, shelf: &mut F) -> Ending
    ensures says { Ends (CompletesFile file.now (limits_from options)) (told_by (F.left shelf.old) (F.faults shelf.old))
        (told_by (F.left shelf.new) (F.faults shelf.new)) result }
    ensures others { OthersStay (F.left shelf.old) (F.left shelf.new) file.now }
    ensures other_faults { OthersStay (F.faults shelf.old) (F.faults shelf.new) file.now }
{
    match specification(alloc, file, shelf) {
        Ok(spec) => completed(alloc, &spec, options),
        Err(ending) => ending,
    }
}

/// The verdict on a specification within the options, said where there is memory for it.
fn completed(alloc: Global, spec: &Spec, options: Options) -> Ending
    requires { length spec.now.rules ≤ 4096 }
    ensures { (told : Told) → Ends (Aside (SaysVerdict spec.now (limits_from options))) told told result }
{
    match complete(alloc, spec, options) {
        Ok((outcome, text)) => Ending::Told(status(&outcome), text),
        Err(AllocError) => Ending::Memory,
    }
}

/// The status of a verdict.
fn status(outcome: &Outcome) -> Status
    ensures { result ≡ status_of outcome.now }
{
    match outcome {
        Outcome::Unreachable { .. } => Status::Unreachable,
        Outcome::Reachable(_) => Status::Reachable,
        Outcome::Undecided { .. } => Status::Undecided,
    }
}
