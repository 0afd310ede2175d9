//! The top call.
ghost use Rattle.std.specs.Prelude.{◌≡◌, ℕ, List, map, string_bytes};
ghost use Rattle.tim_io.specs.Causes.{Rose};
ghost use Rattle.calls.specs.Files.{told_by};
ghost use Rattle.top_call.specs.Calls.{IsFileOf};
ghost use Rattle.top_call.specs.Headline.{ShowsUnreachable, ShowsReachable};
ghost use Rattle.top_call.specs.Named.{Named, AnswersNamed};
ghost use Rattle.top_call.specs.Writing.{Ran};

use crate::commands::perform;
use crate::output::written;
use calls::status::Status;
use calls::{Ending, usage};
use cert_text::laws::certificates_have_different_texts;
use command_words::{WordsError, read_command};
use std::alloc::Global;
use tim_io::{Shelf, Sink};
use timbuk_reader::{no_text_has_two_specs, spelled_names_differ};
use verdicts::laws::verdicts_are_one;

/// Does what the words say, over the files of the shelf, and writes what there is to say to the sink. The words are those
/// after the program's name: `complete FILE` with its options, or `check SPEC CERT`.
///
/// `complete` reads the file whole and writes a text, whatever the verdict. `Unreachable` comes exactly where the search
/// finds no derivation and completion ends at a closed stage, both within the limits; the text is a certificate that spells
/// this stage's automaton, which contains the initial one, is closed under the rules and misses the forbidden language, and
/// so no term that is reachable, in whatever number of steps, is forbidden. `Reachable` comes exactly where the search
/// finds a derivation of a forbidden term within the limits; the text is a certificate that spells one of the least number
/// of steps among those, and it replays. `Undecided` comes exactly where neither is there; the text says why. `check`
/// accepts the text of the first two beside the same specification, where it isn't longer than `check` reads.
///
/// `check` reads both files whole, the specification first and the certificate once that is understood. `Accepted` comes
/// exactly where the second is a certificate that shows what it claims, `Rejected` exactly where it is one that doesn't; the
/// line written names the first part that fails.
///
/// `BadWords` comes exactly where the words are no command line, `TooLong` exactly where a file has more bytes than it may
/// have (1,048,576 of a specification, 67,108,864 of a certificate), `BadSpec` and `BadCert` exactly where the bytes of a
/// file are no specification or no certificate, with the place and the kind of the first fault. In place of these may come:
/// `ReadFault` where the shelf failed at a file, `WriteFault` where the sink failed, and `Memory` at words whose first one
/// names a command; a body that always answers `Memory` isn't shut out.
///
/// At `WriteFault` a part of the text was written from its front, and at `Memory` nothing is. Nothing is left of a file on
/// which the answer rests; of one that is too long, one byte more than the limit was taken. What the shelf tells of other
/// names stays.
pub fn run<F: Shelf, K: Sink>(alloc: Global, words: &[String], shelf: &mut F, out: &mut K) -> Status
    ensures ran { Ran (map string_bytes words.now) (told_by (F.left shelf.old) (F.faults shelf.old))
        (told_by (F.left shelf.new) (F.faults shelf.new)) (Rose (K.faults out.old) (K.faults out.new))
        (K.written out.old) (K.written out.new) result }

    // What the bytes written show.
    ensures unreachable { result ≡ Status.Unreachable →
        ShowsUnreachable (map string_bytes words.now) (told_by (F.left shelf.old) (F.faults shelf.old))
        (told_by (F.left shelf.new) (F.faults shelf.new)) (K.written out.old) (K.written out.new) }
    ensures reachable { result ≡ Status.Reachable →
        ShowsReachable (map string_bytes words.now) (told_by (F.left shelf.old) (F.faults shelf.old))
        (told_by (F.left shelf.new) (F.faults shelf.new)) (K.written out.old) (K.written out.new) }

    // Where no count rose, the words and the contents of the files name the answer and its text.
    ensures complete { ((name : List ℕ) → IsFileOf (map string_bytes words.now) name →
        ¬ Rose (F.faults shelf.old name) (F.faults shelf.new name))
        → ¬ Rose (K.faults out.old) (K.faults out.new)
        → (text : List ℕ) (status : Status) → Named (map string_bytes words.now) (F.left shelf.old) text status
        → AnswersNamed (map string_bytes words.now) (F.left shelf.old) (K.written out.old) (K.written out.new) status result }

    // What is told of names that are no file of the words stays.
    ensures others { (name : List ℕ) → ¬ IsFileOf (map string_bytes words.now) name →
        (F.left shelf.new name ≡ F.left shelf.old name) × (F.faults shelf.new name ≡ F.faults shelf.old name) }
{
    // For the proof: a text has one specification, and beside it one certificate, and a specification one verdict.
    no_text_has_two_specs();
    spelled_names_differ();
    certificates_have_different_texts();
    verdicts_are_one();
    respond(alloc, words, shelf, out)
}

/// Does what the words say, and writes what there is to say.
fn respond<F: Shelf, K: Sink>(alloc: Global, words: &[String], shelf: &mut F, out: &mut K) -> Status
    ensures ran { Ran (map string_bytes words.now) (told_by (F.left shelf.old) (F.faults shelf.old))
        (told_by (F.left shelf.new) (F.faults shelf.new)) (Rose (K.faults out.old) (K.faults out.new))
        (K.written out.old) (K.written out.new) result }
    ensures others { (name : List ℕ) → ¬ IsFileOf (map string_bytes words.now) name →
        (F.left shelf.new name ≡ F.left shelf.old name) × (F.faults shelf.new name ≡ F.faults shelf.old name) }
{
    match read_command(alloc, words) {
        Ok(command) => match perform(alloc, command, shelf) {
            Ending::Told(status, text) => written(out, status, text.as_slice()),
            Ending::Memory => Status::Memory,
        },
        Err(WordsError::BadWords) => written(out, Status::BadWords, usage().as_bytes()),
        Err(WordsError::Memory) => Status::Memory,
    }
}
