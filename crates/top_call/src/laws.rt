//! Laws of the answers, and what `run` says where the files or the output never fail.
ghost use Rattle.std.specs.Prelude.{◌≢◌, map, string_bytes};
ghost use Rattle.tim_io.specs.Causes.{Rose};
ghost use Rattle.calls.specs.Files.{told_by};
ghost use Rattle.top_call.specs.Laws.{OneIsNamed};
ghost use Rattle.top_call.specs.Writing.{Ran};

use crate::run::run;
use calls::status::Status;
use cert_text::laws::{certificates_have_different_texts, texts_have_one_fault};
use closure_check::laws::answers_are_one;
use std::alloc::Global;
use tim_io::{HonestShelf, HonestSink, Shelf, Sink};
use timbuk_reader::{no_text_has_two_first_faults, no_text_has_two_specs, spelled_names_differ};
use verdicts::laws::verdicts_are_one;

/// The words and the contents of the files name one status at most, and with it one text but for which derivation of so many
/// steps a verdict has, and which common term of least size it tells.
pub fn one_answer_is_named()
    ensures { OneIsNamed }
{
    // For the proof: a text has one specification or one first fault, beside it one certificate or one first fault, and a
    // specification has one verdict, and one answer of the check.
    no_text_has_two_specs();
    no_text_has_two_first_faults();
    spelled_names_differ();
    certificates_have_different_texts();
    texts_have_one_fault();
    verdicts_are_one();
    answers_are_one();
}

/// Runs over files that never fail: what `run` does, and no fault of reading is answered.
pub fn run_over_honest_files<K: Sink>(
    alloc: Global,
    words: &[String],
    shelf: &mut HonestShelf,
    out: &mut K,
) -> Status
    ensures ran { Ran (map string_bytes words.now)
        (told_by (⟦<HonestShelf as Shelf>⟧.left shelf.old) (⟦<HonestShelf as Shelf>⟧.faults shelf.old))
        (told_by (⟦<HonestShelf as Shelf>⟧.left shelf.new) (⟦<HonestShelf as Shelf>⟧.faults shelf.new))
        (Rose (K.faults out.old) (K.faults out.new))
        (K.written out.old) (K.written out.new) result }
    ensures no_fault { result ≢ Status.ReadFault }
{
    run(alloc, words, shelf, out)
}

/// Runs to an output that never fails: what `run` does, and no fault of writing is answered.
pub fn run_to_honest_output<F: Shelf>(
    alloc: Global,
    words: &[String],
    shelf: &mut F,
    out: &mut HonestSink,
) -> Status
    ensures ran { Ran (map string_bytes words.now) (told_by (F.left shelf.old) (F.faults shelf.old))
        (told_by (F.left shelf.new) (F.faults shelf.new))
        (Rose (⟦<HonestSink as Sink>⟧.faults out.old) (⟦<HonestSink as Sink>⟧.faults out.new))
        (⟦<HonestSink as Sink>⟧.written out.old) (⟦<HonestSink as Sink>⟧.written out.new) result }
    ensures no_fault { result ≢ Status.WriteFault }
{
    run(alloc, words, shelf, out)
}
