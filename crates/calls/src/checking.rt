//! `check SPEC CERT`: whether a certificate shows what it claims.
ghost use Rattle.std.specs.Prelude.{◌≡◌, ◌≢◌, ℕ, List, ◌<◌, ◌^◌, length, All, Contains, IfOk, string_bytes};
ghost use Rattle.tim_io.specs.Shelves.{OthersStay};
ghost use Rattle.cert_text.specs.Certificates.{IsWithin};
ghost use Rattle.calls.specs.Files.{told_by};
ghost use Rattle.calls.specs.Checks.{Checks, ChecksAutomaton, ChecksCertificate, ChecksDerivation, ChecksFiles};
ghost use Rattle.calls.specs.Endings.{Ends, answered};

use crate::answer_line::{automaton_line, derivation_line};
use crate::reading::{Ending, certificate, specification};
use crate::status::Status;
use cert_text::Certificate;
use closure_check::{Room, check, check_derivation};
use ranked_terms::Seq;
use std::alloc::{AllocError, Global};
use ta_core::{Automaton, Map, Spec};
use tim_io::Shelf;
use trs_rules::Derivation;

/// Does `check SPEC CERT`: reads the specification and then the certificate, each whole and understood before the next, and
/// answers whether the certificate shows what it claims. The same name twice is read twice, and the second reading finds
/// what the first has left.
///
/// `Accepted` comes exactly where it does: its automaton, with its map, contains the initial one, is closed under the rules
/// and misses the forbidden language, and then no reachable term is forbidden; or its derivation leads from the initial
/// language to a forbidden term. `Rejected` names the first part that fails. Before these come what is said of a file that
/// can't be read, is too long, or is no specification or no certificate; and want of memory, with nothing said.
pub fn check_command<F: Shelf>(alloc: Global, spec: &str, cert: &str, shelf: &mut F) -> Ending
    ensures says { Ends (ChecksFiles spec.now cert.now) (told_by (F.left shelf.old) (F.faults shelf.old))
        (told_by (F.left shelf.new) (F.faults shelf.new)) result }

    // What is told of other names stays.
    ensures others { (name : List ℕ) → name ≢ spec.now → name ≢ cert.now →
        (F.left shelf.new name ≡ F.left shelf.old name) × (F.faults shelf.new name ≡ F.faults shelf.old name) }
{
    match specification(alloc, spec, shelf) {
        Ok(spelled) => check_beside(alloc, &spelled, cert, shelf),
        Err(ending) => ending,
    }
}

/// Does what is left of `check SPEC CERT` where the specification is understood: reads the certificate and answers.
fn check_beside<F: Shelf>(alloc: Global, spec: &Spec, cert: &str, shelf: &mut F) -> Ending
    ensures says { Ends (ChecksCertificate spec.now cert.now) (told_by (F.left shelf.old) (F.faults shelf.old))
        (told_by (F.left shelf.new) (F.faults shelf.new)) result }
    ensures others { OthersStay (F.left shelf.old) (F.left shelf.new) cert.now }
    ensures other_faults { OthersStay (F.faults shelf.old) (F.faults shelf.new) cert.now }
{
    match certificate(alloc, spec, cert, shelf) {
        Ok(read) => end_of(checked(alloc, spec, &read)),
        Err(ending) => ending,
    }
}

/// The end with a status and its line, where there is memory for them.
fn end_of(answer: Result<(Status, String), AllocError>) -> Ending
    ensures { result ≡ answered answer }
{
    match answer {
        Ok((status, line)) => Ending::Told(status, Seq::from_vec(line.into_bytes())),
        Err(AllocError) => Ending::Memory,
    }
}

/// What is said of a certificate. The only error is running out of memory.
fn checked(
    alloc: Global,
    spec: &Spec,
    certificate: &Certificate,
) -> Result<(Status, String), AllocError>
    requires { IsWithin spec.now certificate.now }
    ensures { IfOk result (λ a. Checks spec.now certificate.now (string_bytes a.1) a.0) }
{
    match certificate {
        Certificate::Unreachable {
            rounds: _,
            precise: _,
            automaton,
            map,
        } => checked_automaton(alloc, spec, automaton, map),
        Certificate::Reachable(derivation) => checked_derivation(alloc, spec, derivation),
    }
}

/// What is said of an automaton with its map. The only error is running out of memory.
fn checked_automaton(
    alloc: Global,
    spec: &Spec,
    automaton: &Automaton,
    map: &Map,
) -> Result<(Status, String), AllocError>
    requires each_state { length map.now ≡ length spec.now.initial.states }
    requires images { All (Contains automaton.now.states) map.now }
    ensures { IfOk result (λ a. ChecksAutomaton spec.now automaton.now map.now (string_bytes a.1) a.0) }
{
    let mut room = Room::new(alloc, spec, automaton)?;
    let answer = check(&mut room, spec, automaton, map);
    automaton_line(alloc, &answer)
}

/// What is said of a derivation. The only error is running out of memory.
fn checked_derivation(
    alloc: Global,
    spec: &Spec,
    derivation: &Derivation,
) -> Result<(Status, String), AllocError>
    requires { length derivation.now.steps < 2 ^ 32 }
    ensures { IfOk result (λ a. ChecksDerivation spec.now derivation.now (string_bytes a.1) a.0) }
{
    let answer = check_derivation(spec, derivation)?;
    derivation_line(alloc, answer)
}
