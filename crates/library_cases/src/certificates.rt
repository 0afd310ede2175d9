//! Certificates that are read, and written again.
ghost use Rattle.std.specs.Prelude.{◌≡◌, ◌<◌, IsTrue};
ghost use Rattle.cert_text.specs.Certificates.{IsWithin, outcome_is_over};
ghost use Rattle.library_cases.specs.Outcomes.{outcome_of};

use crate::table::Call;
use cert_text::{CertError, Certificate, Outcome, cert_bytes, read_cert};
use closure_check::check_derivation;
use std::alloc::{AllocError, Global};
use ta_core::Spec;

/// The most bytes of a text that is read.
const MAX_TEXT: usize = 67_108_864;

/// The outcome that the certificate tells.
fn told_outcome(certificate: Certificate) -> Outcome
    ensures { result ≡ outcome_of certificate }
{
    match certificate {
        Certificate::Unreachable {
            rounds,
            precise,
            automaton,
            map,
        } => Outcome::Unreachable {
            rounds,
            precise,
            automaton,
            map,
        },
        Certificate::Reachable(derivation) => Outcome::Reachable(derivation),
    }
}

/// What the certificate is, and what the replay of its derivation answers, if it has one.
fn kind_line(alloc: Global, spec: &Spec, certificate: &Certificate) -> Result<String, AllocError>
    requires { IsWithin spec.now certificate.now }
{
    match certificate {
        Certificate::Unreachable { .. } => format!(in alloc; "Read unreachable"),
        Certificate::Reachable(derivation) => {
            let answer = check_derivation(spec, derivation)?;
            format!(in alloc; "Read reachable, replayed {answer:?}")
        }
    }
}

/// Whether the outcome's text is this one.
fn again_line(
    alloc: Global,
    spec: &Spec,
    outcome: &Outcome,
    text: &[u8],
) -> Result<String, AllocError>
    requires { IsTrue (outcome_is_over spec.now.signature outcome.now) }
{
    let written = cert_bytes(alloc, spec, outcome)?;
    if written.as_slice() == text {
        format!(in alloc; "Written as it was read")
    } else {
        format!(in alloc; "Written otherwise")
    }
}

/// What the reader answers to the first text, and whether what it reads is written as it was read.
pub fn read_again(alloc: Global, spec: &Spec, call: &Call) -> Result<String, AllocError> {
    let text = call.text(0).as_bytes();
    if text.len() > MAX_TEXT {
        return format!(in alloc; "a long text\n");
    }
    match read_cert(alloc, spec, text) {
        Ok(certificate) => {
            let kind = kind_line(alloc, spec, &certificate)?;
            let again = again_line(alloc, spec, &told_outcome(certificate), text)?;
            format!(in alloc; "{kind}\n{again}\n")
        }
        Err(CertError::Fault(fault)) => {
            format!(in alloc; "Bad certificate line {}: {:?}\n", fault.line, fault.kind)
        }
        Err(CertError::Memory) => Err(AllocError),
    }
}
