//! Undecided outcomes that are written.
ghost use Rattle.std.specs.Prelude.{IsTrue, IfOk, IfSome};
ghost use Rattle.cert_text.specs.Certificates.{least_is_over, reason_is_over};

use crate::table::Call;
use cert_text::{Mark, Outcome, Reason, cert_bytes};
use ranked_terms::{Signature, term_from};
use std::alloc::{AllocError, Global};
use std::str;
use ta_clean::Least;
use ta_core::Spec;

/// The common term that the text spells: `Large` where there is no text, and nothing where it is no term.
fn least_of(
    alloc: Global,
    sig: &Signature,
    text: Option<&String>,
) -> Result<Option<Least>, AllocError>
    ensures { IfOk result (λ o. IfSome o (λ least. IsTrue (least_is_over sig.now least))) }
{
    let Some(text) = text else {
        return Ok(Some(Least::Large));
    };
    match term_from(alloc, sig, text.as_bytes())? {
        Some(term) => Ok(Some(Least::Term(term))),
        None => Ok(None),
    }
}

/// The reason that the call names by its first text, at the stage that its first number tells, where there is one; the third
/// text is the common term.
fn reason_of(alloc: Global, sig: &Signature, call: &Call) -> Result<Option<Reason>, AllocError>
    ensures { IfOk result (λ o. IfSome o (λ reason. IsTrue (reason_is_over sig.now reason))) }
{
    let stage = call.number(0);
    match call.text(0) {
        "meets" => match least_of(alloc, sig, call.texts.get(2))? {
            Some(least) => Ok(Some(Reason::Meets(stage, least))),
            None => Ok(None),
        },
        "rounds" => Ok(Some(Reason::Rounds(stage))),
        "pairs" => Ok(Some(Reason::Pairs(stage))),
        "states" => Ok(Some(Reason::States(stage))),
        _ => Ok(None),
    }
}

/// How the search ended, as the second text and the second number tell it, where they do.
fn mark_of(call: &Call) -> Option<Mark> {
    match call.text(1) {
        "over" => Some(Mark::Over(call.number(1))),
        "exhausted" => Some(Mark::Exhausted(call.number(1))),
        _ => None,
    }
}

/// The text of the undecided outcome that the texts and the numbers of the call tell.
pub fn undecided_text(alloc: Global, spec: &Spec, call: &Call) -> Result<String, AllocError> {
    let Some(search) = mark_of(call) else {
        return format!(in alloc; "no end of a search\n");
    };
    let Some(reason) = reason_of(alloc, &spec.signature, call)? else {
        return format!(in alloc; "no reason\n");
    };
    let text = cert_bytes(alloc, spec, &Outcome::Undecided { reason, search })?;
    String::from_str(alloc, str::from_utf8(text.as_slice()).unwrap_or("?"))
}
