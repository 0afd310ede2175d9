//! How the answers of `check`, and words that are no command line, are told.
ghost use Rattle.std.specs.Prelude.{◌≡◌, ◌∷◌, IfOk, string_bytes};
ghost use Rattle.calls.specs.AnswerText as texts;

use crate::status::Status;
use closure_check::{Answer, DAnswer, Missing};
use std::alloc::{AllocError, Global};
use trs_rules::Pair;

/// The line for words that are no command line.
pub fn usage() -> &'static str
    ensures { result.now ≡ texts.usage }
{
    "usage: timbuk complete FILE [OPTIONS] | check SPEC CERT | ta OP FILE [--limit N] | browse SPEC SCRIPT | sample N\n"
}

/// The status and the line for an automaton with its map. The only error is running out of memory.
pub(crate) fn automaton_line(alloc: Global, answer: &Answer) -> Result<(Status, String), AllocError>
    ensures { IfOk result (λ a.
        (a.0 ≡ texts.automaton_status answer.now) × (string_bytes a.1 ≡ texts.automaton_line answer.now)) }
{
    let line = match answer {
        Answer::Yes => return Ok((
            Status::Accepted,
            String::from_str(alloc, "Accepted unreachable\n")?,
        )),
        Answer::NotContained(missing) => missing_line(alloc, *missing)?,
        Answer::Open(pair) => pair_line(alloc, pair)?,
        Answer::Meets(first, second) => format!(in alloc; "Rejected meets {first} {second}\n")?,
    };
    Ok((Status::Rejected, line))
}

/// The status and the line for a derivation. The only error is running out of memory.
pub(crate) fn derivation_line(
    alloc: Global,
    answer: DAnswer,
) -> Result<(Status, String), AllocError>
    ensures { IfOk result (λ a. (a.0 ≡ texts.derivation_status answer) × (string_bytes a.1 ≡ texts.derivation_line answer)) }
{
    let line = match answer {
        DAnswer::Yes => return Ok((
            Status::Accepted,
            String::from_str(alloc, "Accepted reachable\n")?,
        )),
        DAnswer::Start => String::from_str(alloc, "Rejected start\n")?,
        DAnswer::Step(number) => format!(in alloc; "Rejected step {number}\n")?,
        DAnswer::End => String::from_str(alloc, "Rejected end\n")?,
    };
    Ok((Status::Rejected, line))
}

fn missing_line(alloc: Global, missing: Missing) -> Result<String, AllocError>
    ensures { IfOk result (λ t. string_bytes t ≡ texts.automaton_line (Answer.NotContained missing)) }
{
    match missing {
        Missing::Transition(i) => format!(in alloc; "Rejected not contained transition {i}\n"),
        Missing::Epsilon(i) => format!(in alloc; "Rejected not contained epsilon {i}\n"),
        Missing::Final(state) => format!(in alloc; "Rejected not contained final {state}\n"),
    }
}

fn pair_line(alloc: Global, pair: &Pair) -> Result<String, AllocError>
    ensures { IfOk result (λ t. string_bytes t ≡ texts.automaton_line (Answer.Open pair.now)) }
{
    let sigma = sigma_text(alloc, pair.sigma.as_slice())?;
    let (rule, state) = (pair.rule, pair.state);
    format!(in alloc; "Rejected open rule {rule} sigma {sigma} state {state}\n")
}

fn sigma_text(alloc: Global, states: &[u32]) -> Result<String, AllocError>
    ensures { IfOk result (λ t. string_bytes t ≡ texts.sigma_text states.now) }
{
    match states {
        [] => String::from_str(alloc, "-"),
        [first, further @ ..] => listed(alloc, *first, further),
    }
}

fn listed(alloc: Global, first: u32, further: &[u32]) -> Result<String, AllocError>
    ensures { IfOk result (λ t. string_bytes t ≡ texts.sigma_text (first ∷ further.now)) }
{
    let mut text = format!(in alloc; "{first}")?;
    for state in further {
        text = format!(in alloc; "{text},{state}")?;
    }
    Ok(text)
}
