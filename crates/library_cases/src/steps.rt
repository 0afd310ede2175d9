//! Terms, steps from them, and derivations.
ghost use Rattle.std.specs.Prelude.{◌≤◌, length};

use crate::table::Call;
use ranked_terms::{Position, Seq, Signature, laws, term_from};
use std::alloc::{AllocError, Global};
use std::str;
use ta_core::Spec;
use trs_rules::{DStep, Derivation, Rule, Successor, first_bad_step, replays, successors};

/// The most steps of a derivation: calls ask that 32 bits number them.
const MAX_STEPS: usize = 1000;

/// What is printed of the term that the first text spells.
pub fn spelled_term(alloc: Global, spec: &Spec, call: &Call) -> Result<String, AllocError> {
    let Some(term) = term_from(alloc, &spec.signature, call.text(0).as_bytes())? else {
        return format!(in alloc; "no term\n");
    };
    let mut out = Vec::new(alloc);
    term.print_into(&spec.signature, &mut out)?;
    let text = str::from_utf8(out.as_slice()).unwrap_or("?");
    format!(in alloc; "{text}\n")
}

/// A step by its rule, its position and the text that spells its term, if that is this one.
fn step_line(
    alloc: Global,
    signature: &Signature,
    step: &Successor,
    text: &str,
) -> Result<String, AllocError> {
    let is_spelled = match term_from(alloc, signature, text.as_bytes())? {
        Some(term) => term == step.term,
        None => false,
    };
    let told = if is_spelled { text } else { "another term" };
    format!(in alloc; "{} {:?} {told}\n", step.rule, step.at.as_slice())
}

/// The steps from the term that the first text spells, to those that the others spell.
pub fn steps_from(alloc: Global, spec: &Spec, call: &Call) -> Result<String, AllocError>
    requires { length spec.now.rules ≤ 1000 }
{
    // For the proof: the arguments of a term over a signature can be named by 32 bits.
    laws::of_terms_over();
    let _symbols = spec.signature.len();
    let rules = spec.rules.as_slice();
    let Some(term) = term_from(alloc, &spec.signature, call.text(0).as_bytes())? else {
        return format!(in alloc; "no term\n");
    };
    let steps = successors(alloc, rules, &term)?;
    step_lines(
        alloc,
        &spec.signature,
        steps.as_slice(),
        call.texts.as_slice(),
    )
}

/// The steps, each beside the text in its place behind the first one.
fn step_lines(
    alloc: Global,
    signature: &Signature,
    steps: &[Successor],
    texts: &[String],
) -> Result<String, AllocError> {
    let mut lines = String::new(alloc);
    for (step, text) in steps.iter().zip(texts.iter().skip(1)) {
        lines.push_str(&step_line(alloc, signature, step, text.as_str())?)?;
    }
    lines.push_str(&format!(in alloc; "{} steps\n", steps.len())?)?;
    Ok(lines)
}

/// The derivation from the term that the first text spells along those of the others, each step by the rule 0 at the root,
/// where all of them spell terms.
fn along(
    alloc: Global,
    signature: &Signature,
    call: &Call,
) -> Result<Option<Derivation>, AllocError> {
    let Some(start) = term_from(alloc, signature, call.text(0).as_bytes())? else {
        return Ok(None);
    };
    let mut steps = Seq::new(alloc);
    for text in call.texts.iter().skip(1) {
        let Some(step) = root_step(alloc, signature, text.as_str())? else {
            return Ok(None);
        };
        steps.push(step)?;
    }
    Ok(Some(Derivation { start, steps }))
}

/// The step by the rule 0 at the root to the term that the text spells, where it spells one.
fn root_step(
    alloc: Global,
    signature: &Signature,
    text: &str,
) -> Result<Option<DStep>, AllocError> {
    let Some(term) = term_from(alloc, signature, text.as_bytes())? else {
        return Ok(None);
    };
    let at = Position::from_slice(alloc, &[])?;
    Ok(Some(DStep { rule: 0, at, term }))
}

/// The first bad step of the derivation, and whether a copy of it replays.
fn replay_line(
    alloc: Global,
    rules: &[Rule],
    derivation: &Derivation,
) -> Result<String, AllocError> {
    let copy = derivation.copy(alloc)?;
    if copy.steps.len() > MAX_STEPS || derivation.steps.len() > MAX_STEPS {
        return format!(in alloc; "many steps\n");
    }
    let bad = first_bad_step(rules, derivation);
    let is_replayed = replays(rules, &copy);
    format!(in alloc; "first bad step {bad:?}, replays {is_replayed}\n")
}

/// The first bad step of the derivation along the terms of the texts, each step by the rule 0 at the root.
pub fn replay_along(alloc: Global, spec: &Spec, call: &Call) -> Result<String, AllocError> {
    match along(alloc, &spec.signature, call)? {
        Some(derivation) => replay_line(alloc, spec.rules.as_slice(), &derivation),
        None => format!(in alloc; "no derivation\n"),
    }
}
