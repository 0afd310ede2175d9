//! The check of a derivation.
ghost use Rattle.std.specs.Prelude.{◌≡◌, ◌↔◌, ◌<◌, ◌^◌, length, IfOk};
ghost use Rattle.trs_rules.specs.Derivations.{LeadsTo};
ghost use Rattle.ta_core.specs.Reachability.{Replays};
ghost use Rattle.closure_check.specs.Replaying.{DerivationAnswers, ReachesForbidden};

use ranked_terms::Term;
use std::alloc::AllocError;
use ta_core::Spec;
use ta_core::laws::accepted_terms_are_over;
use trs_rules::laws::derivations_are_chains;
use trs_rules::{Derivation, first_bad_step};

/// What the replay of a derivation finds.
#[derive(Debug, Clone, Copy, PartialEq, Eq)]
pub enum DAnswer {
    /// It leads from a term of the initial language to a forbidden term.
    Yes,
    /// Its start is not in the initial language.
    Start,
    /// Its start is, and the step of this number, counted from 1, is the first that is no step by its rule at its position.
    Step(u32),
    /// Its start is, each step is one, and its last term is not forbidden.
    End,
}

/// Replays a derivation: `Yes` exactly where it starts in the initial language, each step is one by its rule at its
/// position, and it ends in a forbidden term; and then a forbidden term is reachable. Else the answer names the first of
/// these that fails. There are fewer than 2^32 steps. The only error is running out of memory.
pub fn check_derivation(spec: &Spec, d: &Derivation) -> Result<DAnswer, AllocError>
    requires { length d.now.steps < 2 ^ 32 }
    ensures answer { IfOk result (λ answer. DerivationAnswers spec.now d.now answer) }
    ensures yes { IfOk result (λ answer. (answer ≡ DAnswer.Yes) ↔ Replays spec.now d.now) }
    ensures reaches { IfOk result (λ answer. answer ≡ DAnswer.Yes → ReachesForbidden spec.now) }
{
    // For the proof: what the automata accept is over the signature, and a derivation is a chain of steps.
    accepted_terms_are_over();
    derivations_are_chains();
    if !spec.initial.accepts(&d.start)? {
        return Ok(DAnswer::Start);
    }
    if let Some(number) = first_bad_step(spec.rules.as_slice(), d) {
        return Ok(DAnswer::Step(number));
    }
    if !spec.forbidden.accepts(last_term(d))? {
        return Ok(DAnswer::End);
    }
    Ok(DAnswer::Yes)
}

// The term that the derivation leads to.
fn last_term(d: &Derivation) -> &Term
    ensures { LeadsTo d.now result.now }
{
    match d.steps.as_slice().last() {
        Some(step) => &step.term,
        None => &d.start,
    }
}
