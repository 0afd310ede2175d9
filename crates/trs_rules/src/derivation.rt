//! Derivations.
ghost use Rattle.std.specs.Prelude.{◌≡◌, ◌↔◌, ◌<◌, ◌^◌, ℕ, length, IsTrue, IfOk, Some, None};
ghost use Rattle.trs_rules.specs.Derivations.{IsDerivation, IsFirstBad};
ghost use Rattle.trs_rules.specs.Steps.{StepAt};

use crate::rule::Rule;
use crate::step::is_root_step;
use ranked_terms::{Position, Seq, Term};
use std::alloc::{AllocError, Global};

/// A step of a derivation.
#[derive(Debug, Drop)]
pub struct DStep {
    /// The rule's number, from 0.
    pub rule: u32,
    /// Where the rule is applied.
    pub at: Position,
    /// The term that the step leads to.
    pub term: Term,
}

/// A term, and rewriting steps from it one after the other (Baader and Nipkow, Term Rewriting and All That, section 2.1).
/// Whether they are steps by some rules is what `first_bad_step` and `replays` say.
#[derive(Debug, Drop)]
pub struct Derivation {
    /// The first term.
    pub start: Term,
    /// The steps.
    pub steps: Seq<DStep>,
}

impl DStep {
    // An equal step.
    fn copy(&self, alloc: Global) -> Result<DStep, AllocError>
        ensures { IfOk result (λ copy. copy ≡ self.now) }
    {
        Ok(DStep {
            rule: self.rule,
            at: Position::from_slice(alloc, self.at.as_slice())?,
            term: self.term.copy(alloc)?,
        })
    }
}

impl Derivation {
    /// An equal derivation. The only error is running out of memory.
    pub fn copy(&self, alloc: Global) -> Result<Derivation, AllocError>
        ensures { IfOk result (λ copy. copy ≡ self.now) }
    {
        let mut steps = Seq::new(alloc);
        for step in self.steps.as_slice() {
            steps.push(step.copy(alloc)?)?;
        }
        Ok(Derivation {
            start: self.start.copy(alloc)?,
            steps,
        })
    }
}

/// The least number, from 1, of a step that is not a step by its rule at its position to its term. `None` exactly where
/// all are. There are fewer than 2^32 steps. It takes no memory.
pub fn first_bad_step(rules: &[Rule], d: &Derivation) -> Option<u32>
    requires { length d.now.steps < 2 ^ 32 }
    ensures none { (result ≡ None) ↔ IsDerivation rules.now d.now }
    ensures some { (number : ℕ) → (result ≡ Some number) ↔ IsFirstBad rules.now d.now number }
{
    let steps = d.steps.as_slice();
    let mut before = &d.start;
    for i in 0..steps.len() {
        let step = &steps[i];
        if !leads(rules, before, step) {
            return Some(i as u32 + 1);
        }
        before = &step.term;
    }
    None
}

/// Whether each step is a step by its rule at its position to its term. There are fewer than 2^32 steps. It takes no
/// memory.
pub fn replays(rules: &[Rule], d: &Derivation) -> bool
    requires { length d.now.steps < 2 ^ 32 }
    ensures { IsTrue result ↔ IsDerivation rules.now d.now }
{
    first_bad_step(rules, d).is_none()
}

// Whether the step leads from this term to its own by its rule at its position.
fn leads(rules: &[Rule], before: &Term, step: &DStep) -> bool
    ensures { IsTrue result ↔ StepAt rules.now step.now.rule step.now.at before.now step.now.term }
{
    let Some(rule) = rules.get(step.rule as usize) else {
        return false;
    };
    let Some((u, v)) = before.changed_at(&step.at, &step.term) else {
        return false;
    };
    is_root_step(rule, u, v)
}
