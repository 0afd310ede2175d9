//! All steps from a term.
ghost use Rattle.std.specs.Prelude.{◌≡◌, ◌<◌, ◌^◌, ◌↔◌, [], length, IsTrue, IfOk, OnOk, Some};
ghost use Rattle.std.specs.Cmp.Lexicographic.{slice_cmp};
ghost use Rattle.std.specs.List.Sorted.{IsStrictlySortedBy};
ghost use Rattle.std.specs.Ordering.{nat_cmp};
ghost use Rattle.ranked_terms.specs.declared.term.Term.{Term as Ground};
ghost use Rattle.ranked_terms.specs.Positions.{is_narrow};
ghost use Rattle.trs_rules.specs.Derivations.{AreSuccessors, AreStepsUpTo};
ghost use Rattle.trs_rules.specs.Steps.{StepAt};

use crate::rule::Rule;
use ranked_terms::{Binding, Position, Seq, Term, instance, match_term};
use std::alloc::{AllocError, Global};

/// A step from a term.
#[derive(Debug, Drop)]
pub struct Successor {
    /// The rule's number, from 0.
    pub rule: u32,
    /// Where the rule is applied.
    pub at: Position,
    /// The term that the step leads to.
    pub term: Term,
}

/// All steps from the term, each once, by rule and then position (Baader and Nipkow, Term Rewriting and All That, section
/// 4.2). Rules and arguments can be named by 32 bits. The only error is running out of memory.
pub fn successors(alloc: Global, rules: &[Rule], t: &Term) -> Result<Seq<Successor>, AllocError>
    requires rules { length rules.now < 2 ^ 32 }
    requires arguments { IsTrue (is_narrow t.now) }
    ensures { IfOk result (AreSuccessors rules.now t.now) }
{
    let positions = t.positions(alloc)?;
    let mut found = Seq::new(alloc);
    for i in 0..rules.len() {
        add_steps(alloc, rules, i as u32, t, positions.as_slice(), &mut found)?;
    }
    Ok(found)
}

// Adds the steps by one rule at these positions.
fn add_steps(
    alloc: Global,
    rules: &[Rule],
    rule: u32,
    t: &Term,
    positions: &[Position],
    found: &mut Seq<Successor>,
) -> Result<(), AllocError>
    requires rule { rule < length rules.now }
    requires ascend { IsStrictlySortedBy (slice_cmp nat_cmp) positions.now }
    requires found { AreStepsUpTo rules.now t.now rule [] found.old }
    ensures { OnOk result (AreStepsUpTo rules.now t.now rule positions.now found.new) }
{
    for at in positions {
        if let Some(term) = rewrite_at(alloc, rules, rule, t, at)? {
            let at = Position::from_slice(alloc, at.as_slice())?;
            found.push(Successor { rule, at, term })?;
        }
    }
    Ok(())
}

// The term that the rule makes of this one at the position, if it applies there.
fn rewrite_at(
    alloc: Global,
    rules: &[Rule],
    rule: u32,
    t: &Term,
    at: &Position,
) -> Result<Option<Term>, AllocError>
    requires { rule < length rules.now }
    ensures { IfOk result (λ o. (u : Ground) → (o ≡ Some u) ↔ StepAt rules.now rule at.now t.now u) }
{
    let rule = &rules[rule as usize];
    let Some(inner) = t.subterm(at) else {
        return Ok(None);
    };
    let mut binding = Binding::new();
    if !match_term(rule.left(), inner, &mut binding) {
        return Ok(None);
    }
    let made = instance(alloc, rule.right(), &binding)?;
    let replaced = t.replace(alloc, at, &made)?;
    Ok(replaced)
}
