//! Passes of merging over the equations: each puts together what the equations equate.
ghost use Rattle.std.specs.Prelude.{◌≡◌, ◌<◌, ◌≤◌, ℕ, [], length, All, Contains, OnOk};
ghost use Rattle.ta_core.specs.Acceptance.{image};
ghost use Rattle.ta_core.specs.declared.trans.Trans.{Trans as Transition};
ghost use Rattle.eq_merge.specs.Joined.{Joined};
ghost use Rattle.eq_merge.specs.Ends.{AreEquated, AreEquatedBy, IsLed};
ghost use Rattle.eq_merge.specs.Passes.{IsLeader, IsStep};

use crate::ends::{across, ends_of, have_variables, plain_part};
use crate::renaming::Renaming;
use state_match::Matcher;
use std::alloc::{AllocError, Global};
use ta_core::{Automaton, Growing, Trans};
use trs_rules::Equation;

/// Puts together whatever the equations equate in the automaton. It takes as many steps as the sides have ends, whatever the
/// number of pairs of them. The only error is running out of memory.
pub(crate) fn join_equated(
    alloc: Global,
    automaton: &Automaton,
    equations: &[Equation],
    classes: &mut Renaming,
) -> Result<(), AllocError>
    requires { automaton.now.next ≤ length classes.old }
    ensures joined { OnOk result (Joined (AreEquatedBy automaton.now equations.now) classes.old classes.new) }
    ensures all { OnOk result ((p q : ℕ) →
        AreEquatedBy automaton.now equations.now p q → image classes.new p ≡ image classes.new q) }
{
    if equations.is_empty() {
        return Ok(());
    }
    let plain = plain_part(automaton)?;
    join_plain(alloc, &plain, equations, classes)
}

/// As `join_equated`, in an automaton without epsilon transitions.
fn join_plain(
    alloc: Global,
    plain: &Automaton,
    equations: &[Equation],
    classes: &mut Renaming,
) -> Result<(), AllocError>
    requires next { plain.now.next ≤ length classes.old }
    requires plain { plain.now.eps ≡ [] }
    ensures joined { OnOk result (Joined (AreEquatedBy plain.now equations.now) classes.old classes.new) }
    ensures all { OnOk result ((p q : ℕ) →
        AreEquatedBy plain.now equations.now p q → image classes.new p ≡ image classes.new q) }
{
    let matcher = Matcher::new(alloc, plain, have_variables(equations))?;
    join_each(alloc, &matcher, equations, classes)
}

/// As `join_plain`, in an automaton that is ready for the sides of all equations.
fn join_each(
    alloc: Global,
    matcher: &Matcher,
    equations: &[Equation],
    classes: &mut Renaming,
) -> Result<(), AllocError>
    requires next { matcher.now.next ≤ length classes.old }
    requires plain { matcher.now.eps ≡ [] }
    ensures joined { OnOk result (Joined (AreEquatedBy matcher.now equations.now) classes.old classes.new) }
    ensures all { OnOk result ((p q : ℕ) →
        AreEquatedBy matcher.now equations.now p q → image classes.new p ≡ image classes.new q) }
{
    // For the proof: what runs lead to is a state.
    let _ = matcher.automaton().next();
    for equation in equations {
        join_by(alloc, matcher, equation, classes)?;
    }
    Ok(())
}

/// Puts together whatever the equation equates in the automaton, which has no epsilon transitions. The only error is running out
/// of memory.
fn join_by(
    alloc: Global,
    matcher: &Matcher,
    equation: &Equation,
    classes: &mut Renaming,
) -> Result<(), AllocError>
    requires next { matcher.now.next ≤ length classes.old }
    requires plain { matcher.now.eps ≡ [] }
    ensures joined { OnOk result (Joined (AreEquated matcher.now equation.now) classes.old classes.new) }
    ensures all { OnOk result ((p q : ℕ) →
        AreEquated matcher.now equation.now p q → image classes.new p ≡ image classes.new q) }
{
    // For the proof: the equation is one.
    let _ = equation.vars();
    let ends = ends_of(alloc, matcher, equation)?;
    join_ends(&Growing::on(&ends), ends.trans(), classes)
}

/// Puts each end together with the least one across from it. The only error is running out of memory.
fn join_ends(lookup: &Growing, ends: &[Trans], classes: &mut Renaming) -> Result<(), AllocError>
    requires next { lookup.now.next ≤ length classes.old }
    requires inside { All (λ (t : Transition). Contains lookup.now.states t.to) ends.now }
    ensures joined { OnOk result (Joined (IsLeader lookup.now ends.now) classes.old classes.new) }
    ensures led { OnOk result ((t : Transition) → Contains ends.now t → IsLed lookup.now classes.new t) }
{
    // For the proof: what an end leads to is a state.
    let _ = lookup.next();
    for end in ends {
        join_end(lookup, end, classes)?;
    }
    Ok(())
}

/// Puts an end together with the least one across from it, if there is one. The only error is running out of memory.
fn join_end(lookup: &Growing, end: &Trans, classes: &mut Renaming) -> Result<(), AllocError>
    requires next { lookup.now.next ≤ length classes.old }
    requires inside { Contains lookup.now.states end.now.to }
    ensures { OnOk result (IsStep lookup.now end.now classes.old classes.new) }
{
    if let Some(least) = lookup.least_target(across(end.sym), end.args.as_slice())? {
        classes.join(end.to, least);
    }
    Ok(())
}
