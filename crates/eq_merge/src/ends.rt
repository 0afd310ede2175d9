//! Where the runs of an equation's sides end: each side is matched once, and the ends are found by the states of the variables
//! that stand in both sides.
ghost use Rattle.std.specs.Prelude.{◌≡◌, ◌↔◌, ◌⊎◌, ◌≤◌, ◌==◌, ℕ, [], length, filter, All, Contains, IfOk, OnOk};
ghost use Rattle.std.specs.List.{list_any, position_or_len};
ghost use Rattle.ranked_terms.specs.Terms.{variables_of};
ghost use Rattle.ta_core.specs.declared.trans.Trans.{Trans as Transition};
ghost use Rattle.eq_merge.specs.Ends.{AreEnds, EndsAt, without_eps, across as opposite};
ghost use Rattle.eq_merge.specs.Ends.{states_at as states_there, places_of as places_among};

use ranked_terms::{Pattern, Seq};
use state_match::{Groups, Matcher};
use std::alloc::{AllocError, Global};
use ta_core::{Args, Automaton, Trans};
use trs_rules::{Equation, Variables};

/// The left side of an equation.
pub(crate) const LEFT: u32 = 0;

/// The right side.
pub(crate) const RIGHT: u32 = 1;

/// The other side.
pub(crate) fn across(side: u32) -> u32
    ensures { result ≡ opposite side }
{
    if side == LEFT { RIGHT } else { LEFT }
}

/// The automaton without its epsilon transitions, in which the sides of equations are matched. The only error is running out of
/// memory.
pub(crate) fn plain_part(automaton: &Automaton) -> Result<Automaton, AllocError>
    ensures { IfOk result (λ plain. plain ≡ without_eps automaton.now) }
{
    automaton.without_eps()
}

/// Whether an equation has variables.
pub(crate) fn have_variables(equations: &[Equation]) -> bool {
    equations.iter().any(|equation| !equation.vars().is_empty())
}

/// The ends of both sides of an equation in an automaton without epsilon transitions, as transitions of an automaton, in which
/// they are looked up: from the states of the variables that stand in both sides, with the number of the side as symbol, to the
/// state to which the side runs. The only error is running out of memory.
pub(crate) fn ends_of(
    alloc: Global,
    matcher: &Matcher,
    equation: &Equation,
) -> Result<Automaton, AllocError>
    requires { matcher.now.eps ≡ [] }
    ensures { IfOk result (λ ends. AreEnds matcher.now equation.now ends) }
{
    let shared = shared_variables(alloc, equation)?;
    let automaton = matcher.automaton();
    let mut ends = Automaton::with_states(alloc, automaton.next(), automaton.states())?;
    add_side(
        alloc,
        matcher,
        equation.left(),
        LEFT,
        shared.as_slice(),
        &mut ends,
    )?;
    add_side(
        alloc,
        matcher,
        equation.right(),
        RIGHT,
        shared.as_slice(),
        &mut ends,
    )?;
    Ok(ends)
}

/// Adds the ends of one side to an automaton with the same states. The only error is running out of memory.
fn add_side(
    alloc: Global,
    matcher: &Matcher,
    pattern: &Pattern,
    side: u32,
    shared: &[u32],
    ends: &mut Automaton,
) -> Result<(), AllocError>
    requires few { length (variables_of pattern.now) ≤ 16 }
    requires plain { matcher.now.eps ≡ [] }
    requires shared { All (Contains (variables_of pattern.now)) shared.now }
    requires states { ends.old.states ≡ matcher.now.states }
    ensures members { OnOk result ((t : Transition) → Contains ends.new.trans t ↔
        (Contains ends.old.trans t ⊎ ((t.sym ≡ side) × EndsAt matcher.now pattern.now shared.now t.args t.to))) }
    ensures rest { OnOk result (ends.new ≡ record ends.old { trans = ends.new.trans }) }
{
    // For the proof: what runs lead to is a state.
    let _ = matcher.automaton().next();
    ends.add_all_trans(side_ends(alloc, matcher, pattern, side, shared)?)
}

/// The variables that stand in both sides. The only error is running out of memory.
fn shared_variables(alloc: Global, equation: &Equation) -> Result<Seq<u32>, AllocError>
    ensures { IfOk result (λ shared. (v : ℕ) → Contains shared v ↔
        (Contains (variables_of equation.now.left) v × Contains (variables_of equation.now.right) v)) }
{
    let Ok(left) = Variables::of(equation.left()) else {
        unreachable!();
    };
    let Ok(right) = Variables::of(equation.right()) else {
        unreachable!();
    };
    in_both(alloc, left.as_slice(), right.as_slice())
}

/// The members of the first list that are members of the second one. The only error is running out of memory.
fn in_both(alloc: Global, first: &[u32], second: &[u32]) -> Result<Seq<u32>, AllocError>
    ensures { IfOk result (λ both. both ≡ filter (λ v. list_any (λ w. v == w) second.now) first.now) }
{
    let mut both = Seq::new(alloc);
    for v in first {
        if is_among(*v, second) {
            both.push(*v)?;
        }
    }
    Ok(both)
}

/// Whether the variable is one of these.
fn is_among(variable: u32, variables: &[u32]) -> bool
    ensures { result ≡ list_any (λ other. variable == other) variables.now }
{
    variables.iter().any(|other| variable == *other)
}

/// The ends of one side, as transitions. The only error is running out of memory.
fn side_ends(
    alloc: Global,
    matcher: &Matcher,
    pattern: &Pattern,
    side: u32,
    shared: &[u32],
) -> Result<Seq<Trans>, AllocError>
    requires few { length (variables_of pattern.now) ≤ 16 }
    requires plain { matcher.now.eps ≡ [] }
    ensures { IfOk result (λ ends. (t : Transition) → Contains ends t ↔
        ((t.sym ≡ side) × EndsAt matcher.now pattern.now shared.now t.args t.to)) }
{
    let Ok(vars) = Variables::of(pattern) else {
        unreachable!();
    };
    let mut collecting = Collecting {
        alloc,
        side,
        places: places_of(alloc, vars.as_slice(), shared)?,
        ends: Seq::new(alloc),
    };
    let _on = matcher.each_group(pattern, vars.as_slice(), &mut collecting)?;
    Ok(collecting.ends)
}

/// The places of the shared variables among the variables, and the number of these for one that is none of them. The only error
/// is running out of memory.
fn places_of(alloc: Global, vars: &[u32], shared: &[u32]) -> Result<Seq<usize>, AllocError>
    ensures { IfOk result (λ places. places ≡ places_among vars.now shared.now) }
{
    let mut places = Seq::new(alloc);
    for v in shared {
        places.push(place_of(*v, vars))?;
    }
    Ok(places)
}

/// The variable's place among the variables, and their number where it is none of them.
fn place_of(variable: u32, variables: &[u32]) -> usize
    ensures { result ≡ position_or_len (λ other. variable == other) variables.now }
{
    variables
        .iter()
        .position(|other| variable == *other)
        .unwrap_or(variables.len())
}

/// Collects the ends of a side.
#[derive(Drop)]
pub(crate) struct Collecting {
    alloc: Global,
    side: u32,
    places: Seq<usize>,
    ends: Seq<Trans>,
}

impl Groups for Collecting {
    ghost use Rattle.eq_merge.specs.Ends.{AddsEnds};

    ghost took = { λ u g v. AddsEnds u g v };

    ghost ended = { λ u g v. ⊥ };

    ghost broke = { λ u g v. Unit {0} };

    fn take(&mut self, assignment: &[u32], states: &[u32]) -> Result<bool, AllocError> {
        let shared = states_at(self.alloc, self.places.as_slice(), assignment)?;
        for state in states {
            let end = Trans {
                sym: self.side,
                args: Args::from_slice(self.alloc, shared.as_slice())?,
                to: *state,
            };
            self.ends.push(end)?;
        }
        Ok(true)
    }
}

/// The states at these places of an assignment, and 0 for a place that it does not have. The only error is running out of memory.
fn states_at(alloc: Global, places: &[usize], assignment: &[u32]) -> Result<Seq<u32>, AllocError>
    ensures { IfOk result (λ states. states ≡ states_there places.now assignment.now) }
{
    let mut states = Seq::new(alloc);
    for place in places {
        states.push(assignment.get(*place).copied().unwrap_or(0))?;
    }
    Ok(states)
}
