//! The states of a pattern whose first variables stand for states, and the states with which it can go on.
ghost use Rattle.std.specs.Prelude.{◌≡◌, ◌↔◌, ◌+◌, ◌<◌, ◌^◌, ℕ, List, ◌∷◌, ◌++◌, length, All, Contains, IfOk, IfSome};
ghost use Rattle.ranked_terms.specs.Terms.{assigned};
ghost use Rattle.ta_core.specs.Closure.{state_in};
ghost use Rattle.ta_core.specs.Runs.{Runs};
ghost use Rattle.ta_core.specs.Reached.{EntersAndReaches};
ghost use Rattle.state_match.specs.Belows.{IsBelow};
ghost use Rattle.state_match.specs.Rows.{AreWantedNext, IsClosedBack, IsNextAt, IsReverse};

use crate::below::Below;
use crate::known::Known;
use crate::places::place_of;
use crate::rows::{next_states, no_states};
use crate::tabled::Tabled;
use crate::turned::Turned;
use ranked_terms::Pattern;
use std::alloc::{AllocError, Global};
use ta_core::StateSet;

/// The states to which the symbol runs where its arguments run to these sets. The only error is running out of memory.
pub(crate) fn applied(
    alloc: Global,
    automaton: &Tabled,
    all: &StateSet,
    sym: u32,
    sets: &[Known],
) -> Result<Known, AllocError>
    requires { all.now ≡ automaton.now.states }
    ensures { IfOk result (λ states. (q : ℕ) → Contains states q ↔ EntersAndReaches automaton.now sym sets.now q) }
{
    let targets = next_states(alloc, automaton.trans(), sym, sets, &[], sets.len(), all)?;
    automaton.closed(targets)
}

/// The state, if it is one.
pub(crate) fn one_state(alloc: Global, all: &StateSet, state: u32) -> Result<StateSet, AllocError>
    ensures { IfOk result (λ set. (x : ℕ) → Contains set x ↔ ((state ≡ x) × Contains all.now x)) }
{
    if !all.contains(state) {
        return no_states(alloc);
    }
    StateSet::from_slice(alloc, &[state])
}

/// The states to which the pattern runs, whatever the other variables stand for, or none where one of its own is among these.
/// The only error is running out of memory.
pub(crate) fn value(
    alloc: Global,
    automaton: &Tabled,
    all: &StateSet,
    vars: &[u32],
    bound: &[u32],
    pattern: &Pattern,
) -> Result<Option<Known>, AllocError>
    requires { all.now ≡ automaton.now.states }
    ensures { IfOk result (λ states. IfSome states (λ states. (rest : List ℕ) (q : ℕ) →
        Contains states q ↔ Runs automaton.now (assigned (state_in vars.now (bound.now ++ rest)) pattern.now) q)) }
{
    match pattern {
        Pattern::Var(variable) => {
            let place = place_of(*variable, vars);
            if place >= bound.len() {
                return Ok(None);
            }
            let state = one_state(alloc, all, bound[place])?;
            let states = automaton.closed(state)?;
            Ok(Some(states))
        }
        Pattern::App(sym, args) => {
            let mut sets = Vec::new(alloc);
            for arg in args.as_slice() {
                let Some(set) = value(alloc, automaton, all, vars, bound, arg)? else {
                    return Ok(None);
                };
                let listed = set.listed_if(alloc, automaton.has_many(*sym))?;
                sets.push(listed)?;
            }
            let states = applied(alloc, automaton, all, *sym, &sets)?;
            Ok(Some(states))
        }
    }
}

/// As `value`, but none at once where the pattern has a variable that stands for no state yet. The only error is running out of
/// memory.
fn value_if_decided(
    alloc: Global,
    automaton: &Tabled,
    all: &StateSet,
    vars: &[u32],
    bound: &[u32],
    pattern: &Pattern,
    below: &Below,
) -> Result<Option<Known>, AllocError>
    requires { all.now ≡ automaton.now.states }
    ensures { IfOk result (λ states. IfSome states (λ states. (rest : List ℕ) (q : ℕ) →
        Contains states q ↔ Runs automaton.now (assigned (state_in vars.now (bound.now ++ rest)) pattern.now) q)) }
{
    if below.until > bound.len() {
        return Ok(None);
    }
    value(alloc, automaton, all, vars, bound, pattern)
}

/// States among which is each one with which the next variable lets the pattern run to a wanted state, or none where nothing
/// is known. The only error is running out of memory.
pub(crate) fn narrow(
    alloc: Global,
    automaton: &Tabled,
    reversed: &Turned,
    all: &StateSet,
    vars: &[u32],
    bound: &[u32],
    wanted: &StateSet,
    pattern: &Pattern,
    below: &Below,
) -> Result<Option<StateSet>, AllocError>
    requires all { all.now ≡ automaton.now.states }
    requires reverse { IsReverse automaton.now reversed.now }
    requires below { IsBelow automaton.now pattern.now below.now }
    ensures { IfOk result (λ states. IfSome states (λ states. IsClosedBack automaton.now wanted.now →
        (s : ℕ) (rest : List ℕ) (q : ℕ) → Contains wanted.now q →
        Runs automaton.now (assigned (state_in vars.now (bound.now ++ s ∷ rest)) pattern.now) q → Contains states s)) }
{
    match pattern {
        Pattern::Var(variable) => {
            if place_of(*variable, vars) != bound.len() {
                return Ok(None);
            }
            let states = StateSet::from_slice(alloc, wanted.as_slice())?;
            Ok(Some(states))
        }
        Pattern::App(sym, args) => {
            let mut sets = Vec::new(alloc);
            for (place, arg) in args.as_slice().iter().enumerate() {
                let deeper = &below.args[place];
                match value_if_decided(alloc, automaton, all, vars, bound, arg, deeper)? {
                    Some(set) => {
                        let listed = set.listed_if(alloc, automaton.has_many(*sym))?;
                        sets.push(listed)?;
                    }
                    None => {
                        let others = &below.sets[place..];
                        let count = args.as_slice().len();
                        let back = wanted_next(
                            alloc, automaton, reversed, all, *sym, &sets, others, count, wanted,
                        )?;
                        return narrow(
                            alloc, automaton, reversed, all, vars, bound, &back, arg, deeper,
                        );
                    }
                }
            }
            Ok(None)
        }
    }
}

/// The states of `column`, and with each one those from which epsilon transitions lead to it. The only error is running out of
/// memory.
pub(crate) fn wanted_next(
    alloc: Global,
    automaton: &Tabled,
    reversed: &Turned,
    all: &StateSet,
    sym: u32,
    sets: &[Known],
    others: &[Known],
    arity: usize,
    wanted: &StateSet,
) -> Result<StateSet, AllocError>
    requires all { all.now ≡ automaton.now.states }
    requires reverse { IsReverse automaton.now reversed.now }
    requires count { arity + 1 < 2 ^ 64 }
    ensures { IfOk result (AreWantedNext automaton.now reversed.now sym sets.now others.now arity wanted.now) }
{
    let column = column(
        alloc, automaton, reversed, all, sym, sets, others, arity, wanted,
    )?;
    reversed.closed(column)
}

/// States among which is each one that stands as the next argument in a transition of the symbol with so many arguments to a
/// wanted state, behind first arguments from these sets, where the arguments from it on are from the others. Where there are no
/// first ones, and fewer states are wanted than the symbol has transitions, these are looked up by their targets. The only
/// error is running out of memory.
fn column(
    alloc: Global,
    automaton: &Tabled,
    reversed: &Turned,
    all: &StateSet,
    sym: u32,
    sets: &[Known],
    others: &[Known],
    arity: usize,
    wanted: &StateSet,
) -> Result<StateSet, AllocError>
    requires all { all.now ≡ automaton.now.states }
    requires reverse { IsReverse automaton.now reversed.now }
    requires count { arity + 1 < 2 ^ 64 }
    ensures next { IfOk result (λ states. (x : ℕ) →
        IsNextAt automaton.now.trans sym sets.now others.now arity wanted.now x → Contains states x) }
    ensures inside { IfOk result (All (Contains reversed.now.states)) }
{
    if !sets.is_empty() || automaton.count_with(sym) <= wanted.as_slice().len() {
        return next_states(alloc, automaton.trans(), sym, sets, others, arity, wanted);
    }
    let mut targets = Vec::new(alloc);
    let wanted = StateSet::from_slice(alloc, wanted.as_slice())?;
    targets.push(Known::listed(wanted))?;
    next_states(
        alloc,
        reversed.trans(),
        sym,
        &targets,
        others,
        arity + 1,
        all,
    )
}
