//! The states to which the terms of a store run.
ghost use Rattle.std.specs.Prelude.{◌≡◌, ◌↔◌, ◌<◌, ◌≤◌, ℕ, length, All, Contains, IsTrue, IfOk, OnOk};
ghost use Rattle.std.specs.List.{AllZip};
ghost use Rattle.ranked_terms.specs.Terms.{config_of};
ghost use Rattle.ta_core.specs.Languages.{Accepts};
ghost use Rattle.ta_core.specs.Runs.{Runs};
ghost use Rattle.ta_core.specs.Reached.{HasTransInto};
ghost use Rattle.term_store.specs.Store.{term_at};
ghost use Rattle.derive_search.specs.StateSets.{AreStateSets, sets_at};

use std::alloc::{AllocError, Global};
use ta_core::{Automaton, StateSet};
use term_store::Store;

/// Adds the sets of the terms that have none yet, so that each term of the store has the set of the states to which it
/// runs. Each is made once, from the sets of the arguments. The only error is running out of memory.
pub(crate) fn fill(
    alloc: Global,
    automaton: &Automaton,
    store: &Store,
    sets: &mut Vec<StateSet>,
) -> Result<(), AllocError>
    requires { AreStateSets automaton.now store.now sets.old.items }
    ensures sets { OnOk result (AreStateSets automaton.now store.now sets.new.items) }
    ensures all { OnOk result (length sets.new.items ≡ length store.now) }
{
    for id in sets.len()..store.len() {
        let set = states_of(alloc, automaton, store, sets.as_slice(), id as u32)?;
        sets.push(set)?;
    }
    Ok(())
}

/// Whether the automaton accepts the term of the identity.
pub(crate) fn is_accepted(automaton: &Automaton, store: &Store, sets: &[StateSet], id: u32) -> bool
    requires sets { AreStateSets automaton.now store.now sets.now }
    requires there { id < length sets.now }
    ensures { IsTrue result ↔ Accepts automaton.now (term_at store.now id) }
{
    // For the proof: the store is named by the conditions alone.
    let _ = store;
    let set = &sets[id as usize];
    automaton.finals().iter().any(|state| set.contains(*state))
}

// The states to which a term runs, from those of its arguments.
fn states_of(
    alloc: Global,
    automaton: &Automaton,
    store: &Store,
    sets: &[StateSet],
    id: u32,
) -> Result<StateSet, AllocError>
    requires sets { AreStateSets automaton.now store.now sets.now }
    requires there { id < length store.now }
    requires args { id ≤ length sets.now }
    ensures { IfOk result (λ set. (q : ℕ) → Contains set q ↔ Runs automaton.now (config_of (term_at store.now id)) q) }
{
    let (sym, args) = store.node(id);
    let set = targets_of(alloc, automaton, sym, args, sets)?;
    automaton.closure_of(&set)
}

// The targets of the symbol's transitions from states of the arguments.
fn targets_of(
    alloc: Global,
    automaton: &Automaton,
    sym: u32,
    args: &[u32],
    sets: &[StateSet],
) -> Result<StateSet, AllocError>
    requires { All (λ a. a < length sets.now) args.now }
    ensures exact { IfOk result (λ set. (q : ℕ) →
        Contains set q ↔ HasTransInto automaton.now.trans sym (sets_at sets.now args.now) q) }
    ensures inside { IfOk result (All (Contains automaton.now.states)) }
{
    let mut targets = Vec::new(alloc);
    for t in automaton.trans_with(sym) {
        if are_members(t.args.as_slice(), args, sets) {
            targets.push(t.to)?;
        }
    }
    StateSet::from_states(alloc, targets)
}

// Whether each state is a member of the set of the term at its place, and there are as many of both.
fn are_members(states: &[u32], args: &[u32], sets: &[StateSet]) -> bool
    requires { All (λ a. a < length sets.now) args.now }
    ensures { IsTrue result ↔ AllZip Contains (sets_at sets.now args.now) states.now }
{
    if states.len() != args.len() {
        return false;
    }
    for i in 0..states.len() {
        if !sets[args[i] as usize].contains(states[i]) {
            return false;
        }
    }
    true
}
