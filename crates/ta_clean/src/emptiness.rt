//! The states to which ground terms run.
ghost use Rattle.std.specs.Prelude.{◌↔◌, ℕ, [], IsTrue, IfOk, OnOk, Contains, All};
ghost use Rattle.ta_core.specs.Meeting.{Meets};
ghost use Rattle.ta_clean.specs.Tables.{IsMarked};
ghost use Rattle.ta_clean.specs.Productive.{IsProductive, IsEmpty, HasAllTerms};

use crate::meeting::Meetings;
use std::alloc::{AllocError, Global};
use ta_core::{Automaton, StateSet, Trans};

/// The states to which some ground term runs. The only error is running out of memory.
pub fn productive(alloc: Global, automaton: &Automaton) -> Result<StateSet, AllocError>
    ensures { IfOk result (λ all. (q : ℕ) → Contains all q ↔ IsProductive automaton.now q) }
{
    let states = productive_states(alloc, automaton)?;
    StateSet::from_states(alloc, states)
}

/// As `productive`, but as a list. The only error is running out of memory.
fn productive_states(alloc: Global, automaton: &Automaton) -> Result<Vec<u32>, AllocError>
    ensures { IfOk result (λ states. (q : ℕ) → Contains states.items q ↔ IsProductive automaton.now q) }
{
    let all = all_terms(alloc, automaton.trans())?;
    states_met(alloc, automaton, &all)
}

/// The automaton's states to which a ground term runs that runs to the state 0 of the other automaton too. The only error is
/// running out of memory.
fn states_met(
    alloc: Global,
    automaton: &Automaton,
    other: &Automaton,
) -> Result<Vec<u32>, AllocError>
    ensures { IfOk result (λ states. (q : ℕ) →
        Contains states.items q ↔ (Contains automaton.now.states q × Meets automaton.now other.now (q, 0))) }
{
    let mut meetings = Meetings::new(alloc, automaton, other)?;
    meetings.mark(automaton, other);
    marked_states(alloc, &meetings, automaton.states())
}

/// Those of the states that are marked with the state 0. The only error is running out of memory.
fn marked_states(alloc: Global, meetings: &Meetings, states: &[u32]) -> Result<Vec<u32>, AllocError>
    ensures { IfOk result (λ all. (q : ℕ) → Contains all.items q ↔ (Contains states.now q × IsMarked meetings.now.table (q, 0))) }
{
    let mut all = Vec::new(alloc);
    for state in states {
        if meetings.contains(*state, 0) {
            all.push(*state)?;
        }
    }
    Ok(all)
}

/// Whether the automaton accepts no ground term. The only error is running out of memory.
pub fn is_empty(alloc: Global, automaton: &Automaton) -> Result<bool, AllocError>
    ensures { IfOk result (λ yes. IsTrue yes ↔ IsEmpty automaton.now) }
{
    let all = productive(alloc, automaton)?;
    Ok(has_none(&all, automaton.finals()))
}

/// Whether none of the states is a member.
fn has_none(set: &StateSet, states: &[u32]) -> bool
    ensures { IsTrue result ↔ All (λ q. ¬ Contains set.now q) states.now }
{
    states.iter().all(|state| !set.contains(*state))
}

/// An automaton of one state, which is final, to which each ground term runs over the symbols of the transitions, with as many
/// arguments as there. The only error is running out of memory.
pub(crate) fn all_terms(alloc: Global, trans: &[Trans]) -> Result<Automaton, AllocError>
    ensures { IfOk result (HasAllTerms trans.now) }
{
    let mut all = Automaton::with_states(alloc, 1, &[0])?;
    let _ = all.set_final(0)?;
    add_over_zero(alloc, &mut all, trans)?;
    Ok(all)
}

/// Adds, for each of the transitions, one of its symbol from the state 0, as often as it has arguments, to that state. The only
/// error is running out of memory.
fn add_over_zero(alloc: Global, all: &mut Automaton, trans: &[Trans]) -> Result<(), AllocError>
    requires { HasAllTerms [] all.old }
    ensures { OnOk result (HasAllTerms trans.now all.new) }
{
    for t in trans {
        let zeros = vec![in alloc; 0_u32; t.args.as_slice().len()]?;
        let _ = all.add_trans(t.sym, zeros.as_slice(), 0)?;
    }
    Ok(())
}
