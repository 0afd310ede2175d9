//! Whether an automaton is closed under the rules.
//!
//! The assignments of a rule are gone over in their order, by a state for one variable after the other; a state with which
//! the left side can no longer run is passed over with all that would go on from it. So the first open pair that comes up is
//! the first of all.
ghost use Rattle.std.specs.Prelude.{◌≡◌, ◌≢◌, ◌↔◌, ◌<◌, ◌≤◌, ◌+◌, ◌^◌, ℕ, List, [], ◌∷◌, ◌++◌, length, map};
ghost use Rattle.std.specs.Prelude.{All, Contains, IsTrue, true, false, IfSome, IfNone};
ghost use Rattle.arrayvec.specs.ArrayVec.{array_vec_len};
ghost use Rattle.ta_core.specs.Closure.{Closed, IsFirstOpen};
ghost use Rattle.closure_check.specs.Rooms.{sets_of, sets_of_sides, sets_of_rules};
ghost use Rattle.list_laws.specs.Listings.{IsFirst};
ghost use Rattle.closure_check.specs.Marking.{Marked, HasRoom};
ghost use Rattle.closure_check.specs.Searching.{IsApart, IsShared, OpensFirst, Settles, with_states, going_on};

use crate::candidates::find_candidates;
use crate::marks::Marks;
use crate::prepared::Prepared;
use crate::running::{has_state, run_pattern};
use arrayvec::ArrayVec;
use std::alloc::Global;
use ta_core::laws::closed_automata_have_no_open_pair;
use trs_rules::{Pair, Rule, Sigma};

/// The first open pair of the rules.
pub(crate) fn first_open(
    alloc: Global,
    sets: &mut [Marks],
    automaton: &Prepared,
    rules: &[Rule],
) -> Option<Pair>
    requires few { length rules.now < 2 ^ 32 }
    requires enough { sets_of_rules rules.now ≤ length sets.old }
    requires room { All (HasRoom automaton.now) sets.old }
    ensures some { IfSome result (IsFirstOpen automaton.now rules.now) }
    ensures none { IfNone result (Closed automaton.now rules.now) }
    ensures sizes { map (λ (set : Marked). set.size) sets.new ≡ map (λ (set : Marked). set.size) sets.old }
{
    // For the proof: an automaton without an open pair is closed.
    closed_automata_have_no_open_pair();
    // For the proof: its contract says what holds of every automaton.
    let _ = automaton.states();
    let mut number = 0;
    for rule in rules {
        let mut states = ArrayVec::new();
        let more = rule.vars().len();
        if let Some(state) = first_open_from(sets, automaton, rule, &mut states, more) {
            let sigma = Sigma::from_slice(alloc, states.as_slice());
            return Some(Pair {
                rule: number,
                sigma,
                state,
            });
        }
        number += 1;
    }
    None
}

/// The state of the first open pair of the rule whose assignment goes on from these states by so many more. The states are
/// then this assignment; where there is no open pair they are as before.
fn first_open_from(
    sets: &mut [Marks],
    automaton: &Prepared,
    rule: &Rule,
    states: &mut ArrayVec<u32, 16>,
    more: usize,
) -> Option<u32>
    requires few { length states.old.items + more ≤ 16 }
    requires enough { more + sets_of_sides rule.now ≤ length sets.old }
    requires room { All (HasRoom automaton.now) sets.old }
    ensures some { IfSome result
        (λ state. OpensFirst automaton.now rule.now (going_on automaton.now states.old.items more) (states.new.items, state)) }
    ensures none { IfNone result (All (Settles automaton.now rule.now) (going_on automaton.now states.old.items more)) }
    ensures back { IfNone result (states.new.items ≡ states.old.items) }
    ensures short { length states.new.items ≤ 16 }
    ensures sizes { map (λ (set : Marked). set.size) sets.new ≡ map (λ (set : Marked). set.size) sets.old }
{
    // For the proof: its contract says what holds of every automaton.
    let _ = automaton.states();
    if more == 0 {
        return first_open_in(sets, automaton, rule, states.as_slice());
    }
    find_candidates(sets, automaton, rule.left(), rule.vars(), states.as_slice());
    let (candidates, rest) = sets.split_first_mut()?;
    candidates.sort();
    for state in candidates.as_slice() {
        if !has_state(automaton, *state) {
            continue;
        }
        states.push(*state);
        if let Some(found) = first_open_from(rest, automaton, rule, states, more - 1) {
            return Some(found);
        }
        let _ = states.pop();
    }
    None
}

/// The first open state of the rule with this assignment.
fn first_open_in(
    sets: &mut [Marks],
    automaton: &Prepared,
    rule: &Rule,
    states: &[u32],
) -> Option<u32>
    requires left { sets_of rule.now.left ≤ length sets.old }
    requires right { sets_of rule.now.right + 1 ≤ length sets.old }
    requires room { All (HasRoom automaton.now) sets.old }
    ensures some { IfSome result
        (λ state. OpensFirst automaton.now rule.now (with_states automaton.now states.now) (states.now, state)) }
    ensures none { IfNone result (All (Settles automaton.now rule.now) (with_states automaton.now states.now)) }
    ensures sizes { map (λ (set : Marked). set.size) sets.new ≡ map (λ (set : Marked). set.size) sets.old }
{
    run_pattern(sets, automaton, rule.left(), rule.vars(), states);
    let Some((left, rest)) = sets.split_first_mut() else {
        return None;
    };
    run_pattern(rest, automaton, rule.right(), rule.vars(), states);
    let Some(right) = rest.first() else {
        return None;
    };
    first_apart(left, right, automaton)
}

/// The first state that is a member of the one set and not of the other. The one set is left in ascending order.
fn first_apart(left: &mut Marks, right: &Marks, automaton: &Prepared) -> Option<u32>
    ensures some { IfSome result (IsFirst (IsApart left.old.members right.now.members)
        (IsShared left.old.members right.now.members) automaton.now.states) }
    ensures none { IfNone result (All (IsShared left.old.members right.now.members) automaton.now.states) }
    ensures size { left.new.size ≡ left.old.size }
{
    // For the proof: its contract says what holds of every automaton.
    let _ = automaton.states();
    left.sort();
    for state in left.as_slice() {
        if !has_state(automaton, *state) {
            continue;
        }
        let shared = right.contains(*state);
        if !shared {
            return Some(*state);
        }
    }
    None
}
