//! The states of a pattern's subterms, computed anew where their variables don't stay.
ghost use Rattle.std.specs.Prelude.{◌≡◌, ◌↔◌, ◌≤◌, ◌<◌, ℕ, length, take, get_or, set, Contains, IfOk, OnOk};
ghost use Rattle.state_match.specs.Kepts.{HasPatterns, Renews, RunsFrom, end_of};

use crate::join::{applied, one_state};
use crate::known::Known;
use crate::nodes::{Node, Source};
use crate::tabled::Tabled;
use std::alloc::{AllocError, Global};
use ta_core::StateSet;

/// Computes the states of each subterm whose variables don't all stand among the first ones that stay, of which there is one
/// less than `staying`; where that is 0 nothing is known yet, and all are computed. The only error is running out of memory.
pub(crate) fn renew(
    alloc: Global,
    automaton: &Tabled,
    all: &StateSet,
    nodes: &[Node],
    assignment: &[u32],
    staying: usize,
    values: &mut Vec<Known>,
) -> Result<(), AllocError>
    requires all { all.now ≡ automaton.now.states }
    requires table { HasPatterns nodes.now }
    requires long { length values.old.items ≡ length nodes.now }
    ensures exact { OnOk result (Renews automaton.now assignment.now staying nodes.now values.old.items values.new.items) }
    ensures long { length values.new.items ≡ length values.old.items }
{
    for place in 0..nodes.len() {
        let node = &nodes[place];
        if node.until >= staying {
            let states = node_states(alloc, automaton, all, node, assignment, values.as_slice())?;
            replace(values, place, states);
        }
    }
    Ok(())
}

/// Puts the states in place of those that stand there.
fn replace(values: &mut Vec<Known>, place: usize, states: Known)
    requires { place < length values.old.items }
    ensures { values.new.items ≡ set values.old.items place states }
{
    values[place] = states;
}

/// The states of the subterm, from those of its arguments. The only error is running out of memory.
fn node_states(
    alloc: Global,
    automaton: &Tabled,
    all: &StateSet,
    node: &Node,
    assignment: &[u32],
    values: &[Known],
) -> Result<Known, AllocError>
    requires all { all.now ≡ automaton.now.states }
    requires within { end_of node.now.source ≤ length values.now }
    ensures { IfOk result (λ set. (q : ℕ) → Contains set q ↔ RunsFrom automaton.now assignment.now values.now node.now.source q) }
{
    let set = source_states(alloc, automaton, all, node.source, assignment, values)?;
    set.listed_if(alloc, node.is_listed)
}

/// The states that come from there. The only error is running out of memory.
fn source_states(
    alloc: Global,
    automaton: &Tabled,
    all: &StateSet,
    source: Source,
    assignment: &[u32],
    values: &[Known],
) -> Result<Known, AllocError>
    requires all { all.now ≡ automaton.now.states }
    requires within { end_of source ≤ length values.now }
    ensures { IfOk result (λ set. (q : ℕ) → Contains set q ↔ RunsFrom automaton.now assignment.now values.now source q) }
{
    match source {
        Source::Variable(place) => {
            let state = one_state(alloc, all, state_at(assignment, place))?;
            automaton.closed(state)
        }
        Source::Application(sym, start, count) => {
            applied(alloc, automaton, all, sym, &values[start..start + count])
        }
    }
}

/// The state at the place, and 0 where there is none.
fn state_at(assignment: &[u32], place: usize) -> u32
    ensures { result ≡ get_or assignment.now place 0 }
{
    if place < assignment.len() {
        assignment[place]
    } else {
        0
    }
}

/// How many first states are the same in both.
pub(crate) fn same_front(last: &[u32], next: &[u32]) -> usize
    ensures same { take result last.now ≡ take result next.now }
    ensures few { result ≤ length last.now }
{
    for place in 0..last.len() {
        if place >= next.len() || last[place] != next[place] {
            return place;
        }
    }
    last.len()
}
