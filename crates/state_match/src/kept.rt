//! A pattern whose subterms keep their states from one assignment to the next.
ghost use Rattle.std.specs.Prelude.{◌≡◌, ◌↔◌, ◌<◌, ◌+◌, ◌-◌, ℕ, true, [], length, take, get_or, Contains, IfOk};
ghost use Rattle.std.specs.Ordering.{nat_cmp};
ghost use Rattle.std.specs.List.Sorted.{IsStrictlySortedBy};
ghost use Rattle.ranked_terms.specs.Terms.{assigned};
ghost use Rattle.ta_core.specs.Closure.{state_in};
ghost use Rattle.ta_core.specs.Runs.{Runs};
ghost use Rattle.state_match.specs.Sides.{side_of};

use crate::known::Known;
use crate::matcher::Matcher;
use crate::missed::outside;
use crate::nodes::{Node, nodes_of};
use crate::renew::{renew, same_front};
use crate::rows::no_states;
use ranked_terms::Pattern;
use std::alloc::{AllocError, Global};
use std::marker::Model;

/// A pattern for many assignments of states to its variables. Each subterm keeps its states from one assignment to the next
/// while the states of its variables, and of the variables before these, stay. Contracts see the automaton, the variables and
/// the pattern.
#[derive(Drop)]
pub struct Kept<'a> {
    matcher: &'a Matcher<'a>,
    vars: &'a [u32],
    pattern: &'a Pattern,
    nodes: Vec<Node>,
    values: Vec<Known>,
    // Whether the values are those for the last assignment.
    is_known: bool,
    last: Vec<u32>,
}

impl<'a> Model for Kept<'a> {
    ghost use Rattle.std.specs.Coded.{codes};
    ghost use Rattle.ranked_terms.specs.contracts.term.Pattern as patterns;
    ghost use Rattle.state_match.specs.Kepts.{IsKept};
    ghost use Rattle.state_match.specs.Sides.{Side, side_of};

    ghost Value = { Side };

    ghost coded = { Prim.hlevel (codes, patterns.the_row.coded) };

    ghost view = { λ kept. side_of kept.matcher.now kept.vars.now kept.pattern.now };

    ghost invariant = { λ kept. IsKept (side_of kept.matcher.now kept.vars.now kept.pattern.now)
        kept.nodes.items kept.values.items kept.is_known kept.last.items };
}

impl<'a> Kept<'a> {
    /// The pattern with these variables. The only error is running out of memory.
    pub fn new(
        matcher: &'a Matcher<'a>,
        vars: &'a [u32],
        pattern: &'a Pattern,
    ) -> Result<Kept<'a>, AllocError>
        ensures { IfOk result (λ kept. kept ≡ side_of matcher.now vars.now pattern.now) }
    {
        let alloc = matcher.alloc();
        let nodes = nodes_of(alloc, matcher.tabled(), vars, pattern)?;
        let values = nothing_known(alloc, nodes.len())?;
        Ok(Kept {
            matcher,
            vars,
            pattern,
            nodes,
            values,
            is_known: false,
            last: Vec::new(alloc),
        })
    }

    /// Those of the states to which the pattern doesn't run with the assignment's states for its variables, both in the same
    /// order; in ascending order where the states are. A variable that is none of its variables stands for the state behind
    /// theirs, and one for which there is no state for 0. The only error is running out of memory.
    pub fn missed_states(
        &mut self,
        assignment: &[u32],
        states: &[u32],
    ) -> Result<Vec<u32>, AllocError>
        ensures same { self.new ≡ self.old }
        ensures members { IfOk result (λ missed. (q : ℕ) → Contains missed.items q ↔ (Contains states.now q
            × (Runs self.old.automaton (assigned (state_in self.old.vars assignment.now) self.old.pattern) q → ⊥))) }
        ensures order { IsStrictlySortedBy nat_cmp states.now →
            IfOk result (λ missed. IsStrictlySortedBy nat_cmp missed.items) }
    {
        let alloc = self.matcher.alloc();
        let staying = staying(self.is_known, self.last.as_slice(), assignment);
        self.is_known = false;
        renew(
            alloc,
            self.matcher.tabled(),
            self.matcher.all(),
            self.nodes.as_slice(),
            assignment,
            staying,
            &mut self.values,
        )?;
        self.last = copied(alloc, assignment)?;
        self.is_known = true;
        outside(alloc, states, last_of(self.values.as_slice()))
    }
}

/// One more than the number of first states that stay, and 0 where nothing is known.
fn staying(is_known: bool, last: &[u32], next: &[u32]) -> usize
    ensures { 0 < result → (is_known ≡ true) × (n : ℕ) × (result ≡ n + 1) × (take n last.now ≡ take n next.now) }
{
    if !is_known {
        return 0;
    }
    same_front(last, next) + 1
}

/// So many sets of which nothing is known. The only error is running out of memory.
fn nothing_known(alloc: Global, count: usize) -> Result<Vec<Known>, AllocError>
    ensures { IfOk result (λ sets. length sets.items ≡ count) }
{
    let mut sets = Vec::new(alloc);
    for _ in 0..count {
        let none = no_states(alloc)?;
        sets.push(Known::listed(none))?;
    }
    Ok(sets)
}

/// The same states. The only error is running out of memory.
fn copied(alloc: Global, states: &[u32]) -> Result<Vec<u32>, AllocError>
    ensures { IfOk result (λ copy. copy.items ≡ states.now) }
{
    let mut copy = Vec::new(alloc);
    copy.extend_from_slice(states)?;
    Ok(copy)
}

/// The last of the sets.
fn last_of(sets: &[Known]) -> &Known
    requires { 0 < length sets.now }
    ensures { result.now ≡ get_or sets.now (length sets.now - 1) [] }
{
    &sets[sets.len() - 1]
}
