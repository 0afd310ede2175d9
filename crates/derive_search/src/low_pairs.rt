//! The pairs of a state and a term of bounded height that runs to it, with the terms by their identities.
ghost use Rattle.std.specs.Prelude.{◌≡◌, ◌≤◌, ◌<◌, ◌⊎◌, ◌↔◌, ℕ, Bool, false, [], length, drop, slice_index_or, All, Contains};
ghost use Rattle.std.specs.Prelude.{IfOk, IsTrue, OnOk};
ghost use Rattle.std.specs.Prelude.{MatchBool, MatchOption};
ghost use Rattle.std.specs.List.Sorted.{IsNonDecreasingBy};
ghost use Rattle.ranked_terms.specs.Terms.{size_of};
ghost use Rattle.term_store.specs.Store.{term_at, applied, Keeps};
ghost use Rattle.derive_search.specs.LowPairs.{AddsPair, ArePlaced, Grows, HasEach, IsChosen, IsLargeChoice, AreKnown, IsGrouped};
ghost use Rattle.derive_search.specs.LowPairs.{IsMadeBy, LacksOne, IsNextRound, MakesLarge, named_pairs, AreOldFirst, mark};
ghost use Rattle.derive_search.specs.Made.{IsMade};
ghost use Rattle.derive_search.specs.Starts.{AreTooMany};
ghost use Rattle.derive_search.specs.LowPairs.{AreLowPairs};

use crate::known::grouped;
use indexmap::IndexSet;
use ranked_terms::Seq;
use std::alloc::{AllocError, Global};
use ta_core::{Automaton, Trans};
use term_store::Store;

/// All pairs of a state and a term of at most the height that runs to it, each once; `None` exactly where there are more
/// than the limit, or one of the terms has more than 1,024 symbols. Each transition is tried once for each choice of terms
/// for its arguments. The only error is running out of memory.
pub(crate) fn low_pairs(
    alloc: Global,
    store: &mut Store,
    automaton: &Automaton,
    height: u32,
    limit: usize,
) -> Result<Option<IndexSet<(u32, u32)>>, AllocError>
    ensures kept { IfOk result (λ o. Keeps store.old store.new) }
    ensures pairs { IfOk result (λ o. MatchOption o (AreTooMany automaton.now height limit)
        (λ pairs. AreLowPairs automaton.now height limit store.new pairs.keys)) }
{
    let _ = automaton.next();
    let mut pairs = IndexSet::new(alloc);
    let mut first = 0;
    for round in 0..height {
        let end = pairs.len();
        let within = add_next(
            alloc,
            store,
            automaton,
            &mut pairs,
            first,
            round == 0,
            limit,
        )?;
        // For the proof: no two terms of the store are equal, and no pair stands twice.
        let (_terms, _pairs) = (store.len(), pairs.len());
        if !within {
            return Ok(None);
        }
        first = end;
    }
    // For the proof: the same, where there is no round.
    let (_terms, _pairs) = (store.len(), pairs.len());
    Ok(Some(pairs))
}

// Adds a pair, unless it is there.
fn add_pair(pairs: &mut IndexSet<(u32, u32)>, state: u32, id: u32) -> Result<(), AllocError>
    ensures { OnOk result (AddsPair (state, id) pairs.old.keys pairs.new.keys) }
{
    let _ = pairs.insert((state, id))?;
    Ok(())
}

// Adds a term with each of these states; false once there are more than the limit.
fn add_states(
    pairs: &mut IndexSet<(u32, u32)>,
    states: &[u32],
    store: &Store,
    id: u32,
    limit: usize,
) -> Result<bool, AllocError>
    requires there { id < length store.now }
    requires few { length pairs.old.keys ≤ limit }
    ensures grows { IfOk result (λ o. Grows store.now store.now pairs.old.keys pairs.new.keys
        (λ pair. Contains states.now pair.0 × (pair.1 ≡ term_at store.now id))) }
    ensures all { IfOk result (λ within. MatchBool within
        (HasEach store.now pairs.new.keys (λ pair. Contains states.now pair.0 × (pair.1 ≡ term_at store.now id))
        × (length pairs.new.keys ≤ limit))
        (limit < length pairs.new.keys)) }
{
    // For the proof: the store is named by the conditions alone.
    let _ = store;
    for state in states {
        add_pair(pairs, *state, id)?;
        if limit < pairs.len() {
            return Ok(false);
        }
    }
    Ok(true)
}

// Adds the term of the symbol over these terms with each of these states; false where it is large, or there are more than
// the limit.
fn add_made(
    store: &mut Store,
    pairs: &mut IndexSet<(u32, u32)>,
    sym: u32,
    ids: &[u32],
    states: &[u32],
    limit: usize,
) -> Result<bool, AllocError>
    requires ids { All (λ a. a < length store.old) ids.now }
    requires few { length pairs.old.keys ≤ limit }
    ensures grows { IfOk result (λ o. Grows store.old store.new pairs.old.keys pairs.new.keys
        (λ pair. Contains states.now pair.0 × (pair.1 ≡ applied store.old sym ids.now))) }
    ensures all { IfOk result (λ within. MatchBool within
        (HasEach store.new pairs.new.keys (λ pair. Contains states.now pair.0 × (pair.1 ≡ applied store.old sym ids.now))
        × (length pairs.new.keys ≤ limit))
        ((limit < length pairs.new.keys) ⊎ (1024 < size_of (applied store.old sym ids.now)))) }
{
    let Some(id) = store.make(sym, ids)? else {
        return Ok(false);
    };
    let within = add_states(pairs, states, store, id, limit)?;
    Ok(within)
}

// The place of the first candidate that is tried: of the first one, or of the first that is marked.
fn first_tried(candidates: &[(u32, bool)], all: bool) -> usize
    requires { IsNonDecreasingBy mark candidates.now }
    ensures { (k : ℕ) (d : ℕ × Bool) → k < result → (all ≡ false) × ((slice_index_or candidates.now k d).1 ≡ false) }
{
    if all {
        return 0;
    }
    candidates.partition_point(|candidate| !candidate.1)
}

// Adds what the transition makes of what was chosen and each choice for the other arguments that is not one of older terms
// alone; false where a term is large, or there are more than the limit. It goes as deep as there are arguments. Where only
// the last argument can make a choice one that is tried, its older terms are left out.
fn combine(
    store: &mut Store,
    pairs: &mut IndexSet<(u32, u32)>,
    chosen: &mut Vec<u32>,
    fresh: bool,
    t: &Trans,
    states: &[u32],
    known: &[Seq<(u32, bool)>],
    limit: usize,
) -> Result<bool, AllocError>
    requires chosen { All (λ a. a < length store.old) chosen.old.items }
    requires place { length chosen.old.items ≤ length t.now.args }
    requires below { All (λ q. q < length known.now) t.now.args }
    requires known { AreKnown store.old known.now }
    requires ordered { AreOldFirst known.now }
    requires placed { ArePlaced store.old pairs.old.keys }
    requires few { length pairs.old.keys ≤ limit }
    ensures chosen { IfOk result (λ o. chosen.new.items ≡ chosen.old.items) }
    ensures grows { IfOk result (λ o. Grows store.old store.new pairs.old.keys pairs.new.keys
        (IsChosen store.old t.now.sym chosen.old.items known.now fresh (drop (length chosen.old.items) t.now.args) states.now)) }
    ensures all { IfOk result (λ within. MatchBool within
        (HasEach store.new pairs.new.keys
        (IsChosen store.old t.now.sym chosen.old.items known.now fresh (drop (length chosen.old.items) t.now.args) states.now)
        × (length pairs.new.keys ≤ limit))
        ((limit < length pairs.new.keys)
        ⊎ IsLargeChoice store.old t.now.sym chosen.old.items known.now fresh (drop (length chosen.old.items) t.now.args))) }
{
    let args = t.args.as_slice();
    let place = chosen.as_slice().len();
    if place == args.len() {
        if !fresh {
            return Ok(true);
        }
        let within = add_made(store, pairs, t.sym, chosen.as_slice(), states, limit)?;
        return Ok(within);
    }
    let candidates = known[args[place] as usize].as_slice();
    let start = first_tried(candidates, fresh | (place + 1 < args.len()));
    for k in start..candidates.len() {
        let (id, new) = candidates[k];
        chosen.push(id)?;
        let within = combine(store, pairs, chosen, fresh | new, t, states, known, limit)?;
        chosen.truncate(place);
        if !within {
            return Ok(false);
        }
    }
    Ok(true)
}

// Adds what the transition makes of each choice for its arguments that is not one of older terms alone; false where a term
// is large, or there are more than the limit.
fn add_all_of(
    alloc: Global,
    store: &mut Store,
    pairs: &mut IndexSet<(u32, u32)>,
    fresh: bool,
    automaton: &Automaton,
    t: &Trans,
    known: &[Seq<(u32, bool)>],
    limit: usize,
) -> Result<bool, AllocError>
    requires below { All (λ q. q < length known.now) t.now.args }
    requires known { AreKnown store.old known.now }
    requires ordered { AreOldFirst known.now }
    requires placed { ArePlaced store.old pairs.old.keys }
    requires few { length pairs.old.keys ≤ limit }
    ensures grows { IfOk result (λ o. Grows store.old store.new pairs.old.keys pairs.new.keys
        (IsMadeBy automaton.now store.old known.now fresh t.now)) }
    ensures all { IfOk result (λ within. MatchBool within
        (HasEach store.new pairs.new.keys (IsMadeBy automaton.now store.old known.now fresh t.now)
        × (length pairs.new.keys ≤ limit))
        ((limit < length pairs.new.keys) ⊎ IsLargeChoice store.old t.now.sym [] known.now fresh t.now.args)) }
{
    if lacks_one(t.args.as_slice(), known) {
        return Ok(true);
    }
    let reached = automaton.eps_closure(t.to)?;
    let mut chosen = Vec::new(alloc);
    let within = combine(
        store,
        pairs,
        &mut chosen,
        fresh,
        t,
        reached.as_slice(),
        known,
        limit,
    )?;
    Ok(within)
}

// Whether one of these states has no identity.
fn lacks_one(states: &[u32], known: &[Seq<(u32, bool)>]) -> bool
    requires { All (λ q. q < length known.now) states.now }
    ensures { IsTrue result → LacksOne known.now states.now }
{
    for state in states {
        if known[*state as usize].is_empty() {
            return true;
        }
    }
    false
}

// Adds whatever the transitions make of pairs that are there, of which those before a place were there a round earlier and
// have been combined, unless it is the first round; false where a term is large, or there are more than the limit.
fn add_next(
    alloc: Global,
    store: &mut Store,
    automaton: &Automaton,
    pairs: &mut IndexSet<(u32, u32)>,
    first: usize,
    is_first_round: bool,
    limit: usize,
) -> Result<bool, AllocError>
    requires states { All (λ p. p.0 < automaton.now.next) pairs.old.keys }
    requires placed { ArePlaced store.old pairs.old.keys }
    requires few { length pairs.old.keys ≤ limit }
    ensures grows { IfOk result (λ o. Grows store.old store.new pairs.old.keys pairs.new.keys
        (IsMade automaton.now (named_pairs store.old pairs.old.keys))) }
    ensures all { IfOk result (λ within. MatchBool within
        (IsNextRound automaton.now store.old pairs.old.keys first is_first_round store.new pairs.new.keys
        × (length pairs.new.keys ≤ limit))
        ((limit < length pairs.new.keys) ⊎ MakesLarge automaton.now (named_pairs store.old pairs.old.keys))) }
{
    if !is_first_round && first == pairs.len() {
        return Ok(true);
    }
    let known = grouped(alloc, automaton.next(), pairs, first)?;
    for t in automaton.trans() {
        if !add_all_of(
            alloc,
            store,
            pairs,
            is_first_round,
            automaton,
            t,
            known.as_slice(),
            limit,
        )? {
            return Ok(false);
        }
    }
    Ok(true)
}
