//! Transitions by symbol and first arguments, found by binary search, and the states that stand next in them.
ghost use Rattle.std.specs.Prelude.{◌≡◌, ◌≤◌, ◌↔◌, ℕ, suc, [], length, take, drop, get_or, Contains, IsTrue, IfOk, IfSome, OnOk};
ghost use Rattle.std.specs.List.Sorted.{IsStrictlySortedBy, IsNonDecreasingBy};
ghost use Rattle.ta_core.specs.TreeAutomaton.{trans_cmp};
ghost use Rattle.ta_core.specs.declared.trans.Trans.{Trans as Transition};
ghost use Rattle.state_match.specs.Rows.{key_of, AreAlike, Fits, FitsFrom, HasNext, IsNextAt};

use crate::known::Known;
use std::alloc::{AllocError, Global};
use ta_core::{StateSet, Trans};

/// The states that stand next in those transitions of the symbol whose first arguments are members of these sets and whose
/// next ones, from that state on, are members of the others, which have so many arguments and lead to a wanted state. The only
/// error is running out of memory.
pub(crate) fn next_states(
    alloc: Global,
    trans: &[Trans],
    sym: u32,
    sets: &[Known],
    others: &[Known],
    arity: usize,
    wanted: &StateSet,
) -> Result<StateSet, AllocError>
    requires { IsStrictlySortedBy trans_cmp trans.now }
    ensures { IfOk result (λ all. (x : ℕ) → Contains all x ↔ IsNextAt trans.now sym sets.now others.now arity wanted.now x) }
{
    let rows = with_symbol(trans, sym);
    let mut found = Vec::new(alloc);
    add_next(rows, 0, sets, others, arity, wanted, &mut found)?;
    StateSet::from_states(alloc, found)
}

/// Adds the states that stand next. The members of the set at the place are tried, or the transitions are gone over where these
/// are fewer.
fn add_next(
    rows: &[Trans],
    place: usize,
    sets: &[Known],
    others: &[Known],
    arity: usize,
    wanted: &StateSet,
    found: &mut Vec<u32>,
) -> Result<(), AllocError>
    requires within { place ≤ length sets.now }
    requires sorted { IsStrictlySortedBy trans_cmp rows.now }
    requires alike { AreAlike place rows.now }
    ensures { OnOk result
        (HasNext found.old.items rows.now place (drop place sets.now) others.now arity wanted.now found.new.items) }
{
    if place == sets.len() {
        return add_each(rows, place, sets, others, arity, wanted, found);
    }
    let set = &sets[place];
    let Some(list) = fewer_than(set, rows.len()) else {
        return add_each(rows, place, sets, others, arity, wanted, found);
    };
    for state in list {
        let fewer = rows_at(rows, place, *state);
        add_next(fewer, place + 1, sets, others, arity, wanted, found)?;
    }
    Ok(())
}

/// The members of the set, where they are listed and are fewer than so many.
fn fewer_than(set: &Known, count: usize) -> Option<&[u32]>
    ensures { IfSome result (λ list. list.now ≡ set.now) }
{
    let list = set.list()?;
    if list.len() >= count {
        return None;
    }
    Some(list)
}

/// Adds the states that stand next, transition by transition.
fn add_each(
    rows: &[Trans],
    place: usize,
    sets: &[Known],
    others: &[Known],
    arity: usize,
    wanted: &StateSet,
    found: &mut Vec<u32>,
) -> Result<(), AllocError>
    requires { place ≤ length sets.now }
    ensures { OnOk result
        (HasNext found.old.items rows.now place (drop place sets.now) others.now arity wanted.now found.new.items) }
{
    for t in rows {
        if is_wanted(t, place, sets, others, arity, wanted) {
            found.push(next_at(t, sets.len()))?;
        }
    }
    Ok(())
}

/// Whether the transition has so many arguments and leads to a wanted state, and its arguments from the place on are members of
/// the sets from there on, and then of the others.
fn is_wanted(
    t: &Trans,
    place: usize,
    sets: &[Known],
    others: &[Known],
    arity: usize,
    wanted: &StateSet,
) -> bool
    requires { place ≤ length sets.now }
    ensures { IsTrue result ↔ Fits place (drop place sets.now) others.now arity wanted.now t.now }
{
    let args = t.args.as_slice();
    if args.len() != arity {
        return false;
    }
    if !wanted.contains(t.to) {
        return false;
    }
    fit_from(args, place, &sets[place..]) && fit_from(args, sets.len(), others)
}

/// Whether the arguments from the place on are members of these sets.
fn fit_from(args: &[u32], place: usize, sets: &[Known]) -> bool
    ensures { IsTrue result ↔ FitsFrom place sets.now args.now }
{
    if sets.is_empty() {
        return true;
    }
    if place >= args.len() {
        return false;
    }
    if !sets[0].contains(args[place]) {
        return false;
    }
    fit_from(args, place + 1, &sets[1..])
}

/// The state at the place: an argument, or behind the last one the target.
fn next_at(t: &Trans, place: usize) -> u32
    ensures { result ≡ get_or t.now.args place t.now.to }
{
    match t.args.as_slice().get(place) {
        Some(state) => *state,
        None => t.to,
    }
}

/// One more than the argument at the place, and 0 behind the last one.
fn key_at(t: &Trans, place: usize) -> u64
    ensures { result ≡ key_of place t.now.args }
{
    let args = t.args.as_slice();
    if place < args.len() {
        u64::from(args[place]) + 1
    } else {
        0
    }
}

/// The transitions with the state as the argument at the place.
fn rows_at(rows: &[Trans], place: usize, state: u32) -> &[Trans]
    requires sorted { IsStrictlySortedBy trans_cmp rows.now }
    requires rising { IsNonDecreasingBy (λ (t : Transition). key_of place t.args) rows.now }
    ensures members { (t : Transition) → Contains result.now t ↔ (Contains rows.now t × (key_of place t.args ≡ suc state)) }
    ensures sorted { IsStrictlySortedBy trans_cmp result.now }
{
    let key = u64::from(state) + 1;
    let start = rows.partition_point(|t| key_at(t, place) < key);
    let rest = &rows[start..];
    let count = rest.partition_point(|t| key_at(t, place) <= key);
    &rest[..count]
}

/// The transitions of the symbol.
fn with_symbol(rows: &[Trans], sym: u32) -> &[Trans]
    requires { IsStrictlySortedBy trans_cmp rows.now }
    ensures members { (t : Transition) → Contains result.now t ↔ (Contains rows.now t × (t.sym ≡ sym)) }
    ensures sorted { IsStrictlySortedBy trans_cmp result.now }
{
    let start = rows.partition_point(|t| t.sym < sym);
    let rest = &rows[start..];
    let count = rest.partition_point(|t| t.sym <= sym);
    &rest[..count]
}

/// The empty set. The only error is running out of memory.
#[tactic(auto, using(crate::proofs::members::Members::nothing_ascends))]
pub(crate) fn no_states(alloc: Global) -> Result<StateSet, AllocError>
    ensures { IfOk result (λ all. all ≡ []) }
{
    StateSet::from_slice(alloc, &[])
}
