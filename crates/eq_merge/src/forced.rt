//! The list of forced pairs, of which no more is kept than the pairs of one state.
ghost use Rattle.std.specs.Prelude.{◌≡◌, ◌<◌, ◌++◌, ◌↔◌, ◌⊎◌, ℕ, List, [], length, map, filter, nat_lt, Contains, IfOk, OnOk};
ghost use Rattle.std.specs.List.{slice_get, AllZip};
ghost use Rattle.list_laws.specs.Listings.{IsListing};
ghost use Rattle.std.specs.Ordering.{nat_cmp};
ghost use Rattle.ta_core.specs.declared.trans.Trans.{Trans as Transition};
ghost use Rattle.eq_merge.specs.Merging.{AreForcedPairs};
ghost use Rattle.eq_merge.specs.Ends.{AreEnds};
ghost use Rattle.eq_merge.specs.Rows.{HasMore, LeadsAcross, IsOpposite, AreOpposite};

use crate::ends::{across, ends_of, have_variables, plain_part};
use crate::merging::{each_is_equation, lists_ascend};
use ranked_terms::Seq;
use state_match::Matcher;
use std::alloc::{AllocError, Global};
use ta_core::laws::runs_are_decided;
use ta_core::{Automaton, StateSet, Trans};
use trs_rules::Equation;

/// The number of forced pairs (Genet and Rusu, JSC 2010). The only error is running out of memory.
pub fn forced_count(alloc: Global, a: &Automaton, equations: &[Equation]) -> Result<u64, AllocError>
    ensures { IfOk result (λ count.
        (pairs : List (ℕ × ℕ)) × AreForcedPairs a.now equations.now pairs × (count ≡ length pairs)) }
{
    // For the proof: the equations are such, and the lists of the automaton ascend.
    each_is_equation(equations);
    lists_ascend(a);
    // For the proof: there are few states, so the sum fits.
    let _ = a.next();
    let all = all_ends(alloc, a, equations)?;
    let mut count: u64 = 0;
    for p in a.states() {
        let row = row_of(alloc, all.as_slice(), *p)?;
        count += row.len() as u64;
    }
    Ok(count)
}

/// Member `j`, from 0, of the list of forced pairs, which has the lesser state of each pair first and is in order; none exactly
/// where it has no more than `j`. The only error is running out of memory.
pub fn forced_pair(
    alloc: Global,
    a: &Automaton,
    equations: &[Equation],
    j: u64,
) -> Result<Option<(u32, u32)>, AllocError>
    ensures { IfOk result (λ found.
        (pairs : List (ℕ × ℕ)) × AreForcedPairs a.now equations.now pairs × (found ≡ slice_get pairs j)) }
{
    // For the proof: the equations are such, the lists of the automaton ascend, and there is a list of forced pairs.
    each_is_equation(equations);
    lists_ascend(a);
    runs_are_decided();
    let all = all_ends(alloc, a, equations)?;
    let mut left = j;
    for p in a.states() {
        let row = row_of(alloc, all.as_slice(), *p)?;
        let count = row.len() as u64;
        if left < count {
            return Ok(Some((*p, row.as_slice()[left as usize])));
        }
        left -= count;
    }
    Ok(None)
}

/// The ends of each equation's sides. The only error is running out of memory.
fn all_ends(
    alloc: Global,
    a: &Automaton,
    equations: &[Equation],
) -> Result<Seq<Automaton>, AllocError>
    ensures { IfOk result (λ all. AllZip (AreEnds a.now) equations.now all) }
{
    let plain = plain_part(a)?;
    plain_ends(alloc, &plain, equations)
}

/// As `all_ends`, in an automaton without epsilon transitions.
fn plain_ends(
    alloc: Global,
    plain: &Automaton,
    equations: &[Equation],
) -> Result<Seq<Automaton>, AllocError>
    requires { plain.now.eps ≡ [] }
    ensures { IfOk result (λ all. AllZip (AreEnds plain.now) equations.now all) }
{
    let matcher = Matcher::new(alloc, plain, have_variables(equations))?;
    each_ends(alloc, &matcher, equations)
}

/// As `plain_ends`, in an automaton that is ready for the sides of all equations.
fn each_ends(
    alloc: Global,
    matcher: &Matcher,
    equations: &[Equation],
) -> Result<Seq<Automaton>, AllocError>
    requires { matcher.now.eps ≡ [] }
    ensures { IfOk result (λ all. AllZip (AreEnds matcher.now) equations.now all) }
{
    let mut all = Seq::new(alloc);
    for equation in equations {
        all.push(ends_of(alloc, matcher, equation)?)?;
    }
    Ok(all)
}

/// The states above the state that some end across from it leads to, in ascending order. The only error is running out of memory.
fn row_of(alloc: Global, all: &[Automaton], p: u32) -> Result<Seq<u32>, AllocError>
    ensures { IfOk result (IsListing nat_cmp (λ q. (p < q) × AreOpposite all.now p q)) }
{
    let mut found = Vec::new(alloc);
    for ends in all {
        add_opposites(ends, p, &mut found)?;
    }
    let row = StateSet::from_states(alloc, found)?;
    above(alloc, row.as_slice(), p)
}

/// The states above the state. The only error is running out of memory.
fn above(alloc: Global, states: &[u32], p: u32) -> Result<Seq<u32>, AllocError>
    ensures { IfOk result (λ greater. greater ≡ filter (λ q. nat_lt p q) states.now) }
{
    let mut greater = Seq::new(alloc);
    for q in states {
        if p < *q {
            greater.push(*q)?;
        }
    }
    Ok(greater)
}

/// Adds the states to which the ends across from those of the state lead. The only error is running out of memory.
fn add_opposites(ends: &Automaton, p: u32, found: &mut Vec<u32>) -> Result<(), AllocError>
    ensures { OnOk result ((q : ℕ) → Contains found.new.items q ↔ (Contains found.old.items q ⊎ IsOpposite p ends.now q)) }
{
    for end in ends.trans() {
        add_across(ends, end, p, found)?;
    }
    Ok(())
}

/// Adds the states to which the ends across from this one lead, if it leads to the state. The only error is running out of
/// memory.
fn add_across(ends: &Automaton, end: &Trans, p: u32, found: &mut Vec<u32>) -> Result<(), AllocError>
    ensures { OnOk result ((q : ℕ) →
        Contains found.new.items q ↔ (Contains found.old.items q ⊎ LeadsAcross ends.now p end.now q)) }
{
    if end.to != p {
        return Ok(());
    }
    add_targets(ends.trans_from(across(end.sym), end.args.as_slice()), found)
}

/// Adds the states to which the transitions lead. The only error is running out of memory.
fn add_targets(trans: &[Trans], found: &mut Vec<u32>) -> Result<(), AllocError>
    ensures { OnOk result (found.new.items ≡ found.old.items ++ map (λ (t : Transition). t.to) trans.now) }
{
    for t in trans {
        found.push(t.to)?;
    }
    Ok(())
}
