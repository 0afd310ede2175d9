//! Merges that follow from others. They are looked for near the states that have come into other classes, so that a chain of
//! merges of which each forces the next takes no pass over the whole automaton for each.
ghost use Rattle.std.specs.Prelude.{◌≡◌, ◌<◌, ◌≤◌, ℕ, [], ◌∷◌, ◌++◌, map, All, Contains, IfOk, IfSome};
ghost use Rattle.std.specs.Ordering.{nat_cmp};
ghost use Rattle.std.specs.List.Sorted.{IsStrictlySortedBy};
ghost use Rattle.list_laws.specs.Lists.{IsUnion};
ghost use Rattle.ta_core.specs.Limits.{max_states};
ghost use Rattle.ta_core.specs.TreeAutomaton.{IsTransOf, bare};
ghost use Rattle.ta_core.specs.declared.trans.Trans.{Trans as Transition};
ghost use Rattle.eq_merge.specs.Quotients.{AreLeasts, renamed, apart};
ghost use Rattle.eq_merge.specs.MergingLaws.{IsOnTheWay};
ghost use Rattle.eq_merge.specs.Ends.{AreEquatedBy};
ghost use Rattle.eq_merge.specs.Joined.{Joined};
ghost use Rattle.eq_merge.specs.Passes.{IsFurther, IsJoinedInPart, IsPart};
ghost use Rattle.eq_merge.specs.Rows.{HasMore};

use crate::merging::lists_ascend;
use crate::nearby::Nearby;
use crate::passes::join_equated;
use crate::quotient::renamed_one;
use crate::renaming::Renaming;
use ranked_terms::Seq;
use std::alloc::{AllocError, Global};
use ta_core::{Automaton, StateSet, Trans};
use trs_rules::Equation;

/// Classes that follow from these: what is equated near the states that have come into other classes is put together, and so on
/// from there. The only error is running out of memory.
pub(crate) fn follow(
    alloc: Global,
    automaton: &Automaton,
    equations: &[Equation],
    classes: Renaming,
) -> Result<Renaming, AllocError>
    requires { IsOnTheWay equations.now automaton.now classes }
    ensures { IfOk result (IsFurther equations.now automaton.now classes) }
{
    let mut nearby = Nearby::of(alloc, automaton.trans(), equations, classes.as_slice())?;
    let mut classes = classes;
    for _ in 0..automaton.next() {
        match turn(alloc, automaton, equations, &mut nearby, &classes)? {
            Some(further) => classes = further,
            None => return Ok(classes),
        }
    }
    Ok(classes)
}

/// The classes after what is equated near those that have changed is put together; none where none has changed. The only error is
/// running out of memory.
fn turn(
    alloc: Global,
    automaton: &Automaton,
    equations: &[Equation],
    nearby: &mut Nearby,
    classes: &Renaming,
) -> Result<Option<Renaming>, AllocError>
    requires { IsOnTheWay equations.now automaton.now classes.now }
    ensures { IfOk result (λ found. IfSome found (IsFurther equations.now automaton.now classes.now)) }
{
    // For the proof: the lists of the automaton ascend.
    lists_ascend(automaton);
    let places = nearby.places(automaton.trans(), classes.as_slice())?;
    if places.is_empty() {
        return Ok(None);
    }
    let joined = joined_near(alloc, automaton, equations, classes, places.as_slice())?;
    nearby.join(joined.as_slice())?;
    Ok(Some(classes.followed(alloc, &joined)?))
}

/// The classes of what is equated in the part of the automaton, with these classes for its states, that has the transitions at
/// these places. The contract says so of some part: which one it is decides only how soon merges are found. The only error is
/// running out of memory.
fn joined_near(
    alloc: Global,
    automaton: &Automaton,
    equations: &[Equation],
    classes: &Renaming,
    places: &[usize],
) -> Result<Renaming, AllocError>
    requires { AreLeasts automaton.now classes.now }
    ensures { IfOk result (IsJoinedInPart equations.now automaton.now classes.now) }
{
    let part = part_of(alloc, automaton, classes, places)?;
    joined_in(alloc, &part, equations)
}

/// The classes of what is equated in an automaton. The only error is running out of memory.
fn joined_in(
    alloc: Global,
    automaton: &Automaton,
    equations: &[Equation],
) -> Result<Renaming, AllocError>
    ensures { IfOk result (Joined (AreEquatedBy automaton.now equations.now) (apart automaton.now.next)) }
{
    let mut joined = Renaming::apart(alloc, automaton.next())?;
    join_equated(alloc, automaton, equations, &mut joined)?;
    Ok(joined)
}

/// The part of the automaton, with these classes for its states, that has the transitions at these places. The only error is
/// running out of memory.
fn part_of(
    alloc: Global,
    automaton: &Automaton,
    classes: &Renaming,
    places: &[usize],
) -> Result<Automaton, AllocError>
    requires { AreLeasts automaton.now classes.now }
    ensures { IfOk result (IsPart automaton.now classes.now) }
{
    // For the proof: what the automaton names is a state.
    lists_ascend(automaton);
    let trans = renamed_at(alloc, automaton.trans(), classes, places)?;
    let states = StateSet::from_states(alloc, states_of(alloc, trans.as_slice())?)?;
    between(alloc, automaton.next(), states.as_slice(), trans)
}

/// The automaton with these states and these transitions between them. The only error is running out of memory.
fn between(
    alloc: Global,
    next: u32,
    states: &[u32],
    trans: Seq<Trans>,
) -> Result<Automaton, AllocError>
    requires few { next ≤ max_states }
    requires ascend { IsStrictlySortedBy nat_cmp states.now }
    requires below { All (λ q. q < next) states.now }
    requires inside { All (IsTransOf states.now) trans }
    ensures { IfOk result (λ made.
        IsUnion [] trans made.trans × (made ≡ record (bare next states.now) { trans = made.trans })) }
{
    let mut made = Automaton::with_states(alloc, next, states)?;
    made.add_all_trans(trans)?;
    Ok(made)
}

/// The transitions at these places, with the states that stand for theirs. The only error is running out of memory.
fn renamed_at(
    alloc: Global,
    trans: &[Trans],
    classes: &Renaming,
    places: &[usize],
) -> Result<Seq<Trans>, AllocError>
    ensures { IfOk result (λ chosen. (t : Transition) →
        Contains chosen t → Contains (map (renamed classes.now) trans.now) t) }
{
    let mut chosen = Seq::new(alloc);
    for place in places {
        if let Some(t) = trans.get(*place) {
            chosen.push(renamed_one(alloc, t, classes)?)?;
        }
    }
    Ok(chosen)
}

/// The states of transitions. The only error is running out of memory.
fn states_of(alloc: Global, trans: &[Trans]) -> Result<Vec<u32>, AllocError>
    ensures { IfOk result (λ states. HasMore [] trans.now (λ (t : Transition) q. Contains (t.args ++ t.to ∷ []) q) states.items) }
{
    let mut states = Vec::new(alloc);
    for t in trans {
        states.extend_from_slice(t.args.as_slice())?;
        states.push(t.to)?;
    }
    Ok(states)
}
