//! All steps from a term of a store.
ghost use Rattle.std.specs.Prelude.{◌≡◌, ◌+◌, ◌<◌, ◌^◌, ◌++◌, ◌∷◌, [], length, All, List, IfOk, IsTrue, MatchOption, MatchBool};
ghost use Rattle.ranked_terms.specs.Terms.{size_of};
ghost use Rattle.term_store.specs.Store.{term_at, Keeps};
ghost use Rattle.term_store.specs.Index.{IsIndexOf};
ghost use Rattle.term_store.specs.Found.{changed, AreFound, StepsToLarge, IsLiftOf, AreLifted, HasLargeLift};

use crate::index::RuleIndex;
use crate::rooted::add_root_steps;
use crate::store::Store;
use ranked_terms::Seq;
use smallvec::SmallVec;
use std::alloc::{AllocError, Global};
use trs_rules::Rule;

/// A step from a term of a store.
#[derive(Debug, Drop)]
pub struct Found {
    /// The rule's number.
    pub rule: u32,
    /// The position, from its end to the root.
    pub back: Seq<u32>,
    /// The identity of the term that it leads to.
    pub term: u32,
}

/// All steps from a term; `None` only where it steps to a term of more than 1,024 symbols, which is not made. It goes
/// down the term by itself, and so at most 1,024 deep. The only error is running out of memory.
pub fn steps_from(
    alloc: Global,
    store: &mut Store,
    rules: &[Rule],
    index: &RuleIndex,
    id: u32,
) -> Result<Option<Seq<Found>>, AllocError>
    requires index { IsIndexOf rules.now index.now }
    requires there { id < length store.old }
    ensures kept { IfOk result (λ o. Keeps store.old store.new) }
    ensures found { IfOk result (λ o. MatchOption o (StepsToLarge rules.now (term_at store.old id))
        (AreFound rules.now (term_at store.old id) store.new)) }
{
    let mut founds = Seq::new(alloc);
    if add_steps(alloc, store, rules, index, id, &mut founds)? {
        return Ok(Some(founds));
    }
    Ok(None)
}

// Adds all steps from a term to a list that has none yet; false only where it steps to a large term.
fn add_steps(
    alloc: Global,
    store: &mut Store,
    rules: &[Rule],
    index: &RuleIndex,
    id: u32,
    founds: &mut Seq<Found>,
) -> Result<bool, AllocError>
    requires index { IsIndexOf rules.now index.now }
    requires there { id < length store.old }
    requires none { founds.old ≡ [] }
    ensures kept { IfOk result (λ o. Keeps store.old store.new) }
    ensures found { IfOk result (λ o. MatchBool o (AreFound rules.now (term_at store.old id) store.new founds.new)
        (StepsToLarge rules.now (term_at store.old id))) }
{
    let (sym, args) = store.parts(id)?;
    if !add_root_steps(alloc, store, rules, index, id, founds)? {
        return Ok(false);
    }
    for place in 0..args.as_slice().len() {
        let arg = args.as_slice()[place];
        let mut below = Seq::new(alloc);
        if !add_steps(alloc, store, rules, index, arg, &mut below)? {
            return Ok(false);
        }
        if !lift_all(store, sym, args.as_slice(), place, below, founds)? {
            return Ok(false);
        }
    }
    Ok(true)
}

// Adds the steps in an argument as steps of the whole term; false where one of these is large.
fn lift_all(
    store: &mut Store,
    sym: u32,
    args: &[u32],
    place: usize,
    below: Seq<Found>,
    founds: &mut Seq<Found>,
) -> Result<bool, AllocError>
    requires args { All (λ a. a < length store.old) args.now }
    requires few { length args.now < 1024 }
    requires place { place < length args.now }
    requires below { All (λ b. b.term < length store.old) below }
    ensures kept { IfOk result (λ o. Keeps store.old store.new) }
    ensures lifted { IfOk result (λ o. MatchBool o (AreLifted sym args.now place store.old store.new below founds.old founds.new)
        (HasLargeLift sym args.now place store.old below)) }
{
    let mut rest = below.into_vec();
    while let Some(step) = rest.pop() {
        let Some(lifted) = lift(store, sym, args, place, step)? else {
            return Ok(false);
        };
        founds.push(lifted)?;
    }
    Ok(true)
}

// One of them; `None` exactly where the term would be large.
fn lift(
    store: &mut Store,
    sym: u32,
    args: &[u32],
    place: usize,
    found: Found,
) -> Result<Option<Found>, AllocError>
    requires args { All (λ a. a < length store.old) args.now }
    requires few { length args.now < 1024 }
    requires place { place < length args.now }
    requires there { found.term < length store.old }
    ensures kept { IfOk result (λ o. Keeps store.old store.new) }
    ensures lifted { IfOk result (λ o. MatchOption o (1024 < size_of (changed store.old sym args.now place found))
        (IsLiftOf sym args.now place store.old store.new found)) }
{
    let mut changed = SmallVec::<u32, 4>::from_slice(store.alloc(), args)?;
    let slots = changed.as_mut_slice();
    slots[place] = found.term;
    let Some(term) = store.make(sym, changed.as_slice())? else {
        return Ok(None);
    };
    let mut back = found.back;
    back.push(place as u32 + 1)?;
    Ok(Some(Found {
        rule: found.rule,
        back,
        term,
    }))
}
