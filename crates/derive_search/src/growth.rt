//! The reached terms, in the order in which they were first reached.
ghost use Rattle.std.specs.Prelude.{◌≡◌, ◌≤◌, ◌<◌, ◌+◌, ◌++◌, ◌⊎◌, ◌^◌, ℕ, List, length, slice_get, Some};
ghost use Rattle.std.specs.Prelude.{All, Contains, IfOk, OnOk, MatchBool};
ghost use Rattle.trs_rules.specs.Rules.{RewriteRule};
ghost use Rattle.term_store.specs.Index.{IsIndexOf};
ghost use Rattle.term_store.specs.Store.{Keeps};
ghost use Rattle.term_store.specs.Found.{turned};
ghost use Rattle.derive_search.specs.Growing.{terms_in, AddsOne, AreAdded, AreGrown, AreClosed, GrowsLarge, IsOneTooMany};
ghost use Rattle.derive_search.specs.Growing.{AreEarlier, ComesFrom, DerivesTo};

use indexmap::IndexSet;
use ranked_terms::{Position, Seq};
use std::alloc::{AllocError, Global};
use term_store::{Found, RuleIndex, Store, steps_from};
use trs_rules::{DStep, Derivation, Rule};

/// A step by which a term was first reached.
#[derive(Debug, Drop)]
pub(crate) struct Origin {
    /// The place of the term from which it leads.
    pub parent: u32,
    /// The rule's number.
    pub rule: u32,
    /// The position, from its end to the root.
    pub back: Seq<u32>,
}

/// The reached terms by their identities, each once, and where each came from: nowhere, if it is a start.
#[derive(Drop)]
pub(crate) struct Levels {
    /// The identities.
    pub ids: IndexSet<u32>,
    /// The origin of each.
    pub origins: Vec<Option<Origin>>,
}

/// Adds a term, unless it is there. The only error is running out of memory.
pub(crate) fn add(levels: &mut Levels, id: u32, origin: Option<Origin>) -> Result<(), AllocError>
    ensures { OnOk result (AddsOne id origin levels.old.ids.keys levels.old.origins.items
        levels.new.ids.keys levels.new.origins.items) }
{
    let (_, added) = levels.ids.insert_full(id)?;
    if added {
        levels.origins.push(origin)?;
    }
    Ok(())
}

// Adds the terms that these steps lead to; false once there are more than the limit.
fn add_all(
    levels: &mut Levels,
    founds: Seq<Found>,
    parent: u32,
    limit: usize,
) -> Result<bool, AllocError>
    requires few { length levels.old.ids.keys ≤ limit }
    ensures added { IfOk result (λ o. AreAdded parent founds levels.old.ids.keys levels.old.origins.items
        levels.new.ids.keys levels.new.origins.items) }
    ensures all { IfOk result (λ o. MatchBool o
        (((f : Found) → Contains founds f → Contains levels.new.ids.keys f.term) × (length levels.new.ids.keys ≤ limit))
        (IsOneTooMany limit levels.new.ids.keys)) }
{
    let mut rest = founds.into_vec();
    while let Some(found) = rest.pop() {
        let origin = Origin {
            parent,
            rule: found.rule,
            back: found.back,
        };
        add(levels, found.term, Some(origin))?;
        if limit < levels.ids.len() {
            return Ok(false);
        }
    }
    Ok(true)
}

/// The identity at a place.
pub(crate) fn id_at(levels: &Levels, place: usize) -> u32
    requires { place < length levels.now.ids.keys }
    ensures { slice_get levels.now.ids.keys place ≡ Some result }
{
    match levels.ids.get_index(place) {
        Some(id) => *id,
        None => unreachable!(),
    }
}

/// Adds whatever the terms from a place on step to; false once one of these is large or there are more than the limit.
/// The only error is running out of memory.
pub(crate) fn grow(
    alloc: Global,
    store: &mut Store,
    rules: &[Rule],
    index: &RuleIndex,
    levels: &mut Levels,
    first: usize,
    limit: usize,
) -> Result<bool, AllocError>
    requires index { IsIndexOf rules.now index.now }
    requires there { All (λ a. a < length store.old) levels.old.ids.keys }
    requires few { length levels.old.ids.keys ≤ limit }
    requires limit { limit < 2 ^ 32 }
    ensures kept { IfOk result (λ o. Keeps store.old store.new) }
    ensures grown { IfOk result (λ o. AreGrown rules.now (terms_in store.old levels.old.ids.keys) first store.new
        levels.old.ids.keys levels.old.origins.items levels.new.ids.keys levels.new.origins.items) }
    ensures all { IfOk result (λ o. MatchBool o
        (AreClosed rules.now (terms_in store.old levels.old.ids.keys) first (length levels.old.ids.keys)
        (terms_in store.new levels.new.ids.keys) × (length levels.new.ids.keys ≤ limit))
        (GrowsLarge rules.now (terms_in store.old levels.old.ids.keys) first ⊎ IsOneTooMany limit levels.new.ids.keys)) }
{
    let end = levels.ids.len();
    for place in first..end {
        let id = id_at(levels, place);
        let Some(founds) = steps_from(alloc, store, rules, index, id)? else {
            return Ok(false);
        };
        if !add_all(levels, founds, place as u32, limit)? {
            return Ok(false);
        }
    }
    Ok(true)
}

/// The derivation that led to the term at a place. It goes back from parent to parent, and so at most as deep as there
/// are levels. The only error is running out of memory.
pub(crate) fn read_back(
    alloc: Global,
    store: &Store,
    levels: &Levels,
    place: usize,
) -> Result<Derivation, AllocError>
    requires place { place < length levels.now.ids.keys }
    requires there { All (λ a. a < length store.now) levels.now.ids.keys }
    requires count { length levels.now.origins.items ≡ length levels.now.ids.keys }
    requires earlier { AreEarlier levels.now.origins.items }
    ensures { IfOk result (λ d. (R : List RewriteRule) (n : ℕ)
        → ComesFrom R (terms_in store.now levels.now.ids.keys) levels.now.origins.items place n
        → DerivesTo R (terms_in store.now levels.now.ids.keys) levels.now.origins.items place n d) }
{
    let term = store.term(alloc, id_at(levels, place))?;
    match &levels.origins[place] {
        None => Ok(Derivation {
            start: term,
            steps: Seq::new(alloc),
        }),
        Some(origin) => {
            let mut derivation = read_back(alloc, store, levels, origin.parent as usize)?;
            let at = position_of(alloc, &origin.back)?;
            derivation.steps.push(DStep {
                rule: origin.rule,
                at,
                term,
            })?;
            Ok(derivation)
        }
    }
}

// The position that was turned round.
fn position_of(alloc: Global, back: &Seq<u32>) -> Result<Position, AllocError>
    ensures { IfOk result (λ at. back.now ≡ turned at) }
{
    let mut items = Vec::from_slice(alloc, back.as_slice())?;
    items.reverse();
    let at = Position::from_slice(alloc, items.as_slice())?;
    Ok(at)
}
