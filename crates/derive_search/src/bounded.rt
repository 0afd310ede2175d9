//! The bounded search.
ghost use Rattle.std.specs.Prelude.{◌≡◌, ◌↔◌, ◌<◌, ◌≤◌, ℕ, length, All, Contains, IsTrue, IfOk, MatchOption, None};
ghost use Rattle.ta_core.specs.Languages.{Accepts};
ghost use Rattle.term_store.specs.Store.{term_at, Keeps};
ghost use Rattle.term_store.specs.Index.{IsIndexOf};
ghost use Rattle.derive_search.specs.Starts.{AreTooMany};
ghost use Rattle.derive_search.specs.StateSets.{AreStateSets};
ghost use Rattle.derive_search.specs.LowPairs.{AreFinal};
ghost use Rattle.derive_search.specs.Growing.{terms_in, AreEarlier, AreStarts, IsLevel, NoneAccepted, IsHit};
ghost use Rattle.derive_search.specs.Search.{SearchAnswer};

use crate::growth::{Levels, add, grow, id_at, read_back};
use crate::known::pair_at;
use crate::low_pairs::low_pairs;
use crate::state_sets::{fill, is_accepted};
use indexmap::IndexSet;
use ranked_terms::Seq;
use std::alloc::{AllocError, Global};
use ta_core::laws::accepted_terms_are_over;
use ta_core::{Automaton, Options, Spec, StateSet};
use term_store::{RuleIndex, Store};
use trs_rules::Derivation;

/// How the bounded search ends.
#[derive(Debug, Drop)]
pub enum SearchEnd {
    /// A derivation of a forbidden term, by the least number of steps.
    Found(Derivation),
    /// No forbidden term is reached within this number of steps, which is the option.
    Exhausted(u32),
    /// The limits are passed within this number of steps, and no earlier.
    Over(u32),
}

/// Looks for a derivation of a forbidden term from a term of the initial language, within the options' steps, height and
/// terms. The only error is running out of memory; rules that can't be numbered by 32 bits are answered so too.
pub fn search(alloc: Global, spec: &Spec, options: &Options) -> Result<SearchEnd, AllocError>
    ensures { IfOk result (SearchAnswer spec.now options.now) }
{
    let rules = spec.rules.as_slice();
    let index = RuleIndex::new(alloc, rules)?;
    let mut store = Store::new(alloc);
    let Some(starts) = starts_of(alloc, &mut store, spec, options)? else {
        return Ok(SearchEnd::Over(0));
    };
    let _terms = store.len();
    let mut levels = first_level(alloc, starts.as_slice())?;
    search_from(alloc, spec, options, &index, &mut store, &mut levels)
}

// The search, where the starts are all that is reached yet.
fn search_from(
    alloc: Global,
    spec: &Spec,
    options: &Options,
    index: &RuleIndex,
    store: &mut Store,
    levels: &mut Levels,
) -> Result<SearchEnd, AllocError>
    requires index { IsIndexOf spec.now.rules index.now }
    requires starts { IsLevel spec.now options.now 0 store.old levels.old.ids.keys levels.old.origins.items 0 }
    ensures { IfOk result (SearchAnswer spec.now options.now) }
{
    // For the proof: what the forbidden automaton accepts is over the signature.
    accepted_terms_are_over();
    let rules = spec.rules.as_slice();
    let limit = options.terms as usize;
    let mut sets = Vec::new(alloc);
    let mut first = 0;
    for step in 0..options.steps {
        if let Some(derivation) = test_level(alloc, spec, store, &mut sets, levels, first)? {
            return Ok(SearchEnd::Found(derivation));
        }
        let end = levels.ids.len();
        let within = grow(alloc, store, rules, index, levels, first, limit)?;
        let _terms = store.len();
        if !within {
            return Ok(SearchEnd::Over(step + 1));
        }
        first = end;
    }
    match test_level(alloc, spec, store, &mut sets, levels, first)? {
        Some(derivation) => Ok(SearchEnd::Found(derivation)),
        None => Ok(SearchEnd::Exhausted(options.steps)),
    }
}

// The starts, as identities; `None` exactly where there are too many.
fn starts_of(
    alloc: Global,
    store: &mut Store,
    spec: &Spec,
    options: &Options,
) -> Result<Option<Seq<u32>>, AllocError>
    ensures kept { IfOk result (λ o. Keeps store.old store.new) }
    ensures starts { IfOk result (λ o. MatchOption o (AreTooMany spec.now.initial options.now.height options.now.terms)
        (AreStarts spec.now options.now store.new)) }
{
    // For the proof: what the initial automaton accepts is over the signature.
    accepted_terms_are_over();
    let limit = options.terms as usize;
    let Some(pairs) = low_pairs(alloc, store, &spec.initial, options.height, limit)? else {
        return Ok(None);
    };
    let starts = finals_among(alloc, &spec.initial, &pairs)?;
    Ok(Some(starts))
}

// The identities that stand with a final state.
fn finals_among(
    alloc: Global,
    automaton: &Automaton,
    pairs: &IndexSet<(u32, u32)>,
) -> Result<Seq<u32>, AllocError>
    ensures { IfOk result (λ ids. AreFinal automaton.now.finals pairs.now.keys ids) }
{
    let mut ids = Seq::new(alloc);
    for k in 0..pairs.len() {
        let (state, id) = pair_at(pairs, k);
        if is_final(automaton, state) {
            ids.push(id)?;
        }
    }
    Ok(ids)
}

// Whether the state is final.
fn is_final(automaton: &Automaton, state: u32) -> bool
    ensures { IsTrue result ↔ Contains automaton.now.finals state }
{
    automaton.finals().binary_search(&state).is_ok()
}

// The starts alone, each once.
fn first_level(alloc: Global, starts: &[u32]) -> Result<Levels, AllocError>
    ensures ids { IfOk result (λ levels. (id : ℕ) → Contains levels.ids.keys id ↔ Contains starts.now id) }
    ensures few { IfOk result (λ levels. length levels.ids.keys ≤ length starts.now) }
    ensures count { IfOk result (λ levels. length levels.origins.items ≡ length levels.ids.keys) }
    ensures origins { IfOk result (λ levels. All (λ o. o ≡ None) levels.origins.items) }
{
    let mut levels = Levels {
        ids: IndexSet::new(alloc),
        origins: Vec::new(alloc),
    };
    for id in starts {
        add(&mut levels, *id, None)?;
    }
    Ok(levels)
}

// A derivation of the first forbidden term from a place on, if there is one. Each term of the store gets its states before.
fn test_level(
    alloc: Global,
    spec: &Spec,
    store: &Store,
    sets: &mut Vec<StateSet>,
    levels: &Levels,
    first: usize,
) -> Result<Option<Derivation>, AllocError>
    requires there { All (λ a. a < length store.now) levels.now.ids.keys }
    requires count { length levels.now.origins.items ≡ length levels.now.ids.keys }
    requires earlier { AreEarlier levels.now.origins.items }
    requires sets { AreStateSets spec.now.forbidden store.now sets.old.items }
    ensures hit { IfOk result (λ o. MatchOption o (NoneAccepted spec.now (terms_in store.now levels.now.ids.keys) first)
        (IsHit spec.now (terms_in store.now levels.now.ids.keys) levels.now.origins.items first)) }
    ensures sets { IfOk result (λ o. AreStateSets spec.now.forbidden store.now sets.new.items) }
{
    fill(alloc, &spec.forbidden, store, sets)?;
    for place in first..levels.ids.len() {
        let id = id_at(levels, place);
        if is_accepted(&spec.forbidden, store, sets.as_slice(), id) {
            let derivation = read_back(alloc, store, levels, place)?;
            return Ok(Some(derivation));
        }
    }
    Ok(None)
}
