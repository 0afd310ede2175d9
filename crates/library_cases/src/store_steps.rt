//! The steps from terms of a store, beside the steps that `successors` finds from the same terms.
ghost use Rattle.std.specs.Prelude.{◌<◌, ◌≤◌, length, All, IsTrue};

use crate::table::Call;
use ranked_terms::{Seq, Term, laws, term_from};
use std::alloc::{AllocError, Global};
use ta_core::Spec;
use term_store::{Found, RuleIndex, Store, steps_from};
use trs_rules::{Rule, Successor, successors};

/// Whether each of these is the identity of a term of the store.
fn are_kept(store: &Store, ids: &[u32]) -> bool
    ensures { IsTrue result → All (λ a. a < length store.now) ids.now }
{
    for id in ids {
        if *id as usize >= store.len() {
            return false;
        }
    }
    true
}

/// Puts the symbol over these terms into the store.
fn put_over(store: &mut Store, sym: u32, ids: &[u32]) -> Result<Option<u32>, AllocError> {
    if !are_kept(store, ids) {
        return Ok(None);
    }
    store.make(sym, ids)
}

/// Puts the term into the store.
fn put(alloc: Global, store: &mut Store, term: &Term) -> Result<Option<u32>, AllocError> {
    let mut ids = Vec::new(alloc);
    for arg in term.args.as_slice() {
        let Some(id) = put(alloc, store, arg)? else {
            return Ok(None);
        };
        ids.push(id)?;
    }
    put_over(store, term.sym, ids.as_slice())
}

/// The steps from the term, over the store.
fn fast_steps(
    alloc: Global,
    store: &mut Store,
    rules: &[Rule],
    term: &Term,
) -> Result<Option<Seq<Found>>, AllocError> {
    let index = RuleIndex::new(alloc, rules)?;
    let Some(id) = put(alloc, store, term)? else {
        return Ok(None);
    };
    if id as usize >= store.len() {
        return Ok(None);
    }
    steps_from(alloc, store, rules, &index, id)
}

/// Whether the step found over the store is this one.
fn is_same(
    alloc: Global,
    store: &Store,
    found: &Found,
    step: &Successor,
) -> Result<bool, AllocError> {
    if found.rule != step.rule || found.term as usize >= store.len() {
        return Ok(false);
    }
    let mut at = Vec::from_slice(alloc, found.back.as_slice())?;
    at.reverse();
    let term = store.term(alloc, found.term)?;
    Ok(at.as_slice() == step.at.as_slice() && term == step.term)
}

/// Whether one of the steps found over the store is this one.
fn is_found(
    alloc: Global,
    store: &Store,
    founds: &[Found],
    step: &Successor,
) -> Result<bool, AllocError> {
    for found in founds {
        if is_same(alloc, store, found, step)? {
            return Ok(true);
        }
    }
    Ok(false)
}

/// Whether the steps found over the store are these, of which no two are the same, in whatever order.
fn are_same(
    alloc: Global,
    store: &Store,
    founds: &[Found],
    steps: &[Successor],
) -> Result<bool, AllocError> {
    for step in steps {
        if !is_found(alloc, store, founds, step)? {
            return Ok(false);
        }
    }
    Ok(founds.len() == steps.len())
}

/// Whether the steps from the term that are found over a store are these.
fn has_steps(
    alloc: Global,
    rules: &[Rule],
    term: &Term,
    steps: &[Successor],
) -> Result<bool, AllocError> {
    let mut store = Store::new(alloc);
    let Some(founds) = fast_steps(alloc, &mut store, rules, term)? else {
        return Ok(false);
    };
    are_same(alloc, &store, founds.as_slice(), steps)
}

/// How many steps there are from the term that the first text spells, and whether the same are found over a store.
pub fn steps_compared(alloc: Global, spec: &Spec, call: &Call) -> Result<String, AllocError>
    requires { length spec.now.rules ≤ 1000 }
{
    // For the proof: the arguments of a term over a signature can be named by 32 bits.
    laws::of_terms_over();
    let _symbols = spec.signature.len();
    let rules = spec.rules.as_slice();
    let Some(term) = term_from(alloc, &spec.signature, call.text(0).as_bytes())? else {
        return format!(in alloc; "no term\n");
    };
    let steps = successors(alloc, rules, &term)?;
    let same = has_steps(alloc, rules, &term, steps.as_slice())?;
    format!(in alloc; "{}, the same over a store {same}\n", steps.len())
}
