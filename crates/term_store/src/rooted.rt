//! The steps at the root of a term of a store.
ghost use Rattle.std.specs.Prelude.{◌≡◌, ◌<◌, ◌^◌, [], ℕ, length, IfOk, MatchOption, MatchBool, Contains, slice_get, Some};
ghost use Rattle.ranked_terms.specs.Terms.{size_of, occurrences};
ghost use Rattle.ranked_terms.specs.Matching.{bound_in};
ghost use Rattle.term_store.specs.Store.{term_at, Keeps};
ghost use Rattle.term_store.specs.Index.{IsIndexOf};
ghost use Rattle.term_store.specs.Found.{AreFoundUpTo, StepsToLarge};
ghost use Rattle.term_store.specs.Rooted.{id_of, named, AreIds, IsMatch, IsNoMatch, instance_by};

use crate::found::Found;
use crate::index::RuleIndex;
use crate::store::Store;
use ranked_terms::{Pattern, Seq};
use smallvec::SmallVec;
use std::alloc::{AllocError, Global};
use trs_rules::Rule;

/// Adds the steps at the root by rules that stand in the index to a list that has none yet; false only where one of them
/// leads to a term of more than 1,024 symbols. The only error is running out of memory.
pub(crate) fn add_root_steps(
    alloc: Global,
    store: &mut Store,
    rules: &[Rule],
    index: &RuleIndex,
    id: u32,
    founds: &mut Seq<Found>,
) -> Result<bool, AllocError>
    requires index { IsIndexOf rules.now index.now }
    requires there { id < length store.old }
    requires none { founds.old ≡ [] }
    ensures kept { IfOk result (λ o. Keeps store.old store.new) }
    ensures found { IfOk result (λ o. MatchBool o (AreFoundUpTo rules.now (term_at store.old id) store.new 0 founds.new)
        (StepsToLarge rules.now (term_at store.old id))) }
{
    let (sym, _) = store.node(id);
    let entries = index.with_root(sym);
    for k in 0..entries.len() {
        let number = entries[k].1;
        let rule = &rules[number as usize];
        let mut binding = Vec::new(alloc);
        if match_ids(store, rule.left(), id, &mut binding)? {
            let Some(term) = build_ids(store, rule.right(), binding.as_slice())? else {
                return Ok(false);
            };
            founds.push(Found {
                rule: number,
                back: Seq::new(alloc),
                term,
            })?;
        }
    }
    Ok(true)
}

// The identity bound to a variable.
fn bound_to(binding: &[(u32, u32)], variable: u32) -> Option<u32>
    ensures { result ≡ id_of binding.now variable }
{
    for entry in binding {
        if entry.0 == variable {
            return Some(entry.1);
        }
    }
    None
}

// Matches the pattern with a term of the store. Where it does not match, the binding has no meaning.
fn match_ids(
    store: &Store,
    p: &Pattern,
    id: u32,
    binding: &mut Vec<(u32, u32)>,
) -> Result<bool, AllocError>
    requires there { id < length store.now }
    requires ids { AreIds store.now binding.old.items }
    ensures { IfOk result (λ r. MatchBool r (IsMatch p.now id store.now binding.old.items binding.new.items)
        (IsNoMatch p.now (term_at store.now id) (named store.now binding.old.items))) }
{
    match p {
        Pattern::Var(variable) => match bound_to(binding.as_slice(), *variable) {
            Some(bound) => {
                let _size = store.len();
                Ok(bound == id)
            }
            None => {
                binding.push((*variable, id))?;
                Ok(true)
            }
        },
        Pattern::App(f, args) => {
            let (sym, ts) = store.node(id);
            let ps = args.as_slice();
            if *f != sym || ps.len() != ts.len() {
                return Ok(false);
            }
            for i in 0..ps.len() {
                if !match_ids(store, &ps[i], ts[i], binding)? {
                    return Ok(false);
                }
            }
            Ok(true)
        }
    }
}

// Makes the instance of the pattern by the binding, in which each of its variables is bound; `None` exactly where it is
// large.
fn build_ids(
    store: &mut Store,
    p: &Pattern,
    binding: &[(u32, u32)],
) -> Result<Option<u32>, AllocError>
    requires ids { AreIds store.old binding.now }
    requires bound { (v : ℕ) → Contains (occurrences p.now) v → Contains (bound_in (named store.old binding.now)) v }
    ensures kept { IfOk result (λ o. Keeps store.old store.new) }
    ensures built { IfOk result (λ o. MatchOption o (1024 < size_of (instance_by store.old binding.now p.now))
        (λ id. slice_get store.new id ≡ Some (instance_by store.old binding.now p.now))) }
{
    match p {
        Pattern::Var(variable) => match bound_to(binding, *variable) {
            Some(id) => Ok(Some(id)),
            None => unreachable!(),
        },
        Pattern::App(f, args) => {
            let mut ids = SmallVec::<u32, 4>::new(store.alloc());
            for arg in args.as_slice() {
                let Some(id) = build_ids(store, arg, binding)? else {
                    return Ok(None);
                };
                ids.push(id)?;
            }
            store.make(*f, ids.as_slice())
        }
    }
}
