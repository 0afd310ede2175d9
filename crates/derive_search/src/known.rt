//! The known low terms by their states.
ghost use Rattle.std.specs.Prelude.{◌≡◌, ◌<◌, ℕ, [], length, All, Some, IfOk, OnOk, slice_get};
ghost use Rattle.derive_search.specs.LowPairs.{IsGrouped, AddsKnown, AreOldFirst, known_at};

use indexmap::IndexSet;
use ranked_terms::Seq;
use std::alloc::{AllocError, Global};

/// The identities of the pairs by their states, each with a mark whether its pair stands at the place or later. Those
/// with a mark stand behind the others. The states are below `next`. The only error is running out of memory.
pub(crate) fn grouped(
    alloc: Global,
    next: u32,
    pairs: &IndexSet<(u32, u32)>,
    first: usize,
) -> Result<Vec<Seq<(u32, bool)>>, AllocError>
    requires { All (λ p. p.0 < next) pairs.now.keys }
    ensures grouped { IfOk result (λ known. IsGrouped pairs.now.keys first (length pairs.now.keys) known.items) }
    ensures ordered { IfOk result (λ known. AreOldFirst known.items) }
    ensures len { IfOk result (λ known. length known.items ≡ next) }
{
    let mut known = empty_lists(alloc, next)?;
    for k in 0..pairs.len() {
        let (state, id) = pair_at(pairs, k);
        add_known(&mut known, state, id, first <= k)?;
    }
    Ok(known)
}

// So many empty lists.
fn empty_lists(alloc: Global, count: u32) -> Result<Vec<Seq<(u32, bool)>>, AllocError>
    ensures len { IfOk result (λ known. length known.items ≡ count) }
    ensures empty { IfOk result (λ known. All (λ list. list ≡ []) known.items) }
{
    let mut lists = Vec::new(alloc);
    for _ in 0..count {
        lists.push(Seq::new(alloc))?;
    }
    Ok(lists)
}

// Adds an identity to those of a state.
fn add_known(
    known: &mut Vec<Seq<(u32, bool)>>,
    state: u32,
    id: u32,
    fresh: bool,
) -> Result<(), AllocError>
    requires { state < length known.old.items }
    ensures { OnOk result (AddsKnown state (id, fresh) known.old.items known.new.items) }
{
    let list = &mut known[state as usize];
    list.push((id, fresh))?;
    Ok(())
}

/// The pair at a place.
pub(crate) fn pair_at(pairs: &IndexSet<(u32, u32)>, place: usize) -> (u32, u32)
    requires { place < length pairs.now.keys }
    ensures { slice_get pairs.now.keys place ≡ Some result }
{
    match pairs.get_index(place) {
        Some(pair) => *pair,
        None => unreachable!(),
    }
}
