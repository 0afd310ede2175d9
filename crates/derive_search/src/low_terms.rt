//! The terms of bounded height of an automaton.
ghost use Rattle.std.specs.Prelude.{◌≡◌, ◌<◌, ℕ, length, map, All, IsTrue, IfOk};
ghost use Rattle.ranked_terms.specs.Terms.{is_over};
ghost use Rattle.ranked_terms.specs.Texts.{term_text};
ghost use Rattle.ta_core.specs.TreeAutomaton.{TreeAutomaton};
ghost use Rattle.ta_core.specs.SpecRules.{automaton_is_over};
ghost use Rattle.term_store.specs.Store.{term_at};
ghost use Rattle.derive_search.specs.LowPairs.{ArePlaced, AreLowPairs};
ghost use Rattle.derive_search.specs.Starts.{AreLowRuns};
ghost use Rattle.derive_search.specs.TextOrder.{ArePrinted, named};
ghost use Rattle.derive_search.specs.TermsAnswer.{TermsAnswer};

use crate::known::pair_at;
use crate::low_pairs::low_pairs;
use indexmap::IndexSet;
use ranked_terms::laws::of_terms_over;
use ranked_terms::{Seq, Signature, Term};
use std::alloc::{AllocError, Global};
use ta_core::Automaton;
use ta_core::laws::{accepted_terms_are_over, runs_are_monotone};
use term_store::Store;

/// The terms of bounded height, or that there are too many.
#[derive(Debug, Drop)]
pub enum TermsEnd {
    /// Each state with each of its terms, by state and then by printed bytes.
    List(Seq<(u32, Term)>),
    /// There are more than the limit, or one of the terms has more than 1,024 symbols.
    Over,
}

/// A pair of a state and a term of a store. Pairs are ordered by state, then by the term's text.
#[derive(PartialEq, Eq, PartialOrd, Ord, Drop)]
pub(crate) struct Printed {
    /// The state.
    pub state: u32,
    /// The term's text.
    pub text: Vec<u8>,
    /// The term's identity.
    pub id: u32,
}

/// All pairs of a state and a term of at most the height that runs to it, each once, by state and then by printed bytes.
/// `Over` exactly where there are more than `limit`, or one of these terms has more than 1,024 symbols. The automaton's
/// symbols are in the signature with their arities. The only error is running out of memory.
pub fn terms_of(
    alloc: Global,
    a: &Automaton,
    sig: &Signature,
    height: u32,
    limit: u32,
) -> Result<TermsEnd, AllocError>
    requires { IsTrue (automaton_is_over sig.now a.now) }
    ensures { IfOk result (TermsAnswer sig.now a.now height limit) }
{
    // For the proof: what runs is over the signature.
    accepted_terms_are_over();
    runs_are_monotone();
    let mut store = Store::new(alloc);
    let Some(pairs) = low_pairs(alloc, &mut store, a, height, limit as usize)? else {
        return Ok(TermsEnd::Over);
    };
    let list = in_print_order(alloc, sig, &store, &pairs)?;
    Ok(TermsEnd::List(list))
}

// The pairs with the terms themselves, by state and then by printed bytes.
fn in_print_order(
    alloc: Global,
    sig: &Signature,
    store: &Store,
    pairs: &IndexSet<(u32, u32)>,
) -> Result<Seq<(u32, Term)>, AllocError>
    requires placed { ArePlaced store.now pairs.now.keys }
    requires over { All (λ p. IsTrue (is_over sig.now (term_at store.now p.1))) pairs.now.keys }
    ensures { IfOk result (λ list. (a : TreeAutomaton) (height limit : ℕ) →
        AreLowPairs a height limit store.now pairs.now.keys → AreLowRuns sig.now a height list) }
{
    // For the proof: terms over the signature with one text are one, no two terms of the store are equal, and no pair stands
    // twice.
    of_terms_over();
    let (_symbols, _terms, _pairs) = (sig.len(), store.len(), pairs.len());
    let mut printed = print_pairs(alloc, sig, store, pairs)?;
    printed.sort_unstable();
    let list = terms_in_order(alloc, store, printed.as_slice())?;
    Ok(list)
}

// The pairs with the texts of their terms.
fn print_pairs(
    alloc: Global,
    sig: &Signature,
    store: &Store,
    pairs: &IndexSet<(u32, u32)>,
) -> Result<Vec<Printed>, AllocError>
    requires placed { ArePlaced store.now pairs.now.keys }
    requires over { All (λ p. IsTrue (is_over sig.now (term_at store.now p.1))) pairs.now.keys }
    ensures { IfOk result (λ all. ArePrinted sig.now store.now pairs.now.keys all.items) }
{
    let mut all = Vec::new(alloc);
    for k in 0..pairs.len() {
        let (state, id) = pair_at(pairs, k);
        let text = text_of(alloc, sig, store, id)?;
        all.push(Printed { state, text, id })?;
    }
    Ok(all)
}

// The text of a term of the store.
fn text_of(alloc: Global, sig: &Signature, store: &Store, id: u32) -> Result<Vec<u8>, AllocError>
    requires placed { id < length store.now }
    requires over { IsTrue (is_over sig.now (term_at store.now id)) }
    ensures { IfOk result (λ text. text.items ≡ term_text sig.now (term_at store.now id)) }
{
    let term = store.term(alloc, id)?;
    let mut text = Vec::new(alloc);
    term.print_into(sig, &mut text)?;
    Ok(text)
}

// The pairs with the terms themselves, in the same order.
fn terms_in_order(
    alloc: Global,
    store: &Store,
    printed: &[Printed],
) -> Result<Seq<(u32, Term)>, AllocError>
    requires { All (λ e. e.id < length store.now) printed.now }
    ensures { IfOk result (λ list. list ≡ map (named store.now) printed.now) }
{
    let mut list = Seq::new(alloc);
    for entry in printed {
        let term = store.term(alloc, entry.id)?;
        list.push((entry.state, term))?;
    }
    Ok(list)
}
