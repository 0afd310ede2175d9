//! The bounded search for a derivation of a forbidden term, and the terms of bounded height of an automaton.
#![tactic(auto)]

mod bounded;
mod growth;
mod known;
pub mod laws;
mod low_pairs;
mod low_terms;
mod state_sets;

pub use bounded::{SearchEnd, search};
pub use low_terms::{TermsEnd, terms_of};
