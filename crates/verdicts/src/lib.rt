//! What `complete` answers for a specification: the search for a derivation, the stages of completion, and the text.
#![tactic(auto)]

mod completing;
pub mod laws;

pub use completing::{complete, outcome};
