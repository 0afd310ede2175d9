//! Ground terms kept once each, and all rewriting steps from one of them.
//!
//! A term is named by its place in a store, so that terms share what they have in common, and two terms are equal exactly
//! where their places are.
#![tactic(auto)]

mod found;
mod ids;
mod index;
mod rooted;
mod store;

pub use found::{Found, steps_from};
pub use index::RuleIndex;
pub use store::Store;
