//! Merging by equations: two states to which the sides of an equation run, by one assignment of states to its variables, become
//! one (Genet and Rusu, JSC 2010).
#![tactic(auto)]

mod ends;
mod following;
mod forced;
pub mod laws;
mod merging;
mod nearby;
mod passes;
mod quotient;
mod renaming;

pub use forced::{forced_count, forced_pair};
pub use merging::merged;
pub use quotient::join_states;
pub use renaming::Renaming;
