//! Open pairs of an automaton under rewrite rules (Feuillade, Genet and Viet Triem Tong, JAR 2004, where an open pair is a
//! critical pair that isn't joined).
#![tactic(auto)]

mod openings;
mod pairs;

pub use pairs::{PairError, open_pairs};
