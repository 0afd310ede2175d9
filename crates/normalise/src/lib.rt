//! Normalising open pairs: the right side of a pair is put into an automaton, node by node, so that the pair is no longer
//! open (Feuillade, Genet and Viet Triem Tong, JAR 2004).
#![tactic(auto)]

mod fitting;
pub mod laws;
mod pairs;
mod putting;

pub use pairs::{NormError, normalise, normalise_all};
