//! Rewriting: rules, equations, approximation entries and assignments of states to variables, and what a rewriting
//! step is.
//!
//! A rule is left-linear, and that is kept in its type. The variables of a rule and of an equation stand in the value
//! itself, in the order in which they first occur, so that an assignment can be the list of their states.
#![tactic(auto)]

mod derivation;
mod entry;
mod equation;
pub mod laws;
mod occurrences;
mod rule;
mod sigma;
mod step;
mod successor;
mod variables;

pub use derivation::{DStep, Derivation, first_bad_step, replays};
pub use entry::Entry;
pub use equation::Equation;
pub use rule::{Rule, RuleFault, each_is_rule};
pub use sigma::{Pair, Sigma};
pub use successor::{Successor, successors};
pub use variables::{TooManyVariables, Variables};
