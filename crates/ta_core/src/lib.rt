//! The core of tree automata: transitions, automata and what a run of one is (TATA, section 1.1).
//!
//! An automaton keeps its states, final states, transitions and epsilon transitions in ascending lists. Contracts see
//! it as these lists and the number that the next state gets (`TreeAutomaton`), and say what it accepts by runs.
#![tactic(auto)]

mod args;
mod assignment;
mod automaton;
mod growing;
pub mod laws;
mod lookup;
mod map;
mod options;
mod reached;
mod runs;
mod safety;
mod singular;
mod sorted;
mod spec;
mod state_set;
mod trans;

pub use args::Args;
pub use assignment::assign;
pub use automaton::{Automaton, MAX_STATES, StateError};
pub use growing::Growing;
pub use map::Map;
pub use options::Options;
pub use safety::accepted_means_safe;
pub use spec::Spec;
pub use state_set::StateSet;
pub use trans::Trans;
