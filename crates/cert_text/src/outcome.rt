//! Outcomes of completion and search.
use ta_clean::Least;
use ta_core::{Automaton, Map};
use trs_rules::Derivation;

/// Why completion settles nothing, with the number of the stage.
#[derive(Debug, Drop)]
pub enum Reason {
    /// The stage and the forbidden automaton have this term in common.
    Meets(u32, Least),
    /// There were as many rounds as there may be.
    Rounds(u32),
    /// The stage has more open pairs than a round may resolve.
    Pairs(u32),
    /// The next round needs a state more than there may be.
    States(u32),
}

/// How the bounded search ended without a derivation.
#[derive(Debug, Clone, Copy, PartialEq, Eq, Drop)]
pub enum Mark {
    /// No term within so many steps is forbidden.
    Exhausted(u32),
    /// There were too many terms within so many steps.
    Over(u32),
}

/// What `complete` has found.
#[derive(Drop)]
pub enum Outcome {
    /// No reachable term is forbidden: after so many rounds this automaton shows it.
    Unreachable {
        /// The number of rounds.
        rounds: u32,
        /// Whether each term of the automaton is reached modulo the equations.
        precise: bool,
        /// The automaton.
        automaton: Automaton,
        /// The state that each state of the initial automaton has become.
        map: Map,
    },
    /// A forbidden term is reached.
    Reachable(Derivation),
    /// Nothing is settled.
    Undecided {
        /// Why completion settles nothing.
        reason: Reason,
        /// How the search ended.
        search: Mark,
    },
}
