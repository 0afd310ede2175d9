//! Approximation entries.
use ranked_terms::Shape;

/// An approximation entry: where the assigned right side of a pair has the form `whole` and its state the form `at`,
/// a node of the form `node` goes to the state `target`. One assignment of states to the variables has to make all
/// three. This form is this project's own.
#[derive(Debug, Drop)]
pub struct Entry {
    /// The form of the assigned right side.
    pub whole: Shape,
    /// The form of the pair's state: a variable or a state.
    pub at: Shape,
    /// The form of the node: a symbol over variables and states.
    pub node: Shape,
    /// The state to which such a node goes.
    pub target: u32,
}
