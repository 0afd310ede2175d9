//! Transitions.
use crate::args::Args;

/// The transition `sym(args) -> to` (TATA, section 1.1).
///
/// Transitions are ordered by symbol, then by arguments, then by target.
#[derive(Debug, Clone, PartialEq, Eq, PartialOrd, Ord, Drop)]
pub struct Trans {
    /// The symbol's number in the signature.
    pub sym: u32,
    /// The states that the arguments have run to.
    pub args: Args,
    /// The state that the term runs to.
    pub to: u32,
}
