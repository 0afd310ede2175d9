//! Certificates, and the faults of their texts.
use std::alloc::AllocError;
use ta_core::{Automaton, Map};
use trs_rules::Derivation;

/// What a certificate claims. What it notes of rounds and precision is no part of the claim.
#[derive(Drop)]
pub enum Certificate {
    /// No reachable term is forbidden, which this automaton with this map shows.
    Unreachable {
        /// The number of rounds that is noted.
        rounds: u32,
        /// Whether precision is noted.
        precise: bool,
        /// The automaton.
        automaton: Automaton,
        /// For each state of the initial automaton a state of this one.
        map: Map,
    },
    /// This derivation leads to a forbidden term.
    Reachable(Derivation),
}

/// What is wrong with a line. Where several of these fit one line, the first in this order is told.
#[derive(Clone, Copy, Debug, Drop, PartialEq, Eq)]
pub enum CertKind {
    /// Line 1 is no head of a certificate.
    Head,
    /// Line 2 says that nothing is claimed.
    NoClaim,
    /// The line has not the form of any line that may stand there, or is missing.
    Line,
    /// A symbol is not in the signature or has another number of arguments, or a term has more than 1,024 symbols.
    Symbol,
    /// The map has not as many states as the initial automaton, or the step is the 101st.
    Count,
    /// A state is not below the number of `Next`, or is not listed.
    State,
    /// A list, or the line after the one before, does not ascend, or an epsilon transition leads to its own state.
    Order,
}

/// The first line at which something is wrong, counted from 1, and what.
#[derive(Clone, Copy, Debug, Drop, PartialEq, Eq)]
pub struct CertFault {
    /// What is wrong.
    pub kind: CertKind,
    /// The number of the line.
    pub line: u32,
}

/// Why no certificate was read.
#[derive(Clone, Copy, Debug, Drop, PartialEq, Eq)]
pub enum CertError {
    /// The bytes are no certificate.
    Fault(CertFault),
    /// There was no memory.
    Memory,
}

impl From<AllocError> for CertError {
    ghost use Rattle.std.specs.Prelude.{◌≡◌};
    ghost use Rattle.cert_text.specs.declared.certificate.CertError.TheVariants.{Memory};

    ghost from_gives = { λ _ error. error ≡ Memory };

    fn from(_error: AllocError) -> CertError {
        CertError::Memory
    }
}
