//! What an input text spells, and its first fault.
//!
//! The definitions stand in `specs/`: the declarations, the table of faults, and the specification that a text spells. The
//! laws say that they fit together. The code has the types of the faults and the limits.
#![tactic(auto)]

mod fault;
mod laws;
mod limits;

pub use fault::{LimitName, SpecFault, SpecKind};
pub use laws::{
    faults_are_first, no_text_has_two_first_faults, no_text_has_two_specs, spelled_names_differ,
    spelled_texts_have_no_fault, texts_are_read,
};
pub use limits::{
    MAX_APPROXIMATIONS, MAX_AUTOMATA, MAX_DECLARED, MAX_ENTRIES, MAX_EQUATION_SECTIONS,
    MAX_EQUATIONS, MAX_NESTING, MAX_RULES, MAX_SYSTEMS, MAX_VARIABLES,
};
