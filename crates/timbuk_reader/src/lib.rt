//! The reader of input texts: what a text spells, or its first fault.
#![tactic(auto)]

mod approximation;
mod automaton;
mod cursor;
mod fault;
mod meaning;
mod names;
mod pattern;
mod reader;
mod rules;
mod sections;
mod state;
mod symbols;
mod token;

pub use fault::SpecError;
pub use reader::read_spec;
pub use spec_text::{
    LimitName, SpecFault, SpecKind, faults_are_first, no_text_has_two_first_faults,
    no_text_has_two_specs, spelled_names_differ, spelled_texts_have_no_fault, texts_are_read,
};
pub use timbuk_lex::TokenKind;
pub use token::{Token, TokenError, tokens};
