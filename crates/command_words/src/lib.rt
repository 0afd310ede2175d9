//! The words of a command line, and the command that they are.
//!
//! The rule that says which words are a command stands apart from how they are read (`specs/Words`); the reading is done by
//! `clap`, by a simple command for each name, all of whose values are texts.
#![tactic(auto)]

mod arguments;
mod check;
mod command;
mod complete;
mod number;

pub use command::{Command, WordsError, read_command};
