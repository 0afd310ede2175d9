//! All that the program `timbuk` does, as one call over a shelf of files and a sink.
//!
//! [`run::run`] is that call; its contract says what each answer means. The program makes the real files and standard
//! output and calls it; other crates call it over files and outputs in memory.
#![tactic(auto)]

mod commands;
pub mod laws;
mod output;
pub mod run;
