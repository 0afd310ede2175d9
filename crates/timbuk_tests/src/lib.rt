//! Tests of the libraries' public calls, a module for each crate. This crate has no code of its own.
//!
//! A case in a test is proved as code is, and a crate with tests is proved once more for them. So the tests that need
//! public calls alone stand here, and they are few: what a contract says isn't tested again. What is tested is that each
//! call succeeds with ample memory, that the definitions mean what they should, by examples worked out by hand, and what
//! devices that fail make of an answer.
#![tactic(auto)]

#[cfg(test)]
mod fakes;
#[cfg(test)]
mod of_ranked_terms;
#[cfg(test)]
mod of_ta_core;
#[cfg(test)]
mod of_terms;
#[cfg(test)]
mod of_tim_io;
#[cfg(test)]
mod of_trs_rules;
#[cfg(test)]
mod texts;
