//! The check that an automaton shows a specification safe: it contains the initial automaton, is closed under the rules and
//! misses the forbidden language (Feuillade, Genet and Viet Triem Tong, JAR 2004). It takes no memory but its room.
#![tactic(auto)]

mod answer;
mod candidates;
mod checking;
mod closing;
mod containing;
mod fitting;
pub mod laws;
mod marks;
mod prepared;
mod replaying;
mod room;
mod running;

pub use answer::{Answer, Missing};
pub use checking::check;
pub use replaying::{DAnswer, check_derivation};
pub use room::Room;
