//! Which states of a tree automaton some ground term runs to, whether it accepts one, a least term that one or two automata
//! accept, and the pairs of states of two automata to which one ground term runs (TATA, sections 1.1 and 1.3).
#![tactic(auto)]

mod buckets;
mod building;
mod emptiness;
mod final_pairs;
pub mod laws;
mod meeting;
mod settling;
mod sizes;
mod witness;

pub use emptiness::{is_empty, productive};
pub use final_pairs::least_meeting;
pub use meeting::Meetings;
pub use witness::{Least, Witness, common_witness, least_witness};
