//! Sets of numbers as bits, and tables of what edges between numbers lead to. They take no memory but what they are made with.
#![tactic(auto)]

mod bits;
mod order;
mod reach;

pub use bits::Bits;
pub use reach::Reach;
