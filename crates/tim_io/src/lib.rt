//! Files by name and an output, as values that a caller passes in.
//!
//! A [`Shelf`] gives the bytes of its files piece by piece, and a [`Sink`] takes bytes piece by piece; both count their
//! faults, so that a refusal always has a cause. There are three kinds of each: in memory, failing where a test wants
//! it; honest ones, which never fail; and the real files with standard output. [`read_all`] reads a file whole, and
//! [`write_all`] writes all of a text.
#![tactic(auto)]

mod counts;
mod file;
mod file_shelf;
mod files;
mod honest_shelf;
mod honest_sink;
mod mem_shelf;
mod mem_sink;
mod plan;
mod shelf;
mod sink;
mod std_sink;
mod system;
mod whole;

pub use file_shelf::FileShelf;
pub use honest_shelf::HonestShelf;
pub use honest_sink::HonestSink;
pub use mem_shelf::MemShelf;
pub use mem_sink::MemSink;
pub use shelf::{Shelf, TakeError};
pub use sink::{Failed, Sink};
pub use std_sink::{StdSink, WriterSink};
pub use whole::{ReadError, read_all, write_all};
