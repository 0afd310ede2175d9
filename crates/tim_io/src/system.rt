//! From what the system answers to what a shelf and a sink answer.
ghost use Rattle.std.specs.Prelude.{◌≤◌};
ghost use Rattle.tim_io.specs.System.{ReadAnswered, WriteAnswered};

use crate::shelf::TakeError;
use crate::sink::Failed;
use std::io;

/// What a shelf answers where the system was asked to read: a read that failed is a fault, which is counted, and any
/// other answer is passed on.
pub fn read_answer(answer: io::Result<usize>, faults: &mut u64) -> Result<usize, TakeError>
    ensures answered { ReadAnswered answer result faults.old faults.new }
    ensures later { faults.old ≤ faults.new }
{
    match answer {
        Ok(count) => Ok(count),
        Err(_) => {
            *faults = faults.saturating_add(1);
            Err(TakeError::Failed)
        }
    }
}

/// What a sink answers where the system was asked to write a piece that is not empty: a write that failed is a fault,
/// which is counted, and so is one of 0 bytes; any other answer is passed on.
pub fn write_answer(answer: io::Result<usize>, faults: &mut u64) -> Result<usize, Failed>
    ensures answered { WriteAnswered answer result faults.old faults.new }
    ensures later { faults.old ≤ faults.new }
{
    match answer {
        Ok(count) if count > 0 => Ok(count),
        _ => {
            *faults = faults.saturating_add(1);
            Err(Failed)
        }
    }
}
