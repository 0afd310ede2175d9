//! What the commands of the program `timbuk` share: exit statuses, texts of answers and faults, and the reading of files; and the
//! command `check` whole.
#![tactic(auto)]

mod answer_line;
mod checking;
mod fault_line;
mod reading;
pub mod status;

pub use answer_line::usage;
pub use checking::check_command;
pub use reading::{Ending, certificate, specification};
