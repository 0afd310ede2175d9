//! Certificates as texts: what completion has found is written, and read back, line by line.
#![tactic(auto)]

mod certificate;
mod claim;
mod cuts;
mod entries;
pub mod laws;
mod outcome;
mod path;
mod reading;
mod states;
mod taking;
mod terms;
mod words;
mod writing;

pub use certificate::{CertError, CertFault, CertKind, Certificate};
pub use outcome::{Mark, Outcome, Reason};
pub use reading::read_cert;
pub use writing::cert_bytes;
