//! The stages of completion, and the ends of a bounded one (Feuillade, Genet and Viet Triem Tong, JAR 2004; merging is that of
//! Genet and Rusu, JSC 2010).
#![tactic(auto)]

mod end;
pub mod laws;
mod rounds;
mod standing;

pub use end::StageEnd;
pub use rounds::stages;
pub use standing::Core;
