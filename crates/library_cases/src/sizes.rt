//! Terms of least size, and productive states.
use std::alloc::{AllocError, Global};
use ta_clean::{Witness, common_witness, is_empty, least_witness, productive};
use ta_core::Spec;

/// The size of a witness: 0 where there is none, and `None` where it is large.
fn size_of(witness: &Witness) -> Option<u32> {
    match witness {
        Witness::None => Some(0),
        Witness::Term(term) => Some(term.size_to(2000)),
        Witness::Large => None,
    }
}

/// The sizes of the least witnesses of the two automata, and of the one that they share.
pub fn least_sizes(alloc: Global, spec: &Spec) -> Result<String, AllocError> {
    let first = size_of(&least_witness(alloc, &spec.initial)?);
    let second = size_of(&least_witness(alloc, &spec.forbidden)?);
    let common = size_of(&common_witness(alloc, &spec.initial, &spec.forbidden)?);
    format!(in alloc; "{first:?} {second:?} {common:?}\n")
}

/// The productive states of the initial automaton, and whether it accepts no term.
pub fn productive_states(alloc: Global, spec: &Spec) -> Result<String, AllocError> {
    let found = productive(alloc, &spec.initial)?;
    let empty = is_empty(alloc, &spec.initial)?;
    format!(in alloc; "{:?}, empty {empty}\n", found.as_slice())
}
