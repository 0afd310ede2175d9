//! Merging by equations.
ghost use Rattle.std.specs.Prelude.{◌≤◌, length};

use crate::automata::automaton_line;
use crate::members::is_state;
use crate::table::Call;
use eq_merge::{Renaming, forced_count, forced_pair, join_states};
use std::alloc::{AllocError, Global};
use ta_core::Spec;

/// What has become of each number below `next`.
fn images_of(alloc: Global, renaming: &Renaming, next: u32) -> Result<Vec<u32>, AllocError>
    requires { next ≤ length renaming.now }
{
    let mut images = Vec::new(alloc);
    for q in 0..next {
        images.push(renaming.image(q))?;
    }
    Ok(images)
}

/// The merged automaton, and what has become of each state.
pub fn merged_with_images(alloc: Global, spec: &Spec) -> Result<String, AllocError> {
    let (automaton, renaming) = eq_merge::merged(alloc, &spec.initial, spec.equations.as_slice())?;
    let images = images_of(alloc, &renaming, spec.initial.next())?;
    let line = automaton_line(alloc, &automaton)?;
    format!(in alloc; "{line} {:?}\n", images.as_slice())
}

/// The number of forced pairs, and the first ones, as many as the first number tells.
pub fn forced_pairs(alloc: Global, spec: &Spec, call: &Call) -> Result<String, AllocError> {
    let equations = spec.equations.as_slice();
    let mut pairs = Vec::new(alloc);
    for j in 0..call.number(0) {
        if let Some(pair) = forced_pair(alloc, &spec.initial, equations, u64::from(j))? {
            pairs.push(pair)?;
        }
    }
    let count = forced_count(alloc, &spec.initial, equations)?;
    format!(in alloc; "{count}: {:?}\n", pairs.as_slice())
}

/// The initial automaton with two of its states joined, those that the numbers tell.
pub fn joined(alloc: Global, spec: &Spec, call: &Call) -> Result<String, AllocError> {
    let (p, q) = (call.number(0), call.number(1));
    let states = spec.initial.states();
    if !is_state(states, p) || !is_state(states, q) {
        return format!(in alloc; "no state\n");
    }
    let (automaton, _) = join_states(alloc, &spec.initial, p, q)?;
    let line = automaton_line(alloc, &automaton)?;
    format!(in alloc; "{line}\n")
}
