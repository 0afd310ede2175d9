//! The check of an automaton, where the initial states keep their numbers.
use crate::members::are_states;
use crate::table::Call;
use closure_check::{Answer, Room, check};
use std::alloc::{AllocError, Global};
use ta_core::{Automaton, Map, Spec};
use timbuk_reader::read_spec;

/// The most bytes of the text of the automaton.
const MAX_TEXT: usize = 1000;

/// An answer in a line.
fn answer_line(alloc: Global, answer: &Answer) -> Result<String, AllocError> {
    match answer {
        Answer::Open(pair) => {
            let (rule, sigma, state) = (pair.rule, pair.sigma.as_slice(), pair.state);
            format!(in alloc; "Open {rule} {sigma:?} {state}\n")
        }
        other => format!(in alloc; "{other:?}\n"),
    }
}

/// The answer of the check with the automaton, where the two initial states keep their numbers.
fn answer_of(alloc: Global, spec: &Spec, automaton: &Automaton) -> Result<String, AllocError> {
    let mut room = Room::new(alloc, spec, automaton)?;
    let map = Map::from_slice(alloc, &[0, 1])?;
    if spec.initial.next() > 2 || !are_states(automaton.states(), map.as_slice()) {
        return format!(in alloc; "other states\n");
    }
    let answer = check(&mut room, spec, automaton, &map);
    answer_line(alloc, &answer)
}

/// The answer of the check with the first automaton of the specification that the first text spells.
pub fn check_with(alloc: Global, spec: &Spec, call: &Call) -> Result<String, AllocError> {
    let bytes = call.text(0).as_bytes();
    if bytes.len() > MAX_TEXT {
        return format!(in alloc; "a long text\n");
    }
    match read_spec(alloc, bytes) {
        Ok(other) => answer_of(alloc, spec, &other.initial),
        Err(_) => format!(in alloc; "no specification\n"),
    }
}
