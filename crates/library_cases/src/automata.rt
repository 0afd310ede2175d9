//! Automata as texts.
use std::alloc::{AllocError, Global};
use ta_core::Automaton;

/// The automaton's next number, its states, its final states, its transitions as `symbol(states)>target`, and its epsilon
/// transitions.
pub fn automaton_line(alloc: Global, automaton: &Automaton) -> Result<String, AllocError> {
    let (next, states, finals) = (automaton.next(), automaton.states(), automaton.finals());
    let mut line = format!(in alloc; "{next} {states:?} {finals:?}")?;
    for trans in automaton.trans() {
        let (sym, args, to) = (trans.sym, trans.args.as_slice(), trans.to);
        line.push_str(&format!(in alloc; " {sym}{args:?}>{to}")?)?;
    }
    let eps = automaton.eps();
    line.push_str(&format!(in alloc; " {eps:?}")?)?;
    Ok(line)
}
