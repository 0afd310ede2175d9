//! What is read of a specification's text, where it tells most: numbers, orders and what counts once.
use crate::automata::automaton_line;
use std::alloc::{AllocError, Global};
use ta_core::Spec;
use trs_rules::{Entry, Equation, Rule};

/// The two automata, each in a line.
pub fn both_automata(alloc: Global, spec: &Spec) -> Result<String, AllocError> {
    let initial = automaton_line(alloc, &spec.initial)?;
    let forbidden = automaton_line(alloc, &spec.forbidden)?;
    format!(in alloc; "{initial}\n{forbidden}\n")
}

/// A rule with its variables.
fn rule_line(alloc: Global, rule: &Rule) -> Result<String, AllocError> {
    let (left, right, vars) = (rule.left(), rule.right(), rule.vars());
    format!(in alloc; "{left:?} -> {right:?} {vars:?}\n")
}

/// An equation with its variables.
fn equation_line(alloc: Global, equation: &Equation) -> Result<String, AllocError> {
    let (left, right, vars) = (equation.left(), equation.right(), equation.vars());
    format!(in alloc; "{left:?} = {right:?} {vars:?}\n")
}

/// The rules and the equations, each in a line, and the number of declared variables.
pub fn rules_and_equations(alloc: Global, spec: &Spec) -> Result<String, AllocError> {
    let mut told = String::new(alloc);
    for rule in spec.rules.as_slice() {
        told.push_str(&rule_line(alloc, rule)?)?;
    }
    for equation in spec.equations.as_slice() {
        told.push_str(&equation_line(alloc, equation)?)?;
    }
    told.push_str(&format!(in alloc; "{}\n", spec.vars.len())?)?;
    Ok(told)
}

/// An entry of an approximation: its whole pattern, then its shapes and its target.
fn entry_line(alloc: Global, entry: &Entry) -> Result<String, AllocError> {
    let (whole, at, node, target) = (&entry.whole, &entry.at, &entry.node, entry.target);
    format!(in alloc; "{whole:?} {at:?} {node:?} {target}\n")
}

/// The entries of the approximation, each in a line, and the number of its states.
pub fn entries(alloc: Global, spec: &Spec) -> Result<String, AllocError> {
    let mut told = String::new(alloc);
    for entry in spec.entries.as_slice() {
        told.push_str(&entry_line(alloc, entry)?)?;
    }
    told.push_str(&format!(in alloc; "{} {}\n", spec.extra, spec.approximated)?)?;
    Ok(told)
}
