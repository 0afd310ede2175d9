//! Open pairs of the initial automaton.
ghost use Rattle.std.specs.Prelude.{◌≤◌, length};

use crate::table::Call;
use critical_pairs::{PairError, open_pairs};
use std::alloc::{AllocError, Global};
use ta_core::Spec;
use trs_rules::Pair;

/// Pairs, each in a line with its rule, its assignment and its state.
pub fn pair_lines(alloc: Global, pairs: &[Pair]) -> Result<String, AllocError> {
    let mut line = String::new(alloc);
    for pair in pairs {
        let (rule, sigma, state) = (pair.rule, pair.sigma.as_slice(), pair.state);
        line.push_str(&format!(in alloc; "{rule} {sigma:?} {state}\n")?)?;
    }
    Ok(line)
}

/// The open pairs up to the first number, or that there are more.
pub fn open_pair_lines(alloc: Global, spec: &Spec, call: &Call) -> Result<String, AllocError>
    requires { length spec.now.rules ≤ 1000 }
{
    let rules = spec.rules.as_slice();
    match open_pairs(alloc, &spec.initial, rules, call.number(0)) {
        Ok(all) => pair_lines(alloc, all.as_slice()),
        Err(PairError::More) => format!(in alloc; "more\n"),
        Err(PairError::Memory) => Err(AllocError),
    }
}
