//! Matches in the initial automaton: of the sides of equations against a walk over all assignments, and of left sides.
ghost use Rattle.std.specs.Prelude.{◌≤◌, IsTrue, length};
ghost use Rattle.ranked_terms.specs.Terms.{variables_of};

use crate::table::Call;
use ranked_terms::{Pattern, Seq};
use state_match::{Match, MatchError, Visit, each_match, matches, plain_matches};
use std::alloc::{AllocError, Global};
use ta_core::{Automaton, Spec, assign};
use trs_rules::Variables;

/// The most matches that are compared.
const MANY: u32 = 10_000;

/// Whether the pattern has at most 16 variables.
fn has_few_variables(pattern: &Pattern) -> bool
    ensures { IsTrue result → length (variables_of pattern.now) ≤ 16 }
{
    Variables::of(pattern).is_ok()
}

/// The states of the variables and the state of a match, after those of other matches.
fn add(numbers: &mut Vec<u32>, states: &[u32], state: u32) -> Result<(), AllocError> {
    numbers.extend_from_slice(states)?;
    numbers.push(state)?;
    Ok(())
}

/// The matches as numbers, up to a limit; `None` where there are more, or where the pattern has more than 16 variables.
fn match_numbers(
    alloc: Global,
    automaton: &Automaton,
    pattern: &Pattern,
    plain: bool,
    limit: u32,
) -> Result<Option<Vec<u32>>, AllocError> {
    if !has_few_variables(pattern) {
        return Ok(None);
    }
    let found = if plain {
        plain_matches(alloc, automaton, pattern, limit)
    } else {
        matches(alloc, automaton, pattern, limit)
    };
    match found {
        Ok(all) => {
            let numbers = numbers_of(alloc, all.as_slice())?;
            Ok(Some(numbers))
        }
        Err(MatchError::More) => Ok(None),
        Err(MatchError::Memory) => Err(AllocError),
    }
}

/// The matches as numbers.
fn numbers_of(alloc: Global, all: &[Match]) -> Result<Vec<u32>, AllocError> {
    let mut numbers = Vec::new(alloc);
    for found in all {
        add(&mut numbers, found.sigma.as_slice(), found.state)?;
    }
    Ok(numbers)
}

/// All lists of so many states, in the order of a dictionary.
fn assignments(alloc: Global, states: &[u32], count: usize) -> Result<Vec<Vec<u32>>, AllocError> {
    let mut lists = Vec::new(alloc);
    lists.push(Vec::new(alloc))?;
    for _ in 0..count {
        lists = longer_lists(alloc, &lists, states)?;
    }
    Ok(lists)
}

/// Each of the lists with each of the states behind it.
fn longer_lists(
    alloc: Global,
    lists: &Vec<Vec<u32>>,
    states: &[u32],
) -> Result<Vec<Vec<u32>>, AllocError> {
    let mut longer = Vec::new(alloc);
    for list in lists {
        for state in states {
            let mut more = Vec::from_slice(alloc, list.as_slice())?;
            more.push(*state)?;
            longer.push(more)?;
        }
    }
    Ok(longer)
}

/// The matches as numbers by a walk over all assignments; `None` where the pattern has more than 16 variables.
fn walked_numbers(
    alloc: Global,
    automaton: &Automaton,
    pattern: &Pattern,
    plain: bool,
) -> Result<Option<Vec<u32>>, AllocError> {
    let Ok(variables) = Variables::of(pattern) else {
        return Ok(None);
    };
    let vars = variables.as_slice();
    let mut numbers = Vec::new(alloc);
    for list in &assignments(alloc, automaton.states(), vars.len())? {
        let config = assign(alloc, pattern, vars, list.as_slice())?;
        let states = if plain {
            automaton.plain_states(&config)?
        } else {
            automaton.run_states(&config)?
        };
        for state in states.as_slice() {
            add(&mut numbers, list.as_slice(), *state)?;
        }
    }
    Ok(Some(numbers))
}

/// How many numbers the matches of the pattern are, where those of the walk are the same.
fn walked_count(
    alloc: Global,
    automaton: &Automaton,
    pattern: &Pattern,
    plain: bool,
) -> Result<Option<usize>, AllocError> {
    let found = match_numbers(alloc, automaton, pattern, plain, MANY)?;
    let walked = walked_numbers(alloc, automaton, pattern, plain)?;
    if found != walked {
        return Ok(None);
    }
    Ok(found.map(|numbers| numbers.len()))
}

/// The same of plain runs, and of all runs.
fn both_counts(
    alloc: Global,
    automaton: &Automaton,
    pattern: &Pattern,
) -> Result<String, AllocError> {
    let plain = walked_count(alloc, automaton, pattern, true)?;
    let all = walked_count(alloc, automaton, pattern, false)?;
    format!(in alloc; "{plain:?} {all:?}")
}

/// For each equation how many numbers the matches of its sides are, by plain runs and by all, where those of a walk over all
/// assignments are the same.
pub fn side_matches(alloc: Global, spec: &Spec) -> Result<String, AllocError> {
    let mut lines = String::new(alloc);
    for equation in spec.equations.as_slice() {
        let left = both_counts(alloc, &spec.initial, equation.left())?;
        let right = both_counts(alloc, &spec.initial, equation.right())?;
        lines.push_str(&format!(in alloc; "{left} = {right}\n")?)?;
    }
    Ok(lines)
}

/// Keeps the states of the matches that it is handed.
#[derive(Drop)]
struct States {
    states: Seq<u32>,
}

impl Visit for States {
    ghost took = { λ u m v. Unit {0} };

    fn visit(&mut self, found: &Match) -> Result<(), AllocError> {
        self.states.push(found.state)
    }
}

/// The states of the matches, one by one, where the pattern has at most 16 variables.
fn visited(
    alloc: Global,
    automaton: &Automaton,
    pattern: &Pattern,
) -> Result<Seq<u32>, AllocError> {
    let states = Seq::new(alloc);
    let mut visitor = States { states };
    if has_few_variables(pattern) {
        each_match(alloc, automaton, pattern, false, &mut visitor)?;
    }
    Ok(visitor.states)
}

/// For each rule the matches of its left side by plain runs and by all, up to the first number, and the states of its matches
/// one by one.
pub fn left_side_matches(alloc: Global, spec: &Spec, call: &Call) -> Result<String, AllocError> {
    let (automaton, limit) = (&spec.initial, call.number(0));
    let mut lines = String::new(alloc);
    for rule in spec.rules.as_slice() {
        let plain = match_numbers(alloc, automaton, rule.left(), true, limit)?;
        let all = match_numbers(alloc, automaton, rule.left(), false, limit)?;
        let states = visited(alloc, automaton, rule.left())?;
        lines.push_str(&format!(in alloc; "{plain:?} {all:?} {:?}\n", states.as_slice())?)?;
    }
    Ok(lines)
}
