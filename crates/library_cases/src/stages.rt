//! Stages of completion.
ghost use Rattle.std.specs.Prelude.{◌≤◌, length};

use crate::automata::automaton_line;
use crate::pairs::pair_lines;
use crate::table::Call;
use completion::{Core, StageEnd};
use critical_pairs::PairError;
use std::alloc::{AllocError, Global};
use ta_core::{MAX_STATES, Options, Spec};

/// How completion ended, and the automaton and the map at which it did.
fn end_line(alloc: Global, core: &Core, end: &StageEnd) -> Result<String, AllocError> {
    let automaton = core.automaton();
    let (next, count) = (automaton.next(), automaton.trans().len());
    let (eps, map) = (automaton.eps(), core.map().as_slice());
    format!(in alloc; "{end:?} {next} {count} {eps:?} {map:?}\n")
}

/// The call's numbers as the options `rounds`, `pairs` and `states`, where they are in their ranges.
fn options_of(call: &Call) -> Option<Options> {
    let (rounds, pairs, states) = (call.number(0), call.number(1), call.number(2));
    if rounds > 1000 || pairs > 1_000_000 || states == 0 || states > MAX_STATES {
        return None;
    }
    Some(Options {
        rounds,
        steps: 5,
        height: 4,
        terms: 5000,
        pairs,
        states,
    })
}

/// How completion ends within the options of the call.
pub fn last_stage(alloc: Global, spec: &Spec, call: &Call) -> Result<String, AllocError>
    requires { length spec.now.rules ≤ 1000 }
{
    let Some(options) = options_of(call) else {
        return format!(in alloc; "other options\n");
    };
    let (core, end) = completion::stages(alloc, spec, options)?;
    end_line(alloc, &core, &end)
}

/// The open pairs of a stage, each in a line.
fn open_lines(alloc: Global, core: &Core) -> Result<String, AllocError> {
    match core.open_list() {
        Ok(pairs) => pair_lines(alloc, pairs.as_slice()),
        Err(PairError::More) => format!(in alloc; "more\n"),
        Err(PairError::Memory) => Err(AllocError),
    }
}

/// The automaton, the map and the open pairs of a stage.
fn stage_lines(alloc: Global, core: &Core) -> Result<String, AllocError> {
    let automaton = automaton_line(alloc, core.automaton())?;
    let pairs = open_lines(alloc, core)?;
    format!(in alloc; "{automaton} {:?}\n{pairs}", core.map().as_slice())
}

/// The automaton, the map and the open pairs of the first stage.
pub fn first_stage(alloc: Global, spec: &Spec) -> Result<String, AllocError>
    requires { length spec.now.rules ≤ 1000 }
{
    let core = Core::start(alloc, spec, Options::default())?;
    stage_lines(alloc, &core)
}
