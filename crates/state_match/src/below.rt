//! What a pattern can run to at all, whatever its variables stand for, and how many variables decide what it runs to.
ghost use Rattle.std.specs.Prelude.{◌≡◌, IfOk};
ghost use Rattle.state_match.specs.Belows.{IsBelow, RunsInto};

use crate::join::applied;
use crate::known::Known;
use crate::places::place_of;
use crate::tabled::Tabled;
use ranked_terms::Pattern;
use std::alloc::{AllocError, Global};
use ta_core::StateSet;

/// To which states each argument of a pattern can run, whatever the variables stand for, and the same of its own arguments.
#[derive(Drop)]
pub(crate) struct Below {
    /// So many first variables decide to which states the pattern runs: 0 where it has none. It decides only what is looked up,
    /// never which matches there are.
    pub(crate) until: usize,
    /// The states of each argument.
    pub(crate) sets: Vec<Known>,
    /// What is below each argument.
    pub(crate) args: Vec<Below>,
}

impl Below {
    /// What is below the pattern. The only error is running out of memory.
    pub(crate) fn of(
        alloc: Global,
        automaton: &Tabled,
        all: &StateSet,
        vars: &[u32],
        pattern: &Pattern,
    ) -> Result<Below, AllocError>
        requires { all.now ≡ automaton.now.states }
        ensures { IfOk result (IsBelow automaton.now pattern.now) }
    {
        match pattern {
            Pattern::Var(variable) => Ok(Below {
                until: place_of(*variable, vars).saturating_add(1),
                sets: Vec::new(alloc),
                args: Vec::new(alloc),
            }),
            Pattern::App(sym, args) => {
                let mut sets = Vec::new(alloc);
                let mut belows = Vec::new(alloc);
                let mut until = 0;
                for arg in args.as_slice() {
                    let below = Below::of(alloc, automaton, all, vars, arg)?;
                    until = usize::max(until, below.until);
                    let set = reached(alloc, automaton, all, arg, &below)?;
                    let listed = set.listed_if(alloc, automaton.has_many(*sym))?;
                    sets.push(listed)?;
                    belows.push(below)?;
                }
                Ok(Below {
                    until,
                    sets,
                    args: belows,
                })
            }
        }
    }
}

/// The states to which the pattern can run, where that is known of its arguments. The only error is running out of memory.
fn reached(
    alloc: Global,
    automaton: &Tabled,
    all: &StateSet,
    pattern: &Pattern,
    below: &Below,
) -> Result<Known, AllocError>
    requires all { all.now ≡ automaton.now.states }
    requires below { IsBelow automaton.now pattern.now below.now }
    ensures { IfOk result (RunsInto automaton.now pattern.now) }
{
    match pattern {
        Pattern::Var(_) => {
            let states = StateSet::from_slice(alloc, automaton.states())?;
            Ok(Known::listed(states))
        }
        Pattern::App(sym, _) => applied(alloc, automaton, all, *sym, &below.sets),
    }
}
