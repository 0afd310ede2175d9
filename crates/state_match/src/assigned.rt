//! The states to which a pattern runs with states for its variables.
ghost use Rattle.std.specs.Prelude.{◌≡◌, ◌↔◌, ℕ, Contains, IfOk};
ghost use Rattle.ranked_terms.specs.Terms.{assigned};
ghost use Rattle.ta_core.specs.Closure.{state_in};
ghost use Rattle.ta_core.specs.Runs.{Runs};

use crate::join::value;
use crate::known::Known;
use crate::tabled::Tabled;
use ranked_terms::Pattern;
use std::alloc::{AllocError, Global};
use ta_core::{StateSet, assign};

/// The states to which the pattern runs with these states for its variables, both in the same order. A variable that is none of
/// `vars` stands for the state behind theirs, and one for which there is no state for 0. `all` has all states of the automaton.
/// The only error is running out of memory.
pub fn assigned_states(
    alloc: Global,
    automaton: &Tabled,
    all: &StateSet,
    pattern: &Pattern,
    vars: &[u32],
    states: &[u32],
) -> Result<StateSet, AllocError>
    requires { all.now ≡ automaton.now.states }
    ensures { IfOk result (λ found. (q : ℕ) →
        Contains found q ↔ Runs automaton.now (assigned (state_in vars.now states.now) pattern.now) q) }
{
    let found = assigned_known(alloc, automaton, all, pattern, vars, states)?;
    found.into_set(alloc)
}

/// As `assigned_states`, where the states need not be listed.
pub(crate) fn assigned_known(
    alloc: Global,
    automaton: &Tabled,
    all: &StateSet,
    pattern: &Pattern,
    vars: &[u32],
    states: &[u32],
) -> Result<Known, AllocError>
    requires { all.now ≡ automaton.now.states }
    ensures { IfOk result (λ found. (q : ℕ) →
        Contains found q ↔ Runs automaton.now (assigned (state_in vars.now states.now) pattern.now) q) }
{
    if let Some(found) = value(alloc, automaton, all, vars, states, pattern)? {
        return Ok(found);
    }
    let config = assign(alloc, pattern, vars, states)?;
    let listed = automaton.run_states(&config)?;
    Ok(Known::listed(listed))
}
