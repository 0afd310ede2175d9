//! States for the variables of a pattern.
ghost use Rattle.std.specs.Prelude.{◌≡◌, ◌==◌, IfOk};
ghost use Rattle.std.specs.List.{position_or_len};
ghost use Rattle.ranked_terms.specs.Terms.{assigned};
ghost use Rattle.ta_core.specs.Closure.{state_in};

use ranked_terms::{Config, Pattern, Seq};
use std::alloc::{AllocError, Global};

/// The pattern with a state in the place of each variable, as a configuration: that of the variable at place `i` among
/// `variables` is the one at place `i` of `states`. The only error is running out of memory.
pub fn assign(
    alloc: Global,
    pattern: &Pattern,
    variables: &[u32],
    states: &[u32],
) -> Result<Config, AllocError>
    ensures { IfOk result (λ config. config ≡ assigned (state_in variables.now states.now) pattern.now) }
{
    match pattern {
        Pattern::Var(variable) => Ok(Config::State(state_of(*variable, variables, states))),
        Pattern::App(sym, args) => {
            let mut configs = Seq::new(alloc);
            for arg in args.as_slice() {
                configs.push(assign(alloc, arg, variables, states)?)?;
            }
            Ok(Config::App(*sym, configs))
        }
    }
}

// The state at the variable's place among the variables, and 0 where there is none.
fn state_of(variable: u32, variables: &[u32], states: &[u32]) -> u32
    ensures { result ≡ state_in variables.now states.now variable }
{
    states
        .get(place_of(variable, variables))
        .copied()
        .unwrap_or(0)
}

// The variable's place among the variables, and their number where it is none of them.
fn place_of(variable: u32, variables: &[u32]) -> usize
    ensures { result ≡ position_or_len (λ other. variable == other) variables.now }
{
    variables
        .iter()
        .position(|other| variable == *other)
        .unwrap_or(variables.len())
}
