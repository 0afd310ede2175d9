//! The states that are listed.
ghost use Rattle.std.specs.Prelude.{◌≡◌, ◌↔◌, ◌<◌, IsTrue, IfOk, All, Contains};
ghost use Rattle.cert_text.specs.Taking.{Flags};

use std::alloc::{AllocError, Global};
use std::marker::Model;

/// Listed states, with a flag for each number below a bound, so that one look tells whether a number is listed.
#[derive(Drop)]
pub(crate) struct States {
    listed: Vec<u32>,
    flags: Vec<bool>,
}

impl Model for States {
    ghost use Rattle.std.specs.Prelude.{List, ℕ};
    ghost use Rattle.cert_text.specs.Taking.{Flags};

    ghost Value = { List ℕ };

    ghost view = { λ states. states.listed.items };

    ghost invariant = { λ states. Flags states.flags.items states.listed.items };
}

impl States {
    /// These states, which are below the bound. The only error is running out of memory.
    pub(crate) fn new(alloc: Global, bound: u32, listed: Vec<u32>) -> Result<States, AllocError>
        requires { All (λ q. q < bound) listed.items }
        ensures { IfOk result (λ states. states ≡ listed.items) }
    {
        let flags = flags_of(alloc, bound, listed.as_slice())?;
        Ok(States { listed, flags })
    }

    /// Whether the number is a state.
    pub(crate) fn has(&self, state: u32) -> bool
        ensures { IsTrue result ↔ Contains self.now state }
    {
        self.flags.get(state as usize).copied().unwrap_or(false)
    }

    /// The states.
    pub(crate) fn into_vec(self) -> Vec<u32>
        ensures { result.items ≡ self }
    {
        self.listed
    }
}

// The flags of these states.
fn flags_of(alloc: Global, bound: u32, listed: &[u32]) -> Result<Vec<bool>, AllocError>
    requires { All (λ q. q < bound) listed.now }
    ensures { IfOk result (λ flags. Flags flags.items listed.now) }
{
    let mut flags = vec![in alloc; false; bound as usize]?;
    for state in listed {
        flags[*state as usize] = true;
    }
    Ok(flags)
}

/// Whether each number is a state.
pub(crate) fn are_listed(numbers: &[u32], states: &States) -> bool
    ensures { IsTrue result ↔ All (Contains states.now) numbers.now }
{
    for number in numbers {
        let there = states.has(*number);
        if !there {
            return false;
        }
    }
    true
}
