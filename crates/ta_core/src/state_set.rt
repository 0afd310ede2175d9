//! Sets of states.
ghost use Rattle.std.specs.Prelude.{◌≡◌, ◌↔◌, ℕ, IsTrue, Contains, IfOk};
ghost use Rattle.std.specs.Ordering.{nat_cmp};
ghost use Rattle.std.specs.List.Sorted.{IsStrictlySortedBy};

use crate::sorted::Sorted;
use std::alloc::{AllocError, Global};
use std::marker::Model;

/// A set of states, which contracts see as the list of its members in ascending order.
#[derive(Drop)]
pub struct StateSet {
    states: Sorted<u32>,
}

impl Model for StateSet {
    ghost use Rattle.std.specs.Prelude.{List, ℕ};

    ghost Value = { List ℕ };

    ghost view = { λ set. set.states };
}

impl StateSet {
    /// The set of these states, which ascend without doubles. The only error is running out of memory.
    pub fn from_slice(alloc: Global, items: &[u32]) -> Result<StateSet, AllocError>
        requires { IsStrictlySortedBy nat_cmp items.now }
        ensures { IfOk result (λ set. set ≡ items.now) }
    {
        let states = Sorted::from_slice(alloc, items)?;
        Ok(StateSet { states })
    }

    /// The set of these states, in any order and as often as they stand there. The only error is running out of memory.
    pub fn from_states(alloc: Global, items: Vec<u32>) -> Result<StateSet, AllocError>
        ensures { IfOk result (λ set. (q : ℕ) → Contains set q ↔ Contains items.items q) }
    {
        let mut states = Sorted::new(alloc);
        states.add_all(items)?;
        Ok(StateSet { states })
    }

    /// The members in ascending order.
    pub fn as_slice(&self) -> &[u32]
        ensures value { result.now ≡ self.now }
        ensures sorted { IsStrictlySortedBy nat_cmp self.now }
    {
        self.states.as_slice()
    }

    /// Whether the state is a member.
    pub fn contains(&self, state: u32) -> bool
        ensures { IsTrue result ↔ Contains self.now state }
    {
        self.as_slice().binary_search(&state).is_ok()
    }
}
