//! Sets of states that grow: what a configuration reaches, before it is sorted.
ghost use Rattle.std.specs.Prelude.{◌≡◌, ◌⊎◌, ◌↔◌, ℕ, ◌==◌, [], IsTrue, All, Contains, List, ◌++◌, IfOk, OnOk, OnErr, slice_get};
ghost use Rattle.std.specs.List.{IsDistinct};
ghost use Rattle.indexmap.specs.IndexSet.{insert_key};
ghost use Rattle.ta_core.specs.Reached.{ReachedFrom};

use crate::automaton::Automaton;
use crate::state_set::StateSet;
use indexmap::IndexSet;
use std::alloc::{AllocError, Global};
use std::marker::Model;

/// States in the order in which they were added, none twice. Contracts see the list.
#[derive(Drop)]
pub(crate) struct Reached {
    alloc: Global,
    states: IndexSet<u32>,
}

impl Model for Reached {
    ghost use Rattle.std.specs.Prelude.{List, ℕ, ◌==◌};
    ghost use Rattle.std.specs.List.{IsDistinct};

    ghost Value = { List ℕ };

    ghost view = { λ set. set.states.keys };

    ghost invariant = { λ set. IsDistinct ◌==◌ set.states.keys };
}

impl Reached {
    /// The empty set. It takes no memory yet, and grows by `alloc`.
    pub(crate) fn new(alloc: Global) -> Reached
        ensures { result ≡ [] }
    {
        Reached {
            alloc,
            states: IndexSet::new(alloc),
        }
    }

    // The member at this place.
    fn get(&self, at: usize) -> Option<u32>
        ensures value { result ≡ slice_get self.now at }
        ensures distinct { IsDistinct ◌==◌ self.now }
    {
        self.states.get_index(at).copied()
    }

    /// Whether the state is a member.
    pub(crate) fn contains(&self, state: u32) -> bool
        ensures { IsTrue result ↔ Contains self.now state }
    {
        self.states.contains(&state)
    }

    /// Whether one of the states is a member.
    pub(crate) fn has_any(&self, states: &[u32]) -> bool
        ensures { IsTrue result ↔ ((q : ℕ) × Contains states.now q × Contains self.now q) }
    {
        states.iter().any(|state| self.contains(*state))
    }

    /// Adds the state as the last, unless it is a member. When memory runs out, the only error, the set stays as it was.
    pub(crate) fn add(&mut self, state: u32) -> Result<(), AllocError>
        ensures ok { OnOk result (self.new ≡ insert_key ◌==◌ self.old state) }
        ensures err { OnErr result (self.new ≡ self.old) }
    {
        let _ = self.states.insert(state)?;
        Ok(())
    }

    // Adds the state to which each of the epsilon transitions leads, after those that are there.
    fn add_targets(&mut self, eps: &[(u32, u32)]) -> Result<(), AllocError>
        ensures members { OnOk result ((q : ℕ) → Contains self.new q ↔
            (Contains self.old q ⊎ ((p : ℕ) × Contains eps.now (p, q)))) }
        ensures kept { OnOk result ((rest : List ℕ) × (self.new ≡ self.old ++ rest)) }
    {
        for (_, to) in eps {
            self.add(*to)?;
        }
        Ok(())
    }

    /// Adds these states as the last, without those that are members.
    pub(crate) fn add_all(&mut self, states: &[u32]) -> Result<(), AllocError>
        ensures { OnOk result ((q : ℕ) → Contains self.new q ↔ (Contains self.old q ⊎ Contains states.now q)) }
    {
        for state in states {
            self.add(*state)?;
        }
        Ok(())
    }

    /// The set of whatever the epsilon transitions lead to from its members, in any number of steps. Each state is taken
    /// once. The only error is running out of memory.
    pub(crate) fn closed(mut self, automaton: &Automaton) -> Result<Reached, AllocError>
        requires { All (Contains automaton.now.states) self }
        ensures { IfOk result (λ all. (q : ℕ) → Contains all q ↔ ReachedFrom automaton.now self q) }
    {
        let mut at = 0;
        while let Some(state) = self.get(at) {
            self.add_targets(automaton.eps_from(state))?;
            at += 1;
        }
        Ok(self)
    }

    /// The same set in ascending order, by one sort. The only error is running out of memory.
    pub(crate) fn to_set(&self) -> Result<StateSet, AllocError>
        ensures { IfOk result (λ all. (q : ℕ) → Contains all q ↔ Contains self.now q) }
    {
        let states = Vec::from_slice(self.alloc, self.states.as_slice())?;
        StateSet::from_states(self.alloc, states)
    }
}
