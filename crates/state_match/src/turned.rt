//! An automaton turned round, with a table of what its epsilon transitions lead to.
ghost use Rattle.std.specs.Prelude.{◌≡◌, ◌↔◌, ℕ, All, Contains, IfOk};
ghost use Rattle.std.specs.List.Sorted.{IsStrictlySortedBy};
ghost use Rattle.ta_core.specs.TreeAutomaton.{IsSound, trans_cmp};
ghost use Rattle.ta_core.specs.Reached.{ReachedFrom};
ghost use Rattle.state_match.specs.Rows.{IsReverse};

use crate::closures::Closures;
use crate::plain::reversed;
use std::alloc::{AllocError, Global};
use std::marker::Model;
use ta_core::{Automaton, StateSet, Trans};

/// An automaton turned round: see `reversed`. Contracts see the automaton that it was turned to.
#[derive(Drop)]
pub(crate) struct Turned {
    alloc: Global,
    automaton: Automaton,
    closures: Closures,
}

impl Model for Turned {
    ghost use Rattle.std.specs.Prelude.{◌≡◌, true};
    ghost use Rattle.ta_core.specs.TreeAutomaton.{TreeAutomaton};
    ghost use Rattle.state_match.specs.Sets.{LeadsOn};

    ghost Value = { TreeAutomaton };

    ghost view = { λ turned. turned.automaton };

    ghost invariant = { λ turned. turned.closures.has_rows ≡ true → LeadsOn turned.automaton turned.closures.reach };
}

impl Turned {
    /// The automaton turned round. The only error is running out of memory.
    pub(crate) fn of(alloc: Global, automaton: &Automaton) -> Result<Turned, AllocError>
        ensures { IfOk result (λ turned. IsReverse automaton.now turned) }
    {
        let automaton = reversed(alloc, automaton)?;
        let closures = Closures::of(alloc, &automaton)?;
        Ok(Turned {
            alloc,
            automaton,
            closures,
        })
    }

    /// The transitions in ascending order.
    pub(crate) fn trans(&self) -> &[Trans]
        ensures value { result.now ≡ self.now.trans }
        ensures sorted { IsStrictlySortedBy trans_cmp self.now.trans }
        ensures sound { IsSound self.now }
    {
        self.automaton.trans()
    }

    /// The states to which epsilon transitions lead from the members of the set, in any number of steps. The only error is
    /// running out of memory.
    pub(crate) fn closed(&self, set: StateSet) -> Result<StateSet, AllocError>
        requires { All (Contains self.now.states) set }
        ensures { IfOk result (λ all. (q : ℕ) → Contains all q ↔ ReachedFrom self.now set q) }
    {
        let known = self.closures.closed(&self.automaton, set)?;
        known.into_set(self.alloc)
    }
}
