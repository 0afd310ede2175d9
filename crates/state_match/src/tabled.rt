//! An automaton with a table of what its epsilon transitions lead to.
ghost use Rattle.std.specs.Prelude.{◌≡◌, ◌↔◌, ℕ, All, Contains, IfOk};
ghost use Rattle.std.specs.Ordering.{nat_cmp};
ghost use Rattle.std.specs.List.Sorted.{IsStrictlySortedBy};
ghost use Rattle.ta_core.specs.TreeAutomaton.{IsSound, trans_cmp};
ghost use Rattle.ta_core.specs.Reached.{ReachedFrom};
ghost use Rattle.ta_core.specs.Runs.{Runs};

use crate::closures::Closures;
use crate::known::Known;
use ranked_terms::Config;
use std::alloc::{AllocError, Global};
use std::marker::Model;
use ta_core::{Automaton, StateSet, Trans};

// No list of a large set is made for so few transitions of a symbol.
const FEW: usize = 64;

/// An automaton, with a table of what its epsilon transitions lead to where there are many of them. Contracts see the
/// automaton.
#[derive(Drop)]
pub struct Tabled<'a> {
    automaton: &'a Automaton,
    closures: Closures,
}

impl<'a> Model for Tabled<'a> {
    ghost use Rattle.std.specs.Prelude.{◌≡◌, true};
    ghost use Rattle.ta_core.specs.TreeAutomaton.{TreeAutomaton};
    ghost use Rattle.state_match.specs.Sets.{LeadsOn};

    ghost Value = { TreeAutomaton };

    ghost view = { λ tabled. tabled.automaton.now };

    ghost invariant = { λ tabled. tabled.closures.has_rows ≡ true → LeadsOn tabled.automaton.now tabled.closures.reach };
}

impl<'a> Tabled<'a> {
    /// The automaton with its table. The only error is running out of memory.
    pub fn new(alloc: Global, automaton: &'a Automaton) -> Result<Tabled<'a>, AllocError>
        ensures { IfOk result (λ tabled. tabled ≡ automaton.now) }
    {
        let closures = Closures::of(alloc, automaton)?;
        Ok(Tabled {
            automaton,
            closures,
        })
    }

    /// The automaton.
    pub(crate) fn automaton(&self) -> &Automaton
        ensures { result.now ≡ self.now }
    {
        self.automaton
    }

    /// The states in ascending order.
    pub(crate) fn states(&self) -> &[u32]
        ensures value { result.now ≡ self.now.states }
        ensures sorted { IsStrictlySortedBy nat_cmp self.now.states }
        ensures sound { IsSound self.now }
    {
        self.automaton.states()
    }

    /// The transitions in ascending order.
    pub(crate) fn trans(&self) -> &[Trans]
        ensures value { result.now ≡ self.now.trans }
        ensures sorted { IsStrictlySortedBy trans_cmp self.now.trans }
        ensures sound { IsSound self.now }
    {
        self.automaton.trans()
    }

    /// How many transitions the symbol has.
    pub(crate) fn count_with(&self, sym: u32) -> usize
        ensures { IsSound self.now }
    {
        self.automaton.trans_with(sym).len()
    }

    /// Whether the symbol has so many transitions that large sets of arguments are listed.
    pub(crate) fn has_many(&self, sym: u32) -> bool {
        self.count_with(sym) > FEW
    }

    /// The states to which the configuration runs. The only error is running out of memory.
    pub(crate) fn run_states(&self, config: &Config) -> Result<StateSet, AllocError>
        ensures { IfOk result (λ all. (q : ℕ) → Contains all q ↔ Runs self.now config.now q) }
    {
        self.automaton.run_states(config)
    }

    /// The states to which epsilon transitions lead from the members of the set, in any number of steps. The only error is
    /// running out of memory.
    pub(crate) fn closed(&self, set: StateSet) -> Result<Known, AllocError>
        requires { All (Contains self.now.states) set }
        ensures { IfOk result (λ known. (q : ℕ) → Contains known q ↔ ReachedFrom self.now set q) }
    {
        self.closures.closed(self.automaton, set)
    }
}
