//! An automaton with what its epsilon transitions lead to.
ghost use Rattle.std.specs.Prelude.{◌≡◌, ◌≤◌, ◌↔◌, ℕ, List, ◌++◌, length, Contains, IsTrue};
ghost use Rattle.ta_core.specs.Limits.{max_states};
ghost use Rattle.std.specs.Ordering.{nat_cmp};
ghost use Rattle.std.specs.List.Sorted.{IsStrictlySortedBy};
ghost use Rattle.ta_core.specs.TreeAutomaton.{IsSound};
ghost use Rattle.ta_core.specs.declared.trans.Trans.{Trans as Transition};
ghost use Rattle.closure_check.specs.Marking.{LeadsOn, LeadsBack};

use reach_rows::Reach;
use std::marker::Model;
use ta_core::{Automaton, Trans};

/// An automaton beside tables of what its epsilon transitions lead to, both ways. Contracts see the automaton.
#[derive(Drop)]
pub(crate) struct Prepared<'a> {
    automaton: &'a Automaton,
    forward: &'a Reach,
    back: &'a Reach,
}

impl<'a> Model for Prepared<'a> {
    ghost use Rattle.std.specs.Prelude.{◌≡◌, length};
    ghost use Rattle.ta_core.specs.TreeAutomaton.{TreeAutomaton};
    ghost use Rattle.closure_check.specs.Marking.{LeadsOn, LeadsBack};

    ghost Value = { TreeAutomaton };

    ghost view = { λ p. p.automaton.now };

    ghost invariant = { λ p. (¬ (length p.automaton.now.eps ≡ 0) → LeadsOn p.automaton.now p.forward.now)
        × (¬ (length p.automaton.now.eps ≡ 0) → LeadsBack p.automaton.now p.back.now) };
}

impl<'a> Prepared<'a> {
    /// The automaton with these tables, which are for its epsilon transitions if it has one.
    pub(crate) fn new(automaton: &'a Automaton, forward: &'a Reach, back: &'a Reach) -> Prepared<'a>
        requires forward { ¬ (length automaton.now.eps ≡ 0) → LeadsOn automaton.now forward.now }
        requires back { ¬ (length automaton.now.eps ≡ 0) → LeadsBack automaton.now back.now }
        ensures { result ≡ automaton.now }
    {
        Prepared {
            automaton,
            forward,
            back,
        }
    }

    /// The states in ascending order.
    pub(crate) fn states(&self) -> &[u32]
        ensures value { result.now ≡ self.now.states }
        ensures sorted { IsStrictlySortedBy nat_cmp self.now.states }
        ensures sound { IsSound self.now }
    {
        self.automaton.states()
    }

    /// The number above all states.
    pub(crate) fn next(&self) -> u32
        ensures value { result ≡ self.now.next }
        ensures few { self.now.next ≤ max_states }
        ensures sound { IsSound self.now }
    {
        self.automaton.next()
    }

    /// The final states in ascending order.
    pub(crate) fn finals(&self) -> &[u32]
        ensures value { result.now ≡ self.now.finals }
        ensures sorted { IsStrictlySortedBy nat_cmp self.now.finals }
        ensures sound { IsSound self.now }
    {
        self.automaton.finals()
    }

    /// The epsilon transitions.
    pub(crate) fn eps(&self) -> &[(u32, u32)]
        ensures value { result.now ≡ self.now.eps }
        ensures sound { IsSound self.now }
    {
        self.automaton.eps()
    }

    /// The epsilon transitions from the state.
    pub(crate) fn eps_from(&self, state: u32) -> &[(u32, u32)]
        ensures members { (e : ℕ × ℕ) → Contains result.now e ↔ (Contains self.now.eps e × (e.0 ≡ state)) }
        ensures sound { IsSound self.now }
    {
        self.automaton.eps_from(state)
    }

    /// The transitions of the symbol whose arguments begin with these states.
    pub(crate) fn trans_from(&self, sym: u32, prefix: &[u32]) -> &[Trans]
        ensures members { (t : Transition) → Contains result.now t ↔
            (Contains self.now.trans t × (t.sym ≡ sym) × ((rest : List ℕ) × (t.args ≡ prefix.now ++ rest))) }
        ensures sound { IsSound self.now }
    {
        self.automaton.trans_from(sym, prefix)
    }

    /// What the epsilon transitions lead to from each state, where there are some.
    pub(crate) fn forward(&self) -> &Reach
        ensures { ¬ (length self.now.eps ≡ 0) → LeadsOn self.now result.now }
    {
        self.forward
    }

    /// From which states the epsilon transitions lead to each, where there are some.
    pub(crate) fn back(&self) -> &Reach
        ensures { ¬ (length self.now.eps ≡ 0) → LeadsBack self.now result.now }
    {
        self.back
    }
}
