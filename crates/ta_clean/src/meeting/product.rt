//! What pairs of states lead on to, by two automata together.
//!
//! Each pair is marked once and taken once. When it is taken, all that it may lead to is looked at: the epsilon
//! transitions from either state, and each two transitions of one symbol with the two states at one place. These lead on
//! where all pairs of their arguments are marked. So two transitions are looked at at most once for each argument, and
//! when the last of their pairs is taken all of them are marked.
ghost use Rattle.std.specs.Prelude.{◌≡◌, ◌↔◌, ℕ, IsTrue, Contains};
ghost use Rattle.ta_core.specs.declared.trans.Trans.{Trans as Transition};
ghost use Rattle.ta_core.specs.Meeting.{Meets};
ghost use Rattle.ta_clean.specs.Tables.{IsMarked, Keeps};
ghost use Rattle.ta_clean.specs.Products.{AllMeet, HasTable, StepsTo, Enters, EntersBy, EntersAt, Starts, AreAll};
ghost use Rattle.ta_clean.specs.Uses.{IsUseOf, AreUsesOf};

use super::grid::Grid;
use super::uses::{Slot, Use, Uses};
use std::marker::Model;
use ta_core::{Automaton, Trans};

/// Two automata, with the uses of their states. Contracts see the automata.
#[derive(Drop)]
pub(crate) struct Product<'a> {
    pub(crate) first: &'a Automaton,
    pub(crate) second: &'a Automaton,
    pub(crate) first_uses: &'a Uses,
    pub(crate) second_uses: &'a Uses,
}

impl<'a> Model for Product<'a> {
    ghost use Rattle.ta_clean.specs.Products.{TwoAutomata};
    ghost use Rattle.ta_clean.specs.Uses.{AreUsesOf};

    ghost Value = { TwoAutomata };

    ghost view = { λ product. record { first = product.first.now; second = product.second.now } };

    ghost invariant = { λ product. AreUsesOf product.first.now.trans product.first_uses.now.uses
        × AreUsesOf product.second.now.trans product.second_uses.now.uses };
}

impl<'a> Product<'a> {
    /// The two automata, with their uses.
    pub(crate) fn new(
        first: &'a Automaton,
        second: &'a Automaton,
        first_uses: &'a Uses,
        second_uses: &'a Uses,
    ) -> Product<'a>
        requires first { AreUsesOf first.now.trans first_uses.now.uses }
        requires second { AreUsesOf second.now.trans second_uses.now.uses }
        ensures { result ≡ record { first = first.now; second = second.now } }
    {
        Product {
            first,
            second,
            first_uses,
            second_uses,
        }
    }

    /// Marks all pairs of states to which one ground term runs, in a table in which none is marked.
    pub(super) fn mark_all(&self, grid: &mut Grid)
        requires table { HasTable self.now grid.old }
        requires none { (pair : ℕ × ℕ) → IsMarked grid.old pair → ⊥ }
        ensures exact { (pair : ℕ × ℕ) → IsMarked grid.new pair ↔ Meets self.now.first self.now.second pair }
        ensures height { grid.new.height ≡ grid.old.height }
        ensures width { grid.new.width ≡ grid.old.width }
    {
        self.mark_constants(grid);
        while let Some((first, second)) = grid.take() {
            self.follow_epsilons(first, second, grid);
            self.follow_transitions(first, second, grid);
        }
    }

    /// Marks the pairs to which a constant runs by one transition of each automaton.
    fn mark_constants(&self, grid: &mut Grid)
        requires table { HasTable self.now grid.old }
        requires meets { AllMeet self.now grid.old }
        ensures meets { AllMeet self.now grid.new }
        ensures kept { Keeps grid.old grid.new }
        ensures marked { (next : ℕ × ℕ) → Starts self.now next → IsMarked grid.new next }
    {
        for left in self.first.trans() {
            if left.args.as_slice().is_empty() {
                self.mark_constant(left, grid);
            }
        }
    }

    /// Marks the pairs to which the transition leads together with one of the second automaton that has the same symbol,
    /// where all pairs of their arguments are marked. At a constant there are none.
    fn mark_constant(&self, left: &Trans, grid: &mut Grid)
        requires has { Contains self.now.first.trans left.now }
        requires table { HasTable self.now grid.old }
        requires meets { AllMeet self.now grid.old }
        ensures meets { AllMeet self.now grid.new }
        ensures kept { Keeps grid.old grid.new }
        ensures marked { (right : Transition) (next : ℕ × ℕ) → Enters self.now (IsMarked grid.old) left.now right next
            → IsMarked grid.new next }
    {
        for right in self.second.trans_with(left.sym) {
            self.enter(left, right, grid);
        }
    }

    /// Marks the pairs to which an epsilon transition of either automaton leads from the marked pair.
    fn follow_epsilons(&self, first: u32, second: u32, grid: &mut Grid)
        requires table { HasTable self.now grid.old }
        requires meets { AllMeet self.now grid.old }
        requires marked { IsMarked grid.old (first, second) }
        ensures meets { AllMeet self.now grid.new }
        ensures kept { Keeps grid.old grid.new }
        ensures marked { (next : ℕ × ℕ) → StepsTo self.now (first, second) next → IsMarked grid.new next }
    {
        self.follow_firsts(first, second, grid);
        self.follow_seconds(first, second, grid);
    }

    /// Marks the pairs to which an epsilon transition of the first automaton leads from the marked pair.
    fn follow_firsts(&self, first: u32, second: u32, grid: &mut Grid)
        requires table { HasTable self.now grid.old }
        requires meets { AllMeet self.now grid.old }
        requires marked { IsMarked grid.old (first, second) }
        ensures meets { AllMeet self.now grid.new }
        ensures kept { Keeps grid.old grid.new }
        ensures marked { (p : ℕ) → Contains self.now.first.eps (first, p) → IsMarked grid.new (p, second) }
    {
        for (_, to) in self.first.eps_from(first) {
            grid.mark(*to, second);
        }
    }

    /// Marks the pairs to which an epsilon transition of the second automaton leads from the marked pair.
    fn follow_seconds(&self, first: u32, second: u32, grid: &mut Grid)
        requires table { HasTable self.now grid.old }
        requires meets { AllMeet self.now grid.old }
        requires marked { IsMarked grid.old (first, second) }
        ensures meets { AllMeet self.now grid.new }
        ensures kept { Keeps grid.old grid.new }
        ensures marked { (q : ℕ) → Contains self.now.second.eps (second, q) → IsMarked grid.new (first, q) }
    {
        for (_, to) in self.second.eps_from(second) {
            grid.mark(first, *to);
        }
    }

    /// Marks the pairs to which two transitions of one symbol lead that have the two states at one place, where all pairs of
    /// their arguments are marked.
    fn follow_transitions(&self, first: u32, second: u32, grid: &mut Grid)
        requires table { HasTable self.now grid.old }
        requires meets { AllMeet self.now grid.old }
        ensures meets { AllMeet self.now grid.new }
        ensures kept { Keeps grid.old grid.new }
        ensures marked { (next : ℕ × ℕ) → EntersAt self.now (IsMarked grid.old) (first, second) next → IsMarked grid.new next }
    {
        for used in self.first_uses.of_state(first) {
            self.follow_use(*used, second, grid);
        }
    }

    /// Marks the pairs to which the transition of this use leads together with one of the second automaton that has the
    /// state at the same place, where all pairs of their arguments are marked.
    fn follow_use(&self, used: Use, second: u32, grid: &mut Grid)
        requires used { IsUseOf self.now.first.trans used }
        requires table { HasTable self.now grid.old }
        requires meets { AllMeet self.now grid.old }
        ensures meets { AllMeet self.now grid.new }
        ensures kept { Keeps grid.old grid.new }
        ensures marked { (next : ℕ × ℕ) → EntersBy self.now (IsMarked grid.old) used second next → IsMarked grid.new next }
    {
        let left = &self.first.trans()[used.position];
        let rights = self.second.trans();
        let slot = Slot {
            state: second,
            ..used.slot
        };
        for other in self.second_uses.at_slot(slot) {
            self.enter(left, &rights[other.position], grid);
        }
    }

    /// Marks the pair to which the two transitions of one symbol lead, where all pairs of their arguments are marked.
    fn enter(&self, left: &Trans, right: &Trans, grid: &mut Grid)
        requires first { Contains self.now.first.trans left.now }
        requires second { Contains self.now.second.trans right.now }
        requires same { left.now.sym ≡ right.now.sym }
        requires table { HasTable self.now grid.old }
        requires meets { AllMeet self.now grid.old }
        ensures meets { AllMeet self.now grid.new }
        ensures kept { Keeps grid.old grid.new }
        ensures marked { (next : ℕ × ℕ) → Enters self.now (IsMarked grid.old) left.now right.now next → IsMarked grid.new next }
    {
        // For the proof: their contracts say what holds of every automaton.
        let _ = self.first.next();
        let _ = self.second.next();
        if are_marked(grid, left.args.as_slice(), right.args.as_slice()) {
            grid.mark(left.to, right.to);
        }
    }
}

/// Whether there are as many of both states, and each two at one place are marked as a pair.
fn are_marked(grid: &Grid, firsts: &[u32], seconds: &[u32]) -> bool
    ensures { IsTrue result ↔ AreAll (IsMarked grid.now) firsts.now seconds.now }
{
    firsts.len() == seconds.len()
        && firsts
            .iter()
            .zip(seconds)
            .all(|(first, second)| grid.contains(*first, *second))
}
