//! A term of least size that two automata have in common, by the numbers of the pairs of their states.
ghost use Rattle.std.specs.Prelude.{◌≡◌, ◌≤◌, ℕ, IfOk, Contains};
ghost use Rattle.ranked_terms.specs.Limits.{max_size};
ghost use Rattle.ta_clean.specs.Sizes.{AreMade, HasSizes, IsLeastFinal, IsPairOf, IsTermOf, size_at};

use crate::sizes::SizeTable;
use ranked_terms::{Seq, Term};
use std::alloc::{AllocError, Global};
use std::marker::Model;
use ta_core::Automaton;

/// Two automata. Contracts see both.
#[derive(Drop)]
pub(crate) struct Both<'a> {
    first: &'a Automaton,
    second: &'a Automaton,
}

impl<'a> Model for Both<'a> {
    ghost use Rattle.ta_clean.specs.Products.{TwoAutomata};

    ghost Value = { TwoAutomata };

    ghost view = { λ both. record { first = both.first.now; second = both.second.now } };
}

impl<'a> Both<'a> {
    /// These two.
    pub(crate) fn new(first: &'a Automaton, second: &'a Automaton) -> Both<'a>
        ensures { result ≡ record { first = first.now; second = second.now } }
    {
        Both { first, second }
    }

    /// The final states of the two automata whose pair has the least number; these two or others.
    pub(crate) fn least_final(&self, sizes: &SizeTable, first: u32, second: u32) -> (u32, u32)
        requires first { Contains self.now.first.finals first }
        requires second { Contains self.now.second.finals second }
        ensures { IsLeastFinal self.now sizes.now result }
    {
        let mut least = (first, second);
        for state in self.first.finals() {
            least = self.least_with(sizes, *state, least);
        }
        least
    }

    /// The pair of the state and a final state of the second automaton that has the least number, or this one if it has.
    fn least_with(&self, sizes: &SizeTable, state: u32, pair: (u32, u32)) -> (u32, u32)
        requires state { Contains self.now.first.finals state }
        requires first { Contains self.now.first.finals pair.0 }
        requires second { Contains self.now.second.finals pair.1 }
        ensures first { Contains self.now.first.finals result.0 }
        ensures second { Contains self.now.second.finals result.1 }
        ensures falls { size_at sizes.now result ≤ size_at sizes.now pair }
        ensures least { (q : ℕ) → Contains self.now.second.finals q → size_at sizes.now result ≤ size_at sizes.now (state, q) }
    {
        let (mut first, mut second) = pair;
        for other in self.second.finals() {
            if sizes.get(state, *other).size < sizes.get(first, second).size {
                first = state;
                second = *other;
            }
        }
        (first, second)
    }

    /// A term that runs to both states, of at most so many symbols as the number of the pair. The only error is running out of
    /// memory.
    pub(crate) fn build(
        &self,
        alloc: Global,
        sizes: &SizeTable,
        first: u32,
        second: u32,
    ) -> Result<Term, AllocError>
        requires made { AreMade self.now sizes.now }
        requires has { HasSizes self.now sizes.now }
        requires within { IsPairOf sizes.now (first, second) }
        requires small { size_at sizes.now (first, second) ≤ max_size }
        ensures { IfOk result (IsTermOf self.now (first, second) (size_at sizes.now (first, second))) }
    {
        // For the proof: their contracts say what holds of every automaton.
        let _ = self.first.next();
        let _ = self.second.next();
        let made = sizes.get(first, second);
        let left = &self.first.trans()[made.left];
        let right = &self.second.trans()[made.right];
        let firsts = left.args.as_slice();
        let seconds = right.args.as_slice();
        let mut args = Seq::new(alloc);
        for (place, state) in firsts.iter().enumerate() {
            let arg = self.build(alloc, sizes, *state, seconds[place])?;
            args.push(arg)?;
        }
        Ok(Term {
            sym: left.sym,
            args,
        })
    }
}
