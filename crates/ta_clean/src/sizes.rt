//! How small the terms are that run to pairs of states.
ghost use Rattle.std.specs.Prelude.{◌≡◌, ◌≤◌, ◌<◌, ◌+◌, ℕ, true, false, length, IfOk, IfSome, IfNone};
ghost use Rattle.ta_core.specs.Limits.{max_states};
ghost use Rattle.ta_clean.specs.Sizes.{IsPairOf, IsSizing, IsUnmade, MayLower, StopsWaiting, made_at, sum_at, waits_at, waits_in};

use crate::buckets::{Buckets, first_waiting};
use std::alloc::{AllocError, Global};
use std::marker::Model;

/// The number of a pair to which no term is known to run of at most 1,024 symbols.
pub(crate) const TOO_LARGE: u32 = 1025;

/// How small a term runs to a pair of states, and by which transitions of the two automata it is made.
#[derive(Clone, Copy)]
pub(crate) struct Made {
    /// A term of at most so many symbols runs to the pair.
    pub(crate) size: u32,
    /// Whether what this number leads to has yet to be looked at.
    pub(crate) waits: bool,
    /// The place of the first automaton's transition at its root.
    pub(crate) left: usize,
    /// The place of the second automaton's transition at its root.
    pub(crate) right: usize,
}

/// What is known of a pair at first.
const UNMADE: Made = Made {
    size: TOO_LARGE,
    waits: false,
    left: 0,
    right: 0,
};

/// How small terms run to the pairs of a number below the height and one below the width, and which pairs wait. Contracts see the
/// numbers, and for each pair whether it waits.
#[derive(Drop)]
pub(crate) struct SizeTable {
    height: usize,
    width: usize,
    made: Vec<Made>,
    // The places that wait, but for those for which there was no memory.
    buckets: Buckets,
}

impl Model for SizeTable {
    ghost use Rattle.ta_clean.specs.Sizes.{Sizing, IsSizing};

    ghost Value = { Sizing };

    ghost view = { λ sizes. record { height = sizes.height; width = sizes.width; made = sizes.made.items } };

    ghost invariant = { λ sizes. IsSizing (record { height = sizes.height; width = sizes.width; made = sizes.made.items }) };
}

impl SizeTable {
    /// A table of these bounds in which no pair has a term. The only error is running out of memory.
    pub(crate) fn new(alloc: Global, height: usize, width: usize) -> Result<SizeTable, AllocError>
        requires low { height ≤ max_states }
        requires narrow { width ≤ max_states }
        ensures { IfOk result (IsUnmade height width) }
    {
        let made = vec![in alloc; UNMADE; height * width]?;
        let buckets = Buckets::new(alloc)?;
        Ok(SizeTable {
            height,
            width,
            made,
            buckets,
        })
    }

    /// What is known of the pair.
    pub(crate) fn get(&self, first: u32, second: u32) -> Made
        ensures value { result ≡ made_at self.now (first, second) }
        ensures capped { result.size ≤ 1025 }
    {
        let place = first as usize * self.width + second as usize;
        if place < self.made.len() {
            return self.made[place];
        }
        UNMADE
    }

    /// Takes this in place of what is known of the pair, if it is a smaller number, and lets the pair wait then.
    pub(crate) fn lower(&mut self, first: u32, second: u32, made: Made)
        requires { IsPairOf self.old (first, second) }
        ensures may { MayLower self.old self.new (first, second) made }
        ensures table { IsSizing self.old }
    {
        let place = first as usize * self.width + second as usize;
        if made.size < self.made[place].size {
            self.made[place] = Made {
                waits: true,
                ..made
            };
            self.buckets.put(made.size, place);
        }
    }

    /// A pair that waits, if one does: one of least number, unless there was no memory for it. It no longer waits.
    pub(crate) fn take(&mut self) -> Option<(u32, u32)>
        ensures some { IfSome result (StopsWaiting self.old self.new) }
        ensures none { IfNone result ((pair : ℕ × ℕ) → waits_at self.new pair ≡ false) }
        ensures same { IfNone result (self.new ≡ self.old) }
        ensures table { IsSizing self.old }
    {
        let Some(place) = self.next_waiting() else {
            return None;
        };
        let made = self.made[place];
        self.made[place] = Made {
            waits: false,
            ..made
        };
        Some(((place / self.width) as u32, (place % self.width) as u32))
    }

    /// A place that waits, if one does: one of the buckets, or the first that is found once they have none.
    fn next_waiting(&mut self) -> Option<usize>
        ensures some { IfSome result (λ place. waits_in self.old.made place ≡ true) }
        ensures none { IfNone result ((place : ℕ) → waits_in self.old.made place ≡ false) }
        ensures same { self.new ≡ self.old }
        ensures table { IsSizing self.old }
    {
        if let Some(place) = self.buckets.take(self.made.as_slice()) {
            return Some(place);
        }
        first_waiting(self.made.as_slice())
    }

    /// The sum of the numbers of the pairs of a first and a second state at one place, and 1, at most `TOO_LARGE`.
    pub(crate) fn sum_of(&self, firsts: &[u32], seconds: &[u32]) -> u32
        requires { length firsts.now ≡ length seconds.now }
        ensures small { result < 1025 → result ≡ sum_at self.now firsts.now seconds.now + 1 }
        ensures large { 1025 ≤ result → 1025 ≤ sum_at self.now firsts.now seconds.now + 1 }
        ensures capped { result ≤ 1025 }
    {
        let mut sum = 1;
        for (place, first) in firsts.iter().enumerate() {
            sum += self.get(*first, seconds[place]).size;
            if sum >= TOO_LARGE {
                return TOO_LARGE;
            }
        }
        sum
    }
}
