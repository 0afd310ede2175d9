//! What epsilon transitions lead to.
ghost use Rattle.std.specs.Prelude.{◌≡◌, ◌↔◌, ℕ, true, false, All, Contains, IfOk};
ghost use Rattle.ta_core.specs.Reached.{ReachedFrom};
ghost use Rattle.state_match.specs.Sets.{LeadsOn};

use crate::known::Known;
use reach_rows::{Bits, Reach};
use std::alloc::{AllocError, Global};
use ta_core::{Automaton, StateSet};

// No table is made for at most so many epsilon transitions.
const FEW: usize = 64;

/// A table of what the epsilon transitions of an automaton lead to, where there are many of them.
#[derive(Drop)]
pub(crate) struct Closures {
    alloc: Global,
    has_rows: bool,
    reach: Reach,
}

impl Closures {
    /// The table for the automaton. The only error is running out of memory.
    pub(crate) fn of(alloc: Global, automaton: &Automaton) -> Result<Closures, AllocError>
        ensures { IfOk result (λ closures. closures.has_rows ≡ true → LeadsOn automaton.now closures.reach) }
    {
        let eps = automaton.eps();
        let has_rows = eps.len() > FEW;
        let size = if has_rows {
            automaton.next() as usize
        } else {
            0
        };
        let mut reach = Reach::new(alloc, size, 0)?;
        if has_rows {
            reach.fill(eps);
        }
        Ok(Closures {
            alloc,
            has_rows,
            reach,
        })
    }

    /// The states to which epsilon transitions of the automaton lead from the members of the set, in any number of steps. The
    /// only error is running out of memory.
    pub(crate) fn closed(&self, automaton: &Automaton, set: StateSet) -> Result<Known, AllocError>
        requires leads { self.now.has_rows ≡ true → LeadsOn automaton.now self.now.reach }
        requires inside { All (Contains automaton.now.states) set }
        ensures { IfOk result (λ known. (q : ℕ) → Contains known q ↔ ReachedFrom automaton.now set q) }
    {
        if !leads_on(automaton, &set) {
            return Ok(Known::listed(set));
        }
        if !self.has_rows {
            let closed = automaton.closure_of(&set)?;
            return Ok(Known::listed(closed));
        }
        let size = automaton.next() as usize;
        let mut bits = Bits::new(self.alloc, size)?;
        self.reach.join_rows(set.as_slice(), &mut bits);
        Known::marked(self.alloc, bits, size)
    }
}

/// Whether an epsilon transition may lead on from a member.
fn leads_on(automaton: &Automaton, set: &StateSet) -> bool
    ensures { result ≡ false → (p q : ℕ) → Contains set.now p → Contains automaton.now.eps (p, q) → ⊥ }
{
    for state in set.as_slice() {
        if !automaton.eps_from(*state).is_empty() {
            return true;
        }
    }
    false
}
