//! Sets of states: small ones as lists, and large ones as bits.
ghost use Rattle.std.specs.Prelude.{◌≡◌, ◌↔◌, ◌<◌, ◌^◌, ℕ, IsTrue, Contains, IfOk, IfSome};
ghost use Rattle.reach_rows.specs.Bits.{Has};

use crate::rows::no_states;
use reach_rows::Bits;
use std::alloc::{AllocError, Global};
use std::marker::Model;
use ta_core::StateSet;

/// A set of states. Contracts see its members.
#[derive(Drop)]
pub(crate) struct Known {
    list: StateSet,
    // In place of the list: the members below the size.
    bits: Option<Bits>,
    size: usize,
}

impl Model for Known {
    ghost use Rattle.std.specs.Prelude.{◌<◌, ◌^◌, List, ℕ};
    ghost use Rattle.state_match.specs.Sets.{members_by};

    ghost Value = { List ℕ };

    ghost view = { λ known. members_by known.size known.list known.bits };

    ghost invariant = { λ known. known.size < 2 ^ 32 };
}

impl Known {
    /// The set of what is listed. It takes no memory.
    pub(crate) fn listed(list: StateSet) -> Known
        ensures { result ≡ list }
    {
        Known {
            list,
            bits: None,
            size: 0,
        }
    }

    /// The set of the states below the size that the bits have. The only error is running out of memory.
    pub(crate) fn marked(alloc: Global, bits: Bits, size: usize) -> Result<Known, AllocError>
        requires { size < 2 ^ 32 }
        ensures { IfOk result (λ known. (q : ℕ) → Contains known q ↔ ((q < size) × Has bits q)) }
    {
        let list = no_states(alloc)?;
        Ok(Known {
            list,
            bits: Some(bits),
            size,
        })
    }

    /// Whether the state is a member.
    pub(crate) fn contains(&self, state: u32) -> bool
        ensures { IsTrue result ↔ Contains self.now state }
    {
        let Some(bits) = &self.bits else {
            return self.list.contains(state);
        };
        if state as usize >= self.size {
            return false;
        }
        bits.contains(state)
    }

    /// The members, where they are listed.
    pub(crate) fn list(&self) -> Option<&[u32]>
        ensures { IfSome result (λ list. list.now ≡ self.now) }
    {
        if self.bits.is_some() {
            return None;
        }
        Some(self.list.as_slice())
    }

    /// The members as a list. The only error is running out of memory.
    pub(crate) fn into_set(self, alloc: Global) -> Result<StateSet, AllocError>
        ensures { IfOk result (λ set. (q : ℕ) → Contains set q ↔ Contains self q) }
    {
        let Known { list, bits, size } = self;
        let Some(bits) = bits else {
            return Ok(list);
        };
        let mut members = Vec::with_capacity(alloc, size)?;
        bits.list_below(size, &mut members);
        StateSet::from_states(alloc, members)
    }

    /// The same set, listed where it is asked for. The only error is running out of memory.
    pub(crate) fn listed_if(self, alloc: Global, is_asked: bool) -> Result<Known, AllocError>
        ensures { IfOk result (λ known. (q : ℕ) → Contains known q ↔ Contains self q) }
    {
        if !is_asked {
            return Ok(self);
        }
        let list = self.into_set(alloc)?;
        Ok(Known::listed(list))
    }
}
