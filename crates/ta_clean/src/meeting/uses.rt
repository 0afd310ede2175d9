//! Where states stand among the arguments of an automaton's transitions.
ghost use Rattle.std.specs.Prelude.{◌≡◌, ◌⊎◌, ◌↔◌, ◌+◌, ◌≤◌, [], IfOk, IsTrue, Contains, length};
ghost use Rattle.std.specs.Vec.{vec_capacity};
ghost use Rattle.ta_clean.specs.Uses.{IsUseIn, AreUsesOf, places_of};
ghost use Rattle.ta_clean.specs.declared.meeting.uses.Use.{Use as Used};

use std::alloc::{AllocError, Global};
use std::marker::Model;
use ta_core::Trans;

/// A state as the argument of a symbol at a place. Slots are ordered by state, then by symbol, then by place.
#[derive(Clone, Copy, PartialEq, Eq, PartialOrd, Ord)]
pub(crate) struct Slot {
    /// The state.
    pub(crate) state: u32,
    /// The symbol's number.
    pub(crate) sym: u32,
    /// How many arguments stand before it.
    pub(crate) place: usize,
}

/// A state's use as an argument of a transition.
#[derive(Clone, Copy, PartialEq, Eq, PartialOrd, Ord)]
pub(crate) struct Use {
    /// The state, the transition's symbol and the place of the argument.
    pub(crate) slot: Slot,
    /// The transition's place in the list of transitions.
    pub(crate) position: usize,
}

/// All uses of states in a list of transitions, by slot. Contracts see them as a list, and how many there is memory for.
#[derive(Drop)]
pub(crate) struct Uses {
    items: Vec<Use>,
    room: usize,
}

impl Model for Uses {
    ghost use Rattle.std.specs.Prelude.{◌≤◌};
    ghost use Rattle.std.specs.Vec.{vec_capacity};
    ghost use Rattle.ta_clean.specs.Uses.{UseRoom};
    ghost use Rattle.ta_clean.specs.Slots.{AscendBySlot};

    ghost Value = { UseRoom };

    ghost view = { λ uses. record { uses = uses.items.items; room = uses.room } };

    ghost invariant = { λ uses. AscendBySlot uses.items.items × (uses.room ≤ vec_capacity uses.items) };
}

impl Uses {
    /// Memory for the uses in these transitions, without a use yet. The only error is running out of memory.
    pub(crate) fn new(alloc: Global, all: &[Trans]) -> Result<Uses, AllocError>
        ensures { IfOk result (λ uses. places_of all.now ≤ uses.room) }
    {
        let mut count: usize = 0;
        for trans in all {
            let Some(more) = count.checked_add(trans.args.as_slice().len()) else {
                return Err(AllocError);
            };
            count = more;
        }
        let items = Vec::with_capacity(alloc, count)?;
        Ok(Uses { items, room: count })
    }

    /// Whether there is memory for the uses in these transitions.
    pub(crate) fn fit(&self, all: &[Trans]) -> bool
        ensures { IsTrue result ↔ (places_of all.now ≤ self.now.room) }
    {
        let mut left = self.room;
        for trans in all {
            let count = trans.args.as_slice().len();
            if left < count {
                return false;
            }
            left -= count;
        }
        true
    }

    /// Takes the uses in these transitions in place of those that are there, by one sort. It takes no memory.
    pub(crate) fn refill(&mut self, all: &[Trans])
        requires { places_of all.now ≤ self.old.room }
        ensures uses { AreUsesOf all.now self.new.uses }
        ensures room { self.new.room ≡ self.old.room }
    {
        self.items.clear();
        for (position, trans) in all.iter().enumerate() {
            add_uses(&mut self.items, position, trans);
        }
        self.items.sort_unstable();
    }

    /// The uses of the state.
    pub(crate) fn of_state(&self, state: u32) -> &[Use]
        ensures { (used : Used) → Contains result.now used ↔ (Contains self.now.uses used × (used.slot.state ≡ state)) }
    {
        let all = self.items.as_slice();
        let start = all.partition_point(|used| used.slot.state < state);
        let rest = &all[start..];
        let count = rest.partition_point(|used| used.slot.state <= state);
        &rest[..count]
    }

    /// The uses at the slot.
    pub(crate) fn at_slot(&self, slot: Slot) -> &[Use]
        ensures { (used : Used) → Contains result.now used ↔ (Contains self.now.uses used × (used.slot ≡ slot)) }
    {
        let all = self.items.as_slice();
        let start = all.partition_point(|used| used.slot < slot);
        let rest = &all[start..];
        let count = rest.partition_point(|used| used.slot <= slot);
        &rest[..count]
    }
}

/// Adds the uses in the transition, which stands at this place of its list, after those that are there. It takes no memory.
fn add_uses(items: &mut Vec<Use>, position: usize, trans: &Trans)
    requires { length items.old.items + length trans.now.args ≤ vec_capacity items.old }
    ensures members { (used : Used) → Contains items.new.items used ↔ (Contains items.old.items used
        ⊎ ((used.position ≡ position) × IsUseIn trans.now used)) }
    ensures length { length items.new.items ≡ length items.old.items + length trans.now.args }
    ensures capacity { vec_capacity items.old ≤ vec_capacity items.new }
{
    for (place, state) in trans.args.as_slice().iter().enumerate() {
        let slot = Slot {
            state: *state,
            sym: trans.sym,
            place,
        };
        items.push(Use { slot, position }).unwrap();
    }
}
