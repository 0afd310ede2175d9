//! Assignments of states to variables, and open pairs.
ghost use Rattle.std.specs.Prelude.{◌≡◌, ◌≤◌, length};

use smallvec::SmallVec;
use std::alloc::Global;
use std::marker::Model;

/// An assignment of states to the variables of a rule, in the order in which these first occur: a list of at most 16
/// states. It stands in the value itself, so that making one takes no memory.
#[derive(Debug, Drop)]
pub struct Sigma {
    states: SmallVec<u32, 16>,
}

impl Model for Sigma {
    ghost use Rattle.std.specs.Prelude.{List, ℕ, ◌≡◌, ◌≤◌, length};
    ghost use Rattle.std.specs.Coded.{coded_list, coded_ℕ};

    ghost Value = { List ℕ };

    ghost coded = { coded_list coded_ℕ };

    ghost view = { λ sigma. sigma.states.items };

    ghost invariant = { λ sigma. (length sigma.states.items ≤ 16) × (sigma.states.capacity ≡ 16) };
}

impl Sigma {
    /// The assignment of these states, of which there are at most 16. It is never refused.
    pub fn from_slice(alloc: Global, items: &[u32]) -> Sigma
        requires { length items.now ≤ 16 }
        ensures { result ≡ items.now }
    {
        let states = SmallVec::from_slice(alloc, items).unwrap();
        Sigma { states }
    }

    /// The states in order.
    pub fn as_slice(&self) -> &[u32]
        ensures value { result.now ≡ self.now }
        ensures short { length self.now ≤ 16 }
    {
        self.states.as_slice()
    }
}

/// A rule, an assignment of states to its variables and a state. It is open in an automaton where the assigned left
/// side runs to the state and the assigned right side does not (Feuillade, Genet and Viet Triem Tong, JAR 2004, where
/// it is a critical pair).
#[derive(Debug, Drop)]
pub struct Pair {
    /// The rule's number, from 0.
    pub rule: u32,
    /// The states of the rule's variables.
    pub sigma: Sigma,
    /// The state.
    pub state: u32,
}
