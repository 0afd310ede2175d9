//! Tree automata and the calls that build and read them.
ghost use Rattle.std.specs.Prelude.{◌≡◌, ◌≢◌, ◌<◌, ◌≤◌, ◌+◌, ◌⊎◌, ◌↔◌, ℕ, [], ◌∷◌, ◌++◌, All, Contains, IsTrue, false};
ghost use Rattle.std.specs.Prelude.{IfOk, OnOk, OnErr, IsErrOf};
ghost use Rattle.std.specs.Ordering.{nat_cmp};
ghost use Rattle.std.specs.List.Sorted.{IsStrictlySortedBy};
ghost use Rattle.std.specs.BTreeSet.{insert_key};
ghost use Rattle.list_laws.specs.Lists.{IsUnion};
ghost use Rattle.ta_core.specs.Limits.{max_states};
ghost use Rattle.ta_core.specs.TreeAutomaton.{IsSound, IsTransOf, IsEpsOf, bare, trans_of, trans_cmp, pair_cmp};

use crate::args::Args;
use crate::sorted::Sorted;
use crate::trans::Trans;
use ranked_terms::Seq;
use std::alloc::{AllocError, Global};
use std::marker::Model;

/// The greatest number of states.
pub const MAX_STATES: u32 = 16384;

/// Why an automaton got no new state.
#[derive(Debug, Clone, Copy, PartialEq, Eq)]
pub enum StateError {
    /// There are `MAX_STATES` numbers already.
    Full,
    /// There was no memory.
    Memory,
}

impl From<AllocError> for StateError {
    ghost use Rattle.std.specs.Prelude.{◌≡◌};
    ghost use Rattle.ta_core.specs.declared.automaton.StateError.TheVariants.{Memory};

    ghost from_gives = { λ _ error. error ≡ Memory };

    fn from(_error: AllocError) -> StateError {
        StateError::Memory
    }
}

/// A finite bottom-up tree automaton with epsilon transitions (TATA, section 1.1).
///
/// Its lists ascend without doubles: states by number, transitions by symbol, arguments and target, epsilon transitions
/// as pairs. Each state that is named is in the list of states, each state is below `next`, and `next` is at most
/// `MAX_STATES`. No epsilon transition leads from a state to itself.
#[derive(Drop)]
pub struct Automaton {
    alloc: Global,
    states: Sorted<u32>,
    next: u32,
    finals: Sorted<u32>,
    trans: Sorted<Trans>,
    eps: Sorted<(u32, u32)>,
}

impl Model for Automaton {
    ghost use Rattle.ta_core.specs.TreeAutomaton.{TreeAutomaton, IsKept};

    ghost Value = { TreeAutomaton };

    ghost view = { λ a. record { states = a.states; next = a.next; finals = a.finals; trans = a.trans; eps = a.eps } };

    ghost invariant = { λ a. IsKept
        (record { states = a.states; next = a.next; finals = a.finals; trans = a.trans; eps = a.eps }) };
}

impl Automaton {
    /// The automaton without states, whose `next` is 0. It takes no memory yet, and grows by `alloc`.
    pub fn new(alloc: Global) -> Automaton
        ensures { result ≡ bare 0 [] }
    {
        Automaton {
            alloc,
            states: Sorted::new(alloc),
            next: 0,
            finals: Sorted::new(alloc),
            trans: Sorted::new(alloc),
            eps: Sorted::new(alloc),
        }
    }

    /// The automaton of these states and this `next` alone, with no final state and no transition. The only error is
    /// running out of memory.
    pub fn with_states(alloc: Global, next: u32, states: &[u32]) -> Result<Automaton, AllocError>
        requires few { next ≤ max_states }
        requires ascend { IsStrictlySortedBy nat_cmp states.now }
        requires below { All (λ q. q < next) states.now }
        ensures { IfOk result (λ automaton. automaton ≡ bare next states.now) }
    {
        let states = Sorted::from_slice(alloc, states)?;
        Ok(Automaton {
            alloc,
            states,
            next,
            finals: Sorted::new(alloc),
            trans: Sorted::new(alloc),
            eps: Sorted::new(alloc),
        })
    }

    /// The automaton of exactly these lists, each of them in its order and without doubles, whose parts name states of the list.
    /// It takes no memory: it keeps the lists as they are, and grows by `alloc`.
    pub fn from_lists(
        alloc: Global,
        next: u32,
        states: Seq<u32>,
        finals: Seq<u32>,
        trans: Seq<Trans>,
        eps: Seq<(u32, u32)>,
    ) -> Automaton
        requires few { next ≤ max_states }
        requires sound { IsSound (record { states = states; next = next; finals = finals; trans = trans; eps = eps }) }
        requires states { IsStrictlySortedBy nat_cmp states }
        requires finals { IsStrictlySortedBy nat_cmp finals }
        requires trans { IsStrictlySortedBy trans_cmp trans }
        requires eps { IsStrictlySortedBy pair_cmp eps }
        ensures { result ≡ record { states = states; next = next; finals = finals; trans = trans; eps = eps } }
    {
        Automaton {
            alloc,
            states: Sorted::from_vec(states.into_vec()),
            next,
            finals: Sorted::from_vec(finals.into_vec()),
            trans: Sorted::from_vec(trans.into_vec()),
            eps: Sorted::from_vec(eps.into_vec()),
        }
    }

    /// An equal automaton. The only error is running out of memory.
    pub fn copy(&self) -> Result<Automaton, AllocError>
        ensures { IfOk result (λ copy. copy ≡ self.now) }
    {
        Ok(Automaton {
            alloc: self.alloc,
            states: self.states.copy(self.alloc)?,
            next: self.next,
            finals: self.finals.copy(self.alloc)?,
            trans: self.trans.copy(self.alloc)?,
            eps: self.eps.copy(self.alloc)?,
        })
    }

    /// The same automaton without its epsilon transitions. The only error is running out of memory.
    pub fn without_eps(&self) -> Result<Automaton, AllocError>
        ensures { IfOk result (λ plain. plain ≡ record self.now { eps = [] }) }
    {
        Ok(Automaton {
            alloc: self.alloc,
            states: self.states.copy(self.alloc)?,
            next: self.next,
            finals: self.finals.copy(self.alloc)?,
            trans: self.trans.copy(self.alloc)?,
            eps: Sorted::new(self.alloc),
        })
    }

    /// Where the automaton's lists grow.
    pub(crate) fn alloc(&self) -> Global {
        self.alloc
    }

    /// The states in ascending order.
    pub fn states(&self) -> &[u32]
        ensures value { result.now ≡ self.now.states }
        ensures sorted { IsStrictlySortedBy nat_cmp self.now.states }
        ensures sound { IsSound self.now }
    {
        self.states.as_slice()
    }

    /// The number that the next state gets, above all states.
    pub fn next(&self) -> u32
        ensures value { result ≡ self.now.next }
        ensures few { self.now.next ≤ max_states }
        ensures sound { IsSound self.now }
    {
        self.next
    }

    /// The final states in ascending order.
    pub fn finals(&self) -> &[u32]
        ensures value { result.now ≡ self.now.finals }
        ensures sorted { IsStrictlySortedBy nat_cmp self.now.finals }
        ensures sound { IsSound self.now }
    {
        self.finals.as_slice()
    }

    /// The transitions, by symbol, arguments and target.
    pub fn trans(&self) -> &[Trans]
        ensures value { result.now ≡ self.now.trans }
        ensures sorted { IsStrictlySortedBy trans_cmp self.now.trans }
        ensures sound { IsSound self.now }
    {
        self.trans.as_slice()
    }

    /// The epsilon transitions `p -> q` as pairs, in ascending order.
    pub fn eps(&self) -> &[(u32, u32)]
        ensures value { result.now ≡ self.now.eps }
        ensures few { self.now.next ≤ max_states }
        ensures sorted { IsStrictlySortedBy pair_cmp self.now.eps }
        ensures sound { IsSound self.now }
    {
        self.eps.as_slice()
    }

    /// Adds the state `next`, which then rises by one, and gives its number. `Full` exactly where `next` is
    /// `MAX_STATES`. After an error the automaton is as before.
    pub fn add_state(&mut self) -> Result<u32, StateError>
        ensures number { IfOk result (λ q. q ≡ self.old.next) }
        ensures ok { OnOk result (self.new ≡
            record self.old { states = self.old.states ++ self.old.next ∷ []; next = self.old.next + 1 }) }
        ensures full { IsErrOf result StateError.Full ↔ (self.old.next ≡ max_states) }
        ensures err { OnErr result (self.new ≡ self.old) }
    {
        if self.next == MAX_STATES {
            return Err(StateError::Full);
        }
        let state = self.next;
        let _ = self.states.insert(state)?;
        self.next += 1;
        Ok(state)
    }

    /// Adds the transition `sym(args) -> to`, and says whether it was new. When memory runs out the automaton is as before.
    pub fn add_trans(&mut self, sym: u32, args: &[u32], to: u32) -> Result<bool, AllocError>
        requires args { All (Contains self.old.states) args.now }
        requires to { Contains self.old.states to }
        ensures new { IfOk result (λ new. IsTrue new ↔ ¬ Contains self.old.trans (trans_of sym args.now to)) }
        ensures ok { OnOk result (self.new ≡
            record self.old { trans = insert_key trans_cmp self.old.trans (trans_of sym args.now to) }) }
        ensures members { OnOk result (IsUnion self.old.trans (trans_of sym args.now to ∷ []) self.new.trans) }
        ensures err { OnErr result (self.new ≡ self.old) }
    {
        let args = Args::from_slice(self.alloc, args)?;
        self.trans.insert(Trans { sym, args, to })
    }

    /// Adds the epsilon transition `from -> to`, and says whether it was new. One from a state to itself is never added,
    /// and the answer is then false. When memory runs out the automaton is as before.
    pub fn add_eps(&mut self, from: u32, to: u32) -> Result<bool, AllocError>
        requires from { Contains self.old.states from }
        requires to { Contains self.old.states to }
        ensures same { from ≡ to → (self.new ≡ self.old) × (result ≡ Ok false) }
        ensures new { from ≢ to → IfOk result (λ new. IsTrue new ↔ ¬ Contains self.old.eps (from, to)) }
        ensures ok { from ≢ to → OnOk result (self.new ≡ record self.old { eps = insert_key pair_cmp self.old.eps (from, to) }) }
        ensures members { from ≢ to → OnOk result (IsUnion self.old.eps ((from, to) ∷ []) self.new.eps) }
        ensures err { OnErr result (self.new ≡ self.old) }
    {
        if from == to {
            return Ok(false);
        }
        self.eps.insert((from, to))
    }

    /// Makes a state final, and says whether it was not. When memory runs out the automaton is as before.
    pub fn set_final(&mut self, q: u32) -> Result<bool, AllocError>
        requires { Contains self.old.states q }
        ensures new { IfOk result (λ new. IsTrue new ↔ ¬ Contains self.old.finals q) }
        ensures ok { OnOk result (self.new ≡ record self.old { finals = insert_key nat_cmp self.old.finals q }) }
        ensures members { OnOk result (IsUnion self.old.finals (q ∷ []) self.new.finals) }
        ensures err { OnErr result (self.new ≡ self.old) }
    {
        self.finals.insert(q)
    }

    /// Adds many transitions, in any order and as often as they stand there: they are sorted, and merged with those that are
    /// there. When memory runs out the automaton is as before.
    pub fn add_all_trans(&mut self, more: Seq<Trans>) -> Result<(), AllocError>
        requires { All (IsTransOf self.old.states) more }
        ensures members { OnOk result (IsUnion self.old.trans more self.new.trans) }
        ensures sorted { OnOk result (IsStrictlySortedBy trans_cmp self.new.trans) }
        ensures rest { OnOk result (self.new ≡ record self.old { trans = self.new.trans }) }
        ensures err { OnErr result (self.new ≡ self.old) }
    {
        self.trans.add_all(more.into_vec())
    }

    /// Adds many epsilon transitions from a state to another one, in any order and as often as they stand there: they are
    /// sorted, and merged with those that are there. When memory runs out the automaton is as before.
    pub fn add_all_eps(&mut self, more: Seq<(u32, u32)>) -> Result<(), AllocError>
        requires { All (IsEpsOf self.old.states) more }
        ensures members { OnOk result (IsUnion self.old.eps more self.new.eps) }
        ensures sorted { OnOk result (IsStrictlySortedBy pair_cmp self.new.eps) }
        ensures rest { OnOk result (self.new ≡ record self.old { eps = self.new.eps }) }
        ensures err { OnErr result (self.new ≡ self.old) }
    {
        self.eps.add_all(more.into_vec())
    }

    /// Makes many states final, in any order and as often as they stand there: they are sorted, and merged with those that
    /// are there. When memory runs out the automaton is as before.
    pub fn set_all_final(&mut self, more: Seq<u32>) -> Result<(), AllocError>
        requires { All (Contains self.old.states) more }
        ensures members { OnOk result (IsUnion self.old.finals more self.new.finals) }
        ensures sorted { OnOk result (IsStrictlySortedBy nat_cmp self.new.finals) }
        ensures rest { OnOk result (self.new ≡ record self.old { finals = self.new.finals }) }
        ensures err { OnErr result (self.new ≡ self.old) }
    {
        self.finals.add_all(more.into_vec())
    }
}
