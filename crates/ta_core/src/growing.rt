//! An automaton that grows by many transitions.
ghost use Rattle.std.specs.Prelude.{◌≡◌, ◌<◌, ◌≤◌, ◌+◌, ◌++◌, ℕ, All, Contains, IfOk, OnOk, OnErr, IfSome, IfNone};
ghost use Rattle.std.specs.List.Sorted.{IsStrictlySortedBy};
ghost use Rattle.list_laws.specs.InOrder.{in_order};
ghost use Rattle.ta_core.specs.Limits.{max_states};
ghost use Rattle.ta_core.specs.TreeAutomaton.{IsSound, IsTransOf, IsEpsOf, trans_of, trans_cmp, pair_cmp};
ghost use Rattle.ta_core.specs.Growth.{with_state, with_trans, with_eps, IsLeastTarget, HasNoTarget};
ghost use Rattle.ta_core.specs.KeptAside.{IsLeastOf, lesser as lesser_of, with_states};

use crate::args::Args;
use crate::automaton::Automaton;
use crate::trans::Trans;
use ranked_terms::Seq;
use std::alloc::{AllocError, Global};
use std::collections::BTreeSet;
use std::marker::Model;

/// An automaton and what is added to it, which contracts see as one automaton. What is added is kept aside in order, and
/// comes into the sorted lists once, by `finish`. So the least target of a symbol and arguments is found by two searches,
/// and where the work is given up the automaton is as before.
#[derive(Drop)]
pub struct Growing<'a> {
    base: &'a Automaton,
    fresh: u32,
    trans: BTreeSet<Trans>,
    eps: BTreeSet<(u32, u32)>,
}

impl<'a> Model for Growing<'a> {
    ghost use Rattle.ta_core.specs.TreeAutomaton.{TreeAutomaton, IsKept};
    ghost use Rattle.ta_core.specs.KeptAside.{grown_by};

    ghost Value = { TreeAutomaton };

    ghost view = { λ g. grown_by g.base.now g.fresh g.trans.keys g.eps.keys };

    ghost invariant = { λ g. IsKept (grown_by g.base.now g.fresh g.trans.keys g.eps.keys) };
}

impl<'a> Growing<'a> {
    /// The automaton itself. It takes no memory yet.
    pub fn on(base: &'a Automaton) -> Growing<'a>
        ensures { result ≡ base.now }
    {
        // For the proof: the lists ascend, and what they name is a state.
        let _ = base.trans();
        let _ = base.eps();
        let alloc = base.alloc();
        Growing {
            base,
            fresh: 0,
            trans: BTreeSet::new(alloc),
            eps: BTreeSet::new(alloc),
        }
    }

    /// The number that the next state gets.
    pub fn next(&self) -> u32
        ensures value { result ≡ self.now.next }
        ensures few { self.now.next ≤ max_states }
        ensures sound { IsSound self.now }
    {
        self.base.next() + self.fresh
    }

    /// Adds the state `next`, which then rises by one, and gives its number. It takes no memory.
    pub fn add_state(&mut self) -> u32
        requires { self.old.next < max_states }
        ensures number { result ≡ self.old.next }
        ensures grown { self.new ≡ with_state self.old }
    {
        let state = self.next();
        self.fresh += 1;
        state
    }

    /// The transition `sym(args) -> to` at its place. When memory runs out nothing is changed.
    pub fn add_trans(&mut self, sym: u32, args: &[u32], to: u32) -> Result<(), AllocError>
        requires args { All (Contains self.old.states) args.now }
        requires to { Contains self.old.states to }
        ensures ok { OnOk result (self.new ≡ with_trans self.old sym args.now to) }
        ensures err { OnErr result (self.new ≡ self.old) }
    {
        let args = Args::from_slice(self.base.alloc(), args)?;
        self.trans.insert(Trans { sym, args, to })?;
        Ok(())
    }

    /// The epsilon transition `from -> to` at its place, unless `from` is `to`. When memory runs out nothing is changed.
    pub fn add_eps(&mut self, from: u32, to: u32) -> Result<(), AllocError>
        requires from { Contains self.old.states from }
        requires to { Contains self.old.states to }
        ensures ok { OnOk result (self.new ≡ with_eps self.old from to) }
        ensures err { OnErr result (self.new ≡ self.old) }
    {
        if from == to {
            return Ok(());
        }
        self.eps.insert((from, to))?;
        Ok(())
    }

    /// The least target of a transition with this symbol and these arguments. The only error is running
    /// out of memory.
    pub fn least_target(&self, sym: u32, args: &[u32]) -> Result<Option<u32>, AllocError>
        ensures some { IfOk result (λ found. IfSome found (IsLeastTarget self.now sym args.now)) }
        ensures none { IfOk result (λ found. IfNone found (HasNoTarget self.now sym args.now)) }
        ensures sound { IsSound self.now }
    {
        let args = Args::from_slice(self.base.alloc(), args)?;
        let key = Trans { sym, args, to: 0 };
        let old = target_in_list(self.base.trans(), &key);
        let new = target_in_set(&self.trans, &key);
        Ok(lesser(old, new))
    }

    /// The automaton with all that was added, which comes into its lists at once. The only error is running out of memory.
    pub fn finish(self) -> Result<Automaton, AllocError>
        ensures { IfOk result (λ automaton. automaton ≡ self.entry) }
    {
        let Growing {
            base,
            fresh,
            trans,
            eps,
        } = self;
        let mut grown = with_fresh(base, fresh)?;
        add_trans_of(&mut grown, trans)?;
        add_eps_of(&mut grown, eps)?;
        Ok(grown)
    }
}

// The least target of the key's symbol and arguments in a list.
fn target_in_list(trans: &[Trans], key: &Trans) -> Option<u32>
    requires sorted { IsStrictlySortedBy trans_cmp trans.now }
    requires key { key.now.to ≡ 0 }
    ensures { IsLeastOf trans.now key.now result }
{
    let at = match trans.binary_search(key) {
        Ok(at) => at,
        Err(at) => at,
    };
    let next = trans.get(at)?;
    target_of(next, key)
}

// The same of a set.
fn target_in_set(trans: &BTreeSet<Trans>, key: &Trans) -> Option<u32>
    requires { key.now.to ≡ 0 }
    ensures { IsLeastOf trans.now.keys key.now result }
{
    let next = trans.range(key..).next()?;
    target_of(next, key)
}

// The target of a transition, if it has the key's symbol and arguments.
fn target_of(next: &Trans, key: &Trans) -> Option<u32>
    ensures some { IfSome result (λ p. next.now ≡ trans_of key.now.sym key.now.args p) }
    ensures none { IfNone result ((p : ℕ) → next.now ≡ trans_of key.now.sym key.now.args p → ⊥) }
{
    if next.sym == key.sym && next.args == key.args {
        Some(next.to)
    } else {
        None
    }
}

// The lesser one of those that are there.
fn lesser(p: Option<u32>, q: Option<u32>) -> Option<u32>
    ensures { result ≡ lesser_of p q }
{
    match (p, q) {
        (Some(p), Some(q)) => Some(p.min(q)),
        (Some(p), None) => Some(p),
        (None, other) => other,
    }
}

// A copy with so many states more.
fn with_fresh(base: &Automaton, fresh: u32) -> Result<Automaton, AllocError>
    requires { base.now.next + fresh ≤ max_states }
    ensures { IfOk result (λ grown. grown ≡ with_states base.now fresh) }
{
    let mut grown = base.copy()?;
    for _ in 0..fresh {
        let Ok(_) = grown.add_state() else {
            return Err(AllocError);
        };
    }
    Ok(grown)
}

// Adds the transitions of a set. The only error is running out of memory.
fn add_trans_of(grown: &mut Automaton, set: BTreeSet<Trans>) -> Result<(), AllocError>
    requires { All (IsTransOf grown.old.states) set.keys }
    ensures { OnOk result (grown.new ≡ record grown.old { trans = in_order trans_cmp (grown.old.trans ++ set.keys) }) }
{
    let more = listed(grown.alloc(), set)?;
    grown.add_all_trans(more)
}

// Adds the epsilon transitions of a set. The only error is running out of memory.
fn add_eps_of(grown: &mut Automaton, set: BTreeSet<(u32, u32)>) -> Result<(), AllocError>
    requires { All (IsEpsOf grown.old.states) set.keys }
    ensures { OnOk result (grown.new ≡ record grown.old { eps = in_order pair_cmp (grown.old.eps ++ set.keys) }) }
{
    let more = listed(grown.alloc(), set)?;
    grown.add_all_eps(more)
}

// The members of a set in order.
fn listed<T: Ord + Drop>(alloc: Global, set: BTreeSet<T>) -> Result<Seq<T>, AllocError>
    ensures { IfOk result (λ items. items ≡ set.keys) }
{
    let items: Vec<T> = set.into_iter().collect(alloc)?;
    Ok(Seq::from_vec(items))
}
