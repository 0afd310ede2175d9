//! The transitions of a symbol and the epsilon transitions of a state, found by binary search.
ghost use Rattle.std.specs.Prelude.{◌≡◌, ◌≤◌, ◌↔◌, ℕ, List, ◌++◌, Contains};
ghost use Rattle.ta_core.specs.Limits.{max_states};
ghost use Rattle.ta_core.specs.TreeAutomaton.{IsSound};
ghost use Rattle.ta_core.specs.Orders.{rank_of};
ghost use Rattle.ta_core.specs.declared.trans.Trans.{Trans as Transition};

use crate::automaton::Automaton;
use crate::trans::Trans;
use std::cmp::Ordering;

impl Automaton {
    /// The transitions of the symbol.
    pub fn trans_with(&self, sym: u32) -> &[Trans]
        ensures members { (t : Transition) → Contains result.now t ↔ (Contains self.now.trans t × (t.sym ≡ sym)) }
        ensures sound { IsSound self.now }
    {
        let all = self.trans();
        let start = all.partition_point(|t| t.sym < sym);
        let rest = &all[start..];
        let count = rest.partition_point(|t| t.sym <= sym);
        &rest[..count]
    }

    /// The transitions of the symbol whose arguments begin with these states.
    pub fn trans_from(&self, sym: u32, prefix: &[u32]) -> &[Trans]
        ensures members { (t : Transition) → Contains result.now t ↔
            (Contains self.now.trans t × (t.sym ≡ sym) × ((rest : List ℕ) × (t.args ≡ prefix.now ++ rest))) }
        ensures sound { IsSound self.now }
    {
        let all = self.trans();
        let start = all.partition_point(|t| rank(t, sym, prefix) < 1);
        let rest = &all[start..];
        let count = rest.partition_point(|t| rank(t, sym, prefix) <= 1);
        &rest[..count]
    }

    /// The epsilon transitions from the state.
    pub fn eps_from(&self, state: u32) -> &[(u32, u32)]
        ensures members { (e : ℕ × ℕ) → Contains result.now e ↔ (Contains self.now.eps e × (e.0 ≡ state)) }
        ensures sound { IsSound self.now }
        ensures few { self.now.next ≤ max_states }
    {
        let all = self.eps();
        let start = all.partition_point(|pair| pair.0 < state);
        let rest = &all[start..];
        let count = rest.partition_point(|pair| pair.0 <= state);
        &rest[..count]
    }
}

// Where the transition stands beside those of the symbol whose arguments begin so: 0 before, 1 among, 2 behind them.
fn rank(t: &Trans, sym: u32, prefix: &[u32]) -> u8
    ensures { result ≡ rank_of sym prefix.now t.now }
{
    if t.sym < sym {
        return 0;
    }
    if sym < t.sym {
        return 2;
    }
    let args = t.args.as_slice();
    let count = if args.len() < prefix.len() {
        args.len()
    } else {
        prefix.len()
    };
    let first = &args[..count];
    match first.cmp(&prefix) {
        Ordering::Less => 0,
        Ordering::Equal => 1,
        Ordering::Greater => 2,
    }
}
