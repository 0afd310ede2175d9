//! Automata in which each state has one term.
ghost use Rattle.std.specs.Prelude.{◌≡◌, ◌↔◌, ◌<◌, ℕ, true, false, IsTrue, All};
ghost use Rattle.std.specs.List.Sorted.{IsStrictlySortedBy};
ghost use Rattle.ta_core.specs.TreeAutomaton.{trans_cmp};
ghost use Rattle.ta_core.specs.Coherence.{IsSingular};
ghost use Rattle.ta_core.specs.Singular.{flag, IsRising, AreMarked, IsSpoilt};

use crate::automaton::Automaton;
use crate::trans::Trans;

// As many as an automaton may have states.
const STATES: usize = 16384;

impl Automaton {
    /// Whether the automaton is singular: it has no epsilon transition, and to each state exactly one transition leads, whose
    /// arguments are all smaller states (this project's own).
    pub fn is_singular(&self) -> bool
        ensures { IsTrue result ↔ IsSingular self.now }
    {
        if !self.eps().is_empty() {
            return false;
        }
        let mut flags = [false; STATES];
        mark_targets(&mut flags, self.trans()) && are_marked(&flags, self.states())
    }
}

// Marks the target of each transition. False as soon as a target has been marked before, or a transition doesn't rise.
fn mark_targets(flags: &mut [bool; STATES], transitions: &[Trans]) -> bool
    requires below { All (λ t. t.to < 16384) transitions.now }
    requires sorted { IsStrictlySortedBy trans_cmp transitions.now }
    requires none { (q : ℕ) → flag flags.old q ≡ false }
    ensures yes { IsTrue result → AreMarked transitions.now flags.new }
    ensures no { result ≡ false → IsSpoilt transitions.now }
{
    for t in transitions {
        if flags[t.to as usize] || !rises(t) {
            return false;
        }
        flags[t.to as usize] = true;
    }
    true
}

// Whether all arguments are smaller than the target.
fn rises(t: &Trans) -> bool
    ensures { IsTrue result ↔ IsRising t.now }
{
    t.args.as_slice().iter().all(|p| *p < t.to)
}

fn are_marked(flags: &[bool; STATES], states: &[u32]) -> bool
    requires { All (λ q. q < 16384) states.now }
    ensures { IsTrue result ↔ All (λ q. flag flags.now q ≡ true) states.now }
{
    states.iter().all(|q| flags[*q as usize])
}
