//! Merging by equations.
ghost use Rattle.std.specs.Prelude.{◌≡◌, ◌<◌, ◌≤◌, ℕ, length, All, IsTrue, not, IfOk};
ghost use Rattle.ta_core.specs.TreeAutomaton.{IsSound};
ghost use Rattle.trs_rules.specs.Rules.{IsEquation};
ghost use Rattle.eq_merge.specs.CoherenceLaws.{MergeKeepsCoherence};
ghost use Rattle.eq_merge.specs.Merging.{ForcesNothing, IsLeastMerge, Merged};
ghost use Rattle.eq_merge.specs.MergingLaws.{IsInOrder};
ghost use Rattle.eq_merge.specs.Passes.{GoesOn};

use crate::following::follow;
use crate::laws::{merging_has_a_result, merging_keeps_coherence};
use crate::passes::join_equated;
use crate::quotient::quotient_by;
use crate::renaming::Renaming;
use std::alloc::{AllocError, Global};
use ta_core::Automaton;
use trs_rules::Equation;

/// Merges states by equations, until no two are forced together, and says which state stands for each one (Genet and Rusu,
/// JSC 2010). Whatever the order, it is the quotient by the least equivalence in whose quotient nothing is forced. The only
/// error is running out of memory.
pub fn merged(
    alloc: Global,
    a: &Automaton,
    equations: &[Equation],
) -> Result<(Automaton, Renaming), AllocError>
    ensures merged { IfOk result (λ pair. Merged equations.now a.now pair.0 pair.1) }
    // No two states of the result are forced, and each equivalence of which this is true joins what is joined here.
    ensures least { IfOk result (λ pair. IsLeastMerge equations.now a.now pair.0 pair.1) }
    ensures coherent { IfOk result (λ pair. MergeKeepsCoherence equations.now a.now pair.0 pair.1) }
{
    // For the proof: the equations are such, the lists of the automaton ascend, what is least is merged, and merging keeps
    // coherence.
    each_is_equation(equations);
    lists_ascend(a);
    merging_has_a_result();
    merging_keeps_coherence();
    let mut merging = Merging {
        automaton: a.copy()?,
        renaming: Renaming::apart(alloc, a.next())?,
    };
    while merging.pass(alloc, equations)? {}
    Ok((merging.automaton, merging.renaming))
}

/// An automaton on its way, and which of its states stands for each one of the first automaton.
#[derive(Drop)]
struct Merging {
    automaton: Automaton,
    renaming: Renaming,
}

impl Merging {
    /// Puts together what the equations equate, and says whether there was something to put together. The only error is running
    /// out of memory.
    fn pass(&mut self, alloc: Global, equations: &[Equation]) -> Result<bool, AllocError>
        requires { All (λ q. q < self.old.automaton.next) self.old.renaming }
        ensures ends { IfOk result (λ more. IsTrue (not more) →
            (self.new ≡ self.old) × ForcesNothing self.old.automaton equations.now) }
        ensures goes_on { IfOk result (λ more. IsTrue more → GoesOn equations.now self.old self.new) }
    {
        // For the proof: the lists of the automaton ascend.
        lists_ascend(&self.automaton);
        let mut classes = Renaming::apart(alloc, self.automaton.next())?;
        join_equated(alloc, &self.automaton, equations, &mut classes)?;
        if classes.moved().is_none() {
            return Ok(false);
        }
        let classes = follow(alloc, &self.automaton, equations, classes)?;
        let renaming = self.renaming.followed(alloc, &classes)?;
        self.automaton = quotient_by(alloc, &self.automaton, &classes)?;
        self.renaming = renaming;
        Ok(true)
    }
}

/// Each member of a slice of equations is one, which their types keep. It reads each equation once, and takes no memory.
pub(crate) fn each_is_equation(equations: &[Equation])
    ensures { All IsEquation equations.now }
{
    for equation in equations {
        // For the proof: the contract of a call of it says that the equation is one.
        let _ = equation.vars();
    }
}

/// The lists of an automaton ascend, and what it names is a state, which its type keeps. It takes no memory.
pub(crate) fn lists_ascend(a: &Automaton)
    ensures order { IsInOrder a.now }
    ensures sound { IsSound a.now }
{
    // For the proof: the contract of each call says so of a list.
    let _ = a.states();
    let _ = a.finals();
    let _ = a.trans();
    let _ = a.eps();
}
