//! The walk over assignments.
ghost use Rattle.std.specs.Prelude.{◌≡◌, ◌↔◌, ◌⊎◌, ◌+◌, ◌≤◌, ℕ, List, [], ◌∷◌, length, Contains};
ghost use Rattle.ranked_terms.specs.Limits.{max_variables};
ghost use Rattle.std.specs.Prelude.{IsTrue, not, IfOk, IfSome, IfNone, OnOk, OnErr};
ghost use Rattle.state_match.specs.Groups.{TookAll, TookFirst, TookUpTo};

use crate::groups::Groups;
use std::alloc::AllocError;
use ta_core::StateSet;

/// What is left of a pattern whose first variables stand for states.
pub(crate) trait Narrowed: Drop {
    ghost use Rattle.std.specs.Prelude.{ℕ, List};

    /// With these states for the variables that are left, in their order, the pattern runs to the state.
    ghost matches: { Self → List ℕ → ℕ → Type 0 };

    /// States among which is each with which the next variable begins a match. The only error is running out of memory.
    fn candidates(&self) -> Result<StateSet, AllocError>
        ensures { IfOk result (λ all. (s : ℕ) (rest : List ℕ) (q : ℕ) → matches self.now (s ∷ rest) q → Contains all s) };

    /// What is left where the next variable stands for the state, or none where nothing is. The only error is running out of
    /// memory.
    fn with(&self, state: u32) -> Result<Option<Self>, AllocError>
        ensures some { IfOk result (λ next. IfSome next (λ next.
            (rest : List ℕ) (q : ℕ) → matches next rest q ↔ matches self.now (state ∷ rest) q)) }
        ensures none { IfOk result (λ next. IfNone next ((rest : List ℕ) (q : ℕ) → matches self.now (state ∷ rest) q → ⊥)) };

    /// The states to which the pattern runs, where no variable is left. The only error is running out of memory.
    fn states(&self) -> Result<StateSet, AllocError>
        ensures { IfOk result (λ all. (q : ℕ) → Contains all q ↔ matches self.now [] q) };
}

/// Hands the assignments that are left to the visitor in order, each behind the states that stand already, with all the
/// states to which the pattern runs by it, and says whether the visitor took them all. So many variables are left. The
/// only error is running out of memory.
pub(crate) fn walk<N: Narrowed, V: Groups>(
    rest: &N,
    more: usize,
    assignment: &mut Vec<u32>,
    visitor: &mut V,
) -> Result<bool, AllocError>
    requires long { (σ : List ℕ) (q : ℕ) → N.matches rest.now σ q → length σ ≡ more }
    requires short { length assignment.old.items + more ≤ max_variables }
    ensures kept { OnOk result (assignment.new.items ≡ assignment.old.items) }
    ensures whole { IfOk result (λ on. IsTrue on →
        TookAll V.took (N.matches rest.now) assignment.old.items visitor.old visitor.new) }
    ensures ended { IfOk result (λ on. IsTrue (not on) →
        TookUpTo V.took V.ended (N.matches rest.now) assignment.old.items visitor.old visitor.new) }
    ensures err { OnErr result (TookFirst V.took (N.matches rest.now) assignment.old.items visitor.old visitor.new
        ⊎ TookUpTo V.took V.broke (N.matches rest.now) assignment.old.items visitor.old visitor.new) }
{
    if more == 0 {
        return take_whole(rest, assignment.as_slice(), visitor);
    }
    let candidates = rest.candidates()?;
    for state in candidates.as_slice() {
        if let Some(next) = rest.with(*state)? {
            assignment.push(*state)?;
            let on = walk(&next, more - 1, assignment, visitor)?;
            let _ = assignment.pop();
            if !on {
                return Ok(false);
            }
        }
    }
    Ok(true)
}

/// As `walk`, where no variable is left: there is one assignment at most.
fn take_whole<N: Narrowed, V: Groups>(
    rest: &N,
    assignment: &[u32],
    visitor: &mut V,
) -> Result<bool, AllocError>
    requires long { (σ : List ℕ) (q : ℕ) → N.matches rest.now σ q → length σ ≡ 0 }
    requires short { length assignment.now ≤ max_variables }
    ensures whole { IfOk result (λ on. IsTrue on →
        TookAll V.took (N.matches rest.now) assignment.now visitor.old visitor.new) }
    ensures ended { IfOk result (λ on. IsTrue (not on) →
        TookUpTo V.took V.ended (N.matches rest.now) assignment.now visitor.old visitor.new) }
    ensures err { OnErr result (TookFirst V.took (N.matches rest.now) assignment.now visitor.old visitor.new
        ⊎ TookUpTo V.took V.broke (N.matches rest.now) assignment.now visitor.old visitor.new) }
{
    let found = rest.states()?;
    let states = found.as_slice();
    if states.is_empty() {
        return Ok(true);
    }
    visitor.take(assignment, states)
}
