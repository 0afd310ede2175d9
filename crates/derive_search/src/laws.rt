//! Laws of the bounded search, each as the contract of a function that does nothing.
ghost use Rattle.derive_search.specs.Laws.{StartsAreReached, ReachedByLevels, ReachedIsReachable, OverStays, AnswersAreOne};

use trs_rules::laws::derivations_are_chains;

/// What is reached within a number of steps: without a step the starts, and with one step more also what is one step from
/// what was reached.
pub fn reached_by_levels()
    ensures starts { StartsAreReached }
    ensures levels { ReachedByLevels }
    ensures reachable { ReachedIsReachable }
    ensures over { OverStays }
{}

/// A search has one answer, but for the choice of a derivation, of which all have the same number of steps.
pub fn answers_are_one()
    ensures { AnswersAreOne }
{
    // For the proof: a derivation is a chain of as many steps.
    derivations_are_chains();
}
