//! Laws of verdicts. Each function only calls laws: its contract is the law.
ghost use Rattle.verdicts.specs.VerdictLaws.{VerdictsAreOne, LimitedVerdictsAreOne};

use completion::laws::ends_are_one;
use derive_search::laws::answers_are_one;

/// The verdict on a specification with given options is one but for the derivation and the common term that are told: these
/// are any ones of the least number of steps and of least size.
pub fn verdicts_are_one()
    ensures one { VerdictsAreOne }
    ensures limits { LimitedVerdictsAreOne }
{
    // For the proof: a search has one answer, and an end of completion is one.
    answers_are_one();
    ends_are_one();
}
