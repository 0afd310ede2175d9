//! Laws of quotients and merging. Each function does nothing: its contract is the law.
ghost use Rattle.eq_merge.specs.CoherenceLaws.{JoinsStayCoherent, MergesStayCoherent};
ghost use Rattle.eq_merge.specs.MergingLaws.{PlainRunsSurvive, ForcedPairsStay, QuotientsCompose, QuotientsAreSound};
ghost use Rattle.eq_merge.specs.MergingLaws.{EquivalencesFactor, ForcedPairsAreOne, MergedIsOne, MergedIsLeast, LeastMergeIsOne};
ghost use Rattle.eq_merge.specs.MergingLaws.{ForcedPairsAreThere, MergedIsThere, LeastMergeIsMerged, AnyOrderWill};

use ta_core::laws::runs_are_decided;
use trs_rules::laws::{arguments_lead, equations_are_both_ways, leads_is_a_preorder};

/// There is at most one list of forced pairs, and at most one result of merging.
pub fn merging_has_one_result()
    ensures lists { ForcedPairsAreOne }
    ensures merged { MergedIsOne }
{}

/// A run without epsilon transitions stays one in each quotient. So a forced pair is one state there, or forced there.
pub fn plain_runs_survive()
    ensures runs { PlainRunsSurvive }
    ensures forced { ForcedPairsStay }
{}

/// A quotient of an automaton is one, and the quotient of a quotient is one quotient.
pub fn quotients_compose()
    ensures sound { QuotientsAreSound }
    ensures compose { QuotientsCompose }
{}

/// Two states are put together by an equivalence. Each one that puts them together goes by way of the joined automaton.
pub fn equivalences_factor()
    ensures { EquivalencesFactor }
{}

/// Merging is the quotient by the least equivalence in whose quotient nothing is forced. There is only one such, so the order
/// of merges doesn't matter.
pub fn merging_is_least()
    ensures least { MergedIsLeast }
    ensures one { LeastMergeIsOne }
{}

/// There is a list of forced pairs, and, where each state is below `next`, a result of merging. The least merge is what merging
/// gives, whatever the order in which it was found.
pub fn merging_has_a_result()
    ensures lists { ForcedPairsAreThere }
    ensures there { MergedIsThere }
    ensures merged { LeastMergeIsMerged }
{
    // For the proof: whether a configuration runs to a state is decided.
    runs_are_decided();
}

/// Forced states may be joined in any order.
pub fn any_order_will_do()
    ensures { AnyOrderWill }
{}

/// Joining two states that are forced together keeps coherence, and so does merging: there are terms, equal modulo the equations
/// to those that represented the states before, with which the automaton is coherent (Genet and Rusu, JSC 2010).
pub fn merging_keeps_coherence()
    ensures joins { JoinsStayCoherent }
    ensures merges { MergesStayCoherent }
{
    // For the proof: laws of chains.
    leads_is_a_preorder();
    arguments_lead();
    equations_are_both_ways();
}
