//! Laws of stages. Each function only calls laws: its contract is the law.
ghost use Rattle.completion.specs.StagesLaws.{StagesAreOne, StagesAreThere, EndsAreOne};

use eq_merge::laws::{merging_has_a_result, merging_has_one_result};
use normalise::laws::{normalising_grows, normalising_has_a_result, normalising_has_one_result};
use ta_core::laws::{closed_automata_have_no_open_pair, open_pairs_are_listed};

/// The stage of a number is one automaton with one map.
pub fn stages_are_one()
    ensures { StagesAreOne }
{
    // For the proof: open pairs, normalising and merging have one result.
    closed_automata_have_no_open_pair();
    normalising_has_one_result();
    merging_has_one_result();
}

/// Each number has a stage: the open pairs are a list, they can be normalised one after the other, and merging comes to an end.
pub fn stages_are_there()
    ensures { StagesAreThere }
{
    // For the proof: there are open pairs, automata in which they are normalised, and merged ones.
    open_pairs_are_listed();
    normalising_has_a_result();
    normalising_grows();
    merging_has_a_result();
}

/// How a bounded completion ends is one, but for the common term that is told, which is any one of least size.
pub fn ends_are_one()
    ensures { EndsAreOne }
{
    // For the proof: a stage is one, and so is its list of open pairs, whose members are triples.
    stages_are_one();
    closed_automata_have_no_open_pair();
}
