//! The check.
ghost use Rattle.std.specs.Prelude.{◌≡◌, ◌↔◌, ◌≤◌, length, All, Contains};
ghost use Rattle.ranked_terms.specs.declared.term.Term.{Term};
ghost use Rattle.ta_core.specs.Reachability.{Reachable, Forbidden};
ghost use Rattle.ta_core.specs.Acceptance.{IsAccepted};
ghost use Rattle.closure_check.specs.Answers.{Answers};
ghost use Rattle.closure_check.specs.Rooms.{Fits};

use crate::answer::Answer;
use crate::room::Room;
use ta_core::laws::{accepted_terms_are_over, closed_automata_have_no_open_pair};
use ta_core::{Automaton, Map, Spec, accepted_means_safe};

/// Whether the automaton, with the map from the states of the initial one, is accepted: `Yes` exactly where it contains the
/// initial automaton, is closed under the rules and misses the forbidden language, and then no reachable term is forbidden
/// (Feuillade, Genet and Viet Triem Tong, JAR 2004). Else the answer names the first of the three that fails, and in it the
/// first member. It takes no memory, and leaves the room as it was for every specification and automaton.
pub fn check(room: &mut Room, spec: &Spec, automaton: &Automaton, map: &Map) -> Answer
    requires fits { Fits room.old spec.now automaton.now }
    requires map { spec.now.initial.next ≤ length map.now }
    requires states { All (Contains automaton.now.states) map.now }

    ensures answer { Answers spec.now automaton.now map.now result }
    ensures yes { (result ≡ Answer.Yes) ↔ IsAccepted spec.now automaton.now map.now }
    // Where the answer is yes, no term that is reachable, in whatever number of steps, is forbidden.
    ensures safe { result ≡ Answer.Yes → (t : Term) → Reachable spec.now t → Forbidden spec.now t → ⊥ }
    ensures kept { room.new ≡ room.old }
{
    // For the proof: the open pairs are among the triples, and what an automaton over the signature accepts is over it.
    closed_automata_have_no_open_pair();
    accepted_terms_are_over();
    if let Some(missing) = room.first_missing(&spec.initial, automaton, map) {
        return Answer::NotContained(missing);
    }
    if let Some(pair) = room.first_open(automaton, spec.rules.as_slice()) {
        return Answer::Open(pair);
    }
    if let Some((first, second)) = room.least_meeting(automaton, &spec.forbidden) {
        return Answer::Meets(first, second);
    }
    // For the proof: that nothing reachable is forbidden.
    accepted_means_safe(spec, automaton, map);
    Answer::Yes
}
