//! Safety of a specification, from an automaton and a map that are accepted.
ghost use Rattle.ranked_terms.specs.declared.term.Term.{Term};
ghost use Rattle.ta_core.specs.Acceptance.{IsAccepted};
ghost use Rattle.ta_core.specs.Reachability.{Reachable, Forbidden};

use crate::automaton::Automaton;
use crate::map::Map;
use crate::spec::Spec;
use trs_rules::each_is_rule;

/// No term that is reachable from the initial language, in whatever number of steps, is forbidden (Feuillade, Genet and
/// Viet Triem Tong, JAR 2004). That the rules are rules and the automaton is sound is kept by their types. It looks at
/// each rule once, and takes no memory.
pub fn accepted_means_safe(spec: &Spec, automaton: &Automaton, map: &Map)
    requires accepted { IsAccepted spec.now automaton.now map.now }
    ensures { (t : Term) → Reachable spec.now t → Forbidden spec.now t → ⊥ }
{
    // For the proof: the contracts of these calls say that the rules are rules, and that the automaton is sound.
    each_is_rule(spec.rules.as_slice());
    let _ = automaton.next();
}
