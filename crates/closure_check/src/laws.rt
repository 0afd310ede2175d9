//! Laws of the check. Each function does nothing: its contract is the law.
ghost use Rattle.ta_core.specs.TreeAutomaton.{TreeAutomaton};
ghost use Rattle.ta_core.specs.declared.spec.Spec.{Spec as Specification};
ghost use Rattle.std.specs.Prelude.{ℕ, List};
ghost use Rattle.closure_check.specs.Answers.{HasOneAnswer};

use ta_core::laws::{accepted_terms_are_over, closed_automata_have_no_open_pair};

/// A specification, an automaton and a map have one answer: no other one than that of `check` meets its contract.
pub fn answers_are_one()
    ensures { (spec : Specification) (A : TreeAutomaton) (h : List ℕ) → HasOneAnswer spec A h }
{
    // For the proof: the open pairs are among the triples, and what an automaton over the signature accepts is over it.
    closed_automata_have_no_open_pair();
    accepted_terms_are_over();
}
