//! Steps at the root.
ghost use Rattle.std.specs.Prelude.{◌↔◌, IsTrue};
ghost use Rattle.trs_rules.specs.Derivations.{IsStepBy};

use crate::rule::Rule;
use ranked_terms::{Binding, Term, match_term};

/// Whether the rule rewrites the one term to the other at the root. The right side is matched with what the left side
/// has bound, so that no term is made.
pub(crate) fn is_root_step(rule: &Rule, s: &Term, t: &Term) -> bool
    ensures { IsTrue result ↔ IsStepBy rule.now s.now t.now }
{
    let mut binding = Binding::new();
    if !match_term(rule.left(), s, &mut binding) {
        return false;
    }
    match_term(rule.right(), t, &mut binding)
}
