//! Rewrite rules.
ghost use Rattle.std.specs.Prelude.{◌≡◌, ◌↔◌, ◌<◌, ℕ, length, Err, Some, None, IfOk, All};
ghost use Rattle.ranked_terms.specs.Limits.{max_variables};
ghost use Rattle.ranked_terms.specs.Terms.{occurrences, variables_of};
ghost use Rattle.trs_rules.specs.Rules.{IsRule, IsVariable, IsLinear, IsBound};
ghost use Rattle.trs_rules.specs.Variables.{first_repeat, first_free};

use crate::occurrences::{free_variable, repeated_variable};
use crate::variables::Variables;
use ranked_terms::Pattern;
use std::marker::Model;

/// A left-linear rewrite rule `left -> right`: the left side is no variable, no variable stands twice in it, each
/// variable of the right side stands in it, and there are at most 16 of them (TATA, section 1.2; Feuillade, Genet and
/// Viet Triem Tong, JAR 2004). It keeps its variables in the order in which they first occur.
#[derive(Debug, Drop)]
pub struct Rule {
    left: Pattern,
    right: Pattern,
    variables: Variables,
}

impl Model for Rule {
    ghost use Rattle.std.specs.Coded.{codes};
    ghost use Rattle.ranked_terms.specs.contracts.term.Pattern as pattern;
    ghost use Rattle.trs_rules.specs.Rules.{RewriteRule, IsRule};

    ghost Value = { RewriteRule };

    ghost coded = { Prim.hlevel (codes, pattern.the_row.coded) };

    ghost view = { λ rule. record { left = rule.left; right = rule.right; vars = rule.variables } };

    ghost invariant = { λ rule. IsRule (record { left = rule.left; right = rule.right; vars = rule.variables }) };
}

/// Why two patterns are no rule. Where several causes hold, the first in this order is named.
#[derive(Clone, Copy, Debug, PartialEq, Eq)]
pub enum RuleFault {
    /// The left side is a variable.
    VariableLeft,
    /// A variable stands twice in the left side.
    NotLeftLinear {
        /// The variable at the first place, from the left, at which a variable stands a second time.
        var: u32,
    },
    /// A variable of the right side does not stand in the left side.
    FreeVariable {
        /// The first such variable, from the left.
        var: u32,
    },
    /// More than 16 variables stand in the left side.
    TooManyVariables,
}

impl Rule {
    /// The rule with these sides. It takes no memory.
    pub fn new(left: Pattern, right: Pattern) -> Result<Rule, RuleFault>
        ensures sides { IfOk result (λ rule. (rule.left ≡ left) × (rule.right ≡ right)) }
        ensures rule { IfOk result IsRule }

        ensures variable_left { (result ≡ Err RuleFault.VariableLeft) ↔ IsVariable left }
        ensures not_left_linear { (var : ℕ) → (result ≡ Err (RuleFault.NotLeftLinear var)) ↔
            (first_repeat (occurrences left) ≡ Some var) }
        ensures free_variable { (var : ℕ) → (result ≡ Err (RuleFault.FreeVariable var)) ↔ ((IsVariable left → ⊥) × IsLinear left
            × (first_free (occurrences left) (occurrences right) ≡ Some var)) }
        ensures too_many_variables { (result ≡ Err RuleFault.TooManyVariables) ↔
            ((IsVariable left → ⊥) × IsLinear left × IsBound left right
            × (max_variables < length (variables_of left))) }
    {
        if let Pattern::Var(_) = left {
            return Err(RuleFault::VariableLeft);
        }
        if let Some(var) = repeated_variable(&left) {
            return Err(RuleFault::NotLeftLinear { var });
        }
        if let Some(var) = free_variable(&left, &right) {
            return Err(RuleFault::FreeVariable { var });
        }
        let Ok(variables) = Variables::of(&left) else {
            return Err(RuleFault::TooManyVariables);
        };
        Ok(Rule {
            left,
            right,
            variables,
        })
    }

    /// The left side.
    pub fn left(&self) -> &Pattern
        ensures side { result.now ≡ self.now.left }
        ensures rule { IsRule self.now }
    {
        &self.left
    }

    /// The right side.
    pub fn right(&self) -> &Pattern
        ensures side { result.now ≡ self.now.right }
        ensures rule { IsRule self.now }
    {
        &self.right
    }

    /// The variables, in the order in which they first occur in the left side.
    pub fn vars(&self) -> &[u32]
        ensures list { result.now ≡ self.now.vars }
        ensures rule { IsRule self.now }
    {
        self.variables.as_slice()
    }
}

/// Each member of a slice of rules is a rule, which their types keep. It reads each rule once, and takes no memory.
pub fn each_is_rule(rules: &[Rule])
    ensures { All IsRule rules.now }
{
    for rule in rules {
        // For the proof: the contract of a call of it says that the rule is one.
        let _ = rule.vars();
    }
}
