//! Equations.
ghost use Rattle.std.specs.Prelude.{◌≡◌, ◌↔◌, ◌<◌, ◌++◌, length, IfOk, IsErr};
ghost use Rattle.ranked_terms.specs.Limits.{max_variables};
ghost use Rattle.ranked_terms.specs.Terms.{firsts, occurrences};
ghost use Rattle.trs_rules.specs.Rules.{IsEquation};

use crate::variables::{TooManyVariables, Variables};
use ranked_terms::Pattern;
use std::marker::Model;

/// An equation `left = right` with at most 16 variables, which it keeps in the order in which they first occur, the
/// left side first (Genet and Rusu, JSC 2010).
#[derive(Debug, Drop)]
pub struct Equation {
    left: Pattern,
    right: Pattern,
    variables: Variables,
}

impl Model for Equation {
    ghost use Rattle.std.specs.Coded.{codes};
    ghost use Rattle.ranked_terms.specs.contracts.term.Pattern as pattern;
    ghost use Rattle.trs_rules.specs.Rules.{RewriteEquation, IsEquation};

    ghost Value = { RewriteEquation };

    ghost coded = { Prim.hlevel (codes, pattern.the_row.coded) };

    ghost view = { λ equation. record { left = equation.left; right = equation.right; vars = equation.variables } };

    ghost invariant = { λ equation. IsEquation
        (record { left = equation.left; right = equation.right; vars = equation.variables }) };
}

impl Equation {
    /// The equation with these sides. It takes no memory, and is refused exactly where more than 16 variables stand.
    pub fn new(left: Pattern, right: Pattern) -> Result<Equation, TooManyVariables>
        ensures sides { IfOk result (λ equation. (equation.left ≡ left) × (equation.right ≡ right)) }
        ensures equation { IfOk result IsEquation }
        ensures refused { IsErr result ↔ (max_variables < length (firsts (occurrences left ++ occurrences right))) }
    {
        let variables = Variables::of_both(&left, &right)?;
        Ok(Equation {
            left,
            right,
            variables,
        })
    }

    /// The left side.
    pub fn left(&self) -> &Pattern
        ensures side { result.now ≡ self.now.left }
        ensures equation { IsEquation self.now }
    {
        &self.left
    }

    /// The right side.
    pub fn right(&self) -> &Pattern
        ensures side { result.now ≡ self.now.right }
        ensures equation { IsEquation self.now }
    {
        &self.right
    }

    /// The variables, in the order in which they first occur, those of the left side first.
    pub fn vars(&self) -> &[u32]
        ensures list { result.now ≡ self.now.vars }
        ensures equation { IsEquation self.now }
    {
        self.variables.as_slice()
    }
}
