//! Lists of variables that take no memory.
ghost use Rattle.std.specs.Prelude.{◌≡◌, ◌≤◌, ◌<◌, ◌==◌, ◌↔◌, [], ◌∷◌, ◌++◌, length, fold, IfOk, OnOk, IsErr};
ghost use Rattle.std.specs.List.{list_any};
ghost use Rattle.ranked_terms.specs.Terms.{firsts, occurrences, variables_of, with_variable};

use ranked_terms::Pattern;
use std::marker::Model;

/// More than 16 different variables stand in an equation.
#[derive(Clone, Copy, Debug, PartialEq, Eq)]
pub struct TooManyVariables;

/// A list of at most 16 variables, which stands in the value itself.
#[derive(Debug, Drop)]
pub struct Variables {
    slots: [u32; 16],
    len: usize,
}

impl Model for Variables {
    ghost use Rattle.std.specs.Prelude.{List, ℕ, ◌≤◌, take};
    ghost use Rattle.std.specs.Coded.{coded_list, coded_ℕ};

    ghost Value = { List ℕ };

    ghost coded = { coded_list coded_ℕ };

    ghost view = { λ variables. take variables.len variables.slots };

    ghost invariant = { λ variables. variables.len ≤ 16 };
}

impl Variables {
    /// No variables.
    fn new() -> Variables
        ensures { result ≡ [] }
    {
        Variables {
            slots: [0; 16],
            len: 0,
        }
    }

    /// The variables of a pattern, in the order in which they first occur. It is refused exactly where there are more
    /// than 16.
    pub fn of(pattern: &Pattern) -> Result<Variables, TooManyVariables>
        ensures ok { IfOk result (λ variables. variables ≡ variables_of pattern.now) }
        ensures refused { IsErr result ↔ (16 < length (variables_of pattern.now)) }
    {
        let mut variables = Variables::new();
        variables.add_all(pattern)?;
        Ok(variables)
    }

    /// The variables of two patterns, in the order in which they first occur, those of the first pattern first. It is
    /// refused exactly where there are more than 16.
    pub fn of_both(left: &Pattern, right: &Pattern) -> Result<Variables, TooManyVariables>
        ensures ok { IfOk result (λ variables. variables ≡ firsts (occurrences left.now ++ occurrences right.now)) }
        ensures refused { IsErr result ↔ (16 < length (firsts (occurrences left.now ++ occurrences right.now))) }
    {
        let mut variables = Variables::new();
        variables.add_all(left)?;
        variables.add_all(right)?;
        Ok(variables)
    }

    /// The variables in order.
    pub fn as_slice(&self) -> &[u32]
        ensures value { result.now ≡ self.now }
        ensures short { length self.now ≤ 16 }
    {
        &self.slots[..self.len]
    }

    /// Adds each variable of a pattern that is not there.
    #[tactic(auto, using(crate::proofs::patterns::VariableLaws::adding))]
    fn add_all(&mut self, pattern: &Pattern) -> Result<(), TooManyVariables>
        ensures ok { OnOk result (self.new ≡ fold with_variable self.old (occurrences pattern.now)) }
        ensures refused { IsErr result ↔ (16 < length (fold with_variable self.old (occurrences pattern.now))) }
    {
        match pattern {
            Pattern::Var(v) => self.add(*v),
            Pattern::App(_, args) => {
                for arg in args.as_slice() {
                    self.add_all(arg)?;
                }
                // For the proof: there are still at most 16.
                prove!(self.len <= 16);
                Ok(())
            }
        }
    }

    /// Adds a variable, unless it is there.
    #[tactic(auto, using(crate::proofs::patterns::VariableLaws::adding))]
    fn add(&mut self, v: u32) -> Result<(), TooManyVariables>
        ensures ok { OnOk result (self.new ≡ with_variable self.old v) }
        ensures refused { IsErr result ↔ (16 < length (with_variable self.old v)) }
    {
        if self.contains(v) {
            return Ok(());
        }
        self.push(v)
    }

    /// Whether a variable is there.
    fn contains(&self, v: u32) -> bool
        ensures value { result ≡ list_any (λ w. v == w) self.now }
        ensures short { length self.now ≤ 16 }
    {
        self.as_slice().iter().any(|w| v == *w)
    }

    /// Adds a variable at the end.
    fn push(&mut self, v: u32) -> Result<(), TooManyVariables>
        ensures ok { OnOk result (self.new ≡ self.old ++ v ∷ []) }
        ensures refused { IsErr result ↔ (length self.old ≡ 16) }
    {
        if self.len == 16 {
            return Err(TooManyVariables);
        }
        let slots = &mut self.slots[..];
        slots[self.len] = v;
        self.len += 1;
        Ok(())
    }
}
