//! The terms that variables stand for.
ghost use Rattle.std.specs.Prelude.{◌≡◌, ◌↔◌, [], ◌∷◌, ◌++◌, ◌<◌, ◌≤◌, length, take, IsTrue, MatchBool, None};
ghost use Rattle.std.specs.Option.{option_copied};
ghost use Rattle.ranked_terms.specs.Limits.{max_variables};
ghost use Rattle.ranked_terms.specs.Terms.{with_variable};
ghost use Rattle.ranked_terms.specs.Matching.{bound_in, lookup, Once, IsBoundBy, IsRefused};

use crate::term::{Pattern, Term};
use std::marker::Model;

/// For each of at most 16 variables, the term bound to it. It borrows the terms and takes no memory. Contracts see the
/// list of the variables with their terms, in the order in which they were bound. No variable stands twice in it.
#[derive(Drop)]
pub struct Binding<'a> {
    slots: [Option<(u32, &'a Term)>; 16],
    len: usize,
}

impl<'a> Model for Binding<'a> {
    ghost use Rattle.std.specs.Prelude.{◌≡◌, ℕ, ◌≤◌, List, length, take};
    ghost use Rattle.std.specs.Coded.{coded_list, coded_ℕ, coded×};
    ghost use Rattle.ranked_terms.specs.Limits.{max_variables};
    ghost use Rattle.ranked_terms.specs.declared.term.Term.{Term as Ground};
    ghost use Rattle.ranked_terms.specs.contracts.term.Term as term;
    ghost use Rattle.ranked_terms.specs.Matching.{filled, bound_in, Once};

    ghost Value = { List (ℕ × Ground) };

    ghost coded = { coded_list (coded× coded_ℕ term.the_row.coded) };

    ghost view = { λ b. filled (take b.len b.slots) };

    ghost invariant = { λ b. (b.len ≤ max_variables) × (length (filled (take b.len b.slots)) ≡ b.len)
        × Once (bound_in (filled (take b.len b.slots))) };
}

impl<'a> Binding<'a> {
    /// The binding in which nothing is bound.
    pub fn new() -> Binding<'a>
        ensures { result ≡ [] }
    {
        Binding {
            slots: [None; 16],
            len: 0,
        }
    }

    /// How many variables are bound.
    pub(crate) fn len(&self) -> usize
        ensures len { result ≡ length self.now }
        ensures once { Once (bound_in self.now) }
    {
        self.len
    }

    /// The term bound to a variable, if one is.
    pub(crate) fn get(&self, variable: u32) -> Option<&'a Term>
        ensures { option_copied result ≡ lookup self.now variable }
    {
        for slot in &self.slots[..self.len] {
            if let Some((bound, t)) = slot {
                if *bound == variable {
                    return Some(*t);
                }
            }
        }
        None
    }

    /// Binds a variable to a term, unless it is bound to another one.
    pub(crate) fn bind(&mut self, variable: u32, t: &'a Term) -> bool
        requires { length (with_variable (bound_in self.old) variable) ≤ max_variables }
        ensures { MatchBool result (IsBoundBy (Pattern.Var variable) t.now self.old self.new)
            (IsRefused (Pattern.Var variable) t.now self.old self.new) }
    {
        match self.get(variable) {
            Some(bound) => equal(bound, t),
            None => {
                self.push(variable, t);
                true
            }
        }
    }

    fn push(&mut self, variable: u32, t: &'a Term)
        requires room { length self.old < max_variables }
        requires new { lookup self.old variable ≡ None }
        ensures { self.new ≡ self.old ++ (variable, t.now) ∷ [] }
    {
        let at = self.len;
        self.len += 1;
        let slots = &mut self.slots[..];
        slots[at] = Some((variable, t));
    }

    /// Forgets all but the first `len` that were bound.
    pub(crate) fn truncate(&mut self, len: usize)
        requires { len ≤ length self.old }
        ensures { self.new ≡ take len self.old }
    {
        self.len = len;
    }
}

// Whether two terms are equal.
fn equal(a: &Term, b: &Term) -> bool
    ensures { IsTrue result ↔ (a.now ≡ b.now) }
{
    *a == *b
}
