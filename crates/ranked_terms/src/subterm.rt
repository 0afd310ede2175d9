//! Subterms at positions.
ghost use Rattle.std.specs.Prelude.{◌≡◌, ◌↔◌, ◌≤◌, ◌-◌, ◌∷◌, ◌++◌, length, take, drop, Some, IfOk, IsTrue};
ghost use Rattle.std.specs.Option.{option_copied};
ghost use Rattle.ranked_terms.specs.declared.term.Term.{Term as Ground};
ghost use Rattle.ranked_terms.specs.declared.term.Term.TheViews.{out-Term};
ghost use Rattle.ranked_terms.specs.Terms.{node};
ghost use Rattle.ranked_terms.specs.Positions.{SubtermAt, ReplacedAt, IsSameBut, both_now};

use crate::position::Position;
use crate::seq::Seq;
use crate::term::Term;
use std::alloc::{AllocError, Global};

impl Term {
    /// The subterm at the position (TATA, Preliminaries). `None` exactly where there is no such position. It takes no memory,
    /// and no stack that grows with the position.
    pub fn subterm(&self, at: &Position) -> Option<&Term>
        ensures { (u : Ground) → (option_copied result ≡ Some u) ↔ SubtermAt at.now self.now u }
    {
        let mut here = self;
        let numbers = at.as_slice();
        for i in 0..numbers.len() {
            let number = numbers[i] as usize;
            let args = here.args.as_slice();
            if number == 0 || args.len() < number {
                return None;
            }
            here = &args[number - 1];
        }
        Some(here)
    }

    /// The subterms of this term and of another one at the position, where the two are the same but for these. `None`
    /// exactly where one of them has no such position, or they differ elsewhere. It takes no memory, and no stack that grows
    /// with the position.
    pub fn changed_at<'a>(&'a self, at: &Position, other: &'a Term) -> Option<(&'a Term, &'a Term)>
        ensures { (u v : Ground) → (both_now result ≡ Some (u, v))
            ↔ (SubtermAt at.now self.now u × ReplacedAt v at.now self.now other.now) }
    {
        let mut here = self;
        let mut there = other;
        let numbers = at.as_slice();
        for i in 0..numbers.len() {
            let number = numbers[i] as usize;
            if !is_same_but(number, here, there) {
                return None;
            }
            here = &here.args.as_slice()[number - 1];
            there = &there.args.as_slice()[number - 1];
        }
        Some((here, there))
    }

    /// The term with the subterm at the position replaced by a copy of `by`. `None` exactly where there is no such
    /// position. The only error is running out of memory.
    pub fn replace(
        &self,
        alloc: Global,
        at: &Position,
        by: &Term,
    ) -> Result<Option<Term>, AllocError>
        ensures { IfOk result (λ o. (u : Ground) → (o ≡ Some u) ↔ ReplacedAt by.now at.now self.now u) }
    {
        let replaced = replace_from(alloc, self, at.as_slice(), 0, by)?;
        Ok(replaced)
    }
}

// Whether the terms are the same but for their arguments of this number, counted from 1, which both have.
fn is_same_but(number: usize, s: &Term, t: &Term) -> bool
    ensures { IsTrue result ↔ IsSameBut number s.now t.now }
{
    let ss = s.args.as_slice();
    let ts = t.args.as_slice();
    if s.sym != t.sym || ss.len() != ts.len() || number == 0 || ss.len() < number {
        return false;
    }
    are_equal(&ss[..number - 1], &ts[..number - 1]) && are_equal(&ss[number..], &ts[number..])
}

// Whether two lists of terms are equal.
fn are_equal(ss: &[Term], ts: &[Term]) -> bool
    ensures { IsTrue result ↔ (ss.now ≡ ts.now) }
{
    ss == ts
}

// The same at what is left of the position.
fn replace_from(
    alloc: Global,
    term: &Term,
    numbers: &[u32],
    from: usize,
    by: &Term,
) -> Result<Option<Term>, AllocError>
    requires { from ≤ length numbers.now }
    ensures { IfOk result (λ o. (u : Ground) → (o ≡ Some u) ↔ ReplacedAt by.now (drop from numbers.now) term.now u) }
{
    if from == numbers.len() {
        let copy = by.copy(alloc)?;
        return Ok(Some(copy));
    }
    let number = numbers[from] as usize;
    let old = term.args.as_slice();
    if number == 0 || old.len() < number {
        return Ok(None);
    }
    let Some(inner) = replace_from(alloc, &old[number - 1], numbers, from + 1, by)? else {
        return Ok(None);
    };
    let replaced = with_argument(alloc, term, number, inner)?;
    Ok(Some(replaced))
}

// A copy of the term whose argument of this number, counted from 1, is another.
fn with_argument(
    alloc: Global,
    term: &Term,
    number: usize,
    argument: Term,
) -> Result<Term, AllocError>
    requires some { 1 ≤ number }
    requires few { number ≤ length (out-Term term.now).args }
    ensures { IfOk result (λ t. t ≡ node (out-Term term.now).sym
        (take (number - 1) (out-Term term.now).args ++ argument ∷ drop number (out-Term term.now).args)) }
{
    let old = term.args.as_slice();
    let mut args = Seq::new(alloc);
    for arg in &old[..number - 1] {
        args.push(arg.copy(alloc)?)?;
    }
    args.push(argument)?;
    for arg in &old[number..] {
        args.push(arg.copy(alloc)?)?;
    }
    Ok(Term {
        sym: term.sym,
        args,
    })
}
