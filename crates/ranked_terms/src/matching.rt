//! Matching and instances.
ghost use Rattle.std.specs.Prelude.{◌≡◌, ◌≤◌, ◌↔◌, ℕ, length, IsTrue, IfOk, Contains, MatchBool};
ghost use Rattle.ranked_terms.specs.Limits.{max_variables};
ghost use Rattle.ranked_terms.specs.Terms.{instance_of, occurrences};
ghost use Rattle.ranked_terms.specs.Matching.{IsInstance, IsBoundBy, IsInstanceBy, IsRefused};
ghost use Rattle.ranked_terms.specs.Matching.{bound_in, bound_with, binding_of, with_variables};

use crate::binding::Binding;
use crate::seq::Seq;
use crate::term::{Pattern, Term};
use std::alloc::{AllocError, Global};

/// Whether the term is an instance of the pattern that agrees with the binding (Baader and Nipkow, Term Rewriting and
/// All That, section 4.1). If it is, the binding has that instance besides; else it is as before. A variable that stands
/// twice in the pattern stands for one term. With those bound already, the pattern has at most 16 different variables.
/// It takes no memory.
pub fn match_term<'a>(p: &Pattern, t: &'a Term, b: &mut Binding<'a>) -> bool
    requires { length (bound_with b.old p.now) ≤ max_variables }
    ensures exactly { IsTrue result ↔ IsInstance p.now t.now b.old }
    ensures bound { IsTrue result → IsBoundBy p.now t.now b.old b.new }
    ensures refused { (IsTrue result → ⊥) → b.new ≡ b.old }
{
    // For the proof: no variable is bound twice.
    let _bound = b.len();
    match_under(p, t, b)
}

// The same, by the substitutions that agree with the binding.
fn match_under<'a>(p: &Pattern, t: &'a Term, b: &mut Binding<'a>) -> bool
    requires { length (with_variables (bound_in b.old) (occurrences p.now)) ≤ max_variables }
    ensures { MatchBool result (IsBoundBy p.now t.now b.old b.new) (IsRefused p.now t.now b.old b.new) }
{
    match p {
        Pattern::Var(v) => b.bind(*v, t),
        Pattern::App(f, args) => {
            let ps = args.as_slice();
            let ts = t.args.as_slice();
            if *f != t.sym || ps.len() != ts.len() {
                return false;
            }
            let start = b.len();
            for i in 0..ps.len() {
                if !match_under(&ps[i], &ts[i], b) {
                    b.truncate(start);
                    return false;
                }
            }
            true
        }
    }
}

/// The instance of the pattern by the binding. Each variable of the pattern is bound. The only error is running out of
/// memory.
pub fn instance(alloc: Global, p: &Pattern, b: &Binding) -> Result<Term, AllocError>
    requires { (v : ℕ) → Contains (occurrences p.now) v → Contains (bound_in b.now) v }
    ensures { IfOk result (IsInstanceBy p.now b.now) }
{
    // For the proof: no variable is bound twice.
    let _bound = b.len();
    let term = instance_under(alloc, p, b)?;
    Ok(term)
}

// The same, by the substitution that the binding stands for.
fn instance_under(alloc: Global, p: &Pattern, b: &Binding) -> Result<Term, AllocError>
    requires { (v : ℕ) → Contains (occurrences p.now) v → Contains (bound_in b.now) v }
    ensures { IfOk result (λ t. t ≡ instance_of (binding_of b.now) p.now) }
{
    match p {
        Pattern::Var(v) => {
            let Some(bound) = b.get(*v) else {
                unreachable!();
            };
            let copy = bound.copy(alloc)?;
            Ok(copy)
        }
        Pattern::App(sym, args) => {
            let mut terms = Seq::new(alloc);
            for arg in args.as_slice() {
                terms.push(instance_under(alloc, arg, b)?)?;
            }
            Ok(Term {
                sym: *sym,
                args: terms,
            })
        }
    }
}
