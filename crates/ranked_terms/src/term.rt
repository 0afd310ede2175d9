//! Ground terms, patterns and configurations.
ghost use Rattle.std.specs.Prelude.{◌≡◌, IfOk};

use crate::seq::Seq;
use std::alloc::{AllocError, Global};

/// A ground term: a symbol applied to ground terms, as many as its arity says (TATA, Preliminaries).
///
/// Most calls on terms go down by recursion, among them `copy`, `==` and the drop of a term, so a deep term uses the stack:
/// 8 MB are enough for 16,000 nested symbols, and not for 65,000.
#[derive(Debug, Drop, PartialEq, Eq, Hash)]
pub struct Term {
    /// The symbol's number in the signature.
    pub sym: u32,
    /// The arguments, from left to right.
    pub args: Seq<Term>,
}

impl Term {
    /// An equal term. The only error is running out of memory.
    pub fn copy(&self, alloc: Global) -> Result<Term, AllocError>
        ensures { IfOk result (λ copy. copy ≡ self.now) }
    {
        let mut args = Seq::new(alloc);
        for arg in self.args.as_slice() {
            args.push(arg.copy(alloc)?)?;
        }
        Ok(Term {
            sym: self.sym,
            args,
        })
    }
}

/// A term whose leaves may be variables: a side of a rule or of an equation.
#[derive(Debug, Drop, PartialEq, Eq, Hash)]
pub enum Pattern {
    /// A variable, by its number.
    Var(u32),
    /// A symbol, by its number, and its arguments.
    App(u32, Seq<Pattern>),
}

impl Pattern {
    /// An equal pattern. The only error is running out of memory.
    pub fn copy(&self, alloc: Global) -> Result<Pattern, AllocError>
        ensures { IfOk result (λ copy. copy ≡ self.now) }
    {
        match self {
            Pattern::Var(var) => Ok(Pattern::Var(*var)),
            Pattern::App(sym, args) => {
                let mut copies = Seq::new(alloc);
                for arg in args.as_slice() {
                    copies.push(arg.copy(alloc)?)?;
                }
                Ok(Pattern::App(*sym, copies))
            }
        }
    }
}

/// A term whose leaves may be states of an automaton, which is what an automaton runs on (TATA, section 1.1).
#[derive(Debug, Drop, PartialEq, Eq, Hash)]
pub enum Config {
    /// A state, by its number.
    State(u32),
    /// A symbol, by its number, and its arguments.
    App(u32, Seq<Config>),
}

/// A term whose leaves may be variables and states: a part of an approximation entry.
#[derive(Debug, Drop, PartialEq, Eq, Hash)]
pub enum Shape {
    /// A variable, by its number.
    Var(u32),
    /// A state, by its number.
    State(u32),
    /// A symbol, by its number, and its arguments.
    App(u32, Seq<Shape>),
}

impl Shape {
    /// An equal shape. The only error is running out of memory.
    pub fn copy(&self, alloc: Global) -> Result<Shape, AllocError>
        ensures { IfOk result (λ copy. copy ≡ self.now) }
    {
        match self {
            Shape::Var(var) => Ok(Shape::Var(*var)),
            Shape::State(state) => Ok(Shape::State(*state)),
            Shape::App(sym, args) => {
                let mut copies = Seq::new(alloc);
                for arg in args.as_slice() {
                    copies.push(arg.copy(alloc)?)?;
                }
                Ok(Shape::App(*sym, copies))
            }
        }
    }
}
