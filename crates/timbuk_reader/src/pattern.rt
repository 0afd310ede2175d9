//! Reads patterns.
ghost use Rattle.std.specs.Prelude.{◌≡◌, ◌<◌, ◌≤◌, ◌==◌, [], false, IfOk, IfErr, OnOk, MatchResult, length};
ghost use Rattle.std.specs.List.{list_any};
ghost use Rattle.timbuk_grammar.specs.declared.terminal.Terminal.TheVariants as terminal;
ghost use Rattle.spec_text.specs.Declarations.{has, with_variable, a_variable, a_state, a_symbol};
ghost use Rattle.timbuk_reader.specs.Meanings.{meant_by};
ghost use Rattle.timbuk_reader.specs.Reads.{Took};
ghost use Rattle.timbuk_reader.specs.View.{Shorter};
ghost use Rattle.spec_text.specs.Reading.{sees};
ghost use Rattle.timbuk_reader.specs.Patterns.{IsPatternRole, HasHead, Breaks, BuildsAt, AppliesAll, Fits, AllFit};
ghost use Rattle.timbuk_reader.specs.Patterns.{IsNoVariable, LacksArguments, LacksArgument, LacksEnd, EndsName, SameBut};
ghost use Rattle.timbuk_reader.specs.Patterns as rows;

use crate::fault::SpecError;
use crate::meaning::Meaning;
use crate::state::Reader;
use ranked_terms::{Seq, Shape};
use spec_text::{LimitName, MAX_EQUATIONS, MAX_NESTING, MAX_RULES, MAX_VARIABLES, SpecKind};
use std::alloc::AllocError;
use timbuk_grammar::{Role, Terminal};

impl<'s, 'a> Reader<'s, 'a> {
    /// A pattern below so many open applications. A name is refused that stands for nothing in the place or passes a limit,
    /// and a variable that may not stand there; behind each name a wrong number of arguments is.
    #[cycle(pattern)]
    pub(crate) fn pattern(&mut self, role: Role, depth: u32) -> Result<Shape, SpecError>
        requires role { IsPatternRole role }
        requires depth { depth ≤ MAX_NESTING }
        ensures shorter { OnOk result (Shorter self.old self.new) }
        ensures reads { BuildsAt role depth self.old result self.new }
        ensures fits { IfOk result (λ shape. Fits role self.old shape self.new) }
        ensures left { IfOk result (IsNoVariable role depth) }
    {
        match self.pattern_head(role, depth)? {
            Meaning::Unknown => unreachable!(),
            Meaning::Variable(variable) => self.pattern_variable(role, depth, variable),
            Meaning::State(state) => self.pattern_state(role, depth, state),
            Meaning::Symbol(sym, 0) => self.pattern_constant(role, depth, sym),
            Meaning::Symbol(sym, arity) => {
                self.advance();
                let mut args = Seq::new(self.alloc);
                self.arguments(role, sym, arity, depth, &mut args)?;
                Ok(Shape::App(sym, args))
            }
        }
    }

    /// Reads into an empty sequence the arguments of a symbol that stands below so many open applications, as many as its
    /// arity says. Another number is refused.
    #[cycle(pattern)]
    fn arguments(
        &mut self,
        role: Role,
        sym: u32,
        arity: u32,
        depth: u32,
        args: &mut Seq<Shape>,
    ) -> Result<(), SpecError>
        requires role { IsPatternRole role }
        requires depth { depth < MAX_NESTING }
        requires some { 0 < arity }
        requires none { args.old ≡ [] }
        ensures shorter { OnOk result (Shorter self.old self.new) }
        ensures reads { AppliesAll role sym arity depth self.old result args.new self.new }
        ensures count { OnOk result (length args.new ≡ arity) }
        ensures fits { OnOk result (AllFit role self.old args.new self.new) }
    {
        self.first_argument()?;
        args.push(self.pattern(role, depth + 1)?)?;
        while args.len() < arity as usize {
            self.next_argument()?;
            args.push(self.pattern(role, depth + 1)?)?;
        }
        self.last_argument()?;
        Ok(())
    }

    /// What the name stands for that comes next in a pattern. It is refused where it may not stand there, and so is
    /// anything that is no name; in place of a further argument the end of the arguments is a wrong number.
    fn pattern_head(&self, role: Role, depth: u32) -> Result<Meaning, SpecError>
        requires role { IsPatternRole role }
        ensures ok { IfOk result (λ meaning. HasHead role depth self.now (meant_by meaning)) }
        ensures err { IfErr result (Breaks role depth self.now) }
    {
        if depth > 0 && self.sees(Terminal::CloseParen) {
            return Err(self.refusal(SpecKind::WrongArity));
        }
        let name = self.word(Terminal::Named(role))?;
        let meaning = self.meaning(role, name);
        match self.pattern_fault(role, depth, meaning) {
            Some(kind) => Err(self.refusal(kind)),
            None => Ok(meaning),
        }
    }

    /// A variable, whose name comes next. A `(` behind it is refused.
    fn pattern_variable(
        &mut self,
        role: Role,
        depth: u32,
        variable: u32,
    ) -> Result<Shape, SpecError>
        requires role { IsPatternRole role }
        requires head { HasHead role depth self.old (a_variable variable) }
        ensures shorter { OnOk result (Shorter self.old self.new) }
        ensures reads { BuildsAt role depth self.old result self.new }
        ensures fits { IfOk result (λ shape. Fits role self.old shape self.new) }
        ensures left { IfOk result (IsNoVariable role depth) }
    {
        self.bind(variable)?;
        self.leaf(SpecKind::Expected)?;
        Ok(Shape::Var(variable))
    }

    /// A state, whose name comes next. A `(` behind it is refused.
    fn pattern_state(&mut self, role: Role, depth: u32, state: u32) -> Result<Shape, SpecError>
        requires role { IsPatternRole role }
        requires head { HasHead role depth self.old (a_state state) }
        ensures shorter { OnOk result (Shorter self.old self.new) }
        ensures reads { BuildsAt role depth self.old result self.new }
        ensures fits { IfOk result (λ shape. Fits role self.old shape self.new) }
        ensures left { IfOk result (IsNoVariable role depth) }
    {
        self.leaf(SpecKind::Expected)?;
        Ok(Shape::State(state))
    }

    /// A symbol of arity 0, whose name comes next. Arguments behind it are refused.
    fn pattern_constant(&mut self, role: Role, depth: u32, sym: u32) -> Result<Shape, SpecError>
        requires role { IsPatternRole role }
        requires head { HasHead role depth self.old (a_symbol sym 0) }
        ensures shorter { OnOk result (Shorter self.old self.new) }
        ensures reads { BuildsAt role depth self.old result self.new }
        ensures fits { IfOk result (λ shape. Fits role self.old shape self.new) }
        ensures left { IfOk result (IsNoVariable role depth) }
    {
        self.leaf(SpecKind::WrongArity)?;
        Ok(Shape::App(sym, Seq::new(self.alloc)))
    }

    /// Takes the mark in front of the arguments of a symbol that has some. Anything else is refused as a wrong number.
    pub(crate) fn first_argument(&mut self) -> Result<(), SpecError>
        ensures { MatchResult result (λ _. Took terminal.OpenParen self.old self.new) (LacksArguments self.old) }
    {
        if !self.sees(Terminal::OpenParen) {
            return Err(self.refusal(SpecKind::WrongArity));
        }
        self.take(Terminal::OpenParen)
    }

    /// Takes the mark in front of a further argument. The end of the arguments is refused as a wrong number.
    pub(crate) fn next_argument(&mut self) -> Result<(), SpecError>
        ensures { MatchResult result (λ _. Took terminal.Comma self.old self.new) (LacksArgument self.old) }
    {
        if self.sees(Terminal::CloseParen) {
            return Err(self.refusal(SpecKind::WrongArity));
        }
        self.take(Terminal::Comma)
    }

    /// Takes the mark behind the last argument. A further argument is refused as a wrong number.
    pub(crate) fn last_argument(&mut self) -> Result<(), SpecError>
        ensures { MatchResult result (λ _. Took terminal.CloseParen self.old self.new) (LacksEnd self.old) }
    {
        if self.sees(Terminal::Comma) {
            return Err(self.refusal(SpecKind::WrongArity));
        }
        self.take(Terminal::CloseParen)
    }

    /// Takes a name that has no arguments. A `(` behind it is refused in this way.
    pub(crate) fn leaf(&mut self, kind: SpecKind) -> Result<(), SpecError>
        requires { 0 < length self.old.tokens.now }
        ensures { EndsName kind self.old result self.new }
    {
        self.advance();
        if self.sees(Terminal::OpenParen) {
            return Err(self.refusal(kind));
        }
        Ok(())
    }

    /// Whether the variable stands in the declaration that is being read.
    pub(crate) fn is_bound(&self, variable: u32) -> bool
        ensures { result ≡ has self.now.bound variable }
    {
        contains(self.bound.as_slice(), variable)
    }

    /// Forgets the variables of an earlier declaration.
    pub(crate) fn unbind(&mut self)
        ensures bound { self.new.bound ≡ [] }
        ensures same { SameBut self.old self.new }
        ensures tokens { self.new.tokens.now ≡ self.old.tokens.now }
    {
        self.bound = Seq::new(self.alloc);
    }

    /// Notes that the variable stands in the declaration that is being read. The only error is running out of memory.
    pub(crate) fn bind(&mut self, variable: u32) -> Result<(), AllocError>
        requires { has self.old.bound variable ≡ false → length self.old.bound < MAX_VARIABLES }
        ensures bound { OnOk result (self.new.bound ≡ with_variable self.old.bound variable) }
        ensures same { OnOk result (SameBut self.old self.new) }
        ensures tokens { self.new.tokens.now ≡ self.old.tokens.now }
    {
        if !self.is_bound(variable) {
            self.bound.push(variable)?;
        }
        Ok(())
    }

    /// The first fault of a name in a pattern, by what it stands for: a limit that it passes, no meaning, a left side that is a
    /// variable, a variable that stands a second time in a left side, or one that stands in a right side alone.
    fn pattern_fault(&self, role: Role, depth: u32, meaning: Meaning) -> Option<SpecKind>
        ensures { result ≡ rows.pattern_fault role (meant_by meaning) depth self.now }
    {
        if let Some(limit) = self.pattern_limit(role, depth, meaning) {
            return Some(SpecKind::Limit(limit));
        }
        match (role, meaning) {
            (_, Meaning::Unknown) => Some(SpecKind::UnknownName),
            (Role::LeftSide, Meaning::Variable(_)) if depth == 0 => Some(SpecKind::VariableLeft),
            (Role::LeftSide, Meaning::Variable(variable)) if self.is_bound(variable) => {
                Some(SpecKind::NotLeftLinear)
            }
            (Role::RightSide, Meaning::Variable(variable)) if !self.is_bound(variable) => {
                Some(SpecKind::FreeVariable)
            }
            _ => None,
        }
    }

    /// The first limit that a name in a pattern passes: the nesting, the variables, the rules or the equations.
    fn pattern_limit(&self, role: Role, depth: u32, meaning: Meaning) -> Option<LimitName>
        ensures { result ≡ rows.pattern_limit (meant_by meaning) depth self.now.bound
            (rows.side_limit role depth (length self.now.rules) (length self.now.equations)) }
    {
        match meaning {
            Meaning::Symbol(_, arity) if arity > 0 && depth >= MAX_NESTING => {
                Some(LimitName::Nesting)
            }
            Meaning::Variable(variable)
                if !self.is_bound(variable) && self.bound.len() >= MAX_VARIABLES => {
                Some(LimitName::Variables)
            }
            _ => self.side_limit(role, depth),
        }
    }

    /// The limit that the first name of a further rule or equation passes.
    fn side_limit(&self, role: Role, depth: u32) -> Option<LimitName>
        ensures { result ≡ rows.side_limit role depth (length self.now.rules) (length self.now.equations) }
    {
        match role {
            Role::LeftSide if depth == 0 && self.rules.len() >= MAX_RULES => {
                Some(LimitName::Rules)
            }
            Role::EquationLeft if depth == 0 && self.equations.len() >= MAX_EQUATIONS => {
                Some(LimitName::Equations)
            }
            _ => None,
        }
    }
}

/// Whether the variable is one of these.
pub(crate) fn contains(variables: &[u32], variable: u32) -> bool
    ensures { result ≡ list_any (λ w. variable == w) variables.now }
{
    variables.iter().any(|bound| variable == *bound)
}
