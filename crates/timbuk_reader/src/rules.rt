//! Reads rules and equations.
ghost use Rattle.std.specs.Prelude.{◌≡◌, ◌≤◌, false, IfOk, OnOk, MatchOption, length};
ghost use Rattle.ta_core.specs.SpecRules.{shape_is_below};
ghost use Rattle.timbuk_grammar.specs.Grammar as grammar;
ghost use Rattle.timbuk_grammar.specs.declared.terminal.Terminal.TheVariants as terminal;
ghost use Rattle.spec_text.specs.Naming.{shape_of};
ghost use Rattle.timbuk_reader.specs.Sides.{IsSideRole, ReadsSide};
ghost use Rattle.timbuk_reader.specs.View.{Shorter, closed};
ghost use Rattle.timbuk_reader.specs.Reads.{Reads};

use crate::fault::SpecError;
use crate::state::Reader;
use ranked_terms::{Pattern, Seq, Shape};
use spec_text::{LimitName, MAX_EQUATION_SECTIONS, MAX_SYSTEMS, SpecKind};
use std::alloc::{AllocError, Global};
use timbuk_grammar::{Role, Terminal};
use trs_rules::{Equation, Rule};

// ---- sections

impl<'s, 'a> Reader<'s, 'a> {
    /// The rules, from the word `TRS` on. They are refused where there are some.
    pub(crate) fn system(&mut self) -> Result<(), SpecError>
        ensures shorter { OnOk result (Shorter self.old self.new) }
        ensures reads { Reads grammar.system closed self.old result closed self.new }
    {
        self.system_word()?;
        self.title()?;
        self.all_rules()
    }

    /// The word `TRS`, by which the count rises. It is refused where it stood before.
    fn system_word(&mut self) -> Result<(), SpecError>
        ensures shorter { OnOk result (Shorter self.old self.new) }
        ensures reads { Reads (grammar.one terminal.Trs) closed self.old result closed self.new }
    {
        if !self.sees(Terminal::Trs) {
            return Err(self.refusal(SpecKind::Expected));
        }
        if self.systems >= MAX_SYSTEMS {
            return Err(self.refusal(SpecKind::Limit(LimitName::Systems)));
        }
        self.advance();
        self.systems = 1;
        Ok(())
    }

    /// The equations, from the word `Equations` on. They are refused where there are some.
    pub(crate) fn equations(&mut self) -> Result<(), SpecError>
        ensures shorter { OnOk result (Shorter self.old self.new) }
        ensures reads { Reads grammar.equations closed self.old result closed self.new }
    {
        self.equations_word()?;
        self.title()?;
        self.mark(Terminal::Rules)?;
        self.all_equations()
    }

    /// The word `Equations`, by which the count rises. It is refused where it stood before.
    fn equations_word(&mut self) -> Result<(), SpecError>
        ensures shorter { OnOk result (Shorter self.old self.new) }
        ensures reads { Reads (grammar.one terminal.Equations) closed self.old result closed self.new }
    {
        if !self.sees(Terminal::Equations) {
            return Err(self.refusal(SpecKind::Expected));
        }
        if self.equation_sections >= MAX_EQUATION_SECTIONS {
            return Err(self.refusal(SpecKind::Limit(LimitName::EquationSections)));
        }
        self.advance();
        self.equation_sections = 1;
        Ok(())
    }
}

// ---- rules and equations

impl<'s, 'a> Reader<'s, 'a> {
    /// Rules, as many as there are.
    fn all_rules(&mut self) -> Result<(), SpecError>
        ensures no_longer { OnOk result (length self.new.tokens.now ≤ length self.old.tokens.now) }
        ensures reads { Reads (grammar.many grammar.rule) closed self.old result closed self.new }
    {
        while self.sees(Terminal::Named(Role::LeftSide)) {
            self.rule()?;
        }
        Ok(())
    }

    /// A rule, which is added.
    fn rule(&mut self) -> Result<(), SpecError>
        ensures shorter { OnOk result (Shorter self.old self.new) }
        ensures reads { Reads grammar.rule closed self.old result closed self.new }
    {
        self.unbind();
        let left = self.side(Role::LeftSide)?;
        self.take(Terminal::Arrow)?;
        let right = self.side(Role::RightSide)?;
        match Rule::new(left, right) {
            Ok(rule) => Ok(self.rules.push(rule)?),
            Err(_) => unreachable!(),
        }
    }

    /// Equations, as many as there are.
    fn all_equations(&mut self) -> Result<(), SpecError>
        ensures no_longer { OnOk result (length self.new.tokens.now ≤ length self.old.tokens.now) }
        ensures reads { Reads (grammar.many grammar.equation) closed self.old result closed self.new }
    {
        while self.sees(Terminal::Named(Role::EquationLeft)) {
            self.equation()?;
        }
        Ok(())
    }

    /// An equation, which is added.
    fn equation(&mut self) -> Result<(), SpecError>
        ensures shorter { OnOk result (Shorter self.old self.new) }
        ensures reads { Reads grammar.equation closed self.old result closed self.new }
    {
        self.unbind();
        let left = self.side(Role::EquationLeft)?;
        self.take(Terminal::Equals)?;
        let right = self.side(Role::EquationRight)?;
        match Equation::new(left, right) {
            Ok(equation) => Ok(self.equations.push(equation)?),
            Err(_) => unreachable!(),
        }
    }

    /// A side of a rule or of an equation.
    fn side(&mut self, role: Role) -> Result<Pattern, SpecError>
        requires { IsSideRole role }
        ensures shorter { OnOk result (Shorter self.old self.new) }
        ensures reads { ReadsSide role self.old result self.new }
    {
        let shape = self.pattern(role, 0)?;
        match pattern_of(self.alloc, &shape)? {
            Some(side) => Ok(side),
            None => unreachable!(),
        }
    }
}

/// The shape as a pattern. `None` exactly where a state stands in it. The only error is running out of memory.
fn pattern_of(alloc: Global, shape: &Shape) -> Result<Option<Pattern>, AllocError>
    ensures { IfOk result (λ found. MatchOption found (shape_is_below 0 shape.now ≡ false)
        (λ pattern. shape_of pattern ≡ shape.now)) }
{
    match shape {
        Shape::Var(variable) => Ok(Some(Pattern::Var(*variable))),
        Shape::State(_) => Ok(None),
        Shape::App(sym, args) => {
            let mut patterns = Seq::new(alloc);
            for arg in args.as_slice() {
                let Some(pattern) = pattern_of(alloc, arg)? else {
                    return Ok(None);
                };
                patterns.push(pattern)?;
            }
            Ok(Some(Pattern::App(*sym, patterns)))
        }
    }
}
