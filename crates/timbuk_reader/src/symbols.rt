//! Reads the declarations of symbols and variables.
ghost use Rattle.std.specs.Prelude.{◌≡◌, min, ◌++◌, IfOk, IfErr, OnOk};
ghost use Rattle.ranked_terms.specs.Names.{names_of};
ghost use Rattle.timbuk_grammar.specs.Grammar as grammar;
ghost use Rattle.timbuk_grammar.specs.declared.terminal.Role.TheVariants as role;
ghost use Rattle.timbuk_grammar.specs.declared.terminal.Terminal.TheVariants as terminal;
ghost use Rattle.spec_text.specs.Declarations.{value_of};
ghost use Rattle.spec_text.specs.Rows.{is_in};
ghost use Rattle.timbuk_reader.specs.View.{Shorter, closed, naming};
ghost use Rattle.timbuk_reader.specs.Reads.{Advances, Stops, Reads, IsFresh, IsNewSymbol};

use crate::fault::SpecError;
use crate::state::Reader;
use ranked_terms::{MAX_ARITY, MAX_SYMBOLS, SigError};
use spec_text::{LimitName, MAX_DECLARED, SpecKind};
use timbuk_grammar::{Role, Terminal};

impl<'s, 'a> Reader<'s, 'a> {
    /// The symbols, if the text declares any: `Ops`, and names with their arities.
    #[rattlefmt::skip]
    #[tactic(auto, using(
        crate::proofs::parsing::Parts::then_reads,
        crate::proofs::parsing::Parts::then_stops,
        crate::proofs::parsing::Parts::then_head,
        crate::proofs::parsing::Parts::maybe_reads,
        crate::proofs::parsing::Parts::maybe_stops,
        crate::proofs::parsing::Parts::maybe_none
    ))]
    pub(crate) fn ops(&mut self) -> Result<(), SpecError>
        requires { IsFresh self.old }
        ensures reads { Reads (grammar.maybe grammar.ops) closed self.old result closed self.new }
        ensures fresh { OnOk result (IsFresh self.new) }
    {
        if !self.sees(Terminal::Ops) {
            return Ok(());
        }
        self.mark(Terminal::Ops)?;
        self.all_ops()
    }

    /// Names with their arities, as many as there are.
    #[rattlefmt::skip]
    #[tactic(auto, using(
        crate::proofs::parsing::Parts::turns_start,
        crate::proofs::parsing::Parts::turns_again,
        crate::proofs::parsing::Parts::turns_stop,
        crate::proofs::parsing::Parts::turns_err,
        crate::proofs::parsing::Parts::then_head
    ))]
    fn all_ops(&mut self) -> Result<(), SpecError>
        requires { IsFresh self.old }
        ensures reads { Reads (grammar.many grammar.op) closed self.old result closed self.new }
        ensures fresh { OnOk result (IsFresh self.new) }
    {
        while self.sees(Terminal::Named(Role::Symbol)) {
            self.op()?;
        }
        Ok(())
    }

    /// A name with its arity.
    fn op(&mut self) -> Result<(), SpecError>
        requires { IsFresh self.old }
        ensures shorter { OnOk result (Shorter self.old self.new) }
        ensures reads { Reads grammar.op closed self.old result closed self.new }
        ensures fresh { OnOk result (IsFresh self.new) }
    {
        let name = self.symbol_name()?;
        self.mark(Terminal::Colon)?;
        self.arity(name)
    }

    /// The name of a symbol. It is refused where there are `MAX_SYMBOLS` symbols, and where one of them has the name.
    fn symbol_name(&mut self) -> Result<&'a str, SpecError>
        requires { IsFresh self.old }
        ensures shorter { OnOk result (Shorter self.old self.new) }
        ensures ok { IfOk result (λ name. Advances (grammar.name role.Symbol) closed self.old (naming name.now) self.new) }
        ensures err { IfErr result (Stops (grammar.name role.Symbol) closed self.old) }
        ensures new { IfOk result (λ name. IsNewSymbol self.new.signature name.now) }
        ensures fresh { OnOk result (IsFresh self.new) }
    {
        let name = self.word(Terminal::Named(Role::Symbol))?;
        if self.signature.len() >= MAX_SYMBOLS {
            return Err(self.refusal(SpecKind::Limit(LimitName::Symbols)));
        }
        if self.signature.find(name).is_some() {
            return Err(self.refusal(SpecKind::DoubleName));
        }
        self.advance();
        Ok(name)
    }

    /// The arity of the symbol of this name, which is added. It is refused above `MAX_ARITY`.
    fn arity(&mut self, name: &str) -> Result<(), SpecError>
        requires fresh { IsFresh self.old }
        requires new { IsNewSymbol self.old.signature name.now }
        ensures shorter { OnOk result (Shorter self.old self.new) }
        ensures reads { Reads (grammar.one terminal.Number) (naming name.now) self.old result closed self.new }
        ensures fresh { OnOk result (IsFresh self.new) }
    {
        let arity = number_of(self.word(Terminal::Number)?.as_bytes());
        if arity > MAX_ARITY {
            return Err(self.refusal(SpecKind::Limit(LimitName::Arity)));
        }
        match self.signature.add(name, arity) {
            Ok(_) => {
                self.advance();
                Ok(())
            }
            Err(SigError::Memory) => Err(SpecError::Memory),
            Err(SigError::Double | SigError::Full) => unreachable!(),
        }
    }

    /// Whether a symbol or a variable has the name.
    pub(crate) fn is_taken(&self, name: &str) -> bool
        ensures { result ≡ is_in (names_of self.now.signature ++ self.now.variables) name.now }
    {
        self.signature.find(name).is_some() || self.variables.find(name).is_some()
    }

    /// The variables, if the text declares any: `Vars`, and names.
    #[rattlefmt::skip]
    #[tactic(auto, using(
        crate::proofs::parsing::Parts::then_reads,
        crate::proofs::parsing::Parts::then_stops,
        crate::proofs::parsing::Parts::then_head,
        crate::proofs::parsing::Parts::maybe_reads,
        crate::proofs::parsing::Parts::maybe_stops,
        crate::proofs::parsing::Parts::maybe_none
    ))]
    pub(crate) fn vars(&mut self) -> Result<(), SpecError>
        ensures { Reads (grammar.maybe grammar.vars) closed self.old result closed self.new }
    {
        if !self.sees(Terminal::Vars) {
            return Ok(());
        }
        self.mark(Terminal::Vars)?;
        self.all_vars()
    }

    /// Names of variables, as many as there are.
    #[rattlefmt::skip]
    #[tactic(auto, using(
        crate::proofs::parsing::Parts::turns_start,
        crate::proofs::parsing::Parts::turns_again,
        crate::proofs::parsing::Parts::turns_stop,
        crate::proofs::parsing::Parts::turns_err,
        crate::proofs::parsing::Parts::one_head
    ))]
    fn all_vars(&mut self) -> Result<(), SpecError>
        ensures { Reads (grammar.many (grammar.name role.Variable)) closed self.old result closed self.new }
    {
        while self.sees(Terminal::Named(Role::Variable)) {
            self.variable_name()?;
        }
        Ok(())
    }

    /// The name of a variable, which is added. It is refused where there are `MAX_DECLARED` variables, and where a symbol or a
    /// variable has the name.
    fn variable_name(&mut self) -> Result<(), SpecError>
        ensures shorter { OnOk result (Shorter self.old self.new) }
        ensures reads { Reads (grammar.name role.Variable) closed self.old result closed self.new }
    {
        let name = self.word(Terminal::Named(Role::Variable))?;
        if self.variables.len() >= MAX_DECLARED {
            return Err(self.refusal(SpecKind::Limit(LimitName::Declared)));
        }
        if self.is_taken(name) {
            return Err(self.refusal(SpecKind::DoubleName));
        }
        self.variables.add(name)?;
        self.advance();
        Ok(())
    }
}

/// The number that the digits spell, or 17 if that is less.
fn number_of(digits: &[u8]) -> u32
    ensures { result ≡ min (value_of digits.now) 17 }
{
    let mut number = 0;
    for digit in digits {
        number = (number * 10 + u32::from(digit.saturating_sub(b'0'))).min(MAX_ARITY + 1);
    }
    number
}
