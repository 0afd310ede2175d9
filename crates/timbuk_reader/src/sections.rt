//! Reads the sections after the variables, and the end of the text.
ghost use Rattle.std.specs.Prelude.{◌≡◌, ◌≢◌, true, Ok, Err, OnOk, IfErr, MatchOption};
ghost use Rattle.timbuk_grammar.specs.Grammar as grammar;
ghost use Rattle.timbuk_reader.specs.SectionReads.{word_of, part_of, BeginsNone, from_start, at_end};
ghost use Rattle.timbuk_reader.specs.View.{Shorter, closed, as_error, state_of};
ghost use Rattle.spec_text.specs.Reading.{sees};
ghost use Rattle.timbuk_reader.specs.Reads.{Reads, IsFresh};

use crate::fault::SpecError;
use crate::state::Reader;
use spec_text::SpecKind;
use timbuk_grammar::Terminal;
use timbuk_lex::Ending;

/// The sections that may stand after the variables, in any order.
#[derive(Clone, Copy, Debug, Drop)]
enum Section {
    /// `TRS`: rules.
    System,
    /// `Automaton`: the initial automaton, or the one of forbidden terms.
    Automaton,
    /// `Equations`: equations.
    Equations,
    /// `Approximation`: states and entries.
    Approximation,
}

impl<'s, 'a> Reader<'s, 'a> {
    /// A whole text. The error is its first fault, or running out of memory.
    pub(crate) fn text(&mut self) -> Result<(), SpecError>
        requires { IsFresh self.old }
        ensures ok { OnOk result (from_start self.old ≡ Ok (state_of self.new)) }
        ensures err { IfErr result (λ e. e ≢ SpecError.Memory → as_error (from_start self.old) ≡ Err e) }
    {
        self.declarations()?;
        self.end()
    }

    /// All that a text declares: symbols, variables and sections. The error is the first fault in them, or running out of memory.
    fn declarations(&mut self) -> Result<(), SpecError>
        requires { IsFresh self.old }
        ensures { Reads grammar.file closed self.old result closed self.new }
    {
        self.ops()?;
        self.vars()?;
        self.sections()
    }

    /// The sections after the variables, as many as there are. The error is the first fault in one of them, or running out of
    /// memory.
    #[rattlefmt::skip]
    #[tactic(auto, using(
        crate::proofs::parsing::Parts::turns_start,
        crate::proofs::parsing::Sections::sections_again,
        crate::proofs::parsing::Sections::sections_stop,
        crate::proofs::parsing::Sections::sections_err
    ))]
    fn sections(&mut self) -> Result<(), SpecError>
        ensures { Reads (grammar.many grammar.section) closed self.old result closed self.new }
    {
        while let Some(section) = self.next_section() {
            self.section(section)?;
        }
        Ok(())
    }

    /// The section whose word stands next, if one does.
    fn next_section(&self) -> Option<Section>
        ensures { MatchOption result (BeginsNone self.now.tokens.now)
            (λ section. sees (word_of section) self.now.tokens.now ≡ true) }
    {
        if self.sees(Terminal::Trs) {
            Some(Section::System)
        } else if self.sees(Terminal::Automaton) {
            Some(Section::Automaton)
        } else if self.sees(Terminal::Equations) {
            Some(Section::Equations)
        } else if self.sees(Terminal::Approximation) {
            Some(Section::Approximation)
        } else {
            None
        }
    }

    /// A section, from its word on. The error is the first fault in it, or running out of memory.
    fn section(&mut self, section: Section) -> Result<(), SpecError>
        ensures shorter { OnOk result (Shorter self.old self.new) }
        ensures reads { Reads (part_of section) closed self.old result closed self.new }
    {
        match section {
            Section::System => self.system(),
            Section::Automaton => self.automaton(),
            Section::Equations => self.equations(),
            Section::Approximation => self.approximation(),
        }
    }

    /// The end of a text. A token is refused, as a closed word or as not expected; where no token is left, the error is the
    /// byte that begins none, or that the text has no automaton.
    #[rattlefmt::skip]
    #[tactic(auto, using(
        crate::proofs::parsing::Sections::end_at_token,
        crate::proofs::parsing::Sections::end_at_byte,
        crate::proofs::parsing::Sections::end_without_automaton,
        crate::proofs::parsing::Sections::end_is_whole
    ))]
    fn end(&self) -> Result<(), SpecError>
        ensures ok { OnOk result (at_end self.now ≡ Ok (state_of self.now)) }
        ensures err { IfErr result (λ e. as_error (at_end self.now) ≡ Err e) }
    {
        if !self.tokens.is_empty() || self.ending != Ending::Whole {
            return Err(self.refusal(SpecKind::Expected));
        }
        if self.automata == 0 {
            return Err(SpecError::Fault(self.at_the_end(SpecKind::NoInitial)));
        }
        Ok(())
    }
}
