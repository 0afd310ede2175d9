//! The next token: looking at it, taking it and refusing it.
ghost use Rattle.std.specs.Prelude.{◌≡◌, ◌<◌, ◌≤◌, ◌∷◌, IsTrue, IfOk, IfErr, OnOk, length};
ghost use Rattle.ranked_terms.specs.Words.{IsNameText};
ghost use Rattle.timbuk_lex.specs.Laws.{HasWord};
ghost use Rattle.timbuk_lex.specs.declared.lexeme.TokenKind.TheVariants.{Word};
ghost use Rattle.timbuk_grammar.specs.Grammar as grammar;
ghost use Rattle.spec_text.specs.Rows.{is_closed_word};
ghost use Rattle.spec_text.specs.Rows.{fault};
ghost use Rattle.timbuk_reader.specs.View.{Shorter, closed, end_of, end_fault, state_of, refusal};
ghost use Rattle.spec_text.specs.Reading.{sees};
ghost use Rattle.timbuk_reader.specs.Reads.{Reads, Takes, IsMark, IsWordly, Stands, HasNoWord};

use crate::fault::{SpecError, lexical_kind};
use crate::state::Reader;
use ranked_terms::MAX_NAME;
use spec_text::{LimitName, SpecFault, SpecKind};
use timbuk_grammar::{Terminal, is_closed_word};
use timbuk_lex::{Ending, Lexeme, TokenKind, end_of, word_law};

/// The bytes of a word, as a text.
fn text_of<'a>(token: &Lexeme<'a>) -> &'a str
    requires word { token.now.kind ≡ Word }
    requires spelled { HasWord token.now }
    ensures { result.now ≡ token.now.text }
{
    // For the proof: a word is UTF-8.
    word_law();
    str::from_utf8(token.text.as_slice()).unwrap()
}

impl<'s, 'a> Reader<'s, 'a> {
    /// The fault at the next token, where it is of this kind: a closed word is reported as one. At the end the fault is the
    /// byte that begins no token, or that a token is expected.
    pub(crate) fn refusal(&self, kind: SpecKind) -> SpecError
        ensures { result ≡ SpecError.Fault (refusal kind self.now) }
    {
        let Some(token) = self.tokens.first() else {
            return SpecError::Fault(self.fault_at_end());
        };
        let kind = if is_closed(token) {
            SpecKind::UnknownSection
        } else {
            kind
        };
        SpecError::Fault(SpecFault {
            kind,
            line: token.line,
            column: token.column,
        })
    }

    /// The fault at the end, where it may not stand: that of the byte that begins no token, or that a token is expected.
    fn fault_at_end(&self) -> SpecFault
        ensures { result ≡ end_fault self.now.ending (end_of self.now) }
    {
        match self.ending {
            Ending::Whole => self.at_the_end(SpecKind::Expected),
            Ending::Stopped { why, line, column } => SpecFault {
                kind: lexical_kind(why),
                line,
                column,
            },
        }
    }

    /// The fault of this kind at the place after the last byte of the text.
    #[tactic(auto, unfolding(crate::specs::View::end_line, crate::specs::View::end_column))]
    pub(crate) fn at_the_end(&self, kind: SpecKind) -> SpecFault
        ensures { result ≡ fault kind (end_of self.now).line (end_of self.now).column }
    {
        let end = end_of(self.bytes);
        SpecFault {
            kind,
            line: end.line,
            column: end.column,
        }
    }

    /// Whether the next token is what the terminal stands for.
    pub(crate) fn sees(&self, terminal: Terminal) -> bool
        ensures value { result ≡ sees terminal self.now.tokens.now }
        ensures within { IsTrue result → 0 < length self.now.tokens.now }
    {
        match self.tokens.first() {
            Some(token) => terminal.matches(token),
            None => false,
        }
    }

    /// Takes the next token.
    pub(crate) fn advance(&mut self) -> &'s Lexeme<'a>
        requires { 0 < length self.old.tokens.now }
        ensures token { self.old.tokens.now ≡ result.now ∷ self.new.tokens.now }
        ensures state { state_of self.new ≡ state_of self.old }
        ensures bound { self.new.bound ≡ self.old.bound }
        ensures end { end_of self.new ≡ end_of self.old }
    {
        let token = &self.tokens[0];
        self.tokens = &self.tokens[1..];
        token
    }

    /// Takes what the terminal stands for. Any other token is refused as not expected.
    pub(crate) fn take(&mut self, terminal: Terminal) -> Result<(), SpecError>
        ensures shorter { OnOk result (Shorter self.old self.new) }
        ensures takes { Takes terminal self.old result self.new }
    {
        if !self.sees(terminal) {
            return Err(self.refusal(SpecKind::Expected));
        }
        self.advance();
        Ok(())
    }

    /// Takes a mark, or a section word that has no effect. Any other token is refused as not expected.
    pub(crate) fn mark(&mut self, terminal: Terminal) -> Result<(), SpecError>
        requires { IsMark terminal }
        ensures shorter { OnOk result (Shorter self.old self.new) }
        ensures takes { Takes terminal self.old result self.new }
        ensures reads { Reads (grammar.one terminal) closed self.old result closed self.new }
    {
        self.take(terminal)
    }

    /// The word that stands next, a name or an arity. Any other token is refused as not expected, and a word of more than
    /// `MAX_NAME` bytes as too long.
    pub(crate) fn word(&self, terminal: Terminal) -> Result<&'a str, SpecError>
        requires { IsWordly terminal }
        ensures ok { IfOk result (λ text. Stands terminal self.now text.now) }
        ensures err { IfErr result (HasNoWord terminal self.now) }
        ensures text { IfOk result (λ text. IsNameText text.now) }
    {
        if !self.sees(terminal) {
            return Err(self.refusal(SpecKind::Expected));
        }
        let text = text_of(&self.tokens[0]);
        if text.len() > MAX_NAME {
            return Err(self.refusal(SpecKind::Limit(LimitName::NameBytes)));
        }
        Ok(text)
    }
}

/// Whether the token is a closed word.
fn is_closed(token: &Lexeme) -> bool
    ensures { result ≡ is_closed_word token.now }
{
    matches!(token.kind, TokenKind::Word) && is_closed_word(token.text.as_slice())
}
