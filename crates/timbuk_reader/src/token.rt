//! The tokens of an input text, each with a text of its own.
ghost use Rattle.std.specs.Prelude.{◌≡◌, ◌-◌, ◌<◌, ◌^◌, All, None, Some, Err, find, length, map, option_map, IfOk};
ghost use Rattle.timbuk_lex.specs.Lexing.{lexed};
ghost use Rattle.timbuk_reader.specs.Tokens as tokens;
ghost use Rattle.spec_text.specs.declared.fault.SpecFault.{SpecFault as Reported};
ghost use Rattle.timbuk_reader.specs.declared.token.TokenError.TheVariants.{Memory};

use crate::fault::lexical_kind;
use ranked_terms::{MAX_NAME, Name, Seq};
use spec_text::{LimitName, SpecFault, SpecKind};
use std::alloc::{AllocError, Global};
use timbuk_lex::{Ending, Lexeme, TokenKind, lex_of};

/// A token of an input text: the bytes that begin at `start`.
#[derive(Debug, Drop)]
pub struct Token {
    /// What the token is.
    pub kind: TokenKind,
    /// The bytes of the token.
    pub text: Name,
    /// How many bytes stand before it.
    pub start: usize,
    /// Its line, counted from 1.
    pub line: u32,
    /// The column of its first byte, counted in bytes of the line from 1.
    pub column: u32,
}

/// Why a text has no tokens.
#[derive(Clone, Copy, Debug, Drop, PartialEq, Eq)]
pub enum TokenError {
    /// A byte begins no token, a comment or a quoted text has no end, or a word has more than `MAX_NAME` bytes.
    Fault(SpecFault),
    /// The memory ran out.
    Memory,
}

impl From<AllocError> for TokenError {
    ghost use Rattle.std.specs.Prelude.{◌≡◌};
    ghost use Rattle.timbuk_reader.specs.declared.token.TokenError.TheVariants.{Memory};

    ghost from_gives = { λ _ e. e ≡ Memory };

    fn from(_: AllocError) -> TokenError {
        TokenError::Memory
    }
}

/// The same token with a text of its own. The only error is running out of memory.
fn token_of(alloc: Global, lexeme: &Lexeme) -> Result<Token, AllocError>
    ensures { IfOk result (λ token. token ≡ tokens.token_of lexeme.now) }
{
    Ok(Token {
        kind: lexeme.kind,
        text: Name::from_slice(alloc, lexeme.text.as_slice())?,
        start: lexeme.start,
        line: lexeme.line,
        column: lexeme.column,
    })
}

/// Whether the token is a word of more than `MAX_NAME` bytes.
fn is_long_word(lexeme: &Lexeme) -> bool
    ensures { result ≡ tokens.is_long_word lexeme.now }
{
    matches!(lexeme.kind, TokenKind::Word) && lexeme.text.as_slice().len() > MAX_NAME
}

/// The fault of the byte at which the lexer stopped. `None` exactly where it went to the end.
fn ending_fault(ending: Ending) -> Option<SpecFault>
    ensures { result ≡ tokens.ending_fault ending }
{
    match ending {
        Ending::Whole => None,
        Ending::Stopped { why, line, column } => Some(SpecFault {
            kind: lexical_kind(why),
            line,
            column,
        }),
    }
}

/// The first word of more than `MAX_NAME` bytes. `None` exactly where there is none.
fn first_long_word<'s, 'a>(lexemes: &'s [Lexeme<'a>]) -> Option<&'s Lexeme<'a>>
    ensures { option_map (λ lexeme. lexeme.now) result ≡ find tokens.is_long_word lexemes.now }
{
    lexemes.iter().find(|lexeme| is_long_word(lexeme))
}

/// The first fault of tokens and of the ending behind them: at a word of more than `MAX_NAME` bytes, else where the lexer
/// stopped. `None` exactly where there is neither.
fn first_fault(lexemes: &[Lexeme], ending: Ending) -> Option<SpecFault>
    ensures { result ≡ tokens.first_fault (find tokens.is_long_word lexemes.now) ending }
{
    match first_long_word(lexemes) {
        Some(lexeme) => Some(SpecFault {
            kind: SpecKind::Limit(LimitName::NameBytes),
            line: lexeme.line,
            column: lexeme.column,
        }),
        None => ending_fault(ending),
    }
}

/// The same tokens, each with a text of its own. The only error is running out of memory.
fn tokens_of(alloc: Global, lexemes: &[Lexeme]) -> Result<Seq<Token>, AllocError>
    ensures { IfOk result (λ all. all ≡ map tokens.token_of lexemes.now) }
{
    let mut all = Seq::new(alloc);
    for lexeme in lexemes {
        all.push(token_of(alloc, lexeme)?)?;
    }
    Ok(all)
}

/// The tokens of a text of fewer than 4,294,967,295 bytes, in order; the text of each is the slice of the bytes that begins at
/// its `start`. `Fault` exactly where a byte begins no token, a comment or a quoted text has no end, or a word has more than
/// `MAX_NAME` bytes: the first of these, from the left.
#[tactic(auto, using(crate::proofs::keeping::Slices::in_order_of))]
pub fn tokens(alloc: Global, bytes: &[u8]) -> Result<Seq<Token>, TokenError>
    requires { length bytes.now < 2 ^ 32 - 1 }
    ensures tokens { IfOk result (λ all. all ≡ map tokens.token_of (lexed bytes.now).tokens) }
    ensures slices { IfOk result (All (tokens.IsSlice bytes.now)) }
    ensures in_order { IfOk result (tokens.InOrder 0) }
    ensures fine { IfOk result (λ _. tokens.token_fault bytes.now ≡ None) }
    ensures fault { (reported : Reported) → result ≡ Err (TokenError.Fault reported)
        → tokens.token_fault bytes.now ≡ Some reported }
{
    let lexed = lex_of(alloc, bytes)?;
    if let Some(fault) = first_fault(lexed.tokens.as_slice(), lexed.ending) {
        return Err(TokenError::Fault(fault));
    }
    Ok(tokens_of(alloc, lexed.tokens.as_slice())?)
}
