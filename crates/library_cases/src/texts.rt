//! Tokens, and the terminals that they match.
ghost use Rattle.std.specs.Prelude.{◌≤◌, length};

use std::alloc::{AllocError, Global};
use std::str;
use timbuk_grammar::{Role, Terminal, is_closed_word, is_reserved_word};
use timbuk_lex::{Ending, Lexeme, TokenKind, lex_of};
use timbuk_reader::{Token, TokenError, tokens};

/// Each terminal, with one role of a name for all.
const TERMINALS: &[Terminal] = &[
    Terminal::Ops,
    Terminal::Vars,
    Terminal::Trs,
    Terminal::Automaton,
    Terminal::States,
    Terminal::Description,
    Terminal::Final,
    Terminal::Prior,
    Terminal::Transitions,
    Terminal::Equations,
    Terminal::Approximation,
    Terminal::Rules,
    Terminal::Colon,
    Terminal::OpenParen,
    Terminal::CloseParen,
    Terminal::Comma,
    Terminal::Arrow,
    Terminal::Equals,
    Terminal::OpenBracket,
    Terminal::CloseBracket,
    Terminal::CloseEntries,
    Terminal::Named(Role::State),
    Terminal::Number,
    Terminal::Zero,
    Terminal::Quoted,
];

/// A token as its kind, its place and its text.
fn one_token(alloc: Global, token: &Lexeme<'_>) -> Result<String, AllocError> {
    let kind = match token.kind {
        TokenKind::Word => "word",
        TokenKind::Text => "text",
        TokenKind::Mark => "mark",
    };
    let text = str::from_utf8(token.text.as_slice()).unwrap_or("?");
    format!(in alloc; "{kind} {}:{} {text}\n", token.line, token.column)
}

/// How a text ends.
fn ending_of(alloc: Global, ending: &Ending) -> Result<String, AllocError> {
    match ending {
        Ending::Whole => format!(in alloc; "whole\n"),
        Ending::Stopped { why, line, column } => format!(in alloc; "{why:?} {line}:{column}\n"),
    }
}

/// Each token of the text, and then its ending.
pub fn token_lines(alloc: Global, text: &[u8]) -> Result<String, AllocError>
    requires { length text.now ≤ 1000 }
{
    let lexed = lex_of(alloc, text)?;
    let mut all = String::new(alloc);
    for token in lexed.tokens.as_slice() {
        all.push_str(&one_token(alloc, token)?)?;
    }
    all.push_str(&ending_of(alloc, &lexed.ending)?)?;
    Ok(all)
}

/// The terminals that the token matches.
fn matched(alloc: Global, token: &Lexeme<'_>) -> Result<String, AllocError> {
    let mut all = String::new(alloc);
    for terminal in TERMINALS {
        if terminal.matches(token) {
            all.push_str(&format!(in alloc; "{terminal:?} ")?)?;
        }
    }
    Ok(all)
}

/// The terminals that each token of the text matches.
pub fn terminal_lines(alloc: Global, text: &[u8]) -> Result<String, AllocError>
    requires { length text.now ≤ 1000 }
{
    let lexed = lex_of(alloc, text)?;
    let mut all = String::new(alloc);
    for token in lexed.tokens.as_slice() {
        all.push_str(&matched(alloc, token)?)?;
        all.push_str(";\n")?;
    }
    Ok(all)
}

/// Whether the text is a reserved word, and whether it is a closed one.
pub fn word_line(alloc: Global, text: &[u8]) -> Result<String, AllocError> {
    let reserved = is_reserved_word(text);
    let closed = is_closed_word(text);
    format!(in alloc; "reserved {reserved}, closed {closed}\n")
}

/// A token that owns its text, as its place and its text.
fn one_of_its_own(alloc: Global, token: &Token) -> Result<String, AllocError> {
    let text = str::from_utf8(token.text.as_slice()).unwrap_or("?");
    format!(in alloc; "{} {}:{} {text}\n", token.start, token.line, token.column)
}

/// Each token of the text as one that owns its text, or the text's fault.
pub fn own_token_lines(alloc: Global, text: &[u8]) -> Result<String, AllocError>
    requires { length text.now ≤ 1000 }
{
    let mut line = String::new(alloc);
    match tokens(alloc, text) {
        Ok(all) => {
            for token in all.as_slice() {
                line.push_str(&one_of_its_own(alloc, token)?)?;
            }
        }
        Err(TokenError::Fault(fault)) => {
            let (kind, row, column) = (fault.kind, fault.line, fault.column);
            line.push_str(&format!(in alloc; "{kind:?} {row}:{column}\n")?)?;
        }
        Err(TokenError::Memory) => return Err(AllocError),
    }
    Ok(line)
}
