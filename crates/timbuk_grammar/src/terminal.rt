//! What the grammar has in the place of one token.
ghost use Rattle.std.specs.Prelude.{◌≡◌};
ghost use Rattle.std.specs.List.{list_all};
ghost use Rattle.std.specs.Char.{is_ascii_digit};
ghost use Rattle.timbuk_grammar.specs.Matching.{word, mark, matches};

use crate::words::is_reserved_word;
use timbuk_lex::{Lexeme, TokenKind};

/// The places in which a name may stand.
#[derive(Clone, Copy, Debug, Drop, PartialEq, Eq)]
pub enum Role {
    /// A symbol, where `Ops` declares it.
    Symbol,
    /// A variable, where `Vars` declares it.
    Variable,
    /// The name of a section, which has no effect.
    Title,
    /// A name in the left side of a rule.
    LeftSide,
    /// A name in the right side of a rule.
    RightSide,
    /// A name in the left side of an equation.
    EquationLeft,
    /// A name in the right side of an equation.
    EquationRight,
    /// A state, where an automaton declares it.
    State,
    /// A state, where the approximation declares it.
    ApproximationState,
    /// The state that a description is of.
    DescribedState,
    /// A state under `Final States`.
    FinalState,
    /// The first name of a transition: its symbol, or the state from which an epsilon transition goes.
    TransitionHead,
    /// An argument of a transition.
    TransitionArgument,
    /// The state to which a transition goes.
    TransitionTarget,
    /// A name in the first pattern of an approximation rule.
    EntryWhole,
    /// The name after that pattern's arrow.
    EntryAt,
    /// The symbol of an entry of an approximation rule.
    EntryHead,
    /// An argument of an entry.
    EntryArgument,
    /// The state to which an entry goes.
    EntryTarget,
}

/// What the grammar has in the place of one token.
#[derive(Clone, Copy, Debug, Drop, PartialEq, Eq)]
pub enum Terminal {
    /// The word `Ops`.
    Ops,
    /// The word `Vars`.
    Vars,
    /// The word `TRS`.
    Trs,
    /// The word `Automaton`.
    Automaton,
    /// The word `States`.
    States,
    /// The word `Description`.
    Description,
    /// The word `Final`.
    Final,
    /// The word `Prior`.
    Prior,
    /// The word `Transitions`.
    Transitions,
    /// The word `Equations`.
    Equations,
    /// The word `Approximation`.
    Approximation,
    /// The word `Rules`.
    Rules,
    /// The mark `:`.
    Colon,
    /// The mark `(`.
    OpenParen,
    /// The mark `)`.
    CloseParen,
    /// The mark `,`.
    Comma,
    /// The mark `->`.
    Arrow,
    /// The mark `=`.
    Equals,
    /// The mark `[`.
    OpenBracket,
    /// The mark `]` after the name of an approximation rule.
    CloseBracket,
    /// The mark `]` after the entries of an approximation rule.
    CloseEntries,
    /// A name: any word that is neither a section word nor a closed word.
    Named(Role),
    /// An arity: a word of digits.
    Number,
    /// The word `0` after the colon of a state.
    Zero,
    /// A quoted text.
    Quoted,
}

/// Whether the token is this word.
fn is_this_word(lexeme: &Lexeme, text: &[u8]) -> bool
    ensures { result ≡ word text.now lexeme.now }
{
    matches!(lexeme.kind, TokenKind::Word) && lexeme.text.as_slice() == text
}

/// Whether the token is this mark.
fn is_this_mark(lexeme: &Lexeme, text: &[u8]) -> bool
    ensures { result ≡ mark text.now lexeme.now }
{
    matches!(lexeme.kind, TokenKind::Mark) && lexeme.text.as_slice() == text
}

/// Whether all bytes are digits.
fn is_all_digits(text: &[u8]) -> bool
    ensures { result ≡ list_all is_ascii_digit text.now }
{
    text.iter().all(|b| b.is_ascii_digit())
}

impl Terminal {
    /// Whether the token is what this terminal stands for. Where the token stands in its text makes no difference, and
    /// neither does the place of a name. Words of digits are names too.
    pub fn matches(self, lexeme: &Lexeme) -> bool
        ensures { result ≡ matches self lexeme.now }
    {
        match self {
            Terminal::Ops => is_this_word(lexeme, b"Ops"),
            Terminal::Vars => is_this_word(lexeme, b"Vars"),
            Terminal::Trs => is_this_word(lexeme, b"TRS"),
            Terminal::Automaton => is_this_word(lexeme, b"Automaton"),
            Terminal::States => is_this_word(lexeme, b"States"),
            Terminal::Description => is_this_word(lexeme, b"Description"),
            Terminal::Final => is_this_word(lexeme, b"Final"),
            Terminal::Prior => is_this_word(lexeme, b"Prior"),
            Terminal::Transitions => is_this_word(lexeme, b"Transitions"),
            Terminal::Equations => is_this_word(lexeme, b"Equations"),
            Terminal::Approximation => is_this_word(lexeme, b"Approximation"),
            Terminal::Rules => is_this_word(lexeme, b"Rules"),
            Terminal::Colon => is_this_mark(lexeme, b":"),
            Terminal::OpenParen => is_this_mark(lexeme, b"("),
            Terminal::CloseParen => is_this_mark(lexeme, b")"),
            Terminal::Comma => is_this_mark(lexeme, b","),
            Terminal::Arrow => is_this_mark(lexeme, b"->"),
            Terminal::Equals => is_this_mark(lexeme, b"="),
            Terminal::OpenBracket => is_this_mark(lexeme, b"["),
            Terminal::CloseBracket | Terminal::CloseEntries => is_this_mark(lexeme, b"]"),
            Terminal::Named(_) => {
                matches!(lexeme.kind, TokenKind::Word) && !is_reserved_word(lexeme.text.as_slice())
            }
            Terminal::Number => {
                matches!(lexeme.kind, TokenKind::Word) && is_all_digits(lexeme.text.as_slice())
            }
            Terminal::Zero => is_this_word(lexeme, b"0"),
            Terminal::Quoted => matches!(lexeme.kind, TokenKind::Text),
        }
    }
}
