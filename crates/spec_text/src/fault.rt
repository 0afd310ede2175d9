//! Faults of an input text: what is wrong, and where.

/// What is wrong with an input text. Where several of these fit one place, the first in this order is reported.
#[derive(Clone, Copy, Debug, Drop, PartialEq, Eq)]
pub enum SpecKind {
    /// A byte outside comments and quoted texts begins no token; a `-` without `>` is one.
    BadByte,
    /// A comment begins that does not end.
    OpenComment,
    /// A quoted text begins that does not end.
    OpenText,
    /// The token is a closed word.
    UnknownSection,
    /// The text ends where it may, and has no automaton.
    NoInitial,
    /// A symbol stands with another number of arguments than its arity says.
    WrongArity,
    /// The grammar does not have the token, or the end, there. So too for a `(` behind a variable or a state, and for an
    /// `Approximation` in front of the first automaton.
    Expected,
    /// The token would pass this limit.
    Limit(LimitName),
    /// No symbol, variable or state that is allowed in this place has the name.
    UnknownName,
    /// A symbol, variable or state from which this one has to differ has the name already.
    DoubleName,
    /// The left side of a rule begins with a variable.
    VariableLeft,
    /// A variable stands a second time in the left side of a rule.
    NotLeftLinear,
    /// A variable stands in the right side of a rule and not in its left side.
    FreeVariable,
}

/// The limits of an input text; `most` has their numbers. Where several are passed at one token, the first in this order is
/// reported.
#[derive(Clone, Copy, Debug, Drop, PartialEq, Eq)]
pub enum LimitName {
    /// The bytes of a name, of the name of a section or of an arity.
    NameBytes,
    /// The symbols.
    Symbols,
    /// The variables that are declared.
    Declared,
    /// An arity.
    Arity,
    /// How deep symbols with arguments are nested.
    Nesting,
    /// The variables of a rule, of an equation or of an entry.
    Variables,
    /// The rules.
    Rules,
    /// The equations.
    Equations,
    /// The entries of the approximation.
    Entries,
    /// The states of an automaton, the approximation's among those of the first.
    States,
    /// The automata.
    Automata,
    /// The sections `TRS`.
    Systems,
    /// The sections `Equations`.
    EquationSections,
    /// The sections `Approximation`.
    Approximations,
}

/// A fault of an input text: its kind and its place.
#[derive(Clone, Copy, Debug, Drop, PartialEq, Eq)]
pub struct SpecFault {
    /// What is wrong.
    pub kind: SpecKind,
    /// The line, counted from 1.
    pub line: u32,
    /// The column, counted in bytes of the line from 1.
    pub column: u32,
}
