//! The limits of an input text: each number stands here, or in the crate whose type keeps it.
ghost use Rattle.std.specs.Prelude.{◌≡◌};
ghost use Rattle.spec_text.specs.Limits.{most};

use crate::fault::LimitName;
use ranked_terms::{MAX_ARITY, MAX_NAME, MAX_SYMBOLS};
use ta_core::MAX_STATES;

/// The variables that may be declared.
pub const MAX_DECLARED: u32 = 1024;

/// How deep symbols with arguments may be nested.
pub const MAX_NESTING: u32 = 100;

/// The variables that a rule, an equation or an entry may have.
pub const MAX_VARIABLES: usize = 16;

/// The rules that a text may have.
pub const MAX_RULES: usize = 4096;

/// The equations that a text may have.
pub const MAX_EQUATIONS: usize = 1024;

/// The entries that an approximation may have.
pub const MAX_ENTRIES: usize = 1024;

/// The automata that a text may have.
pub const MAX_AUTOMATA: u32 = 2;

/// The sections `TRS` that a text may have.
pub const MAX_SYSTEMS: u32 = 1;

/// The sections `Equations` that a text may have.
pub const MAX_EQUATION_SECTIONS: u32 = 1;

/// The sections `Approximation` that a text may have.
pub const MAX_APPROXIMATIONS: u32 = 1;

impl LimitName {
    /// How many there may be of what the limit is of.
    pub fn most(self) -> u32
        ensures { result ≡ most self }
    {
        match self {
            LimitName::NameBytes => MAX_NAME as u32,
            LimitName::Symbols => MAX_SYMBOLS,
            LimitName::Declared => MAX_DECLARED,
            LimitName::Arity => MAX_ARITY,
            LimitName::Nesting => MAX_NESTING,
            LimitName::Variables => MAX_VARIABLES as u32,
            LimitName::Rules => MAX_RULES as u32,
            LimitName::Equations => MAX_EQUATIONS as u32,
            LimitName::Entries => MAX_ENTRIES as u32,
            LimitName::States => MAX_STATES,
            LimitName::Automata => MAX_AUTOMATA,
            LimitName::Systems => MAX_SYSTEMS,
            LimitName::EquationSections => MAX_EQUATION_SECTIONS,
            LimitName::Approximations => MAX_APPROXIMATIONS,
        }
    }
}
