//! Why no specification was read.
ghost use Rattle.std.specs.Prelude.{◌≡◌};
ghost use Rattle.spec_text.specs.Rows as rows;

use spec_text::{SpecFault, SpecKind};
use std::alloc::AllocError;
use timbuk_lex::LexFault;

/// Why no specification was read.
#[derive(Clone, Copy, Debug, Drop, PartialEq, Eq)]
pub enum SpecError {
    /// The text has this fault, and none before it.
    Fault(SpecFault),
    /// The memory ran out.
    Memory,
}

impl From<AllocError> for SpecError {
    ghost use Rattle.std.specs.Prelude.{◌≡◌};
    ghost use Rattle.timbuk_reader.specs.declared.fault.SpecError.TheVariants.{Memory};

    ghost from_gives = { λ _ e. e ≡ Memory };

    fn from(_: AllocError) -> SpecError {
        SpecError::Memory
    }
}

/// What is wrong with a text at a byte that begins no token.
pub(crate) fn lexical_kind(why: LexFault) -> SpecKind
    ensures { result ≡ rows.lexical_kind why }
{
    match why {
        LexFault::BadByte => SpecKind::BadByte,
        LexFault::OpenComment => SpecKind::OpenComment,
        LexFault::OpenText => SpecKind::OpenText,
    }
}
