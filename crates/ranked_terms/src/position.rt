//! Positions of subterms.
ghost use Rattle.std.specs.Prelude.{◌≡◌, IfOk};

use std::alloc::{AllocError, Global};
use std::marker::Model;

/// A position in a term: the numbers of the arguments on the way from the root, counted from 1. The root is the
/// empty list (TATA, Preliminaries).
#[derive(Debug, Drop)]
pub struct Position {
    steps: Vec<u32>,
}

impl Model for Position {
    ghost use Rattle.std.specs.Prelude.{List, ℕ};
    ghost use Rattle.std.specs.Coded.{coded_list, coded_ℕ};

    ghost Value = { List ℕ };

    ghost coded = { coded_list coded_ℕ };

    ghost view = { λ position. position.steps.items };
}

impl Position {
    /// The position of these argument numbers. The only error is running out of memory.
    pub fn from_slice(alloc: Global, items: &[u32]) -> Result<Position, AllocError>
        ensures { IfOk result (λ position. position ≡ items.now) }
    {
        let steps = Vec::from_slice(alloc, items)?;
        Ok(Position { steps })
    }

    /// The argument numbers, from the root on.
    pub fn as_slice(&self) -> &[u32]
        ensures { result.now ≡ self.now }
    {
        self.steps.as_slice()
    }
}
