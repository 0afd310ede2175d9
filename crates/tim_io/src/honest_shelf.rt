//! Files in memory, which never fail.
ghost use Rattle.std.specs.Prelude.{◌≡◌, ℕ, ◌<◌, List, [], Some, Ok, length, OnOk, OnErr};
ghost use Rattle.tim_io.specs.Pieces.{share};
ghost use Rattle.tim_io.specs.Shelves.{Takes, OthersStay};

use crate::files::Files;
use crate::shelf::{Shelf, TakeError};
use std::alloc::{AllocError, Global};

/// Files in memory, which never fail. A name that is not there is an empty file.
#[derive(Debug, Drop)]
pub struct HonestShelf {
    files: Files,
    piece: usize,
    ghost gives: { 0 < piece },
}

impl HonestShelf {
    ghost use Rattle.tim_io.specs.HonestShelf.{left_of, piece_of};

    /// A shelf without files, which gives at most `piece` bytes a call. `piece` is at least 1.
    pub fn new(alloc: Global, piece: usize) -> HonestShelf
        requires { 0 < piece }
        ensures left { (name : List ℕ) → left_of result name ≡ [] }
        ensures piece { piece_of result ≡ piece }
    {
        HonestShelf {
            files: Files::new(alloc),
            piece,
        }
    }

    /// Adds a file, or replaces the one of this name, which then begins anew. The only error is running out of memory;
    /// then nothing changes.
    pub fn add(&mut self, name: &str, bytes: &[u8]) -> Result<(), AllocError>
        ensures added { OnOk result (left_of self.new name.now ≡ bytes.now) }
        ensures refused { OnErr result (left_of self.new name.now ≡ left_of self.old name.now) }
        ensures others { OthersStay (left_of self.old) (left_of self.new) name.now }
        ensures piece { piece_of self.new ≡ piece_of self.old }
    {
        self.files.add(name, bytes)
    }
}

impl Shelf for HonestShelf {
    ghost use Rattle.tim_io.specs.HonestShelf.{left_of, piece_of};

    ghost left = { λ shelf name. Some (left_of shelf name) };

    ghost faults = { λ shelf name. 0 };

    /// Never fails.
    fn take(&mut self, name: &str, buf: &mut [u8]) -> Result<usize, TakeError>
        ensures takes { Takes (Some (left_of self.old name.now)) (Some (left_of self.new name.now)) result buf.new }
        ensures others { OthersStay (left_of self.old) (left_of self.new) name.now }
        // Beside the trait's clauses: a call never fails, and gives as much as it can.
        ensures gives { result ≡ Ok (share (length (left_of self.old name.now)) (piece_of self.old) (length buf.new)) }
        ensures piece { piece_of self.new ≡ piece_of self.old }
    {
        let piece = self.piece;
        match self.files.give(name, buf, piece) {
            Some(count) => Ok(count),
            None => Ok(0),
        }
    }
}
