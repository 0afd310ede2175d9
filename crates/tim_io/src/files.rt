//! Files in memory, by name.
ghost use Rattle.std.specs.Prelude.{◌≡◌, ℕ, List, Some, None, OnOk, OnErr};
ghost use Rattle.std.specs.Option.{option_copied};
ghost use Rattle.tim_io.specs.Shelves.{OthersStay};

use crate::file::File;
use std::alloc::{AllocError, Global};
use std::collections::BTreeMap;

/// Files in memory, each with what was taken of it.
#[derive(Debug, Drop)]
pub struct Files {
    alloc: Global,
    by_name: BTreeMap<String, File>,
}

impl Files {
    ghost use Rattle.tim_io.specs.Files.{left_in, Gives};

    /// No file yet.
    pub fn new(alloc: Global) -> Files
        ensures { (name : List ℕ) → left_in result name ≡ None }
    {
        Files {
            alloc,
            by_name: BTreeMap::new(alloc),
        }
    }

    /// Adds a file, or begins the one of this name anew. On running out of memory nothing changes.
    #[tactic(auto, using(std::proofs::lemmas::Map::Text::text_keys))]
    pub fn add(&mut self, name: &str, bytes: &[u8]) -> Result<(), AllocError>
        ensures added { OnOk result (left_in self.new name.now ≡ Some bytes.now) }
        ensures refused { OnErr result (left_in self.new name.now ≡ left_in self.old name.now) }
        ensures others { OthersStay (left_in self.old) (left_in self.new) name.now }
    {
        let key = String::from_str(self.alloc, name)?;
        let file = File::new(Vec::from_slice(self.alloc, bytes)?);
        self.by_name.insert(key, file)?;
        Ok(())
    }

    /// What a file has left, `None` where there is no such file.
    pub fn rest(&self, name: &str) -> Option<&[u8]>
        ensures { option_copied result ≡ left_in self.now name.now }
    {
        match self.by_name.get(name) {
            Some(file) => Some(file.rest()),
            None => None,
        }
    }

    /// Gives the next bytes of a file, at most `most`, or `None` where there is no such file.
    #[tactic(auto, using(std::proofs::lemmas::Map::Text::text_keys))]
    pub fn give(&mut self, name: &str, buf: &mut [u8], most: usize) -> Option<usize>
        ensures given { Gives (left_in self.old name.now) (left_in self.new name.now) result buf.new most }
        ensures others { OthersStay (left_in self.old) (left_in self.new) name.now }
    {
        let file = self.by_name.get_mut(name)?;
        Some(file.give(buf, most))
    }
}
