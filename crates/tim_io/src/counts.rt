//! Counts of faults, by name.
ghost use Rattle.std.specs.Prelude.{◌≡◌, ℕ, ◌≤◌, List};
ghost use Rattle.tim_io.specs.Causes.{one_more};
ghost use Rattle.tim_io.specs.Shelves.{OthersStay};

use crate::shelf::TakeError;
use std::alloc::Global;
use std::collections::BTreeMap;

/// How often each name has failed. A count stops at the last value of a `u64`.
#[derive(Debug, Drop)]
pub struct Counts {
    alloc: Global,
    by_name: BTreeMap<String, u64>,
}

impl Counts {
    ghost use Rattle.tim_io.specs.Counts.{count_of};

    /// No name has failed.
    pub fn new(alloc: Global) -> Counts
        ensures { (name : List ℕ) → count_of result name ≡ 0 }
    {
        Counts {
            alloc,
            by_name: BTreeMap::new(alloc),
        }
    }

    /// Counts one more fault of a name, and answers `Failed`; `Memory` where that finds no memory, and nothing changes.
    #[tactic(auto, using(std::proofs::lemmas::Map::Text::text_keys))]
    pub fn fault(&mut self, name: &str) -> TakeError
        ensures failed { result ≡ TakeError.Failed → count_of self.new name.now ≡ one_more (count_of self.old name.now) }
        ensures memory { result ≡ TakeError.Memory → count_of self.new name.now ≡ count_of self.old name.now }
        ensures later { count_of self.old name.now ≤ count_of self.new name.now }
        ensures others { OthersStay (count_of self.old) (count_of self.new) name.now }
    {
        let count = self.by_name.get(name).copied().unwrap_or(0);
        let Ok(key) = String::from_str(self.alloc, name) else {
            return TakeError::Memory;
        };
        match self.by_name.insert(key, count.saturating_add(1)) {
            Ok(_) => TakeError::Failed,
            Err(_) => TakeError::Memory,
        }
    }
}
