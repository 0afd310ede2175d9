//! Maps from old states to new ones.
ghost use Rattle.std.specs.Prelude.{◌≡◌, IfOk};

use std::alloc::{AllocError, Global};
use std::marker::Model;

/// What each old state has become: a list of states, in which the place is the old state. Contracts see it as this list.
#[derive(Debug, Drop)]
pub struct Map {
    states: Vec<u32>,
}

impl Model for Map {
    ghost use Rattle.std.specs.Prelude.{List, ℕ};
    ghost use Rattle.std.specs.Coded.{coded_list, coded_ℕ};

    ghost Value = { List ℕ };

    ghost coded = { coded_list coded_ℕ };

    ghost view = { λ map. map.states.items };
}

impl Map {
    /// The map that has these states at the places 0, 1 and so on. The only error is running out of memory.
    pub fn from_slice(alloc: Global, items: &[u32]) -> Result<Map, AllocError>
        ensures { IfOk result (λ map. map ≡ items.now) }
    {
        let states = Vec::from_slice(alloc, items)?;
        Ok(Map { states })
    }

    /// The states, by the old states.
    pub fn as_slice(&self) -> &[u32]
        ensures { result.now ≡ self.now }
    {
        self.states.as_slice()
    }

    /// An equal map. The only error is running out of memory.
    pub fn copy(&self, alloc: Global) -> Result<Map, AllocError>
        ensures { IfOk result (λ copy. copy ≡ self.now) }
    {
        Map::from_slice(alloc, self.as_slice())
    }
}
