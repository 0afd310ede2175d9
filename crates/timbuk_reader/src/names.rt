//! Tables of names.
ghost use Rattle.std.specs.Prelude.{◌≡◌, ◌≢◌, ◌↔◌, ◌<◌, ◌≤◌, [], ◌∷◌, ◌++◌, IsTrue, IfOk, OnErr, OnOk, length, position};
ghost use Rattle.std.specs.List.{IsDistinct};
ghost use Rattle.std.specs.Str.{bytes_eq};

use indexmap::IndexSet;
use ranked_terms::{Name, Seq};
use std::alloc::{AllocError, Global};
use std::marker::Model;
use ta_core::MAX_STATES;

/// Names, numbered from 0 in the order in which they were added, no name twice, at most `MAX_STATES`. Contracts see the list of
/// the names.
#[derive(Drop)]
pub(crate) struct NameTable {
    alloc: Global,
    names: IndexSet<String>,
}

impl Model for NameTable {
    ghost use Rattle.std.specs.Prelude.{List, ℕ};
    ghost use Rattle.timbuk_reader.specs.NameTables.{texts_of, AreNames};

    ghost Value = { List (List ℕ) };

    ghost view = { λ table. texts_of table.names.keys };

    ghost invariant = { λ table. AreNames (texts_of table.names.keys) };
}

impl NameTable {
    /// The table without names. It takes no memory yet, and grows by `alloc`.
    pub(crate) fn new(alloc: Global) -> NameTable
        ensures { result ≡ [] }
    {
        NameTable {
            alloc,
            names: IndexSet::new(alloc),
        }
    }

    /// The number of names. Its contract says besides what always holds of a table.
    pub(crate) fn len(&self) -> u32
        ensures value { result ≡ length self.now }
        ensures few { length self.now ≤ MAX_STATES }
        ensures distinct { IsDistinct bytes_eq self.now }
    {
        self.names.len() as u32
    }

    /// The number of a name. `None` exactly where it is not in the table.
    pub(crate) fn find(&self, name: &str) -> Option<u32>
        ensures { result ≡ position (bytes_eq name.now) self.now }
    {
        let number = self.names.get_index_of(name)?;
        Some(number as u32)
    }

    /// Adds a name that is not there as the last. When the memory runs out, the only error, the table stays as it was.
    pub(crate) fn add(&mut self, name: &str) -> Result<(), AllocError>
        requires room { length self.old < MAX_STATES }
        requires new { position (bytes_eq name.now) self.old ≡ None }
        ensures ok { OnOk result (self.new ≡ self.old ++ name.now ∷ []) }
        ensures err { OnErr result (self.new ≡ self.old) }
    {
        let key = String::from_str(self.alloc, name)?;
        let _ = self.names.insert(key)?;
        Ok(())
    }

    /// The names in order, as a sequence of their own. The only error is running out of memory.
    pub(crate) fn to_names(&self, alloc: Global) -> Result<Seq<Name>, AllocError>
        ensures { IfOk result (λ names. names ≡ self.now) }
    {
        let mut names = Seq::new(alloc);
        for name in self.names.as_slice() {
            names.push(Name::from_slice(alloc, name.as_bytes())?)?;
        }
        Ok(names)
    }
}
