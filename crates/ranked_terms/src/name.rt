//! Names as bytes.
ghost use Rattle.std.specs.Prelude.{◌≡◌, IfOk};

use std::alloc::{AllocError, Global};
use std::marker::Model;

/// A name, which contracts see as the list of its bytes.
#[derive(Debug, Drop)]
pub struct Name {
    bytes: Vec<u8>,
}

impl Model for Name {
    ghost use Rattle.std.specs.Prelude.{List, ℕ};
    ghost use Rattle.std.specs.Coded.{coded_list, coded_ℕ};

    ghost Value = { List ℕ };

    ghost coded = { coded_list coded_ℕ };

    ghost view = { λ name. name.bytes.items };
}

impl Name {
    /// The name of these bytes. The only error is running out of memory.
    pub fn from_slice(alloc: Global, items: &[u8]) -> Result<Name, AllocError>
        ensures { IfOk result (λ name. name ≡ items.now) }
    {
        let bytes = Vec::from_slice(alloc, items)?;
        Ok(Name { bytes })
    }

    /// The bytes in order.
    pub fn as_slice(&self) -> &[u8]
        ensures { result.now ≡ self.now }
    {
        self.bytes.as_slice()
    }
}
