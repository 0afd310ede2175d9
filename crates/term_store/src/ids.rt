//! Short lists.
ghost use Rattle.std.specs.Prelude.{◌≡◌, IfOk};
ghost use Rattle.std.specs.Cmp.Lexicographic.{pointwise, lists_per, lists_equiv};
ghost use Rattle.std.specs.Hash as fed;
ghost use Rattle.std.specs.Hash.{items_Alike};

use smallvec::SmallVec;
use std::alloc::{AllocError, Global};
use std::hash::{Hash, Hasher};
use std::marker::Model;

/// A list of which up to four elements stay inline and take no memory.
#[derive(Debug, Drop)]
pub(crate) struct Short<T> {
    items: SmallVec<T, 4>,
}

impl<T> Model for Short<T> {
    ghost use Rattle.std.specs.Prelude.{List};
    ghost use Rattle.std.specs.Coded.{coded_list};

    ghost Value = { List T };

    ghost coded = { coded_list T.code };

    ghost view = { λ ids. ids.items.items };
}

impl<T> Short<T> {
    /// The elements in order.
    pub(crate) fn as_slice(&self) -> &[T]
        ensures { result.now ≡ self.now }
    {
        self.items.as_slice()
    }
}

impl<T: Copy + Default> Short<T> {
    /// The list of these elements. The only error is running out of memory.
    pub(crate) fn from_slice(alloc: Global, items: &[T]) -> Result<Short<T>, AllocError>
        ensures { IfOk result (λ ids. ids ≡ items.now) }
    {
        let items = SmallVec::from_slice(alloc, items)?;
        Ok(Short { items })
    }
}

impl<T: PartialEq> PartialEq for Short<T> {
    ghost eq = { λ v w. pointwise T.eq v w };

    ghost laws = { lists_per T.laws };

    fn eq(&self, other: &Self) -> bool {
        self.as_slice() == other.as_slice()
    }
}

impl<T: Eq> Eq for Short<T> {
    ghost laws = { lists_equiv T.Eq.laws };
}

impl<T: Hash> Hash for Short<T> {
    ghost hash_input = { λ v. fed.slice T.hash_input v };

    ghost respects_eq = { (items_Alike (record { fed = T.respects_eq })).fed };

    fn hash<H: Hasher>(&self, state: &mut H) {
        self.as_slice().hash(state);
    }
}
