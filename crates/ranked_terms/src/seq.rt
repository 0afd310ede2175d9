//! Sequences.
ghost use Rattle.std.specs.Prelude.{◌≡◌, [], ◌∷◌, ◌++◌, length, IsTrue, ◌↔◌, IfOk, OnOk, OnErr};
ghost use Rattle.std.specs.Cmp.Lexicographic.{pointwise, lists_per, lists_equiv};
ghost use Rattle.std.specs.Hash as fed;
ghost use Rattle.std.specs.Hash.{items_Alike};

use std::alloc::{AllocError, Global};
use std::hash::{Hash, Hasher};
use std::marker::Model;

/// A growing sequence, which contracts see as the list of its elements, also where a type holds itself through it.
#[derive(Debug, Drop)]
pub struct Seq<T> {
    items: Vec<T>,
}

impl<T> Model for Seq<T> {
    ghost use Rattle.std.specs.Prelude.{List};
    ghost use Rattle.std.specs.Coded.{coded_list};

    ghost Value = { List T };

    ghost coded = { coded_list T.code };

    ghost view = { λ sequence. sequence.items.items };
}

impl<T> Seq<T> {
    /// The empty sequence. It takes no memory yet, and grows by `alloc`.
    pub fn new(alloc: Global) -> Seq<T>
        ensures { result ≡ [] }
    {
        Seq {
            items: Vec::new(alloc),
        }
    }

    /// The sequence of the elements of a vector, which takes no memory.
    pub fn from_vec(items: Vec<T>) -> Seq<T>
        ensures { result ≡ items.items }
    {
        Seq { items }
    }

    /// The vector of the elements, which takes no memory.
    pub fn into_vec(self) -> Vec<T>
        ensures { result.items ≡ self }
    {
        self.items
    }

    /// The elements in order.
    pub fn as_slice(&self) -> &[T]
        ensures { result.now ≡ self.now }
    {
        self.items.as_slice()
    }

    /// The number of elements.
    pub fn len(&self) -> usize
        ensures { result ≡ length self.now }
    {
        self.items.len()
    }

    /// Whether there is no element.
    pub fn is_empty(&self) -> bool
        ensures { IsTrue result ↔ (self.now ≡ []) }
    {
        self.items.is_empty()
    }
}

impl<T: Copy> Seq<T> {
    /// The sequence of the elements of a slice. The only error is running out of memory.
    pub fn from_slice(alloc: Global, items: &[T]) -> Result<Seq<T>, AllocError>
        ensures { IfOk result (λ sequence. sequence ≡ items.now) }
    {
        let items = Vec::from_slice(alloc, items)?;
        Ok(Seq { items })
    }
}

impl<T: Drop> Seq<T> {
    /// Appends an element. When memory runs out the element is dropped, and the sequence stays as it was.
    pub fn push(&mut self, item: T) -> Result<(), AllocError>
        ensures ok { OnOk result (self.new ≡ self.old ++ item ∷ []) }
        ensures err { OnErr result (self.new ≡ self.old) }
    {
        self.items.push(item)?;
        Ok(())
    }
}

impl<T: PartialEq> PartialEq for Seq<T> {
    ghost eq = { λ v w. pointwise T.eq v w };

    ghost laws = { lists_per T.laws };

    fn eq(&self, other: &Self) -> bool {
        self.as_slice() == other.as_slice()
    }
}

impl<T: Eq> Eq for Seq<T> {
    ghost laws = { lists_equiv T.Eq.laws };
}

impl<T: Hash> Hash for Seq<T> {
    ghost hash_input = { λ v. fed.slice T.hash_input v };

    ghost respects_eq = { (items_Alike (record { fed = T.respects_eq })).fed };

    fn hash<H: Hasher>(&self, state: &mut H) {
        self.as_slice().hash(state);
    }
}
