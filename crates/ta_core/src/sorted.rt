//! A set as a `Vec` in strictly ascending order.
ghost use Rattle.std.specs.Prelude.{◌≡◌, ◌⊎◌, ◌↔◌, [], not, IfOk, OnOk, OnErr};
ghost use Rattle.std.specs.List.{Contains};
ghost use Rattle.std.specs.List.Sorted.{IsStrictlySortedBy};
ghost use Rattle.std.specs.BTreeSet.{insert_key};
ghost use Rattle.std.specs.declared.cmp.Ordering.TheVariants.{Equal};
ghost use Rattle.list_laws.specs.Lists.{has, IsUnion};

use std::alloc::{AllocError, Global};
use std::marker::Model;

/// A set, which contracts see as the list of its members in ascending order.
#[derive(Drop)]
pub struct Sorted<T: Ord> {
    items: Vec<T>,
}

impl<T: Ord> Model for Sorted<T> {
    ghost use Rattle.std.specs.Prelude.{List};
    ghost use Rattle.std.specs.Coded.{coded_list};
    ghost use Rattle.std.specs.List.Sorted.{IsStrictlySortedBy};

    ghost Value = { List T };

    ghost coded = { coded_list T.code };

    ghost view = { λ set. set.items.items };

    ghost invariant = { λ set. IsStrictlySortedBy T.cmp set.items.items };
}

impl<T: Ord> Sorted<T> {
    /// The empty set. It takes no memory yet, and grows by `alloc`.
    pub fn new(alloc: Global) -> Self
        ensures { result ≡ [] }
    {
        Sorted {
            items: Vec::new(alloc),
        }
    }

    /// The set of the members of a list that ascends strictly.
    pub fn from_vec(items: Vec<T>) -> Self
        requires { IsStrictlySortedBy T.cmp items.items }
        ensures { result ≡ items.items }
    {
        Sorted { items }
    }

    /// The members in ascending order.
    pub fn as_slice(&self) -> &[T]
        ensures value { result.now ≡ self.now }
        ensures sorted { IsStrictlySortedBy T.cmp self.now }
    {
        self.items.as_slice()
    }
}

impl<T: Ord + Drop> Sorted<T> {
    /// Adds a member at its place, and says whether it was new. When memory runs out the set stays as it was.
    pub fn insert(&mut self, item: T) -> Result<bool, AllocError>
        ensures new { IfOk result (λ new. new ≡ not (has T.cmp self.old item)) }
        ensures ok { OnOk result (self.new ≡ insert_key T.cmp self.old item) }
        ensures err { OnErr result (self.new ≡ self.old) }
    {
        match self.items.binary_search(&item) {
            Ok(_) => Ok(false),
            Err(at) => {
                self.items.insert(at, item)?;
                Ok(true)
            }
        }
    }

    /// Adds many members, in any order and as often as they stand there: they are sorted, and merged with those that are
    /// there. When memory runs out the set stays as it was.
    pub fn add_all(&mut self, mut more: Vec<T>) -> Result<(), AllocError>
        requires { (x y : T) → T.cmp x y ≡ Equal → x ≡ y }
        ensures members { OnOk result (IsUnion self.old more.items self.new) }
        ensures sorted { OnOk result (IsStrictlySortedBy T.cmp self.new) }
        ensures err { OnErr result (self.new ≡ self.old) }
    {
        more.sort_unstable();
        let len = self.items.len();
        self.items.append(&mut more)?;
        // Two lists in order stand one behind the other now: the stable sort merges them.
        if self.items.sort().is_err() {
            self.items.truncate(len);
            return Err(AllocError);
        }
        self.items.dedup();
        Ok(())
    }
}

impl<T: Ord + Copy> Sorted<T> {
    /// The set of the members of a list that ascends strictly. The only error is running out of memory.
    pub fn from_slice(alloc: Global, items: &[T]) -> Result<Sorted<T>, AllocError>
        requires { IsStrictlySortedBy T.cmp items.now }
        ensures { IfOk result (λ set. set ≡ items.now) }
    {
        let items = Vec::from_slice(alloc, items)?;
        Ok(Sorted { items })
    }
}

impl<T: Ord + Clone + Drop> Sorted<T> {
    /// An equal set. The only error is running out of memory.
    pub fn copy(&self, alloc: Global) -> Result<Sorted<T>, AllocError>
        requires { (x y : T) → T.is_clone x y → y ≡ x }
        ensures { IfOk result (λ copy. copy ≡ self.now) }
    {
        let mut items = Vec::new(alloc);
        for item in self.items.as_slice() {
            items.push(item.clone()?)?;
        }
        Ok(Sorted { items })
    }
}
