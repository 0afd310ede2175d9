//! Terms kept once each.
ghost use Rattle.std.specs.Prelude.{◌≡◌, ◌<◌, ◌≤◌, ◌^◌, ◌+◌, [], length, sum_by, All, IfOk, OnOk, OnErr, MatchOption};
ghost use Rattle.std.specs.Prelude.{slice_get, Some};
ghost use Rattle.ranked_terms.specs.Terms.{size_of};
ghost use Rattle.term_store.specs.Store.{applied, term_at, IsStore, Keeps};

use crate::ids::Short;
use indexmap::IndexSet;
use ranked_terms::{Seq, Term};
use std::alloc::{AllocError, Global};
use std::marker::Model;

/// The most symbols of a term that is looked at.
pub(crate) const MAX_SIZE: u32 = 1024;

/// A symbol over the terms of earlier nodes.
#[derive(Debug, Drop, PartialEq, Eq, Hash)]
pub(crate) struct Node {
    /// The symbol's number.
    pub sym: u32,
    /// The identities of the arguments.
    pub args: Short<u32>,
    /// The number of the term's symbols.
    pub size: u32,
}

/// Ground terms of at most 1,024 symbols, each kept once: a term's identity is the place of its node, and its arguments
/// are earlier nodes, so that terms share what they have in common. Contracts see the list of the terms.
#[derive(Drop)]
pub struct Store {
    alloc: Global,
    nodes: IndexSet<Node>,
}

impl Model for Store {
    ghost use Rattle.std.specs.Prelude.{List, length, ◌<◌, ◌^◌};
    ghost use Rattle.ranked_terms.specs.declared.term.Term.{Term};
    ghost use Rattle.ranked_terms.specs.contracts.term.Term as term;
    ghost use Rattle.std.specs.Coded.{coded_list};
    ghost use Rattle.term_store.specs.Store.{terms_of_nodes, AreNodes};

    ghost Value = { List Term };

    ghost coded = { coded_list term.the_row.coded };

    ghost view = { λ store. terms_of_nodes store.nodes.keys };

    ghost invariant = { λ store. AreNodes store.nodes.keys (terms_of_nodes store.nodes.keys)
        × (length store.nodes.keys < 2 ^ 32) };
}

impl Store {
    /// No terms. It takes no memory yet, and grows by `alloc`.
    pub fn new(alloc: Global) -> Store
        ensures { result ≡ [] }
    {
        Store {
            alloc,
            nodes: IndexSet::new(alloc),
        }
    }

    /// The number of terms, which is below 2^32.
    pub fn len(&self) -> usize
        ensures len { result ≡ length self.now }
        ensures few { length self.now < 2 ^ 32 }
        ensures store { IsStore self.now }
    {
        self.nodes.len()
    }

    /// Where the store grows.
    pub(crate) fn alloc(&self) -> Global {
        self.alloc
    }

    /// The symbol of a term and the identities of its arguments, which are less than the term's own.
    pub fn node(&self, id: u32) -> (u32, &[u32])
        requires { id < length self.now }
        ensures is { term_at self.now id ≡ applied self.now result.0 result.1.now }
        ensures args { All (λ a. a < id) result.1.now }
        ensures few { length result.1.now < 1024 }
    {
        match self.nodes.get_index(id as usize) {
            Some(node) => (node.sym, node.args.as_slice()),
            None => unreachable!(),
        }
    }

    /// The same, with a copy of the identities. The only error is running out of memory.
    pub(crate) fn parts(&self, id: u32) -> Result<(u32, Short<u32>), AllocError>
        requires { id < length self.now }
        ensures is { IfOk result (λ p. term_at self.now id ≡ applied self.now p.0 p.1) }
        ensures args { IfOk result (λ p. All (λ a. a < id) p.1) }
        ensures few { IfOk result (λ p. length p.1 < 1024) }
    {
        let (sym, ids) = self.node(id);
        let args = Short::from_slice(self.alloc, ids)?;
        Ok((sym, args))
    }

    /// The identity of the symbol over these terms, which is added where it is new; `None` exactly where that term would
    /// have more than 1,024 symbols. The terms that were there stay. After running out of memory, the only error, nothing has
    /// changed.
    pub fn make(&mut self, sym: u32, args: &[u32]) -> Result<Option<u32>, AllocError>
        requires { All (λ a. a < length self.old) args.now }
        ensures made { IfOk result (λ made. MatchOption made (1024 < size_of (applied self.old sym args.now))
            (λ id. slice_get self.new id ≡ Some (applied self.old sym args.now))) }
        ensures kept { OnOk result (Keeps self.old self.new) }
        ensures err { OnErr result (self.new ≡ self.old) }
    {
        let Some(size) = self.size_over(args) else {
            return Ok(None);
        };
        let args = Short::from_slice(self.alloc, args)?;
        if self.nodes.len() >= u32::MAX as usize {
            return Err(AllocError);
        }
        let (at, _) = self.nodes.insert_full(Node { sym, args, size })?;
        Ok(Some(at as u32))
    }

    /// The term of an identity. It goes down the term by itself, and so at most 1,024 deep. The only error is want of
    /// memory.
    pub fn term(&self, alloc: Global, id: u32) -> Result<Term, AllocError>
        requires { id < length self.now }
        ensures { IfOk result (λ t. t ≡ term_at self.now id) }
    {
        let (sym, ids) = self.parts(id)?;
        let mut args = Seq::new(alloc);
        for arg in ids.as_slice() {
            args.push(self.term(alloc, *arg)?)?;
        }
        Ok(Term { sym, args })
    }

    // The size of a term with these arguments, unless it is above 1,024.
    fn size_over(&self, args: &[u32]) -> Option<u32>
        requires { All (λ a. a < length self.now) args.now }
        ensures { MatchOption result (1024 < sum_by (λ a. size_of (term_at self.now a)) args.now + 1)
            (λ size. (size ≡ sum_by (λ a. size_of (term_at self.now a)) args.now + 1) × (size ≤ 1024)) }
    {
        let mut left = MAX_SIZE - 1;
        for arg in args {
            let size = self.size(*arg);
            if left < size {
                return None;
            }
            left -= size;
        }
        Some(MAX_SIZE - left)
    }

    // The number of symbols of a term.
    fn size(&self, id: u32) -> u32
        requires { id < length self.now }
        ensures { result ≡ size_of (term_at self.now id) }
    {
        match self.nodes.get_index(id as usize) {
            Some(node) => node.size,
            None => 0,
        }
    }
}
