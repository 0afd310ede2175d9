//! All positions of a term.
ghost use Rattle.std.specs.Prelude.{◌≡◌, ◌↔◌, ◌++◌, ℕ, List, map, IsTrue, IfOk, OnOk, Contains};
ghost use Rattle.std.specs.Cmp.Lexicographic.{slice_cmp};
ghost use Rattle.std.specs.List.Sorted.{IsStrictlySortedBy};
ghost use Rattle.std.specs.Ordering.{nat_cmp};
ghost use Rattle.ranked_terms.specs.Positions.{HasPosition, is_narrow, positions_of};

use crate::position::Position;
use crate::seq::Seq;
use crate::term::Term;
use std::alloc::{AllocError, Global};

impl Term {
    /// The positions of all subterms, each once, in preorder, which is their order as lists. Each argument can be named
    /// by 32 bits. Each position is a list of its own, so a term that is nested n deep takes memory of the order of n times
    /// n: 2 MB at 1,024 levels. The only error is running out of memory.
    pub fn positions(&self, alloc: Global) -> Result<Seq<Position>, AllocError>
        requires { IsTrue (is_narrow self.now) }
        ensures each { IfOk result (λ list. (p : List ℕ) → Contains list p ↔ HasPosition self.now p) }
        ensures sorted { IfOk result (IsStrictlySortedBy (slice_cmp nat_cmp)) }
    {
        let mut path = Vec::new(alloc);
        let mut found = Seq::new(alloc);
        add_positions(alloc, self, &mut path, &mut found)?;
        Ok(found)
    }
}

// Adds the positions of the term's subterms. The path is the position of the term itself.
fn add_positions(
    alloc: Global,
    t: &Term,
    path: &mut Vec<u32>,
    found: &mut Seq<Position>,
) -> Result<(), AllocError>
    requires { IsTrue (is_narrow t.now) }
    ensures path { OnOk result (path.new.items ≡ path.old.items) }
    ensures found { OnOk result (found.new ≡ found.old ++ map (λ p. path.old.items ++ p) (positions_of t.now)) }
{
    found.push(Position::from_slice(alloc, path.as_slice())?)?;
    let args = t.args.as_slice();
    for i in 0..args.len() {
        path.push(i as u32 + 1)?;
        add_positions(alloc, &args[i], path, found)?;
        path.pop();
    }
    Ok(())
}
