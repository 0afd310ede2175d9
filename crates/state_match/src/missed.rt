//! The states of a list that are no members of a set.
ghost use Rattle.std.specs.Prelude.{◌↔◌, ℕ, Contains, IfOk};
ghost use Rattle.std.specs.Ordering.{nat_cmp};
ghost use Rattle.std.specs.List.Sorted.{IsStrictlySortedBy};

use crate::known::Known;
use std::alloc::{AllocError, Global};

/// The states that are no members of the set, in their order. The only error is running out of memory.
pub(crate) fn outside(alloc: Global, states: &[u32], set: &Known) -> Result<Vec<u32>, AllocError>
    ensures members { IfOk result (λ others. (q : ℕ) →
        Contains others.items q ↔ (Contains states.now q × (Contains set.now q → ⊥))) }
    ensures order { IsStrictlySortedBy nat_cmp states.now → IfOk result (λ others. IsStrictlySortedBy nat_cmp others.items) }
{
    let mut others = Vec::new(alloc);
    for state in states {
        if !set.contains(*state) {
            others.push(*state)?;
        }
    }
    Ok(others)
}
