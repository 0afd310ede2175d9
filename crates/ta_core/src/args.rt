//! The arguments of a transition.
ghost use Rattle.std.specs.Prelude.{◌≡◌, IfOk};
ghost use Rattle.std.specs.Ordering.{nat_cmp, as_partial_cmp};
ghost use Rattle.std.specs.Cmp.Lexicographic.{slice_cmp};
ghost use Rattle.std.specs.Cmp.{partial_order_from_own_ties};
ghost use Rattle.std.specs.Cmp.Rules.{comparing};
ghost use Rattle.std.proofs.Common.{rules};
ghost use Rattle.ta_core.specs.Orders.{same_args};

use smallvec::SmallVec;
use std::alloc::{AllocError, Global};
use std::cmp::Ordering;
use std::marker::Model;

/// The states of the arguments of a transition, from left to right. Up to four stay inline and take no memory.
///
/// Lists compare as in a dictionary, a beginning of a list before the list.
#[derive(Debug, Clone, Drop)]
pub struct Args {
    items: SmallVec<u32, 4>,
}

impl Model for Args {
    ghost use Rattle.std.specs.Prelude.{List, ℕ};

    ghost Value = { List ℕ };

    ghost view = { λ args. args.items.items };
}

impl Args {
    /// The list of these states. The only error is running out of memory.
    pub fn from_slice(alloc: Global, items: &[u32]) -> Result<Args, AllocError>
        ensures { IfOk result (λ args. args ≡ items.now) }
    {
        let items = SmallVec::from_slice(alloc, items)?;
        Ok(Args { items })
    }

    /// The states in order.
    pub fn as_slice(&self) -> &[u32]
        ensures { result.now ≡ self.now }
    {
        self.items.as_slice()
    }
}

impl PartialEq for Args {
    ghost eq = { same_args };

    ghost laws = { Prim.search (comparing, rules) };

    fn eq(&self, other: &Args) -> bool {
        self.as_slice() == other.as_slice()
    }
}

impl Eq for Args {
    ghost laws = { Prim.search (comparing, rules) };
}

impl Ord for Args {
    ghost cmp = { slice_cmp nat_cmp };

    ghost total = { Prim.search (comparing, rules) };

    ghost matches_partial_cmp = { Prim.search (comparing, rules) };

    ghost matches_eq = { Prim.search (comparing, rules) };

    fn cmp(&self, other: &Args) -> Ordering {
        self.as_slice().cmp(&other.as_slice())
    }
}

impl PartialOrd for Args {
    ghost partial_cmp = { as_partial_cmp (slice_cmp nat_cmp) };

    ghost laws = { partial_order_from_own_ties (Prim.search (comparing, rules)) (Prim.search (comparing, rules)) };

    fn partial_cmp(&self, other: &Args) -> Option<Ordering> {
        Some(self.cmp(other))
    }
}
