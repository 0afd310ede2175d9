//! Matches one by one, from groups of them.
ghost use Rattle.std.specs.Prelude.{◌≡◌};

use crate::groups::Groups;
use crate::lists::{Match, Visit};
use std::alloc::{AllocError, Global};
use trs_rules::Sigma;

/// Hands the matches of each group to the visitor.
#[derive(Drop)]
pub(crate) struct Each<'v, V: Visit> {
    pub(crate) alloc: Global,
    pub(crate) visitor: &'v mut V,
}

impl<'v, V: Visit> Groups for Each<'v, V> {
    ghost use Rattle.std.specs.Prelude.{◌≡◌, ◌++◌, List};
    ghost use Rattle.state_match.specs.Visits.{GoneThrough};
    ghost use Rattle.state_match.specs.Collected.{matches_of};
    ghost use Rattle.state_match.specs.declared.lists.Match.{Match as Found};

    ghost took = { λ u g v. (v.visitor.ghost_name ≡ u.visitor.ghost_name)
        × GoneThrough V.took u.visitor.now (matches_of g) v.visitor.now };

    ghost ended = { λ u g v. ⊥ };

    ghost broke = { λ u g v. (v.visitor.ghost_name ≡ u.visitor.ghost_name)
        × ((first : List Found) × (rest : List Found) × (matches_of g ≡ first ++ rest)
        × GoneThrough V.took u.visitor.now first v.visitor.now) };

    fn take(&mut self, assignment: &[u32], states: &[u32]) -> Result<bool, AllocError> {
        for state in states {
            let sigma = Sigma::from_slice(self.alloc, assignment);
            let found = Match {
                sigma,
                state: *state,
            };
            self.visitor.visit(&found)?;
        }
        Ok(true)
    }
}
