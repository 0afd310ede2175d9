//! Lists of matches up to a limit.
ghost use Rattle.std.specs.Prelude.{◌≤◌, length, IfOk, IsErrOf};
ghost use Rattle.ranked_terms.specs.Limits.{max_variables};
ghost use Rattle.list_laws.specs.Listings.{IsListing, HasMoreThan};
ghost use Rattle.state_match.specs.Matches.{MatchesAt, match_order};
ghost use Rattle.state_match.specs.declared.lists.Match.{Match as Found};

use crate::groups::{Groups, each_group};
use crate::lists::{Match, MatchError};
use ranked_terms::{Pattern, Seq};
use std::alloc::{AllocError, Global};
use ta_core::Automaton;
use trs_rules::Sigma;

/// Takes matches up to a limit.
#[derive(Drop)]
pub(crate) struct Collector {
    alloc: Global,
    limit: u32,
    found: Seq<Match>,
}

impl Groups for Collector {
    ghost use Rattle.state_match.specs.Collected.{Adds, Fills};

    ghost took = { λ u g v. Adds u g v };

    ghost ended = { λ u g v. Fills u g v };

    ghost broke = { λ u g v. Unit {0} };

    fn take(&mut self, assignment: &[u32], states: &[u32]) -> Result<bool, AllocError> {
        for state in states {
            if self.found.len() == self.limit as usize {
                return Ok(false);
            }
            let sigma = Sigma::from_slice(self.alloc, assignment);
            self.found.push(Match {
                sigma,
                state: *state,
            })?;
        }
        Ok(true)
    }
}

/// All matches of at most 16 variables, by assignment and then by state. `More` exactly where there are more than `limit`.
pub(crate) fn collected(
    alloc: Global,
    automaton: &Automaton,
    pattern: &Pattern,
    vars: &[u32],
    plain: bool,
    limit: u32,
) -> Result<Seq<Match>, MatchError>
    requires { length vars.now ≤ max_variables }
    ensures all { IfOk result (λ all.
        IsListing match_order (λ (m : Found). MatchesAt plain automaton.now vars.now pattern.now m.sigma m.state) all) }
    ensures few { IfOk result (λ all. length all ≤ limit) }
    ensures more { IsErrOf result MatchError.More →
        HasMoreThan limit (λ (m : Found). MatchesAt plain automaton.now vars.now pattern.now m.sigma m.state) }
{
    let mut collector = Collector {
        alloc,
        limit,
        found: Seq::new(alloc),
    };
    let on = each_group(alloc, automaton, pattern, vars, plain, &mut collector)?;
    if !on {
        return Err(MatchError::More);
    }
    Ok(collector.found)
}
