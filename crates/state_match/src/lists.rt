//! Matches.
ghost use Rattle.std.specs.Prelude.{◌≡◌, ◌≤◌, ℕ, List, length, true, false, IfOk, OnOk, OnErr, IsErrOf};
ghost use Rattle.ranked_terms.specs.Limits.{max_variables};
ghost use Rattle.ranked_terms.specs.Terms.{variables_of};
ghost use Rattle.list_laws.specs.Listings.{HasMoreThan};
ghost use Rattle.state_match.specs.Visits.{GoneThrough};
ghost use Rattle.state_match.specs.Matches.{IsMatch, AreMatches, AreFirstMatches};
ghost use Rattle.state_match.specs.declared.lists.Match.{Match as Found};

use crate::collect::collected;
use crate::each::Each;
use crate::groups::each_group;
use ranked_terms::{Pattern, Seq};
use std::alloc::{AllocError, Global};
use ta_core::Automaton;
use trs_rules::{Sigma, Variables};

/// An assignment of states to a pattern's variables, in the order in which these first occur, and a state.
#[derive(Debug, Drop)]
pub struct Match {
    /// The states of the variables.
    pub sigma: Sigma,
    /// The state to which the assigned pattern runs.
    pub state: u32,
}

/// Why there is no list of matches.
#[derive(Debug, Clone, Copy, PartialEq, Eq)]
pub enum MatchError {
    /// There are more than the limit.
    More,
    /// There was no memory.
    Memory,
}

impl From<AllocError> for MatchError {
    ghost use Rattle.std.specs.Prelude.{◌≡◌};
    ghost use Rattle.state_match.specs.declared.lists.MatchError.TheVariants.{Memory};

    ghost from_gives = { λ _ error. error ≡ Memory };

    fn from(_error: AllocError) -> MatchError {
        MatchError::Memory
    }
}

/// Takes matches one by one.
pub trait Visit {
    ghost use Rattle.state_match.specs.declared.lists.Match.{Match as Found};

    /// What taking a match does to the visitor.
    ghost took: { Self → Found → Self → Type 0 };

    /// Takes a match. When memory runs out, which is the only error, the visitor is as before.
    fn visit(&mut self, found: &Match) -> Result<(), AllocError>
        ensures ok { OnOk result (took self.old found.now self.new) }
        ensures err { OnErr result (self.new ≡ self.old) };
}

/// All matches by which the pattern runs to the state, by assignment and then by state. `More` exactly where there are
/// more than `limit`.
pub fn matches(
    alloc: Global,
    automaton: &Automaton,
    pattern: &Pattern,
    limit: u32,
) -> Result<Seq<Match>, MatchError>
    requires { length (variables_of pattern.now) ≤ max_variables }
    ensures all { IfOk result (λ all. AreMatches false automaton.now pattern.now all) }
    ensures few { IfOk result (λ all. length all ≤ limit) }
    ensures more { IsErrOf result MatchError.More → HasMoreThan limit (IsMatch false automaton.now pattern.now) }
{
    let Ok(vars) = Variables::of(pattern) else {
        unreachable!();
    };
    collected(alloc, automaton, pattern, vars.as_slice(), false, limit)
}

/// All matches by which the pattern runs plainly to the state, by assignment and then by state. `More` exactly where
/// there are more than `limit`.
pub fn plain_matches(
    alloc: Global,
    automaton: &Automaton,
    pattern: &Pattern,
    limit: u32,
) -> Result<Seq<Match>, MatchError>
    requires { length (variables_of pattern.now) ≤ max_variables }
    ensures all { IfOk result (λ all. AreMatches true automaton.now pattern.now all) }
    ensures few { IfOk result (λ all. length all ≤ limit) }
    ensures more { IsErrOf result MatchError.More → HasMoreThan limit (IsMatch true automaton.now pattern.now) }
{
    let Ok(vars) = Variables::of(pattern) else {
        unreachable!();
    };
    collected(alloc, automaton, pattern, vars.as_slice(), true, limit)
}

/// Hands the matches to the visitor one by one, by assignment and then by state: the plain ones alone where `plain` is
/// true. When memory runs out, which is the only error, the visitor has taken the first of them.
pub fn each_match<V: Visit>(
    alloc: Global,
    automaton: &Automaton,
    pattern: &Pattern,
    plain: bool,
    visitor: &mut V,
) -> Result<(), AllocError>
    requires { length (variables_of pattern.now) ≤ max_variables }
    ensures ok { OnOk result (
        (all : List Found) × AreMatches plain automaton.now pattern.now all × GoneThrough V.took visitor.old all visitor.new) }
    ensures err { OnErr result (
        (first : List Found) × AreFirstMatches plain automaton.now pattern.now first
        × GoneThrough V.took visitor.old first visitor.new) }
{
    let Ok(vars) = Variables::of(pattern) else {
        unreachable!();
    };
    let mut each = Each { alloc, visitor };
    let result = each_group(alloc, automaton, pattern, vars.as_slice(), plain, &mut each);
    let Each { visitor, .. } = each;
    // For the proof: what the visitor is is read from this use. It has no effect at run time.
    let _ = &*visitor;
    let _on = result?;
    Ok(())
}
