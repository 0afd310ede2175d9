//! Open pairs.
ghost use Rattle.std.specs.Prelude.{◌≡◌, ◌≤◌, ◌<◌, ◌^◌, ◌++◌, ℕ, List, length, Contains, IfOk, IsErrOf};
ghost use Rattle.std.specs.List.Sorted.{IsStrictlySortedBy};
ghost use Rattle.list_laws.specs.Listings.{IsListing};
ghost use Rattle.trs_rules.specs.declared.sigma.Pair.{Pair as Triple};
ghost use Rattle.ta_core.specs.Closure.{AreOpenPairs};
ghost use Rattle.ta_core.specs.ClosureLaws.{pair_order};
ghost use Rattle.critical_pairs.specs.Opens.{Setting, AddsAll, ExceedsWith};

use crate::openings::Openings;
use ranked_terms::Seq;
use state_match::Matcher;
use std::alloc::{AllocError, Global};
use ta_core::{Automaton, laws};
use trs_rules::{Pair, Rule};

/// Why there is no list of open pairs.
#[derive(Debug, Clone, Copy, PartialEq, Eq)]
pub enum PairError {
    /// There are more than the limit.
    More,
    /// Memory ran out.
    Memory,
}

impl From<AllocError> for PairError {
    ghost use Rattle.std.specs.Prelude.{◌≡◌};
    ghost use Rattle.critical_pairs.specs.declared.pairs.PairError.TheVariants.{Memory};

    ghost from_gives = { λ _ error. error ≡ Memory };

    fn from(_error: AllocError) -> PairError {
        PairError::Memory
    }
}

/// The list of open pairs: each rule with each assignment and each state such that the assigned left side runs to the state
/// and the assigned right side doesn't, by rule, then by assignment as a list, then by state (Feuillade, Genet and Viet Triem
/// Tong, JAR 2004). `More` exactly where the list is longer than `limit`; `Memory` where memory runs out.
pub fn open_pairs(
    alloc: Global,
    automaton: &Automaton,
    rules: &[Rule],
    limit: u32,
) -> Result<Seq<Pair>, PairError>
    requires { length rules.now < 2 ^ 32 }
    ensures all { IfOk result (λ pairs. AreOpenPairs automaton.now rules.now pairs) }
    ensures few { IfOk result (λ pairs. length pairs ≤ limit) }
    ensures more { IsErrOf result PairError.More →
        (pairs : List Triple) × AreOpenPairs automaton.now rules.now pairs × (limit < length pairs) }
{
    let matcher = Matcher::new(alloc, automaton, have_variables(rules))?;
    pairs_of_all(alloc, &matcher, rules, limit)
}

/// As `open_pairs`, in an automaton that is ready for the left sides of all rules.
fn pairs_of_all(
    alloc: Global,
    matcher: &Matcher,
    rules: &[Rule],
    limit: u32,
) -> Result<Seq<Pair>, PairError>
    requires { length rules.now < 2 ^ 32 }
    ensures all { IfOk result (λ pairs. AreOpenPairs matcher.now rules.now pairs) }
    ensures few { IfOk result (λ pairs. length pairs ≤ limit) }
    ensures more { IsErrOf result PairError.More →
        (pairs : List Triple) × AreOpenPairs matcher.now rules.now pairs × (limit < length pairs) }
{
    // For the proof: open triples in ascending order are the list of open pairs, and there is one; and the states ascend.
    laws::open_pairs_are_listed();
    let _ = matcher.automaton().states();
    let mut pairs = Seq::new(alloc);
    for (number, rule) in rules.iter().enumerate() {
        pairs = with_pairs_of(alloc, matcher, number as u32, rule, limit, pairs)?;
    }
    Ok(pairs)
}

/// Whether a rule has variables.
fn have_variables(rules: &[Rule]) -> bool {
    rules.iter().any(|rule| !rule.vars().is_empty())
}

/// The pairs and, behind them, the open pairs of the rule with this number. `More` exactly where that would be more than
/// `limit`.
fn with_pairs_of(
    alloc: Global,
    matcher: &Matcher,
    number: u32,
    rule: &Rule,
    limit: u32,
    pairs: Seq<Pair>,
) -> Result<Seq<Pair>, PairError>
    ensures all { IfOk result (λ all.
        AddsAll (record { automaton = matcher.now; number = number; rule = rule.now }) limit pairs all) }
    ensures more { IsErrOf result PairError.More →
        ExceedsWith (record { automaton = matcher.now; number = number; rule = rule.now }) limit pairs }
{
    let mut openings = Openings::new(alloc, matcher, number, rule, limit, pairs)?;
    let on = matcher.each_group(rule.left(), rule.vars(), &mut openings)?;
    if !on {
        return Err(PairError::More);
    }
    Ok(openings.into_pairs())
}
