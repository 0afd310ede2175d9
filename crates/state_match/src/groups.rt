//! Matches by assignment.
ghost use Rattle.std.specs.Prelude.{◌≡◌, ◌⊎◌, ◌≤◌, [], length, false, IsTrue, not, IfOk, OnErr};
ghost use Rattle.ranked_terms.specs.Limits.{max_variables};
ghost use Rattle.state_match.specs.Matches.{MatchesAt};
ghost use Rattle.state_match.specs.Rows.{IsReverse, RunsFor};
ghost use Rattle.state_match.specs.Groups.{group_of, TookAll, TookFirst, TookUpTo};

use crate::below::Below;
use crate::bound::Bound;
use crate::edge::Edge;
use crate::matcher::Matcher;
use crate::plain::runs_for;
use crate::turned::Turned;
use crate::walk::walk;
use ranked_terms::Pattern;
use std::alloc::{AllocError, Global};
use ta_core::Automaton;

/// Takes assignments one by one, each with all its states at once.
pub trait Groups {
    ghost use Rattle.std.specs.Prelude.{◌≤◌, length};
    ghost use Rattle.ranked_terms.specs.Limits.{max_variables};
    ghost use Rattle.std.specs.Ordering.{nat_cmp};
    ghost use Rattle.std.specs.List.Sorted.{IsStrictlySortedBy};
    ghost use Rattle.state_match.specs.Groups.{Group};

    /// What taking an assignment does, where the visitor goes on.
    ghost took: { Self → Group → Self → Type 0 };

    /// What taking an assignment does, where the visitor has enough.
    ghost ended: { Self → Group → Self → Type 0 };

    /// What taking an assignment does, where memory runs out.
    ghost broke: { Self → Group → Self → Type 0 };

    /// Takes an assignment of at most 16 states with all the states to which the pattern runs by it, in ascending order, and
    /// says whether to go on. The only error is running out of memory.
    fn take(&mut self, assignment: &[u32], states: &[u32]) -> Result<bool, AllocError>
        requires short { length assignment.now ≤ max_variables }
        requires ascend { IsStrictlySortedBy nat_cmp states.now }
        ensures took { IfOk result (λ on. IsTrue on → took self.old (group_of assignment.now states.now) self.new) }
        ensures ended { IfOk result (λ on. IsTrue (not on) → ended self.old (group_of assignment.now states.now) self.new) }
        ensures broke { OnErr result (broke self.old (group_of assignment.now states.now) self.new) };
}

/// Hands the assignments with which a pattern runs to some state to the visitor, in order, each with all these states, and
/// says whether the visitor took them all. The assignments are lists of the states of `vars`, of which there are at most 16,
/// and which may have more variables than the pattern. When memory runs out, which is the only error, the visitor
/// has taken the first of them.
pub fn each_group<V: Groups>(
    alloc: Global,
    automaton: &Automaton,
    pattern: &Pattern,
    vars: &[u32],
    plain: bool,
    visitor: &mut V,
) -> Result<bool, AllocError>
    requires { length vars.now ≤ max_variables }
    ensures whole { IfOk result (λ on. IsTrue on →
        TookAll V.took (MatchesAt plain automaton.now vars.now pattern.now) [] visitor.old visitor.new) }
    ensures ended { IfOk result (λ on. IsTrue (not on) →
        TookUpTo V.took V.ended (MatchesAt plain automaton.now vars.now pattern.now) [] visitor.old visitor.new) }
    ensures err { OnErr result (TookFirst V.took (MatchesAt plain automaton.now vars.now pattern.now) [] visitor.old visitor.new
        ⊎ TookUpTo V.took V.broke (MatchesAt plain automaton.now vars.now pattern.now) [] visitor.old visitor.new) }
{
    let runs = runs_for(automaton, plain)?;
    each_in_runs(alloc, plain, automaton, &runs, pattern, vars, visitor)
}

/// As `each_group`, where the automaton that the runs are looked up in is at hand.
fn each_in_runs<V: Groups>(
    alloc: Global,
    plain: bool,
    automaton: &Automaton,
    runs: &Automaton,
    pattern: &Pattern,
    vars: &[u32],
    visitor: &mut V,
) -> Result<bool, AllocError>
    requires short { length vars.now ≤ max_variables }
    requires runs { RunsFor plain automaton.now runs.now }
    ensures whole { IfOk result (λ on. IsTrue on →
        TookAll V.took (MatchesAt plain automaton.now vars.now pattern.now) [] visitor.old visitor.new) }
    ensures ended { IfOk result (λ on. IsTrue (not on) →
        TookUpTo V.took V.ended (MatchesAt plain automaton.now vars.now pattern.now) [] visitor.old visitor.new) }
    ensures err { OnErr result (TookFirst V.took (MatchesAt plain automaton.now vars.now pattern.now) [] visitor.old visitor.new
        ⊎ TookUpTo V.took V.broke (MatchesAt plain automaton.now vars.now pattern.now) [] visitor.old visitor.new) }
{
    let matcher = Matcher::new(alloc, runs, !vars.is_empty())?;
    each_in(plain, automaton, &matcher, pattern, vars, visitor)
}

impl<'a> Matcher<'a> {
    /// As the function `each_group` by all runs, but what the pattern is matched by is at hand.
    pub fn each_group<V: Groups>(
        &self,
        pattern: &Pattern,
        vars: &[u32],
        visitor: &mut V,
    ) -> Result<bool, AllocError>
        requires { length vars.now ≤ max_variables }
        ensures whole { IfOk result (λ on. IsTrue on →
            TookAll V.took (MatchesAt false self.now vars.now pattern.now) [] visitor.old visitor.new) }
        ensures ended { IfOk result (λ on. IsTrue (not on) →
            TookUpTo V.took V.ended (MatchesAt false self.now vars.now pattern.now) [] visitor.old visitor.new) }
        ensures err { OnErr result (TookFirst V.took (MatchesAt false self.now vars.now pattern.now) [] visitor.old visitor.new
            ⊎ TookUpTo V.took V.broke (MatchesAt false self.now vars.now pattern.now) [] visitor.old visitor.new) }
    {
        each_in(false, self.automaton(), self, pattern, vars, visitor)
    }
}

/// As `each_group`, where the runs are looked up in an automaton that is ready.
fn each_in<V: Groups>(
    plain: bool,
    automaton: &Automaton,
    matcher: &Matcher,
    pattern: &Pattern,
    vars: &[u32],
    visitor: &mut V,
) -> Result<bool, AllocError>
    requires short { length vars.now ≤ max_variables }
    requires runs { RunsFor plain automaton.now matcher.now }
    ensures whole { IfOk result (λ on. IsTrue on →
        TookAll V.took (MatchesAt plain automaton.now vars.now pattern.now) [] visitor.old visitor.new) }
    ensures ended { IfOk result (λ on. IsTrue (not on) →
        TookUpTo V.took V.ended (MatchesAt plain automaton.now vars.now pattern.now) [] visitor.old visitor.new) }
    ensures err { OnErr result (TookFirst V.took (MatchesAt plain automaton.now vars.now pattern.now) [] visitor.old visitor.new
        ⊎ TookUpTo V.took V.broke (MatchesAt plain automaton.now vars.now pattern.now) [] visitor.old visitor.new) }
{
    if vars.is_empty() {
        return take_only(plain, automaton, matcher, pattern, vars, visitor);
    }
    if let Some(turned) = matcher.turned() {
        return each_by(plain, automaton, matcher, turned, pattern, vars, visitor);
    }
    let turned = Turned::of(matcher.alloc(), matcher.automaton())?;
    each_by(plain, automaton, matcher, &turned, pattern, vars, visitor)
}

/// As `each_in`, where the automaton is turned round too.
fn each_by<V: Groups>(
    plain: bool,
    automaton: &Automaton,
    matcher: &Matcher,
    turned: &Turned,
    pattern: &Pattern,
    vars: &[u32],
    visitor: &mut V,
) -> Result<bool, AllocError>
    requires short { length vars.now ≤ max_variables }
    requires runs { RunsFor plain automaton.now matcher.now }
    requires reverse { IsReverse matcher.now turned.now }
    ensures whole { IfOk result (λ on. IsTrue on →
        TookAll V.took (MatchesAt plain automaton.now vars.now pattern.now) [] visitor.old visitor.new) }
    ensures ended { IfOk result (λ on. IsTrue (not on) →
        TookUpTo V.took V.ended (MatchesAt plain automaton.now vars.now pattern.now) [] visitor.old visitor.new) }
    ensures err { OnErr result (TookFirst V.took (MatchesAt plain automaton.now vars.now pattern.now) [] visitor.old visitor.new
        ⊎ TookUpTo V.took V.broke (MatchesAt plain automaton.now vars.now pattern.now) [] visitor.old visitor.new) }
{
    let alloc = matcher.alloc();
    let tabled = matcher.tabled();
    let all = matcher.all();
    let below = Below::of(alloc, tabled, all, vars, pattern)?;
    let edge = Edge::of(alloc, tabled, turned, all, all, pattern, &below)?;
    let start = Bound::new(
        alloc, plain, automaton, tabled, turned, all, &edge, pattern, &below, vars,
    );
    let mut assignment = Vec::new(alloc);
    walk(&start, vars.len(), &mut assignment, visitor)
}

/// As `each_in`, where there is no variable: there is one assignment at most.
fn take_only<V: Groups>(
    plain: bool,
    automaton: &Automaton,
    matcher: &Matcher,
    pattern: &Pattern,
    vars: &[u32],
    visitor: &mut V,
) -> Result<bool, AllocError>
    requires none { length vars.now ≡ 0 }
    requires runs { RunsFor plain automaton.now matcher.now }
    ensures whole { IfOk result (λ on. IsTrue on →
        TookAll V.took (MatchesAt plain automaton.now vars.now pattern.now) [] visitor.old visitor.new) }
    ensures ended { IfOk result (λ on. IsTrue (not on) →
        TookUpTo V.took V.ended (MatchesAt plain automaton.now vars.now pattern.now) [] visitor.old visitor.new) }
    ensures err { OnErr result (TookFirst V.took (MatchesAt plain automaton.now vars.now pattern.now) [] visitor.old visitor.new
        ⊎ TookUpTo V.took V.broke (MatchesAt plain automaton.now vars.now pattern.now) [] visitor.old visitor.new) }
{
    let found = matcher.assigned_states(pattern, vars, vars)?;
    let states = found.as_slice();
    if states.is_empty() {
        return Ok(true);
    }
    visitor.take(vars, states)
}
