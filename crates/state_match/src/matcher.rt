//! An automaton made ready for the matches of many patterns.
ghost use Rattle.std.specs.Prelude.{◌≡◌, ◌↔◌, ℕ, Contains, IfOk, IfSome};
ghost use Rattle.ranked_terms.specs.Terms.{assigned};
ghost use Rattle.ta_core.specs.Closure.{state_in};
ghost use Rattle.ta_core.specs.Runs.{Runs};
ghost use Rattle.state_match.specs.Rows.{IsReverse};

use crate::assigned::assigned_states;
use crate::tabled::Tabled;
use crate::turned::Turned;
use ranked_terms::Pattern;
use std::alloc::{AllocError, Global};
use std::marker::Model;
use ta_core::{Automaton, StateSet};

/// An automaton with what the matches of patterns are looked up in, which is made once for all patterns. Contracts see the
/// automaton.
#[derive(Drop)]
pub struct Matcher<'a> {
    alloc: Global,
    tabled: Tabled<'a>,
    all: StateSet,
    // Made only where patterns with variables are to come.
    turned: Option<Turned>,
}

impl<'a> Model for Matcher<'a> {
    ghost use Rattle.std.specs.Prelude.{◌≡◌, IfSome};
    ghost use Rattle.ta_core.specs.TreeAutomaton.{TreeAutomaton};
    ghost use Rattle.state_match.specs.Rows.{IsReverse};

    ghost Value = { TreeAutomaton };

    ghost view = { λ matcher. matcher.tabled };

    ghost invariant = { λ matcher. (matcher.all ≡ matcher.tabled.states) × IfSome matcher.turned (IsReverse matcher.tabled) };
}

impl<'a> Matcher<'a> {
    /// The automaton, ready for patterns. Those with variables are matched whatever `has_variables` is, but where it is false,
    /// what their candidates are looked up in is made for each of them anew. The only error is running out of memory.
    pub fn new(
        alloc: Global,
        automaton: &'a Automaton,
        has_variables: bool,
    ) -> Result<Matcher<'a>, AllocError>
        ensures { IfOk result (λ matcher. matcher ≡ automaton.now) }
    {
        let tabled = Tabled::new(alloc, automaton)?;
        let all = StateSet::from_slice(alloc, automaton.states())?;
        let turned = turned_if(alloc, automaton, has_variables)?;
        Ok(Matcher {
            alloc,
            tabled,
            all,
            turned,
        })
    }

    /// The automaton.
    pub fn automaton(&self) -> &Automaton
        ensures { result.now ≡ self.now }
    {
        self.tabled.automaton()
    }

    /// The states to which the pattern runs with these states for its variables, both in the same order. A variable that is
    /// none of `vars` stands for the state behind theirs, and one for which there is no state for 0. The only error is running
    /// out of memory.
    pub fn assigned_states(
        &self,
        pattern: &Pattern,
        vars: &[u32],
        states: &[u32],
    ) -> Result<StateSet, AllocError>
        ensures { IfOk result (λ found. (q : ℕ) →
            Contains found q ↔ Runs self.now (assigned (state_in vars.now states.now) pattern.now) q) }
    {
        assigned_states(self.alloc, &self.tabled, &self.all, pattern, vars, states)
    }

    /// Where lists grow.
    pub(crate) fn alloc(&self) -> Global {
        self.alloc
    }

    /// The automaton with its table.
    pub(crate) fn tabled(&self) -> &Tabled<'a>
        ensures { result.now ≡ self.now }
    {
        &self.tabled
    }

    /// All states.
    pub(crate) fn all(&self) -> &StateSet
        ensures { result.now ≡ self.now.states }
    {
        &self.all
    }

    /// The automaton turned round, where it was made.
    pub(crate) fn turned(&self) -> Option<&Turned>
        ensures { IfSome result (λ turned. IsReverse self.now turned.now) }
    {
        self.turned.as_ref()
    }
}

/// The automaton turned round, where it is asked for. The only error is running out of memory.
fn turned_if(
    alloc: Global,
    automaton: &Automaton,
    is_asked: bool,
) -> Result<Option<Turned>, AllocError>
    ensures { IfOk result (λ made. IfSome made (IsReverse automaton.now)) }
{
    if !is_asked {
        return Ok(None);
    }
    let turned = Turned::of(alloc, automaton)?;
    Ok(Some(turned))
}
