//! A pattern whose first variables stand for states.
ghost use Rattle.std.specs.Prelude.{◌≡◌, ◌↔◌, ℕ, [], Contains, IfOk, IfSome};
ghost use Rattle.state_match.specs.Belows.{IsBelow};
ghost use Rattle.state_match.specs.Edges.{IsEdge};
ghost use Rattle.state_match.specs.Rows.{IsReverse, RunsFor};

use crate::assigned::assigned_states;
use crate::below::Below;
use crate::edge::{Edge, narrow_along};
use crate::rows::no_states;
use crate::tabled::Tabled;
use crate::turned::Turned;
use crate::walk::Narrowed;
use ranked_terms::Pattern;
use std::alloc::{AllocError, Global};
use std::marker::Model;
use ta_core::{Automaton, StateSet};

/// A pattern whose first variables stand for states, with what its runs are looked up in.
#[derive(Drop)]
pub(crate) struct Bound<'a> {
    alloc: Global,
    plain: bool,
    automaton: &'a Automaton,
    runs: &'a Tabled<'a>,
    reversed: &'a Turned,
    all: &'a StateSet,
    edge: &'a Option<Edge>,
    pattern: &'a Pattern,
    below: &'a Below,
    vars: &'a [u32],
    states: Vec<u32>,
}

impl<'a> Model for Bound<'a> {
    ghost use Rattle.std.specs.Prelude.{◌≡◌, All, Contains, IfSome};
    ghost use Rattle.std.specs.Coded.{codes};
    ghost use Rattle.ranked_terms.specs.contracts.term.Pattern as patterns;
    ghost use Rattle.state_match.specs.Rests.{Rest};
    ghost use Rattle.state_match.specs.Belows.{IsBelow};
    ghost use Rattle.state_match.specs.Edges.{IsEdge};
    ghost use Rattle.state_match.specs.Rows.{IsReverse, RunsFor};

    ghost Value = { Rest };

    ghost coded = { Prim.hlevel (codes, patterns.the_row.coded) };

    ghost view = { λ b. record {
      plain = b.plain;
      automaton = b.automaton.now;
      vars = b.vars.now;
      pattern = b.pattern.now;
      bound = b.states.items;
    } };

    ghost invariant = { λ b. All (Contains b.automaton.now.states) b.states.items
        × RunsFor b.plain b.automaton.now b.runs.now
        × IsReverse b.runs.now b.reversed.now
        × (b.all.now ≡ b.runs.now.states)
        × IfSome b.edge.now (IsEdge b.runs.now b.all.now b.pattern.now)
        × IsBelow b.runs.now b.pattern.now b.below.now };
}

impl<'a> Bound<'a> {
    /// No variable stands for a state yet. It takes no memory.
    pub(crate) fn new(
        alloc: Global,
        plain: bool,
        automaton: &'a Automaton,
        runs: &'a Tabled<'a>,
        reversed: &'a Turned,
        all: &'a StateSet,
        edge: &'a Option<Edge>,
        pattern: &'a Pattern,
        below: &'a Below,
        vars: &'a [u32],
    ) -> Bound<'a>
        requires runs { RunsFor plain automaton.now runs.now }
        requires reverse { IsReverse runs.now reversed.now }
        requires all { all.now ≡ runs.now.states }
        requires edge { IfSome edge.now (IsEdge runs.now all.now pattern.now) }
        requires below { IsBelow runs.now pattern.now below.now }
        ensures { result ≡ record {
          plain = plain;
          automaton = automaton.now;
          vars = vars.now;
          pattern = pattern.now;
          bound = [];
        } }
    {
        Bound {
            alloc,
            plain,
            automaton,
            runs,
            reversed,
            all,
            edge,
            pattern,
            below,
            vars,
            states: Vec::new(alloc),
        }
    }
}

impl<'a> Narrowed for Bound<'a> {
    ghost use Rattle.state_match.specs.Rests.{MatchesFrom};

    ghost matches = { MatchesFrom };

    fn candidates(&self) -> Result<StateSet, AllocError> {
        let every = self.runs.states();
        let bound = self.states.as_slice();
        match narrow_along(
            self.alloc,
            self.runs,
            self.reversed,
            self.all,
            self.vars,
            bound,
            self.all,
            self.edge.as_ref(),
            self.pattern,
            self.below,
        )? {
            Some(states) => Ok(states),
            None => StateSet::from_slice(self.alloc, every),
        }
    }

    fn with(&self, state: u32) -> Result<Option<Self>, AllocError> {
        if !self.all.contains(state) {
            return Ok(None);
        }
        let mut states = Vec::from_slice(self.alloc, self.states.as_slice())?;
        states.push(state)?;
        Ok(Some(Bound {
            alloc: self.alloc,
            plain: self.plain,
            automaton: self.automaton,
            runs: self.runs,
            reversed: self.reversed,
            all: self.all,
            edge: self.edge,
            pattern: self.pattern,
            below: self.below,
            vars: self.vars,
            states,
        }))
    }

    fn states(&self) -> Result<StateSet, AllocError> {
        if self.states.len() != self.vars.len() {
            return no_states(self.alloc);
        }
        let bound = self.states.as_slice();
        assigned_states(
            self.alloc,
            self.runs,
            self.all,
            self.pattern,
            self.vars,
            bound,
        )
    }
}
