//! Putting the assigned right side of a pair into an automaton.
ghost use Rattle.std.specs.Prelude.{◌≡◌, ◌≤◌, All, Contains, IfOk, OnOk, IsErrOf};
ghost use Rattle.normalise.specs.Normalising.{Puts, Goes, StaysWithin};
ghost use Rattle.normalise.specs.AtWork.{job_of, HasStates, HasTargets, PutNeedsMore, NodeNeedsMore};

use crate::fitting::Fitting;
use crate::pairs::NormError;
use ranked_terms::Config;
use std::alloc::Global;
use std::marker::Model;
use ta_core::Growing;

/// What is needed on the way over the right side of a pair: the entries, and the number up to which there may be states.
#[derive(Drop)]
pub(crate) struct Putting<'a> {
    alloc: Global,
    fitting: Fitting<'a>,
    max_states: u32,
}

impl<'a> Model for Putting<'a> {
    ghost use Rattle.std.specs.Coded.{codes};
    ghost use Rattle.ranked_terms.specs.contracts.term.Shape as shape;
    ghost use Rattle.ranked_terms.specs.contracts.term.Config as config;
    ghost use Rattle.normalise.specs.AtWork.{Job, job_of};

    ghost Value = { Job };

    ghost coded = { Prim.hlevel (codes, shape.the_row.coded, config.the_row.coded) };

    ghost view = { λ w. job_of w.fitting w.max_states };
}

impl<'a> Putting<'a> {
    /// What is needed for a pair, by its entries.
    pub(crate) fn by(alloc: Global, fitting: Fitting<'a>, max_states: u32) -> Putting<'a>
        ensures { result ≡ job_of fitting.entry max_states }
    {
        Putting {
            alloc,
            fitting,
            max_states,
        }
    }

    /// Puts a part of the right side, and gives the state at which it stands. After an error the automaton is dropped.
    pub(crate) fn put(&self, growing: &mut Growing, part: &Config) -> Result<u32, NormError>
        requires states { HasStates growing.old part.now }
        requires targets { HasTargets growing.old self.now.task }
        requires few { self.now.most ≤ 16384 }
        ensures ok { IfOk result (λ p. Puts self.now.task growing.old part.now p growing.new) }
        ensures state { IfOk result (Contains growing.new.states) }
        ensures within { OnOk result (StaysWithin self.now.most growing.old growing.new) }
        ensures full { IsErrOf result NormError.Full → PutNeedsMore self.now.task self.now.most growing.old part.now }
    {
        match part {
            Config::State(state) => Ok(*state),
            Config::App(sym, args) => {
                let mut states = Vec::new(self.alloc);
                for arg in args.as_slice() {
                    states.push(self.put(growing, arg)?)?;
                }
                self.goes(growing, *sym, &states)
            }
        }
    }

    // Where the node goes, with the transition to it.
    fn goes(&self, growing: &mut Growing, sym: u32, states: &[u32]) -> Result<u32, NormError>
        requires args { All (Contains growing.old.states) states.now }
        requires targets { HasTargets growing.old self.now.task }
        requires few { self.now.most ≤ 16384 }
        ensures ok { IfOk result (λ p. Goes self.now.task growing.old sym states.now p growing.new) }
        ensures state { IfOk result (Contains growing.new.states) }
        ensures within { OnOk result (StaysWithin self.now.most growing.old growing.new) }
        ensures full { IsErrOf result NormError.Full → NodeNeedsMore self.now.task self.now.most growing.old sym states.now }
    {
        if let Some(to) = self.fitting.sent(sym, states)? {
            growing.add_trans(sym, states, to)?;
            return Ok(to);
        }
        if let Some(least) = growing.least_target(sym, states)? {
            return Ok(least);
        }
        if growing.next() >= self.max_states {
            return Err(NormError::Full);
        }
        let to = growing.add_state();
        growing.add_trans(sym, states, to)?;
        Ok(to)
    }
}
