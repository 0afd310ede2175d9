//! Which approximation entry fits a node of a pair's right side. This form of entries is this project's own.
ghost use Rattle.std.specs.Prelude.{◌≡◌, ℕ, false, IsTrue, IfOk};
ghost use Rattle.ranked_terms.specs.declared.term.Config.{Config as Configuration, State};
ghost use Rattle.ta_core.specs.Acceptance.{image};
ghost use Rattle.normalise.specs.Normalising.{filled, Fits, FirstFit, IsSent, node_of as node_from};
ghost use Rattle.normalise.specs.AtWork.{task_from, SomeBinds, AlsoMakes, NeverMakes};

use ranked_terms::{Config, Seq, Shape};
use std::alloc::{AllocError, Global};
use std::marker::Model;
use ta_core::Map;
use trs_rules::Entry;

/// The entries, the map by which the states that they name are read, and the assigned right side and the state of a pair.
#[derive(Drop)]
pub(crate) struct Fitting<'a> {
    alloc: Global,
    entries: &'a [Entry],
    places: &'a Map,
    whole: &'a Config,
    state: u32,
}

impl<'a> Model for Fitting<'a> {
    ghost use Rattle.std.specs.Coded.{codes};
    ghost use Rattle.ranked_terms.specs.contracts.term.Shape as shape;
    ghost use Rattle.ranked_terms.specs.contracts.term.Config as config;
    ghost use Rattle.normalise.specs.Normalising.{Task};
    ghost use Rattle.normalise.specs.AtWork.{task_from};

    ghost Value = { Task };

    ghost coded = { Prim.hlevel (codes, shape.the_row.coded, config.the_row.coded) };

    ghost view = { λ w. task_from w.entries.now w.places.now w.whole.now w.state };
}

impl<'a> Fitting<'a> {
    /// The entries with this map, for a pair with this assigned right side and this state.
    pub(crate) fn of(
        alloc: Global,
        entries: &'a [Entry],
        places: &'a Map,
        whole: &'a Config,
        state: u32,
    ) -> Fitting<'a>
        ensures { result ≡ task_from entries.now places.now whole.now state }
    {
        Fitting {
            alloc,
            entries,
            places,
            whole,
            state,
        }
    }

    /// The state of the first entry that fits the node of this symbol over these states, if one does. The only error is
    /// running out of memory.
    pub(crate) fn sent(&self, sym: u32, states: &[u32]) -> Result<Option<u32>, AllocError>
        ensures { IfOk result (λ found. IsSent self.now sym states.now found) }
    {
        let node = node_of(self.alloc, sym, states)?;
        self.first_fit(&node)
    }

    // The state of the first entry that fits the node, if one does.
    fn first_fit(&self, node: &Config) -> Result<Option<u32>, AllocError>
        ensures { IfOk result (λ found. FirstFit self.now node.now self.now.entries found) }
    {
        for entry in self.entries {
            if self.fits(entry, node)? {
                return Ok(Some(self.image_of(entry.target)));
            }
        }
        Ok(None)
    }

    // What a state that an entry names has become.
    fn image_of(&self, state: u32) -> u32
        ensures { result ≡ image self.now.places state }
    {
        self.places
            .as_slice()
            .get(state as usize)
            .copied()
            .unwrap_or(0)
    }

    // Whether the entry fits the node.
    fn fits(&self, entry: &Entry, node: &Config) -> Result<bool, AllocError>
        ensures yes { IfOk result (λ fits. IsTrue fits → Fits self.now node.now entry.now) }
        ensures no { IfOk result (λ fits. fits ≡ false → Fits self.now node.now entry.now → ⊥) }
    {
        let mut asked = Vec::new(self.alloc);
        if !self.ask(&mut asked, &entry.whole, self.whole)? {
            return Ok(false);
        }
        if !self.ask_state(&mut asked, &entry.at, self.state)? {
            return Ok(false);
        }
        self.ask(&mut asked, &entry.node, node)
    }

    // Asks that the shape makes the configuration, beside what was asked before, and says whether that can be.
    fn ask(
        &self,
        asked: &mut Vec<(u32, u32)>,
        shape: &Shape,
        config: &Config,
    ) -> Result<bool, AllocError>
        requires { SomeBinds asked.old.items }
        ensures yes { IfOk result (λ yes. IsTrue yes →
            AlsoMakes Configuration (λ τ. filled self.now.places τ shape.now) config.now asked.old.items asked.new.items) }
        ensures no { IfOk result (λ yes. yes ≡ false →
            NeverMakes Configuration (λ τ. filled self.now.places τ shape.now) config.now asked.old.items) }
    {
        let (sym, args) = match config {
            Config::State(state) => return self.ask_state(asked, shape, *state),
            Config::App(sym, args) => (*sym, args),
        };
        let Shape::App(named, shapes) = shape else {
            return Ok(false);
        };
        if *named != sym || shapes.len() != args.len() {
            return Ok(false);
        }
        for (part, arg) in shapes.as_slice().iter().zip(args.as_slice()) {
            if !self.ask(asked, part, arg)? {
                return Ok(false);
            }
        }
        Ok(true)
    }

    // The same of a state.
    fn ask_state(
        &self,
        asked: &mut Vec<(u32, u32)>,
        shape: &Shape,
        state: u32,
    ) -> Result<bool, AllocError>
        requires { SomeBinds asked.old.items }
        ensures yes { IfOk result (λ yes. IsTrue yes →
            AlsoMakes Configuration (λ τ. filled self.now.places τ shape.now) (State state) asked.old.items asked.new.items) }
        ensures no { IfOk result (λ yes. yes ≡ false →
            NeverMakes Configuration (λ τ. filled self.now.places τ shape.now) (State state) asked.old.items) }
    {
        match shape {
            Shape::Var(var) => bind(asked, *var, state),
            Shape::State(named) => Ok(self.image_of(*named) == state),
            Shape::App(_, _) => Ok(false),
        }
    }
}

// Asks that the variable stands for the state, and says whether that can be.
fn bind(asked: &mut Vec<(u32, u32)>, var: u32, state: u32) -> Result<bool, AllocError>
    requires { SomeBinds asked.old.items }
    ensures yes { IfOk result (λ yes. IsTrue yes → AlsoMakes ℕ (λ τ. τ var) state asked.old.items asked.new.items) }
    ensures no { IfOk result (λ yes. yes ≡ false → NeverMakes ℕ (λ τ. τ var) state asked.old.items) }
{
    for pair in asked.as_slice() {
        if pair.0 == var {
            return Ok(pair.1 == state);
        }
    }
    asked.push((var, state))?;
    Ok(true)
}

// The node of this symbol over these states.
fn node_of(alloc: Global, sym: u32, states: &[u32]) -> Result<Config, AllocError>
    ensures { IfOk result (λ node. node ≡ node_from sym states.now) }
{
    let mut args = Seq::new(alloc);
    for state in states {
        args.push(Config::State(*state))?;
    }
    Ok(Config::App(sym, args))
}
