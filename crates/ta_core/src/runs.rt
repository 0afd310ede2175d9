//! Runs: the states to which configurations and terms run.
ghost use Rattle.std.specs.Prelude.{◌≡◌, ◌↔◌, ℕ, IsTrue, All, Contains, IfOk};
ghost use Rattle.std.specs.List.{AllZip};
ghost use Rattle.ranked_terms.specs.Terms.{config_of};
ghost use Rattle.ranked_terms.specs.declared.term.Config.{State};
ghost use Rattle.ta_core.specs.Runs.{Runs, RunsPlain};
ghost use Rattle.ta_core.specs.Languages.{Accepts};
ghost use Rattle.ta_core.specs.Reached.{ReachedFrom, HasTransInto, EntersAndReaches};

use crate::automaton::Automaton;
use crate::reached::Reached;
use crate::state_set::StateSet;
use ranked_terms::{Config, Term};
use std::alloc::AllocError;

impl Automaton {
    /// The states to which the configuration runs (TATA, section 1.1). The only error is running out of memory.
    pub fn run_states(&self, config: &Config) -> Result<StateSet, AllocError>
        ensures { IfOk result (λ all. (q : ℕ) → Contains all q ↔ Runs self.now config.now q) }
    {
        let reached = self.reached_by(config)?;
        reached.to_set()
    }

    /// The states to which the configuration runs without epsilon transitions (TATA, section 1.1). The only error is running
    /// out of memory.
    pub fn plain_states(&self, config: &Config) -> Result<StateSet, AllocError>
        ensures { IfOk result (λ all. (q : ℕ) → Contains all q ↔ RunsPlain self.now config.now q) }
    {
        let reached = self.reached_plainly(config)?;
        reached.to_set()
    }

    /// Whether the ground term runs to a final state. The only error is running out of memory.
    pub fn accepts(&self, term: &Term) -> Result<bool, AllocError>
        ensures { IfOk result (λ yes. IsTrue yes ↔ Accepts self.now term.now) }
    {
        let reached = self.reached_by_term(term)?;
        Ok(reached.has_any(self.finals()))
    }

    /// The states to which the state runs: itself and, in any number of steps, where epsilon transitions lead; none
    /// where it is no state of the automaton. The only error is running out of memory.
    pub fn eps_closure(&self, state: u32) -> Result<StateSet, AllocError>
        ensures { IfOk result (λ all. (q : ℕ) → Contains all q ↔ Runs self.now (State state) q) }
    {
        let reached = self.reached_from(state)?;
        reached.to_set()
    }

    /// The states to which epsilon transitions lead from the members of the set, in any number of steps. The only error is
    /// running out of memory.
    pub fn closure_of(&self, set: &StateSet) -> Result<StateSet, AllocError>
        requires { All (Contains self.now.states) set.now }
        ensures { IfOk result (λ all. (q : ℕ) → Contains all q ↔ ReachedFrom self.now set.now q) }
    {
        let mut reached = Reached::new(self.alloc());
        reached.add_all(set.as_slice())?;
        let closed = reached.closed(self)?;
        closed.to_set()
    }

    // The states to which the configuration runs, by one way over it.
    fn reached_by(&self, config: &Config) -> Result<Reached, AllocError>
        ensures { IfOk result (λ all. (q : ℕ) → Contains all q ↔ Runs self.now config.now q) }
    {
        match config {
            Config::State(state) => self.reached_from(*state),
            Config::App(sym, args) => {
                let mut sets = Vec::new(self.alloc());
                for arg in args.as_slice() {
                    sets.push(self.reached_by(arg)?)?;
                }
                self.reached_at(*sym, &sets)
            }
        }
    }

    // The states to which the configuration runs without epsilon transitions.
    fn reached_plainly(&self, config: &Config) -> Result<Reached, AllocError>
        ensures { IfOk result (λ all. (q : ℕ) → Contains all q ↔ RunsPlain self.now config.now q) }
    {
        match config {
            Config::State(state) => self.state_alone(*state),
            Config::App(sym, args) => {
                let mut sets = Vec::new(self.alloc());
                for arg in args.as_slice() {
                    sets.push(self.reached_plainly(arg)?)?;
                }
                self.targets_of(*sym, &sets)
            }
        }
    }

    // The state by itself, and none where it is no state of the automaton.
    fn state_alone(&self, state: u32) -> Result<Reached, AllocError>
        ensures { IfOk result (λ all. (q : ℕ) → Contains all q ↔ ((state ≡ q) × Contains self.now.states q)) }
    {
        let mut reached = Reached::new(self.alloc());
        if self.has_state(state) {
            reached.add(state)?;
        }
        Ok(reached)
    }

    // The states to which the ground term runs.
    fn reached_by_term(&self, term: &Term) -> Result<Reached, AllocError>
        ensures { IfOk result (λ all. (q : ℕ) → Contains all q ↔ Runs self.now (config_of term.now) q) }
    {
        let mut sets = Vec::new(self.alloc());
        for arg in term.args.as_slice() {
            sets.push(self.reached_by_term(arg)?)?;
        }
        self.reached_at(term.sym, &sets)
    }

    // The states to which the state runs.
    fn reached_from(&self, state: u32) -> Result<Reached, AllocError>
        ensures { IfOk result (λ all. (q : ℕ) → Contains all q ↔ Runs self.now (State state) q) }
    {
        let mut reached = Reached::new(self.alloc());
        if !self.has_state(state) {
            return Ok(reached);
        }
        reached.add(state)?;
        reached.closed(self)
    }

    // Whether the number is one of the states.
    fn has_state(&self, state: u32) -> bool
        ensures { IsTrue result ↔ Contains self.now.states state }
    {
        self.states().binary_search(&state).is_ok()
    }

    // The states to which the symbol runs where its arguments run to these sets.
    fn reached_at(&self, sym: u32, sets: &[Reached]) -> Result<Reached, AllocError>
        ensures { IfOk result (λ all. (q : ℕ) → Contains all q ↔ EntersAndReaches self.now sym sets.now q) }
    {
        self.targets_of(sym, sets)?.closed(self)
    }

    // The targets of the symbol's transitions whose arguments are members of these sets.
    fn targets_of(&self, sym: u32, sets: &[Reached]) -> Result<Reached, AllocError>
        ensures exact { IfOk result (λ all. (q : ℕ) → Contains all q ↔ HasTransInto self.now.trans sym sets.now q) }
        ensures inside { IfOk result (All (Contains self.now.states)) }
    {
        let mut targets = Reached::new(self.alloc());
        for t in self.trans_with(sym) {
            if are_members(t.args.as_slice(), sets) {
                targets.add(t.to)?;
            }
        }
        Ok(targets)
    }
}

// Whether each state is a member of the set at its place, and there are as many of both.
fn are_members(states: &[u32], sets: &[Reached]) -> bool
    ensures { IsTrue result ↔ AllZip Contains sets.now states.now }
{
    states.len() == sets.len()
        && states
            .iter()
            .zip(sets)
            .all(|(state, set)| set.contains(*state))
}
