//! Rounds and stages.
ghost use Rattle.std.specs.Prelude.{◌≡◌, ◌≢◌, ◌<◌, ◌≤◌, ◌^◌, ℕ, [], take, length, All, IfOk, OnOk, OnErr, IfSome, IfNone};
ghost use Rattle.ranked_terms.specs.declared.term.Term.{Term};
ghost use Rattle.ta_core.specs.Acceptance.{IsAccepted, Misses};
ghost use Rattle.ta_core.specs.Closure.{AreOpenPairs};
ghost use Rattle.ta_core.specs.Reachability.{Reachable, Forbidden};
ghost use Rattle.normalise.specs.NormalisingLaws.{IsGrown};
ghost use Rattle.eq_merge.specs.Quotients.{followed};
ghost use Rattle.completion.specs.Stages.{EndsAt, Ends};
ghost use Rattle.completion.specs.Standing.{Turns, IsMerged, IsPassed, Reaches};

use crate::end::StageEnd;
use crate::laws::stages_are_one;
use crate::standing::Core;
use critical_pairs::PairError;
use eq_merge::{Renaming, merged};
use normalise::laws::{normalising_grows, normalising_has_one_result};
use normalise::{NormError, normalise_all};
use std::alloc::{AllocError, Global};
use ta_core::laws::{
    accepted_automata_are_safe, closed_automata_have_no_open_pair, open_pairs_are_listed,
};
use ta_core::{Automaton, Map, Options, Spec};
use trs_rules::{Pair, each_is_rule};

/// What there is to say of a stage before its round is merged.
#[derive(Drop)]
pub(crate) enum Turn {
    /// Completion ends at the stage.
    Ends(StageEnd),
    /// It doesn't: the automaton in which all open pairs are normalised.
    Grown(Automaton),
}

impl<'a> Core<'a> {
    /// What ends completion at this stage, after which a round is left; or the automaton in which all open pairs are
    /// normalised. The only error is running out of memory.
    fn turn(&self, number: u32) -> Result<Turn, AllocError>
        requires { number ≢ self.now.options.rounds }
        ensures { IfOk result (Turns self.now number) }
    {
        // For the proof: there is one list of open pairs, which is empty exactly where the automaton is closed.
        closed_automata_have_no_open_pair();
        each_is_rule(self.spec.rules.as_slice());
        let _ = self.automaton.states();
        if let Some(least) = self.common_term()? {
            return Ok(Turn::Ends(StageEnd::Meets(number, least)));
        }
        let pairs = match self.open_list() {
            Ok(pairs) => pairs,
            Err(PairError::More) => return Ok(Turn::Ends(StageEnd::Pairs(number))),
            Err(PairError::Memory) => return Err(AllocError),
        };
        if pairs.is_empty() {
            return Ok(Turn::Ends(StageEnd::Closed(number)));
        }
        self.resolved(number, pairs.as_slice())
    }

    /// The automaton in which these open pairs are normalised, or that this takes too many states. The only error is running
    /// out of memory.
    fn resolved(&self, number: u32, pairs: &[Pair]) -> Result<Turn, AllocError>
        requires rounds { number ≢ self.now.options.rounds }
        requires misses { Misses self.now.spec.signature self.now.automaton self.now.spec.forbidden }
        requires all { AreOpenPairs self.now.automaton self.now.spec.rules pairs.now }
        requires some { pairs.now ≢ [] }
        requires few { length pairs.now ≤ self.now.options.pairs }
        ensures { IfOk result (Turns self.now number) }
    {
        // For the proof: open pairs are triples, and a closed automaton has none.
        open_pairs_are_listed();
        closed_automata_have_no_open_pair();
        normalising_has_one_result();
        each_is_rule(self.spec.rules.as_slice());
        let grown = normalise_all(
            self.alloc,
            &self.automaton,
            self.spec.entries.as_slice(),
            &self.map,
            pairs,
            self.spec.rules.as_slice(),
            self.options.states,
        );
        match grown {
            Ok(grown) => Ok(Turn::Grown(grown)),
            Err(NormError::Full) => Ok(Turn::Ends(StageEnd::States(number))),
            Err(NormError::Memory) => Err(AllocError),
        }
    }

    /// Goes on with the automaton, in which what was there still is, merged by the equations. The only error is running out of
    /// memory; then the core is as before.
    fn go_on_with(&mut self, grown: &Automaton) -> Result<(), AllocError>
        requires { IsGrown self.old.automaton grown.now }
        ensures ok { OnOk result (IsMerged self.old grown.now self.new.automaton self.new.places) }
        ensures same { (self.new.spec ≡ self.old.spec) × (self.new.options ≡ self.old.options) }
        ensures err { OnErr result (self.new ≡ self.old) }
    {
        // For the proof: the states are below `next`.
        let _ = grown.states();
        let _ = self.spec.initial.states();
        let (automaton, classes) = merged(self.alloc, grown, self.spec.equations.as_slice())?;
        let map = moved(self.alloc, &self.map, &classes)?;
        self.automaton = automaton;
        self.map = map;
        Ok(())
    }

    /// What ends completion at this stage, after which a round is left; or a round is done. The only error is running out of
    /// memory; then, and where completion ends, the core is as before.
    pub(crate) fn advance(&mut self, number: u32) -> Result<Option<StageEnd>, AllocError>
        requires { number ≢ self.old.options.rounds }
        ensures some { IfOk result (λ end. IfSome end (λ e.
            EndsAt self.old.spec self.old.options number self.old.automaton self.old.places e × (self.new ≡ self.old))) }
        ensures none { IfOk result (λ end. IfNone end (IsPassed self.old number self.new.automaton self.new.places)) }
        ensures same { (self.new.spec ≡ self.old.spec) × (self.new.options ≡ self.old.options) }
        ensures err { OnErr result (self.new ≡ self.old) }
    {
        // For the proof: what was there stays.
        normalising_grows();
        match self.turn(number)? {
            Turn::Ends(end) => Ok(Some(end)),
            Turn::Grown(grown) => {
                self.go_on_with(&grown)?;
                Ok(None)
            }
        }
    }

    /// What ends completion where no round is left. The only error is running out of memory.
    pub(crate) fn last_end(&self, number: u32) -> Result<StageEnd, AllocError>
        requires { number ≡ self.now.options.rounds }
        ensures { IfOk result (EndsAt self.now.spec self.now.options number self.now.automaton self.now.places) }
    {
        // For the proof: a closed automaton has no open pair.
        closed_automata_have_no_open_pair();
        each_is_rule(self.spec.rules.as_slice());
        let _ = self.automaton.states();
        if let Some(least) = self.common_term()? {
            return Ok(StageEnd::Meets(number, least));
        }
        match self.open_up_to(0) {
            Ok(_none) => Ok(StageEnd::Closed(number)),
            Err(PairError::More) => Ok(StageEnd::Rounds(number)),
            Err(PairError::Memory) => Err(AllocError),
        }
    }
}

/// The map, followed by what merging has made of each state. The only error is running out of memory.
fn moved(alloc: Global, map: &Map, classes: &Renaming) -> Result<Map, AllocError>
    requires { All (λ q. q < length classes.now) map.now }
    ensures { IfOk result (λ moved. moved ≡ followed map.now classes.now) }
{
    let mut states = Vec::new(alloc);
    for state in map.as_slice() {
        states.push(classes.image(*state))?;
    }
    Map::from_slice(alloc, states.as_slice())
}

/// The least stage at which something ends completion, and what ends it. The only error is running out of memory.
fn completed<'a>(
    alloc: Global,
    spec: &'a Spec,
    options: Options,
) -> Result<(Core<'a>, StageEnd), AllocError>
    requires { length spec.now.rules < 2 ^ 32 }
    ensures same { IfOk result (λ pair. (pair.0.spec ≡ spec.now) × (pair.0.options ≡ options)) }
    ensures ends { IfOk result (λ pair. Ends spec.now options pair.0.automaton pair.0.places pair.1) }
{
    let mut core = Core::start(alloc, spec, options)?;
    let end = end_of(&mut core, options)?;
    Ok((core, end))
}

/// Goes on from the first stage to the least one at which something ends completion, and says what ends it. The only error is
/// running out of memory.
fn end_of(core: &mut Core, options: Options) -> Result<StageEnd, AllocError>
    requires { Reaches core.old.spec options core.old 0 }
    ensures same { (core.new.spec ≡ core.old.spec) × (core.new.options ≡ core.old.options) }
    ensures ends { IfOk result (Ends core.old.spec options core.new.automaton core.new.places) }
{
    // For the proof: the stage of a number is one.
    stages_are_one();
    for number in 0..options.rounds {
        if let Some(end) = core.advance(number)? {
            return Ok(end);
        }
    }
    core.last_end(options.rounds)
}

/// Completes a specification within the options: the least stage at which something ends completion, and what ends it. The
/// core stands at that stage, with its map. Where it is closed, its automaton is accepted, and so no term that is reachable,
/// in whatever number of steps, is forbidden (Feuillade, Genet and Viet Triem Tong, JAR 2004). The only error is running out
/// of memory.
pub fn stages<'a>(
    alloc: Global,
    spec: &'a Spec,
    options: Options,
) -> Result<(Core<'a>, StageEnd), AllocError>
    requires { length spec.now.rules < 2 ^ 32 }
    ensures same { IfOk result (λ pair. (pair.0.spec ≡ spec.now) × (pair.0.options ≡ options)) }
    ensures ends { IfOk result (λ pair. Ends spec.now options pair.0.automaton pair.0.places pair.1) }
    ensures accepted { IfOk result (λ pair. (i : ℕ) → pair.1 ≡ StageEnd.Closed i →
        IsAccepted spec.now pair.0.automaton (take spec.now.initial.next pair.0.places)) }
    // Where the stage is closed, no term that is reachable, in whatever number of steps, is forbidden.
    ensures safe { IfOk result (λ pair. (i : ℕ) → pair.1 ≡ StageEnd.Closed i →
        (t : Term) → Reachable spec.now t → Forbidden spec.now t → ⊥) }
{
    // For the proof: the initial automaton is contained, and no term that is reachable is forbidden by an accepted one.
    accepted_automata_are_safe();
    each_is_rule(spec.rules.as_slice());
    let (core, end) = completed(alloc, spec, options)?;
    let _ = core.automaton().states();
    Ok((core, end))
}
