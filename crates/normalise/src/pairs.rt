//! Normalising open pairs.
ghost use Rattle.std.specs.Prelude.{◌≡◌, ◌≤◌, ◌↔◌, ℕ, length, All, Contains, IsTrue, IsErr, IfOk, OnOk, OnErr, IsErrOf};
ghost use Rattle.trs_rules.specs.declared.sigma.Pair.{Pair as OpenPair};
ghost use Rattle.ta_core.specs.TreeAutomaton.{TreeAutomaton};
ghost use Rattle.ta_core.specs.SpecRules.{entries_are_below};
ghost use Rattle.ta_core.specs.Closure.{IsTriple, IsSettled};
ghost use Rattle.normalise.specs.Normalising.{by, Normalised, NormalisedAll, StaysWithin, NeedsMoreFor, NeedMoreFor};
ghost use Rattle.trs_rules.specs.declared.entry.Entry.{Entry as OneEntry};
ghost use Rattle.ta_core.specs.Acceptance.{image};

use crate::fitting::Fitting;
use crate::putting::Putting;
use std::alloc::{AllocError, AllocFailed, Global};
use ta_core::{Automaton, Growing, Map, assign};
use trs_rules::{Entry, Pair, Rule};

/// Why a pair was not normalised.
#[derive(Debug, Clone, Copy, PartialEq, Eq)]
pub enum NormError {
    /// A fresh state is needed while `next` is at least the limit.
    Full,
    /// Memory ran out.
    Memory,
}

impl From<AllocError> for NormError {
    ghost use Rattle.std.specs.Prelude.{◌≡◌};
    ghost use Rattle.normalise.specs.declared.pairs.NormError.TheVariants.{Memory};

    ghost from_gives = { λ _ error. error ≡ Memory };

    fn from(_error: AllocError) -> NormError {
        NormError::Memory
    }
}

impl<T: Drop> From<AllocFailed<T>> for NormError {
    ghost use Rattle.std.specs.Prelude.{◌≡◌};
    ghost use Rattle.normalise.specs.declared.pairs.NormError.TheVariants.{Memory};

    ghost from_gives = { λ _ error. error ≡ Memory };

    fn from(_error: AllocFailed<T>) -> NormError {
        NormError::Memory
    }
}

/// Normalises a pair: its right side, with the states of the pair's assignment for the variables, is put into the automaton,
/// and an epsilon transition leads from the state at which it stands, which is the answer, to the pair's state (Feuillade,
/// Genet and Viet Triem Tong, JAR 2004). A node goes to the state of the first entry that fits; otherwise to the least state
/// to which there is a transition from it; otherwise to a fresh state. The states that entries name are read through the map.
/// Afterwards the pair isn't open. `Full` comes exactly where a fresh state is needed while `next` is at least `max_states`,
/// `Memory` where memory runs out. After an error the automaton is as before.
pub fn normalise(
    alloc: Global,
    a: &mut Automaton,
    entries: &[Entry],
    map: &Map,
    pair: &Pair,
    rules: &[Rule],
    max_states: u32,
) -> Result<u32, NormError>
    requires pair { IsTriple a.old rules.now pair.now }
    requires map { All (Contains a.old.states) map.now }
    requires entries { IsTrue (entries_are_below (length map.now) entries.now) }
    requires few { max_states ≤ 16384 }
    ensures ok { IfOk result (λ p. Normalised (by entries.now map.now rules.now) a.old pair.now p a.new) }
    ensures within { OnOk result (StaysWithin max_states a.old a.new) }
    ensures full { IsErrOf result NormError.Full → NeedsMoreFor (by entries.now map.now rules.now) max_states a.old pair.now }
    ensures only { NeedsMoreFor (by entries.now map.now rules.now) max_states a.old pair.now → IsErr result }
    ensures settled { OnOk result (IsSettled a.new rules.now pair.now) }
    ensures err { OnErr result (a.new ≡ a.old) }
{
    let mut growing = Growing::on(a);
    let from = resolve(alloc, &mut growing, entries, map, pair, rules, max_states)?;
    let grown = growing.finish()?;
    *a = grown;
    Ok(from)
}

/// An automaton in which the pairs are normalised in order, each whether or not an earlier one has closed it meanwhile. `Full`
/// comes exactly where a fresh state is needed while `next` is at least `max_states`, `Memory` where memory runs out.
pub fn normalise_all(
    alloc: Global,
    a: &Automaton,
    entries: &[Entry],
    map: &Map,
    pairs: &[Pair],
    rules: &[Rule],
    max_states: u32,
) -> Result<Automaton, NormError>
    requires pairs { All (IsTriple a.now rules.now) pairs.now }
    requires map { All (Contains a.now.states) map.now }
    requires entries { IsTrue (entries_are_below (length map.now) entries.now) }
    requires few { max_states ≤ 16384 }
    ensures ok { IfOk result (λ grown. NormalisedAll (by entries.now map.now rules.now) a.now pairs.now grown) }
    ensures within { IfOk result (λ grown. StaysWithin max_states a.now grown) }
    ensures full { IsErrOf result NormError.Full → NeedMoreFor (by entries.now map.now rules.now) max_states a.now pairs.now }
    ensures only { NeedMoreFor (by entries.now map.now rules.now) max_states a.now pairs.now → IsErr result }
{
    let mut growing = Growing::on(a);
    for pair in pairs {
        let _ = resolve(alloc, &mut growing, entries, map, pair, rules, max_states)?;
    }
    Ok(growing.finish()?)
}

// One pair, in an automaton that is dropped after an error.
fn resolve(
    alloc: Global,
    growing: &mut Growing,
    entries: &[Entry],
    map: &Map,
    pair: &Pair,
    rules: &[Rule],
    max_states: u32,
) -> Result<u32, NormError>
    requires pair { IsTriple growing.old rules.now pair.now }
    requires targets { All (λ (e : OneEntry). Contains growing.old.states (image map.now e.target)) entries.now }
    requires few { max_states ≤ 16384 }
    ensures ok { IfOk result (λ p. Normalised (by entries.now map.now rules.now) growing.old pair.now p growing.new) }
    ensures within { OnOk result (StaysWithin max_states growing.old growing.new) }
    ensures full { IsErrOf result NormError.Full →
        NeedsMoreFor (by entries.now map.now rules.now) max_states growing.old pair.now }
    ensures settled { OnOk result (IsSettled growing.new rules.now pair.now) }
{
    let rule = &rules[pair.rule as usize];
    let whole = assign(alloc, rule.right(), rule.vars(), pair.sigma.as_slice())?;
    let fitting = Fitting::of(alloc, entries, map, &whole, pair.state);
    let from = Putting::by(alloc, fitting, max_states).put(growing, &whole)?;
    growing.add_eps(from, pair.state)?;
    Ok(from)
}
