//! The outcome of completing a specification, and its text.
ghost use Rattle.std.specs.Prelude.{◌≡◌, ◌↔◌, ◌≤◌, length, IfOk, IsTrue};
ghost use Rattle.ta_core.specs.TreeAutomaton.{IsKept};
ghost use Rattle.derive_search.specs.Search.{SearchAnswer};
ghost use Rattle.command_words.specs.Said.{limits_from};
ghost use Rattle.cert_text.specs.Certificates.{outcome_is_over};
ghost use Rattle.verdicts.specs.Verdicts.{IsPrecise, Verdict, search_end};
ghost use Rattle.verdicts.specs.Shown.{Shows, IsCheckable};
ghost use Rattle.verdicts.specs.Completing.{Completes};
ghost use Rattle.verdicts.specs.Answers.{IsAnswer, IsClaimOf, IsInOrder, Tells};

use cert_text::{Mark, Outcome, Reason, cert_bytes};
use completion::{Core, StageEnd, stages};
use derive_search::{SearchEnd, search};
use ranked_terms::Seq;
use std::alloc::{AllocError, Global};
use ta_core::laws::{closed_automata_accept_what_is_reached, contained_automata_keep_runs};
use ta_core::{Automaton, Map, Options, Spec};
use trs_rules::each_is_rule;
use trs_rules::laws::{chains_are_counted, placed_steps_are_steps, steps_stay_over};

// Whether it is noted that each term of the automaton is reached modulo the equations.
fn is_precise(spec: &Spec) -> bool
    ensures { IsTrue result ↔ IsPrecise spec.now }
{
    !spec.approximated && spec.initial.is_singular()
}

// What the type of an automaton keeps.
fn is_in_order(automaton: &Automaton)
    ensures kept { IsKept automaton.now }
    ensures order { IsInOrder automaton.now }
{
    // For the proof: each of these calls says that its list ascends.
    let _ = automaton.states();
    let _ = automaton.next();
    let _ = automaton.finals();
    let _ = automaton.trans();
    let _ = automaton.eps();
}

// The outcome of a closed stage after so many rounds: its automaton, and its map, cut to the initial automaton's own states.
// The only error is running out of memory.
fn claim(alloc: Global, spec: &Spec, core: &Core, rounds: u32) -> Result<Outcome, AllocError>
    requires { core.now.spec ≡ spec.now }
    ensures { IfOk result (IsClaimOf spec.now rounds core.now.automaton core.now.places) }
{
    let automaton = core.automaton().copy()?;
    let own = spec.initial.next() as usize;
    let map = Map::from_slice(alloc, &core.map().as_slice()[..own])?;
    Ok(Outcome::Unreachable {
        rounds,
        precise: is_precise(spec),
        automaton,
        map,
    })
}

// The outcome where the search has found no derivation: what the stages of completion settle. The only error is running out
// of memory.
fn completed(
    alloc: Global,
    spec: &Spec,
    options: Options,
    search: Mark,
) -> Result<Outcome, AllocError>
    requires few { length spec.now.rules ≤ 4096 }
    requires searched { SearchAnswer spec.now options (search_end search) }
    ensures { IfOk result (IsAnswer spec.now options) }
{
    // For the proof: a contained language is accepted, a closed automaton accepts what is reached, and types keep rules.
    contained_automata_keep_runs();
    closed_automata_accept_what_is_reached();
    each_is_rule(spec.rules.as_slice());
    let (core, end) = stages(alloc, spec, options)?;
    is_in_order(core.automaton());
    let _ = core.map();
    told(alloc, spec, &core, end, search)
}

// What the end of completion at this stage says, where the search has ended so. The only error is running out of memory.
fn told(
    alloc: Global,
    spec: &Spec,
    core: &Core,
    end: StageEnd,
    search: Mark,
) -> Result<Outcome, AllocError>
    requires { core.now.spec ≡ spec.now }
    ensures { IfOk result (Tells spec.now search core.now.automaton core.now.places end) }
{
    match end {
        StageEnd::Closed(rounds) => claim(alloc, spec, core, rounds),
        StageEnd::Meets(stage, least) => {
            let reason = Reason::Meets(stage, least);
            Ok(Outcome::Undecided { reason, search })
        }
        StageEnd::Rounds(stage) => {
            let reason = Reason::Rounds(stage);
            Ok(Outcome::Undecided { reason, search })
        }
        StageEnd::Pairs(stage) => {
            let reason = Reason::Pairs(stage);
            Ok(Outcome::Undecided { reason, search })
        }
        StageEnd::States(stage) => {
            let reason = Reason::States(stage);
            Ok(Outcome::Undecided { reason, search })
        }
    }
}

// All that is said of the outcome. The only error is running out of memory.
fn answer(alloc: Global, spec: &Spec, options: Options) -> Result<Outcome, AllocError>
    requires { length spec.now.rules ≤ 4096 }
    ensures { IfOk result (IsAnswer spec.now options) }
{
    // For the proof: a derivation is a chain of steps, steps stay over the signature, and types keep rules and signatures.
    chains_are_counted();
    placed_steps_are_steps();
    steps_stay_over();
    each_is_rule(spec.rules.as_slice());
    let _ = spec.signature.len();
    match search(alloc, spec, &options)? {
        SearchEnd::Found(derivation) => Ok(Outcome::Reachable(derivation)),
        SearchEnd::Exhausted(steps) => completed(alloc, spec, options, Mark::Exhausted(steps)),
        SearchEnd::Over(steps) => completed(alloc, spec, options, Mark::Over(steps)),
    }
}

/// The verdict on a specification within the options. The search comes first: where it finds a derivation of a forbidden term,
/// the outcome is that. Else the least stage at which something ends completion decides: the outcome is the automaton of a
/// closed stage, which shows that no term that is reachable is forbidden (Feuillade, Genet and Viet Triem Tong, JAR 2004), or
/// why nothing is settled. What settles something can be checked from its text alone. There are at most 4,096 rules, as in
/// each specification that a text spells. The only error is running out of memory.
pub fn outcome(alloc: Global, spec: &Spec, options: Options) -> Result<Outcome, AllocError>
    requires { length spec.now.rules ≤ 4096 }
    ensures verdict { IfOk result (Verdict spec.now options) }
    ensures shows { IfOk result (Shows spec.now) }
    ensures checkable { IfOk result (IsCheckable spec.now) }
    ensures over { IfOk result (λ o. IsTrue (outcome_is_over spec.now.signature o)) }
{
    answer(alloc, spec, options)
}

/// Completes a specification within the options: the outcome, and its text. There are at most 4,096 rules. The only error is
/// running out of memory.
pub fn complete(
    alloc: Global,
    spec: &Spec,
    options: Options,
) -> Result<(Outcome, Seq<u8>), AllocError>
    requires { length spec.now.rules ≤ 4096 }
    ensures { IfOk result (λ found. Completes spec.now (limits_from options) found.1 found.0) }
{
    let outcome = outcome(alloc, spec, options)?;
    let text = cert_bytes(alloc, spec, &outcome)?;
    Ok((outcome, text))
}
