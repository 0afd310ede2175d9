//! Quotients of automata.
ghost use Rattle.std.specs.Prelude.{◌≡◌, ◌<◌, ◌==◌, ℕ, List, length, map, filter, All, Contains, IfOk, OnOk};
ghost use Rattle.ta_core.specs.Acceptance.{image};
ghost use Rattle.ta_core.specs.TreeAutomaton.{bare};
ghost use Rattle.eq_merge.specs.CoherenceLaws.{JoinKeepsCoherence};
ghost use Rattle.eq_merge.specs.Quotients.{AreLeasts, quotient, joining, renamed, renamed_eps, moves};

use crate::laws::merging_keeps_coherence;
use crate::renaming::Renaming;
use ranked_terms::Seq;
use std::alloc::{AllocError, Global};
use ta_core::{Args, Automaton, Trans};

/// The automaton in which each state is replaced by the one that stands for it. The only error is running out of memory.
pub(crate) fn quotient_by(
    alloc: Global,
    a: &Automaton,
    classes: &Renaming,
) -> Result<Automaton, AllocError>
    requires { AreLeasts a.now classes.now }
    ensures { IfOk result (λ merged. merged ≡ quotient a.now classes.now) }
{
    let mut merged = least_alone(alloc, a, classes)?;
    add_renamed(alloc, a, classes, &mut merged)?;
    Ok(merged)
}

/// The states that stand for themselves, and nothing else. The only error is running out of memory.
fn least_alone(alloc: Global, a: &Automaton, classes: &Renaming) -> Result<Automaton, AllocError>
    requires { AreLeasts a.now classes.now }
    ensures { IfOk result (λ merged. merged ≡ bare a.now.next (quotient a.now classes.now).states) }
{
    let states = least_states(alloc, a.states(), classes)?;
    Automaton::with_states(alloc, a.next(), states.as_slice())
}

/// Adds the final states and the transitions, each state replaced by the one that stands for it. The only error is running out
/// of memory.
fn add_renamed(
    alloc: Global,
    a: &Automaton,
    classes: &Renaming,
    merged: &mut Automaton,
) -> Result<(), AllocError>
    requires leasts { AreLeasts a.now classes.now }
    requires bare { merged.old ≡ bare a.now.next (quotient a.now classes.now).states }
    ensures { OnOk result (merged.new ≡ quotient a.now classes.now) }
{
    let finals = new_states(alloc, a.finals(), classes)?;
    merged.set_all_final(finals)?;
    let trans = new_trans(alloc, a.trans(), classes)?;
    merged.add_all_trans(trans)?;
    let eps = new_eps(alloc, a.eps(), classes)?;
    merged.add_all_eps(eps)?;
    Ok(())
}

/// The states that stand for themselves.
fn least_states(alloc: Global, states: &[u32], classes: &Renaming) -> Result<Seq<u32>, AllocError>
    requires { All (λ q. q < length classes.now) states.now }
    ensures { IfOk result (λ least. least ≡ filter (λ q. image classes.now q == q) states.now) }
{
    let mut least = Seq::new(alloc);
    for q in states {
        if classes.image(*q) == *q {
            least.push(*q)?;
        }
    }
    Ok(least)
}

/// For each state the one that stands for it.
fn new_states(alloc: Global, states: &[u32], classes: &Renaming) -> Result<Seq<u32>, AllocError>
    requires { All (λ q. q < length classes.now) states.now }
    ensures { IfOk result (λ new. new ≡ map (image classes.now) states.now) }
{
    let mut new = Seq::new(alloc);
    for q in states {
        new.push(classes.image(*q))?;
    }
    Ok(new)
}

/// The transitions with these states.
fn new_trans(alloc: Global, trans: &[Trans], classes: &Renaming) -> Result<Seq<Trans>, AllocError>
    ensures { IfOk result (λ new. new ≡ map (renamed classes.now) trans.now) }
{
    let mut new = Seq::new(alloc);
    for t in trans {
        new.push(renamed_one(alloc, t, classes)?)?;
    }
    Ok(new)
}

/// One transition with the states that stand for its own, and 0 for a number that is none. The only error is running out of
/// memory.
pub(crate) fn renamed_one(alloc: Global, t: &Trans, classes: &Renaming) -> Result<Trans, AllocError>
    ensures { IfOk result (λ new. new ≡ renamed classes.now t.now) }
{
    Ok(Trans {
        sym: t.sym,
        args: renamed_args(alloc, t.args.as_slice(), classes)?,
        to: classes.least_of(t.to),
    })
}

/// For each state the one that stands for it, and 0 for a number that is none. The only error is running out of memory.
fn renamed_args(alloc: Global, states: &[u32], classes: &Renaming) -> Result<Args, AllocError>
    ensures { IfOk result (λ args. args ≡ map (image classes.now) states.now) }
{
    let mut args = Vec::new(alloc);
    for q in states {
        args.push(classes.least_of(*q))?;
    }
    Args::from_slice(alloc, args.as_slice())
}

/// The epsilon transitions with these states, but for those from a state to itself.
fn new_eps(
    alloc: Global,
    eps: &[(u32, u32)],
    classes: &Renaming,
) -> Result<Seq<(u32, u32)>, AllocError>
    requires { All (λ (e : ℕ × ℕ). (e.0 < length classes.now) × (e.1 < length classes.now)) eps.now }
    ensures { IfOk result (λ new. new ≡ filter moves (map (renamed_eps classes.now) eps.now)) }
{
    let mut new = Seq::new(alloc);
    for (from, to) in eps {
        let from = classes.image(*from);
        let to = classes.image(*to);
        if from != to {
            new.push((from, to))?;
        }
    }
    Ok(new)
}

/// Puts just these two states together, and says which state stands for each one (Genet and Rusu, JSC 2010). The only error is
/// running out of memory.
pub fn join_states(
    alloc: Global,
    a: &Automaton,
    p: u32,
    q: u32,
) -> Result<(Automaton, Renaming), AllocError>
    requires p { Contains a.now.states p }
    requires q { Contains a.now.states q }
    ensures classes { IfOk result (λ joined. joined.1 ≡ joining a.now.next p q) }
    ensures joined { IfOk result (λ joined. joined.0 ≡ quotient a.now joined.1) }
    ensures leasts { IfOk result (λ joined. AreLeasts a.now joined.1) }
    // If some equation forces the two together, coherence is kept.
    ensures coherent { IfOk result (λ joined. JoinKeepsCoherence a.now p q joined.0 joined.1) }
{
    // For the proof: joining forced states keeps coherence.
    merging_keeps_coherence();
    let mut classes = Renaming::apart(alloc, a.next())?;
    classes.join(p, q);
    let joined = quotient_by(alloc, a, &classes)?;
    Ok((joined, classes))
}
