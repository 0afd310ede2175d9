//! Automata that runs are looked up in: one without epsilon transitions for plain runs, and one with them turned round.
ghost use Rattle.std.specs.Prelude.{◌≡◌, ℕ, Bool, map, IfOk, OnOk};
ghost use Rattle.ta_core.specs.TreeAutomaton.{bare};
ghost use Rattle.state_match.specs.Rows.{IsReverse, RunsFor, turn, turn_row};

use ranked_terms::Seq;
use std::alloc::{AllocError, Global};
use ta_core::{Args, Automaton, Trans};

/// An automaton whose runs are the plain runs, or all runs where `plain` is false, of the automaton. The only error is want
/// of memory.
pub(crate) fn runs_for(automaton: &Automaton, plain: bool) -> Result<Automaton, AllocError>
    ensures { IfOk result (λ runs. RunsFor plain automaton.now runs) }
{
    if !plain {
        return automaton.copy();
    }
    automaton.without_eps()
}

/// The automaton of the same states, with the epsilon transitions turned round and with the target of each transition before
/// its arguments: so its transitions are in order by symbol and target. The only error is running out of memory.
pub(crate) fn reversed(alloc: Global, automaton: &Automaton) -> Result<Automaton, AllocError>
    ensures { IfOk result (λ reversed. IsReverse automaton.now reversed) }
{
    let mut reversed = Automaton::with_states(alloc, automaton.next(), automaton.states())?;
    add_turned(alloc, automaton, &mut reversed)?;
    Ok(reversed)
}

/// Adds all transitions, turned round, to an automaton that has just the states. The only error is running out of memory.
fn add_turned(
    alloc: Global,
    automaton: &Automaton,
    reversed: &mut Automaton,
) -> Result<(), AllocError>
    requires { reversed.old ≡ bare automaton.now.next automaton.now.states }
    ensures { OnOk result (IsReverse automaton.now reversed.new) }
{
    reversed.add_all_eps(turned(alloc, automaton.eps())?)?;
    reversed.add_all_trans(turned_rows(alloc, automaton.trans())?)?;
    Ok(())
}

/// The pairs turned round. The only error is running out of memory.
fn turned(alloc: Global, pairs: &[(u32, u32)]) -> Result<Seq<(u32, u32)>, AllocError>
    ensures { IfOk result (λ turned. turned ≡ map turn pairs.now) }
{
    let mut turned = Seq::new(alloc);
    for (from, to) in pairs {
        turned.push((*to, *from))?;
    }
    Ok(turned)
}

/// The transitions with their targets before their arguments. The only error is running out of memory.
fn turned_rows(alloc: Global, rows: &[Trans]) -> Result<Seq<Trans>, AllocError>
    ensures { IfOk result (λ turned. turned ≡ map turn_row rows.now) }
{
    let mut turned = Seq::new(alloc);
    for t in rows {
        turned.push(turned_row(alloc, t)?)?;
    }
    Ok(turned)
}

/// The transition with its target before its arguments. The only error is running out of memory.
fn turned_row(alloc: Global, t: &Trans) -> Result<Trans, AllocError>
    ensures { IfOk result (λ row. row ≡ turn_row t.now) }
{
    let mut args = Vec::new(alloc);
    args.push(t.to)?;
    args.extend_from_slice(t.args.as_slice())?;
    Ok(Trans {
        sym: t.sym,
        args: Args::from_slice(alloc, args.as_slice())?,
        to: t.to,
    })
}
