//! Whether an automaton contains the initial one.
ghost use Rattle.std.specs.Prelude.{◌≡◌, ◌↔◌, ◌<◌, ◌≤◌, ◌^◌, length, map, slice_index, All, Contains, IfSome, IfNone, IsTrue};
ghost use Rattle.ta_core.specs.Acceptance.{IsContained, TransHolds, EpsHolds, FinalHolds};
ghost use Rattle.ta_core.specs.declared.trans.Trans.{Trans as Transition};
ghost use Rattle.closure_check.specs.Answers.{IsFirstMissing, FailsFirstAt, FailsFirst};
ghost use Rattle.closure_check.specs.Marking.{Marked, HasRoom};

use crate::answer::Missing;
use crate::marks::Marks;
use crate::prepared::Prepared;
use crate::running::{run_app, run_state};
use ta_core::{Automaton, Trans};

/// The first part of the initial automaton that the automaton does not contain by the map.
pub(crate) fn first_missing(
    sets: &mut [Marks],
    initial: &Automaton,
    automaton: &Prepared,
    images: &[u32],
) -> Option<Missing>
    requires arguments { All (λ (t : Transition). length t.args < length sets.old) initial.now.trans }
    requires some { 0 < length sets.old }
    requires room { All (HasRoom automaton.now) sets.old }
    requires trans { length initial.now.trans < 2 ^ 32 }
    requires eps { length initial.now.eps < 2 ^ 32 }
    requires images { initial.now.next ≤ length images.now }
    requires states { All (Contains automaton.now.states) images.now }
    ensures some { IfSome result (IsFirstMissing initial.now automaton.now images.now) }
    ensures none { IfNone result (IsContained initial.now automaton.now images.now) }
    ensures sizes { map (λ (set : Marked). set.size) sets.new ≡ map (λ (set : Marked). set.size) sets.old }
{
    if let Some(place) = first_trans(sets, initial.trans(), automaton, images) {
        return Some(Missing::Transition(place));
    }
    if let Some(place) = first_eps(sets, initial.eps(), automaton, images) {
        return Some(Missing::Epsilon(place));
    }
    if let Some(state) = first_final(initial.finals(), automaton, images) {
        return Some(Missing::Final(state));
    }
    None
}

/// The place of the first transition that is no run of the automaton.
fn first_trans(
    sets: &mut [Marks],
    trans: &[Trans],
    automaton: &Prepared,
    images: &[u32],
) -> Option<u32>
    requires arguments { All (λ (t : Transition). length t.args < length sets.old) trans.now }
    requires room { All (HasRoom automaton.now) sets.old }
    requires few { length trans.now < 2 ^ 32 }
    ensures some { IfSome result (λ place. FailsFirstAt (TransHolds automaton.now images.now) trans.now place) }
    ensures none { IfNone result (All (TransHolds automaton.now images.now) trans.now) }
    ensures sizes { map (λ (set : Marked). set.size) sets.new ≡ map (λ (set : Marked). set.size) sets.old }
{
    let mut place = 0;
    for t in trans {
        if !trans_holds(sets, t, automaton, images) {
            return Some(place);
        }
        place += 1;
    }
    None
}

/// The place of the first epsilon transition that is no run of the automaton.
fn first_eps(
    sets: &mut [Marks],
    eps: &[(u32, u32)],
    automaton: &Prepared,
    images: &[u32],
) -> Option<u32>
    requires some { 0 < length sets.old }
    requires room { All (HasRoom automaton.now) sets.old }
    requires few { length eps.now < 2 ^ 32 }
    ensures some { IfSome result (λ place. FailsFirstAt (EpsHolds automaton.now images.now) eps.now place) }
    ensures none { IfNone result (All (EpsHolds automaton.now images.now) eps.now) }
    ensures sizes { map (λ (set : Marked). set.size) sets.new ≡ map (λ (set : Marked). set.size) sets.old }
{
    let mut place = 0;
    for (from, to) in eps {
        if !eps_holds(&mut sets[0], *from, *to, automaton, images) {
            return Some(place);
        }
        place += 1;
    }
    None
}

/// The first of the states that goes to no final state.
fn first_final(finals: &[u32], automaton: &Prepared, images: &[u32]) -> Option<u32>
    ensures some { IfSome result (λ state. FailsFirst (FinalHolds automaton.now images.now) finals.now state) }
    ensures none { IfNone result (All (FinalHolds automaton.now images.now) finals.now) }
{
    for state in finals {
        if !final_holds(*state, automaton, images) {
            return Some(*state);
        }
    }
    None
}

/// Whether the transition, with its states mapped, is a run of the automaton.
fn trans_holds(sets: &mut [Marks], t: &Trans, automaton: &Prepared, images: &[u32]) -> bool
    requires arguments { length t.now.args < length sets.old }
    requires room { All (HasRoom automaton.now) sets.old }
    ensures holds { IsTrue result ↔ TransHolds automaton.now images.now t.now }
    ensures sizes { map (λ (set : Marked). set.size) sets.new ≡ map (λ (set : Marked). set.size) sets.old }
{
    let args = t.args.as_slice();
    let Some((first, rest)) = sets.split_first_mut() else {
        return false;
    };
    for (place, state) in args.iter().enumerate() {
        run_state(&mut rest[place], automaton, image(images, *state));
    }
    run_app(first, &rest[..args.len()], automaton, t.sym);
    first.contains(image(images, t.to))
}

/// Whether the epsilon transition, with its states mapped, is a run of the automaton.
fn eps_holds(set: &mut Marks, from: u32, to: u32, automaton: &Prepared, images: &[u32]) -> bool
    requires { HasRoom automaton.now set.old }
    ensures holds { IsTrue result ↔ EpsHolds automaton.now images.now (from, to) }
    ensures size { set.new.size ≡ set.old.size }
{
    run_state(set, automaton, image(images, from));
    set.contains(image(images, to))
}

/// Whether the state goes to a final state.
fn final_holds(state: u32, automaton: &Prepared, images: &[u32]) -> bool
    ensures { IsTrue result ↔ FinalHolds automaton.now images.now state }
{
    automaton
        .finals()
        .binary_search(&image(images, state))
        .is_ok()
}

/// The state that the state goes to, and 0 where there is none.
fn image(images: &[u32], state: u32) -> u32
    ensures { result ≡ slice_index images.now state }
{
    images.get(state as usize).copied().unwrap_or(0)
}
