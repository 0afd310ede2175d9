//! That each call which takes memory succeeds with ample memory, on lists worked out by hand.
ghost use Rattle.std.specs.Prelude.{All, Contains, IsTrue};
ghost use Rattle.ta_core.specs.TreeAutomaton.{IsTransOf, IsEpsOf};

use ranked_terms::{Config, Seq, Term};
use std::alloc::{AllocError, Global};
use std::test::Fail;
use ta_core::{Args, Automaton, Map, Options, StateError, StateSet, Trans};

// Whether the number is a state, and whether each of the numbers is.
fn is_state(states: &[u32], number: u32) -> bool
    ensures { IsTrue result → Contains states.now number }
{
    states.contains(&number)
}

fn are_states(states: &[u32], numbers: &[u32]) -> bool
    ensures { IsTrue result → All (Contains states.now) numbers.now }
{
    for number in numbers {
        if !is_state(states, *number) {
            return false;
        }
    }
    true
}

// Whether the transition's states are states, and whether those of each of the transitions are.
fn is_trans_of(states: &[u32], t: &Trans) -> bool
    ensures { IsTrue result → IsTransOf states.now t.now }
{
    are_states(states, t.args.as_slice()) && is_state(states, t.to)
}

fn are_trans_of(states: &[u32], all: &[Trans]) -> bool
    ensures { IsTrue result → All (IsTransOf states.now) all.now }
{
    for t in all {
        if !is_trans_of(states, t) {
            return false;
        }
    }
    true
}

// Whether the epsilon transition leads from a state to another one.
fn is_eps_of(states: &[u32], from: u32, to: u32) -> bool
    ensures { IsTrue result → IsEpsOf states.now (from, to) }
{
    is_state(states, from) && is_state(states, to) && from != to
}

// The calls that ask for states, each after a test that they are there.
fn add_trans(automaton: &mut Automaton, sym: u32, args: &[u32], to: u32) -> Result<bool, Fail> {
    if are_states(automaton.states(), args) && is_state(automaton.states(), to) {
        return Ok(automaton.add_trans(sym, args, to)?);
    }
    Err("no such state".into())
}

fn add_eps(automaton: &mut Automaton, from: u32, to: u32) -> Result<bool, Fail> {
    if is_state(automaton.states(), from) && is_state(automaton.states(), to) {
        return Ok(automaton.add_eps(from, to)?);
    }
    Err("no such state".into())
}

fn set_final(automaton: &mut Automaton, q: u32) -> Result<bool, Fail> {
    if is_state(automaton.states(), q) {
        return Ok(automaton.set_final(q)?);
    }
    Err("no such state".into())
}

fn add_all_trans(automaton: &mut Automaton, more: Seq<Trans>) -> Result<(), Fail> {
    if are_trans_of(automaton.states(), more.as_slice()) {
        return Ok(automaton.add_all_trans(more)?);
    }
    Err("no such state".into())
}

fn add_all_eps(automaton: &mut Automaton, alloc: Global, from: u32, to: u32) -> Result<(), Fail> {
    if is_eps_of(automaton.states(), from, to) {
        return Ok(automaton.add_all_eps(Seq::from_slice(alloc, &[(from, to), (from, to)])?)?);
    }
    Err("no such state".into())
}

fn set_all_final(automaton: &mut Automaton, alloc: Global, more: &[u32]) -> Result<(), Fail> {
    if are_states(automaton.states(), more) {
        return Ok(automaton.set_all_final(Seq::from_slice(alloc, more)?)?);
    }
    Err("no such state".into())
}

// The automaton's lists as a text.
fn lists(alloc: Global, automaton: &Automaton) -> Result<String, Fail> {
    let mut text = format!(in alloc;
        "{} {:?} {:?} {:?}",
        automaton.next(),
        automaton.states(),
        automaton.finals(),
        automaton.eps()
    )?;
    for t in automaton.trans() {
        text.push_str(&format!(in alloc; " {}{:?}->{}", t.sym, t.args.as_slice(), t.to)?)?;
    }
    Ok(text)
}

const TRANS: &[(u32, &[u32], u32)] = &[(2, &[1, 0], 2), (1, &[5], 5), (0, &[], 0), (1, &[0], 1)];

const EPS: &[(u32, u32)] = &[(3, 4), (2, 3)];

// No ground term runs to 5.
const LISTS: &str = "6 [0, 1, 2, 3, 4, 5] [4] [(2, 3), (3, 4)] 0[]->0 1[0]->1 1[5]->5 2[1, 0]->2";

// The states 0 to 5.
fn six_states(alloc: Global) -> Result<Automaton, StateError> {
    let mut automaton = Automaton::new(alloc);
    for _ in 0..6 {
        let _ = automaton.add_state()?;
    }
    Ok(automaton)
}

// The automaton with these lists, made member by member; the second time nothing is new.
fn by_members(alloc: Global) -> Result<Automaton, Fail> {
    let mut automaton = six_states(alloc).ok().ok_or("no state")?;
    for new in [true, false] {
        let mut all = set_final(&mut automaton, 4)? == new;
        for (sym, args, to) in TRANS {
            all &= add_trans(&mut automaton, *sym, args, *to)? == new;
        }
        for (from, to) in EPS {
            all &= add_eps(&mut automaton, *from, *to)? == new;
        }
        if !all {
            return Err("an answer is wrong".into());
        }
    }
    Ok(automaton)
}

fn with_six_states(alloc: Global) -> Result<Automaton, AllocError> {
    Automaton::with_states(alloc, 6, &[0, 1, 2, 3, 4, 5])
}

// The transitions, each of them twice.
fn each_twice(alloc: Global) -> Result<Seq<Trans>, AllocError> {
    let mut all = Seq::new(alloc);
    for _ in 0..2 {
        for (sym, args, to) in TRANS {
            let args = Args::from_slice(alloc, args)?;
            let (sym, to) = (*sym, *to);
            all.push(Trans { sym, args, to })?;
        }
    }
    Ok(all)
}

// The same, made by lists that have each member twice.
fn by_lists(alloc: Global) -> Result<Automaton, Fail> {
    let mut automaton = with_six_states(alloc)?;
    add_all_trans(&mut automaton, each_twice(alloc)?)?;
    for (from, to) in EPS {
        add_all_eps(&mut automaton, alloc, *from, *to)?;
    }
    set_all_final(&mut automaton, alloc, &[4, 4])?;
    Ok(automaton)
}

// Whether the automaton has the lists.
fn has_lists(alloc: Global, automaton: &Automaton) -> Result<bool, Fail> {
    let found = lists(alloc, automaton)?;
    Ok(found.as_str() == LISTS)
}

// Whether the automaton that is made member by member has them, and its copy.
fn are_made_by_members(alloc: Global) -> Result<bool, Fail> {
    let automaton = by_members(alloc)?;
    Ok(has_lists(alloc, &automaton)? && is_copied(alloc, &automaton)?)
}

// Whether the automaton's copy has the lists.
fn is_copied(alloc: Global, automaton: &Automaton) -> Result<bool, Fail> {
    let copy = automaton.copy()?;
    has_lists(alloc, &copy)
}

// Whether the automaton that is made by lists has them.
fn are_made_by_lists(alloc: Global) -> Result<bool, Fail> {
    let automaton = by_lists(alloc)?;
    has_lists(alloc, &automaton)
}

#[test]
fn automata_are_made_and_copied(rt: HostRuntime) -> Result<(), Fail> {
    assert!(rt; are_made_by_members(rt.alloc())?);
    assert!(rt; are_made_by_lists(rt.alloc())?);
    Ok(())
}

// The terms `0`, `1(arg)` and `2(left, right)`, and the configurations.
fn constant(alloc: Global) -> Term {
    Term {
        sym: 0,
        args: Seq::new(alloc),
    }
}

fn unary(alloc: Global, arg: Term) -> Result<Term, AllocError> {
    let mut args = Seq::new(alloc);
    args.push(arg)?;
    Ok(Term { sym: 1, args })
}

fn binary(alloc: Global, left: Term, right: Term) -> Result<Term, AllocError> {
    let mut args = Seq::new(alloc);
    args.push(left)?;
    args.push(right)?;
    Ok(Term { sym: 2, args })
}

// The term `1(0)`.
fn inner(alloc: Global) -> Result<Term, AllocError> {
    unary(alloc, constant(alloc))
}

// The term `2(1(0), 0)`.
fn whole(alloc: Global) -> Result<Term, AllocError> {
    let left = inner(alloc)?;
    binary(alloc, left, constant(alloc))
}

// Whether the automaton accepts the term.
fn accepts(alloc: Global, term: &Term) -> Result<bool, Fail> {
    let automaton = by_members(alloc)?;
    Ok(automaton.accepts(term)?)
}

#[test]
fn accepts_what_runs_to_a_final_state(rt: HostRuntime) -> Result<(), Fail> {
    assert!(rt; !accepts(rt.alloc(), &inner(rt.alloc())?)?);
    assert!(rt; accepts(rt.alloc(), &whole(rt.alloc())?)?);
    Ok(())
}

// The configuration `2(1(0), from)`.
fn nested(alloc: Global, from: Config) -> Result<Config, AllocError> {
    let mut inner = Seq::new(alloc);
    inner.push(Config::App(0, Seq::new(alloc)))?;
    let mut args = Seq::new(alloc);
    args.push(Config::App(1, inner))?;
    args.push(from)?;
    Ok(Config::App(2, args))
}

// Whether these are the states to which the configuration runs.
fn is_run(automaton: &Automaton, config: &Config, all: &[u32]) -> Result<bool, AllocError> {
    Ok(automaton.run_states(config)?.as_slice() == all)
}

const CLOSURES: &[(u32, &[u32])] = &[(2, &[2, 3, 4]), (0, &[0]), (9, &[])];

// Whether these are the states that epsilon transitions lead to from the state.
fn is_closure(automaton: &Automaton, state: u32, all: &[u32]) -> Result<bool, AllocError> {
    Ok(automaton.eps_closure(state)?.as_slice() == all)
}

// Whether each closure of the table is the one of its state, and the states to which the state runs.
fn are_closures(alloc: Global) -> Result<bool, Fail> {
    let automaton = by_members(alloc)?;
    for (state, all) in CLOSURES {
        let is_run = is_run(&automaton, &Config::State(*state), all)?;
        if !is_run || !is_closure(&automaton, *state, all)? {
            return Ok(false);
        }
    }
    Ok(true)
}

// Whether these are the states to which the configuration `2(1(0), state)` runs.
fn runs_to(alloc: Global, state: u32, all: &[u32]) -> Result<bool, Fail> {
    let automaton = by_members(alloc)?;
    let config = nested(alloc, Config::State(state))?;
    Ok(is_run(&automaton, &config, all)?)
}

#[test]
fn runs_along_epsilon_transitions(rt: HostRuntime) -> Result<(), Fail> {
    assert!(rt; are_closures(rt.alloc())?);
    assert!(rt; runs_to(rt.alloc(), 0, &[2, 3, 4])?);
    assert!(rt; runs_to(rt.alloc(), 1, &[])?);
    Ok(())
}

// The set of 1, 4 and 7.
fn set(alloc: Global) -> Result<StateSet, AllocError> {
    StateSet::from_slice(alloc, &[1, 4, 7])
}

// Whether these are the members of that set.
fn is_set(alloc: Global, states: &[u32]) -> Result<bool, AllocError> {
    Ok(set(alloc)?.as_slice() == states)
}

// Whether a copied map has the images that it is made of.
fn is_map(alloc: Global, images: &[u32]) -> Result<bool, AllocError> {
    let map = Map::from_slice(alloc, images)?;
    Ok(map.copy(alloc)?.as_slice() == images)
}

#[test]
fn sets_maps_and_options_are_their_members(rt: HostRuntime) -> Result<(), Fail> {
    assert!(rt; is_set(rt.alloc(), &[1, 4, 7])?);
    assert!(rt; is_map(rt.alloc(), &[3, 0, 3])?);
    let o = Options::default();
    let numbers = [o.rounds, o.steps, o.height, o.terms, o.pairs, o.states];
    assert_eq!(rt; numbers, [20, 5, 4, 5000, 100000, 4096]);
    Ok(())
}
