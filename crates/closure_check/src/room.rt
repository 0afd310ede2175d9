//! The memory of a check, which is taken before it.
ghost use Rattle.std.specs.Prelude.{◌≡◌, ◌↔◌, ◌<◌, ◌≤◌, ◌^◌, ℕ, length, All, Contains, IsTrue, IfOk, IfSome, IfNone};
ghost use Rattle.ta_core.specs.Closure.{Closed, IsFirstOpen};
ghost use Rattle.closure_check.specs.Answers.{IsFirstMissing};
ghost use Rattle.ta_core.specs.Acceptance.{IsContained};
ghost use Rattle.ta_core.specs.declared.trans.Trans.{Trans as Transition};
ghost use Rattle.ta_clean.specs.Meeting.{FinalsMeet, IsLeastMeeting};
ghost use Rattle.ta_clean.specs.Uses.{places_of};
ghost use Rattle.closure_check.specs.Rooms.{Fits, HasTables, sets_of_rules};
ghost use Rattle.closure_check.specs.Marking.{Marked, LeadsOn, LeadsBack};

use crate::answer::Missing;
use crate::closing::first_open;
use crate::containing::first_missing;
use crate::fitting::{arguments_fit, is_countable, rules_fit, sets_for};
use crate::marks::Marks;
use crate::prepared::Prepared;
use reach_rows::Reach;
use std::alloc::{AllocError, Global};
use std::marker::Model;
use ta_clean::{Meetings, least_meeting};
use ta_core::{Automaton, Map, Spec};
use trs_rules::{Pair, Rule};

/// The memory of a check. Contracts see how much there is of each kind.
#[derive(Drop)]
pub struct Room {
    alloc: Global,
    sets: Vec<Marks>,
    states: usize,
    forward: Reach,
    back: Reach,
    meetings: Meetings,
}

impl Model for Room {
    ghost use Rattle.std.specs.Prelude.{◌≡◌, length, All};
    ghost use Rattle.closure_check.specs.Marking.{Marked};
    ghost use Rattle.closure_check.specs.Rooms.{Sizes};

    ghost Value = { Sizes };

    ghost view = { λ room. record {
      sets = length room.sets.items;
      states = room.states;
      reached = length room.forward.rows;
      reached_back = length room.back.rows;
      turned = room.back.edges;
      paired_states = room.meetings.table.height;
      places = room.meetings.first_uses;
      forbidden_states = room.meetings.table.width;
      forbidden_places = room.meetings.second_uses;
    } };

    ghost invariant = { λ room. All (λ (set : Marked). set.size ≡ room.states) room.sets.items };
}

impl Room {
    /// All memory that the check of this specification and automaton takes. The only error is running out of memory.
    pub fn new(alloc: Global, spec: &Spec, automaton: &Automaton) -> Result<Room, AllocError>
        ensures { IfOk result (λ room. Fits room spec.now automaton.now) }
    {
        let room = Room::sized(alloc, spec, automaton)?;
        if !room.fits(spec, automaton) {
            return Err(AllocError);
        }
        Ok(room)
    }

    // The memory by the sizes of the specification and the automaton. That it is enough is yet to be tested.
    fn sized(alloc: Global, spec: &Spec, automaton: &Automaton) -> Result<Room, AllocError>
        ensures { IfOk result (λ room. room.states ≡ automaton.now.next) }
    {
        let count = sets_for(spec.rules.as_slice(), spec.initial.trans());
        let states = automaton.next() as usize;
        let sets = empty_sets(alloc, count, states)?;
        let (forward, back) = tables(alloc, automaton)?;
        let meetings = Meetings::new(alloc, automaton, &spec.forbidden)?;
        Ok(Room {
            alloc,
            sets,
            states,
            forward,
            back,
            meetings,
        })
    }

    /// Whether there is enough room for the check of this specification and automaton. It takes no memory.
    pub fn fits(&self, spec: &Spec, automaton: &Automaton) -> bool
        ensures { IsTrue result ↔ Fits self.now spec.now automaton.now }
    {
        let sets = self.sets.len();
        if sets == 0 {
            return false;
        }
        if !is_countable(spec) {
            return false;
        }
        if !rules_fit(spec.rules.as_slice(), sets) {
            return false;
        }
        if !arguments_fit(spec.initial.trans(), sets) {
            return false;
        }
        if (automaton.next() as usize) > self.states {
            return false;
        }
        if !self.has_tables(automaton) {
            return false;
        }
        self.meetings.fits(automaton, &spec.forbidden)
    }

    // Whether the tables of what epsilon transitions lead to are large enough.
    fn has_tables(&self, automaton: &Automaton) -> bool
        ensures { IsTrue result ↔ HasTables self.now automaton.now }
    {
        let next = automaton.next() as usize;
        if automaton.eps().len() > self.back.most_turned() {
            return false;
        }
        if automaton.eps().is_empty() {
            return true;
        }
        next <= self.forward.len() && next <= self.back.len()
    }

    /// The first open pair of the rules. It takes no memory, and leaves the room as it was for all.
    pub(crate) fn first_open(&mut self, automaton: &Automaton, rules: &[Rule]) -> Option<Pair>
        requires few { length rules.now < 2 ^ 32 }
        requires sets { sets_of_rules rules.now ≤ self.old.sets }
        requires states { automaton.now.next ≤ self.old.states }
        requires tables { HasTables self.old automaton.now }
        ensures some { IfSome result (IsFirstOpen automaton.now rules.now) }
        ensures none { IfNone result (Closed automaton.now rules.now) }
        ensures kept { self.new ≡ self.old }
    {
        fill_tables(&mut self.forward, &mut self.back, automaton);
        let prepared = Prepared::new(automaton, &self.forward, &self.back);
        first_open(self.alloc, self.sets.as_mut_slice(), &prepared, rules)
    }

    /// The first part of the initial automaton that the automaton does not contain by the map. It takes no memory, and leaves
    /// the room as it was for all.
    pub(crate) fn first_missing(
        &mut self,
        initial: &Automaton,
        automaton: &Automaton,
        map: &Map,
    ) -> Option<Missing>
        requires arguments { All (λ (t : Transition). length t.args < self.old.sets) initial.now.trans }
        requires some { 0 < self.old.sets }
        requires room { automaton.now.next ≤ self.old.states }
        requires tables { HasTables self.old automaton.now }
        requires trans { length initial.now.trans < 2 ^ 32 }
        requires eps { length initial.now.eps < 2 ^ 32 }
        requires map { initial.now.next ≤ length map.now }
        requires states { All (Contains automaton.now.states) map.now }
        ensures some { IfSome result (IsFirstMissing initial.now automaton.now map.now) }
        ensures none { IfNone result (IsContained initial.now automaton.now map.now) }
        ensures kept { self.new ≡ self.old }
    {
        fill_tables(&mut self.forward, &mut self.back, automaton);
        let prepared = Prepared::new(automaton, &self.forward, &self.back);
        first_missing(self.sets.as_mut_slice(), initial, &prepared, map.as_slice())
    }
    /// The least pair of a final state of each automaton to both of which one ground term runs. It takes no memory, and leaves
    /// the room as it was for all.
    pub(crate) fn least_meeting(
        &mut self,
        automaton: &Automaton,
        forbidden: &Automaton,
    ) -> Option<(u32, u32)>
        requires paired { automaton.now.next ≤ self.old.paired_states }
        requires places { places_of automaton.now.trans ≤ self.old.places }
        requires states { forbidden.now.next ≤ self.old.forbidden_states }
        requires forbidden_places { places_of forbidden.now.trans ≤ self.old.forbidden_places }
        ensures some { IfSome result (λ finals. IsLeastMeeting automaton.now forbidden.now finals.0 finals.1) }
        ensures none { IfNone result ((p q : ℕ) → FinalsMeet automaton.now forbidden.now p q → ⊥) }
        ensures kept { self.new ≡ self.old }
    {
        least_meeting(&mut self.meetings, automaton, forbidden)
    }
}

// Sets of states below the bound, so many of them, and empty. The contract says the bound of each alone.
fn empty_sets(alloc: Global, count: usize, bound: usize) -> Result<Vec<Marks>, AllocError>
    requires { bound < 2 ^ 32 }
    ensures { IfOk result (λ sets. All (λ (set : Marked). set.size ≡ bound) sets.items) }
{
    let mut sets = Vec::new(alloc);
    for _ in 0..count {
        sets.push(Marks::new(alloc, bound)?)?;
    }
    Ok(sets)
}

// The tables of what the automaton's epsilon transitions lead to, forwards and back. Where there are none, nothing is needed.
fn tables(alloc: Global, automaton: &Automaton) -> Result<(Reach, Reach), AllocError> {
    let eps = automaton.eps().len();
    let states = if eps == 0 {
        0
    } else {
        automaton.next() as usize
    };
    let forward = Reach::new(alloc, states, 0)?;
    let back = Reach::new(alloc, states, eps)?;
    Ok((forward, back))
}

// Finds what the automaton's epsilon transitions lead to, if it has some.
fn fill_tables(forward: &mut Reach, back: &mut Reach, automaton: &Automaton)
    requires long { ¬ (length automaton.now.eps ≡ 0) → automaton.now.next ≤ length forward.old.rows }
    requires long_back { ¬ (length automaton.now.eps ≡ 0) → automaton.now.next ≤ length back.old.rows }
    requires turned { length automaton.now.eps ≤ back.old.edges }
    ensures forward { ¬ (length automaton.now.eps ≡ 0) → LeadsOn automaton.now forward.new }
    ensures back { ¬ (length automaton.now.eps ≡ 0) → LeadsBack automaton.now back.new }
    ensures rows { length forward.new.rows ≡ length forward.old.rows }
    ensures rows_back { length back.new.rows ≡ length back.old.rows }
    ensures edges { back.new.edges ≡ back.old.edges }
{
    let eps = automaton.eps();
    if eps.is_empty() {
        return;
    }
    forward.fill(eps);
    back.fill_back(eps);
}
