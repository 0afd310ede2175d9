//! A table of marks for pairs of states.
ghost use Rattle.std.specs.Prelude.{◌≡◌, ◌≢◌, ◌⊎◌, ◌↔◌, ◌≤◌, ◌+◌, ◌*◌, ◌<◌, ℕ, IsTrue, IfOk, IfSome, IfNone, Some, slice_get};
ghost use Rattle.ta_core.specs.Limits.{max_states};
ghost use Rattle.ta_clean.specs.Tables.{IsTable, IsIn, IsMarked, IsTaken, Keeps, TakesOne, IsCleared};

use std::alloc::{AllocError, Global};
use std::marker::Model;

/// The most places that are remembered as waiting. Others that wait are looked for.
const MAX_REMEMBERED: usize = 65536;

/// How far a pair has come.
#[derive(Clone, Copy, PartialEq, Eq)]
pub(crate) enum Mark {
    /// It isn't marked.
    Unmarked,
    /// It is marked, and what it leads to hasn't been looked at.
    Waiting,
    /// It is marked, and what it leads to has been looked at.
    Taken,
}

/// A mark for each pair of a number below the height and one below the width. Contracts see the marks.
#[derive(Drop)]
pub(crate) struct Grid {
    height: usize,
    width: usize,
    marks: Vec<Mark>,
    // Some of the places that wait, and maybe others that waited once.
    remembered: Vec<usize>,
    // The place from which the next one that waits is looked for.
    from: usize,
}

impl Model for Grid {
    ghost use Rattle.ta_clean.specs.Tables.{Table, IsTable};

    ghost Value = { Table };

    ghost view = { λ grid. record { height = grid.height; width = grid.width; marks = grid.marks.items } };

    ghost invariant = { λ grid. IsTable (record { height = grid.height; width = grid.width; marks = grid.marks.items }) };
}

impl Grid {
    /// A table of these bounds in which nothing is marked. The only error is running out of memory.
    pub(crate) fn new(alloc: Global, height: usize, width: usize) -> Result<Grid, AllocError>
        requires low { height ≤ max_states }
        requires narrow { width ≤ max_states }
        ensures { IfOk result (λ grid. (grid.height ≡ height) × (grid.width ≡ width)) }
    {
        let marks = vec![in alloc; Mark::Unmarked; height * width]?;
        let remembered = Vec::with_capacity(alloc, MAX_REMEMBERED)?;
        Ok(Grid {
            height,
            width,
            marks,
            remembered,
            from: 0,
        })
    }

    /// Whether both bounds are at least these.
    pub(crate) fn has_bounds(&self, height: usize, width: usize) -> bool
        ensures { IsTrue result ↔ ((height ≤ self.now.height) × (width ≤ self.now.width)) }
    {
        height <= self.height && width <= self.width
    }

    /// Takes all marks off.
    pub(crate) fn clear(&mut self)
        ensures { IsCleared self.old self.new }
    {
        self.marks.fill(Mark::Unmarked);
        self.remembered.clear();
        self.from = 0;
    }

    /// Whether the pair is marked.
    pub(crate) fn contains(&self, first: u32, second: u32) -> bool
        ensures { IsTrue result ↔ IsMarked self.now (first, second) }
    {
        if first as usize >= self.height || second as usize >= self.width {
            return false;
        }
        is_marked(self.marks[first as usize * self.width + second as usize])
    }

    /// Marks the pair. It takes no memory.
    pub(crate) fn mark(&mut self, first: u32, second: u32)
        requires { IsIn self.old (first, second) }
        ensures members { (next : ℕ × ℕ) → IsMarked self.new next → IsMarked self.old next ⊎ (next ≡ (first, second)) }
        ensures marked { IsMarked self.new (first, second) }
        ensures kept { Keeps self.old self.new }
    {
        let place = first as usize * self.width + second as usize;
        if !is_marked(self.marks[place]) {
            self.marks[place] = Mark::Waiting;
            self.remember(place);
        }
    }

    /// Remembers that the place waits, if there is room. It takes no memory.
    fn remember(&mut self, place: usize)
        ensures { self.new ≡ self.old }
    {
        if self.remembered.len() < self.remembered.capacity() {
            self.remembered.push(place).unwrap();
        }
    }

    /// Takes a pair that waits, if one does. It takes no memory.
    pub(crate) fn take(&mut self) -> Option<(u32, u32)>
        ensures some { IfSome result (TakesOne self.old self.new) }
        ensures none { IfNone result ((pair : ℕ × ℕ) → IsMarked self.new pair → IsTaken self.new pair) }
        ensures same { IfNone result (self.new ≡ self.old) }
    {
        let Some(place) = self.next_waiting() else {
            return None;
        };
        self.marks[place] = Mark::Taken;
        Some(((place / self.width) as u32, (place % self.width) as u32))
    }

    /// A place that waits, if one does: one that is remembered, or the next one that is found.
    fn next_waiting(&mut self) -> Option<usize>
        ensures some { IfSome result (λ place. slice_get self.old.marks place ≡ Some Mark.Waiting) }
        ensures none { IfNone result ((place : ℕ) → slice_get self.old.marks place ≢ Some Mark.Waiting) }
        ensures same { self.new ≡ self.old }
        ensures table { IsTable self.old }
    {
        if let Some(place) = last_waiting(&mut self.remembered, self.marks.as_slice()) {
            return Some(place);
        }
        if let Some(place) = waiting_from(self.marks.as_slice(), self.from) {
            self.from = place;
            return Some(place);
        }
        self.from = 0;
        waiting_from(self.marks.as_slice(), 0)
    }
}

/// The last of the remembered places that waits. It and those behind it are forgotten.
fn last_waiting(remembered: &mut Vec<usize>, marks: &[Mark]) -> Option<usize>
    ensures { IfSome result (λ place. slice_get marks.now place ≡ Some Mark.Waiting) }
{
    for _ in 0..remembered.len() {
        if let Some(place) = remembered.pop() {
            if waits(marks, place) {
                return Some(place);
            }
        }
    }
    None
}

/// Whether the mark is that of a pair that is marked.
fn is_marked(mark: Mark) -> bool
    ensures { IsTrue result ↔ (mark ≢ Mark.Unmarked) }
{
    match mark {
        Mark::Unmarked => false,
        Mark::Waiting => true,
        Mark::Taken => true,
    }
}

/// Whether the mark at the place is that of a pair that waits.
fn waits(marks: &[Mark], place: usize) -> bool
    ensures { IsTrue result ↔ (slice_get marks.now place ≡ Some Mark.Waiting) }
{
    match marks.get(place) {
        Some(Mark::Waiting) => true,
        _ => false,
    }
}

/// The first place from this one on that waits.
fn waiting_from(marks: &[Mark], start: usize) -> Option<usize>
    ensures some { IfSome result (λ place. slice_get marks.now place ≡ Some Mark.Waiting) }
    ensures none { IfNone result ((place : ℕ) → start ≤ place → slice_get marks.now place ≢ Some Mark.Waiting) }
{
    for place in start..marks.len() {
        if waits(marks, place) {
            return Some(place);
        }
    }
    None
}
