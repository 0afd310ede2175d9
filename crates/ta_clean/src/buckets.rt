//! Places of a table in buckets, one bucket for each number, so that a place of least number is taken first.
ghost use Rattle.std.specs.Prelude.{◌≡◌, ◌≤◌, ℕ, true, false, IfSome, IfNone};
ghost use Rattle.ta_clean.specs.Sizes.{waits_in};

use crate::sizes::{Made, TOO_LARGE};
use std::alloc::{AllocError, Global};

/// Places that wait, each in the bucket of the number that it had when it was put in, and maybe others that waited once.
#[derive(Drop)]
pub(crate) struct Buckets {
    places: Vec<Vec<usize>>,
    // No bucket before this one has a place.
    from: usize,
}

impl Buckets {
    /// A bucket for each number up to 1,024, none with a place. The only error is running out of memory.
    pub(crate) fn new(alloc: Global) -> Result<Buckets, AllocError> {
        let mut places = Vec::with_capacity(alloc, TOO_LARGE as usize)?;
        for _ in 0..TOO_LARGE {
            places.push(Vec::new(alloc))?;
        }
        Ok(Buckets { places, from: 0 })
    }

    /// Puts the place into the bucket of the number, if there is memory for it.
    pub(crate) fn put(&mut self, size: u32, place: usize) {
        let number = size as usize;
        if number < self.from {
            self.from = number;
        }
        if let Some(bucket) = self.places.get_mut(number) {
            let _ = bucket.push(place);
        }
    }

    /// Takes out a place that waits, from the first bucket that has one, and those before it that don't wait.
    pub(crate) fn take(&mut self, made: &[Made]) -> Option<usize>
        ensures { IfSome result (λ place. waits_in made.now place ≡ true) }
    {
        for number in self.from..self.places.len() {
            self.from = number;
            if let Some(bucket) = self.places.get_mut(number) {
                if let Some(place) = last_waiting(bucket, made) {
                    return Some(place);
                }
            }
        }
        None
    }
}

/// The last of the places that waits. It and those behind it are taken off.
fn last_waiting(places: &mut Vec<usize>, made: &[Made]) -> Option<usize>
    ensures { IfSome result (λ place. waits_in made.now place ≡ true) }
{
    for _ in 0..places.len() {
        if let Some(place) = places.pop() {
            if waits(made, place) {
                return Some(place);
            }
        }
    }
    None
}

/// The first place that waits.
pub(crate) fn first_waiting(made: &[Made]) -> Option<usize>
    ensures some { IfSome result (λ place. waits_in made.now place ≡ true) }
    ensures none { IfNone result ((place : ℕ) → waits_in made.now place ≡ false) }
{
    for place in 0..made.len() {
        if waits(made, place) {
            return Some(place);
        }
    }
    None
}

/// Whether the place waits.
fn waits(made: &[Made], place: usize) -> bool
    ensures { result ≡ waits_in made.now place }
{
    if place < made.len() {
        return made[place].waits;
    }
    false
}
