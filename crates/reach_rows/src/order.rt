//! An order in which few passes over edges are enough: what a number leads to stands before it where that can be. Nothing rests
//! on the order but the time that is taken.
use std::alloc::{AllocError, Global};

/// Numbers below a bound, ordered by a walk along edges.
#[derive(Drop)]
pub(crate) struct Order {
    size: usize,
    numbers: Vec<u32>,
    seen: Vec<bool>,
    // The numbers on the way to the present one, each with the place of its next edge.
    way: Vec<(u32, usize)>,
}

impl Order {
    /// It takes all memory that it ever takes.
    pub(crate) fn new(alloc: Global, size: usize) -> Result<Order, AllocError> {
        Ok(Order {
            size,
            numbers: Vec::with_capacity(alloc, size)?,
            seen: vec![in alloc; false; size]?,
            way: Vec::with_capacity(alloc, size)?,
        })
    }

    /// The numbers in this order.
    pub(crate) fn as_slice(&self) -> &[u32] {
        self.numbers.as_slice()
    }

    /// Puts the numbers behind what the edges lead to from them, which are sorted.
    pub(crate) fn arrange(&mut self, edges: &[(u32, u32)]) {
        self.numbers.clear();
        self.way.clear();
        self.seen.fill(false);
        for (from, _to) in edges {
            self.enter(*from, edges);
            for _ in 0..u64::MAX {
                if !self.step(edges) {
                    break;
                }
            }
        }
    }

    // Goes on from the number, unless it was met before.
    fn enter(&mut self, number: u32, edges: &[(u32, u32)]) {
        if let Some(seen) = self.seen.get_mut(number as usize) {
            if !*seen {
                *seen = true;
                if self.way.len() < self.size {
                    let start = edges.partition_point(|edge| edge.0 < number);
                    let _ = self.way.push((number, start));
                }
            }
        }
    }

    // Goes on by one edge, or one number back. Whether there was a way to go.
    fn step(&mut self, edges: &[(u32, u32)]) -> bool {
        let Some((number, place)) = self.way.pop() else {
            return false;
        };
        if let Some((from, to)) = edges.get(place).copied() {
            if from == number {
                let _ = self.way.push((number, place + 1));
                self.enter(to, edges);
                return true;
            }
        }
        if self.numbers.len() < self.size {
            let _ = self.numbers.push(number);
        }
        true
    }
}
