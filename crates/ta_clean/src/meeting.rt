//! The pairs of states of two automata to which one ground term runs, one state in each automaton.
//!
//! They are the reachable states of the product automaton (TATA, section 1.3). The product is never built: its transitions
//! are pairs of transitions of one symbol, and an index of both automata finds those that a pair of states leads on to.
ghost use Rattle.std.specs.Prelude.{◌≡◌, ◌↔◌, ℕ, IsTrue, IfOk};
ghost use Rattle.ta_core.specs.Meeting.{Meets};
ghost use Rattle.ta_clean.specs.Tables.{IsMarked};
ghost use Rattle.ta_clean.specs.Products.{HasRoom};

pub(crate) mod grid;
pub(crate) mod product;
pub(crate) mod uses;

use grid::Grid;
use product::Product;
use std::alloc::{AllocError, Global};
use std::marker::Model;
use ta_core::Automaton;
use uses::Uses;

/// The memory in which pairs of states are marked: one byte a pair, and the uses of both automata's states as arguments.
/// Contracts see the marks, and how much memory there is.
#[derive(Drop)]
pub struct Meetings {
    grid: Grid,
    first_uses: Uses,
    second_uses: Uses,
}

impl Model for Meetings {
    ghost use Rattle.ta_clean.specs.Products.{PairRoom};

    ghost Value = { PairRoom };

    ghost view = { λ m. record { table = m.grid; first_uses = m.first_uses.room; second_uses = m.second_uses.room } };
}

impl Meetings {
    /// All memory that these automata need. The only error is running out of memory.
    pub fn new(alloc: Global, first: &Automaton, second: &Automaton) -> Result<Meetings, AllocError>
        ensures { IfOk result (λ m. HasRoom m first.now second.now) }
    {
        let grid = Grid::new(alloc, first.next() as usize, second.next() as usize)?;
        let first_uses = Uses::new(alloc, first.trans())?;
        let second_uses = Uses::new(alloc, second.trans())?;
        Ok(Meetings {
            grid,
            first_uses,
            second_uses,
        })
    }

    /// Whether there is memory enough for these automata. It takes none.
    pub fn fits(&self, first: &Automaton, second: &Automaton) -> bool
        ensures { IsTrue result ↔ HasRoom self.now first.now second.now }
    {
        self.grid
            .has_bounds(first.next() as usize, second.next() as usize)
            && self.first_uses.fit(first.trans())
            && self.second_uses.fit(second.trans())
    }

    /// Marks exactly the pairs of states to which one ground term runs. It takes no memory.
    pub fn mark(&mut self, first: &Automaton, second: &Automaton)
        requires { HasRoom self.old first.now second.now }
        ensures exact { (pair : ℕ × ℕ) → IsMarked self.new.table pair ↔ Meets first.now second.now pair }
        ensures height { self.new.table.height ≡ self.old.table.height }
        ensures width { self.new.table.width ≡ self.old.table.width }
        ensures first_uses { self.new.first_uses ≡ self.old.first_uses }
        ensures second_uses { self.new.second_uses ≡ self.old.second_uses }
    {
        self.first_uses.refill(first.trans());
        self.second_uses.refill(second.trans());
        self.grid.clear();
        let product = Product::new(first, second, &self.first_uses, &self.second_uses);
        product.mark_all(&mut self.grid);
    }

    /// Whether the pair is marked.
    pub fn contains(&self, first: u32, second: u32) -> bool
        ensures { IsTrue result ↔ IsMarked self.now.table (first, second) }
    {
        self.grid.contains(first, second)
    }
}
