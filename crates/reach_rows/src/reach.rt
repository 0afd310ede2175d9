//! What edges between numbers lead to, in any number of steps: a row of bits for each number.
ghost use Rattle.std.specs.Prelude.{◌≡◌, ◌<◌, ◌≤◌, ◌+◌, ◌*◌, ◌/◌, ◌^◌, ℕ, List, [], length, get_or, All, Contains, IfOk};
ghost use Rattle.reach_rows.specs.Paths.{AreReached, IsEdgeBelow, IsInRow, LeadThere, turn_edge};
ghost use Rattle.reach_rows.specs.Bits.{Has};
ghost use Rattle.std.specs.Prelude.{◌⊎◌};
ghost use Rattle.std.specs.Prelude.{map, take, ◌↔◌};
ghost use Rattle.reach_rows.specs.Tables.{AreReaching, AreWide, Joins, Passes, rows_left};

use crate::bits::Bits;
use crate::order::Order;
use std::alloc::{AllocError, Global};
use std::marker::Model;

/// What edges between the numbers below a bound lead to. Contracts see the rows.
#[derive(Drop)]
pub struct Reach {
    rows: Vec<Bits>,
    spare: Bits,
    order: Order,
    // Edges turned round.
    turned: Vec<(u32, u32)>,
}

impl Model for Reach {
    ghost use Rattle.std.specs.Prelude.{◌≡◌, ◌≤◌, ◌<◌, ◌*◌, ◌^◌, length};
    ghost use Rattle.reach_rows.specs.Tables.{Rows, AreWide};

    ghost Value = { Rows };

    ghost view = { λ reach. record {
      rows = reach.rows.items;
      width = length reach.spare;
      edges = length reach.turned.items;
    } };

    ghost invariant = { λ reach. AreWide (length reach.spare) reach.rows.items
        × (length reach.rows.items ≤ 64 * length reach.spare)
        × (length reach.rows.items < 2 ^ 32) };
}

impl Reach {
    /// A table for the numbers below the bound, and so many edges that are turned round. It takes all memory that it ever takes.
    /// The only error is running out of memory.
    pub fn new(alloc: Global, size: usize, edges: usize) -> Result<Reach, AllocError>
        requires { size < 2 ^ 32 }
        ensures rows { IfOk result (λ reach. length reach.rows ≡ size) }
        ensures edges { IfOk result (λ reach. reach.edges ≡ edges) }
    {
        let mut rows = Vec::new(alloc);
        for _ in 0..size {
            rows.push(Bits::new(alloc, size)?)?;
        }
        Ok(Reach {
            rows,
            spare: Bits::new(alloc, size)?,
            order: Order::new(alloc, size)?,
            turned: vec![in alloc; (0, 0); edges]?,
        })
    }

    /// How many numbers there are.
    pub fn len(&self) -> usize
        ensures { result ≡ length self.now.rows }
    {
        self.rows.len()
    }

    /// How many edges can be turned round.
    pub fn most_turned(&self) -> usize
        ensures { result ≡ self.now.edges }
    {
        self.turned.len()
    }

    /// The row of the number.
    pub fn row(&self, number: u32) -> &Bits
        requires { number < length self.now.rows }
        ensures { result.now ≡ get_or self.now.rows number [] }
    {
        &self.rows[number as usize]
    }

    /// Makes what is in the rows of the listed numbers members, where there are none yet. It takes no memory.
    pub fn join_rows(&self, list: &[u32], bits: &mut Bits)
        requires none { (q : ℕ) → Has bits.old q → ⊥ }
        requires reached { (edges : List (ℕ × ℕ)) × AreReached edges self.now.rows }
        requires room { (p q : ℕ) → Contains list.now p → Has (get_or self.now.rows p []) q → q < 64 * length bits.old }
        ensures members { (q : ℕ) → Has bits.new q ↔ IsInRow self.now.rows list.now q }
        ensures length { length bits.new ≡ length bits.old }
    {
        for number in list {
            join_one(bits, *number, self);
        }
    }

    /// Finds what these edges lead to from each number. They may be in any order; it is fast where they are sorted. It takes no
    /// memory.
    pub fn fill(&mut self, edges: &[(u32, u32)])
        requires { All (IsEdgeBelow (length self.old.rows)) edges.now }
        ensures reached { AreReached edges.now self.new.rows }
        ensures long { length self.new.rows ≡ length self.old.rows }
        ensures edges { self.new.edges ≡ self.old.edges }
    {
        let rows = self.rows.as_mut_slice();
        fill_rows(rows, &mut self.spare, &mut self.order, edges);
    }

    /// Finds from which numbers these edges lead to each number. They may be in any order. It takes no memory.
    pub fn fill_back(&mut self, edges: &[(u32, u32)])
        requires below { All (IsEdgeBelow (length self.old.rows)) edges.now }
        requires few { length edges.now ≤ self.old.edges }
        ensures reached { LeadThere edges.now self.new.rows }
        ensures long { length self.new.rows ≡ length self.old.rows }
        ensures edges { self.new.edges ≡ self.old.edges }
    {
        let rows = self.rows.as_mut_slice();
        let turned = self.turned.as_mut_slice();
        fill_rows_back(rows, &mut self.spare, &mut self.order, turned, edges);
    }
}

// Finds from which numbers the edges lead to each number.
fn fill_rows_back(
    rows: &mut [Bits],
    spare: &mut Bits,
    order: &mut Order,
    turned: &mut [(u32, u32)],
    edges: &[(u32, u32)],
)
    requires below { All (IsEdgeBelow (length rows.old)) edges.now }
    requires wide { AreWide (length spare.old) rows.old }
    requires room { length rows.old ≤ 64 * length spare.old }
    requires few { length rows.old < 2 ^ 32 }
    requires turned { length edges.now ≤ length turned.old }
    ensures reached { LeadThere edges.now rows.new }
    ensures long { length rows.new ≡ length rows.old }
    ensures wide { AreWide (length spare.new) rows.new }
    ensures spare { length spare.new ≡ length spare.old }
    ensures turned { length turned.new ≡ length turned.old }
{
    turn_all(turned, edges);
    fill_rows(rows, spare, order, &turned[..edges.len()]);
}

// Finds what the edges lead to from each number.
fn fill_rows(rows: &mut [Bits], spare: &mut Bits, order: &mut Order, edges: &[(u32, u32)])
    requires below { All (IsEdgeBelow (length rows.old)) edges.now }
    requires wide { AreWide (length spare.old) rows.old }
    requires room { length rows.old ≤ 64 * length spare.old }
    requires few { length rows.old < 2 ^ 32 }
    ensures reached { AreReached edges.now rows.new }
    ensures long { length rows.new ≡ length rows.old }
    ensures wide { AreWide (length spare.new) rows.new }
    ensures spare { length spare.new ≡ length spare.old }
{
    order.arrange(edges);
    begin(rows);
    sweep(rows, spare, edges, order.as_slice());
    settle(rows, spare, edges, order.as_slice());
}

// Puts these edges, turned round and sorted, in the first places.
fn turn_all(turned: &mut [(u32, u32)], edges: &[(u32, u32)])
    requires { length edges.now ≤ length turned.old }
    ensures members { (p q : ℕ) → Contains (take (length edges.now) turned.new) (p, q) ↔ Contains edges.now (q, p) }
    ensures long { length turned.new ≡ length turned.old }
{
    let first = &mut turned[..edges.len()];
    turn(first, edges);
    first.sort_unstable();
}

// Puts these edges, turned round, in the place of what was there.
fn turn(turned: &mut [(u32, u32)], edges: &[(u32, u32)])
    requires { length turned.old ≡ length edges.now }
    ensures { turned.new ≡ map turn_edge edges.now }
{
    for (place, edge) in edges.iter().enumerate() {
        turned[place] = (edge.1, edge.0);
    }
}

// Leaves in each row its own number alone.
fn begin(rows: &mut [Bits])
    requires few { length rows.old < 2 ^ 32 }
    requires room { (p : ℕ) → p < length rows.old → length rows.old ≤ 64 * length (get_or rows.old p []) }
    ensures reaching { (edges : List (ℕ × ℕ)) → AreReaching edges rows.new }
    ensures wide { (width : ℕ) → AreWide width rows.old → AreWide width rows.new }
    ensures long { length rows.new ≡ length rows.old }
{
    for number in 0..rows.len() {
        rows[number].clear();
        rows[number].add(number as u32);
    }
}

// Puts the members of the row of `to` into that of `from`, and says whether one is new there.
fn join_row(rows: &mut [Bits], spare: &mut Bits, from: u32, to: u32) -> bool
    requires from { from < length rows.old }
    requires to { to < length rows.old }
    requires wide { AreWide (length spare.old) rows.old }
    ensures joins { Joins rows.old rows.new from to result }
    ensures wide { AreWide (length spare.new) rows.new }
    ensures spare { length spare.new ≡ length spare.old }
{
    spare.copy_from(&rows[to as usize]);
    rows[from as usize].join(spare)
}

// Puts into the row of each edge's start what is in that of its end, and says whether something is new.
fn pass(rows: &mut [Bits], spare: &mut Bits, edges: &[(u32, u32)]) -> bool
    requires below { All (IsEdgeBelow (length rows.old)) edges.now }
    requires wide { AreWide (length spare.old) rows.old }
    requires reaching { AreReaching edges.now rows.old }
    ensures passes { Passes edges.now edges.now rows.old rows.new result }
    ensures wide { AreWide (length spare.new) rows.new }
    ensures spare { length spare.new ≡ length spare.old }
{
    let mut more = false;
    for (from, to) in edges {
        let new = join_row(rows, spare, *from, *to);
        more = more | new;
    }
    more
}

// The same for the edges from the numbers of the list, in their order.
fn sweep(rows: &mut [Bits], spare: &mut Bits, edges: &[(u32, u32)], order: &[u32])
    requires below { All (IsEdgeBelow (length rows.old)) edges.now }
    requires wide { AreWide (length spare.old) rows.old }
    requires reaching { AreReaching edges.now rows.old }
    ensures reaching { AreReaching edges.now rows.new }
    ensures at_most { rows_left rows.new ≤ rows_left rows.old }
    ensures long { length rows.new ≡ length rows.old }
    ensures wide { AreWide (length spare.new) rows.new }
    ensures spare { length spare.new ≡ length spare.old }
{
    for number in order {
        let start = edges.partition_point(|edge| edge.0 < *number);
        let rest = &edges[start..];
        let count = rest.partition_point(|edge| edge.0 <= *number);
        sweep_some(rows, spare, edges, &rest[..count]);
    }
}

fn sweep_some(rows: &mut [Bits], spare: &mut Bits, edges: &[(u32, u32)], some: &[(u32, u32)])
    requires below { All (IsEdgeBelow (length rows.old)) some.now }
    requires some { All (Contains edges.now) some.now }
    requires wide { AreWide (length spare.old) rows.old }
    requires reaching { AreReaching edges.now rows.old }
    ensures reaching { AreReaching edges.now rows.new }
    ensures at_most { rows_left rows.new ≤ rows_left rows.old }
    ensures long { length rows.new ≡ length rows.old }
    ensures wide { AreWide (length spare.new) rows.new }
    ensures spare { length spare.new ≡ length spare.old }
{
    // For the proof: of which edges these are some.
    let _ = edges;
    for (from, to) in some {
        let _ = join_row(rows, spare, *from, *to);
    }
}

// Goes over the edges until no row grows.
fn settle(rows: &mut [Bits], spare: &mut Bits, edges: &[(u32, u32)], order: &[u32])
    requires below { All (IsEdgeBelow (length rows.old)) edges.now }
    requires wide { AreWide (length spare.old) rows.old }
    requires reaching { AreReaching edges.now rows.old }
    ensures reached { AreReached edges.now rows.new }
    ensures long { length rows.new ≡ length rows.old }
    ensures wide { AreWide (length spare.new) rows.new }
    ensures spare { length spare.new ≡ length spare.old }
{
    while pass(rows, spare, edges) {
        sweep(rows, spare, edges, order);
    }
}

// Makes what is in the row of the number members. Nothing is to be done where it is a member already.
fn join_one(bits: &mut Bits, number: u32, reach: &Reach)
    requires room { (q : ℕ) → Has (get_or reach.now.rows number []) q → q < 64 * length bits.old }
    ensures members { (q : ℕ) → Has bits.new q → Has bits.old q ⊎ Has (get_or reach.now.rows number []) q }
    ensures kept { (q : ℕ) → Has bits.old q → Has bits.new q }
    ensures joined { Has bits.old number ⊎ ((q : ℕ) → Has (get_or reach.now.rows number []) q → Has bits.new q) }
    ensures length { length bits.new ≡ length bits.old }
{
    if bits.contains(number) {
        return;
    }
    if (number as usize) < reach.len() {
        let _ = bits.join(reach.row(number));
    }
}
