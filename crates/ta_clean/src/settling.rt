//! The least sizes of the terms that run to pairs of states.
//!
//! The pairs are taken by their sizes, smallest first, as in Knuth's generalisation of Dijkstra's algorithm (Information
//! Processing Letters 6, 1977): a pair that is taken has its least size, so each is taken once. What it leads to is looked at
//! then, as in the product of the two automata. So two transitions are looked at at most once for each argument.
ghost use Rattle.std.specs.Prelude.{◌≡◌, ◌≤◌, ◌<◌, ◌∷◌, [], ℕ, IfOk, Contains, Some, length, slice_get, zip};
ghost use Rattle.std.specs.List.Sorted.{IsStrictlySortedBy};
ghost use Rattle.ta_core.specs.TreeAutomaton.{trans_cmp};
ghost use Rattle.ta_core.specs.declared.trans.Trans.{Trans as Transition};
ghost use Rattle.ta_clean.specs.Sizes.{AreLeast, AreMade, AreSettled, FollowedBy, HasSizes};
ghost use Rattle.ta_clean.specs.Sizes.{IsFollowed, IsPairOf, IsUnmade, Lowers};
ghost use Rattle.ta_clean.specs.Uses.{IsUseOf};

use crate::meeting::product::Product;
use crate::meeting::uses::{Slot, Use, Uses};
use crate::sizes::{Made, SizeTable};
use std::alloc::{AllocError, Global};
use ta_core::{Automaton, Trans};

/// The least sizes of the terms that run to pairs of states of the two automata. The only error is running out of memory.
pub(crate) fn least_sizes(
    alloc: Global,
    first: &Automaton,
    second: &Automaton,
) -> Result<SizeTable, AllocError>
    ensures { IfOk result (AreLeast (record { first = first.now; second = second.now })) }
{
    let mut sizes = SizeTable::new(alloc, first.next() as usize, second.next() as usize)?;
    let mut first_uses = Uses::new(alloc, first.trans())?;
    let mut second_uses = Uses::new(alloc, second.trans())?;
    first_uses.refill(first.trans());
    second_uses.refill(second.trans());
    let product = Product::new(first, second, &first_uses, &second_uses);
    product.settle(&mut sizes);
    Ok(sizes)
}

impl<'a> Product<'a> {
    /// Lowers the numbers of pairs from 1,025 to the least sizes. It takes no memory but for the buckets.
    fn settle(&self, sizes: &mut SizeTable)
        requires unmade { IsUnmade self.now.first.next self.now.second.next sizes.old }
        ensures has { HasSizes self.now sizes.new }
        ensures made { AreMade self.now sizes.new }
        ensures settled { AreSettled self.now sizes.new }
    {
        // For the proof: their contracts say what holds of every automaton.
        let _ = self.first.next();
        let _ = self.second.next();
        self.lower_constants(sizes);
        while let Some((first, second)) = sizes.take() {
            self.lower_by_epsilons(first, second, sizes);
            self.lower_by_transitions(first, second, sizes);
        }
    }

    /// Lowers the numbers of the pairs to which two constants lead.
    fn lower_constants(&self, sizes: &mut SizeTable)
        requires has { HasSizes self.now sizes.old }
        requires made { AreMade self.now sizes.old }
        ensures lowers { Lowers self.now sizes.old sizes.new }
        ensures followed { (left : Transition) → Contains self.now.first.trans left → length left.args ≡ 0
            → (right : Transition) → Contains self.now.second.trans right → FollowedBy left right sizes.new }
    {
        let lefts = self.first.trans();
        for (place, left) in lefts.iter().enumerate() {
            if left.args.as_slice().is_empty() {
                self.lower_constant(place, left, sizes);
            }
        }
    }

    /// Lowers the numbers of the pairs to which the transition of the first automaton at this place leads with those of the
    /// second that have its symbol.
    fn lower_constant(&self, place: usize, left: &Trans, sizes: &mut SizeTable)
        requires at { slice_get self.now.first.trans place ≡ Some left.now }
        requires has { HasSizes self.now sizes.old }
        requires made { AreMade self.now sizes.old }
        ensures lowers { Lowers self.now sizes.old sizes.new }
        ensures followed { (right : Transition) → Contains self.now.second.trans right → FollowedBy left.now right sizes.new }
    {
        let rights = self.second.trans();
        let (start, end) = places_with(rights, left.sym);
        for other in start..end {
            self.lower_by_two(place, left, other, &rights[other], sizes);
        }
    }

    /// Lowers the numbers of the pairs to which an epsilon transition of either automaton leads from this pair.
    fn lower_by_epsilons(&self, first: u32, second: u32, sizes: &mut SizeTable)
        requires has { HasSizes self.now sizes.old }
        requires made { AreMade self.now sizes.old }
        requires within { IsPairOf sizes.old (first, second) }
        ensures lowers { Lowers self.now sizes.old sizes.new }
        ensures first { (p : ℕ) → Contains self.now.first.eps (first, p)
            → IsFollowed sizes.new ((first, second) ∷ []) (p, second) 0 }
        ensures second { (q : ℕ) → Contains self.now.second.eps (second, q)
            → IsFollowed sizes.new ((first, second) ∷ []) (first, q) 0 }
    {
        self.lower_by_firsts(first, second, sizes);
        self.lower_by_seconds(first, second, sizes);
    }

    /// By the epsilon transitions of the first automaton.
    fn lower_by_firsts(&self, first: u32, second: u32, sizes: &mut SizeTable)
        requires has { HasSizes self.now sizes.old }
        requires made { AreMade self.now sizes.old }
        requires within { IsPairOf sizes.old (first, second) }
        ensures lowers { Lowers self.now sizes.old sizes.new }
        ensures followed { (p : ℕ) → Contains self.now.first.eps (first, p)
            → IsFollowed sizes.new ((first, second) ∷ []) (p, second) 0 }
    {
        for (_, to) in self.first.eps_from(first) {
            let made = sizes.get(first, second);
            sizes.lower(*to, second, made);
        }
    }

    /// By the epsilon transitions of the second automaton.
    fn lower_by_seconds(&self, first: u32, second: u32, sizes: &mut SizeTable)
        requires has { HasSizes self.now sizes.old }
        requires made { AreMade self.now sizes.old }
        requires within { IsPairOf sizes.old (first, second) }
        ensures lowers { Lowers self.now sizes.old sizes.new }
        ensures followed { (q : ℕ) → Contains self.now.second.eps (second, q)
            → IsFollowed sizes.new ((first, second) ∷ []) (first, q) 0 }
    {
        for (_, to) in self.second.eps_from(second) {
            let made = sizes.get(first, second);
            sizes.lower(first, *to, made);
        }
    }

    /// Lowers the numbers of the pairs to which two transitions of one symbol lead that have the two states at one place.
    fn lower_by_transitions(&self, first: u32, second: u32, sizes: &mut SizeTable)
        requires has { HasSizes self.now sizes.old }
        requires made { AreMade self.now sizes.old }
        ensures lowers { Lowers self.now sizes.old sizes.new }
        ensures followed { (left right : Transition) → Contains self.now.first.trans left → Contains self.now.second.trans right
            → Contains (zip left.args right.args) (first, second) → FollowedBy left right sizes.new }
    {
        for used in self.first_uses.of_state(first) {
            self.lower_by_use(*used, second, sizes);
        }
    }

    /// Lowers the numbers of the pairs to which the transition of this use leads with one of the second automaton that has the
    /// state at the same place.
    fn lower_by_use(&self, used: Use, second: u32, sizes: &mut SizeTable)
        requires used { IsUseOf self.now.first.trans used }
        requires has { HasSizes self.now sizes.old }
        requires made { AreMade self.now sizes.old }
        ensures lowers { Lowers self.now sizes.old sizes.new }
        ensures followed { (left right : Transition) → slice_get self.now.first.trans used.position ≡ Some left
            → Contains self.now.second.trans right → slice_get right.args used.slot.place ≡ Some second
            → FollowedBy left right sizes.new }
    {
        let left = &self.first.trans()[used.position];
        let rights = self.second.trans();
        let slot = Slot {
            state: second,
            ..used.slot
        };
        for other in self.second_uses.at_slot(slot) {
            let right = &rights[other.position];
            self.lower_by_two(used.position, left, other.position, right, sizes);
        }
    }

    /// Lowers the number of the pair to which the two transitions lead, which stand at these places, if they have one symbol.
    fn lower_by_two(
        &self,
        place: usize,
        left: &Trans,
        other: usize,
        right: &Trans,
        sizes: &mut SizeTable,
    )
        requires at_left { slice_get self.now.first.trans place ≡ Some left.now }
        requires at_right { slice_get self.now.second.trans other ≡ Some right.now }
        requires has { HasSizes self.now sizes.old }
        requires made { AreMade self.now sizes.old }
        ensures lowers { Lowers self.now sizes.old sizes.new }
        ensures followed { FollowedBy left.now right.now sizes.new }
    {
        // For the proof: their contracts say what holds of every automaton.
        let _ = self.first.next();
        let _ = self.second.next();
        let firsts = left.args.as_slice();
        let seconds = right.args.as_slice();
        if left.sym != right.sym {
            return;
        }
        if firsts.len() != seconds.len() {
            return;
        }
        let size = sizes.sum_of(firsts, seconds);
        let made = Made {
            size,
            waits: true,
            left: place,
            right: other,
        };
        sizes.lower(left.to, right.to, made);
    }
}

/// The first place of a transition of the symbol in the list, and the place behind the last one.
fn places_with(all: &[Trans], sym: u32) -> (usize, usize)
    requires { IsStrictlySortedBy trans_cmp all.now }
    ensures within { result.1 ≤ length all.now }
    ensures start { (place : ℕ) (t : Transition) → slice_get all.now place ≡ Some t → t.sym ≡ sym → result.0 ≤ place }
    ensures end { (place : ℕ) (t : Transition) → slice_get all.now place ≡ Some t → t.sym ≡ sym → place < result.1 }
{
    let start = all.partition_point(|t| t.sym < sym);
    let end = all.partition_point(|t| t.sym <= sym);
    (start, end)
}
