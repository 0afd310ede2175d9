//! Sets of numbers below a bound, a bit for each.
ghost use Rattle.std.specs.Prelude.{◌≡◌, ◌↔◌, ◌⊎◌, ◌<◌, ◌+◌, ◌*◌, ◌/◌, ℕ, true, false, length, get_or, IsTrue, IfOk};
ghost use Rattle.reach_rows.specs.Bits.{Has, Lists, left_of};
ghost use Rattle.std.specs.Prelude.{◌≢◌};
ghost use Rattle.std.specs.Int.{bit_at};
ghost use Rattle.std.specs.Int.Bits.{bit_or};
ghost use Rattle.std.specs.Prelude.{◌^◌, ◌≤◌, ◌==◌, Contains};
ghost use Rattle.std.specs.List.{IsDistinct};
ghost use Rattle.std.specs.Vec.{vec_capacity};

use std::alloc::{AllocError, Global};
use std::marker::Model;

/// A set of numbers below a bound. Contracts see its words, of which each has 64 bits.
#[derive(Drop)]
pub struct Bits {
    words: Vec<u64>,
}

impl Model for Bits {
    ghost use Rattle.std.specs.Prelude.{List, ℕ};

    ghost Value = { List ℕ };

    ghost view = { λ bits. bits.words.items };
}

impl Bits {
    /// The empty set, with room for the numbers up to `size`. The only error is running out of memory.
    pub fn new(alloc: Global, size: usize) -> Result<Bits, AllocError>
        ensures none { IfOk result (λ bits. (q : ℕ) → Has bits q → ⊥) }
        ensures length { IfOk result (λ bits. length bits ≡ size / 64 + 1) }
    {
        let words = vec![in alloc; 0u64; size / 64 + 1]?;
        Ok(Bits { words })
    }

    /// Whether the number is a member.
    pub fn contains(&self, number: u32) -> bool
        ensures { IsTrue result ↔ Has self.now number }
    {
        let place = (number / 64) as usize;
        if place >= self.words.len() {
            return false;
        }
        has_bit(self.words[place], number % 64)
    }

    /// Makes the number a member. It takes no memory.
    pub fn add(&mut self, number: u32)
        requires { number < 64 * length self.old }
        ensures members { (q : ℕ) → Has self.new q ↔ (Has self.old q ⊎ (q ≡ number)) }
        ensures length { length self.new ≡ length self.old }
    {
        let place = (number / 64) as usize;
        self.words[place] = with_bit(self.words[place], number % 64);
    }

    /// Takes all members out. It takes no memory.
    pub fn clear(&mut self)
        ensures none { (q : ℕ) → Has self.new q → ⊥ }
        ensures length { length self.new ≡ length self.old }
    {
        self.words.fill(0);
    }

    /// Makes each number for which there is room a member. It takes no memory.
    pub fn fill(&mut self)
        ensures all { (q : ℕ) → q < 64 * length self.old → Has self.new q }
        ensures length { length self.new ≡ length self.old }
    {
        self.words.fill(u64::MAX);
    }

    /// Takes the members of the other set in place of its own. It takes no memory.
    pub fn copy_from(&mut self, other: &Bits)
        requires { length self.old ≡ length other.now }
        ensures { self.new ≡ other.now }
    {
        self.words.copy_from_slice(other.words.as_slice());
    }

    /// Makes each member of the other set a member, and says whether there is a new one. It takes no memory.
    pub fn join(&mut self, other: &Bits) -> bool
        requires { (q : ℕ) → Has other.now q → q < 64 * length self.old }
        ensures members { (q : ℕ) → Has self.new q ↔ (Has self.old q ⊎ Has other.now q) }
        ensures length { length self.new ≡ length self.old }
        ensures same { result ≡ false → self.new ≡ self.old }
        ensures falls { result ≡ true → left_of self.new < left_of self.old }
    {
        join_words(self.words.as_mut_slice(), other.words.as_slice())
    }

    /// Lists the members below the bound in ascending order, in place of what was listed. It takes no memory.
    pub fn list_below(&self, size: usize, list: &mut Vec<u32>)
        requires room { size ≤ vec_capacity list.old }
        requires few { size < 2 ^ 32 }
        ensures members { (q : ℕ) → Contains list.new.items q ↔ ((q < size) × Has self.now q) }
        ensures distinct { IsDistinct ◌==◌ list.new.items }
        ensures room { size ≤ vec_capacity list.new }
    {
        list.clear();
        for place in 0..size / 64 + 1 {
            if word_at(self.words.as_slice(), place) != 0 {
                list_word(self, place, size, list);
            }
        }
    }

    /// Whether each member is one of the other set.
    pub fn is_within(&self, other: &Bits) -> bool
        requires { length self.now ≡ length other.now }
        ensures { IsTrue result → (q : ℕ) → Has self.now q → Has other.now q }
    {
        are_within(self.words.as_slice(), other.words.as_slice())
    }
}

fn has_bit(word: u64, place: u32) -> bool
    requires { place < 64 }
    ensures { IsTrue result ↔ (bit_at word place ≡ 1) }
{
    word & (1 << place) != 0
}

fn with_bit(word: u64, place: u32) -> u64
    requires { place < 64 }
    ensures set { bit_at result place ≡ 1 }
    ensures others { (i : ℕ) → i ≢ place → bit_at result i ≡ bit_at word i }
{
    word | (1 << place)
}

// The word at the place, and no bits behind the last one.
fn word_at(words: &[u64], place: usize) -> u64
    ensures { result ≡ get_or words.now place 0 }
{
    if place < words.len() {
        return words[place];
    }
    0
}

// The bits of both words.
fn united(word: u64, other: u64) -> u64
    ensures value { result ≡ bit_or word other }
    ensures small { result < 2 ^ 64 }
{
    word | other
}

// Puts the bits of the other words into these, and says whether one is new.
fn join_words(words: &mut [u64], others: &[u64]) -> bool
    requires { (q : ℕ) → Has others.now q → q < 64 * length words.old }
    ensures members { (q : ℕ) → Has words.new q ↔ (Has words.old q ⊎ Has others.now q) }
    ensures length { length words.new ≡ length words.old }
    ensures same { result ≡ false → words.new ≡ words.old }
    ensures falls { result ≡ true → left_of words.new < left_of words.old }
{
    let mut more = false;
    for at in 0..words.len() {
        let both = united(words[at], word_at(others, at));
        if both != words[at] {
            words[at] = both;
            more = true;
        }
    }
    more
}

// Whether each bit of the words is one of the others.
fn are_within(words: &[u64], others: &[u64]) -> bool
    requires { length words.now ≡ length others.now }
    ensures { IsTrue result → (q : ℕ) → Has words.now q → Has others.now q }
{
    for (at, word) in words.iter().enumerate() {
        if word | others[at] != others[at] {
            return false;
        }
    }
    true
}

// Lists the members below the bound that have their bits in the word at the place.
fn list_word(bits: &Bits, place: usize, size: usize, list: &mut Vec<u32>)
    requires place { place ≤ size / 64 }
    requires lists { Lists bits.now size (64 * place) list.old.items }
    requires room { size ≤ vec_capacity list.old }
    requires few { size < 2 ^ 32 }
    ensures lists { Lists bits.now size (64 * place + 64) list.new.items }
    ensures room { size ≤ vec_capacity list.new }
{
    for bit in 0..64usize {
        let number = (64 * place + bit) as u32;
        if has_below(bits, size, number) {
            list.push(number).unwrap();
        }
    }
}

fn has_below(bits: &Bits, size: usize, number: u32) -> bool
    ensures { IsTrue result ↔ ((number < size) × Has bits.now number) }
{
    if number as usize >= size {
        return false;
    }
    bits.contains(number)
}
