//! Files in memory, which fail where they are told to.
ghost use Rattle.std.specs.Prelude.{◌≡◌, ℕ, ◌<◌, ◌≤◌, ◌⊎◌, ◌↔◌, List, Some, None, Ok};
ghost use Rattle.std.specs.Prelude.{length, IfOk, IfSome, IsErr, IsErrOf, IsNone, MatchOption, OnOk, OnErr};
ghost use Rattle.std.specs.Option.{option_copied};
ghost use Rattle.tim_io.specs.Causes.{one_more, Rose};
ghost use Rattle.tim_io.specs.Pieces.{share};
ghost use Rattle.tim_io.specs.Shelves.{Takes, OthersStay};

use crate::counts::Counts;
use crate::files::Files;
use crate::plan::Plan;
use crate::shelf::{Shelf, TakeError};
use ranked_terms::Seq;
use std::alloc::{AllocError, Global};

/// Files in memory. Each call gives at most a piece, and the calls that are named fail.
#[derive(Debug, Drop)]
pub struct MemShelf {
    files: Files,
    faults: Counts,
    plan: Plan,
    ghost gives: { 0 < plan.piece },
}

impl MemShelf {
    ghost use Rattle.tim_io.specs.Files.{Gives};
    ghost use Rattle.tim_io.specs.MemShelf.{left_of, faults_of, plan_of};
    ghost use Rattle.tim_io.specs.Plans.{after_call, FailsNext};

    /// A shelf without files. It gives at most `piece` bytes a call, which is at least 1, and fails at the calls whose
    /// numbers are in `fails`. Calls are counted from 1 over all names; those with an empty buffer are not counted.
    pub fn new(alloc: Global, piece: usize, fails: Seq<u64>) -> MemShelf
        requires { 0 < piece }
        ensures left { (name : List ℕ) → left_of result name ≡ None }
        ensures faults { (name : List ℕ) → faults_of result name ≡ 0 }
        ensures plan { plan_of result ≡ record { piece = piece; fails = fails; calls = 0 } }
    {
        MemShelf {
            files: Files::new(alloc),
            faults: Counts::new(alloc),
            plan: Plan::new(piece, fails),
        }
    }

    /// Adds a file, or replaces the one of this name, which then begins anew. The only error is running out of memory;
    /// then nothing changes.
    pub fn add(&mut self, name: &str, bytes: &[u8]) -> Result<(), AllocError>
        ensures added { OnOk result (left_of self.new name.now ≡ Some bytes.now) }
        ensures refused { OnErr result (left_of self.new name.now ≡ left_of self.old name.now) }
        ensures others { OthersStay (left_of self.old) (left_of self.new) name.now }
        ensures faults { faults_of self.new ≡ faults_of self.old }
        ensures plan { plan_of self.new ≡ plan_of self.old }
    {
        self.files.add(name, bytes)
    }

    /// The bytes of a name that are not yet taken, `None` just where the name is not there.
    pub fn rest(&self, name: &str) -> Option<&[u8]>
        ensures { option_copied result ≡ left_of self.now name.now }
    {
        self.files.rest(name)
    }

    /// Counts a call, and gives the next bytes of a name, at most a piece. `None` comes just where the call is to fail or
    /// the name is not there; then it gives nothing.
    fn give(&mut self, name: &str, buf: &mut [u8]) -> Option<usize>
        ensures refuses { IsNone result ↔ (FailsNext (plan_of self.old) ⊎ (left_of self.old name.now ≡ None)) }
        ensures given { MatchOption result
            (left_of self.new name.now ≡ left_of self.old name.now)
            (λ n. Gives (left_of self.old name.now) (left_of self.new name.now) (Some n) buf.new (plan_of self.old).piece) }
        ensures others { OthersStay (left_of self.old) (left_of self.new) name.now }
        ensures faults { (other : List ℕ) → faults_of self.new other ≡ faults_of self.old other }
        ensures call { plan_of self.new ≡ after_call (plan_of self.old) }
    {
        if self.plan.next_fails() {
            return None;
        }
        let piece = self.plan.piece();
        self.files.give(name, buf, piece)
    }
}

impl Shelf for MemShelf {
    ghost use Rattle.tim_io.specs.MemShelf.{left_of, faults_of, plan_of};
    ghost use Rattle.tim_io.specs.Plans.{after_call, FailsNext};

    ghost left = { left_of };

    ghost faults = { faults_of };

    /// A name that is not there fails, and so does a call whose number is to fail. `Memory` comes where such a fault
    /// finds no memory for its count.
    fn take(&mut self, name: &str, buf: &mut [u8]) -> Result<usize, TakeError>
        ensures bound { IfOk result (λ n. n ≤ length buf.new) }
        ensures takes { Takes (left_of self.old name.now) (left_of self.new name.now) result buf.new }
        ensures empty { length buf.new ≡ 0 →
            (result ≡ Ok 0) × (left_of self.new name.now ≡ left_of self.old name.now)
            × (faults_of self.new name.now ≡ faults_of self.old name.now) }
        ensures later { faults_of self.old name.now ≤ faults_of self.new name.now }
        ensures cause { IsErrOf result TakeError.Failed → Rose (faults_of self.old name.now) (faults_of self.new name.now) }
        ensures others { OthersStay (left_of self.old) (left_of self.new) name.now }
        ensures other_faults { OthersStay (faults_of self.old) (faults_of self.new) name.now }

        // Beside the trait's clauses: which call fails, how much a call gives, and what is counted.
        ensures refuses { IsErr result ↔
            ((0 < length buf.new)
            × (FailsNext (plan_of self.old) ⊎ (left_of self.old name.now ≡ None))) }
        ensures gives { IfSome (left_of self.old name.now) (λ left.
            IfOk result (λ n. n ≡ share (length left) (plan_of self.old).piece (length buf.new))) }
        ensures call { 0 < length buf.new → plan_of self.new ≡ after_call (plan_of self.old) }
        ensures no_call { length buf.new ≡ 0 → plan_of self.new ≡ plan_of self.old }
        ensures fault { IsErrOf result TakeError.Failed →
            faults_of self.new name.now ≡ one_more (faults_of self.old name.now) }
        ensures memory { IsErrOf result TakeError.Memory →
            faults_of self.new name.now ≡ faults_of self.old name.now }
        ensures no_fault { OnOk result (faults_of self.new name.now ≡ faults_of self.old name.now) }
    {
        if buf.is_empty() {
            return Ok(0);
        }
        match self.give(name, buf) {
            Some(count) => Ok(count),
            None => Err(self.faults.fault(name)),
        }
    }
}
