//! Files by name.
ghost use Rattle.std.specs.Prelude.{◌≡◌, ℕ, ◌≤◌, List, Option, Ok, length, IfOk, IsErrOf};
ghost use Rattle.tim_io.specs.Causes.{Rose};
ghost use Rattle.tim_io.specs.Shelves.{Takes, OthersStay};

/// Why a shelf gave no bytes.
#[derive(Clone, Copy, Debug, PartialEq, Eq)]
pub enum TakeError {
    /// The file could not be read.
    Failed,
    /// There was no memory for what the shelf keeps of the file.
    Memory,
}

/// Files by name. Each name has one position, which moves on with what is taken and never back.
pub trait Shelf {
    /// The bytes of a name that are not yet taken, where the shelf tells them.
    ghost left: { Self → List ℕ → Option (List ℕ) };

    /// How often a name has failed.
    ghost faults: { Self → List ℕ → ℕ };

    /// Takes the next bytes of the file `name` into the front of `buf`, and answers how many: at least one where any
    /// is left and `buf` is not empty. So 0 is the end, unless `buf` is empty; then nothing changes. `Failed` comes
    /// only where the count of faults of this name rose, and `Memory` only on running out of memory. A refusal takes
    /// nothing.
    fn take(&mut self, name: &str, buf: &mut [u8]) -> Result<usize, TakeError>
        ensures bound { IfOk result (λ n. n ≤ length buf.new) }
        ensures takes { Takes (left self.old name.now) (left self.new name.now) result buf.new }
        ensures empty { length buf.new ≡ 0 →
            (result ≡ Ok 0) × (left self.new name.now ≡ left self.old name.now)
            × (faults self.new name.now ≡ faults self.old name.now) }

        // A count of faults never falls.
        ensures later { faults self.old name.now ≤ faults self.new name.now }
        ensures cause { IsErrOf result TakeError.Failed → Rose (faults self.old name.now) (faults self.new name.now) }
        ensures others { OthersStay (left self.old) (left self.new) name.now }
        ensures other_faults { OthersStay (faults self.old) (faults self.new) name.now };
}
