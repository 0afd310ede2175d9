//! An output.
ghost use Rattle.std.specs.Prelude.{◌≡◌, ℕ, ◌<◌, ◌≤◌, List, Option, Ok, length, IfOk, OnErr};
ghost use Rattle.std.specs.Io.KnownBytes.{WriteAppends};
ghost use Rattle.tim_io.specs.Causes.{Rose};

/// A sink took nothing.
#[derive(Clone, Copy, Debug, PartialEq, Eq)]
pub struct Failed;

/// An output.
pub trait Sink {
    /// The bytes written, where the sink tells them.
    ghost written: { Self → Option (List ℕ) };

    /// How often the sink has failed.
    ghost faults: { Self → ℕ };

    /// Writes bytes from the front of `bytes`, and answers how many: at least one where there is any. An empty piece
    /// changes nothing. `Failed` comes only where the count of faults rose; then nothing of the piece is written.
    fn put(&mut self, bytes: &[u8]) -> Result<usize, Failed>
        ensures bound { IfOk result (λ n. n ≤ length bytes.now) }
        ensures some { 0 < length bytes.now → IfOk result (λ n. 0 < n) }
        ensures writes { WriteAppends (written self.old) (written self.new) result bytes.now }
        ensures empty { length bytes.now ≡ 0 →
            (result ≡ Ok 0) × (written self.new ≡ written self.old)
            × (faults self.new ≡ faults self.old) }

        // The count of faults never falls.
        ensures later { faults self.old ≤ faults self.new }
        ensures cause { OnErr result (Rose (faults self.old) (faults self.new)) };
}
