//! An output that never fails.
ghost use Rattle.std.specs.Prelude.{◌≡◌, None, Ok, length};

use crate::sink::{Failed, Sink};

/// An output that never fails. It keeps no bytes, and does not tell what was written.
#[derive(Debug, Drop)]
pub struct HonestSink;

impl HonestSink {
    /// An output that never fails.
    pub fn new() -> HonestSink
        ensures written { ⟦<HonestSink as Sink>⟧.written result ≡ None }
        ensures faults { ⟦<HonestSink as Sink>⟧.faults result ≡ 0 }
    {
        HonestSink
    }
}

impl Sink for HonestSink {
    ghost written = { λ sink. None };

    ghost faults = { λ sink. 0 };

    /// Takes the piece whole.
    fn put(&mut self, bytes: &[u8]) -> Result<usize, Failed>
        ensures { result ≡ Ok (length bytes.now) }
    {
        Ok(bytes.len())
    }
}
