//! The text of an answer, written.
ghost use Rattle.std.specs.Prelude.{◌≡◌, ◌⊎◌};
ghost use Rattle.std.specs.Io.KnownBytes.{Appends};
ghost use Rattle.tim_io.specs.Causes.{Rose};
ghost use Rattle.tim_io.specs.Whole.{AppendsPart};

use calls::status::Status;
use tim_io::{Sink, write_all};

/// Writes the text of an answer. The status is the answer's, or `WriteFault` where the output has failed.
pub(crate) fn written<K: Sink>(out: &mut K, status: Status, text: &[u8]) -> Status
    ensures { ((result ≡ status) × Appends (K.written out.old) (K.written out.new) text.now)
        ⊎ ((result ≡ Status.WriteFault) × Rose (K.faults out.old) (K.faults out.new)
        × AppendsPart (K.written out.old) (K.written out.new) text.now) }
{
    match write_all(out, text) {
        Ok(()) => status,
        Err(_) => Status::WriteFault,
    }
}
