//! Standard output.
ghost use Rattle.std.specs.Prelude.{◌≡◌, ◌<◌, ◌≤◌, None, Ok, length, IfOk, OnOk, OnErr};
ghost use Rattle.std.specs.Io.KnownBytes.{WriteAppends};
ghost use Rattle.tim_io.specs.Causes.{one_more, Rose};

use crate::sink::{Failed, Sink};
use crate::system::write_answer;
use std::io;
use std::io::Write;

/// A writer as a sink. It tells what was written where the writer does.
#[derive(Drop)]
pub struct WriterSink<W> {
    writer: W,
    faults: u64,
}

/// Standard output. It does not tell what was written.
pub type StdSink<'a, R> = WriterSink<io::Printer<'a, R>>;

impl<'a, R: Print> WriterSink<io::Printer<'a, R>> {
    /// The standard output of `rt`.
    pub fn new(rt: &'a R) -> StdSink<'a, R>
        ensures faults { ⟦<StdSink<'a, R> as Sink>⟧.faults result ≡ 0 }
        ensures written { ⟦<StdSink<'a, R> as Sink>⟧.written result ≡ None }
    {
        WriterSink {
            writer: io::writer(rt),
            faults: 0,
        }
    }
}

impl<W: Write> Sink for WriterSink<W> {
    ghost written = { λ sink. W.contents sink.writer };

    ghost faults = { λ sink. sink.faults };

    /// A write that fails is a fault, and so is one of 0 bytes.
    fn put(&mut self, bytes: &[u8]) -> Result<usize, Failed>
        ensures bound { IfOk result (λ n. n ≤ length bytes.now) }
        ensures some { 0 < length bytes.now → IfOk result (λ n. 0 < n) }
        ensures writes { WriteAppends (W.contents self.old.writer) (W.contents self.new.writer) result bytes.now }
        ensures empty { length bytes.now ≡ 0 →
            (result ≡ Ok 0) × (W.contents self.new.writer ≡ W.contents self.old.writer)
            × (self.new.faults ≡ self.old.faults) }
        ensures later { self.old.faults ≤ self.new.faults }
        ensures cause { OnErr result (Rose self.old.faults self.new.faults) }

        // Beside the trait's clauses: what is counted.
        ensures fault { OnErr result (self.new.faults ≡ one_more self.old.faults) }
        ensures no_fault { OnOk result (self.new.faults ≡ self.old.faults) }
    {
        if bytes.is_empty() {
            return Ok(0);
        }
        let answer = self.writer.write(bytes);
        write_answer(answer, &mut self.faults)
    }
}
