//! An output in memory, which fails where it is told to.
ghost use Rattle.std.specs.Prelude.{◌≡◌, ◌+◌, ◌<◌, ◌≤◌, ◌⊎◌, ◌↔◌, [], Some, Ok, length};
ghost use Rattle.std.specs.Prelude.{IfOk, IsErr, OnOk, OnErr, vec_len, vec_capacity};
ghost use Rattle.std.specs.Io.KnownBytes.{WriteAppends};
ghost use Rattle.tim_io.specs.Causes.{one_more, Rose};
ghost use Rattle.tim_io.specs.Pieces.{share};

use crate::plan::Plan;
use crate::sink::{Failed, Sink};
use ranked_terms::Seq;
use std::alloc::{AllocError, Global};

/// An output in memory. Each call takes at most a piece, and the calls that are named fail; so do all once no room is
/// left.
#[derive(Debug, Drop)]
pub struct MemSink {
    bytes: Vec<u8>,
    room: usize,
    faults: u64,
    plan: Plan,
    ghost takes: { 0 < plan.piece },
    ghost within: { vec_len bytes ≤ room },
    ghost reserved: { room ≤ vec_capacity bytes },
}

impl MemSink {
    ghost use Rattle.tim_io.specs.MemSink.{written_of, room_of, faults_of, plan_of};

    /// A sink with nothing written. It reserves `room` bytes, so that `put` takes no memory. It takes at most `piece`
    /// bytes a call, which is at least 1, and fails at the calls whose numbers are in `fails`. Calls are counted from
    /// 1; those with an empty piece are not counted. The only error is running out of memory.
    pub fn new(
        alloc: Global,
        room: usize,
        piece: usize,
        fails: Seq<u64>,
    ) -> Result<MemSink, AllocError>
        requires { 0 < piece }
        ensures written { IfOk result (λ sink. written_of sink ≡ []) }
        ensures room { IfOk result (λ sink. room_of sink ≡ room) }
        ensures faults { IfOk result (λ sink. faults_of sink ≡ 0) }
        ensures plan { IfOk result (λ sink.
            plan_of sink ≡ record { piece = piece; fails = fails; calls = 0 }) }
    {
        Ok(MemSink {
            bytes: Vec::with_capacity(alloc, room)?,
            room,
            faults: 0,
            plan: Plan::new(piece, fails),
        })
    }

    /// The bytes written.
    pub fn bytes(&self) -> &[u8]
        ensures { result.now ≡ written_of self.now }
    {
        self.bytes.as_slice()
    }
}

impl Sink for MemSink {
    ghost use Rattle.tim_io.specs.MemSink.{written_of, room_of, faults_of, plan_of};
    ghost use Rattle.tim_io.specs.Plans.{after_call, FailsNext};

    ghost written = { λ sink. Some (written_of sink) };

    ghost faults = { faults_of };

    /// A call fails just where its number is to fail or no room is left.
    fn put(&mut self, bytes: &[u8]) -> Result<usize, Failed>
        ensures bound { IfOk result (λ n. n ≤ length bytes.now) }
        ensures some { 0 < length bytes.now → IfOk result (λ n. 0 < n) }
        ensures writes { WriteAppends (Some (written_of self.old)) (Some (written_of self.new)) result bytes.now }
        ensures empty { length bytes.now ≡ 0 →
            (result ≡ Ok 0) × (Some (written_of self.new) ≡ Some (written_of self.old))
            × (faults_of self.new ≡ faults_of self.old) }
        ensures later { faults_of self.old ≤ faults_of self.new }
        ensures cause { OnErr result (Rose (faults_of self.old) (faults_of self.new)) }

        // Beside the trait's clauses: which call fails, how much a call takes, and what is counted.
        ensures refuses { IsErr result ↔
            ((0 < length bytes.now) × (FailsNext (plan_of self.old) ⊎ (room_of self.old ≡ 0))) }
        ensures takes { IfOk result (λ n.
            n ≡ share (length bytes.now) (plan_of self.old).piece (room_of self.old)) }
        ensures room { length (written_of self.new) + room_of self.new
            ≡ length (written_of self.old) + room_of self.old }
        ensures call { 0 < length bytes.now → plan_of self.new ≡ after_call (plan_of self.old) }
        ensures no_call { length bytes.now ≡ 0 → plan_of self.new ≡ plan_of self.old }
        ensures fault { OnErr result (faults_of self.new ≡ one_more (faults_of self.old)) }
        ensures no_fault { OnOk result (faults_of self.new ≡ faults_of self.old) }
    {
        if bytes.is_empty() {
            return Ok(0);
        }
        let fails = self.plan.next_fails();
        let room = self.room - self.bytes.len();
        if fails || room == 0 {
            self.faults = self.faults.saturating_add(1);
            return Err(Failed);
        }
        let count = bytes.len().min(self.plan.piece().min(room));
        self.bytes.extend_from_slice(&bytes[..count]).unwrap();
        Ok(count)
    }
}
