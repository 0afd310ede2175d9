//! How an object in memory behaves.
ghost use Rattle.std.specs.Prelude.{◌≡◌, ◌↔◌, IsTrue};

use ranked_terms::Seq;

/// How many bytes a call moves, which calls fail, and how many calls there were. Calls are counted from 1.
#[derive(Debug, Drop)]
pub struct Plan {
    piece: usize,
    fails: Seq<u64>,
    calls: u64,
}

impl Plan {
    ghost use Rattle.tim_io.specs.Plans.{after_call, FailsNext};

    /// A plan before its first call.
    pub fn new(piece: usize, fails: Seq<u64>) -> Plan
        ensures { result ≡ record { piece = piece; fails = fails; calls = 0 } }
    {
        Plan {
            piece,
            fails,
            calls: 0,
        }
    }

    /// The most bytes that a call moves.
    pub fn piece(&self) -> usize
        ensures { result ≡ self.now.piece }
    {
        self.piece
    }

    /// Counts a call, and says whether it is to fail.
    pub fn next_fails(&mut self) -> bool
        ensures counted { self.new ≡ after_call self.old }
        ensures fails { IsTrue result ↔ FailsNext self.old }
    {
        self.calls = self.calls.saturating_add(1);
        self.fails.as_slice().contains(&self.calls)
    }
}
