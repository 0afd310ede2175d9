//! Exit statuses.
ghost use Rattle.std.specs.Prelude.{◌≡◌};
ghost use Rattle.calls.specs.Codes.{code_of};

/// How a run ended.
#[derive(Clone, Copy, Debug, PartialEq, Eq)]
pub enum Status {
    /// No reachable term is forbidden, and the text written shows it.
    Unreachable,
    /// A forbidden term is reachable, and the text written shows it.
    Reachable,
    /// Nothing is settled within the limits.
    Undecided,
    /// The certificate shows what it claims.
    Accepted,
    /// The certificate doesn't show what it claims.
    Rejected,
    /// The arguments are invalid.
    BadWords,
    /// The file is no specification.
    BadSpec,
    /// The file is no certificate.
    BadCert,
    /// A file has more bytes than it may have.
    TooLong,
    /// A file could not be read.
    ReadFault,
    /// The output took no more; a part of the text is written.
    WriteFault,
    /// There was no memory; nothing is written.
    Memory,
}

impl Status {
    /// The exit status of the program.
    pub fn code(self) -> u8
        ensures { result ≡ code_of self }
    {
        match self {
            Status::Unreachable => 0,
            Status::Reachable => 1,
            Status::Undecided => 2,
            Status::Accepted => 0,
            Status::Rejected => 3,
            Status::BadWords => 64,
            Status::BadSpec => 65,
            Status::BadCert => 66,
            Status::TooLong => 67,
            Status::ReadFault => 70,
            Status::WriteFault => 71,
            Status::Memory => 75,
        }
    }
}
