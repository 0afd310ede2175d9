//! Lines and columns.
ghost use Rattle.std.specs.Prelude.{◌≡◌, ◌≤◌, ◌<◌, ◌+◌, ◌-◌, ◌^◌, ◌++◌, List, ℕ, [], length};
ghost use Rattle.timbuk_lex.specs.Places.{IsPlace};

/// A line and a column, both counted from 1.
#[derive(Clone, Copy)]
pub struct Place {
    pub line: u32,
    pub column: u32,
}

impl Place {
    /// The place before the first byte.
    pub fn first() -> Place
        ensures { result ≡ record { line = 1; column = 1 } }
    {
        Place { line: 1, column: 1 }
    }

    /// The place after these bytes.
    pub fn after(self, bytes: &[u8]) -> Place
        requires line { self.line + length bytes.now < 2 ^ 32 }
        requires column { self.column + length bytes.now < 2 ^ 32 }
        ensures follows { (before : List ℕ) → IsPlace self before → IsPlace result (before ++ bytes.now) }
        ensures line { result.line ≤ self.line + length bytes.now }
        ensures column { result.column ≤ self.column + length bytes.now }
    {
        let mut place = self;
        for b in bytes {
            if *b == b'\n' {
                place.line += 1;
                place.column = 1;
            } else {
                place.column += 1;
            }
        }
        place
    }
}

/// The place after the last byte of a text of fewer than 4,294,967,295 bytes, so that lines and columns fit.
pub fn end_of(bytes: &[u8]) -> Place
    requires { length bytes.now < 2 ^ 32 - 1 }
    ensures { IsPlace result bytes.now }
{
    Place::first().after(bytes)
}
