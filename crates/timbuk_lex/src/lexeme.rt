//! Tokens as slices of the input.
ghost use Rattle.std.specs.Prelude.{◌≡◌};

use std::marker::Model;

/// Bytes of the input, which contracts see as their list.
#[derive(Debug, Drop)]
pub struct Slice<'a> {
    bytes: &'a [u8],
}

impl<'a> Model for Slice<'a> {
    ghost use Rattle.std.specs.Prelude.{List, ℕ};
    ghost use Rattle.std.specs.Coded.{coded_list, coded_ℕ};

    ghost Value = { List ℕ };

    ghost coded = { coded_list coded_ℕ };

    ghost view = { λ slice. slice.bytes.now };
}

impl<'a> Slice<'a> {
    /// These bytes, where they lie.
    pub fn new(bytes: &'a [u8]) -> Slice<'a>
        ensures { result ≡ bytes.now }
    {
        Slice { bytes }
    }

    /// The bytes in order.
    pub fn as_slice(&self) -> &'a [u8]
        ensures { result.now ≡ self.now }
    {
        self.bytes
    }
}

/// What a token is.
#[derive(Clone, Copy, Debug, Drop, PartialEq, Eq)]
pub enum TokenKind {
    /// A longest run of letters, digits and the bytes ``_ ' # ! ? @ $ & % . + /``.
    Word,
    /// From a quote to the next quote, both included.
    Text,
    /// One of `: ( ) , -> = [ ]`.
    Mark,
}

/// A token of the input, in place.
#[derive(Debug, Drop)]
pub struct Lexeme<'a> {
    /// What the token is.
    pub kind: TokenKind,
    /// The bytes of the token.
    pub text: Slice<'a>,
    /// How many bytes stand before it.
    pub start: usize,
    /// Its line, counted from 1.
    pub line: u32,
    /// The column of its first byte, counted in bytes of the line from 1.
    pub column: u32,
}
