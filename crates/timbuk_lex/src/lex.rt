//! Cuts a text into its tokens.
ghost use Rattle.std.specs.Prelude.{◌≡◌, ◌-◌, ◌<◌, ◌^◌, length, All, IfOk};
ghost use Rattle.timbuk_lex.specs.Lexing.{lexed};
ghost use Rattle.timbuk_lex.specs.Laws.{HasWord, IsSliceOf, InOrder};

use crate::lexeme::{Lexeme, Slice};
use crate::piece::{LexFault, Piece, front};
use crate::place::Place;
use ranked_terms::Seq;
use std::alloc::{AllocError, Global};

/// How a text ends.
#[derive(Clone, Copy, Debug, Drop, PartialEq, Eq)]
pub enum Ending {
    /// Each byte belongs to a token, a blank or a comment.
    Whole,
    /// At this place begins what has no end or is no token, and nothing after it was looked at.
    Stopped {
        /// What is wrong there.
        why: LexFault,
        /// The line of the byte, counted from 1.
        line: u32,
        /// Its column, counted in bytes of the line from 1.
        column: u32,
    },
}

/// The tokens of a text up to its end, or up to the first byte that begins none.
#[derive(Debug, Drop)]
pub struct Lexed<'a> {
    /// The tokens in order.
    pub tokens: Seq<Lexeme<'a>>,
    /// Whether these are all.
    pub ending: Ending,
}

/// The tokens of a text of fewer than 4,294,967,295 bytes, so that lines and columns fit. The only error is running out of
/// memory; what is wrong in the text is reported in the ending.
pub fn lex_of<'a>(alloc: Global, bytes: &'a [u8]) -> Result<Lexed<'a>, AllocError>
    requires { length bytes.now < 2 ^ 32 - 1 }
    ensures exact { IfOk result (λ l. l ≡ lexed bytes.now) }

    // What follows for the tokens.
    ensures words { IfOk result (λ l. All HasWord l.tokens) }
    ensures slices { IfOk result (λ l. All (IsSliceOf bytes.now) l.tokens) }
    ensures in_order { IfOk result (λ l. InOrder 0 l.tokens) }
{
    let mut tokens = Seq::new(alloc);
    let mut place = Place::first();
    let mut start = 0;
    while start < bytes.len() {
        let rest = &bytes[start..];
        let len = match front(rest) {
            Piece::Gap(len) => len,
            Piece::Token(kind, len) => {
                tokens.push(Lexeme {
                    kind,
                    text: Slice::new(&rest[..len]),
                    start,
                    line: place.line,
                    column: place.column,
                })?;
                len
            }
            Piece::Fault(why) => {
                let ending = Ending::Stopped {
                    why,
                    line: place.line,
                    column: place.column,
                };
                return Ok(Lexed { tokens, ending });
            }
        };
        place = place.after(&rest[..len]);
        start += len;
    }
    Ok(Lexed {
        tokens,
        ending: Ending::Whole,
    })
}
