//! The piece at the front of a text: a blank, a comment, a token or a fault.
ghost use Rattle.std.specs.Prelude.{◌≡◌, ◌≢◌, slice_index, position, ◌≤◌, ◌<◌, ◌+◌, length, drop, IfSome};
ghost use Rattle.std.specs.List.{prefix_len};
ghost use Rattle.ranked_terms.specs.Words as words;
ghost use Rattle.timbuk_lex.specs.Bytes as class;
ghost use Rattle.timbuk_lex.specs.Pieces as pieces;
ghost use Rattle.timbuk_lex.specs.Pieces.{Fits};

use crate::lexeme::TokenKind;

/// Why no token and no gap begins at a byte.
#[derive(Clone, Copy, Debug, Drop, PartialEq, Eq)]
pub enum LexFault {
    /// The byte begins no token, as a `-` without `>`.
    BadByte,
    /// A `(*` without a later `*)`.
    OpenComment,
    /// A quote without a later quote.
    OpenText,
}

/// What stands at the front of a text, and how many bytes it has.
#[derive(Clone, Copy)]
pub enum Piece {
    /// A blank or a comment.
    Gap(usize),
    /// A token.
    Token(TokenKind, usize),
    /// Nothing that has an end.
    Fault(LexFault),
}

#[tactic(auto, unfolding(crate::specs::Bytes::is_blank))]
fn is_blank(b: u8) -> bool
    ensures { result ≡ class.is_blank b }
{
    matches!(b, b' ' | b'\t' | b'\r' | b'\n')
}

fn is_word_byte(b: u8) -> bool
    ensures { result ≡ words.is_word_byte b }
{
    b.is_ascii_alphanumeric()
        || matches!(
            b,
            b'_' | b'\'' | b'#' | b'!' | b'?' | b'@' | b'$' | b'&' | b'%' | b'.' | b'+' | b'/'
        )
}

#[tactic(auto, unfolding(crate::specs::Bytes::is_mark_byte))]
fn is_mark_byte(b: u8) -> bool
    ensures { result ≡ class.is_mark_byte b }
{
    matches!(b, b':' | b'(' | b')' | b',' | b'=' | b'[' | b']')
}

/// The length of the longest word at the front.
fn word_len(bytes: &[u8]) -> usize
    ensures value { result ≡ prefix_len words.is_word_byte bytes.now }
    ensures within { result ≤ length bytes.now }
{
    let mut len = 0;
    while len < bytes.len() && is_word_byte(bytes[len]) {
        len += 1;
    }
    len
}

/// Where the first `*)` begins.
fn close_at(bytes: &[u8]) -> Option<usize>
    ensures value { result ≡ class.close_at bytes.now }
    ensures within { IfSome result (λ n. n + 2 ≤ length bytes.now) }
{
    for i in 1..bytes.len() {
        if bytes[i - 1] == b'*' && bytes[i] == b')' {
            return Some(i - 1);
        }
    }
    None
}

/// Where the first quote stands.
fn quote_at(bytes: &[u8]) -> Option<usize>
    ensures value { result ≡ position class.is_quote bytes.now }
    ensures within { IfSome result (λ n. n < length bytes.now) }
{
    bytes.iter().position(|b| *b == b'"')
}

/// The byte at a place, and 0 behind the end.
fn byte_at(bytes: &[u8], at: usize) -> u8
    ensures value { result ≡ slice_index bytes.now at }
    ensures within { result ≢ 0 → at < length bytes.now }
{
    if at < bytes.len() { bytes[at] } else { 0 }
}

/// The piece at a quote.
fn quoted(rest: &[u8]) -> Piece
    requires { 0 < length rest.now }
    ensures value { result ≡ pieces.quoted (position class.is_quote (drop 1 rest.now)) }
    ensures within { Fits result (length rest.now) }
{
    match quote_at(&rest[1..]) {
        Some(len) => Piece::Token(TokenKind::Text, len + 2),
        None => Piece::Fault(LexFault::OpenText),
    }
}

/// The piece at a `(*`.
fn comment(rest: &[u8]) -> Piece
    requires { 2 ≤ length rest.now }
    ensures value { result ≡ pieces.comment (class.close_at (drop 2 rest.now)) }
    ensures within { Fits result (length rest.now) }
{
    match close_at(&rest[2..]) {
        Some(len) => Piece::Gap(len + 4),
        None => Piece::Fault(LexFault::OpenComment),
    }
}

/// The piece at the front. A word is as long as it can be.
#[tactic(auto, unfolding(crate::specs::Pieces::front))]
pub fn front(rest: &[u8]) -> Piece
    requires { 0 < length rest.now }
    ensures value { result ≡ pieces.front rest.now }
    ensures within { Fits result (length rest.now) }
{
    let b = rest[0];
    let next = byte_at(rest, 1);
    if is_blank(b) {
        Piece::Gap(1)
    } else if is_word_byte(b) {
        Piece::Token(TokenKind::Word, word_len(rest))
    } else if b == b'"' {
        quoted(rest)
    } else if b == b'(' && next == b'*' {
        comment(rest)
    } else if b == b'-' && next == b'>' {
        Piece::Token(TokenKind::Mark, 2)
    } else if is_mark_byte(b) {
        Piece::Token(TokenKind::Mark, 1)
    } else {
        Piece::Fault(LexFault::BadByte)
    }
}
