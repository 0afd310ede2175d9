//! Reading terms.
ghost use Rattle.std.specs.Prelude.{◌≡◌, ◌≢◌, ◌↔◌, [], ◌∷◌, ◌++◌, ℕ, List, IsTrue, IfOk, MatchOption, Some, length, ◌≤◌};
ghost use Rattle.std.specs.List.{prefix_len};
ghost use Rattle.ranked_terms.specs.SignatureRules.{IsSignature};
ghost use Rattle.ranked_terms.specs.Words as words;
ghost use Rattle.ranked_terms.specs.declared.term.Term.{Term as Ground};
ghost use Rattle.ranked_terms.specs.Texts.{IsTextOf, IsHead, BeginsNoSymbol, BeginsNoTerm, BeginsWith, Stops, to_come};

use crate::seq::Seq;
use crate::signature::Signature;
use crate::term::Term;
use std::alloc::{AllocError, Global};

/// The largest number of symbols of a term that is read.
pub const MAX_SIZE: u32 = 1024;

/// The term over the signature whose printed text this is, where it has at most `MAX_SIZE` symbols; there is at most one.
/// `None` exactly where the text is not the text of such a term. The only error is running out of memory.
pub fn term_from(alloc: Global, sig: &Signature, text: &[u8]) -> Result<Option<Term>, AllocError>
    ensures { IfOk result (λ o. (t : Ground) → (o ≡ Some t) ↔ IsTextOf sig.now text.now t) }
{
    // For the proof: the symbols have different names, which are words.
    let _symbols = sig.len();
    let Some(read) = read_term(alloc, sig, text, MAX_SIZE)? else {
        return Ok(None);
    };
    if !read.rest.is_empty() {
        return Ok(None);
    }
    Ok(Some(read.term))
}

// A term at the front of a text, what stands behind it, and how many symbols more might have stood there.
#[derive(Drop)]
struct Read<'a> {
    term: Term,
    rest: &'a [u8],
    left: u32,
}

// The term of at most so many symbols at the front of a text. Neither a word byte nor an opening parenthesis follows it.
fn read_term<'a>(
    alloc: Global,
    sig: &Signature,
    text: &'a [u8],
    room: u32,
) -> Result<Option<Read<'a>>, AllocError>
    requires { IsSignature sig.now }
    ensures { IfOk result (λ o. MatchOption o (BeginsNoTerm sig.now text.now room)
        (λ read. BeginsWith sig.now text.now room read.term read.rest.now read.left)) }
{
    if room == 0 {
        return Ok(None);
    }
    let Some(head) = read_head(sig, text) else {
        return Ok(None);
    };
    let mut args = Seq::new(alloc);
    let mut rest = head.rest;
    let mut left = room - 1;
    let mut mark = b'(';
    for _ in 0..head.arity {
        let Some(inner) = after_byte(rest, mark) else {
            return Ok(None);
        };
        let Some(read) = read_term(alloc, sig, inner, left)? else {
            return Ok(None);
        };
        args.push(read.term)?;
        rest = read.rest;
        left = read.left;
        mark = b',';
    }
    let Some(rest) = after_args(rest, mark) else {
        return Ok(None);
    };
    Ok(Some(Read {
        term: Term {
            sym: head.sym,
            args,
        },
        rest,
        left,
    }))
}

// A symbol at the front of a text, its arity, and what stands behind its name.
#[derive(Clone, Copy)]
struct Head<'a> {
    sym: u32,
    arity: u32,
    rest: &'a [u8],
}

// The symbol whose name is the longest word at the front of a text.
fn read_head<'a>(sig: &Signature, text: &'a [u8]) -> Option<Head<'a>>
    requires { IsSignature sig.now }
    ensures { MatchOption result (BeginsNoSymbol sig.now text.now)
        (λ head. IsHead sig.now text.now head.sym head.arity head.rest.now) }
{
    let (word, rest) = text.split_at(word_len(text));
    let Ok(name) = str::from_utf8(word) else {
        return None;
    };
    let sym = sig.find(name)?;
    let arity = sig.arity(sym)?;
    Some(Head { sym, arity, rest })
}

// The length of the longest word at the front of a text.
fn word_len(text: &[u8]) -> usize
    ensures value { result ≡ prefix_len words.is_word_byte text.now }
    ensures within { result ≤ length text.now }
{
    let mut len = 0;
    while len < text.len() && is_word_byte(text[len]) {
        len += 1;
    }
    len
}

fn is_word_byte(b: u8) -> bool
    ensures { result ≡ words.is_word_byte b }
{
    b.is_ascii_alphanumeric()
        || matches!(
            b,
            b'_' | b'\'' | b'#' | b'!' | b'?' | b'@' | b'$' | b'&' | b'%' | b'.' | b'+' | b'/'
        )
}

// What stands behind the arguments, where the next one would have this mark in front: a closing parenthesis is to come if
// there was any. Neither a word byte nor an opening parenthesis follows.
fn after_args(text: &[u8], mark: u8) -> Option<&[u8]>
    ensures { MatchOption result ((rest : List ℕ) → Stops rest → text.now ≢ to_come mark [] ++ rest)
        (λ rest. (text.now ≡ to_come mark [] ++ rest.now) × Stops rest.now) }
{
    let rest = if mark == b',' {
        after_byte(text, b')')?
    } else {
        text
    };
    if stops(rest) { Some(rest) } else { None }
}

// What stands behind this byte, if it is the first one of the text.
fn after_byte(text: &[u8], byte: u8) -> Option<&[u8]>
    ensures { MatchOption result ((rest : List ℕ) → text.now ≢ byte ∷ rest) (λ rest. text.now ≡ byte ∷ rest.now) }
{
    if text.is_empty() || text[0] != byte {
        return None;
    }
    Some(&text[1..])
}

// Whether neither a word byte nor an opening parenthesis stands at the front of the text.
fn stops(text: &[u8]) -> bool
    ensures { IsTrue result ↔ Stops text.now }
{
    text.is_empty() || !is_word_byte(text[0]) && text[0] != b'('
}
