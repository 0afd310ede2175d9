//! The words of a line, one by one, as slices of it.
ghost use Rattle.std.specs.Prelude.{◌≡◌, ◌↔◌, ℕ, List, ◌∷◌, ◌++◌, true, false, Ok, None, [], IsTrue, IsNone, IfOk, IfSome};
ghost use Rattle.std.specs.Prelude.{MatchOption, ◌≢◌, map, option_map};
ghost use Rattle.ranked_terms.specs.Texts.{number_word, with_args};
ghost use Rattle.ranked_terms.specs.Words.{IsWord};
ghost use Rattle.cert_text.specs.Cuts.{cut, behind, AppendsNumbers, Lacks, IsParted, IsNumberBehind, AppendsBehind, IsEps};
ghost use Rattle.cert_text.specs.Cuts.{eps_text, IsApplied, IsAroundArrow, arrow_text};
ghost use Rattle.std.specs.List.{join_with_byte};

use crate::words::{is_word, number_of};
use std::alloc::AllocError;

/// The first word of the bytes, and what stands behind the byte after it, where there is one.
pub(crate) fn front_word(line: &[u8], byte: u8) -> (&[u8], Option<&[u8]>)
    ensures { cut byte line.now ≡ result.0.now ∷ behind byte (option_map (λ rest. rest.now) result.1) }
{
    match parts(line, byte) {
        Some((word, rest)) => (word, Some(rest)),
        None => (line, None),
    }
}

/// Appends the numbers whose words these are, with such bytes between, the greatest `u32` in the place of greater ones.
/// `false` exactly where a word is no number's. The only error is running out of memory.
pub(crate) fn read_numbers(
    words: Option<&[u8]>,
    byte: u8,
    numbers: &mut Vec<u32>,
) -> Result<bool, AllocError>
    ensures yes { result ≡ Ok true → AppendsNumbers (behind byte (option_map
        (λ rest. rest.now) words.entry)) numbers.old.items numbers.new.items }
    ensures no { result ≡ Ok false → (ns : List ℕ)
        → behind byte (option_map (λ rest. rest.now) words.entry) ≡ map number_word ns → ⊥ }
{
    let mut left = words;
    while let Some(line) = left {
        let (word, rest) = front_word(line, byte);
        let Some(number) = number_of(word) else {
            return Ok(false);
        };
        numbers.push(number)?;
        left = rest;
    }
    Ok(true)
}

/// What stands in front of the first such byte, and what behind it. `None` exactly where there is none.
pub(crate) fn parts(text: &[u8], byte: u8) -> Option<(&[u8], &[u8])>
    ensures some { IfSome result (λ r. IsParted byte text.now r.0.now r.1.now) }
    ensures none { IsNone result → Lacks byte text.now }
{
    match text.iter().position(|b| *b == byte) {
        Some(at) => Some((&text[..at], &text[at + 1..])),
        None => None,
    }
}

/// Whether the two are the same bytes.
pub(crate) fn is_text(text: &[u8], other: &[u8]) -> bool
    ensures { IsTrue result ↔ (text.now ≡ other.now) }
{
    text == other
}

/// What stands behind the head, where the text begins with it.
pub(crate) fn behind_head<'a>(text: &'a [u8], head: &[u8]) -> Option<&'a [u8]>
    ensures { MatchOption result ((rest : List ℕ) → text.now ≢ head.now ++ rest) (λ rest. text.now ≡ head.now ++ rest.now) }
{
    text.strip_prefix(head)
}

/// The number behind the head, the greatest `u32` in the place of a greater one.
pub(crate) fn number_behind(text: &[u8], head: &[u8]) -> Option<u32>
    ensures some { IfSome result (λ n. IsNumberBehind head.now text.now n) }
    ensures none { IsNone result → (m : ℕ) → text.now ≡ head.now ++ number_word m → ⊥ }
{
    number_of(behind_head(text, head)?)
}

/// Appends the numbers behind the head, the greatest `u32` in the place of greater ones. `false` exactly where it is not the head
/// with words of numbers. The only error is want of memory.
pub(crate) fn numbers_behind(
    text: &[u8],
    head: &[u8],
    numbers: &mut Vec<u32>,
) -> Result<bool, AllocError>
    ensures yes { result ≡ Ok true → AppendsBehind head.now text.now numbers.old.items numbers.new.items }
    ensures no { result ≡ Ok false → (ns : List ℕ) → text.now ≡ join_with_byte 32 (head.now ∷ map number_word ns) → ⊥ }
{
    let Some(rest) = behind_head(text, head) else {
        return Ok(false);
    };
    if rest.is_empty() {
        return Ok(true);
    }
    let Some(words) = behind_head(rest, b" ") else {
        return Ok(false);
    };
    read_numbers(Some(words), b' ', numbers)
}

/// The states of an epsilon transition's line, the greatest `u32` in the place of greater numbers.
pub(crate) fn eps_of(text: &[u8]) -> Option<(u32, u32)>
    ensures some { IfSome result (λ e. IsEps text.now e.0 e.1) }
    ensures none { IsNone result → (p q : ℕ) → text.now ≡ eps_text p q → ⊥ }
{
    let (from, rest) = parts(behind_head(text, b"E ")?, b' ')?;
    let from = number_of(from)?;
    let to = number_behind(rest, b"-> ")?;
    Some((from, to))
}

/// What stands in front of the last byte, where it is this one.
fn without_last(text: &[u8], byte: u8) -> Option<&[u8]>
    ensures { MatchOption result ((front : List ℕ) → text.now ≢ front ++ byte ∷ []) (λ front. text.now ≡ front.now ++ byte ∷ []) }
{
    text.strip_suffix(&[byte])
}

/// The name, where the word is a name with numbers in brackets, which are appended, or a name alone. The only error is
/// running out of memory.
pub(crate) fn applied_of<'a>(
    word: &'a [u8],
    numbers: &mut Vec<u32>,
) -> Result<Option<&'a [u8]>, AllocError>
    ensures some { IfOk result (λ o. IfSome o (λ name. IsApplied word.now name.now numbers.old.items numbers.new.items)) }
    ensures none { result ≡ Ok None → (f : List ℕ) (qs : List ℕ) → IsWord f → word.now ≡ with_args f (map number_word qs) → ⊥ }
{
    let Some((name, inside)) = parts(word, b'(') else {
        return Ok(if is_word(word) { Some(word) } else { None });
    };
    if !is_word(name) {
        return Ok(None);
    }
    let Some(args) = without_last(inside, b')') else {
        return Ok(None);
    };
    if !read_numbers(Some(args), b',', numbers)? {
        return Ok(None);
    }
    Ok(Some(name))
}

/// The word in front of the arrow of a transition, and the target, the greatest `u32` in the place of a greater number.
pub(crate) fn around_arrow(text: &[u8]) -> Option<(&[u8], u32)>
    ensures some { IfSome result (λ r. IsAroundArrow text.now r.0.now r.1) }
    ensures none { IsNone result → (word : List ℕ) (q : ℕ) → Lacks 32 word → text.now ≡ arrow_text word q → ⊥ }
{
    let (word, rest) = parts(behind_head(text, b"T ")?, b' ')?;
    let to = number_behind(rest, b"-> ")?;
    Some((word, to))
}
