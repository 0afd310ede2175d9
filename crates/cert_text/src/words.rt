//! Words of numbers.
ghost use Rattle.std.specs.Prelude.{◌≡◌, ◌↔◌, ℕ, ◌-◌, ◌^◌, ◌++◌, ◌∷◌, min, IsTrue, IfSome, IsNone, OnOk, map};
ghost use Rattle.std.specs.List.{list_all, join_with_byte};
ghost use Rattle.std.specs.Fmt.{decimal};
ghost use Rattle.ranked_terms.specs.Texts.{number_word};
ghost use Rattle.ranked_terms.specs.Words as words;
ghost use Rattle.cert_text.specs.Numerals.{IsSaturated, behind_each, is_digit, is_numeral, value_of};

use itoa::Buffer;
use std::alloc::AllocError;

/// Whether each byte is a digit.
fn are_digits(word: &[u8]) -> bool
    ensures { result ≡ list_all is_digit word.now }
{
    word.iter().all(|b| b'0' <= *b && *b <= b'9')
}

/// Whether the word is a number's: digits, and no leading zero.
fn is_numeral(word: &[u8]) -> bool
    ensures { result ≡ is_numeral word.now }
{
    match word {
        [] => false,
        [b'0', rest @ ..] => rest.is_empty(),
        [_, ..] => are_digits(word),
    }
}

/// The number that the digits write, or the greatest `u32` where it is greater.
fn saturated(digits: &[u8]) -> u32
    requires { IsTrue (list_all is_digit digits.now) }
    ensures { result ≡ min (value_of digits.now) (2 ^ 32 - 1) }
{
    let mut number: u32 = 0;
    for digit in digits {
        number = number
            .saturating_mul(10)
            .saturating_add(u32::from(*digit - b'0'));
    }
    number
}

/// The number whose word this is, or the greatest `u32` where it is greater; `None` exactly where it is no number's word.
pub(crate) fn number_of(word: &[u8]) -> Option<u32>
    ensures found { IfSome result (λ n. IsSaturated word.now n) }
    ensures none { IsNone result → (m : ℕ) → word.now ≡ number_word m → ⊥ }
{
    if is_numeral(word) {
        Some(saturated(word))
    } else {
        None
    }
}

/// Appends a number's word. At want of memory `out` is its old bytes.
pub(crate) fn push_number(out: &mut Vec<u8>, number: u32) -> Result<(), AllocError>
    ensures { OnOk result (out.new.items ≡ out.old.items ++ number_word number) }
{
    let mut buffer = Buffer::new();
    out.extend_from_slice(buffer.format(number).as_bytes())
}

/// Appends each number's word with this byte in front.
pub(crate) fn push_numbers(out: &mut Vec<u8>, byte: u8, numbers: &[u32]) -> Result<(), AllocError>
    ensures { OnOk result (out.new.items ≡ out.old.items ++ behind_each byte numbers.now) }
{
    for number in numbers {
        out.push(byte)?;
        push_number(out, *number)?;
    }
    Ok(())
}

/// Appends the numbers' words with this byte between.
pub(crate) fn push_joined(out: &mut Vec<u8>, byte: u8, numbers: &[u32]) -> Result<(), AllocError>
    ensures { OnOk result (out.new.items ≡ out.old.items ++ join_with_byte byte (map number_word numbers.now)) }
{
    match numbers {
        [] => Ok(()),
        [first, rest @ ..] => {
            push_number(out, *first)?;
            push_numbers(out, byte, rest)?;
            Ok(())
        }
    }
}

pub(crate) fn is_word_byte(b: u8) -> bool
    ensures { result ≡ words.is_word_byte b }
{
    b.is_ascii_alphanumeric()
        || matches!(
            b,
            b'_' | b'\'' | b'#' | b'!' | b'?' | b'@' | b'$' | b'&' | b'%' | b'.' | b'+' | b'/'
        )
}

/// Whether it is a word: one byte at least, and each one that a word may have.
pub(crate) fn is_word(text: &[u8]) -> bool
    ensures { IsTrue result ↔ words.IsWord text.now }
{
    !text.is_empty() && are_word_bytes(text)
}

// Whether each byte is one that a word may have.
fn are_word_bytes(text: &[u8]) -> bool
    ensures { result ≡ list_all words.is_word_byte text.now }
{
    text.iter().all(|b| is_word_byte(*b))
}
