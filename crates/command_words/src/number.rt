//! Numbers, as options have them.
ghost use Rattle.std.specs.Prelude.{◌≡◌, ◌≤◌, IsTrue, IfSome, length};
ghost use Rattle.clap.specs.Words.{found_of, first_value};
ghost use Rattle.command_words.specs.Words.{are_digits, number_after, number_in, number_or};

use clap::ArgMatches;

// As many digits as a number may have.
const DIGITS: usize = 7;

/// The number of an option, or the usual one where the option isn't given. `None` where the value is no number of one to
/// seven digits from `least` to `most`.
pub(crate) fn option_in(
    matches: &ArgMatches,
    name: &str,
    usual: u32,
    least: u32,
    most: u32,
) -> Option<u32>
    requires usual { (least ≤ usual) × (usual ≤ most) }
    ensures value { result ≡ number_or usual least most (first_value (found_of matches.now) name.now) }
    ensures within { IfSome result (λ number. (least ≤ number) × (number ≤ most)) }
{
    match matches.get_str(name) {
        Some(word) => number_in(word, least, most),
        None => Some(usual),
    }
}

/// The number that the word is: one to seven digits, leading zeros allowed, from `least` to `most`.
fn number_in(word: &str, least: u32, most: u32) -> Option<u32>
    ensures value { result ≡ number_in least most word.now }
    ensures within { IfSome result (λ number. (least ≤ number) × (number ≤ most)) }
{
    let bytes = word.as_bytes();
    if bytes.is_empty() || DIGITS < bytes.len() || !are_digits(bytes) {
        return None;
    }
    let number = number_of(bytes);
    if least <= number && number <= most {
        Some(number)
    } else {
        None
    }
}

fn are_digits(bytes: &[u8]) -> bool
    ensures { result ≡ are_digits bytes.now }
{
    bytes.iter().all(|b| b.is_ascii_digit())
}

fn number_of(digits: &[u8]) -> u32
    requires digits { IsTrue (are_digits digits.now) }
    requires few { length digits.now ≤ 7 }
    ensures { result ≡ number_after 0 digits.now }
{
    let mut number = 0;
    for digit in digits {
        number = number * 10 + u32::from(*digit - b'0');
    }
    number
}
