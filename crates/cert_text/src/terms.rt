//! The form of terms.
ghost use Rattle.std.specs.Prelude.{◌≡◌, ◌↔◌, ◌<◌, ◌^◌, ◌≤◌, IsTrue};
ghost use Rattle.cert_text.specs.TermForms.{IsTermText};
ghost use Rattle.cert_text.specs.TermScan as scanning;

use crate::words::is_word_byte;

// What a byte is in the text of a term.
#[derive(Clone, Copy)]
enum Mark {
    Letter,
    Open,
    Comma,
    Close,
    Other,
}

// Where the text of a term stands: a term is to come, it is in a word, or behind a closing bracket.
#[derive(Clone, Copy)]
enum Place {
    Start,
    Word,
    Closed,
}

fn mark_of(byte: u8) -> Mark
    ensures { result ≡ scanning.mark_of byte }
{
    if is_word_byte(byte) {
        return Mark::Letter;
    }
    match byte {
        b'(' => Mark::Open,
        b',' => Mark::Comma,
        b')' => Mark::Close,
        _ => Mark::Other,
    }
}

// Where the text stands behind the mark, and how many brackets are open there. `None` where the mark may not stand here.
fn step(mark: Mark, place: Place, depth: usize) -> Option<(Place, usize)>
    requires { depth < 2 ^ 63 }
    ensures { result ≡ scanning.step mark place depth }
{
    match (mark, place) {
        (Mark::Letter, Place::Start | Place::Word) => Some((Place::Word, depth)),
        (Mark::Open, Place::Word) => Some((Place::Start, depth + 1)),
        (Mark::Comma, Place::Word | Place::Closed) if depth > 0 => Some((Place::Start, depth)),
        (Mark::Close, Place::Word | Place::Closed) if depth > 0 => {
            Some((Place::Closed, depth - 1))
        }
        _ => None,
    }
}

// Whether the text may end here.
fn is_end(place: Place, depth: usize) -> bool
    ensures { result ≡ scanning.is_end place depth }
{
    match place {
        Place::Start => false,
        Place::Word | Place::Closed => depth == 0,
    }
}

/// Whether the text has the form of a term, over whatever signature. It takes no memory, however deep the term is.
pub(crate) fn is_term_text(text: &[u8]) -> bool
    ensures { IsTrue result ↔ IsTermText text.now }
{
    let mut place = Place::Start;
    let mut depth = 0;
    for byte in text {
        let Some((next, open)) = step(mark_of(*byte), place, depth) else {
            return false;
        };
        place = next;
        depth = open;
    }
    is_end(place, depth)
}
