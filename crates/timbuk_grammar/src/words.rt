//! The words that are no names.
ghost use Rattle.std.specs.Prelude.{◌≡◌};
ghost use Rattle.timbuk_grammar.specs.Vocabulary.{is_closed, is_reserved};

/// The words that divide a text into its sections.
const SECTION_WORDS: [&[u8]; 12] = [
    b"Ops",
    b"Vars",
    b"TRS",
    b"Automaton",
    b"States",
    b"Description",
    b"Final",
    b"Prior",
    b"Transitions",
    b"Equations",
    b"Approximation",
    b"Rules",
];

/// Words that no text of the format has.
const CLOSED_WORDS: [&[u8]; 3] = [b"Import", b"Set", b"Patterns"];

/// Whether the word is a closed word: one that is kept for later and stands nowhere in a text.
#[tactic(auto, unfolding(crate::specs::Vocabulary::is_closed))]
pub fn is_closed_word(text: &[u8]) -> bool
    ensures { result ≡ is_closed text.now }
{
    CLOSED_WORDS.contains(&text)
}

/// Whether the word is a section word or a closed word, so no name.
#[tactic(auto, unfolding(crate::specs::Vocabulary::is_reserved))]
pub fn is_reserved_word(text: &[u8]) -> bool
    ensures { result ≡ is_reserved text.now }
{
    SECTION_WORDS.contains(&text) || is_closed_word(text)
}
