//! Laws of the lexing and of words.
ghost use Rattle.std.specs.Prelude.{List, ℕ, All};
ghost use Rattle.std.specs.Str.{IsUtf8};
ghost use Rattle.ranked_terms.specs.Words.{IsWord};
ghost use Rattle.timbuk_lex.specs.Lexing.{lexed};
ghost use Rattle.timbuk_lex.specs.Laws.{HasWord, IsOneCut};

/// The tokens of a text are the only way to cut it: the bytes are its blanks, comments and tokens put together again in
/// order, no byte is lost or read twice, words are as long as they can be, and the ending is the first fault, if any.
pub fn lexing_law()
    ensures { (bytes : List ℕ) → IsOneCut bytes }
{}

/// A word is UTF-8, since its bytes are ASCII.
pub fn word_law()
    ensures { (text : List ℕ) → IsWord text → IsUtf8 text }
{}

/// The text of each word among the tokens of a text is a word.
pub fn token_words_law()
    ensures { (bytes : List ℕ) → All HasWord (lexed bytes).tokens }
{}
