//! Laws of the grammar.
ghost use Rattle.std.specs.Prelude.{List};
ghost use Rattle.timbuk_lex.specs.declared.lexeme.Lexeme.{Lexeme};
ghost use Rattle.timbuk_grammar.specs.Grammar.{Part};
ghost use Rattle.timbuk_grammar.specs.Laws.{NextLaw, PartsLaw, TreeLaw};

/// After any tokens, those that stand next in a derivation are those that are computed, one token at a time. A token that
/// stands next matches just one terminal of the grammar there.
pub fn next_law()
    ensures { (before : List Lexeme) → NextLaw before }
{}

/// The computed choices follow the grammar's form: a part is taken apart, and one token decides where it has a choice.
pub fn parts_law()
    ensures { (behind : List Part) → PartsLaw behind }
{}

/// No text has two derivations: the tokens of a file have just one tree, and other tokens have none.
pub fn no_text_has_two_derivations()
    ensures { (tokens : List Lexeme) → TreeLaw tokens }
{}
