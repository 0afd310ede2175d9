//! Terms of 1,024 symbols: their texts, steps and derivations.
use crate::texts::system_of;
use ranked_terms::{
    Binding, Pattern, Position, Seq, Signature, Term, instance, laws, match_term, term_from,
};
use std::alloc::{AllocError, Global};
use std::test::Fail;
use trs_rules::{DStep, Derivation, Rule, Successor, first_bad_step, replays, successors};

/// A rule for a constant.
const RENAMING: &str = "Ops a:0 b:0 s:1 TRS R a -> b Automaton A States Final States Transitions";

/// The term that a text spells.
fn term(alloc: Global, signature: &Signature, text: &str) -> Result<Term, Fail> {
    let found = term_from(alloc, signature, text.as_bytes())?;
    let term = found.ok_or("no term")?;
    Ok(term)
}

/// An arrow before what is printed of the term that the bytes spell, where they spell one.
fn printed(alloc: Global, signature: &Signature, text: &[u8]) -> Result<Option<Vec<u8>>, Fail> {
    let Some(term) = term_from(alloc, signature, text)? else {
        return Ok(None);
    };
    let mut out = b"-> ".to_vec(alloc)?;
    term.print_into(signature, &mut out)?;
    Ok(Some(out))
}

/// Whether the bytes spell a term, and its text is the bytes.
fn is_text(alloc: Global, signature: &Signature, text: &[u8]) -> Result<bool, Fail> {
    let found = printed(alloc, signature, text)?;
    Ok(found.is_some_and(|out| out.as_slice().strip_prefix(b"-> ") == Some(text)))
}

/// The positions of the term that a text spells, and the steps from it.
fn steps_of(
    alloc: Global,
    signature: &Signature,
    rules: &[Rule],
    text: &str,
) -> Result<(Seq<Position>, Seq<Successor>), Fail> {
    // For the proof: the arguments of a term over a signature can be named by 32 bits.
    laws::of_terms_over();
    let _symbols = signature.len();
    if rules.len() > 9 {
        return Err("many rules".into());
    }
    let Some(term) = term_from(alloc, signature, text.as_bytes())? else {
        return Err("no term".into());
    };
    let positions = term.positions(alloc)?;
    let steps = successors(alloc, rules, &term)?;
    Ok((positions, steps))
}

/// The first bad step of a derivation, after a test that a copy of it replays where there is none.
fn bad_step(alloc: Global, rules: &[Rule], derivation: &Derivation) -> Result<Option<u32>, Fail> {
    let copy = derivation.copy(alloc)?;
    if copy.steps.len() > 9 || derivation.steps.len() > 9 {
        return Err("many steps".into());
    }
    let bad = first_bad_step(rules, derivation);
    if replays(rules, &copy) != bad.is_none() {
        return Err("they differ".into());
    }
    Ok(bad)
}

/// `s` so many times before `a`.
fn tower(alloc: Global, height: u32) -> Result<String, AllocError> {
    let mut text = String::new(alloc);
    for _ in 0..height {
        text.push_str("s(")?;
    }
    text.push_str("a")?;
    for _ in 0..height {
        text.push_str(")")?;
    }
    Ok(text)
}

/// The size and the height, each up to 2,000 and up to 7.
fn measures(term: &Term) -> [u32; 4] {
    [
        term.size_to(2000),
        term.size_to(7),
        term.height_to(2000),
        term.height_to(7),
    ]
}

/// Whether the term has a subterm at the position, and can be put into itself there.
fn has_subterm(alloc: Global, term: &Term, at: &Position) -> Result<bool, AllocError> {
    let whole = term.replace(alloc, at, term)?;
    Ok(term.subterm(at).is_some() && whole.is_some())
}

/// Whether `s` so many times before `a` is a term, and printed so.
fn is_tower(alloc: Global, height: u32) -> Result<bool, Fail> {
    let (signature, _) = system_of(alloc, RENAMING)?;
    let text = tower(alloc, height)?;
    is_text(alloc, &signature, text.as_bytes())
}

/// The measures of the term of 1,024 symbols.
fn deep_measures(alloc: Global) -> Result<[u32; 4], Fail> {
    let (signature, _) = system_of(alloc, RENAMING)?;
    let text = tower(alloc, 1023)?;
    let deep = term(alloc, &signature, text.as_str())?;
    Ok(measures(&deep))
}

/// Whether the bytes are no text of a term.
fn is_no_text(alloc: Global, text: &[u8]) -> Result<bool, Fail> {
    let (signature, _) = system_of(alloc, RENAMING)?;
    let found = printed(alloc, &signature, text)?;
    Ok(found.is_none())
}

/// Whether `s` so many times before `a` is no text of a term.
fn is_no_tower(alloc: Global, height: u32) -> Result<bool, Fail> {
    let text = tower(alloc, height)?;
    is_no_text(alloc, text.as_bytes())
}

#[test]
fn a_text_of_1024_symbols_spells_a_term(rt: HostRuntime) -> Result<(), Fail> {
    assert!(rt; is_tower(rt.alloc(), 1023)?);
    assert_eq!(rt; deep_measures(rt.alloc())?, [1024, 7, 1024, 7]);
    // One symbol more is one too many.
    assert!(rt; is_no_tower(rt.alloc(), 1024)?);
    assert!(rt; is_no_text(rt.alloc(), b"s(\xff)")?);
    Ok(())
}

/// The derivation of the one step.
fn of_step(alloc: Global, start: Term, step: &Successor) -> Result<Derivation, Fail> {
    let at = Position::from_slice(alloc, step.at.as_slice())?;
    let term = step.term.copy(alloc)?;
    let rule = step.rule;
    let mut steps = Seq::new(alloc);
    steps.push(DStep { rule, at, term })?;
    Ok(Derivation { start, steps })
}

/// Whether the step from the term has a position of it, and replays.
fn is_replayed(alloc: Global, rules: &[Rule], start: Term, step: &Successor) -> Result<bool, Fail> {
    if !has_subterm(alloc, &start, &step.at)? {
        return Ok(false);
    }
    let derivation = of_step(alloc, start, step)?;
    Ok(bad_step(alloc, rules, &derivation)?.is_none())
}

/// Whether each of the steps from the term that the text spells is replayed.
fn are_replayed(
    alloc: Global,
    signature: &Signature,
    rules: &[Rule],
    text: &str,
    steps: &[Successor],
) -> Result<bool, Fail> {
    for step in steps {
        let start = term(alloc, signature, text)?;
        if !is_replayed(alloc, rules, start, step)? {
            return Ok(false);
        }
    }
    Ok(true)
}

/// Whether the term of 1,024 symbols has so many positions and one step, which is replayed.
fn has_one_step(alloc: Global, signature: &Signature, rules: &[Rule]) -> Result<bool, Fail> {
    let text = tower(alloc, 1023)?;
    let (positions, found) = steps_of(alloc, signature, rules, text.as_str())?;
    let are_all = are_replayed(alloc, signature, rules, text.as_str(), found.as_slice())?;
    Ok(positions.len() == 1024 && found.len() == 1 && are_all)
}

/// Whether the term of 1,024 symbols has one step by the rule for a constant, which is replayed.
fn is_renamed_in_one_step(alloc: Global) -> Result<bool, Fail> {
    let (signature, rules) = system_of(alloc, RENAMING)?;
    has_one_step(alloc, &signature, rules.as_slice())
}

#[test]
fn a_step_inside_of_1024_symbols_is_found_and_replays(rt: HostRuntime) -> Result<(), Fail> {
    assert!(rt; is_renamed_in_one_step(rt.alloc())?);
    Ok(())
}

/// The symbol so many times before a variable.
fn nested(alloc: Global, sym: u32, height: u32) -> Result<Pattern, AllocError> {
    let mut pattern = Pattern::Var(0);
    for _ in 0..height {
        let mut arguments = Seq::new(alloc);
        arguments.push(pattern)?;
        pattern = Pattern::App(sym, arguments);
    }
    Ok(pattern)
}

/// The rule from so many symbols before a variable to the same.
fn nested_rule(alloc: Global, sym: u32, height: u32) -> Result<Rule, Fail> {
    let left = nested(alloc, sym, height)?;
    let right = nested(alloc, sym, height)?;
    let rule = Rule::new(left, right).ok().ok_or("no rule")?;
    Ok(rule)
}

/// Whether the steps are one at the root to the term that the text spells.
fn is_root_step(
    alloc: Global,
    signature: &Signature,
    text: &str,
    steps: &[Successor],
) -> Result<bool, Fail> {
    let [step] = steps else {
        return Ok(false);
    };
    let end = term(alloc, signature, text)?;
    Ok(step.at.as_slice().is_empty() && step.term == end)
}

/// Whether the rule has one step from the term of 1,024 symbols, at the root and to the term itself.
fn has_root_step(alloc: Global, signature: &Signature, rule: Rule) -> Result<bool, Fail> {
    let text = tower(alloc, 1023)?;
    let rules = [rule];
    let (_, found) = steps_of(alloc, signature, &rules, text.as_str())?;
    is_root_step(alloc, signature, text.as_str(), found.as_slice())
}

/// Whether the rule from so many symbols before a variable to the same has one step from the term of 1,024 symbols, at the
/// root and to the term itself.
fn is_matched_at_the_root(alloc: Global, height: u32) -> Result<bool, Fail> {
    let (signature, _) = system_of(alloc, RENAMING)?;
    let sym = signature.find("s").ok_or("no symbol")?;
    let rule = nested_rule(alloc, sym, height)?;
    has_root_step(alloc, &signature, rule)
}

#[test]
fn a_rule_of_1023_nested_symbols_matches_1024(rt: HostRuntime) -> Result<(), Fail> {
    assert!(rt; is_matched_at_the_root(rt.alloc(), 1023)?);
    Ok(())
}

/// The symbol applied to the arguments, where the signature gives it so many.
fn applied(signature: &Signature, sym: u32, args: Seq<Term>) -> Option<Term> {
    let arity = signature.arity(sym)?;
    if arity as usize != args.len() {
        return None;
    }
    Some(Term::build(sym, args, signature))
}

/// The symbol so many times before a constant.
fn built(
    alloc: Global,
    signature: &Signature,
    sym: u32,
    constant: u32,
    height: u32,
) -> Result<Option<Term>, AllocError> {
    let Some(mut found) = applied(signature, constant, Seq::new(alloc)) else {
        return Ok(None);
    };
    for _ in 0..height {
        let mut args = Seq::new(alloc);
        args.push(found)?;
        let Some(next) = applied(signature, sym, args) else {
            return Ok(None);
        };
        found = next;
    }
    Ok(Some(found))
}

/// The instance of the rule's left side by what it is matched with in the term, where it matches.
fn matched(alloc: Global, rule: &Rule, term: &Term) -> Result<Option<Term>, AllocError> {
    let mut binding = Binding::new();
    if !match_term(rule.left(), term, &mut binding) {
        return Ok(None);
    }
    let made = instance(alloc, rule.left(), &binding)?;
    Ok(Some(made))
}

/// Whether the rule's left side, so many symbols before a variable, matches the term, and its instance is the term again.
fn is_made_again(alloc: Global, sym: u32, height: u32, term: &Term) -> Result<bool, Fail> {
    let rule = nested_rule(alloc, sym, height)?;
    let made = matched(alloc, &rule, term)?;
    Ok(made.is_some_and(|made| made == *term))
}

/// The term of 1,024 symbols, built.
fn built_tower(alloc: Global, signature: &Signature, sym: u32) -> Result<Term, Fail> {
    let constant = signature.find("a").ok_or("no symbol")?;
    let built = built(alloc, signature, sym, constant, 1023)?;
    let deep = built.ok_or("another arity")?;
    Ok(deep)
}

/// Whether the text of 1,024 symbols spells the term that is built of them.
fn is_built_as_spelled(alloc: Global) -> Result<bool, Fail> {
    let (signature, _) = system_of(alloc, RENAMING)?;
    let sym = signature.find("s").ok_or("no symbol")?;
    let deep = built_tower(alloc, &signature, sym)?;
    let text = tower(alloc, 1023)?;
    let spelled = term(alloc, &signature, text.as_str())?;
    Ok(deep == spelled)
}

/// Whether so many symbols before a variable match the built term, and make it again.
fn is_built_made_again(alloc: Global, height: u32) -> Result<bool, Fail> {
    let (signature, _) = system_of(alloc, RENAMING)?;
    let sym = signature.find("s").ok_or("no symbol")?;
    let deep = built_tower(alloc, &signature, sym)?;
    is_made_again(alloc, sym, height, &deep)
}

#[test]
fn a_built_term_of_1024_symbols_is_matched_and_made_again(rt: HostRuntime) -> Result<(), Fail> {
    assert!(rt; is_built_as_spelled(rt.alloc())?);
    assert!(rt; is_built_made_again(rt.alloc(), 1023)?);
    // The term has no further symbol below its 1,023.
    assert!(rt; !is_built_made_again(rt.alloc(), 1024)?);
    Ok(())
}
