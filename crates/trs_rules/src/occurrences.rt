//! Walks over the variables of a pattern, from left to right, which take no memory.
ghost use Rattle.std.specs.Prelude.{◌≡◌, ◌++◌, ◌∷◌, [], ◌==◌, ◌||◌, ℕ, List, None};
ghost use Rattle.std.specs.List.{find};
ghost use Rattle.ranked_terms.specs.Terms.{occurrences};
ghost use Rattle.trs_rules.specs.Variables.{first_repeat, first_free, IsSeen};

use ranked_terms::Pattern;

/// The first of two variables that stands in the pattern, if one of them does.
#[tactic(auto, using(crate::proofs::patterns::VariableLaws::walking))]
fn first_of(pattern: &Pattern, v: u32, w: u32) -> Option<u32>
    ensures { result ≡ find (λ x. x == v || x == w) (occurrences pattern.now) }
{
    match pattern {
        Pattern::Var(x) => { if *x == v || *x == w { Some(*x) } else { None } }
        Pattern::App(_, args) => {
            for arg in args.as_slice() {
                if let Some(x) = first_of(arg, v, w) {
                    return Some(x);
                }
            }
            None
        }
    }
}

/// The first variable of the pattern that does not stand in the binder.
#[tactic(auto, using(crate::proofs::patterns::VariableLaws::walking))]
pub(crate) fn free_variable(binder: &Pattern, pattern: &Pattern) -> Option<u32>
    ensures { result ≡ first_free (occurrences binder.now) (occurrences pattern.now) }
{
    match pattern {
        Pattern::Var(v) => {
            if first_of(binder, *v, *v).is_some() {
                None
            } else {
                Some(*v)
            }
        }
        Pattern::App(_, args) => {
            for arg in args.as_slice() {
                if let Some(v) = free_variable(binder, arg) {
                    return Some(v);
                }
            }
            None
        }
    }
}

/// The variable at the first place of the pattern at which a variable stands a second time.
pub(crate) fn repeated_variable(pattern: &Pattern) -> Option<u32>
    ensures { result ≡ first_repeat (occurrences pattern.now) }
{
    let mut last = None;
    repeat_in(pattern, pattern, &mut last)
}

/// Goes on in a part of the whole pattern, where `last` is the last variable that was seen. Until a variable stands a
/// second time all are different, so that one has been there before exactly where it stands no later than the last.
#[tactic(auto, using(crate::proofs::patterns::VariableLaws::walking))]
fn repeat_in(whole: &Pattern, part: &Pattern, last: &mut Option<u32>) -> Option<u32>
    ensures repeat { (seen rest : List ℕ) → occurrences whole.now ≡ seen ++ (occurrences part.now ++ rest) → IsSeen seen last.old
        → result ≡ first_repeat (seen ++ occurrences part.now) }
    ensures seen { (seen rest : List ℕ) → occurrences whole.now ≡ seen ++ (occurrences part.now ++ rest) → IsSeen seen last.old
        → result ≡ None → IsSeen (seen ++ occurrences part.now) last.new }
{
    match part {
        Pattern::Var(v) => stands_again(whole, *v, last),
        Pattern::App(_, args) => {
            for arg in args.as_slice() {
                if let Some(v) = repeat_in(whole, arg, last) {
                    return Some(v);
                }
            }
            None
        }
    }
}

/// The variable that comes next in the whole pattern, if it has been there before.
fn stands_again(whole: &Pattern, v: u32, last: &mut Option<u32>) -> Option<u32>
    ensures repeat { (seen rest : List ℕ) → occurrences whole.now ≡ seen ++ v ∷ rest → IsSeen seen last.old
        → result ≡ first_repeat (seen ++ v ∷ []) }
    ensures seen { (seen rest : List ℕ) → occurrences whole.now ≡ seen ++ v ∷ rest → IsSeen seen last.old
        → result ≡ None → IsSeen (seen ++ v ∷ []) last.new }
{
    let before = last.replace(v)?;
    match first_of(whole, v, before) {
        Some(first) if first == v => Some(v),
        _ => None,
    }
}
