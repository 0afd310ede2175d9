//! Whether there is enough room. Nothing is added up, so no sum can grow too large.
ghost use Rattle.std.specs.Prelude.{◌≡◌, ◌↔◌, ◌+◌, ◌-◌, ◌^◌, ◌<◌, ◌≤◌, ℕ, max, length, All, IsTrue};
ghost use Rattle.ta_core.specs.declared.trans.Trans.{Trans as Transition};
ghost use Rattle.closure_check.specs.Rooms.{sets_of, sets_of_sides, sets_of_rules, IsCountable};

use ranked_terms::Pattern;
use ta_core::{Spec, Trans};
use trs_rules::Rule;

/// Whether the places in the lists of the initial automaton and of the rules are numbers of 32 bits.
pub(crate) fn is_countable(spec: &Spec) -> bool
    ensures { IsTrue result ↔ IsCountable spec.now }
{
    let most = u32::MAX as usize;
    spec.initial.trans().len() <= most
        && spec.initial.eps().len() <= most
        && spec.rules.as_slice().len() <= most
}

/// Whether so many sets are enough for the rules.
pub(crate) fn rules_fit(rules: &[Rule], count: usize) -> bool
    ensures { IsTrue result ↔ (sets_of_rules rules.now ≤ count) }
{
    for rule in rules {
        if !rule_fits(rule, count) {
            return false;
        }
    }
    true
}

fn rule_fits(rule: &Rule, count: usize) -> bool
    ensures { IsTrue result ↔ (length rule.now.vars + sets_of_sides rule.now ≤ count) }
{
    let vars = rule.vars().len();
    if count <= vars {
        return false;
    }
    if !pattern_fits(rule.left(), count - vars) {
        return false;
    }
    pattern_fits(rule.right(), count - vars - 1)
}

/// Whether so many sets are enough for the pattern.
pub(crate) fn pattern_fits(pattern: &Pattern, count: usize) -> bool
    ensures { IsTrue result ↔ (sets_of pattern.now ≤ count) }
{
    match pattern {
        Pattern::Var(_var) => count > 0,
        Pattern::App(_sym, args) => {
            for (place, arg) in args.as_slice().iter().enumerate() {
                if count <= place + 1 {
                    return false;
                }
                if !pattern_fits(arg, count - 1 - place) {
                    return false;
                }
            }
            count > 0
        }
    }
}

/// Whether so many sets are enough for a transition's arguments and its target.
pub(crate) fn arguments_fit(trans: &[Trans], count: usize) -> bool
    ensures { IsTrue result ↔ All (λ (t : Transition). length t.args < count) trans.now }
{
    for t in trans {
        if t.args.as_slice().len() >= count {
            return false;
        }
    }
    true
}

/// How many sets the rules and the transitions take, which is no more than is enough. Where there is no number of 64 bits for
/// that, it may be too few, so whether it is enough is tested after.
pub(crate) fn sets_for(rules: &[Rule], trans: &[Trans]) -> usize
    ensures some { 0 < result }
    ensures rules { result < 2 ^ 64 - 1 → sets_of_rules rules.now ≤ result }
    ensures arguments { result < 2 ^ 64 - 1 → All (λ (t : Transition). length t.args < result) trans.now }
    ensures least { (n : ℕ) → 0 < n → sets_of_rules rules.now ≤ n →
        All (λ (t : Transition). length t.args < n) trans.now → result ≤ n }
{
    greater(sets_for_rules(rules), sets_for_arguments(trans))
}

fn sets_for_arguments(trans: &[Trans]) -> usize
    ensures some { 0 < result }
    ensures enough { result < 2 ^ 64 - 1 → All (λ (t : Transition). length t.args < result) trans.now }
    ensures least { (n : ℕ) → 0 < n → All (λ (t : Transition). length t.args < n) trans.now → result ≤ n }
{
    let mut most = 1;
    for t in trans {
        most = greater(most, t.args.as_slice().len().saturating_add(1));
    }
    most
}

fn sets_for_rules(rules: &[Rule]) -> usize
    ensures enough { result < 2 ^ 64 - 1 → sets_of_rules rules.now ≤ result }
    ensures least { result ≤ sets_of_rules rules.now }
{
    let mut most = 0;
    for rule in rules {
        most = greater(most, sets_for_rule(rule));
    }
    most
}

fn sets_for_rule(rule: &Rule) -> usize
    ensures enough { result < 2 ^ 64 - 1 → length rule.now.vars + sets_of_sides rule.now ≤ result }
    ensures least { result ≤ length rule.now.vars + sets_of_sides rule.now }
{
    let left = sets_for_pattern(rule.left());
    let right = sets_for_pattern(rule.right()).saturating_add(1);
    greater(left, right).saturating_add(rule.vars().len())
}

fn sets_for_pattern(pattern: &Pattern) -> usize
    ensures enough { result < 2 ^ 64 - 1 → sets_of pattern.now ≤ result }
    ensures least { result ≤ sets_of pattern.now }
{
    match pattern {
        Pattern::Var(_var) => 1,
        Pattern::App(_sym, args) => {
            let mut most = 1;
            for (place, arg) in args.as_slice().iter().enumerate() {
                let count = sets_for_pattern(arg).saturating_add(place);
                most = greater(most, count.saturating_add(1));
            }
            most
        }
    }
}

fn greater(one: usize, other: usize) -> usize
    ensures { result ≡ max one other }
{
    if one < other {
        return other;
    }
    one
}
