//! Specifications.
ghost use Rattle.std.specs.Prelude.{◌≡◌, ◌+◌, ◌≤◌, [], false, IsTrue};
ghost use Rattle.std.specs.List.{range_with_len};
ghost use Rattle.ta_core.specs.Limits.{max_states};
ghost use Rattle.ta_core.specs.SpecRules.{rules_are_over, equations_are_over, entries_are_over, entries_are_below};
ghost use Rattle.ta_core.specs.SpecRules.{entries_are_small, automaton_is_over};

use crate::automaton::Automaton;
use ranked_terms::{Name, Seq, Signature};
use trs_rules::{Entry, Equation, Rule};

/// What a specification file spells: a rewriting system, an initial automaton and an automaton of forbidden terms, with
/// equations and approximation entries where the file has them. The facts below hold of every `Spec`.
#[derive(Drop)]
pub struct Spec {
    /// The symbols, numbered in their order.
    pub signature: Signature,
    /// The names of the variables, numbered in their order.
    pub vars: Seq<Name>,
    /// The rules, numbered from 0.
    pub rules: Seq<Rule>,
    /// The equations.
    pub equations: Seq<Equation>,
    /// The approximation entries.
    pub entries: Seq<Entry>,
    /// The number of the approximation's states. They are the numbers from the initial automaton's `next` on.
    pub extra: u32,
    /// Whether there is an approximation, which may be empty.
    pub approximated: bool,
    /// The initial automaton: its language is where rewriting starts.
    pub initial: Automaton,
    /// The automaton whose language is forbidden.
    pub forbidden: Automaton,
    // Each symbol is in the signature, with as many arguments as its arity says.
    pub ghost rules_over: { IsTrue (rules_are_over signature rules) },
    pub ghost equations_over: { IsTrue (equations_are_over signature equations) },
    pub ghost entries_over: { IsTrue (entries_are_over signature entries) },
    pub ghost initial_over: { IsTrue (automaton_is_over signature initial) },
    pub ghost forbidden_over: { IsTrue (automaton_is_over signature forbidden) },
    // The states of an automaton are all the numbers below its `next`.
    pub ghost initial_states: { initial.states ≡ range_with_len 0 initial.next },
    pub ghost forbidden_states: { forbidden.states ≡ range_with_len 0 forbidden.next },
    // The approximation's states are few, and an entry names only these and the initial automaton's.
    pub ghost few_states: { initial.next + extra ≤ max_states },
    pub ghost entries_below: { IsTrue (entries_are_below (initial.next + extra) entries) },
    // An entry has at most 16 variables.
    pub ghost entries_small: { IsTrue (entries_are_small entries) },
    // Without an approximation there is neither a state nor an entry of one.
    pub ghost no_extra: { approximated ≡ false → extra ≡ 0 },
    pub ghost no_entries: { approximated ≡ false → entries ≡ [] },
}
