//! The reader's state.
ghost use Rattle.std.specs.Prelude.{◌≡◌, ◌<◌, ◌≤◌, ◌-◌, ◌^◌, [], All, IsTrue, length};
ghost use Rattle.timbuk_lex.specs.Laws.{HasWord};
ghost use Rattle.trs_rules.specs.Rules.{IsEquation};
ghost use Rattle.ta_core.specs.SpecRules.{rules_are_over, equations_are_over, entries_are_over, entries_are_below};
ghost use Rattle.ta_core.specs.SpecRules.{entries_are_small};
ghost use Rattle.timbuk_reader.specs.Kept.{IsKeptRule, trans_are_over, states_are_below, trans_are_below, eps_are_below};

use crate::names::NameTable;
use ranked_terms::{Seq, Signature};
use std::alloc::Global;
use ta_core::Trans;
use timbuk_lex::{Ending, Lexeme};
use trs_rules::{Entry, Equation, Rule};

/// An automaton, as far as it is declared: its states, and its final states, transitions and epsilon transitions in the
/// order of the text.
#[derive(Drop)]
pub(crate) struct StartedAutomaton {
    pub(crate) states: NameTable,
    pub(crate) finals: Seq<u32>,
    pub(crate) trans: Seq<Trans>,
    pub(crate) eps: Seq<(u32, u32)>,
}

/// What was read of a text, and the tokens that are left.
#[derive(Drop)]
pub(crate) struct Reader<'s, 'a> {
    pub(crate) alloc: Global,
    /// The tokens that are left.
    pub(crate) tokens: &'s [Lexeme<'a>],
    /// What stands behind them.
    pub(crate) ending: Ending,
    /// The whole text, which only the place of its end is looked for in.
    pub(crate) bytes: &'a [u8],
    /// The symbols.
    pub(crate) signature: Signature,
    /// The variables.
    pub(crate) variables: NameTable,
    /// The number of sections `TRS`.
    pub(crate) systems: u32,
    /// The number of automata.
    pub(crate) automata: u32,
    /// The number of sections `Equations`.
    pub(crate) equation_sections: u32,
    /// The number of approximations.
    pub(crate) approximations: u32,
    /// The first automaton. The approximation's states stand behind its own.
    pub(crate) initial: StartedAutomaton,
    /// The number of the approximation's states.
    pub(crate) extra: u32,
    /// The second automaton.
    pub(crate) second: StartedAutomaton,
    /// The rules.
    pub(crate) rules: Seq<Rule>,
    /// The equations.
    pub(crate) equations: Seq<Equation>,
    /// The entries of the approximation.
    pub(crate) entries: Seq<Entry>,
    /// The variables of the declaration that is being read, each once.
    pub(crate) bound: Seq<u32>,
    // Lines and columns fit.
    ghost few_bytes: { length bytes.now < 2 ^ 32 - 1 },
    // The text of a word token is a word.
    ghost words: { All HasWord tokens.now },
    ghost are_rules: { All IsKeptRule rules },
    ghost are_equations: { All IsEquation equations },
    // Each symbol is in the signature, with as many arguments as its arity says.
    ghost rules_over: { IsTrue (rules_are_over signature rules) },
    ghost equations_over: { IsTrue (equations_are_over signature equations) },
    ghost entries_over: { IsTrue (entries_are_over signature entries) },
    ghost initial_over: { IsTrue (trans_are_over signature initial.trans) },
    ghost second_over: { IsTrue (trans_are_over signature second.trans) },
    // The initial automaton names its own states only, the second its states, and an entry the initial automaton's and the
    // approximation's.
    ghost own_states: { extra ≤ length initial.states },
    ghost initial_finals: { IsTrue (states_are_below (length initial.states - extra) initial.finals) },
    ghost initial_trans: { IsTrue (trans_are_below (length initial.states - extra) initial.trans) },
    ghost initial_eps: { IsTrue (eps_are_below (length initial.states - extra) initial.eps) },
    ghost second_finals: { IsTrue (states_are_below (length second.states) second.finals) },
    ghost second_trans: { IsTrue (trans_are_below (length second.states) second.trans) },
    ghost second_eps: { IsTrue (eps_are_below (length second.states) second.eps) },
    ghost entries_below: { IsTrue (entries_are_below (length initial.states) entries) },
    // An entry has few variables.
    ghost entries_small: { IsTrue (entries_are_small entries) },
    // Before the first automaton there is no approximation, and without an approximation nothing of one.
    ghost none_early: { automata ≡ 0 → approximations ≡ 0 },
    ghost no_extra: { approximations ≡ 0 → extra ≡ 0 },
    ghost no_entries: { approximations ≡ 0 → entries ≡ [] },
    // A declaration has at most `MAX_VARIABLES` variables.
    ghost few_bound: { length bound ≤ 16 },
    // The counts are within their limits.
    ghost few_automata: { automata ≤ 2 },
    ghost one_system: { systems ≤ 1 },
    ghost one_equations: { equation_sections ≤ 1 },
    ghost one_approximation: { approximations ≤ 1 },
}
