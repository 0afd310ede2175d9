//! The reader of input texts.
ghost use Rattle.std.specs.Prelude.{◌≡◌, ◌≢◌, ◌⊎◌, ◌<◌, ◌≤◌, ◌-◌, ◌^◌, ◌==◌, not, All, filter, length};
ghost use Rattle.std.specs.Prelude.{Ok, Err, IfOk, IfErr, OnOk, IsTrue};
ghost use Rattle.std.specs.List.{range_with_len};
ghost use Rattle.ta_core.specs.TreeAutomaton.{bare};
ghost use Rattle.ta_core.specs.declared.spec.Spec.{Spec as Spelled};
ghost use Rattle.timbuk_lex.specs.Laws.{HasWord};
ghost use Rattle.timbuk_lex.specs.Lexing as lexing;
ghost use Rattle.spec_text.specs.declared.fault.SpecFault.{SpecFault as Reported};
ghost use Rattle.spec_text.specs.Declarations.{nothing};
ghost use Rattle.spec_text.specs.Reading.{read};
ghost use Rattle.timbuk_reader.specs.Kept.{states_are_below, trans_are_below, eps_are_below};
ghost use Rattle.spec_text.specs.Spelled.{IsAutomatonOf, IsSpecOf};
ghost use Rattle.spec_text.specs.SpecText.{SpecText};
ghost use Rattle.spec_text.specs.Faults.{SpecFaultAt};
ghost use Rattle.spec_text.specs.Laws.{IsRead};
ghost use Rattle.timbuk_reader.specs.Reads.{IsFresh};
ghost use Rattle.timbuk_reader.specs.SectionReads.{from_start};
ghost use Rattle.timbuk_reader.specs.View.{started, state_of, as_error, end_line, end_column, end_of};

use crate::fault::SpecError;
use crate::names::NameTable;
use crate::state::{Reader, StartedAutomaton};
use ranked_terms::{Name, Seq, Signature};
use spec_text::{faults_are_first, no_text_has_two_specs, texts_are_read};
use std::alloc::{AllocError, Global};
use ta_core::{Automaton, MAX_STATES, Spec};
use timbuk_lex::{Lexed, lex_of};

/// Reads a text of fewer than 4,294,967,295 bytes: the specification that it spells, where it spells one. Else `Fault` has
/// the first place at which the text is wrong, and what is wrong there. `Memory` comes when the memory runs out.
pub fn read_spec(alloc: Global, bytes: &[u8]) -> Result<Spec, SpecError>
    requires { length bytes.now < 2 ^ 32 - 1 }
    ensures found { IfOk result (SpecText bytes.now) }
    ensures fault { (reported : Reported) → result ≡ Err (SpecError.Fault reported) → SpecFaultAt bytes.now reported }
    ensures none { (reported : Reported) (spec : Spelled) → result ≡ Err (SpecError.Fault reported)
        → SpecText bytes.now spec → ⊥ }

    // What the text spells, and its first fault, name the answer.
    ensures that_one { (spec : Spelled) → SpecText bytes.now spec → (result ≡ Ok spec) ⊎ (result ≡ Err SpecError.Memory) }
    ensures first { (reported : Reported) → SpecFaultAt bytes.now reported
        → (result ≡ Err (SpecError.Fault reported)) ⊎ (result ≡ Err SpecError.Memory) }
{
    // For the proof: what is read is what the text spells, and its first fault.
    texts_are_read();
    faults_are_first();
    no_text_has_two_specs();
    read_text(alloc, bytes)
}

/// Reads a text token by token, up to its end or to the first token at which a row of the table of faults fits. The other error
/// is running out of memory.
fn read_text(alloc: Global, bytes: &[u8]) -> Result<Spec, SpecError>
    requires { length bytes.now < 2 ^ 32 - 1 }
    ensures read { IfOk result (IsRead bytes.now) }
    ensures stops { (reported : Reported) → result ≡ Err (SpecError.Fault reported) → read bytes.now ≡ Err reported }
{
    let lexed = lex_of(alloc, bytes)?;
    read_lexed(alloc, &lexed, bytes)
}

/// Reads a text of which these are the tokens, in the same way. The bytes give the place of its end.
fn read_lexed<'a>(alloc: Global, lexed: &Lexed<'a>, bytes: &'a [u8]) -> Result<Spec, SpecError>
    requires few { length bytes.now < 2 ^ 32 - 1 }
    requires exact { lexed.now ≡ lexing.lexed bytes.now }
    requires words { All HasWord lexed.now.tokens }
    ensures read { IfOk result (IsRead bytes.now) }
    ensures stops { (reported : Reported) → result ≡ Err (SpecError.Fault reported) → read bytes.now ≡ Err reported }
{
    let mut reader = Reader::new(alloc, lexed, bytes);
    let vars = reader.text_names()?;
    Ok(reader.into_spec(vars)?)
}

impl<'s, 'a> Reader<'s, 'a> {
    /// The reader that has the tokens of this text before it. It takes no memory yet, and grows by `alloc`.
    fn new(alloc: Global, lexed: &'s Lexed<'a>, bytes: &'a [u8]) -> Reader<'s, 'a>
        requires words { All HasWord lexed.now.tokens }
        requires few { length bytes.now < 2 ^ 32 - 1 }
        ensures tokens { result.tokens.now ≡ lexed.now.tokens }
        ensures state { state_of result ≡ nothing }
        ensures end { end_of result
            ≡ record { ending = lexed.now.ending; line = end_line bytes.now; column = end_column bytes.now } }
    {
        Reader {
            alloc,
            tokens: lexed.tokens.as_slice(),
            ending: lexed.ending,
            bytes,
            signature: Signature::new(alloc),
            variables: NameTable::new(alloc),
            systems: 0,
            automata: 0,
            equation_sections: 0,
            approximations: 0,
            initial: StartedAutomaton::new(alloc),
            extra: 0,
            second: StartedAutomaton::new(alloc),
            rules: Seq::new(alloc),
            equations: Seq::new(alloc),
            entries: Seq::new(alloc),
            bound: Seq::new(alloc),
        }
    }

    /// Reads a whole text, and gives the names of its variables as a sequence of their own. The error is the first fault of
    /// the text, or running out of memory.
    fn text_names(&mut self) -> Result<Seq<Name>, SpecError>
        requires { IsFresh self.old }
        ensures ok { OnOk result (from_start self.old ≡ Ok (state_of self.new)) }
        ensures err { IfErr result (λ e. e ≢ SpecError.Memory → as_error (from_start self.old) ≡ Err e) }
        ensures vars { IfOk result (λ vars. vars ≡ self.new.variables) }
    {
        self.text()?;
        Ok(self.variables.to_names(self.alloc)?)
    }

    /// The specification of all that was read, with these names of the variables. The only error is running out of memory.
    fn into_spec(self, vars: Seq<Name>) -> Result<Spec, AllocError>
        requires { vars ≡ self.variables }
        ensures { IfOk result (IsSpecOf (state_of self.entry)) }
    {
        let own_states = self.initial.states.len() - self.extra;
        let (initial, forbidden) = automata_of(self.alloc, self.initial, own_states, self.second)?;
        Ok(Spec {
            vars,
            signature: self.signature,
            rules: self.rules,
            equations: self.equations,
            entries: self.entries,
            extra: self.extra,
            approximated: self.approximations > 0,
            initial,
            forbidden,
        })
    }
}

/// The initial automaton, of the first of the states that are declared for it, of this number, and the second automaton, of all
/// of its states. The only error is running out of memory.
fn automata_of(
    alloc: Global,
    initial: StartedAutomaton,
    own_states: u32,
    second: StartedAutomaton,
) -> Result<(Automaton, Automaton), AllocError>
    requires few { own_states ≤ MAX_STATES }
    requires initial_finals { IsTrue (states_are_below own_states initial.finals) }
    requires initial_trans { IsTrue (trans_are_below own_states initial.trans) }
    requires initial_eps { IsTrue (eps_are_below own_states initial.eps) }
    requires second_finals { IsTrue (states_are_below (length second.states) second.finals) }
    requires second_trans { IsTrue (trans_are_below (length second.states) second.trans) }
    requires second_eps { IsTrue (eps_are_below (length second.states) second.eps) }
    ensures initial { IfOk result (λ both. IsAutomatonOf own_states (started initial) both.0) }
    ensures second { IfOk result (λ both. IsAutomatonOf (length second.states) (started second) both.1) }
{
    let first = initial.into_automaton(alloc, own_states)?;
    let states = second.states.len();
    Ok((first, second.into_automaton(alloc, states)?))
}

impl StartedAutomaton {
    /// The automaton of the first states, of this number, with the final states and the transitions that are declared. What
    /// stands twice counts once, and an epsilon transition from a state to itself does not. The only error is running out
    /// of memory.
    fn into_automaton(self, alloc: Global, count: u32) -> Result<Automaton, AllocError>
        requires few { count ≤ MAX_STATES }
        requires finals { IsTrue (states_are_below count self.finals) }
        requires trans { IsTrue (trans_are_below count self.trans) }
        requires eps { IsTrue (eps_are_below count self.eps) }
        ensures { IfOk result (IsAutomatonOf count (started self)) }
    {
        let mut automaton = automaton_of_states(alloc, count)?;
        self.add_to(alloc, &mut automaton)?;
        Ok(automaton)
    }

    /// Adds the final states and the transitions that are declared to an automaton of states alone. What stands twice counts
    /// once, and an epsilon transition from a state to itself does not. The only error is running out of memory.
    fn add_to(self, alloc: Global, automaton: &mut Automaton) -> Result<(), AllocError>
        requires bare { automaton.old ≡ bare automaton.old.next (range_with_len 0 automaton.old.next) }
        requires finals { IsTrue (states_are_below automaton.old.next self.finals) }
        requires trans { IsTrue (trans_are_below automaton.old.next self.trans) }
        requires eps { IsTrue (eps_are_below automaton.old.next self.eps) }
        ensures { OnOk result (IsAutomatonOf automaton.old.next (started self) automaton.new) }
    {
        automaton.set_all_final(self.finals)?;
        automaton.add_all_trans(self.trans)?;
        let moves = moves_of(alloc, self.eps.as_slice())?;
        automaton.add_all_eps(moves)
    }
}

/// The automaton of so many states alone, numbered from 0. The only error is running out of memory.
fn automaton_of_states(alloc: Global, count: u32) -> Result<Automaton, AllocError>
    requires { count ≤ MAX_STATES }
    ensures { IfOk result (λ automaton. automaton ≡ bare count (range_with_len 0 count)) }
{
    let mut states = Vec::new(alloc);
    for state in 0..count {
        states.push(state)?;
    }
    Automaton::with_states(alloc, count, &states)
}

/// The epsilon transitions that lead to another state. The only error is running out of memory.
fn moves_of(alloc: Global, eps: &[(u32, u32)]) -> Result<Seq<(u32, u32)>, AllocError>
    ensures { IfOk result (λ moves. moves ≡ filter (λ e. not (e.0 == e.1)) eps.now) }
{
    let moves: Vec<(u32, u32)> = eps
        .iter()
        .copied()
        .filter(|(from, to)| from != to)
        .collect(alloc)?;
    Ok(Seq::from_vec(moves))
}
