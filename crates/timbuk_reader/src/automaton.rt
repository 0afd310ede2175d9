//! Reads automata.
ghost use Rattle.std.specs.Prelude.{◌≡◌, ◌<◌, [], false, IsTrue, IfOk, IfErr, OnOk, length};
ghost use Rattle.ranked_terms.specs.Terms.{is_symbol};
ghost use Rattle.timbuk_grammar.specs.Grammar as grammar;
ghost use Rattle.timbuk_grammar.specs.declared.terminal.Role.TheVariants as role;
ghost use Rattle.timbuk_grammar.specs.declared.terminal.Terminal.TheVariants as terminal;
ghost use Rattle.spec_text.specs.Declarations.{no_automaton, state_head, symbol_head, uses, adds};
ghost use Rattle.spec_text.specs.Rows.{is_in, is_double};
ghost use Rattle.timbuk_reader.specs.Kept.{states_are_below};
ghost use Rattle.timbuk_reader.specs.View.{Shorter, closed, started, state_of};
ghost use Rattle.timbuk_reader.specs.Reads.{Reads};
ghost use Rattle.timbuk_reader.specs.AutomatonReads.{IsInApproximation, no_arity, described, prior, target, IsInAutomaton};
ghost use Rattle.timbuk_reader.specs.AutomatonReads.{states_of, with_initial_state, with_trans, with_epsilon, NoLonger};
ghost use Rattle.timbuk_reader.specs.AutomatonReads.{SameTokens, MayDeclare, table_of, UsesState, ReadState, StopsState};
ghost use Rattle.timbuk_reader.specs.AutomatonReads.{headed, ReadArgument, StopsArgument, ReadArguments, StopsArguments};

use crate::fault::SpecError;
use crate::meaning::Meaning;
use crate::names::NameTable;
use crate::state::{Reader, StartedAutomaton};
use ranked_terms::Seq;
use spec_text::{LimitName, MAX_AUTOMATA, SpecKind};
use std::alloc::{AllocError, Global};
use ta_core::{Args, MAX_STATES, Trans};
use timbuk_grammar::{Role, Terminal};

impl StartedAutomaton {
    /// The automaton of which nothing is declared. It takes no memory yet, and grows by `alloc`.
    pub(crate) fn new(alloc: Global) -> StartedAutomaton
        ensures { started result ≡ no_automaton }
    {
        StartedAutomaton {
            states: NameTable::new(alloc),
            finals: Seq::new(alloc),
            trans: Seq::new(alloc),
            eps: Seq::new(alloc),
        }
    }
}

// ---- sections

impl<'s, 'a> Reader<'s, 'a> {
    /// An automaton, from its word on. It is refused where there are two.
    pub(crate) fn automaton(&mut self) -> Result<(), SpecError>
        ensures shorter { OnOk result (Shorter self.old self.new) }
        ensures reads { Reads grammar.automaton closed self.old result closed self.new }
    {
        self.automaton_word()?;
        self.title()?;
        self.mark(Terminal::States)?;
        self.states(Role::State)?;
        self.description()?;
        self.final_states()?;
        self.transitions()
    }

    /// The word `Automaton`, by which the count rises. It is refused where there are two automata.
    fn automaton_word(&mut self) -> Result<(), SpecError>
        ensures shorter { OnOk result (Shorter self.old self.new) }
        ensures reads { Reads (grammar.one terminal.Automaton) closed self.old result closed self.new }
        ensures inside { OnOk result (IsInAutomaton self.new) }
    {
        if !self.sees(Terminal::Automaton) {
            return Err(self.refusal(SpecKind::Expected));
        }
        if self.automata >= MAX_AUTOMATA {
            return Err(self.refusal(SpecKind::Limit(LimitName::Automata)));
        }
        self.advance();
        self.automata += 1;
        Ok(())
    }

    /// The name of a section, which has no effect. It is refused only as a name of more than `MAX_NAME` bytes.
    pub(crate) fn title(&mut self) -> Result<(), SpecError>
        ensures shorter { OnOk result (Shorter self.old self.new) }
        ensures reads { Reads (grammar.name role.Title) closed self.old result closed self.new }
        ensures same { OnOk result (state_of self.new ≡ state_of self.old) }
    {
        self.word(Terminal::Named(Role::Title))?;
        self.advance();
        Ok(())
    }
}

// ---- the states that are declared

impl<'s, 'a> Reader<'s, 'a> {
    /// States of the automaton or, in the approximation's place, of the approximation, as many as there are.
    pub(crate) fn states(&mut self, role: Role) -> Result<(), SpecError>
        requires { MayDeclare role self.old }
        ensures no_longer { OnOk result (NoLonger self.old self.new) }
        ensures reads { Reads (grammar.many (grammar.state role)) closed self.old result closed self.new }
        ensures declares { OnOk result (MayDeclare role self.new) }
    {
        while self.sees(Terminal::Named(role)) {
            self.declared_state(role)?;
        }
        Ok(())
    }

    /// A state, and its arity 0, which may be left out.
    fn declared_state(&mut self, role: Role) -> Result<(), SpecError>
        requires { MayDeclare role self.old }
        ensures shorter { OnOk result (Shorter self.old self.new) }
        ensures reads { Reads (grammar.state role) closed self.old result closed self.new }
        ensures declares { OnOk result (MayDeclare role self.new) }
    {
        self.state_name(role)?;
        self.no_arity()
    }

    /// The name of a state, which is added. It is refused where there are `MAX_STATES` states, and where a symbol, a variable or
    /// one of these states has the name.
    fn state_name(&mut self, role: Role) -> Result<(), SpecError>
        requires { MayDeclare role self.old }
        ensures shorter { OnOk result (Shorter self.old self.new) }
        ensures reads { Reads (grammar.name role) closed self.old result closed self.new }
        ensures declares { OnOk result (MayDeclare role self.new) }
    {
        let name = self.word(Terminal::Named(role))?;
        if self.table(role).len() >= MAX_STATES {
            return Err(self.refusal(SpecKind::Limit(LimitName::States)));
        }
        if self.is_double(role, name) {
            return Err(self.refusal(SpecKind::DoubleName));
        }
        self.add_state(role, name)?;
        self.advance();
        Ok(())
    }

    /// The states beside which a state is declared.
    fn table(&self, role: Role) -> &NameTable
        requires { MayDeclare role self.now }
        ensures { result.now ≡ table_of role self.now }
    {
        match role {
            Role::State if self.automata == 2 => &self.second.states,
            _ => &self.initial.states,
        }
    }

    /// Whether a symbol, a variable or one of the states beside which a state is declared has the name.
    fn is_double(&self, role: Role, name: &str) -> bool
        requires { MayDeclare role self.now }
        ensures { result ≡ is_double (terminal.Named role) name.now (state_of self.now) }
    {
        self.is_taken(name) || self.table(role).find(name).is_some()
    }

    /// Adds a state. The only error is running out of memory.
    fn add_state(&mut self, role: Role, name: &str) -> Result<(), AllocError>
        requires declares { MayDeclare role self.old }
        requires room { length (table_of role self.old) < MAX_STATES }
        requires new { is_in (table_of role self.old) name.now ≡ false }
        ensures ok { OnOk result (state_of self.new ≡ adds (terminal.Named role) name.now (state_of self.old)) }
        ensures left { OnOk result (SameTokens self.old self.new) }
        ensures declares { OnOk result (MayDeclare role self.new) }
    {
        match role {
            Role::State => self.add_own_state(name),
            _ => self.add_extra_state(name),
        }
    }

    /// Adds a state to the automaton that is being read. The only error is running out of memory.
    fn add_own_state(&mut self, name: &str) -> Result<(), AllocError>
        requires inside { IsInAutomaton self.old }
        requires room { length (states_of self.old) < MAX_STATES }
        requires new { is_in (states_of self.old) name.now ≡ false }
        ensures ok { OnOk result (state_of self.new ≡ adds (terminal.Named role.State) name.now (state_of self.old)) }
        ensures left { OnOk result (SameTokens self.old self.new) }
        ensures inside { OnOk result (IsInAutomaton self.new) }
    {
        if self.automata == 2 {
            self.second.states.add(name)
        } else {
            self.add_initial_state(name)
        }
    }

    /// Adds a state behind those of the initial automaton. The only error is running out of memory.
    fn add_initial_state(&mut self, name: &str) -> Result<(), AllocError>
        requires early { self.old.entries ≡ [] }
        requires room { length self.old.initial.states < MAX_STATES }
        requires new { is_in self.old.initial.states name.now ≡ false }
        ensures ok { OnOk result (state_of self.new ≡ with_initial_state name.now (state_of self.old)) }
        ensures left { OnOk result (SameTokens self.old self.new) }
    {
        self.initial.states.add(name)
    }

    /// Adds a state of the approximation behind those of the initial automaton. The only error is running out of memory.
    fn add_extra_state(&mut self, name: &str) -> Result<(), AllocError>
        requires inside { IsInApproximation self.old }
        requires room { length self.old.initial.states < MAX_STATES }
        requires new { is_in self.old.initial.states name.now ≡ false }
        ensures ok { OnOk result (state_of self.new
            ≡ adds (terminal.Named role.ApproximationState) name.now (state_of self.old)) }
        ensures left { OnOk result (SameTokens self.old self.new) }
        ensures inside { OnOk result (IsInApproximation self.new) }
    {
        self.add_initial_state(name)?;
        self.extra += 1;
        Ok(())
    }

    /// The arity 0 of a state, which may be left out.
    #[rattlefmt::skip]
    #[tactic(auto, using(
        crate::proofs::parsing::Parts::then_reads,
        crate::proofs::parsing::Parts::then_stops,
        crate::proofs::parsing::Parts::then_head,
        crate::proofs::parsing::Parts::maybe_reads,
        crate::proofs::parsing::Parts::maybe_stops,
        crate::proofs::parsing::Parts::maybe_none
    ))]
    fn no_arity(&mut self) -> Result<(), SpecError>
        ensures no_longer { OnOk result (NoLonger self.old self.new) }
        ensures reads { Reads no_arity closed self.old result closed self.new }
        ensures same { OnOk result (state_of self.new ≡ state_of self.old) }
    {
        if !self.sees(Terminal::Colon) {
            return Ok(());
        }
        self.mark(Terminal::Colon)?;
        self.mark(Terminal::Zero)
    }
}

// ---- the states that are used

impl<'s, 'a> Reader<'s, 'a> {
    /// A state of the automaton, and its number. Another name is refused as unknown, and a `(` behind the name as not
    /// expected.
    #[tactic(auto, using(crate::proofs::parsing::Automaton::no_state_word))]
    fn state(&mut self, role: Role) -> Result<u32, SpecError>
        requires { UsesState role }
        ensures shorter { OnOk result (Shorter self.old self.new) }
        ensures ok { IfOk result (λ state. ReadState role self.old state self.new) }
        ensures err { IfErr result (StopsState role self.old) }
        ensures below { IfOk result (λ state. state < length (states_of self.new)) }
        ensures same { OnOk result (state_of self.new ≡ state_of self.old) }
    {
        let name = self.word(Terminal::Named(role))?;
        let Meaning::State(state) = self.meaning(role, name) else {
            return Err(self.refusal(SpecKind::UnknownName));
        };
        self.leaf(SpecKind::Expected)?;
        Ok(state)
    }

    /// The descriptions of states, if there are any, which have no effect.
    #[rattlefmt::skip]
    #[tactic(auto, using(
        crate::proofs::parsing::Parts::then_reads,
        crate::proofs::parsing::Parts::then_stops,
        crate::proofs::parsing::Parts::then_head,
        crate::proofs::parsing::Parts::maybe_reads,
        crate::proofs::parsing::Parts::maybe_stops,
        crate::proofs::parsing::Parts::maybe_none
    ))]
    fn description(&mut self) -> Result<(), SpecError>
        ensures no_longer { OnOk result (NoLonger self.old self.new) }
        ensures reads { Reads (grammar.maybe grammar.description) closed self.old result closed self.new }
        ensures same { OnOk result (state_of self.new ≡ state_of self.old) }
    {
        if !self.sees(Terminal::Description) {
            return Ok(());
        }
        self.mark(Terminal::Description)?;
        self.all_described()
    }

    /// States with their descriptions, as many as there are.
    #[rattlefmt::skip]
    #[tactic(auto, using(
        crate::proofs::parsing::Parts::turns_start,
        crate::proofs::parsing::Parts::turns_again,
        crate::proofs::parsing::Parts::turns_stop,
        crate::proofs::parsing::Parts::turns_err,
        crate::proofs::parsing::Parts::then_head
    ))]
    fn all_described(&mut self) -> Result<(), SpecError>
        ensures no_longer { OnOk result (NoLonger self.old self.new) }
        ensures reads { Reads (grammar.many described) closed self.old result closed self.new }
        ensures same { OnOk result (state_of self.new ≡ state_of self.old) }
    {
        while self.sees(Terminal::Named(Role::DescribedState)) {
            self.described_state()?;
        }
        Ok(())
    }

    /// A state of the automaton with its description.
    fn described_state(&mut self) -> Result<(), SpecError>
        ensures shorter { OnOk result (Shorter self.old self.new) }
        ensures reads { Reads described closed self.old result closed self.new }
        ensures same { OnOk result (state_of self.new ≡ state_of self.old) }
    {
        self.state(Role::DescribedState)?;
        self.mark(Terminal::Colon)?;
        self.mark(Terminal::Quoted)
    }

    /// The final states.
    fn final_states(&mut self) -> Result<(), SpecError>
        requires { IsInAutomaton self.old }
        ensures shorter { OnOk result (Shorter self.old self.new) }
        ensures reads { Reads grammar.final_states closed self.old result closed self.new }
        ensures inside { OnOk result (IsInAutomaton self.new) }
    {
        self.mark(Terminal::Final)?;
        self.mark(Terminal::States)?;
        self.all_finals()
    }

    /// Names of final states, as many as there are.
    #[rattlefmt::skip]
    #[tactic(auto, using(
        crate::proofs::parsing::Parts::turns_start,
        crate::proofs::parsing::Parts::turns_again,
        crate::proofs::parsing::Parts::turns_stop,
        crate::proofs::parsing::Parts::turns_err,
        crate::proofs::parsing::Parts::one_head
    ))]
    fn all_finals(&mut self) -> Result<(), SpecError>
        requires { IsInAutomaton self.old }
        ensures no_longer { OnOk result (NoLonger self.old self.new) }
        ensures reads { Reads (grammar.many (grammar.name role.FinalState)) closed self.old result closed self.new }
        ensures inside { OnOk result (IsInAutomaton self.new) }
    {
        while self.sees(Terminal::Named(Role::FinalState)) {
            self.final_state()?;
        }
        Ok(())
    }

    /// A final state, which is added.
    #[tactic(auto, using(crate::proofs::parsing::Automaton::final_advances, crate::proofs::parsing::Automaton::stops_closed))]
    fn final_state(&mut self) -> Result<(), SpecError>
        requires { IsInAutomaton self.old }
        ensures shorter { OnOk result (Shorter self.old self.new) }
        ensures reads { Reads (grammar.name role.FinalState) closed self.old result closed self.new }
        ensures inside { OnOk result (IsInAutomaton self.new) }
    {
        let state = self.state(Role::FinalState)?;
        self.add_final(state)?;
        Ok(())
    }

    /// Adds a final state to the automaton that is being read. The only error is running out of memory.
    fn add_final(&mut self, state: u32) -> Result<(), AllocError>
        requires inside { IsInAutomaton self.old }
        requires below { state < length (states_of self.old) }
        ensures ok { OnOk result (state_of self.new ≡ uses role.FinalState state (state_of self.old)) }
        ensures left { OnOk result (SameTokens self.old self.new) }
    {
        if self.automata == 2 {
            self.second.finals.push(state)
        } else {
            self.initial.finals.push(state)
        }
    }
}

// ---- transitions

impl<'s, 'a> Reader<'s, 'a> {
    /// The transitions, those under `Prior` first.
    fn transitions(&mut self) -> Result<(), SpecError>
        requires { IsInAutomaton self.old }
        ensures no_longer { OnOk result (NoLonger self.old self.new) }
        ensures reads { Reads grammar.transitions closed self.old result closed self.new }
    {
        self.prior()?;
        self.mark(Terminal::Transitions)?;
        self.all_transitions()
    }

    /// The transitions under `Prior`, if there are any.
    #[rattlefmt::skip]
    #[tactic(auto, using(
        crate::proofs::parsing::Parts::then_reads,
        crate::proofs::parsing::Parts::then_stops,
        crate::proofs::parsing::Parts::then_head,
        crate::proofs::parsing::Parts::maybe_reads,
        crate::proofs::parsing::Parts::maybe_stops,
        crate::proofs::parsing::Parts::maybe_none
    ))]
    fn prior(&mut self) -> Result<(), SpecError>
        requires { IsInAutomaton self.old }
        ensures no_longer { OnOk result (NoLonger self.old self.new) }
        ensures reads { Reads prior closed self.old result closed self.new }
        ensures inside { OnOk result (IsInAutomaton self.new) }
    {
        if !self.sees(Terminal::Prior) {
            return Ok(());
        }
        self.mark(Terminal::Prior)?;
        self.all_transitions()
    }

    /// Transitions, as many as there are.
    #[rattlefmt::skip]
    #[tactic(auto, using(
        crate::proofs::parsing::Parts::turns_start,
        crate::proofs::parsing::Parts::turns_again,
        crate::proofs::parsing::Parts::turns_stop,
        crate::proofs::parsing::Parts::turns_err,
        crate::proofs::parsing::Parts::then_head
    ))]
    fn all_transitions(&mut self) -> Result<(), SpecError>
        requires { IsInAutomaton self.old }
        ensures no_longer { OnOk result (NoLonger self.old self.new) }
        ensures reads { Reads (grammar.many grammar.transition) closed self.old result closed self.new }
        ensures inside { OnOk result (IsInAutomaton self.new) }
    {
        while self.sees(Terminal::Named(Role::TransitionHead)) {
            self.transition()?;
        }
        Ok(())
    }

    /// A transition from a symbol with its arguments, or an epsilon transition from a state of the automaton. Another name at
    /// its head is refused as unknown, a `(` behind a state as not expected, and one behind a symbol without arguments as
    /// another number of them.
    fn transition(&mut self) -> Result<(), SpecError>
        requires { IsInAutomaton self.old }
        ensures shorter { OnOk result (Shorter self.old self.new) }
        ensures reads { Reads grammar.transition closed self.old result closed self.new }
        ensures inside { OnOk result (IsInAutomaton self.new) }
    {
        let name = self.word(Terminal::Named(Role::TransitionHead))?;
        match self.meaning(Role::TransitionHead, name) {
            Meaning::State(from) => {
                self.leaf(SpecKind::Expected)?;
                self.epsilon_target(from)
            }
            Meaning::Symbol(sym, 0) => {
                self.leaf(SpecKind::WrongArity)?;
                self.transition_target(sym, Seq::new(self.alloc))
            }
            Meaning::Symbol(sym, arity) => {
                self.advance();
                let args = self.transition_arguments(arity)?;
                self.transition_target(sym, args)
            }
            Meaning::Variable(_) | Meaning::Unknown => Err(self.refusal(SpecKind::UnknownName)),
        }
    }

    /// The target of an epsilon transition from this state, which is added.
    #[rattlefmt::skip]
    #[tactic(auto, using(
        crate::proofs::parsing::Parts::then_stops,
        crate::proofs::parsing::Parts::later_stops,
        crate::proofs::parsing::Tokens::mark_advances,
        crate::proofs::parsing::Tokens::mark_stops,
        crate::proofs::parsing::Automaton::headed_calm,
        crate::proofs::parsing::Automaton::target_stops
    ))]
    fn epsilon_target(&mut self, from: u32) -> Result<(), SpecError>
        requires inside { IsInAutomaton self.old }
        requires below { from < length (states_of self.old) }
        ensures no_longer { OnOk result (NoLonger self.old self.new) }
        ensures reads { Reads target (headed (state_head from) []) self.old result closed self.new }
        ensures inside { OnOk result (IsInAutomaton self.new) }
    {
        self.mark(Terminal::Arrow)?;
        let to = self.state(Role::TransitionTarget)?;
        self.add_epsilon(from, to)?;
        Ok(())
    }

    /// The target of a transition from this symbol with these arguments, which is added.
    #[rattlefmt::skip]
    #[tactic(auto, using(
        crate::proofs::parsing::Parts::then_stops,
        crate::proofs::parsing::Parts::later_stops,
        crate::proofs::parsing::Tokens::mark_advances,
        crate::proofs::parsing::Tokens::mark_stops,
        crate::proofs::parsing::Automaton::headed_calm,
        crate::proofs::parsing::Automaton::target_stops
    ))]
    fn transition_target(&mut self, sym: u32, args: Seq<u32>) -> Result<(), SpecError>
        requires inside { IsInAutomaton self.old }
        requires over { IsTrue (is_symbol self.old.signature sym (length args)) }
        requires below { IsTrue (states_are_below (length (states_of self.old)) args) }
        ensures no_longer { OnOk result (NoLonger self.old self.new) }
        ensures reads { Reads target (headed (symbol_head sym) args) self.old result closed self.new }
        ensures inside { OnOk result (IsInAutomaton self.new) }
    {
        self.mark(Terminal::Arrow)?;
        let to = self.state(Role::TransitionTarget)?;
        let args = Args::from_slice(self.alloc, args.as_slice())?;
        self.add_transition(Trans { sym, args, to })?;
        Ok(())
    }

    /// Adds an epsilon transition to the automaton that is being read. The only error is running out of memory.
    fn add_epsilon(&mut self, from: u32, to: u32) -> Result<(), AllocError>
        requires inside { IsInAutomaton self.old }
        requires from_below { from < length (states_of self.old) }
        requires to_below { to < length (states_of self.old) }
        ensures ok { OnOk result (state_of self.new ≡ with_epsilon from to (state_of self.old)) }
        ensures left { OnOk result (SameTokens self.old self.new) }
    {
        if self.automata == 2 {
            self.second.eps.push((from, to))
        } else {
            self.initial.eps.push((from, to))
        }
    }

    /// Adds a transition to the automaton that is being read. The only error is running out of memory.
    fn add_transition(&mut self, trans: Trans) -> Result<(), AllocError>
        requires inside { IsInAutomaton self.old }
        requires over { IsTrue (is_symbol self.old.signature trans.sym (length trans.args)) }
        requires below { IsTrue (states_are_below (length (states_of self.old)) trans.args) }
        requires to_below { trans.to < length (states_of self.old) }
        ensures ok { OnOk result (state_of self.new ≡ with_trans trans (state_of self.old)) }
        ensures left { OnOk result (SameTokens self.old self.new) }
    {
        if self.automata == 2 {
            self.second.trans.push(trans)
        } else {
            self.initial.trans.push(trans)
        }
    }

    /// The arguments of a symbol of this arity, which are states of the automaton, in parentheses. Another number of them is
    /// refused as such.
    fn transition_arguments(&mut self, arity: u32) -> Result<Seq<u32>, SpecError>
        requires { 0 < arity }
        ensures no_longer { OnOk result (NoLonger self.old self.new) }
        ensures ok { IfOk result (λ args. ReadArguments arity self.old args self.new) }
        ensures err { IfErr result (StopsArguments arity self.old) }
        ensures count { IfOk result (λ args. length args ≡ arity) }
        ensures below { IfOk result (λ args. IsTrue (states_are_below (length (states_of self.new)) args)) }
        ensures same { OnOk result (state_of self.new ≡ state_of self.old) }
    {
        let mut args = Seq::new(self.alloc);
        self.first_argument()?;
        args.push(self.transition_argument()?)?;
        while args.len() < arity as usize {
            self.next_argument()?;
            args.push(self.transition_argument()?)?;
        }
        self.last_argument()?;
        Ok(args)
    }

    /// An argument of a symbol that lacks one. A `)` is refused as another number of arguments.
    fn transition_argument(&mut self) -> Result<u32, SpecError>
        ensures shorter { OnOk result (Shorter self.old self.new) }
        ensures ok { IfOk result (λ state. ReadArgument self.old state self.new) }
        ensures err { IfErr result (StopsArgument self.old) }
        ensures below { IfOk result (λ state. state < length (states_of self.new)) }
        ensures same { OnOk result (state_of self.new ≡ state_of self.old) }
    {
        if self.sees(Terminal::CloseParen) {
            return Err(self.refusal(SpecKind::WrongArity));
        }
        self.state(Role::TransitionArgument)
    }
}
