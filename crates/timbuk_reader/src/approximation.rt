//! Reads approximations.
ghost use Rattle.std.specs.Prelude.{◌≡◌, ◌≢◌, false, ◌<◌, ◌≤◌, ◌+◌, ◌∷◌, [], ◌++◌, IfOk, IfErr, OnOk, MatchResult, length};
ghost use Rattle.timbuk_grammar.specs.Grammar as grammar;
ghost use Rattle.timbuk_grammar.specs.declared.terminal.Role.TheVariants as role;
ghost use Rattle.timbuk_grammar.specs.declared.terminal.Terminal.TheVariants as terminal;
ghost use Rattle.spec_text.specs.Declarations.{a_state};
ghost use Rattle.timbuk_reader.specs.View.{Shorter, closed, state_of};
ghost use Rattle.spec_text.specs.Reading.{sees};
ghost use Rattle.timbuk_reader.specs.Reads.{Advances, Stops, Reads};
ghost use Rattle.timbuk_reader.specs.Patterns.{within, SameBut};
ghost use Rattle.timbuk_reader.specs.AutomatonReads.{NoLonger, SameTokens, IsInApproximation};
ghost use Rattle.timbuk_reader.specs.ApproximationReads.{OnlyTokens, OnlyEntries, IsLeafRole, ReadsName, StopsName, HasLeaf};
ghost use Rattle.timbuk_reader.specs.ApproximationReads.{ReadsLeaf, StopsLeaf, IsLeaf, IsPart, IsForm, IsStarted, IsNewEntry};
ghost use Rattle.timbuk_reader.specs.ApproximationReads.{AddsArgument, SameHead, HasArguments};
ghost use Rattle.timbuk_reader.specs.ApproximationReads as entries;

use crate::fault::SpecError;
use crate::meaning::Meaning;
use crate::pattern::contains;
use crate::state::Reader;
use ranked_terms::{Seq, Shape};
use spec_text::{LimitName, MAX_APPROXIMATIONS, MAX_ENTRIES, MAX_VARIABLES, SpecKind};
use std::alloc::{AllocError, Global};
use timbuk_grammar::{Role, Terminal};
use trs_rules::Entry;

/// What the entries of an approximation rule have in common: the form of the assigned right side, and that of the pair's
/// state.
#[derive(Drop)]
struct Form {
    whole: Shape,
    at: Shape,
}

/// An entry of which the head was read: its form, the symbol of its node with those of its arguments that were read, and the
/// variables that stand in these alone, each once.
#[derive(Drop)]
struct StartedEntry {
    form: Form,
    sym: u32,
    arity: u32,
    args: Seq<Shape>,
    own: Seq<u32>,
}

/// A variable or a state.
#[derive(Clone, Copy, Debug, Drop)]
enum Leaf {
    Variable(u32),
    State(u32),
}

impl Leaf {
    /// The leaf as a shape.
    fn shape(self) -> Shape
        ensures { result ≡ entries.leaf_shape self }
    {
        match self {
            Leaf::Variable(variable) => Shape::Var(variable),
            Leaf::State(state) => Shape::State(state),
        }
    }
}

impl Form {
    /// An equal form. The only error is running out of memory.
    fn copy(&self, alloc: Global) -> Result<Form, AllocError>
        ensures { IfOk result (λ copy. copy ≡ self.now) }
    {
        Ok(Form {
            whole: self.whole.copy(alloc)?,
            at: self.at.copy(alloc)?,
        })
    }
}

impl StartedEntry {
    /// Adds an argument, where these variables are bound. The only error is running out of memory.
    fn add_argument(&mut self, arg: Leaf, bound: &[u32]) -> Result<(), AllocError>
        ensures { OnOk result (AddsArgument bound.now arg self.old self.new) }
    {
        if let Leaf::Variable(variable) = arg {
            self.add_variable(variable, bound)?;
        }
        self.args.push(arg.shape())
    }

    /// Adds a variable to the entry's own, unless it is one of them or bound. The only error is running out of memory.
    fn add_variable(&mut self, variable: u32, bound: &[u32]) -> Result<(), AllocError>
        ensures own { OnOk result (self.new.own ≡ entries.with_own bound.now (Leaf.Variable variable) self.old.own) }
        ensures args { self.new.args ≡ self.old.args }
        ensures head { SameHead self.old self.new }
    {
        if !contains(bound, variable) && !contains(self.own.as_slice(), variable) {
            self.own.push(variable)?;
        }
        Ok(())
    }
}

// ---- the section

impl<'s, 'a> Reader<'s, 'a> {
    /// An approximation, from its word on. It is refused before the first automaton, and where there is one.
    pub(crate) fn approximation(&mut self) -> Result<(), SpecError>
        ensures shorter { OnOk result (Shorter self.old self.new) }
        ensures reads { Reads grammar.approximation closed self.old result closed self.new }
    {
        self.approximation_word()?;
        self.title()?;
        self.mark(Terminal::States)?;
        self.states(Role::ApproximationState)?;
        self.mark(Terminal::Rules)?;
        self.approximation_rules()
    }

    /// The word `Approximation`, by which the count rises. Before the first automaton it is refused as not expected, and where
    /// there is an approximation as beyond the limit.
    fn approximation_word(&mut self) -> Result<(), SpecError>
        ensures shorter { OnOk result (Shorter self.old self.new) }
        ensures reads { Reads (grammar.one terminal.Approximation) closed self.old result closed self.new }
        ensures inside { OnOk result (IsInApproximation self.new) }
    {
        if self.automata == 0 || !self.sees(Terminal::Approximation) {
            return Err(self.refusal(SpecKind::Expected));
        }
        if self.approximations >= MAX_APPROXIMATIONS {
            return Err(self.refusal(SpecKind::Limit(LimitName::Approximations)));
        }
        self.advance();
        self.approximations = 1;
        Ok(())
    }

    /// Approximation rules, as many as there are.
    #[rattlefmt::skip]
    #[tactic(auto, using(
        crate::proofs::parsing::Parts::turns_start,
        crate::proofs::parsing::Parts::turns_again,
        crate::proofs::parsing::Parts::turns_stop,
        crate::proofs::parsing::Parts::turns_err,
        crate::proofs::parsing::Parts::then_head
    ))]
    fn approximation_rules(&mut self) -> Result<(), SpecError>
        requires { self.old.approximations ≢ 0 }
        ensures no_longer { OnOk result (NoLonger self.old self.new) }
        ensures reads { Reads (grammar.many grammar.approximation_rule) closed self.old result closed self.new }
    {
        while self.sees(Terminal::OpenBracket) {
            self.approximation_rule()?;
        }
        Ok(())
    }

    /// An approximation rule, whose entries are added. No variable is bound in front of it.
    fn approximation_rule(&mut self) -> Result<(), SpecError>
        requires { self.old.approximations ≢ 0 }
        ensures shorter { OnOk result (Shorter self.old self.new) }
        ensures reads { Reads grammar.approximation_rule closed self.old result closed self.new }
        ensures same { OnOk result (self.new.approximations ≡ self.old.approximations) }
    {
        self.mark(Terminal::OpenBracket)?;
        self.unbind();
        let whole = self.pattern(Role::EntryWhole, 0)?;
        self.mark(Terminal::Arrow)?;
        let form = self.form(whole)?;
        self.mark(Terminal::CloseBracket)?;
        self.form_entries(&form)
    }

    /// The variable or the state that is the form of a pair's state, behind the form of the assigned right side. Another name is
    /// refused as unknown, a 17th variable as beyond the limit, and a `(` behind the name as not expected.
    fn form(&mut self, whole: Shape) -> Result<Form, SpecError>
        requires { IsPart self.old self.old.bound whole }
        ensures shorter { OnOk result (Shorter self.old self.new) }
        ensures ok { IfOk result (λ form. Advances (grammar.name role.EntryAt) (within [] (whole ∷ [])) self.old
            (entries.formed form) self.new) }
        ensures err { IfErr result (Stops (grammar.name role.EntryAt) (within [] (whole ∷ [])) self.old) }
        ensures form { IfOk result (IsForm self.new) }
        ensures same { OnOk result (state_of self.new ≡ state_of self.old) }
    {
        let at = self.entry_leaf(Role::EntryAt, &[])?;
        self.bind_leaf(at)?;
        Ok(Form {
            whole,
            at: at.shape(),
        })
    }

    /// Notes the variable of a form as one that is bound. The only error is running out of memory.
    fn bind_leaf(&mut self, leaf: Leaf) -> Result<(), AllocError>
        requires { IsLeaf [] self.old leaf }
        ensures bound { OnOk result (self.new.bound ≡ entries.with_leaf self.old.bound leaf) }
        ensures same { OnOk result (SameBut self.old self.new) }
        ensures tokens { self.new.tokens.now ≡ self.old.tokens.now }
    {
        match leaf {
            Leaf::Variable(variable) => self.bind(variable),
            Leaf::State(_) => Ok(()),
        }
    }

    /// What follows the form of an approximation rule: its entries, and their end.
    fn form_entries(&mut self, form: &Form) -> Result<(), SpecError>
        requires form { IsForm self.old form.now }
        requires begun { self.old.approximations ≢ 0 }
        ensures no_longer { OnOk result (NoLonger self.old self.new) }
        ensures reads { Reads entries.form_entries (entries.formed form.now) self.old result closed self.new }
        ensures same { OnOk result (self.new.approximations ≡ self.old.approximations) }
    {
        self.mark(Terminal::Arrow)?;
        self.mark(Terminal::OpenBracket)?;
        self.entries(form)?;
        self.take(Terminal::CloseEntries)
    }
}

// ---- entries

impl<'s, 'a> Reader<'s, 'a> {
    /// Entries, as many as there are, at least one.
    fn entries(&mut self, form: &Form) -> Result<(), SpecError>
        requires form { IsForm self.old form.now }
        requires begun { self.old.approximations ≢ 0 }
        ensures no_longer { OnOk result (NoLonger self.old self.new) }
        ensures reads { Reads (grammar.some grammar.entry) (entries.formed form.now) self.old result
            (entries.formed form.now) self.new }
        ensures same { OnOk result (OnlyEntries self.old self.new) }
    {
        self.entry(form)?;
        while self.sees(Terminal::Named(Role::EntryHead)) {
            self.entry(form)?;
        }
        Ok(())
    }

    /// An entry, which is added.
    fn entry(&mut self, form: &Form) -> Result<(), SpecError>
        requires form { IsForm self.old form.now }
        requires begun { self.old.approximations ≢ 0 }
        ensures shorter { OnOk result (Shorter self.old self.new) }
        ensures reads { Reads grammar.entry (entries.formed form.now) self.old result (entries.formed form.now) self.new }
        ensures same { OnOk result (OnlyEntries self.old self.new) }
    {
        let mut entry = self.entry_head(form)?;
        self.entry_arguments(&mut entry)?;
        self.mark(Terminal::Arrow)?;
        let target = self.entry_target()?;
        self.add_entry(entry, target)?;
        Ok(())
    }

    /// The symbol at the head of an entry. It is refused where there are `MAX_ENTRIES` entries, and where there is no such
    /// symbol.
    fn entry_head(&mut self, form: &Form) -> Result<StartedEntry, SpecError>
        requires { IsForm self.old form.now }
        ensures shorter { OnOk result (Shorter self.old self.new) }
        ensures ok { IfOk result (λ entry. Advances (grammar.name role.EntryHead) (entries.formed form.now) self.old
            (entries.headed entry) self.new) }
        ensures err { IfErr result (Stops (grammar.name role.EntryHead) (entries.formed form.now) self.old) }
        ensures started { IfOk result (IsStarted self.new) }
        ensures new { IfOk result (IsNewEntry form.now) }
        ensures same { OnOk result (OnlyTokens self.old self.new) }
    {
        let name = self.word(Terminal::Named(Role::EntryHead))?;
        if self.entries.len() >= MAX_ENTRIES {
            return Err(self.refusal(SpecKind::Limit(LimitName::Entries)));
        }
        let Some(sym) = self.signature.find(name) else {
            return Err(self.refusal(SpecKind::UnknownName));
        };
        let entry = StartedEntry {
            form: form.copy(self.alloc)?,
            sym,
            arity: self.signature.arity(sym).unwrap(),
            args: Seq::new(self.alloc),
            own: Seq::new(self.alloc),
        };
        self.advance();
        Ok(entry)
    }

    /// The state to which a node goes. Another name is refused as unknown, and a `(` behind the name as not expected.
    fn entry_target(&mut self) -> Result<u32, SpecError>
        ensures shorter { OnOk result (Shorter self.old self.new) }
        ensures ok { IfOk result (λ target. ReadsName role.EntryTarget self.old (a_state target) self.new) }
        ensures err { IfErr result (StopsName role.EntryTarget self.old) }
        ensures below { IfOk result (λ target. target < length self.new.initial.states) }
        ensures same { OnOk result (OnlyTokens self.old self.new) }
    {
        let name = self.word(Terminal::Named(Role::EntryTarget))?;
        let Some(target) = self.initial.states.find(name) else {
            return Err(self.refusal(SpecKind::UnknownName));
        };
        self.leaf(SpecKind::Expected)?;
        Ok(target)
    }

    /// Adds an entry. The only error is running out of memory.
    fn add_entry(&mut self, entry: StartedEntry, target: u32) -> Result<(), AllocError>
        requires started { IsStarted self.old entry }
        requires full { length entry.args ≡ entry.arity }
        requires target { target < length self.old.initial.states }
        requires begun { self.old.approximations ≢ 0 }
        ensures added { OnOk result (self.new.entries ≡ self.old.entries ++ entries.entry_of entry target ∷ []) }
        ensures same { OnOk result (OnlyEntries self.old self.new) }
        ensures tokens { OnOk result (SameTokens self.old self.new) }
    {
        self.entries.push(Entry {
            whole: entry.form.whole,
            at: entry.form.at,
            node: Shape::App(entry.sym, entry.args),
            target,
        })
    }
}

// ---- variables and states

impl<'s, 'a> Reader<'s, 'a> {
    /// The arguments of an entry's symbol, as many as its arity says, none in parentheses where that is 0. Another number of
    /// them is refused as such.
    fn entry_arguments(&mut self, entry: &mut StartedEntry) -> Result<(), SpecError>
        requires started { IsStarted self.old entry.old }
        requires none { entry.old.args ≡ [] }
        requires no_own { entry.old.own ≡ [] }
        ensures no_longer { OnOk result (NoLonger self.old self.new) }
        ensures reads { Reads (grammar.arguments (grammar.name role.EntryArgument)) (entries.headed entry.old) self.old result
            (entries.argued entry.new) self.new }
        ensures head { OnOk result (SameHead entry.old entry.new) }
        ensures started { OnOk result (IsStarted self.new entry.new) }
        ensures full { OnOk result (length entry.new.args ≡ entry.new.arity) }
        ensures same { OnOk result (OnlyTokens self.old self.new) }
    {
        if entry.arity == 0 {
            return self.no_arguments();
        }
        self.first_argument()?;
        self.entry_argument(entry)?;
        while entry.args.len() < entry.arity as usize {
            self.next_argument()?;
            self.entry_argument(entry)?;
        }
        self.last_argument()
    }

    /// Refuses a `(` behind a symbol of arity 0.
    fn no_arguments(&self) -> Result<(), SpecError>
        ensures { MatchResult result (λ _. sees terminal.OpenParen self.now.tokens.now ≡ false) (HasArguments self.now) }
    {
        if self.sees(Terminal::OpenParen) {
            return Err(self.refusal(SpecKind::WrongArity));
        }
        Ok(())
    }

    /// An argument of an entry's symbol that lacks some: a variable or a state. A `)` is refused as one after too few.
    fn entry_argument(&mut self, entry: &mut StartedEntry) -> Result<(), SpecError>
        requires started { IsStarted self.old entry.old }
        requires room { length entry.old.args < entry.old.arity }
        ensures shorter { OnOk result (Shorter self.old self.new) }
        ensures reads { Reads (grammar.name role.EntryArgument) (entries.arguing entry.old) self.old result
            (entries.arguing entry.new) self.new }
        ensures head { OnOk result (SameHead entry.old entry.new) }
        ensures started { OnOk result (IsStarted self.new entry.new) }
        ensures count { OnOk result (length entry.new.args ≡ length entry.old.args + 1) }
        ensures same { OnOk result (OnlyTokens self.old self.new) }
    {
        if self.sees(Terminal::CloseParen) {
            return Err(self.refusal(SpecKind::WrongArity));
        }
        let arg = self.entry_leaf(Role::EntryArgument, entry.own.as_slice())?;
        entry.add_argument(arg, self.bound.as_slice())?;
        Ok(())
    }

    /// A variable or a state, where the entry has these variables of its own. Another name is refused as unknown, a 17th variable
    /// as beyond the limit, and a `(` behind the name as not expected.
    fn entry_leaf(&mut self, role: Role, own: &[u32]) -> Result<Leaf, SpecError>
        requires role { IsLeafRole role }
        requires few { length own.now ≤ MAX_VARIABLES }
        ensures shorter { OnOk result (Shorter self.old self.new) }
        ensures ok { IfOk result (λ leaf. ReadsLeaf role own.now self.old leaf self.new) }
        ensures err { IfErr result (StopsLeaf role own.now self.old) }
        ensures leaf { IfOk result (IsLeaf own.now self.new) }
        ensures same { OnOk result (OnlyTokens self.old self.new) }
    {
        let leaf = self.next_leaf(role, own)?;
        self.leaf(SpecKind::Expected)?;
        Ok(leaf)
    }

    /// The variable or the state whose name comes next, where the entry has these variables of its own. Another name is refused
    /// as unknown, and a 17th variable as beyond the limit.
    fn next_leaf(&self, role: Role, own: &[u32]) -> Result<Leaf, SpecError>
        requires role { IsLeafRole role }
        requires few { length own.now ≤ MAX_VARIABLES }
        ensures ok { IfOk result (HasLeaf role own.now self.now) }
        ensures err { IfErr result (StopsLeaf role own.now self.now) }
    {
        let name = self.word(Terminal::Named(role))?;
        match self.meaning(role, name) {
            Meaning::Variable(variable) if !self.has_room(variable, own) => {
                Err(self.refusal(SpecKind::Limit(LimitName::Variables)))
            }
            Meaning::Variable(variable) => Ok(Leaf::Variable(variable)),
            Meaning::State(state) => Ok(Leaf::State(state)),
            _ => Err(self.refusal(SpecKind::UnknownName)),
        }
    }

    /// Whether the variable may stand in an entry that has these variables of its own.
    fn has_room(&self, variable: u32, own: &[u32]) -> bool
        requires { length own.now ≤ MAX_VARIABLES }
        ensures { result ≡ entries.has_room self.now.bound own.now variable }
    {
        self.is_bound(variable)
            || contains(own, variable)
            || self.bound.len() + own.len() < MAX_VARIABLES
    }
}
