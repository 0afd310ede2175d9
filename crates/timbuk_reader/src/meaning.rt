//! What names stand for.
ghost use Rattle.std.specs.Prelude.{◌≡◌, [], Some, None, if◌then◌else◌, position, MatchOption};
ghost use Rattle.std.specs.Str.{bytes_eq};
ghost use Rattle.ranked_terms.specs.Names.{number_of, arity_of};
ghost use Rattle.spec_text.specs.Declarations.{allows_symbol, allows_variable, states_at, meaning};
ghost use Rattle.timbuk_reader.specs.Meanings.{meant_by};
ghost use Rattle.timbuk_reader.specs.View.{state_of};

use crate::names::NameTable;
use crate::state::Reader;
use timbuk_grammar::Role;

/// What a name stands for in its place.
#[derive(Clone, Copy, Debug, Drop)]
pub(crate) enum Meaning {
    /// Nothing that may stand there.
    Unknown,
    /// The variable of this number.
    Variable(u32),
    /// The state of this number.
    State(u32),
    /// The symbol of this number, with its arity.
    Symbol(u32, u32),
}

/// Whether a symbol may stand in the place.
fn allows_symbol(role: Role) -> bool
    ensures { result ≡ allows_symbol role }
{
    matches!(
        role,
        Role::LeftSide
            | Role::RightSide
            | Role::EquationLeft
            | Role::EquationRight
            | Role::TransitionHead
            | Role::EntryWhole
            | Role::EntryHead
    )
}

/// Whether a variable may stand in the place.
fn allows_variable(role: Role) -> bool
    ensures { result ≡ allows_variable role }
{
    matches!(
        role,
        Role::LeftSide
            | Role::RightSide
            | Role::EquationLeft
            | Role::EquationRight
            | Role::EntryWhole
            | Role::EntryAt
            | Role::EntryArgument
    )
}

impl<'s, 'a> Reader<'s, 'a> {
    /// What the name stands for in the place: a symbol, a variable or a state, where it may stand there.
    pub(crate) fn meaning(&self, role: Role, name: &str) -> Meaning
        ensures { meant_by result ≡ meaning (state_of self.now) role name.now }
    {
        if let Some(sym) = self.symbol_at(role, name) {
            return Meaning::Symbol(sym, self.signature.arity(sym).unwrap_or(0));
        }
        if let Some(variable) = self.variable_at(role, name) {
            return Meaning::Variable(variable);
        }
        match self.state_at(role, name) {
            Some(state) => Meaning::State(state),
            None => Meaning::Unknown,
        }
    }

    /// The number of the symbol of this name. `None` where there is none, or where none may stand.
    fn symbol_at(&self, role: Role, name: &str) -> Option<u32>
        ensures { result ≡ (if allows_symbol role then number_of self.now.signature name.now else None) }
    {
        if allows_symbol(role) {
            self.signature.find(name)
        } else {
            None
        }
    }

    /// The number of the variable of this name. `None` where there is none, or where none may stand.
    fn variable_at(&self, role: Role, name: &str) -> Option<u32>
        ensures { result ≡ (if allows_variable role then position (bytes_eq name.now) self.now.variables else None) }
    {
        if allows_variable(role) {
            self.variables.find(name)
        } else {
            None
        }
    }

    /// The number of the state of this name. `None` where there is none, or where none may stand.
    fn state_at(&self, role: Role, name: &str) -> Option<u32>
        ensures { result ≡ position (bytes_eq name.now) (states_at (state_of self.now) role) }
    {
        self.states_at(role)?.find(name)
    }

    /// The states that may stand in the place: those of the automaton that is declared last, or those of the initial
    /// automaton and of the approximation. `None` where no state may stand.
    fn states_at(&self, role: Role) -> Option<&NameTable>
        ensures { MatchOption result (states_at (state_of self.now) role ≡ [])
            (λ states. states.now ≡ states_at (state_of self.now) role) }
    {
        match role {
            Role::DescribedState
            | Role::FinalState
            | Role::TransitionHead
            | Role::TransitionArgument
            | Role::TransitionTarget => {
                if self.automata == 2 {
                    Some(&self.second.states)
                } else {
                    Some(&self.initial.states)
                }
            }
            Role::EntryWhole | Role::EntryAt | Role::EntryArgument | Role::EntryTarget => {
                Some(&self.initial.states)
            }
            _ => None,
        }
    }
}
