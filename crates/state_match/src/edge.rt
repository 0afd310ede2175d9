//! What is wanted of the first arguments of a pattern, down its left edge.
ghost use Rattle.std.specs.Prelude.{◌≡◌, ◌++◌, ◌∷◌, ℕ, List, Some, slice_get, Contains, IfOk, IfSome};
ghost use Rattle.ranked_terms.specs.Terms.{assigned};
ghost use Rattle.ta_core.specs.Closure.{state_in};
ghost use Rattle.ta_core.specs.Runs.{Runs};
ghost use Rattle.state_match.specs.Belows.{IsBelow};
ghost use Rattle.state_match.specs.Edges.{IsEdge};
ghost use Rattle.state_match.specs.declared.edge.Edge.{Edge as Node};
ghost use Rattle.state_match.specs.Rows.{IsClosedBack, IsReverse};

use crate::below::Below;
use crate::join::{narrow, wanted_next};
use crate::tabled::Tabled;
use crate::turned::Turned;
use ranked_terms::Pattern;
use std::alloc::{AllocError, Global};
use ta_core::StateSet;

/// Which states are wanted of the first argument of a pattern, whatever the variables stand for, and the same of that
/// argument: so it is looked up once, and not again for each state of a variable.
#[derive(Drop)]
pub(crate) struct Edge {
    /// The states that are wanted of the first argument.
    pub(crate) first: StateSet,
    /// The edge of that argument, where it has one.
    pub(crate) deeper: Vec<Edge>,
}

impl Edge {
    /// The edge of a pattern of which these states are wanted, or none where its first argument has no arguments. The only
    /// error is running out of memory.
    pub(crate) fn of(
        alloc: Global,
        automaton: &Tabled,
        reversed: &Turned,
        all: &StateSet,
        wanted: &StateSet,
        pattern: &Pattern,
        below: &Below,
    ) -> Result<Option<Edge>, AllocError>
        requires all { all.now ≡ automaton.now.states }
        requires reverse { IsReverse automaton.now reversed.now }
        requires below { IsBelow automaton.now pattern.now below.now }
        ensures { IfOk result (λ edge. IfSome edge (IsEdge automaton.now wanted.now pattern.now)) }
    {
        let Pattern::App(sym, args) = pattern else {
            return Ok(None);
        };
        let args = args.as_slice();
        if args.is_empty() || !has_arguments(&args[0]) {
            return Ok(None);
        }
        let sets = &below.sets;
        let count = args.len();
        let first = wanted_next(
            alloc,
            automaton,
            reversed,
            all,
            *sym,
            &[],
            sets,
            count,
            wanted,
        )?;
        let inner = &below.args[0];
        let edge = Edge::of(alloc, automaton, reversed, all, &first, &args[0], inner)?;
        let deeper = listed(alloc, edge)?;
        Ok(Some(Edge { first, deeper }))
    }
}

/// The edge as a list, where there is one. The only error is running out of memory.
fn listed(alloc: Global, edge: Option<Edge>) -> Result<Vec<Edge>, AllocError>
    ensures { IfOk result (λ list. (one : Node) → slice_get list.items 0 ≡ Some one → edge ≡ Some one) }
{
    let mut list = Vec::new(alloc);
    match edge {
        None => Ok(list),
        Some(edge) => {
            list.push(edge)?;
            Ok(list)
        }
    }
}

/// Whether the pattern is a symbol with arguments.
fn has_arguments(pattern: &Pattern) -> bool {
    match pattern {
        Pattern::Var(_) => false,
        Pattern::App(_, args) => !args.as_slice().is_empty(),
    }
}

/// As `narrow`, where the edge of the pattern is known: it goes down the edge as long as the first argument has variables that
/// stand for no state yet. The only error is running out of memory.
pub(crate) fn narrow_along(
    alloc: Global,
    automaton: &Tabled,
    reversed: &Turned,
    all: &StateSet,
    vars: &[u32],
    bound: &[u32],
    wanted: &StateSet,
    edge: Option<&Edge>,
    pattern: &Pattern,
    below: &Below,
) -> Result<Option<StateSet>, AllocError>
    requires all { all.now ≡ automaton.now.states }
    requires reverse { IsReverse automaton.now reversed.now }
    requires edge { IfSome edge (λ edge. IsEdge automaton.now wanted.now pattern.now edge.now) }
    requires below { IsBelow automaton.now pattern.now below.now }
    ensures { IfOk result (λ states. IfSome states (λ states. IsClosedBack automaton.now wanted.now →
        (s : ℕ) (rest : List ℕ) (q : ℕ) → Contains wanted.now q →
        Runs automaton.now (assigned (state_in vars.now (bound.now ++ s ∷ rest)) pattern.now) q → Contains states s)) }
{
    if let Some(edge) = edge {
        if let Pattern::App(_, args) = pattern {
            let args = args.as_slice();
            if !args.is_empty() && below.args[0].until > bound.len() {
                let first = &edge.first;
                let deeper = edge.deeper.as_slice().first();
                let inner = &below.args[0];
                return narrow_along(
                    alloc, automaton, reversed, all, vars, bound, first, deeper, &args[0], inner,
                );
            }
        }
    }
    narrow(
        alloc, automaton, reversed, all, vars, bound, wanted, pattern, below,
    )
}
