//! The subterms of a pattern in a table, so that the arguments of each stand side by side before it.
ghost use Rattle.std.specs.Prelude.{◌≡◌, ◌+◌, ◌==◌, List, IfOk};
ghost use Rattle.std.specs.List.{position_or_len};
ghost use Rattle.ranked_terms.specs.declared.term.Pattern.{Pattern as Subterm};
ghost use Rattle.state_match.specs.declared.nodes.Source.TheVariants.{Variable};
ghost use Rattle.state_match.specs.Kepts.{AreNodes, Grows, HasLast};

use crate::places::place_of;
use crate::tabled::Tabled;
use ranked_terms::Pattern;
use std::alloc::{AllocError, Global};

/// Where the states of a subterm come from.
#[derive(Debug, Clone, Copy, PartialEq, Eq)]
pub(crate) enum Source {
    /// From the state of the variable at this place, or of none where the place is their number.
    Variable(usize),
    /// From this symbol, and from the states of its arguments: where they begin in the table, and how many there are.
    Application(u32, usize, usize),
}

/// A subterm of a pattern.
#[derive(Debug, Clone, Copy, PartialEq, Eq)]
pub(crate) struct Node {
    /// The states of so many first variables decide the subterm's.
    pub(crate) until: usize,
    /// Whether its states are to be listed.
    pub(crate) is_listed: bool,
    /// Where its states come from.
    pub(crate) source: Source,
}

/// The table of the pattern's subterms, with the pattern as the last one. The only error is running out of memory.
pub(crate) fn nodes_of(
    alloc: Global,
    automaton: &Tabled,
    vars: &[u32],
    pattern: &Pattern,
) -> Result<Vec<Node>, AllocError>
    ensures { IfOk result (λ nodes. HasLast vars.now pattern.now nodes.items) }
{
    let mut nodes = Vec::new(alloc);
    let last = add_below(alloc, automaton, vars, pattern, false, &mut nodes)?;
    nodes.push(last)?;
    Ok(nodes)
}

/// Adds the subterms below the pattern to the table, and makes the pattern's own node. The only error is running out of memory.
fn add_below(
    alloc: Global,
    automaton: &Tabled,
    vars: &[u32],
    pattern: &Pattern,
    is_listed: bool,
    nodes: &mut Vec<Node>,
) -> Result<Node, AllocError>
    ensures { IfOk result (λ node. (before : List Subterm) → AreNodes vars.now nodes.old.items before →
        Grows vars.now before node pattern.now nodes.new.items) }
{
    match pattern {
        Pattern::Var(variable) => Ok(variable_node(*variable, vars, is_listed)),
        Pattern::App(sym, args) => {
            let has_many = automaton.has_many(*sym);
            let mut own = Vec::new(alloc);
            let mut until = 0;
            for arg in args.as_slice() {
                let node = add_below(alloc, automaton, vars, arg, has_many, nodes)?;
                own.push(node)?;
                until = usize::max(until, node.until);
            }
            let start = nodes.len();
            nodes.extend_from_slice(own.as_slice())?;
            Ok(Node {
                until,
                is_listed,
                source: Source::Application(*sym, start, own.len()),
            })
        }
    }
}

/// The node of a variable.
fn variable_node(variable: u32, vars: &[u32], is_listed: bool) -> Node
    ensures until { result.until ≡ position_or_len (λ other. variable == other) vars.now + 1 }
    ensures source { result.source ≡ Variable (position_or_len (λ other. variable == other) vars.now) }
{
    let place = place_of(variable, vars);
    // For the proof: one more is a number too.
    prove!(place <= vars.len());
    Node {
        until: place + 1,
        is_listed,
        source: Source::Variable(place),
    }
}
