//! The open pairs of one rule, found assignment by assignment.
ghost use Rattle.std.specs.Prelude.{◌≡◌, ◌≤◌, ◌++◌, length, map, IfOk, OnOk};
ghost use Rattle.ranked_terms.specs.Limits.{max_variables};
ghost use Rattle.critical_pairs.specs.Opens.{pair_of};

use ranked_terms::Seq;
use state_match::{Groups, Kept, Matcher};
use std::alloc::{AllocError, Global};
use std::marker::Model;
use trs_rules::{Pair, Rule, Sigma};

/// Takes the assignments at which the left side of a rule runs, and keeps the rule's open pairs up to a limit.
#[derive(Drop)]
pub(crate) struct Openings<'a> {
    alloc: Global,
    // The rule's right side.
    right: Kept<'a>,
    number: u32,
    rule: &'a Rule,
    limit: u32,
    pairs: Seq<Pair>,
}

impl<'a> Model for Openings<'a> {
    ghost use Rattle.std.specs.Prelude.{◌≡◌};
    ghost use Rattle.std.specs.Coded.{codes};
    ghost use Rattle.ranked_terms.specs.contracts.term.Pattern as patterns;
    ghost use Rattle.critical_pairs.specs.Opens.{Opening};

    ghost Value = { Opening };

    ghost coded = { Prim.hlevel (codes, patterns.the_row.coded) };

    ghost view = { λ o. record {
      setting = record { automaton = o.right.automaton; number = o.number; rule = o.rule.now };
      limit = o.limit;
      pairs = o.pairs;
    } };

    ghost invariant = { λ o. (o.right.vars ≡ o.rule.now.vars) × (o.right.pattern ≡ o.rule.now.right) };
}

impl<'a> Openings<'a> {
    /// Begins with these pairs. The only error is running out of memory.
    pub(crate) fn new(
        alloc: Global,
        matcher: &'a Matcher<'a>,
        number: u32,
        rule: &'a Rule,
        limit: u32,
        pairs: Seq<Pair>,
    ) -> Result<Openings<'a>, AllocError>
        ensures { IfOk result (λ openings. openings ≡ record {
          setting = record { automaton = matcher.now; number = number; rule = rule.now };
          limit = limit;
          pairs = pairs;
        }) }
    {
        let right = Kept::new(matcher, rule.vars(), rule.right())?;
        Ok(Openings {
            alloc,
            right,
            number,
            rule,
            limit,
            pairs,
        })
    }

    /// The pairs that were found.
    pub(crate) fn into_pairs(self) -> Seq<Pair>
        ensures { result ≡ self.entry.pairs }
    {
        self.pairs
    }
}

impl<'a> Groups for Openings<'a> {
    ghost use Rattle.critical_pairs.specs.Opens.{Adds, Exceeds};

    ghost took = { λ u g v. Adds u g v };

    ghost ended = { λ u g v. Exceeds u g };

    ghost broke = { λ u g v. Unit {0} };

    fn take(&mut self, assignment: &[u32], states: &[u32]) -> Result<bool, AllocError> {
        let open = self.right.missed_states(assignment, states)?;
        let room = (self.limit as usize).saturating_sub(self.pairs.len());
        if open.len() > room {
            return Ok(false);
        }
        add_pairs(
            self.alloc,
            self.number,
            assignment,
            open.as_slice(),
            &mut self.pairs,
        )?;
        Ok(true)
    }
}

/// Adds a pair of the rule with this number and the assignment for each of the states. The only error is running out of memory.
fn add_pairs(
    alloc: Global,
    number: u32,
    assignment: &[u32],
    states: &[u32],
    pairs: &mut Seq<Pair>,
) -> Result<(), AllocError>
    requires { length assignment.now ≤ max_variables }
    ensures { OnOk result (pairs.new ≡ pairs.old ++ map (pair_of number assignment.now) states.now) }
{
    for state in states {
        pairs.push(Pair {
            rule: number,
            sigma: Sigma::from_slice(alloc, assignment),
            state: *state,
        })?;
    }
    Ok(())
}
