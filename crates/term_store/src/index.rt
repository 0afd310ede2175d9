//! Rules by the root symbols of their left sides.
ghost use Rattle.std.specs.Prelude.{◌≡◌, ◌↔◌, ℕ, IfOk, Contains};
ghost use Rattle.term_store.specs.Index.{HasRoot, IsIndexOf};

use ranked_terms::Pattern;
use std::alloc::{AllocError, Global};
use std::marker::Model;
use trs_rules::Rule;

/// The numbers of rules by the root symbols of their left sides. Contracts see the list of the root symbols with the numbers.
#[derive(Drop)]
pub struct RuleIndex {
    by_root: Vec<(u32, u32)>,
}

impl Model for RuleIndex {
    ghost use Rattle.std.specs.Prelude.{List, ℕ};
    ghost use Rattle.std.specs.List.Sorted.{IsNonDecreasingBy};

    ghost Value = { List (ℕ × ℕ) };

    ghost view = { λ index. index.by_root.items };

    ghost invariant = { λ index. IsNonDecreasingBy (λ (e : ℕ × ℕ). e.0) index.by_root.items };
}

impl RuleIndex {
    /// The index of these rules. The only error is running out of memory; rules that can't be numbered by 32 bits are
    /// answered so too.
    pub fn new(alloc: Global, rules: &[Rule]) -> Result<RuleIndex, AllocError>
        ensures { IfOk result (IsIndexOf rules.now) }
    {
        if rules.len() > u32::MAX as usize {
            return Err(AllocError);
        }
        let mut by_root = Vec::new(alloc);
        for i in 0..rules.len() {
            by_root.push((root_of(&rules[i]), i as u32))?;
        }
        by_root.sort_by_key(|entry| entry.0)?;
        Ok(RuleIndex { by_root })
    }

    /// The rules of a root symbol, each as a pair of the symbol and its number.
    pub(crate) fn with_root(&self, sym: u32) -> &[(u32, u32)]
        ensures { (e : ℕ × ℕ) → Contains result.now e ↔ (Contains self.now e × (e.0 ≡ sym)) }
    {
        let all = self.by_root.as_slice();
        let start = all.partition_point(|entry| entry.0 < sym);
        let rest = &all[start..];
        let count = rest.partition_point(|entry| entry.0 <= sym);
        &rest[..count]
    }
}

// The root symbol of the left side, which is no variable.
fn root_of(rule: &Rule) -> u32
    ensures { HasRoot rule.now result }
{
    match rule.left() {
        Pattern::App(sym, _) => *sym,
        Pattern::Var(_) => unreachable!(),
    }
}
