//! What merging makes of each state.
ghost use Rattle.std.specs.Prelude.{◌≡◌, ◌≢◌, ◌<◌, ◌==◌, ℕ, length, map, All, IfOk, IfSome, IfNone, if◌then◌else◌};
ghost use Rattle.ta_core.specs.Acceptance.{image};
ghost use Rattle.eq_merge.specs.Quotients.{apart as all_apart, followed as in_turn};
ghost use Rattle.eq_merge.specs.Joined.{put_together};

use std::alloc::{AllocError, Global};
use std::marker::Model;

/// For each number below `next` the state that stands for it: the least one of its class. A number that is no state stands for
/// itself. Contracts see it as the list of these.
#[derive(Debug, Drop)]
pub struct Renaming {
    least: Vec<u32>,
}

impl Model for Renaming {
    ghost use Rattle.std.specs.Prelude.{List, ℕ};
    ghost use Rattle.std.specs.Coded.{coded_list, coded_ℕ};

    ghost Value = { List ℕ };

    ghost coded = { coded_list coded_ℕ };

    ghost view = { λ renaming. renaming.least.items };
}

impl Renaming {
    /// The state that stands for a number below `next`.
    pub fn image(&self, q: u32) -> u32
        requires { q < length self.now }
        ensures { result ≡ image self.now q }
    {
        self.least[q as usize]
    }

    /// Each of so many numbers stands for itself. The only error is running out of memory.
    pub(crate) fn apart(alloc: Global, next: u32) -> Result<Renaming, AllocError>
        ensures { IfOk result (λ renaming. renaming ≡ all_apart next) }
    {
        let mut least = Vec::new(alloc);
        for q in 0..next {
            least.push(q)?;
        }
        Ok(Renaming { least })
    }

    /// The number that stands for a number, and 0 for one that is none of them.
    pub(crate) fn least_of(&self, q: u32) -> u32
        ensures { result ≡ image self.now q }
    {
        self.least.get(q as usize).copied().unwrap_or(0)
    }

    /// All of it, as a list.
    pub(crate) fn as_slice(&self) -> &[u32]
        ensures { result.now ≡ self.now }
    {
        self.least.as_slice()
    }

    /// Puts the classes of two numbers together: the lesser of the two least states stands for them.
    pub(crate) fn join(&mut self, p: u32, q: u32)
        requires p { p < length self.old }
        requires q { q < length self.old }
        ensures { self.new ≡ put_together self.old p q }
    {
        let p = self.image(p);
        let q = self.image(q);
        if p != q {
            relabel(self.least.as_mut_slice(), p.max(q), p.min(q));
        }
    }

    /// First this renaming and then the other one. The only error is running out of memory.
    pub(crate) fn followed(&self, alloc: Global, later: &Renaming) -> Result<Renaming, AllocError>
        requires { All (λ q. q < length later.now) self.now }
        ensures { IfOk result (λ renaming. renaming ≡ in_turn self.now later.now) }
    {
        let mut least = Vec::new(alloc);
        for q in self.least.as_slice() {
            least.push(later.image(*q))?;
        }
        Ok(Renaming { least })
    }

    /// The first number for which another one stands.
    pub(crate) fn moved(&self) -> Option<usize>
        ensures some { IfSome result (λ q. (q < length self.now) × (image self.now q ≢ q)) }
        ensures none { IfNone result ((q : ℕ) → q < length self.now → image self.now q ≡ q) }
    {
        let least = self.least.as_slice();
        for q in 0..least.len() {
            if least[q] as usize != q {
                return Some(q);
            }
        }
        None
    }
}

/// Writes one number wherever another one stands.
fn relabel(labels: &mut [u32], from: u32, to: u32)
    ensures { labels.new ≡ map (λ r. if r == from then to else r) labels.old }
{
    for label in labels.iter_mut() {
        *label = relabelled(*label, from, to);
    }
}

/// The one number in place of the other one.
fn relabelled(label: u32, from: u32, to: u32) -> u32
    ensures { result ≡ (if label == from then to else label) }
{
    if label == from { to } else { label }
}
