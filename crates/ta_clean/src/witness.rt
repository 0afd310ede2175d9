//! Terms of least size that an automaton accepts, or two automata.
ghost use Rattle.std.specs.Prelude.{ℕ, IfOk, IfSome, IfNone};
ghost use Rattle.ta_core.specs.Languages.{Accepts};
ghost use Rattle.ta_clean.specs.Meeting.{IsCommon, FinalsMeet};
ghost use Rattle.ta_clean.specs.Least.{Witnesses};
ghost use Rattle.ta_clean.specs.Sizes.{AreLeast};

use crate::building::Both;
use crate::emptiness::all_terms;
use crate::final_pairs::least_meeting;
use crate::meeting::Meetings;
use crate::settling::least_sizes;
use crate::sizes::{SizeTable, TOO_LARGE};
use ranked_terms::{Seq, Term};
use std::alloc::{AllocError, Global};
use ta_core::Automaton;

/// What shows that a language is not empty.
#[derive(Debug, Drop)]
pub enum Witness {
    /// The language is empty.
    None,
    /// A term of least size, which has at most 1,024 symbols.
    Term(Term),
    /// There is a term, and each has more than 1,024 symbols.
    Large,
}

/// What shows it where it is known that there is a term.
#[derive(Debug, Drop)]
pub enum Least {
    /// A term of least size, which has at most 1,024 symbols.
    Term(Term),
    /// Each term has more than 1,024 symbols.
    Large,
}

/// A term of least size that the automaton accepts: `None` exactly where it accepts none, and `Large` exactly where each has
/// more than 1,024 symbols. The only error is running out of memory.
pub fn least_witness(alloc: Global, automaton: &Automaton) -> Result<Witness, AllocError>
    ensures { IfOk result (Witnesses (Accepts automaton.now)) }
{
    let all = all_terms(alloc, automaton.trans())?;
    common_witness(alloc, automaton, &all)
}

/// A term of least size that both automata accept: `None` exactly where they accept none in common, and `Large` exactly where
/// each has more than 1,024 symbols. The only error is running out of memory.
pub fn common_witness(
    alloc: Global,
    first: &Automaton,
    second: &Automaton,
) -> Result<Witness, AllocError>
    ensures { IfOk result (Witnesses (IsCommon first.now second.now)) }
{
    let Some((some_first, some_second)) = some_meeting(alloc, first, second)? else {
        return Ok(Witness::None);
    };
    let sizes = least_sizes(alloc, first, second)?;
    sized_witness(alloc, first, second, &sizes, some_first, some_second)
}

/// Final states of the two automata to which one ground term runs, or none where no term is accepted by both. The only error
/// is running out of memory.
fn some_meeting(
    alloc: Global,
    first: &Automaton,
    second: &Automaton,
) -> Result<Option<(u32, u32)>, AllocError>
    ensures some { IfOk result (λ found. IfSome found (λ finals. FinalsMeet first.now second.now finals.0 finals.1)) }
    ensures none { IfOk result (λ found. IfNone found ((p q : ℕ) → FinalsMeet first.now second.now p q → ⊥)) }
{
    let mut meetings = Meetings::new(alloc, first, second)?;
    Ok(least_meeting(&mut meetings, first, second))
}

/// A term of least size that both automata accept, built from the least sizes, where one ground term runs to these two final
/// states. The only error is running out of memory.
fn sized_witness(
    alloc: Global,
    first: &Automaton,
    second: &Automaton,
    sizes: &SizeTable,
    some_first: u32,
    some_second: u32,
) -> Result<Witness, AllocError>
    requires sizes { AreLeast (record { first = first.now; second = second.now }) sizes.now }
    requires meet { FinalsMeet first.now second.now some_first some_second }
    ensures { IfOk result (Witnesses (IsCommon first.now second.now)) }
{
    // For the proof: their contracts say what holds of every automaton.
    let _ = first.next();
    let _ = second.next();
    let both = Both::new(first, second);
    let (state, other) = both.least_final(sizes, some_first, some_second);
    if sizes.get(state, other).size >= TOO_LARGE {
        return Ok(Witness::Large);
    }
    let term = both.build(alloc, sizes, state, other)?;
    Ok(Witness::Term(term))
}
