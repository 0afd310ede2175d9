//! Final states of two automata to which one ground term runs.
ghost use Rattle.std.specs.Prelude.{◌≡◌, ℕ, IfSome, IfNone, Contains};
ghost use Rattle.std.specs.Ordering.{nat_cmp};
ghost use Rattle.std.specs.List.Sorted.{IsStrictlySortedBy};
ghost use Rattle.ta_clean.specs.Meeting.{FinalsMeet, IsLeastMeeting};
ghost use Rattle.ta_clean.specs.Walking.{IsLeastIn};
ghost use Rattle.ta_clean.specs.Tables.{IsMarked};
ghost use Rattle.ta_clean.specs.Products.{HasRoom};

use crate::meeting::Meetings;
use ta_core::Automaton;

/// The least pair of a final state of the first automaton and one of the second to both of which one ground term runs: least
/// by the first state, and then by the second. None exactly where no ground term is accepted by both. It takes no memory.
pub fn least_meeting(
    meetings: &mut Meetings,
    first: &Automaton,
    second: &Automaton,
) -> Option<(u32, u32)>
    requires { HasRoom meetings.old first.now second.now }
    ensures some { IfSome result (λ finals. IsLeastMeeting first.now second.now finals.0 finals.1) }
    ensures none { IfNone result ((p q : ℕ) → FinalsMeet first.now second.now p q → ⊥) }
    ensures height { meetings.new.table.height ≡ meetings.old.table.height }
    ensures width { meetings.new.table.width ≡ meetings.old.table.width }
    ensures first_uses { meetings.new.first_uses ≡ meetings.old.first_uses }
    ensures second_uses { meetings.new.second_uses ≡ meetings.old.second_uses }
{
    meetings.mark(first, second);
    for state in first.finals() {
        if let Some(other) = least_with(meetings, *state, second.finals()) {
            return Some((*state, other));
        }
    }
    None
}

/// The least of the states, which ascend, with which this one is marked.
fn least_with(meetings: &Meetings, first: u32, seconds: &[u32]) -> Option<u32>
    requires { IsStrictlySortedBy nat_cmp seconds.now }
    ensures some { IfSome result (IsLeastIn (λ q. IsMarked meetings.now.table (first, q)) seconds.now) }
    ensures none { IfNone result ((q : ℕ) → Contains seconds.now q → IsMarked meetings.now.table (first, q) → ⊥) }
{
    for second in seconds {
        if meetings.contains(first, *second) {
            return Some(*second);
        }
    }
    None
}
