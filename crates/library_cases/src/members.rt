//! Whether numbers are states.
ghost use Rattle.std.specs.Prelude.{All, Contains, IsTrue};

/// Whether the number is a state.
pub fn is_state(states: &[u32], number: u32) -> bool
    ensures { IsTrue result → Contains states.now number }
{
    states.contains(&number)
}

/// Whether each of the numbers is a state.
pub fn are_states(states: &[u32], numbers: &[u32]) -> bool
    ensures { IsTrue result → All (Contains states.now) numbers.now }
{
    for number in numbers {
        if !is_state(states, *number) {
            return false;
        }
    }
    true
}
