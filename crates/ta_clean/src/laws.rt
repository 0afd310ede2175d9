//! Laws of emptiness. Each function does nothing: its contract is the law.
ghost use Rattle.ta_clean.specs.Laws.{EmptyByFinals};

/// An automaton accepts no term exactly where no ground term runs to one of its final states.
pub fn empty_by_finals()
    ensures { EmptyByFinals }
{}
