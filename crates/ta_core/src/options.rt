//! The options of completion and search.
ghost use Rattle.std.specs.Prelude.{◌≡◌, ◌≤◌};
ghost use Rattle.ta_core.specs.Limits.{max_states};

/// How far completion and the bounded search go. Each number is in its range at every moment.
#[derive(Debug, Clone, Copy, PartialEq, Eq)]
pub struct Options {
    /// The most rounds of completion, at most 1,000.
    pub rounds: u32,
    /// The most rewriting steps of the search, at most 100.
    pub steps: u32,
    /// The greatest height of the terms that the search starts from, from 1 to 50.
    pub height: u32,
    /// The most terms that the search keeps, from 1 to 50,000.
    pub terms: u32,
    /// The most open pairs that a round resolves, at most 1,000,000.
    pub pairs: u32,
    /// The number at which completion makes no further state, from 1 to 16,384.
    pub states: u32,
    pub ghost rounds_range: { rounds ≤ 1000 },
    pub ghost steps_range: { steps ≤ 100 },
    pub ghost height_range: { (1 ≤ height) × (height ≤ 50) },
    pub ghost terms_range: { (1 ≤ terms) × (terms ≤ 50000) },
    pub ghost pairs_range: { pairs ≤ 1000000 },
    pub ghost states_range: { (1 ≤ states) × (states ≤ max_states) },
}

impl Default for Options {
    ghost is_default = { λ o. (o.rounds ≡ 20) × (o.steps ≡ 5) × (o.height ≡ 4) × (o.terms ≡ 5000) × (o.pairs ≡ 100000)
        × (o.states ≡ 4096) };

    /// 20 rounds, 5 steps, height 4, 5,000 terms, 100,000 pairs and 4,096 states.
    fn default() -> Options {
        Options {
            rounds: 20,
            steps: 5,
            height: 4,
            terms: 5000,
            pairs: 100000,
            states: 4096,
        }
    }
}
