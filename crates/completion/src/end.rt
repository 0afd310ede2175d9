//! How a bounded completion ends.
use ta_clean::Least;

/// At which stage a bounded completion ended, and why. The first of these that holds at the stage is told, in the order
/// `Meets`, `Closed`, `Rounds`, `Pairs`, `States`.
#[derive(Debug, Drop)]
pub enum StageEnd {
    /// The stage has no open pair.
    Closed(u32),
    /// The stage accepts a forbidden term: one of least size.
    Meets(u32, Least),
    /// No round is left.
    Rounds(u32),
    /// There are more open pairs than the option allows.
    Pairs(u32),
    /// In the next round a fresh state is needed while `next` is at the option's limit.
    States(u32),
}
