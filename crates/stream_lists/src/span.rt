//! How far a task comes.

/// No list of a graph has more phases, whatever its lines are. It is 2^124.
pub const LENGTH_MAX: u128 = 21267647932558653966460912964485513216;

/// How far a task comes: from which phase on it is a member, and how many steps it makes.
#[derive(Clone, Copy, Debug, PartialEq, Eq)]
pub struct Span {
    /// Whether the task is live. Where it is not, the numbers are 0.
    pub live: bool,
    /// The phase of its first step.
    pub offset: u128,
    /// How many steps it makes.
    pub steps: u128,
}
