//! What a task owes within a step.

use stream_filters::TooBigValue;

/// What the begun steps of a task owe next.
#[derive(Clone, Copy, Debug, PartialEq, Eq)]
pub enum Owed {
    /// Nothing: the task stands between two steps.
    Nothing,
    /// A signal of the value on this output, where the value is in range.
    Value {
        output: usize,
        value: Result<i64, TooBigValue>,
    },
    /// A peer's wait on E, with what it took from X.
    Exchange {
        x: i64,
    },
}
