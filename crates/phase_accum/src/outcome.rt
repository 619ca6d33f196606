//! The value of a phase.

/// The greatest magnitude of a value. It is 2^63 - 1.
pub const VALUE_MAX: i64 = 9223372036854775807;

/// `VALUE_MAX` as a magnitude.
pub const MAGNITUDE_MAX: u64 = VALUE_MAX as u64;

/// The one `i64` that is no value and cannot be sent. It is -2^63.
pub const NO_VALUE: i64 = -9223372036854775808;

/// The value of a phase, from -`VALUE_MAX` to `VALUE_MAX`, or why it has none.
#[derive(Clone, Copy, Debug, PartialEq, Eq, Hash)]
pub enum Outcome {
    /// The value.
    Value(i64),
    /// The phase has no send, and its operation has no value for none.
    Empty,
    /// The exact value has a magnitude above `VALUE_MAX`.
    TooBig,
}
