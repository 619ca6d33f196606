//! Why values were not put.
use phase_core::SignalRefusal;

/// Why values were not put. The variants stand in the order in which they are checked.
#[derive(Clone, Copy, Debug, PartialEq, Eq)]
pub enum PutRefusal {
    /// There are not so many places for sends of the phaser's operation.
    TooMany,
    /// One of them is `NO_VALUE`, which cannot be sent.
    BadValue,
    /// Another registration was in the middle of a call.
    Busy,
    /// The phaser refused the signal.
    Refused(SignalRefusal),
}
