//! The replies to script lines.

use crate::Refusal;

/// The reply to a script line. Phases are counted from 0. What a block of phases gave stands beside
/// it, in `Outcomes`.
#[derive(Clone, Copy, Debug, PartialEq, Eq)]
pub enum Reply {
    /// The command was done, and there is no more to say.
    Accepted,
    /// The signal was made for this phase.
    Signalled { phase: u64 },
    /// The child is registered, and waits from this phase on.
    Joined { phase: u64 },
    /// The phase that was waited for has this value.
    Value { phase: u64, value: i64 },
    /// The phase that was waited for has no value.
    Empty { phase: u64 },
    /// The value of the phase that was waited for is out of range.
    TooBig { phase: u64 },
    /// The phases that were waited for, this one and those behind it, gave the outcomes.
    Values { phase: u64 },
    /// No further phase will be complete.
    Ended,
    /// The command was refused, and changed nothing.
    Refused(Refusal),
    /// The line gives no command, and changed nothing.
    BadLine,
}
