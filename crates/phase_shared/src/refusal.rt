//! Why a call of a registration was refused.
ghost use Rattle.std.specs.Prelude.{◌≡◌, ◌≢◌, ◌⊎◌, IfSome, IfNone};

use crate::tried::Tried;
use phase_accum::NO_VALUE;
use phase_base::SENDS_MAX;
use phase_core::{SignalRefusal, WaitRefusal};
use thiserror::Error;

/// Why a send was refused. The variants stand in the order in which they are checked.
#[derive(Clone, Copy, Debug, PartialEq, Eq, Hash, Error)]
pub enum SendRefusal {
    /// The mode does not signal.
    #[error("the task's mode does not signal")]
    NoSignal,
    /// The value is `NO_VALUE`.
    #[error("{NO_VALUE} is no value and cannot be sent")]
    BadValue,
    /// `SENDS_MAX` sends are held already.
    #[error("the task holds {SENDS_MAX} sends already, and must signal first")]
    TooManySends,
}

// The refusal of a signal that more waiting would not change, or none.
pub(crate) fn of_signal(tried: Tried<SignalRefusal>) -> Option<SignalRefusal>
    ensures some { IfSome result (λ refusal. (tried ≡ Tried.Refused refusal)
        × (refusal ≢ SignalRefusal.Ahead)) }
    ensures none { IfNone result ((tried ≡ Tried.Busy)
        ⊎ (tried ≡ Tried.Refused SignalRefusal.Ahead)) }
{
    match tried {
        Tried::Busy => None,
        Tried::Refused(refusal) => (refusal != SignalRefusal::Ahead).then_some(refusal),
    }
}

// The refusal of a wait that more waiting would not change, or none.
pub(crate) fn of_wait(tried: Tried<WaitRefusal>) -> Option<WaitRefusal>
    ensures some { IfSome result (λ refusal. (tried ≡ Tried.Refused refusal)
        × (refusal ≢ WaitRefusal.NotYet)) }
    ensures none { IfNone result ((tried ≡ Tried.Busy)
        ⊎ (tried ≡ Tried.Refused WaitRefusal.NotYet)) }
{
    match tried {
        Tried::Busy => None,
        Tried::Refused(refusal) => (refusal != WaitRefusal::NotYet).then_some(refusal),
    }
}
