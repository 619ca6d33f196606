//! Why a call that waits no longer than until the phaser is closed came back without its answer.
ghost use Rattle.std.specs.Prelude.{◌≡◌, ◌≢◌, ◌⊎◌, true, Some, Err, IfSome, IfNone};
ghost use Rattle.phase_shared.specs.Closings.{refusal_of_stop, unclosed};

use crate::refusal;
use crate::tried::Tried;
use phase_core::{SignalRefusal, WaitRefusal};

/// Why a call that waits no longer than until the phaser is closed came back without its answer.
#[derive(Clone, Copy, Debug, PartialEq, Eq)]
pub enum Stopped<R> {
    /// The phaser is closed, and the call came too early: it would have to wait.
    Closed,
    /// The phaser refused the call.
    Refused(R),
}

// The answer of a call that waited until it had one.
pub(crate) fn answered<X, R>(answer: Result<X, Stopped<R>>) -> Result<X, R>
    requires { answer ≢ Err Stopped.Closed }
    ensures same { (early : R) → result ≡ unclosed early answer }
    ensures refused { (refusal : R) → result ≡ Err refusal
        → answer ≡ Err (Stopped.Refused refusal) }
{
    match answer {
        Ok(x) => Ok(x),
        Err(Stopped::Refused(refusal)) => Err(refusal),
        Err(Stopped::Closed) => unreachable!(),
    }
}

// The refusal of a signal that ends the call: where it waits no longer, also the one that waiting
// might change.
pub(crate) fn ends_signal(
    tried: Tried<SignalRefusal>,
    is_past: bool,
) -> Option<Stopped<SignalRefusal>>
    ensures some { IfSome result (λ stopped.
        tried ≡ Tried.Refused (refusal_of_stop SignalRefusal.Ahead stopped)) }
    ensures never { IfSome result (λ stopped.
        stopped ≢ Stopped.Refused SignalRefusal.Ahead) }
    ensures closed { result ≡ Some Stopped.Closed → is_past ≡ true }
    ensures none { IfNone result ((tried ≡ Tried.Busy)
        ⊎ (tried ≡ Tried.Refused SignalRefusal.Ahead)) }
{
    match refusal::of_signal(tried) {
        Some(refusal) => Some(Stopped::Refused(refusal)),
        None if is_past && tried == Tried::Refused(SignalRefusal::Ahead) => Some(Stopped::Closed),
        None => None,
    }
}

// The refusal of a wait that ends the call, in the same way.
pub(crate) fn ends_wait(tried: Tried<WaitRefusal>, is_past: bool) -> Option<Stopped<WaitRefusal>>
    ensures some { IfSome result (λ stopped.
        tried ≡ Tried.Refused (refusal_of_stop WaitRefusal.NotYet stopped)) }
    ensures never { IfSome result (λ stopped. stopped ≢ Stopped.Refused WaitRefusal.NotYet) }
    ensures closed { result ≡ Some Stopped.Closed → is_past ≡ true }
    ensures none { IfNone result ((tried ≡ Tried.Busy)
        ⊎ (tried ≡ Tried.Refused WaitRefusal.NotYet)) }
{
    match refusal::of_wait(tried) {
        Some(refusal) => Some(Stopped::Refused(refusal)),
        None if is_past && tried == Tried::Refused(WaitRefusal::NotYet) => Some(Stopped::Closed),
        None => None,
    }
}
