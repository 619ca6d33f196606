//! The replies to the calls of a phaser as plain data. Contracts speak of them.
use crate::got::{Got, GotBlock};
use crate::refusal::{NoTask, RegisterRefusal, SignalRefusal, WaitRefusal};

/// What a call of a phaser is answered.
#[derive(Clone, Copy, Debug, PartialEq, Eq)]
pub enum Reply {
    /// The child is registered at its parent's phases, or the registration is dropped.
    Accepted,
    /// The child is registered, and waits from this phase on.
    JoinedAt { phase: u64 },
    /// The task has signalled, from this phase on.
    SignalledIn { phase: u64 },
    /// The wait was accepted.
    Received { got: Got },
    /// The wait for a block of phases was accepted.
    ReceivedBlock { got: GotBlock },
    /// The registration was refused.
    NotRegistered { refusal: RegisterRefusal },
    /// The signal was refused.
    NotSignalled { refusal: SignalRefusal },
    /// The wait, of one phase or of a block, was refused.
    NotReceived { refusal: WaitRefusal },
    /// The drop was refused.
    NotDropped { refusal: NoTask },
}
