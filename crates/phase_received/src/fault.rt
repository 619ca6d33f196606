//! Why a call that receives was refused.

/// Why a call that may receive a value was refused.
#[derive(Clone, Copy, Debug, PartialEq, Eq)]
pub enum ReceiveFault<R> {
    /// There is no memory for one more value. Nothing changed.
    OutOfMemory,
    /// The phaser refused the call.
    Refused(R),
}
