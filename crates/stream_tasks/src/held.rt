//! Why a call of a registration made no event.

use crate::went::Went;

/// Why a call of a registration made no event.
#[derive(Clone, Copy, Debug, PartialEq, Eq)]
pub enum Held {
    /// Another was in the middle of a call.
    Busy,
    /// Others have to go on first.
    Blocked,
    /// A growth was refused.
    OutOfMemory,
    /// It never succeeds.
    Stuck,
}

impl Held {
    /// How far a task came whose call on phaser `p` made no event.
    pub fn on(self, p: usize) -> Went {
        match self {
            Held::Busy => Went::Busy,
            Held::Blocked => Went::Blocked(p),
            Held::OutOfMemory => Went::OutOfMemory,
            Held::Stuck => Went::Stuck,
        }
    }
}
