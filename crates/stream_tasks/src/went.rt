//! How far a task came.

/// How far a task came by one turn.
#[derive(Clone, Copy, Debug, PartialEq, Eq)]
pub enum Went {
    /// It made an event on this phaser.
    Moved(usize),
    /// It goes on, without an event.
    Ready,
    /// Others have to go on first, on this phaser.
    Blocked(usize),
    /// Another was in the middle of a call.
    Busy,
    /// It has made the last registration of this child, and `deliver` gives the child.
    Registered(usize),
    /// It has left all its phasers.
    Gone,
    /// It met a value that is out of range, and makes no further event.
    TooBig,
    /// A growth was refused, before an event. It may be tried again.
    OutOfMemory,
    /// It makes no further event.
    Stuck,
}
