//! The numbers by which C names what a call answers, and why a run stopped: one table, from which
//! a header for C is checked.

/// The call was done.
pub const GOOD: i32 = 0;

/// The text has a fault.
pub const GRAPH: i32 = -1;

/// A sample is -2^63.
pub const SAMPLE: i32 = -3;

/// The values have no room.
pub const ROOM: i32 = -5;

/// A growth was refused.
pub const OUT_OF_MEMORY: i32 = -6;

/// The handle has no run.
pub const NO_STREAM: i32 = -8;

/// The handle has a run already.
pub const HAS_STREAM: i32 = -9;

/// The graph has not so many sources.
pub const NO_SOURCE: i32 = -10;

/// The graph has not so many sinks.
pub const NO_SINK: i32 = -11;

/// A source waits for a sample.
pub const HUNGRY: i32 = 1;

/// A sink has no room.
pub const FULL: i32 = 2;

/// No task can move.
pub const STALLED: i32 = 3;

/// No task is left.
pub const DONE: i32 = 4;

/// A value is out of range.
pub const TOO_BIG: i32 = 5;

/// There may be more to do.
pub const PAUSED: i32 = 6;
