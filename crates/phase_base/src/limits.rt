//! The greatest numbers of a phaser.

/// The largest bound, in phases: how far the signallers may be ahead of the slowest waiter.
pub const BOUND_MAX: u64 = 65536;

/// The largest number of phases that a phaser may be made for, in phases. It is 2^62.
pub const PHASES_MAX: u64 = 4611686018427387904;

/// How many tasks may be registered on a phaser at once, in tasks.
pub const MEMBERS_MAX: u64 = 1024;

/// How many sends a task may hold, and a phase may have, in sends.
pub const SENDS_MAX: u64 = 65536;
