//! The numbers by which C names operations, modes, singles and what a call answers: one table, from
//! which a header for C is checked.

/// The call was done.
pub const GOOD: i32 = 0;

/// No signaller is registered, and the task has got every phase.
pub const ENDED: i32 = 1;

/// The registration signalled its phase, and its wait is still to be made.
pub const SIGNALLED: i32 = 2;

/// The registration asks for its next phase.
pub const ASKED: i32 = 3;

/// A growth was refused.
pub const OUT_OF_MEMORY: i32 = -6;

/// The handle has no phaser.
pub const NO_PHASER: i32 = -20;

/// The handle has a phaser already.
pub const HAS_PHASER: i32 = -21;

/// The number is none of an operation.
pub const BAD_OPERATION: i32 = -22;

/// The bound is 0 or above `BOUND_MAX`.
pub const BAD_BOUND: i32 = -23;

/// The number of phases is 0 or above `PHASES_MAX`.
pub const BAD_PHASES: i32 = -24;

/// The number is none of a mode.
pub const BAD_MODE: i32 = -25;

/// The number is none of a single, or a clamp's low end is above its high end or an end is -2^63.
pub const BAD_SINGLE: i32 = -26;

/// A value to be sent is -2^63.
pub const BAD_VALUE: i32 = -27;

/// The values to be sent are more than `SENDS_MAX`.
pub const TOO_MANY_SENDS: i32 = -28;

/// The task, or the parent, is not registered.
pub const NO_TASK: i32 = -29;

/// The parent's mode does not hold the child's.
pub const NOT_ALLOWED: i32 = -30;

/// No number is left for a child.
pub const NOT_NEW: i32 = -31;

/// `MEMBERS_MAX` tasks are registered.
pub const TOO_MANY_TASKS: i32 = -32;

/// The task's mode does not signal.
pub const NO_SIGNAL: i32 = -33;

/// A single is named, and the task's mode is not `SINGLE`.
pub const NOT_SINGLE: i32 = -34;

/// A block of no phase, or of more phases than the bound.
pub const BAD_BLOCK: i32 = -35;

/// The task waits too, and has signalled since its last wait.
pub const SIGNAL_TWICE: i32 = -36;

/// The phaser was made for fewer phases.
pub const SPENT: i32 = -37;

/// A waiter is registered, and the phase is the bound or more ahead of the slowest.
pub const AHEAD: i32 = -38;

/// A waiter is registered, and the first signal of the phase named otherwise.
pub const SINGLE_DIFFERS: i32 = -39;

/// A waiter is registered, and the phase would hold more than `SENDS_MAX` sends.
pub const PHASE_FULL: i32 = -40;

/// The task's mode does not wait.
pub const NO_WAIT: i32 = -41;

/// The task signals too, and has not signalled since its last wait.
pub const SIGNAL_FIRST: i32 = -42;

/// The phase is not complete, and a signaller is registered.
pub const NOT_YET: i32 = -43;

/// Another registration of the phaser is in the middle of a call, or this one asks for its next
/// phase, and nothing changed.
pub const BUSY: i32 = -44;

/// The registration asks for nothing.
pub const NOT_ASKED: i32 = -45;

/// The registration cannot ask, and nothing changed: the same call is made by `next`.
pub const CANNOT_ASK: i32 = -46;

/// The phaser is closed.
pub const CLOSED: i32 = -47;

/// The sends of a phase are added up.
pub const SUM: u32 = 1;

/// They are multiplied.
pub const PRODUCT: u32 = 2;

/// The least of them is taken.
pub const LEAST: u32 = 3;

/// The greatest of them is taken.
pub const GREATEST: u32 = 4;

/// The first of them is taken.
pub const ANY: u32 = 5;

/// A task in this mode signals and never waits.
pub const SIG: u32 = 1;

/// A task in this mode waits and never signals.
pub const WAIT: u32 = 2;

/// A task in this mode signals and waits, in turn.
pub const SIG_WAIT: u32 = 3;

/// The same, and the task may name a single at a signal.
pub const SINGLE: u32 = 4;

/// No single is named.
pub const NONE: u32 = 0;

/// The single changes the sign of the value of a phase.
pub const NEG: u32 = 1;

/// It takes the magnitude.
pub const ABS: u32 = 2;

/// It divides by two, rounded down.
pub const HALVE: u32 = 3;

/// It takes the nearest value of a range.
pub const CLAMP: u32 = 4;
