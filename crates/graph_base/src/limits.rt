//! The greatest numbers of a graph.

/// The most phasers of a graph.
pub const PHASERS_MAX: usize = 64;

/// The most tasks of a graph.
pub const TASKS_MAX: usize = 64;

/// The most outputs of a splitter, and the most inputs of a joiner.
pub const ENDS_MAX: usize = 8;

/// The greatest number after `every`: of how many values a decimator puts one.
pub const EVERY_MAX: u64 = 65_536;

/// The greatest number after `at` and after `until`, in steps. It is 2^62.
pub const STEPS_MAX: u64 = 4611686018427387904;

/// The greatest magnitude of a peer's factor, the number after `mul`.
pub const FACTOR_MAX: u64 = 2_147_483_647;
