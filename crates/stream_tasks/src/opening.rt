//! How a run between threads begins: its phasers, their founders, and the tasks without a parent.

pub mod founder;
pub mod founders;
pub mod founding;
pub mod phasers;
