//! What a command writes to, and the files that it reads.

use crate::Watched;

/// What a command writes to, and the files that it reads.
#[derive(Drop)]
pub struct Streams<W, E, F> {
    /// What was asked for goes here.
    pub output: Watched<W>,
    /// The line of a fault goes here, and what explains it.
    pub faults: Watched<E>,
    /// Scripts, graphs and samples are read from these.
    pub files: F,
}
