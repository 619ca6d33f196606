//! Why a run came to no end.

use std::alloc::Global;
use stream_lists::Stand;
use worker_pool::Fault;

/// Why a run came to no end, and where its tasks stood then.
#[derive(Drop)]
pub struct Stopped {
    pub fault: Fault,
    /// Where each task stood on each phaser that it had not left, in the order of the lines.
    pub stands: Vec<Stand>,
}

impl Stopped {
    /// One that tells of no task.
    pub fn by(alloc: Global, fault: Fault) -> Stopped {
        Stopped {
            fault,
            stands: Vec::new(alloc),
        }
    }
}
