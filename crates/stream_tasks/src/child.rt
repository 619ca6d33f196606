//! The children of a task.

use smallvec::SmallVec;

/// A child of a task, as its parent knows it.
#[derive(Drop)]
pub struct Child {
    /// Its number among the tasks.
    pub task: usize,
    /// After how many steps of the parent it comes.
    pub at: u64,
    /// The numbers that the parent gave it, in the order of its registrations.
    pub numbers: SmallVec<u64, 9>,
    /// The phase at which it began, once it is registered, of one that joins now.
    pub start: u64,
}
