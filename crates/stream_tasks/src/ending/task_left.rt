//! What a task leaves behind.

use crate::child::Child;
use smallvec::SmallVec;
use stream_members::AnyLeft;

/// What a task knows of itself that has left all its phasers.
#[derive(Drop)]
pub struct TaskKnowledge {
    /// How many steps it has begun.
    pub begun: u64,
    /// The phase at which it began, of a sink that joined now.
    pub start: u64,
    /// Its numbers on its phasers, in the order of its registrations.
    pub numbers: SmallVec<u64, 9>,
    /// What it has taken, where it is a sink.
    pub lines: Vec<i64>,
    /// Its children, with the numbers that it gave them. The first one of each child counts.
    pub given: Vec<Child>,
}

/// What a task leaves behind that has left all its phasers. It may be thrown away.
#[derive(Drop)]
pub struct TaskLeft<'a> {
    /// Its number among the tasks.
    pub task: usize,
    /// What it knows of itself.
    pub part: TaskKnowledge,
    /// What it has seen of its phasers, in the order of its registrations.
    pub lefts: Vec<AnyLeft<'a>>,
}
