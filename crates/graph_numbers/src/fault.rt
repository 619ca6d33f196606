//! What crosses to C beside arrays.

/// Where a call was refused; 0 where a number says nothing.
#[repr(C)]
#[derive(Clone, Copy, Debug, PartialEq, Eq)]
pub struct PhaseFault {
    /// The line of the graph, from 1 on.
    pub line: u64,
    /// The phaser or the task, from 0 on in the order of their lines.
    pub number: u64,
    /// The phase on the phaser, the step of the task, or the place of a sample among all that were
    /// lent, from 0 on.
    pub at: u64,
    /// The number of the kind of the graph's fault, from 1 on.
    pub kind: i32,
    /// 1 for a phaser, 2 for a task.
    pub place: i32,
}

/// How many of each a graph has.
#[repr(C)]
#[derive(Clone, Copy, Debug, PartialEq, Eq)]
pub struct PhaseCounts {
    /// The phasers.
    pub phasers: usize,
    /// The tasks, sources and sinks among them.
    pub tasks: usize,
    /// The tasks that are sources.
    pub sources: usize,
    /// The tasks that are sinks.
    pub sinks: usize,
}
