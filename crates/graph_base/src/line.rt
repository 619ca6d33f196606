//! What a line of a graph's text declares.

use phase_accum::{Op, Single};
use stream_filters::Form;

/// What a task does.
#[derive(Clone, Copy, Debug, PartialEq, Eq)]
pub enum Kind {
    /// Signals its output with each sample of a file in turn.
    Source,
    /// Waits for its input, and signals its output with a weighted sum of the last samples.
    Fir,
    /// Waits for its input, and signals its outputs in turn.
    Split,
    /// Waits for its input, and signals its output with the first of each so many values.
    Decimate,
    /// Waits for its inputs in turn, and signals its output.
    Join,
    /// Waits for X, exchanges its sample on E, and signals its output with the sample times a
    /// factor, less what E gave.
    Peer,
    /// Waits for its input, and keeps each value.
    Sink,
}

/// Which task registers a child, and when.
#[derive(Clone, Copy, Debug, PartialEq, Eq)]
pub struct Parent {
    /// The number of the task that registers it.
    pub task: usize,
    /// How many steps that task makes before, at most `STEPS_MAX`.
    pub at: u64,
}

/// The line of a phaser.
#[derive(Clone, Copy, Debug, PartialEq, Eq)]
pub struct PhaserLine {
    /// The operation on the sends of a phase.
    pub op: Op,
    /// How far signallers may be ahead of the slowest waiter, in phases: 1 to `BOUND_MAX`.
    pub bound: u64,
    /// What is applied once to the value of each phase.
    pub single: Option<Single>,
}

/// The line of a task. A field that its kind lacks is empty or 0.
#[derive(Debug, Drop, PartialEq)]
pub struct TaskLine {
    /// The number of the line in the text, from 1 on.
    pub line: u64,
    /// What the task does.
    pub kind: Kind,
    /// The numbers of the phasers that it waits for. A peer has X and then E.
    pub inputs: Vec<usize>,
    /// The numbers of the phasers behind `->` in its line: those that it signals, but that a peer,
    /// which has Y alone, signals its second input E too.
    pub outputs: Vec<usize>,
    /// The task that registers it, where it is a child.
    pub parent: Option<Parent>,
    /// After how many steps it drops, at most `STEPS_MAX`.
    pub until: Option<u64>,
    /// The taps of a filter: those for samples, and behind them those for what it put.
    pub taps: Vec<i64>,
    /// The form of a filter: its shift, what it adds, its delay, how many taps are for what it put,
    /// and its single.
    pub form: Form,
    /// The factor of a peer, of a magnitude of at most `FACTOR_MAX`.
    pub mul: i64,
    /// Of how many values a decimator puts one, up to `EVERY_MAX`, and 1 of any other task.
    pub every: u64,
    /// The most steps that it makes in a block, 1 where the line names none.
    pub block: u64,
    /// Whether it is a sink that joins at the phase that is next to complete, where its parent
    /// registers it.
    pub joins_now: bool,
}
