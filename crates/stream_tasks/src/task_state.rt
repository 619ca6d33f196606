//! How far a task has come, with its registrations.
ghost use Rattle.std.specs.Prelude.{◌≡◌, true};
ghost use Rattle.stream_tasks.specs.TaskLefts.{IsGone, left_by};
ghost use Rattle.stream_tasks.specs.Standings.{end_of_state};
ghost use Rattle.stream_tasks.specs.Tasks.{IsWhole};

use crate::child::Child;
use crate::deal::Deal;
use crate::ending::task_left::{TaskKnowledge, TaskLeft};
use crate::hold::Hold;
use graph_runs::{Owed, first_input_of};
use phase_accum::Outcome;
use smallvec::SmallVec;
use std::sync::Wait;
use stream_filters::Fir;
use stream_lists::{End, Job};
use stream_members::{AnyLeft, Places};

/// How far a task has come, with its registrations.
pub struct TaskState<'a> {
    /// Its number.
    pub number: usize,
    /// The samples of a task that is a source.
    pub samples: &'a [i64],
    /// How many steps it makes in one event at most: a block of its line, or as many as follow.
    pub most: usize,
    /// How many steps it makes in one event of its own accord, at most; of a joiner, how many it
    /// puts by one.
    pub own: u64,
    /// How many steps it has begun.
    pub begun: u64,
    /// The phase at which it began, of a sink that joined now.
    pub start: u64,
    /// What these steps owe next, of a source, a peer and a sink.
    pub owed: Owed,
    /// What these steps owe, of a filter, of a decimator: what it has kept, or of a joiner: what it
    /// has taken.
    pub made: Vec<i64>,
    /// What these steps owe, of a splitter, on all its outputs.
    pub deal: Deal,
    /// The filter of a task that is one.
    pub filter: Option<Fir>,
    /// What a sink has taken.
    pub lines: Vec<i64>,
    /// Its numbers on its phasers, in the order of its registrations.
    pub numbers: SmallVec<u64, 9>,
    /// What it holds of its phasers, in that order.
    pub holds: Vec<Hold<'a>>,
    /// Places for what its waits get, and for the sends of its signals.
    pub outcomes: Vec<Outcome>,
    pub places: Places,
    /// What it has seen of the phasers that it has left, which are the first of them.
    pub lefts: Vec<AnyLeft<'a>>,
    /// Whether it makes no further step.
    pub over: bool,
    /// Whether a worker has entered its next step.
    pub entered: bool,
    /// The next input whose wait is to be told, of a joiner that has taken a block, or 0.
    pub telling: usize,
    /// Whether it met a value that is out of range, or came to what cannot be: it makes no further
    /// event.
    pub met: bool,
    /// Its children, in the order of the lines.
    pub children: Vec<Child>,
    /// What a child that is being registered holds of its phasers.
    pub child_holds: Vec<Hold<'a>>,
}

impl<'a> TaskState<'a> {
    /// Leaves all phasers, by waiting, and forgets all.
    pub fn dismiss<W: Wait>(self, rt: &W) {
        drop(self.end(rt));
    }

    /// Whether it has left all its phasers.
    pub fn is_gone(&self) -> bool
        ensures { result ≡ true → IsGone self.now }
    {
        !self.met && self.over && self.lefts.len() >= self.numbers.len()
    }

    /// The end at which it makes its next call, where no child comes first.
    pub fn next_end(&self, job: &Job) -> End
        requires { IsWhole job.now self.now }
        ensures { result ≡ end_of_state job.now self.now }
    {
        if self.over {
            return End::Nowhere;
        }
        if !self.made.is_empty() {
            return End::Output(0);
        }
        if !self.deal.values.is_empty() {
            return End::Output(self.next_output(job));
        }
        match self.owed {
            Owed::Value { output, value: _ } => End::Output(output),
            Owed::Exchange { x: _ } => End::Input(1),
            Owed::Nothing if job.graph().is_source(self.number) => End::Output(0),
            Owed::Nothing => End::Input(first_input_of(job, self.number, self.begun)),
        }
    }

    /// What it leaves behind. It leaves by waiting where it still has to.
    pub fn end<W: Wait>(self, rt: &W) -> TaskLeft<'a>
        ensures { result ≡ left_by self.entry }
    {
        let TaskState {
            number,
            samples: _,
            most: _,
            own: _,
            begun,
            start,
            owed: _,
            made: _,
            deal: _,
            filter: _,
            lines,
            numbers,
            holds,
            outcomes: _,
            places: _,
            lefts,
            over: _,
            entered: _,
            telling: _,
            met: _,
            children,
            child_holds,
        } = self;
        dismiss_all(rt, holds);
        dismiss_all(rt, child_holds);
        TaskLeft {
            task: number,
            part: TaskKnowledge {
                begun,
                start,
                numbers,
                lines,
                given: children,
            },
            lefts,
        }
    }
}

/// Leaves all these phasers, by waiting.
fn dismiss_all<W: Wait>(rt: &W, holds: Vec<Hold<'_>>) {
    let mut holds = holds;
    for _ in rt.forever() {
        match holds.pop() {
            Some(hold) => hold.dismiss(rt),
            None => {
                holds.destroy_empty();
                return;
            }
        }
    }
    unreachable!()
}
