//! A sink as a column of a table.
ghost use Rattle.std.specs.Prelude.{◌≡◌, ◌<◌, ◌≤◌, ◌+◌, ◌++◌, min, ℕ, ℤ, List, IfSome, OnOk, get_or, length, false};
ghost use Rattle.stream_job.specs.Streams.{IsStreamAt, ended_at};
ghost use Rattle.graph_runs.specs.Moments.{Moment};
ghost use Rattle.stream_lists.specs.Lists.{sinks_of};
ghost use Rattle.phase_stream.specs.Columns.{ColumnStands, HasPassedLine, IsNewColumn, IsSameSink, TakesOver, has_value, is_known, least_start, next_cell, started_column};

use crate::table::WAITING_MAX;
use std::alloc::{AllocError, Global};
use std::collections::VecDeque;
use stream_job::{Job, Stream, starts_are_in_time};

/// A sink as a column of a table of which some lines were written.
#[derive(Drop)]
pub struct Column {
    pub task: usize,
    /// The phase at which it begins at the earliest.
    pub least: u128,
    /// How many more lines stand before its first value, or before the first that it may have.
    pub late: u128,
    /// Whether its start is known: that of a sink that joins now is once it is there.
    pub has_start: bool,
    /// Its values that stand in no line yet.
    pub values: VecDeque<i64>,
    /// Whether it gets no more values.
    pub has_left: bool,
    /// How many values it took over, as far as they are counted.
    pub count: u64,
}

impl Column {
    /// That of a task, at the opening of a run.
    pub fn new(alloc: Global, job: &Job, task: usize) -> Column
        requires { task < length job.now.graph.tasks }
        ensures { IsNewColumn job.now task result }
    {
        let least = least_start(job, task);
        Column {
            task,
            least,
            late: least,
            has_start: !job.graph().task(task).joins_now,
            values: VecDeque::new(alloc),
            has_left: false,
            count: 0,
        }
    }

    /// Whether a value of it waits for its line.
    pub fn has_value(&self) -> bool
        ensures { result ≡ has_value self.now }
    {
        !self.values.is_empty()
    }

    /// Whether as many of its values wait for their lines as may.
    pub fn is_full(&self) -> bool {
        self.values.len() >= WAITING_MAX
    }

    /// Whether it is known what stands in it in the next line.
    pub fn is_known(&self) -> bool
        ensures { result ≡ is_known self.now }
    {
        self.late > 0 || self.has_left || self.has_value()
    }

    /// What stands in it in the next line.
    pub fn cell(&self) -> Option<i64>
        ensures { result ≡ next_cell self.now }
    {
        if self.late > 0 {
            return None;
        }
        match self.values.front() {
            Some(value) => Some(*value),
            None => None,
        }
    }

    /// Goes on by a line.
    pub fn pass(&mut self)
        ensures { HasPassedLine self.old self.new }
    {
        if self.late > 0 {
            self.late -= 1;
            return;
        }
        let _value = self.values.pop_front();
    }

    /// Takes over what its sink has, which is that of this number: its start, its values, and
    /// whether it has left.
    pub fn take(&mut self, stream: &Stream, number: usize) -> Result<(), AllocError>
        requires there { number < length (sinks_of stream.now.job) }
        requires task { get_or (sinks_of stream.now.job) number 0 ≡ self.old.task }
        ensures ok { OnOk result ((s : List (List ℤ)) (m : Moment) (given : ℕ → List ℤ)
            (step start : ℕ) (list : List ℤ) → IsStreamAt stream.now s m given
            → ColumnStands stream.now.job (ended_at stream.now) s m (given self.old.task) self.old
            step start list
            → TakesOver stream.now.job (ended_at stream.now) s m self.new step start list) }
        ensures left { (self.old.has_start ≡ false → self.old.has_left ≡ false)
            → self.new.has_start ≡ false → self.new.has_left ≡ false }
        ensures task { self.new.task ≡ self.old.task }
    {
        if self.has_left {
            return Ok(());
        }
        if !self.has_start {
            self.find_start(stream.start(number));
        }
        self.keep(stream.values(number))?;
        starts_are_in_time();
        self.has_left = self.has_start && stream.has_left(number);
        Ok(())
    }

    /// Keeps where it begins, where that is known.
    fn find_start(&mut self, start: Option<u64>)
        ensures found { self.new ≡ started_column start self.old }
        ensures few { IfSome start (λ n. n ≤ 18446744073709551615) }
    {
        if let Some(start) = start {
            let behind = (start as u128).saturating_sub(self.least);
            self.late = self.late.saturating_add(behind);
            self.has_start = true;
        }
    }

    /// Keeps values behind those that wait.
    fn keep(&mut self, values: &[i64]) -> Result<(), AllocError>
        ensures ok { OnOk result (self.new.values.items ≡ self.old.values.items ++ values.now) }
        ensures counted { OnOk result (self.new.count
            ≡ min 18446744073709551615 (self.old.count + length values.now)) }
        ensures late { self.new.late ≡ self.old.late }
        ensures same { IsSameSink self.old self.new }
    {
        for value in values {
            self.values.push_back(*value)?;
        }
        self.count = self.count.saturating_add(values.len() as u64);
        Ok(())
    }
}

/// The phase at which a task begins at the earliest: at 0, or so many steps behind its parent.
fn least_start(job: &Job, task: usize) -> u128
    requires { task < length job.now.graph.tasks }
    ensures { result ≡ least_start job.now task }
{
    let _tasks = job.graph().tasks();
    let mut start: u128 = 0;
    let mut at = task;
    for _ in 0..task {
        match job.graph().task(at).parent {
            None => return start,
            Some(parent) => {
                start = start.saturating_add(parent.at as u128);
                at = parent.task;
            }
        }
    }
    start
}
