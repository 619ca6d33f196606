//! A graph with the samples of its sources.
ghost use Rattle.std.specs.Prelude.{◌≡◌, ◌<◌, ◌≤◌, ℕ, [], length, get_or, Some, None, IfOk, Err};
ghost use Rattle.std.specs.List.{All};
ghost use Rattle.phase_accum.specs.Sends.{AreSends};
ghost use Rattle.graph_base.specs.Graphs.{phaser_at, task_at, sources_of};
ghost use Rattle.graph_base.specs.GraphFields.{task_of};
ghost use Rattle.graph_base.specs.TaskLines.{IsTaskLine};
ghost use Rattle.stream_lists.specs.Jobs.{samples_at};
ghost use Rattle.stream_lists.specs.JobFields.{given, IsCounted, items_of, IsShort};
ghost use Rattle.stream_lists.specs.Lists.{start_in};
ghost use Rattle.stream_lists.specs.Meetings.{meeting_line};
ghost use Rattle.stream_lists.specs.Spans.{spans_of, lengths_of, nowhere};

use crate::lengths::all_lengths;
use crate::meetings::first_meeting;
use crate::refusal::JobRefusal;
use crate::sample_counts::counts_of;
use crate::span::{LENGTH_MAX, Span};
use crate::task_spans::{all_spans, are_counted};
use graph_base::{Graph, PhaserLine, TASKS_MAX, TaskLine};
use std::alloc::Global;
use std::marker::Model;

/// The most samples of a source.
pub const SAMPLES_MAX: usize = 67_108_864;

/// A graph with the samples of its sources, ready to be evaluated.
///
/// **Spans.** How far each task comes, and how long the list of each phaser is, follow from the
/// lines and from the numbers of the samples. A job works them out once.
///
/// **Phasers with `any`.** In each phase of such a phaser at most one task signals.
#[derive(Drop)]
pub struct Job {
    graph: Graph,
    samples: Vec<Vec<i64>>,
    spans: Vec<Span>,
    lengths: Vec<u128>,
}

impl Model for Job {
    ghost use Rattle.stream_lists.specs.JobFields.{JobValue, job_view, IsJob};

    ghost Value = { JobValue };

    ghost view = { job_view };

    ghost invariant = { IsJob };
}

impl Job {
    /// Makes a job of a graph and the samples of its sources, one list for each source in the order
    /// of their lines. A list has at most `SAMPLES_MAX` values, none of which is `NO_VALUE`.
    ///
    /// Where two tasks signal in one phase of a phaser with `any`, the answer is `AnyMeets` with
    /// the least line of a task that meets a task of an earlier line, or `OutOfMemory`. It takes
    /// memory for a span of each task, a length of each phaser and a number of each source, and no
    /// list is composed, so it makes no difference how long the lists are. Where a task would begin
    /// in phase 2^64 or later, of a list that no memory holds, it is `OutOfMemory` too. A refusal
    /// drops the graph and the samples.
    pub fn new(alloc: Global, graph: Graph, samples: Vec<Vec<i64>>) -> Result<Job, JobRefusal>
        requires each { length samples.items ≡ sources_of graph }
        requires sends { All (λ list. AreSends list.items) samples.items }
        requires few { All (λ list. length list.items ≤ SAMPLES_MAX) samples.items }
        ensures graph { IfOk result (λ job. job.graph ≡ graph) }
        ensures samples { IfOk result (λ job. job.samples ≡ items_of samples.items) }
        ensures apart { IfOk result (λ job. meeting_line job ≡ None) }
        ensures any_meets { (line : ℕ) → result ≡ Err (JobRefusal.AnyMeets line)
            → meeting_line (given graph samples.items) ≡ Some line }
    {
        let Ok(counts) = counts_of(alloc, &samples) else {
            return Err(JobRefusal::OutOfMemory);
        };
        let Ok(lengths) = all_lengths(alloc, &graph, &counts) else {
            return Err(JobRefusal::OutOfMemory);
        };
        let Ok(spans) = all_spans(alloc, &graph, &counts, &lengths) else {
            return Err(JobRefusal::OutOfMemory);
        };
        if let Some(line) = first_meeting(&graph, &spans) {
            return Err(JobRefusal::AnyMeets { line });
        }
        if !are_counted(&spans) {
            return Err(JobRefusal::OutOfMemory);
        }
        Ok(Job {
            graph,
            samples,
            spans,
            lengths,
        })
    }

    /// Returns the graph. It takes no memory.
    pub fn graph(&self) -> &Graph
        ensures graph { result.now ≡ self.now.graph }
        ensures samples { length self.now.samples ≡ sources_of self.now.graph }
        ensures apart { meeting_line self.now ≡ None }
        ensures least { self.now.starts ≡ [] }
    {
        &self.graph
    }

    /// Returns the samples of a source, none where there is no such source. Sources are numbered
    /// among themselves, in the order of their lines. It takes no memory.
    pub fn samples(&self, source: usize) -> &[i64]
        ensures value { result.now ≡ get_or self.now.samples source [] }
        ensures sends { AreSends result.now }
    {
        match self.samples.get(source) {
            Some(samples) => samples.as_slice(),
            None => &[],
        }
    }

    /// Returns how far task number `t` comes. It takes no memory.
    pub fn span(&self, t: usize) -> Span
        requires { t < length self.now.graph.tasks }
        ensures span { result ≡ get_or (spans_of self.now) t nowhere }
        ensures least { self.now.starts ≡ [] }
        ensures short { IsShort result }
        ensures counted { IsCounted result }
    {
        self.spans[t]
    }

    /// Returns the phase at which task number `t` begins, the least that it may be, of a live sink
    /// that joins now, else none. It takes no memory.
    pub fn start(&self, t: usize) -> Option<u64>
        requires { t < length self.now.graph.tasks }
        ensures { result ≡ start_in self.now t }
    {
        let span = self.span(t);
        if self.task(t).joins_now && span.live {
            return Some(span.offset as u64);
        }
        None
    }

    /// Returns how long the list of phaser number `p` is, in phases. It takes no memory.
    pub fn length(&self, p: usize) -> u128
        requires { p < length self.now.graph.phasers }
        ensures length { result ≡ get_or (lengths_of self.now) p 0 }
        ensures short { result ≤ LENGTH_MAX }
    {
        self.lengths[p]
    }

    /// How many phasers there are.
    pub(crate) fn phasers(&self) -> usize
        ensures { result ≡ length self.now.graph.phasers }
    {
        self.graph.phasers()
    }

    /// How many tasks there are.
    pub(crate) fn tasks(&self) -> usize
        ensures count { result ≡ length self.now.graph.tasks }
        ensures few { result ≤ TASKS_MAX }
    {
        self.graph.tasks()
    }

    /// The line of phaser number `p`.
    pub(crate) fn phaser(&self, p: usize) -> PhaserLine
        requires { p < length self.now.graph.phasers }
        ensures { result ≡ phaser_at self.now.graph p }
    {
        *self.graph.phaser(p)
    }

    /// The line of task number `t`.
    pub(crate) fn task(&self, t: usize) -> &TaskLine
        requires { t < length self.now.graph.tasks }
        ensures task { task_of result.now ≡ task_at self.now.graph t }
        ensures line { IsTaskLine self.now.graph t (task_of result.now) }
    {
        self.graph.task(t)
    }

    /// Returns the samples of task number `t`, where it is a source. Of another task they are those
    /// of the next source below it, or none, and are of no use. It takes no memory.
    pub fn samples_of(&self, t: usize) -> &[i64]
        requires { t < length self.now.graph.tasks }
        ensures value { result.now ≡ samples_at self.now t }
        ensures sends { AreSends result.now }
    {
        self.samples(self.graph.source_number(t))
    }
}
