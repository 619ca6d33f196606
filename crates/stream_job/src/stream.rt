//! A run of a graph whose samples come in pieces.
ghost use Rattle.std.specs.Prelude.{◌≡◌, ◌<◌, ◌++◌, ℕ, ℤ, List, None, Some, Err, [], length, map, get_or, take, IfOk, false};
ghost use Rattle.std.specs.List.{All, range_with_len};
ghost use mathlib.Core.List.{IsPrefix};
ghost use Rattle.phase_accum.specs.Sends.{AreSends};
ghost use Rattle.graph_base.specs.Graphs.{sources_of, task_at};
ghost use Rattle.stream_lists.specs.Jobs.{counted, with_samples};
ghost use Rattle.stream_lists.specs.Meetings.{meeting_line};
ghost use Rattle.stream_lists.specs.Lists.{numbers_of, sinks_of, taken_from};
ghost use Rattle.stream_lists.specs.Spans.{span_in};
ghost use Rattle.graph_runs.specs.Beginnings.{opening};
ghost use Rattle.graph_runs.specs.Feeds.{IsFed};
ghost use Rattle.graph_runs.specs.Moments.{Moment, started};
ghost use Rattle.graph_runs.specs.Nexts.{is_live};
ghost use Rattle.graph_runs.specs.Settled.{IsReady};
ghost use Rattle.graph_runs.specs.Turned.{with_at};
ghost use Rattle.stream_lists.specs.JobFields.{items_of};
ghost use Rattle.stream_job.specs.Machines.{none_given};
ghost use Rattle.stream_job.specs.Streams.{AreInputs, IsApart, IsStreamAt, InputKeeps, has_ended, most_of, none_came};

use crate::buffers::{Buffers, OWN_STEPS};
use crate::input::Input;
use crate::machine::Machine;
use crate::plan::Plan;
use crate::sink_lines::bounded_lines;
use graph_base::Graph;
use graph_lang::Place;
use graph_runs::feeds;
use std::alloc::{AllocError, Global};
use std::marker::Model;
use stream_lists::{COUNT_MAX, Job, JobRefusal, list_laws, meeting_with};

/// A run of a graph whose samples come in pieces, on one thread: it is fed, goes on until no task
/// can move, and is read.
///
/// **Numbers.** Sources are numbered among themselves, and sinks too, each in the order of their
/// lines.
///
/// **Rooms.** Of each source at most 4,096 samples wait to be signalled, and each sink keeps at
/// most 4,096 values until they are forgotten, or a block of its line, where that is more. After
/// `new` a child's registration alone asks for memory.
///
/// **What it has.** At every moment the values that were read of a sink, and forgotten, and those
/// that it has, begin what the sink takes in every run whose samples go on behind those that came.
#[derive(Drop)]
pub struct Stream {
    // the graph, with no samples
    pub(crate) job: Job,
    pub(crate) plan: Plan,
    pub(crate) machine: Machine,
    pub(crate) buffers: Buffers,
    pub(crate) inputs: Vec<Input>,
    // where a value was out of range
    pub(crate) met: Option<(Place, u64)>,
}

impl Model for Stream {
    ghost use Rattle.std.specs.Prelude.{◌≡◌, ℕ, ℤ, List, length};
    ghost use Rattle.std.specs.List.{All};
    ghost use Rattle.graph_runs.specs.Moments.{Moment};
    ghost use Rattle.stream_job.specs.Streams.{AreInputs, IsApart, IsStreamAt, StreamState, line_room};
    ghost use Rattle.stream_job.specs.Machines.{HasRoom};
    ghost use Rattle.stream_job.specs.Plans.{IsPlan};
    ghost use Rattle.stream_job.specs.Buffers.{HasPlaces};

    ghost Value = { StreamState };

    ghost view = { λ x. record {
      job = x.job;
      machine = x.machine;
      inputs = x.inputs.items;
      met = x.met;
    } };

    ghost invariant = { λ x. ((s : List (List ℤ)) × (m : Moment) × (given : ℕ → List ℤ)
        × IsStreamAt (record {
          job = x.job;
          machine = x.machine;
          inputs = x.inputs.items;
          met = x.met;
        }) s m given) × IsPlan x.job x.plan × HasPlaces x.job x.buffers × IsApart x.job
        × AreInputs x.job x.inputs.items
        × All (HasRoom (line_room x.job)) x.machine.lines.items };
}

impl Stream {
    ghost use Rattle.stream_job.specs.SinkLines.{kept_by, sink_begins_at};
    ghost use Rattle.stream_job.specs.Streams.{FeedTakes, IsSameBut, IsSourceAt, ended_at, ended_with, fed};

    /// Makes a run of a graph at its opening, to which no samples came.
    ///
    /// Where two tasks could signal in one phase of a phaser with `any`, were there samples enough,
    /// the answer is `AnyMeets`. It takes memory for a slot of each phase that a phaser may have
    /// open, an entry for each registration, the window and a block of each filter, and the rooms
    /// of sources and sinks; a refusal drops the graph.
    pub fn new(alloc: Global, graph: Graph) -> Result<Stream, JobRefusal>
        ensures graph { IfOk result (λ stream. stream.job.graph ≡ graph) }
        ensures any_meets { (line : ℕ) → result ≡ Err (JobRefusal.AnyMeets line)
            → meeting_line (counted graph (most_of graph)) ≡ Some line }
        ensures opening { IfOk result (λ stream.
            IsStreamAt stream (none_came stream.job) (opening stream.job) none_given) }
        ensures met { IfOk result (λ stream. stream.met ≡ None) }
        ensures open { IfOk result (λ stream. (source : ℕ) → source < sources_of graph
            → has_ended stream.inputs source ≡ false) }
    {
        let job = bare_job(alloc, graph)?;
        match opened(alloc, job) {
            Ok(stream) => Ok(stream),
            Err(_) => Err(JobRefusal::OutOfMemory),
        }
    }

    /// Returns the graph. It takes no memory.
    pub fn graph(&self) -> &Graph
        ensures { result.now ≡ self.now.job.graph }
    {
        self.job.graph()
    }

    /// Returns the job of the graph, which has no samples. It takes no memory.
    pub fn job(&self) -> &Job
        ensures { result.now ≡ self.now.job }
    {
        &self.job
    }

    /// Returns that job, and drops all else. It takes no memory.
    pub fn into_job(self) -> Job
        ensures { result ≡ self.job }
    {
        let Stream { job, .. } = self;
        job
    }

    /// Returns how many sinks there are. It takes no memory.
    pub fn sinks(&self) -> usize
        ensures { result ≡ length (sinks_of self.now.job) }
    {
        self.machine.lines.len()
    }

    /// Feeds these samples to a source, as many of them as it has room for, and returns how many it
    /// took: none, where it has ended, and none after a value out of range. It takes no memory.
    pub fn feed(&mut self, source: usize, samples: &[i64]) -> usize
        requires source { source < sources_of self.old.job.graph }
        requires sends { AreSends samples.now }
        ensures took { (s : List (List ℤ)) (m : Moment) (given : ℕ → List ℤ)
            → IsStreamAt self.old s m given
            → FeedTakes self.old s m source (length samples.now) result }
        ensures fed { (s : List (List ℤ)) (m : Moment) (given : ℕ → List ℤ)
            → IsStreamAt self.old s m given
            → IsStreamAt self.new (fed s source (take result samples.now)) m given }
        ensures others { IsSameBut self.old self.new }
        ensures ended { (k : ℕ) → has_ended self.new.inputs k ≡ has_ended self.old.inputs k }
    {
        if self.inputs[source].ended || self.met.is_some() {
            return 0;
        }
        let input = &mut self.inputs[source];
        let begun = self.machine.tasks[input.task].begun;
        input.take(begun, samples)
    }

    /// Tells a source that no more samples come. It takes no memory.
    pub fn finish(&mut self, source: usize)
        requires { source < sources_of self.old.job.graph }
        ensures stands { (s : List (List ℤ)) (m : Moment) (given : ℕ → List ℤ)
            → IsStreamAt self.old s m given → IsStreamAt self.new s m given }
        ensures others { IsSameBut self.old self.new }
        ensures ended { (k : ℕ) → has_ended self.new.inputs k
            ≡ ended_with self.old.inputs source k }
    {
        self.inputs[source].ended = true;
    }

    /// Returns whether a source is registered and has not left. It takes no memory.
    pub fn has_live(&self, source: usize) -> bool
        requires { source < sources_of self.now.job.graph }
        ensures { (t : ℕ) × IsSourceAt self.now.job t source
            × ((s : List (List ℤ)) (m : Moment) (given : ℕ → List ℤ)
            → IsStreamAt self.now s m given → is_live self.now.job m t ≡ result) }
    {
        let task = self.inputs[source].task;
        self.machine.tasks[task].is_live(&self.job, task)
    }

    /// Returns the values that a sink has taken and that were not forgotten. A value that is too
    /// big is not among them, and what came behind it in its block is not either. It takes no
    /// memory.
    ///
    /// They stand behind those that were forgotten: together they begin what the sink takes in
    /// every run whose samples go on behind those that came, as long as no source gets more that
    /// was told to have ended.
    pub fn values(&self, sink: usize) -> &[i64]
        requires { sink < length (sinks_of self.now.job) }
        ensures kept { (s : List (List ℤ)) (m : Moment) (given : ℕ → List ℤ)
            → IsStreamAt self.now s m given → let t = get_or (sinks_of self.now.job) sink 0 in
            given t ++ result.now ≡ kept_by self.now.job m t }
        ensures right { (s : List (List ℤ)) (m : Moment) (given : ℕ → List ℤ)
            (more : List (List ℤ)) → IsStreamAt self.now s m given
            → IsFed (with_samples s self.now.job) (ended_at self.now) more
            → IsReady (with_samples more self.now.job)
            → let t = get_or (sinks_of self.now.job) sink 0 in
            let job = started (with_samples more self.now.job) m in
            IsPrefix (given t ++ result.now)
            (taken_from (numbers_of job) (task_at job.graph t) (span_in job t) 0) }
    {
        feeds::feeds_go_on();
        feeds::taken_is_right();
        self.machine.lines[sink].values.as_slice()
    }

    /// Forgets the values that a sink has: they were read. It takes no memory.
    pub fn forget(&mut self, sink: usize)
        requires { sink < length (sinks_of self.old.job) }
        ensures stands { (s : List (List ℤ)) (m : Moment) (given : ℕ → List ℤ)
            → IsStreamAt self.old s m given → let t = get_or (sinks_of self.old.job) sink 0 in
            IsStreamAt self.new s m (with_at t (kept_by self.old.job m t) given) }
        ensures others { (self.new.job ≡ self.old.job) × (self.new.met ≡ self.old.met) }
        ensures inputs { self.new.inputs ≡ self.old.inputs }
    {
        self.machine.lines[sink].values.clear();
    }

    /// Returns the phase at which a sink that joins now begins, once it is registered, else none.
    /// It takes no memory.
    pub fn start(&self, sink: usize) -> Option<u64>
        requires { sink < length (sinks_of self.now.job) }
        ensures { (s : List (List ℤ)) (m : Moment) (given : ℕ → List ℤ)
            → IsStreamAt self.now s m given
            → sink_begins_at self.now.job m (get_or (sinks_of self.now.job) sink 0) ≡ result }
    {
        self.machine.lines[sink].start
    }
}

/// A run at its opening of a job with no samples.
fn opened(alloc: Global, job: Job) -> Result<Stream, AllocError>
    requires none { job.samples ≡ none_came job }
    requires apart { IsApart job }
    ensures job { IfOk result (λ stream. stream.job ≡ job) }
    ensures opening { IfOk result (λ stream.
        IsStreamAt stream (none_came job) (opening job) none_given) }
    ensures met { IfOk result (λ stream. stream.met ≡ None) }
    ensures open { IfOk result (λ stream. (source : ℕ) → source < sources_of job.graph
        → has_ended stream.inputs source ≡ false) }
{
    let plan = Plan::new(alloc, &job)?;
    let machine = Machine::new(alloc, &job, bounded_lines(alloc, &job)?, OWN_STEPS)?;
    let buffers = Buffers::new(alloc, &job)?;
    let inputs = new_inputs(alloc, &job)?;
    Ok(Stream {
        job,
        plan,
        machine,
        buffers,
        inputs,
        met: None,
    })
}

/// A job of a graph, with no samples.
fn bare_job(alloc: Global, graph: Graph) -> Result<Job, JobRefusal>
    ensures graph { IfOk result (λ job. job.graph ≡ graph) }
    ensures samples { IfOk result (λ job. job.samples ≡ none_came job) }
    ensures apart { IfOk result IsApart }
    ensures any_meets { (line : ℕ) → result ≡ Err (JobRefusal.AnyMeets line)
        → meeting_line (counted graph (most_of graph)) ≡ Some line }
{
    let _tasks = graph.tasks();
    list_laws::none_meet_with_fewer();
    let Ok(meeting) = meeting_of(alloc, &graph) else {
        return Err(JobRefusal::OutOfMemory);
    };
    if let Some(line) = meeting {
        return Err(JobRefusal::AnyMeets { line });
    }
    match bare_lists(alloc, graph.sources()) {
        Ok(samples) => Job::new(alloc, graph, samples),
        Err(_) => Err(JobRefusal::OutOfMemory),
    }
}

/// The line of the first task that would meet one of an earlier line, were there as many samples of
/// each source as there may be.
fn meeting_of(alloc: Global, graph: &Graph) -> Result<Option<u64>, AllocError>
    ensures { IfOk result (λ line. line ≡ meeting_line (counted graph.now (most_of graph.now))) }
{
    let counts = vec![in alloc; COUNT_MAX; graph.sources()]?;
    meeting_with(alloc, graph, &counts)
}

/// So many empty lists.
fn bare_lists(alloc: Global, many: usize) -> Result<Vec<Vec<i64>>, AllocError>
    ensures { IfOk result (λ lists. items_of lists.items ≡ map (λ k. []) (range_with_len 0 many)) }
{
    let mut lists = Vec::with_capacity(alloc, many)?;
    for _ in 0..many {
        lists.push(Vec::new(alloc))?;
    }
    Ok(lists)
}

/// An input for each source, to which nothing came.
fn new_inputs(alloc: Global, job: &Job) -> Result<Vec<Input>, AllocError>
    ensures inputs { IfOk result (λ inputs. AreInputs job.now inputs.items) }
    ensures empty { IfOk result (λ inputs. All (λ input. InputKeeps input 0 []) inputs.items) }
    ensures open { IfOk result (λ inputs. All (λ input. input.ended ≡ false) inputs.items) }
{
    let mut inputs = Vec::with_capacity(alloc, job.graph().sources())?;
    for t in 0..job.graph().tasks() {
        if job.graph().is_source(t) {
            inputs.push(Input::new(alloc, t)?)?;
        }
    }
    Ok(inputs)
}
