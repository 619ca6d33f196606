//! A sink of a run that is fed, once it has left.
ghost use Rattle.std.specs.Prelude.{◌≡◌, ◌<◌, ℕ, ℤ, List, length, get_or, true};
ghost use Rattle.graph_base.specs.Graphs.{task_at};
ghost use Rattle.stream_lists.specs.Jobs.{with_samples};
ghost use Rattle.stream_lists.specs.Lists.{numbers_of, sinks_of, taken_from};
ghost use Rattle.stream_lists.specs.Spans.{span_in};
ghost use Rattle.graph_runs.specs.Feeds.{IsFed};
ghost use Rattle.graph_runs.specs.InTime.{BeginsInTime};
ghost use Rattle.graph_runs.specs.Moments.{Moment, started};
ghost use Rattle.graph_runs.specs.Settled.{IsReady};
ghost use Rattle.stream_job.specs.Gone.{has_gone};
ghost use Rattle.stream_job.specs.SinkLines.{kept_by};
ghost use Rattle.stream_job.specs.Streams.{IsStreamAt, StreamState, StreamStopsAt, ended_at};
ghost use Rattle.stream_job.specs.declared.stopped.Stopped.TheVariants.{Done};

use crate::stream::Stream;
use graph_runs::{feeds, moments, outcomes};

impl Stream {
    /// Returns whether a sink has left: it came, and gets no more values. It takes no memory.
    ///
    /// Then what it has kept is all that it gets in every run whose samples go on behind those that
    /// came.
    pub fn has_left(&self, sink: usize) -> bool
        requires { sink < length (sinks_of self.now.job) }
        ensures left { (s : List (List ℤ)) (m : Moment) (given : ℕ → List ℤ)
            → IsStreamAt self.now s m given
            → has_gone self.now.job m (get_or (sinks_of self.now.job) sink 0) ≡ result }
        ensures whole { result ≡ true → (s : List (List ℤ)) (m : Moment) (given : ℕ → List ℤ)
            (more : List (List ℤ)) → IsStreamAt self.now s m given
            → IsFed (with_samples s self.now.job) (ended_at self.now) more
            → IsReady (with_samples more self.now.job)
            → let t = get_or (sinks_of self.now.job) sink 0 in
            let job = started (with_samples more self.now.job) m in
            kept_by self.now.job m t
            ≡ taken_from (numbers_of job) (task_at job.graph t) (span_in job t) 0 }
    {
        feeds::feeds_go_on();
        feeds::runs_go_on();
        moments::takes();
        moments::members();
        let task = self.machine.lines[sink].task;
        let state = &self.machine.tasks[task];
        state.is_registered(&self.job, task) && !state.is_live(&self.job, task)
    }
}

/// A sink that joins now begins at most one phase behind the last of its phaser's list in every run
/// whose samples go on behind those that came, once it has left: `left`, and where the stream is
/// done: `done`.
pub fn starts_are_in_time()
    ensures left { (stream : StreamState) (s : List (List ℤ)) (m : Moment) (given : ℕ → List ℤ)
        (more : List (List ℤ)) (t : ℕ) → IsStreamAt stream s m given
        → IsFed (with_samples s stream.job) (ended_at stream) more
        → IsReady (with_samples more stream.job) → t < length stream.job.graph.tasks
        → has_gone stream.job m t ≡ true
        → BeginsInTime (started (with_samples more stream.job) m) t }
    ensures done { (stream : StreamState) (s : List (List ℤ)) (m : Moment) (given : ℕ → List ℤ)
        (more : List (List ℤ)) (t : ℕ) → IsStreamAt stream s m given
        → IsFed (with_samples s stream.job) (ended_at stream) more
        → IsReady (with_samples more stream.job) → t < length stream.job.graph.tasks
        → StreamStopsAt stream s m given Done
        → BeginsInTime (started (with_samples more stream.job) m) t }
{
    feeds::feeds_go_on();
    feeds::runs_go_on();
    outcomes::all_gone();
    outcomes::starts_are_in_time();
}
