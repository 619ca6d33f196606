//! Where the tasks of a run that is fed stand on their phasers.
ghost use Rattle.std.specs.Prelude.{◌≡◌, ◌<◌, ◌++◌, ℕ, ℤ, List, Option, None, Some, OnOk, IfOk, length};
ghost use Rattle.std.specs.List.{flat_map, range_with_len};
ghost use Rattle.graph_runs.specs.Moments.{Moment};
ghost use Rattle.graph_runs.specs.Nexts.{next_of, registrations_at};
ghost use Rattle.stream_lists.specs.Jobs.{with_samples};
ghost use Rattle.stream_job.specs.Machines.{next_by};
ghost use Rattle.stream_job.specs.Stands.{call_end, stand_by, stands_at, stands_of};

use crate::step::Step;
use crate::stream::Stream;
use std::alloc::{AllocError, Global};
use stream_lists::{End, Stand};

impl Stream {
    ghost use Rattle.stream_job.specs.Streams.{IsStreamAt};

    /// Returns where each task stands on each phaser that it is registered on, in the order of the
    /// lines and of its registrations, and what it does next there. It takes memory for the list.
    pub fn stands(&self, alloc: Global) -> Result<Vec<Stand>, AllocError>
        ensures { IfOk result (λ stands. (s : List (List ℤ)) (m : Moment) (given : ℕ → List ℤ)
            → IsStreamAt self.now s m given
            → stands.items ≡ stands_at (with_samples s self.now.job) m) }
    {
        let mut stands = Vec::new(alloc);
        for t in 0..self.job.graph().tasks() {
            self.put_stands(t, &mut stands)?;
        }
        Ok(stands)
    }

    /// Puts where a task stands behind these.
    fn put_stands(&self, t: usize, stands: &mut Vec<Stand>) -> Result<(), AllocError>
        requires { t < length self.now.job.graph.tasks }
        ensures { OnOk result ((s : List (List ℤ)) (m : Moment) (given : ℕ → List ℤ)
            → IsStreamAt self.now s m given → stands.new.items
            ≡ stands.old.items ++ stands_of (with_samples s self.now.job) m t) }
    {
        let end = call_end(self.step(t));
        for k in 0..self.job.graph().registrations(t) {
            if let Some(stand) = self.stand_by(t, end, k) {
                stands.push(stand)?;
            }
        }
        Ok(())
    }

    /// Where a task, whose next call is at this end, stands by its registration number `k`, while
    /// it is registered.
    fn stand_by(&self, t: usize, end: End, k: usize) -> Option<Stand>
        requires task { t < length self.now.job.graph.tasks }
        requires registration { k < length (registrations_at self.now.job t) }
        ensures { (s : List (List ℤ)) (m : Moment) (given : ℕ → List ℤ)
            → IsStreamAt self.now s m given
            → stand_by (with_samples s self.now.job) m t end k ≡ result }
    {
        let entry = self.machine.standing(&self.job, t, k)?;
        let at = self.job.graph().registration(t, k);
        Some(Stand {
            task: t,
            phaser: at.phaser,
            entry,
            next: end.call_on(at.input, at.output),
        })
    }
}

/// The end at which a task makes its next call.
fn call_end(step: Step) -> End
    ensures { result ≡ call_end (next_by step) }
{
    match step {
        Step::NotLive | Step::Register { .. } | Step::Leave => End::Nowhere,
        Step::Sample => End::Output(0),
        Step::Signal { output } => End::Output(output),
        Step::Wait { input } => End::Input(input),
        Step::Exchange => End::Input(1),
    }
}
