//! How a task stands on its phasers.
ghost use Rattle.std.specs.Prelude.{◌≡◌, ◌<◌, ℤ, List, length};
ghost use Rattle.graph_runs.specs.Moments.{Moment};
ghost use Rattle.graph_runs.specs.Nexts.{registrations_at};
ghost use Rattle.stream_lists.specs.Jobs.{with_samples};
ghost use Rattle.stream_job.specs.Machines.{IsMachineAt, IsSome};
ghost use Rattle.stream_job.specs.Standing.{standing_on};

use crate::machine::Machine;
use phase_base::Entry;
use stream_lists::Job;

impl Machine {
    /// The mode and the phases of task number `t` on the phaser of its registration number `k`,
    /// while it is registered there.
    pub fn standing(&self, job: &Job, t: usize, k: usize) -> Option<Entry>
        requires machine { IsSome job.now self.now }
        requires task { t < length job.now.graph.tasks }
        requires registration { k < length (registrations_at job.now t) }
        ensures { (s : List (List ℤ)) (m : Moment) → IsMachineAt (with_samples s job.now) m self.now
            → standing_on job.now m t k ≡ result }
    {
        let numbers = &self.state(job, t).numbers;
        if k >= numbers.len() {
            return None;
        }
        let p = job.graph().registration(t, k).phaser;
        self.core(job, p).view(numbers[k])
    }
}
