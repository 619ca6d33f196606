//! How a task without a parent is registered by the founders of its phasers.
ghost use Rattle.std.specs.Prelude.{◌≡◌, ◌<◌, length, IfOk, None};
ghost use Rattle.graph_base.specs.Graphs.{task_at};
ghost use Rattle.graph_runs.specs.Nexts.{registrations_at};
ghost use Rattle.stream_tasks.specs.Openings.{AreFounders};
ghost use Rattle.stream_tasks.specs.Seeds.{seed_state, IsReadySeed};

use crate::opening::founder::Founder;
use crate::opening::founders::register_root;
use crate::run::Run;
use crate::seed::Seed;
use crate::task::Task;
use phase_core::RegisterRefusal;
use std::alloc::Global;
use std::sync::Wait;
use stream_lists::Job;

/// The founders of its phasers register a task in the order of its registrations. Where one of them
/// cannot, it leaves the others.
fn register_all<'a, J: Run, W: Wait>(
    rt: &W,
    job: &Job,
    founders: &mut [Founder<'a>],
    seed: Seed<'a>,
) -> Result<Seed<'a>, RegisterRefusal>
    requires founders { AreFounders job.now J.spots founders.old }
    requires seed { IsReadySeed job.now J.spots 0 (seed_state seed) }
    ensures founders { AreFounders job.now J.spots founders.new }
    ensures seed { IfOk result (λ all. IsReadySeed job.now J.spots
        (length (registrations_at job.now (seed_state seed.entry).number)) (seed_state all)) }
    ensures number { IfOk result (λ all. (seed_state all).number ≡ (seed_state seed.entry).number) }
{
    let mut seed = seed;
    let t = seed.number();
    for i in 0..job.graph().registrations(t) {
        match register_root(rt, founders, job, t, i) {
            Ok(member) => seed.receive(member),
            Err(refusal) => {
                seed.dismiss(rt);
                return Err(refusal);
            }
        }
    }
    Ok(seed)
}

impl<'a, J: Run> Task<'a, J> {
    /// Begins a task without a parent: the founders of its phasers register it. It takes memory,
    /// and waits for their turns. Where it cannot be registered it leaves again.
    pub fn found<W: Wait>(
        rt: &W,
        alloc: Global,
        job: &'a Job,
        founders: &mut [Founder<'a>],
        task: usize,
    ) -> Result<Task<'a, J>, RegisterRefusal>
        requires job { job.now ≡ J.job }
        requires task { task < length job.now.graph.tasks }
        requires root { (task_at job.now.graph task).parent ≡ None }
        requires founders { AreFounders job.now J.spots founders.old }
        ensures founders { AreFounders job.now J.spots founders.new }
        ensures number { IfOk result (λ begun. begun ≡ task) }
    {
        let Ok(seed) = Seed::new(alloc, job, task) else {
            return Err(RegisterRefusal::OutOfMemory);
        };
        match register_all::<J, W>(rt, job, founders, seed) {
            Ok(seed) => Ok(Task::root(job, seed)),
            Err(refusal) => Err(refusal),
        }
    }
}
