//! What a job tells is all that the laws of runs ask for.
ghost use Rattle.graph_runs.specs.Settled.{IsReady};

use stream_job::Job;

/// Each job that was made is ready: its graph was read, and no two tasks meet. It takes no memory.
fn a_job_is_ready(job: &Job)
    ensures { IsReady job.now }
{
    let _tasks = job.graph().tasks();
}
