//! Laws of what a run tells. The contract of each function is the law.
ghost use Rattle.std.specs.Prelude.{◌≡◌, ◌≤◌, ◌<◌, ℕ, [], Some, length, get_or};
ghost use Rattle.graph_base.specs.Graphs.{task_at};
ghost use Rattle.graph_base.specs.TaskLines.{IsGraph};
ghost use Rattle.stream_lists.specs.Jobs.{Job};
ghost use Rattle.stream_lists.specs.Lists.{start_in};
ghost use Rattle.stream_lists.specs.Spans.{lengths_of};

/// The least start of a sink that joins now, which is the one that `run` tells, is at most the
/// length of its phaser's list: a phase of that list, or the one behind it.
pub fn starts_are_in_time()
    ensures { (job : Job) (t start : ℕ) → IsGraph job.graph → job.starts ≡ []
        → t < length job.graph.tasks → start_in job t ≡ Some start
        → start ≤ get_or (lengths_of job) (get_or (task_at job.graph t).inputs 0 0) 0 }
{}
