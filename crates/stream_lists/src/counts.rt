//! How many values the steps of a task put and take.
ghost use Rattle.std.specs.Prelude.{◌≡◌, ◌≤◌, length};
ghost use Rattle.graph_base.specs.GraphFields.{task_of};
ghost use Rattle.graph_base.specs.TaskLines.{HasEnds, HasEvery};
ghost use Rattle.stream_lists.specs.Spans.{puts_on, takes_from, turns_below};

use crate::span::LENGTH_MAX;
use graph_base::{EVERY_MAX, Kind, TaskLine};

/// How many of the steps below `n` are step `k`, `k + m`, `k + 2 * m`, ..
fn turns(m: usize, k: usize, n: u128) -> u128
    requires some { 1 ≤ m }
    requires few { m ≤ EVERY_MAX }
    requires short { n ≤ LENGTH_MAX }
    ensures turns { result ≡ turns_below m k n }
    ensures short { result ≤ n }
{
    (n + (m - 1).saturating_sub(k) as u128) / m as u128
}

/// How many values so many steps put on output number `j`.
pub(crate) fn put_count(task: &TaskLine, steps: u128, j: usize) -> u128
    requires ends { HasEnds task.now.kind (length task.now.inputs.items)
        (length task.now.outputs.items) }
    requires every { HasEvery task.now.kind task.now.every }
    requires short { steps ≤ LENGTH_MAX }
    ensures count { result ≡ puts_on (task_of task.now) steps j }
    ensures short { result ≤ steps }
{
    match task.kind {
        Kind::Split => turns(task.outputs.len(), j, steps),
        Kind::Decimate => turns(task.every as usize, 0, steps),
        Kind::Source | Kind::Fir | Kind::Join | Kind::Peer | Kind::Sink => steps,
    }
}

/// Returns how many values so many steps take from input number `k`: of a joiner's inputs each has
/// its turn. It takes no memory.
pub fn taken_count(task: &TaskLine, steps: u128, k: usize) -> u128
    requires ends { HasEnds task.now.kind (length task.now.inputs.items)
        (length task.now.outputs.items) }
    requires short { steps ≤ LENGTH_MAX }
    ensures count { result ≡ takes_from (task_of task.now) steps k }
    ensures short { result ≤ steps }
{
    match task.kind {
        Kind::Join => turns(task.inputs.len(), k, steps),
        Kind::Source | Kind::Fir | Kind::Split | Kind::Decimate | Kind::Peer | Kind::Sink => steps,
    }
}
