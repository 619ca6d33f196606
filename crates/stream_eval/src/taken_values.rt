//! What a task takes from its inputs.
ghost use Rattle.std.specs.Prelude.{◌≡◌, ◌≤◌, ◌<◌, ◌^◌, List, ℤ, [], take, drop, length, map, get_or, IfOk};
ghost use Rattle.std.specs.List.{All};
ghost use Rattle.phase_accum.specs.Sends.{AreSends};
ghost use Rattle.graph_base.specs.GraphFields.{task_of};
ghost use Rattle.graph_base.specs.TaskLines.{HasEnds};
ghost use Rattle.stream_lists.specs.JobFields.{IsShort, items_of};
ghost use Rattle.stream_lists.specs.Lists.{taken_from, taken_by};

use graph_base::TaskLine;
use std::alloc::{AllocError, Global};
use stream_lists::{Span, taken_count};

/// So many values of a list, from a place on, as far as there are.
pub(crate) fn part_of(list: &[i64], from: u128, count: u128) -> &[i64]
    ensures { result.now ≡ take count (drop from list.now) }
{
    let rest = &list[from.min(list.len() as u128) as usize..];
    &rest[..count.min(rest.len() as u128) as usize]
}

/// The list of phaser number `p`, where it is there.
fn list_at(above: &[Vec<i64>], p: usize) -> &[i64]
    ensures { result.now ≡ get_or (items_of above.now) p [] }
{
    match above.get(p) {
        Some(list) => list.as_slice(),
        None => &[],
    }
}

/// What a task takes from its input number `k`, over the phasers' lists.
pub(crate) fn taken_at<'a>(
    above: &'a [Vec<i64>],
    task: &TaskLine,
    span: Span,
    k: usize,
) -> &'a [i64]
    requires ends { HasEnds task.now.kind (length task.now.inputs.items)
        (length task.now.outputs.items) }
    requires sends { All (λ list. AreSends list.items) above.now }
    requires span { IsShort span }
    ensures value { result.now ≡ taken_from (items_of above.now) (task_of task.now) span k }
    ensures sends { AreSends result.now }
{
    let p = task.inputs.get(k).copied().unwrap_or(0);
    part_of(
        list_at(above, p),
        span.offset,
        taken_count(task, span.steps, k),
    )
}

/// What a task takes from each of its inputs, over the phasers' lists.
pub(crate) fn taken_lists<'a>(
    alloc: Global,
    above: &'a [Vec<i64>],
    task: &TaskLine,
    span: Span,
) -> Result<Vec<&'a [i64]>, AllocError>
    requires ends { HasEnds task.now.kind (length task.now.inputs.items)
        (length task.now.outputs.items) }
    requires sends { All (λ list. AreSends list.items) above.now }
    requires span { IsShort span }
    ensures lists { IfOk result (λ lists. map (λ list. list.now) lists.items
        ≡ taken_by (items_of above.now) (task_of task.now) span) }
    ensures count { IfOk result (λ lists.
        length lists.items ≡ length task.now.inputs.items) }
    ensures sends { IfOk result (λ lists. All (λ list. AreSends list.now) lists.items) }
{
    let mut lists = Vec::with_capacity(alloc, task.inputs.len())?;
    for k in 0..task.inputs.len() {
        lists.push(taken_at(above, task, span, k))?;
    }
    Ok(lists)
}
