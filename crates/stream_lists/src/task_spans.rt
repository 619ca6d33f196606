//! How far each task comes, over the lengths of the phasers' lists.
ghost use Rattle.std.specs.Prelude.{◌≡◌, ◌≤◌, ◌<◌, ◌-◌, ◌+◌, ◌&&◌, if◌then◌else◌, nat_le, length, get_or, Some, None, IfOk, IfSome, true};
ghost use Rattle.std.specs.List.{All};
ghost use Rattle.graph_base.specs.GraphFields.{task_of};
ghost use Rattle.graph_base.specs.TaskLines.{HasEnds};
ghost use Rattle.stream_lists.specs.Jobs.{counted};
ghost use Rattle.stream_lists.specs.JobFields.{IsCounted, IsShort, IsStage};
ghost use Rattle.stream_lists.specs.Spans.{cut_at, enough_for, first_run_out, nowhere, offset_of, run_out, span_of, spans_over, spans_up_to, values_from};

use crate::sample_counts::count_of;
use crate::span::{LENGTH_MAX, Span};
use graph_base::{ENDS_MAX, Graph, Kind, Parent, TaskLine};
use std::alloc::{AllocError, Global};

/// How many values of the list of phaser number `p` there are from an offset on.
fn length_from(lengths: &[u128], p: usize, offset: u128) -> u128
    requires { All (λ n. n ≤ LENGTH_MAX) lengths.now }
    ensures length { result ≡ get_or lengths.now p 0 - offset }
    ensures short { result ≤ LENGTH_MAX }
{
    lengths.get(p).copied().unwrap_or(0).saturating_sub(offset)
}

/// How many values input number `k` of a task has from an offset on.
fn values_at(task: &TaskLine, lengths: &[u128], offset: u128, k: usize) -> u128
    requires { All (λ n. n ≤ LENGTH_MAX) lengths.now }
    ensures count { result
        ≡ get_or (values_from (task_of task.now) lengths.now offset) k 0 }
    ensures short { result ≤ LENGTH_MAX }
{
    match task.inputs.get(k) {
        Some(p) => length_from(lengths, *p, offset),
        None => 0,
    }
}

/// The step at which input number `k` of a task runs out, where the inputs have their turns.
fn run_out_of(task: &TaskLine, lengths: &[u128], offset: u128, k: usize) -> u128
    requires few { length task.now.inputs.items ≤ ENDS_MAX }
    requires input { k ≤ ENDS_MAX }
    requires short { All (λ n. n ≤ LENGTH_MAX) lengths.now }
    ensures { result ≡ run_out (values_from (task_of task.now) lengths.now offset) k }
{
    k as u128 + task.inputs.len() as u128 * values_at(task, lengths, offset, k)
}

/// The step at which the first input of a joiner runs out.
fn first_end(task: &TaskLine, lengths: &[u128], offset: u128) -> u128
    requires few { length task.now.inputs.items ≤ ENDS_MAX }
    requires short { All (λ n. n ≤ LENGTH_MAX) lengths.now }
    ensures { result ≡ first_run_out (values_from (task_of task.now) lengths.now offset) }
{
    let mut first = run_out_of(task, lengths, offset, 0);
    for k in 0..task.inputs.len() {
        first = first.min(run_out_of(task, lengths, offset, k));
    }
    first
}

/// How many steps a task's samples, or its inputs from an offset on, are enough for.
fn steps_for(task: &TaskLine, samples: u64, lengths: &[u128], offset: u128) -> u128
    requires ends { HasEnds task.now.kind (length task.now.inputs.items)
        (length task.now.outputs.items) }
    requires short { All (λ n. n ≤ LENGTH_MAX) lengths.now }
    ensures { result ≡ enough_for (task_of task.now) samples
        (values_from (task_of task.now) lengths.now offset) }
{
    if task.kind == Kind::Source {
        return u128::from(samples);
    }
    if task.kind == Kind::Join {
        return first_end(task, lengths, offset);
    }
    values_at(task, lengths, offset, 0)
}

/// At most `until` steps.
fn cut(until: Option<u64>, steps: u128) -> u128
    ensures { result ≡ cut_at until steps }
{
    match until {
        Some(most) if u128::from(most) < steps => u128::from(most),
        _ => steps,
    }
}

/// The phase in which a task of this span has made so many steps, if it makes as many.
fn phase_after(span: Span, at: u64) -> Option<u128>
    requires { IsShort span }
    ensures phase { result ≡ (if span.live && nat_le at span.steps
        then Some (span.offset + at) else None) }
    ensures short { IfSome result (λ phase. phase ≤ LENGTH_MAX) }
{
    let at = u128::from(at);
    if !span.live || at > span.steps {
        return None;
    }
    Some(span.offset + at)
}

/// The span of a task, of which there may be none.
fn known_span(spans: &[Span], t: usize) -> Span
    requires { All IsShort spans.now }
    ensures span { result ≡ get_or spans.now t nowhere }
    ensures short { IsShort result }
{
    match spans.get(t) {
        Some(span) => *span,
        None => Span {
            live: false,
            offset: 0,
            steps: 0,
        },
    }
}

/// The offset of a task with this parent, or none, where it is live.
fn offset_from(above: &[Span], parent: Option<Parent>) -> Option<u128>
    requires { All IsShort above.now }
    ensures offset { result ≡ offset_of above.now 0 parent }
    ensures short { IfSome result (λ offset. offset ≤ LENGTH_MAX) }
{
    match parent {
        None => Some(0),
        Some(parent) => phase_after(known_span(above, parent.task), parent.at),
    }
}

/// The span of task number `t`, below those of the tasks above it.
fn next_span(graph: &Graph, counts: &[u64], lengths: &[u128], above: &[Span], t: usize) -> Span
    requires task { t < length graph.now.tasks }
    requires stage { IsStage graph.now counts.now lengths.now }
    requires above { above.now
        ≡ spans_up_to (counted graph.now counts.now) lengths.now t }
    requires short { All IsShort above.now }
    ensures span { result ≡ span_of (counted graph.now counts.now) lengths.now above.now t }
    ensures short { IsShort result }
{
    let task = graph.task(t);
    let Some(offset) = offset_from(above, task.parent) else {
        return Span {
            live: false,
            offset: 0,
            steps: 0,
        };
    };
    let most = steps_for(task, count_of(graph, counts, t), lengths, offset);
    Span {
        live: true,
        offset,
        steps: cut(task.until, most),
    }
}

/// The spans of all tasks, over phasers' lists of these lengths.
pub(crate) fn all_spans(
    alloc: Global,
    graph: &Graph,
    counts: &[u64],
    lengths: &[u128],
) -> Result<Vec<Span>, AllocError>
    requires stage { IsStage graph.now counts.now lengths.now }
    ensures spans { IfOk result (λ spans.
        spans.items ≡ spans_over (counted graph.now counts.now) lengths.now) }
    ensures short { IfOk result (λ spans. All IsShort spans.items) }
    ensures each { IfOk result (λ spans. length spans.items ≡ length graph.now.tasks) }
{
    let mut spans = Vec::with_capacity(alloc, graph.tasks())?;
    for t in 0..graph.tasks() {
        spans.push(next_span(graph, counts, lengths, spans.as_slice(), t))?;
    }
    Ok(spans)
}

/// Whether a u64 counts the phases before each of these tasks begins.
pub(crate) fn are_counted(spans: &[Span]) -> bool
    ensures { result ≡ true → All IsCounted spans.now }
{
    spans.iter().all(|span| u64::try_from(span.offset).is_ok())
}
