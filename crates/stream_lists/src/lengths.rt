//! How long the list of each phaser is.
ghost use Rattle.std.specs.Prelude.{◌≡◌, ◌≤◌, ◌<◌, length, IfOk};
ghost use Rattle.std.specs.List.{All};
ghost use Rattle.graph_base.specs.GraphFields.{task_of};
ghost use Rattle.graph_base.specs.TaskLines.{HasEnds};
ghost use Rattle.stream_lists.specs.Jobs.{counted};
ghost use Rattle.stream_lists.specs.JobFields.{IsShort, IsStage};
ghost use Rattle.stream_lists.specs.Spans.{end_of, length_on, lengths_of, puts_on};

use crate::counts::put_count;
use crate::places::output_number;
use crate::sample_counts::COUNT_MAX;
use crate::span::{LENGTH_MAX, Span};
use crate::task_spans::all_spans;
use graph_base::Graph;
use std::alloc::{AllocError, Global};

/// Where task number `t` ends on phaser number `p`.
pub(crate) fn end_on(graph: &Graph, spans: &[Span], p: usize, t: usize) -> u128
    requires task { t < length graph.now.tasks }
    requires short { All IsShort spans.now }
    ensures end { result ≡ end_of graph.now spans.now p t }
    ensures short { result ≤ LENGTH_MAX }
{
    let Some(span) = spans.get(t) else {
        return 0;
    };
    let Some(j) = output_number(graph.task(t), p) else {
        return 0;
    };
    if !span.live {
        return 0;
    }
    span.offset + put_count(graph.task(t), span.steps, j)
}

/// The length of the list of phaser number `p`.
fn longest(graph: &Graph, spans: &[Span], p: usize) -> u128
    requires { All IsShort spans.now }
    ensures length { result ≡ length_on graph.now spans.now p }
    ensures short { result ≤ LENGTH_MAX }
{
    let mut end: u128 = 0;
    for t in 0..graph.tasks() {
        end = end.max(end_on(graph, spans, p, t));
    }
    end
}

/// The lengths of the lists of all phasers, where the sources have so many samples.
pub(crate) fn all_lengths(
    alloc: Global,
    graph: &Graph,
    counts: &[u64],
) -> Result<Vec<u128>, AllocError>
    requires few { All (λ n. n ≤ COUNT_MAX) counts.now }
    ensures lengths { IfOk result (λ lengths.
        lengths.items ≡ lengths_of (counted graph.now counts.now)) }
    ensures short { IfOk result (λ lengths. All (λ n. n ≤ LENGTH_MAX) lengths.items) }
    ensures each { IfOk result (λ lengths. length lengths.items ≡ length graph.now.phasers) }
    ensures stage { IfOk result (λ lengths. IsStage graph.now counts.now lengths.items) }
{
    let mut lengths = Vec::with_capacity(alloc, graph.phasers())?;
    for p in 0..graph.phasers() {
        let spans = all_spans(alloc, graph, counts, lengths.as_slice())?;
        lengths.push(longest(graph, &spans, p))?;
    }
    Ok(lengths)
}
