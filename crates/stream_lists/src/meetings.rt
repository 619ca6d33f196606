//! Which tasks signal in one phase of a phaser with `any`.
ghost use Rattle.std.specs.Prelude.{◌≡◌, ◌<◌, ◌≤◌, length, get_or, IfOk, IfSome, is_some};
ghost use Rattle.std.specs.List.{All};
ghost use Rattle.graph_base.specs.Graphs.{phaser_at};
ghost use Rattle.stream_lists.specs.Jobs.{counted};
ghost use Rattle.stream_lists.specs.JobFields.{IsShort, given};
ghost use Rattle.stream_lists.specs.Meetings.{first_both, is_any, meet_on, meeting_above, meeting_at, meeting_line, meeting_on, meets_above, meets_on};
ghost use Rattle.stream_lists.specs.Spans.{nowhere, spans_of};

use crate::SAMPLES_MAX;
use crate::lengths::{all_lengths, end_on};
use crate::meeting::Meeting;
use crate::sample_counts::{COUNT_MAX, counts_of};
use crate::span::Span;
use crate::task_spans::all_spans;
use graph_base::{Graph, Op};
use std::alloc::{AllocError, Global};

/// The offset of task number `t`.
fn offset_at(spans: &[Span], t: usize) -> u128
    ensures { result ≡ (get_or spans.now t nowhere).offset }
{
    match spans.get(t) {
        Some(span) => span.offset,
        None => 0,
    }
}

/// Whether tasks number `t` and `u` signal in one phase of phaser number `p`.
fn meet(graph: &Graph, spans: &[Span], t: usize, p: usize, u: usize) -> bool
    requires first { t < length graph.now.tasks }
    requires second { u < length graph.now.tasks }
    requires short { All IsShort spans.now }
    ensures { result ≡ meet_on graph.now spans.now t p u }
{
    let first = offset_at(spans, t);
    let first_end = end_on(graph, spans, p, t);
    let second = offset_at(spans, u);
    let second_end = end_on(graph, spans, p, u);
    first < first_end && second < second_end && first < second_end && second < first_end
}

/// The first phase of phaser number `p` in which tasks number `t` and `u` both signal.
fn first_phase(graph: &Graph, spans: &[Span], t: usize, p: usize, u: usize) -> Option<u128>
    requires first { t < length graph.now.tasks }
    requires second { u < length graph.now.tasks }
    requires short { All IsShort spans.now }
    ensures { result ≡ first_both graph.now spans.now t p u }
{
    if !meet(graph, spans, t, p, u) {
        return None;
    }
    Some(offset_at(spans, t).max(offset_at(spans, u)))
}

/// Where task number `t` meets a task above it on phaser number `p`, whatever its operation is.
fn first_above(graph: &Graph, spans: &[Span], t: usize, p: usize) -> Option<Meeting>
    requires task { t < length graph.now.tasks }
    requires short { All IsShort spans.now }
    ensures meeting { result ≡ meeting_above graph.now spans.now t p }
    ensures above { IfSome result (λ found. found.task < t) }
{
    for u in 0..t {
        if let Some(phase) = first_phase(graph, spans, t, p, u) {
            return Some(Meeting { task: u, phase });
        }
    }
    None
}

/// Whether phaser number `p` is one with `any`.
fn is_any_line(graph: &Graph, p: usize) -> bool
    requires { p < length graph.now.phasers }
    ensures { result ≡ is_any (phaser_at graph.now p).op }
{
    matches!(graph.phaser(p).op, Op::Any)
}

/// Where task number `t` meets a task above it on phaser number `p`.
fn first_on(graph: &Graph, spans: &[Span], t: usize, p: usize) -> Option<Meeting>
    requires task { t < length graph.now.tasks }
    requires phaser { p < length graph.now.phasers }
    requires short { All IsShort spans.now }
    ensures meeting { result ≡ meeting_on graph.now spans.now t p }
    ensures meets { is_some result ≡ meets_on graph.now spans.now t p }
    ensures above { IfSome result (λ found. found.task < t) }
{
    if !is_any_line(graph, p) {
        return None;
    }
    first_above(graph, spans, t, p)
}

/// Whether task number `t` meets a task above it.
fn meets_some(graph: &Graph, spans: &[Span], t: usize) -> bool
    requires task { t < length graph.now.tasks }
    requires short { All IsShort spans.now }
    ensures { result ≡ meets_above graph.now spans.now t }
{
    for p in 0..graph.phasers() {
        if first_on(graph, spans, t, p).is_some() {
            return true;
        }
    }
    false
}

/// The line of the first task that meets a task above it.
pub(crate) fn first_meeting(graph: &Graph, spans: &[Span]) -> Option<u64>
    requires { All IsShort spans.now }
    ensures { result ≡ meeting_at graph.now spans.now }
{
    for t in 0..graph.tasks() {
        if meets_some(graph, spans, t) {
            return Some(graph.task(t).line);
        }
    }
    None
}

/// How far each task comes, where the sources have so many samples.
fn spans_with(alloc: Global, graph: &Graph, counts: &[u64]) -> Result<Vec<Span>, AllocError>
    requires few { All (λ n. n ≤ COUNT_MAX) counts.now }
    ensures spans { IfOk result (λ spans.
        spans.items ≡ spans_of (counted graph.now counts.now)) }
    ensures short { IfOk result (λ spans. All IsShort spans.items) }
{
    let lengths = all_lengths(alloc, graph, counts)?;
    all_spans(alloc, graph, counts, &lengths)
}

/// Returns the line of the first task that meets a task of an earlier line, in a graph whose
/// sources have so many samples, one number for each in the order of their lines: both signal in
/// one phase of a phaser with `any`. Where there is none, there is none with fewer samples either
/// (`list_laws::none_meet_with_fewer`), so that one look decides for samples that come in pieces.
///
/// It takes memory for a span of each task and a length of each phaser. No list is composed.
pub fn meeting_with(alloc: Global, graph: &Graph, counts: &[u64]) -> Result<Option<u64>, AllocError>
    requires few { All (λ n. n ≤ COUNT_MAX) counts.now }
    ensures { IfOk result (λ line. line ≡ meeting_line (counted graph.now counts.now)) }
{
    let spans = spans_with(alloc, graph, counts)?;
    Ok(first_meeting(graph, &spans))
}

/// Returns the first task of an earlier line that task number `t` meets on phaser number `p`, and
/// the first phase in which both signal, in a graph with these samples of its sources, one list for
/// each in the order of their lines. There is none where the phaser is not one with `any`. So it
/// tells where a task meets one, of which `Job::new` told the line.
///
/// It takes memory for a span of each task, a length of each phaser and a number of each source. No
/// list is composed.
pub fn meeting_on(
    alloc: Global,
    graph: &Graph,
    samples: &[Vec<i64>],
    t: usize,
    p: usize,
) -> Result<Option<Meeting>, AllocError>
    requires task { t < length graph.now.tasks }
    requires phaser { p < length graph.now.phasers }
    requires few { All (λ list. length list.items ≤ SAMPLES_MAX) samples.now }
    ensures meeting { IfOk result (λ found. found
        ≡ meeting_on graph.now (spans_of (given graph.now samples.now)) t p) }
    ensures meets { IfOk result (λ found. is_some found
        ≡ meets_on graph.now (spans_of (given graph.now samples.now)) t p) }
    ensures above { IfOk result (λ found. IfSome found (λ meeting. meeting.task < t)) }
{
    let counts = counts_of(alloc, samples)?;
    let spans = spans_with(alloc, graph, &counts)?;
    Ok(first_on(graph, &spans, t, p))
}
