//! The lists of all phasers and of all sinks.
ghost use Rattle.std.specs.Prelude.{◌≡◌, ◌<◌, ◌∷◌, [], ℕ, length, map, get_or, IfOk, IfErr, None, Some, Err};
ghost use Rattle.std.specs.List.{All};
ghost use Rattle.phase_accum.specs.Sends.{AreSends};
ghost use Rattle.graph_base.specs.Graphs.{phaser_at};
ghost use Rattle.graph_base.specs.declared.place.Place.{Place as PlaceValue};
ghost use Rattle.stream_eval.specs.Results.{sink_values};
ghost use Rattle.stream_lists.specs.JobFields.{items_of};
ghost use Rattle.stream_lists.specs.Lists.{lines_of, list_over, number, numbers_of, sink_over, sinks_of, start_in, value_by};
ghost use Rattle.stream_eval.specs.Composing.{member_of, list_kept};
ghost use Rattle.stream_lists.specs.Ranges.{fault_over, first_too_big, Fits};
ghost use Rattle.stream_lists.specs.Spans.{lengths_of, schedule_of};

use crate::fault::EvalFault;
use crate::filter_lists::{FilterLists, InTurn};
use crate::members::members_on;
use crate::numbers::reduced;
use crate::phases::MemberList;
use crate::reading::drop_read;
use crate::taken_values::taken_at;
use graph_base::Op;
use phase_accum::{Accumulate, Any, Greatest, Least, Product, Sum};
use std::alloc::Global;
use stream_lists::Job;

/// The values that a sink got.
#[derive(Debug, Drop, PartialEq, Eq)]
pub struct Lines {
    /// The number of the sink among the tasks.
    pub task: usize,
    /// The phase at which it begins, of a live sink that joins now, else none.
    pub start: Option<u64>,
    /// Its values, none where it is not live.
    pub values: Vec<i64>,
}

/// The values of the only member, where they are the list of phaser number `p`: they begin in
/// phase 0, there is one for each phase, and the phaser has no single. Else the members.
fn only_values(job: &Job, p: usize, members: Vec<MemberList>) -> Result<Vec<i64>, Vec<MemberList>>
    requires phaser { p < length job.now.graph.phasers }
    requires sends { All (λ list. AreSends list.values.items) members.items }
    ensures plain { IfOk result (λ values. (phaser_at job.now.graph p).single ≡ None) }
    ensures sends { IfOk result (λ values. AreSends values.items) }
    ensures alone { IfOk result (λ values.
        map member_of members.items ≡ (0, values.items) ∷ []) }
    ensures length { IfOk result (λ values.
        length values.items ≡ get_or (lengths_of job.now) p 0) }
    ensures others { IfErr result (λ others. others.items ≡ members.items) }
{
    let mut members = members;
    if members.len() != 1 || job.graph().phaser(p).single.is_some() {
        return Err(members);
    }
    if members[0].offset != 0 || members[0].values.len() as u128 != job.length(p) {
        return Err(members);
    }
    match members.pop() {
        Some(only) => Ok(only.values),
        None => Err(members),
    }
}

/// The numbers of the list of phaser number `p`, whose operation is `A`, over those of the phasers
/// above, or the first value out of range on that phaser.
fn list_by<A: Accumulate, L: FilterLists>(
    alloc: Global,
    filters: &L,
    job: &Job,
    above: &[Vec<i64>],
    p: usize,
) -> Result<Vec<i64>, EvalFault>
    requires may { L.may_filter filters.now }
    requires phaser { p < length job.now.graph.phasers }
    requires value { A.operation.value ≡ value_by (phaser_at job.now.graph p).op }
    requires sends { All (λ list. AreSends list.items) above.now }
    ensures ok { IfOk result (λ list. list.items
        ≡ map number (list_over job.now (schedule_of job.now) (items_of above.now) p)) }
    ensures sends { IfOk result (λ list. AreSends list.items) }
    ensures fits { IfOk result (λ list.
        fault_over job.now (schedule_of job.now) (items_of above.now) p ≡ None) }
    ensures too_big { (place : PlaceValue) (n : ℕ) → result ≡ Err (EvalFault.TooBig place n)
        → fault_over job.now (schedule_of job.now) (items_of above.now) p
        ≡ Some (place, n) }
{
    let members = match members_on(alloc, filters, job, above, p) {
        Ok(members) => members,
        Err(fault) => return Err(fault),
    };
    let members = match only_values(job, p, members) {
        Ok(values) => return Ok(values),
        Err(members) => members,
    };
    reduced::<A>(alloc, job, p, &members)
}

/// The numbers of the list of phaser number `p`, over those of the phasers above, or the first
/// value out of range on that phaser.
fn phaser_list<L: FilterLists>(
    alloc: Global,
    filters: &L,
    job: &Job,
    above: &[Vec<i64>],
    p: usize,
) -> Result<Vec<i64>, EvalFault>
    requires may { L.may_filter filters.now }
    requires phaser { p < length job.now.graph.phasers }
    requires sends { All (λ list. AreSends list.items) above.now }
    ensures ok { IfOk result (λ list. list.items
        ≡ map number (list_over job.now (schedule_of job.now) (items_of above.now) p)) }
    ensures sends { IfOk result (λ list. AreSends list.items) }
    ensures fits { IfOk result (λ list.
        fault_over job.now (schedule_of job.now) (items_of above.now) p ≡ None) }
    ensures too_big { (place : PlaceValue) (n : ℕ) → result ≡ Err (EvalFault.TooBig place n)
        → fault_over job.now (schedule_of job.now) (items_of above.now) p
        ≡ Some (place, n) }
{
    match job.graph().phaser(p).op {
        Op::Sum => list_by::<Sum, L>(alloc, filters, job, above, p),
        Op::Product => list_by::<Product, L>(alloc, filters, job, above, p),
        Op::Least => list_by::<Least, L>(alloc, filters, job, above, p),
        Op::Greatest => list_by::<Greatest, L>(alloc, filters, job, above, p),
        Op::Any => list_by::<Any, L>(alloc, filters, job, above, p),
    }
}

/// The numbers of the phasers' lists that a sink reads, each at its phaser's place, or the first
/// value out of range. A list is dropped after the last phaser that is composed from it.
fn phaser_lists<L: FilterLists>(
    alloc: Global,
    filters: &L,
    job: &Job,
) -> Result<Vec<Vec<i64>>, EvalFault>
    requires may { L.may_filter filters.now }
    ensures ok { IfOk result (λ lists. (q : ℕ) → get_or (items_of lists.items) q []
        ≡ list_kept job.now (length job.now.graph.phasers) (numbers_of job.now) q) }
    ensures sends { IfOk result (λ lists. All (λ list. AreSends list.items) lists.items) }
    ensures fits { IfOk result (λ lists. first_too_big job.now ≡ None) }
    ensures too_big { (place : PlaceValue) (n : ℕ) → result ≡ Err (EvalFault.TooBig place n)
        → first_too_big job.now ≡ Some (place, n) }
{
    let Ok(mut lists) = Vec::with_capacity(alloc, job.graph().phasers()) else {
        return Err(EvalFault::OutOfMemory);
    };
    for p in 0..job.graph().phasers() {
        let list = match phaser_list(alloc, filters, job, lists.as_slice(), p) {
            Ok(list) => list,
            Err(fault) => return Err(fault),
        };
        let Ok(()) = lists.push(list) else {
            return Err(EvalFault::OutOfMemory);
        };
        drop_read(alloc, job, p + 1, lists.as_mut_slice());
    }
    Ok(lists)
}

/// The values of a sink, over the phasers' lists.
fn sink_lines(alloc: Global, job: &Job, lists: &[Vec<i64>], t: usize) -> Result<Lines, EvalFault>
    requires task { t < length job.now.graph.tasks }
    requires sends { All (λ list. AreSends list.items) lists.now }
    ensures ok { IfOk result (λ lines. sink_values lines
        ≡ sink_over job.now (schedule_of job.now) (items_of lists.now) t) }
    ensures start { IfOk result (λ lines. lines.start ≡ start_in job.now lines.task) }
    ensures no_place { (place : PlaceValue) (n : ℕ)
        → result ≡ Err (EvalFault.TooBig place n) → ⊥ }
{
    match Vec::from_slice(alloc, taken_at(lists, job.graph().task(t), job.span(t), 0)) {
        Ok(values) => Ok(Lines {
            task: t,
            start: job.start(t),
            values,
        }),
        Err(_) => Err(EvalFault::OutOfMemory),
    }
}

/// The values of all sinks, in the order of the lines, over the phasers' lists.
fn all_lines(alloc: Global, job: &Job, lists: &[Vec<i64>]) -> Result<Vec<Lines>, EvalFault>
    requires sends { All (λ list. AreSends list.items) lists.now }
    ensures ok { IfOk result (λ lines. map sink_values lines.items
        ≡ map (sink_over job.now (schedule_of job.now) (items_of lists.now)) (sinks_of job.now)) }
    ensures starts { IfOk result (λ lines.
        All (λ line. line.start ≡ start_in job.now line.task) lines.items) }
    ensures no_place { (place : PlaceValue) (n : ℕ)
        → result ≡ Err (EvalFault.TooBig place n) → ⊥ }
{
    let Ok(mut lines) = Vec::with_capacity(alloc, job.graph().tasks()) else {
        return Err(EvalFault::OutOfMemory);
    };
    for t in 0..job.graph().tasks() {
        if job.graph().is_sink(t) {
            let one = match sink_lines(alloc, job, lists, t) {
                Ok(one) => one,
                Err(fault) => return Err(fault),
            };
            let Ok(()) = lines.push(one) else {
                return Err(EvalFault::OutOfMemory);
            };
        }
    }
    Ok(lines)
}

/// Composes the list of each phaser, and answers the values of each sink in the order of the lines,
/// or the first value out of range. A sink that joins now begins at the least phase that it may.
///
/// The phasers are gone through in the order of their lines. For each one the outputs of the
/// filters and peers that signal it are checked first, then each phase that some task takes. A list
/// is dropped after the last phaser that is composed from it, and those that a sink reads at the
/// end. Where one has more values than any memory holds, `OutOfMemory` comes when its turn comes.
pub fn eval(alloc: Global, job: &Job) -> Result<Vec<Lines>, EvalFault>
    ensures ok { IfOk result (λ lines. map sink_values lines.items ≡ lines_of job.now) }
    ensures starts { IfOk result (λ lines.
        All (λ line. line.start ≡ start_in job.now line.task) lines.items) }
    ensures fits { IfOk result (λ lines. Fits job.now) }
    ensures too_big { (place : PlaceValue) (n : ℕ) → result ≡ Err (EvalFault.TooBig place n)
        → first_too_big job.now ≡ Some (place, n) }
{
    eval_by(alloc, &InTurn, job)
}

/// The same, where the lists of filters are made as `filters` makes them: by several threads, say.
pub fn eval_by<L: FilterLists>(
    alloc: Global,
    filters: &L,
    job: &Job,
) -> Result<Vec<Lines>, EvalFault>
    requires may { L.may_filter filters.now }
    ensures ok { IfOk result (λ lines. map sink_values lines.items ≡ lines_of job.now) }
    ensures starts { IfOk result (λ lines.
        All (λ line. line.start ≡ start_in job.now line.task) lines.items) }
    ensures fits { IfOk result (λ lines. Fits job.now) }
    ensures too_big { (place : PlaceValue) (n : ℕ) → result ≡ Err (EvalFault.TooBig place n)
        → first_too_big job.now ≡ Some (place, n) }
{
    let lists = match phaser_lists(alloc, filters, job) {
        Ok(lists) => lists,
        Err(fault) => return Err(fault),
    };
    all_lines(alloc, job, &lists)
}
