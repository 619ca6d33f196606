//! The members of a phaser.
ghost use Rattle.std.specs.Prelude.{◌≡◌, ◌<◌, ◌≤◌, ℕ, length, map, get_or, IfOk, IfSome, Some, None, Err};
ghost use Rattle.std.specs.List.{All};
ghost use Rattle.phase_accum.specs.Sends.{AreSends};
ghost use Rattle.graph_base.specs.Graphs.{task_at};
ghost use Rattle.graph_base.specs.GraphFields.{task_of};
ghost use Rattle.graph_base.specs.declared.line.Kind.TheVariants.{Split};
ghost use Rattle.graph_base.specs.declared.place.Place.{Place as PlaceValue};
ghost use Rattle.graph_base.specs.TaskLines.{HasEnds};
ghost use Rattle.stream_lists.specs.JobFields.{items_of};
ghost use Rattle.stream_lists.specs.Lists.{contribution_at, contributions_on, output_on};
ghost use Rattle.stream_eval.specs.Composing.{member_of, member_option};
ghost use Rattle.stream_lists.specs.Ranges.{first_some, made_fault, output_fault_of, output_faults};
ghost use Rattle.stream_lists.specs.Spans.{schedule_of};

use crate::fault::EvalFault;
use crate::filter_lists::FilterLists;
use crate::list::ListFault;
use crate::outputs::list_put;
use crate::phases::MemberList;
use crate::taken_values::taken_lists;
use graph_base::{Place, TASKS_MAX};
use std::alloc::Global;
use stream_lists::{Job, output_number};

/// What task number `t` puts on its output number `j`, over the lists of the phasers above, or the
/// first step whose value is out of range.
fn output_of<L: FilterLists>(
    alloc: Global,
    filters: &L,
    job: &Job,
    above: &[Vec<i64>],
    t: usize,
    j: usize,
) -> Result<Vec<i64>, ListFault>
    requires may { L.may_filter filters.now }
    requires task { t < length job.now.graph.tasks }
    requires turn { (task_at job.now.graph t).kind ≡ Split
        → j < length (task_at job.now.graph t).outputs }
    requires sends { All (λ list. AreSends list.items) above.now }
    ensures ok { IfOk result (λ list.
        list.items ≡ output_on job.now (schedule_of job.now) (items_of above.now) t j) }
    ensures sends { IfOk result (λ list. AreSends list.items) }
    ensures fits { IfOk result (λ list.
        made_fault job.now (schedule_of job.now) (items_of above.now) t j ≡ None) }
    ensures too_big { (n : ℕ) → result ≡ Err (ListFault.TooBig n)
        → made_fault job.now (schedule_of job.now) (items_of above.now) t j ≡ Some n }
{
    let task = job.graph().task(t);
    let span = job.span(t);
    let Ok(taken) = taken_lists(alloc, above, task, span) else {
        return Err(ListFault::OutOfMemory);
    };
    list_put(
        alloc,
        filters,
        job.samples_of(t),
        &taken,
        task,
        span.steps,
        j,
    )
}

/// Task number `t` as a member of phaser number `p`, or where what it makes is first out of range.
fn as_member<L: FilterLists>(
    alloc: Global,
    filters: &L,
    job: &Job,
    above: &[Vec<i64>],
    p: usize,
    t: usize,
) -> Result<Option<MemberList>, EvalFault>
    requires may { L.may_filter filters.now }
    requires task { t < length job.now.graph.tasks }
    requires sends { All (λ list. AreSends list.items) above.now }
    ensures ok { IfOk result (λ found. member_option found
        ≡ contribution_at job.now (schedule_of job.now) (items_of above.now) p t) }
    ensures sends { IfOk result (λ found. IfSome found (λ list. AreSends list.values.items)) }
    ensures fits { IfOk result (λ found.
        output_fault_of job.now (schedule_of job.now) (items_of above.now) p t ≡ None) }
    ensures too_big { (place : PlaceValue) (n : ℕ) → result ≡ Err (EvalFault.TooBig place n)
        → output_fault_of job.now (schedule_of job.now) (items_of above.now) p t ≡ Some (place, n) }
{
    let span = job.span(t);
    if !span.live {
        return Ok(None);
    }
    let Some(j) = output_number(job.graph().task(t), p) else {
        return Ok(None);
    };
    match output_of(alloc, filters, job, above, t, j) {
        Ok(values) => Ok(Some(MemberList {
            offset: span.offset,
            values,
        })),
        Err(ListFault::TooBig(step)) => Err(EvalFault::TooBig {
            place: Place::Task(t),
            phase: step,
        }),
        Err(ListFault::OutOfMemory) => Err(EvalFault::OutOfMemory),
    }
}

/// The members of phaser number `p`, in the order of the lines, or the first value out of range
/// among what they make.
pub(crate) fn members_on<L: FilterLists>(
    alloc: Global,
    filters: &L,
    job: &Job,
    above: &[Vec<i64>],
    p: usize,
) -> Result<Vec<MemberList>, EvalFault>
    requires may { L.may_filter filters.now }
    requires sends { All (λ list. AreSends list.items) above.now }
    ensures ok { IfOk result (λ members. map member_of members.items
        ≡ contributions_on job.now (schedule_of job.now) (items_of above.now) p) }
    ensures sends { IfOk result (λ members.
        All (λ list. AreSends list.values.items) members.items) }
    ensures few { IfOk result (λ members. length members.items ≤ TASKS_MAX) }
    ensures fits { IfOk result (λ members.
        first_some (output_faults job.now (schedule_of job.now) (items_of above.now) p) ≡ None) }
    ensures too_big { (place : PlaceValue) (n : ℕ) → result ≡ Err (EvalFault.TooBig place n)
        → first_some (output_faults job.now (schedule_of job.now) (items_of above.now) p)
        ≡ Some (place, n) }
{
    let Ok(mut members) = Vec::with_capacity(alloc, job.graph().tasks()) else {
        return Err(EvalFault::OutOfMemory);
    };
    for t in 0..job.graph().tasks() {
        let found = match as_member(alloc, filters, job, above, p, t) {
            Ok(found) => found,
            Err(fault) => return Err(fault),
        };
        if let Some(list) = found {
            let Ok(()) = members.push(list) else {
                return Err(EvalFault::OutOfMemory);
            };
        }
    }
    Ok(members)
}
