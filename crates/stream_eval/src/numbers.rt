//! The numbers of a phaser's list.
ghost use Rattle.std.specs.Prelude.{◌≡◌, ◌<◌, ◌≤◌, ℕ, List, length, map, get_or, IfOk, Some, None, Err};
ghost use Rattle.std.specs.List.{All, range_with_len};
ghost use Rattle.phase_accum.specs.Sends.{AreSends, IsSend};
ghost use Rattle.phase_accum.specs.Values.{applied, IsInRange};
ghost use Rattle.graph_base.specs.Graphs.{phaser_at};
ghost use Rattle.graph_base.specs.declared.place.Place.{Place as PlaceValue};
ghost use Rattle.stream_lists.specs.Lists.{Contribution, number, number_in};
ghost use Rattle.stream_eval.specs.Composing.{HasParts, member_of};
ghost use Rattle.stream_lists.specs.Ranges.{first_fault};
ghost use Rattle.stream_lists.specs.Spans.{lengths_of, schedule_of};

use crate::fault::EvalFault;
use crate::list::held_count;
use crate::phases::{MemberList, parts_of};
use crate::taken_phases::is_faulty;
use graph_base::{Place, TASKS_MAX};
use phase_accum::{Accumulate, Outcome, apply};
use std::alloc::Global;
use stream_lists::{Job, number_of};

/// The number that the list of phaser number `p` has for the value of a phase, before its single.
fn number_at(job: &Job, p: usize, outcome: Outcome) -> i64
    requires phaser { p < length job.now.graph.phasers }
    requires range { IsInRange outcome }
    ensures value { result ≡ number (applied (phaser_at job.now.graph p).single outcome) }
    ensures send { IsSend result }
{
    match job.graph().phaser(p).single {
        Some(single) => number_of(apply(single, outcome)),
        None => number_of(outcome),
    }
}

/// The numbers of the phases of phaser number `p`, whose parts these are, or the first phase that
/// is too big and that some task takes.
fn numbers<A: Accumulate>(
    alloc: Global,
    job: &Job,
    p: usize,
    parts: &[A],
) -> Result<Vec<i64>, EvalFault>
    requires phaser { p < length job.now.graph.phasers }
    requires parts { (members : List Contribution) × HasParts A.operation parts.now members }
    ensures ok { (members : List Contribution) → HasParts A.operation parts.now members
        → IfOk result (λ list. list.items ≡ map (number_in A.operation.value job.now p members)
        (range_with_len 0 (length parts.now))) }
    ensures sends { IfOk result (λ list. AreSends list.items) }
    ensures fits { (members : List Contribution) → HasParts A.operation parts.now members
        → IfOk result (λ list. first_fault A.operation.value job.now (schedule_of job.now) members p
        (length parts.now) ≡ None) }
    ensures too_big { (place : PlaceValue) (n : ℕ) → result ≡ Err (EvalFault.TooBig place n)
        → (members : List Contribution) → HasParts A.operation parts.now members
        → (place ≡ PlaceValue.Phaser p)
        × (first_fault A.operation.value job.now (schedule_of job.now) members p (length parts.now)
        ≡ Some n) }
{
    let Ok(mut list) = Vec::with_capacity(alloc, parts.len()) else {
        return Err(EvalFault::OutOfMemory);
    };
    for (n, part) in parts.iter().enumerate() {
        let outcome = part.finish();
        if is_faulty(job, p, n, outcome) {
            return Err(EvalFault::TooBig {
                place: Place::Phaser(p),
                phase: n,
            });
        }
        let Ok(()) = list.push(number_at(job, p, outcome)) else {
            return Err(EvalFault::OutOfMemory);
        };
    }
    Ok(list)
}

/// The numbers of the list of phaser number `p`, from its members, by one operation.
pub(crate) fn reduced<A: Accumulate>(
    alloc: Global,
    job: &Job,
    p: usize,
    members: &[MemberList],
) -> Result<Vec<i64>, EvalFault>
    requires phaser { p < length job.now.graph.phasers }
    requires sends { All (λ list. AreSends list.values.items) members.now }
    requires few { length members.now ≤ TASKS_MAX }
    ensures ok { IfOk result (λ list. list.items
        ≡ map (number_in A.operation.value job.now p (map member_of members.now))
        (range_with_len 0 (get_or (lengths_of job.now) p 0))) }
    ensures sends { IfOk result (λ list. AreSends list.items) }
    ensures fits { IfOk result (λ list. first_fault A.operation.value job.now (schedule_of job.now)
        (map member_of members.now) p (get_or (lengths_of job.now) p 0) ≡ None) }
    ensures too_big { (place : PlaceValue) (n : ℕ) → result ≡ Err (EvalFault.TooBig place n)
        → (place ≡ PlaceValue.Phaser p)
        × (first_fault A.operation.value job.now (schedule_of job.now)
        (map member_of members.now) p (get_or (lengths_of job.now) p 0) ≡ Some n) }
{
    let Some(phases) = held_count(job.length(p)) else {
        return Err(EvalFault::OutOfMemory);
    };
    let Ok(parts) = parts_of::<A>(alloc, members, phases) else {
        return Err(EvalFault::OutOfMemory);
    };
    numbers(alloc, job, p, &parts)
}
