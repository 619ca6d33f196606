//! The filter of a task that is one.
ghost use Rattle.std.specs.Prelude.{◌≡◌, ◌↔◌, ◌+◌, ◌-◌, ◌<◌, ◌≤◌, List, ℤ, [], ◌∷◌, ◌++◌, length, take, vec_capacity, IsOk, IfOk};
ghost use Rattle.graph_base.specs.Graphs.{task_at};
ghost use Rattle.graph_base.specs.declared.line.Kind.TheVariants.{Fir as filters};
ghost use Rattle.graph_runs.specs.Steps.{HasFilter};
ghost use Rattle.stream_filters.specs.Filter.{output_after, outputs_of_block};
ghost use Rattle.stream_filters.specs.Range.{before_out_of_range, ranged};

use crate::lines::kind_of;
use graph_base::Kind;
use std::alloc::{AllocError, Global};
use stream_filters::{Fir, FirFault, TooBigValue};
use stream_lists::Job;

/// Makes the filter of task number `t`, where it is one, before its first sample.
///
/// It takes memory for the taps, and for a window of as many samples as the filter looks back to.
pub fn first_filter(alloc: Global, job: &Job, t: usize) -> Result<Option<Fir>, AllocError>
    requires { t < length job.now.graph.tasks }
    ensures { IfOk result (λ filter. HasFilter (task_at job.now.graph t) filter []) }
{
    if kind_of(job, t) != Kind::Fir {
        return Ok(None);
    }
    let line = job.graph().task(t);
    match Fir::with_form(alloc, &line.taps, line.form) {
        Ok(fir) => Ok(Some(fir)),
        Err(FirFault::OutOfMemory) => Err(AllocError),
        Err(FirFault::BadTaps) => unreachable!(),
    }
}

/// Returns what the filter of task number `t` answers to `x`, its next sample. It takes no memory.
pub fn filtered(job: &Job, t: usize, filter: &mut Option<Fir>, x: i64) -> Result<i64, TooBigValue>
    requires task { t < length job.now.graph.tasks }
    requires kind { (task_at job.now.graph t).kind ≡ filters }
    requires filter { (taken : List ℤ) × HasFilter (task_at job.now.graph t) filter.old taken }
    ensures answer { (taken : List ℤ) → HasFilter (task_at job.now.graph t) filter.old taken
        → let task = task_at job.now.graph t in
        result ≡ ranged (output_after task.taps task.form (taken ++ x ∷ [])) }
    ensures filter { (taken : List ℤ) → HasFilter (task_at job.now.graph t) filter.old taken
        → HasFilter (task_at job.now.graph t) filter.new (taken ++ x ∷ []) }
{
    let Some(fir) = filter else { unreachable!() };
    fir.step(x)
}

/// Gives the filter of task number `t` these numbers one after the other, and puts its answers
/// behind `made`, where there is room for all of them. Where an answer is out of range it ends with
/// that number. It takes no memory.
pub fn filtered_all(
    job: &Job,
    t: usize,
    filter: &mut Option<Fir>,
    xs: &[i64],
    made: &mut Vec<i64>,
) -> Result<(), TooBigValue>
    requires task { t < length job.now.graph.tasks }
    requires kind { (task_at job.now.graph t).kind ≡ filters }
    requires filter { (taken : List ℤ) × HasFilter (task_at job.now.graph t) filter.old taken }
    requires room { length made.old.items + length xs.now ≤ vec_capacity made.old }
    ensures made { (taken : List ℤ) → HasFilter (task_at job.now.graph t) filter.old taken
        → let task = task_at job.now.graph t in
        made.new.items ≡ made.old.items
        ++ before_out_of_range (outputs_of_block task.taps task.form taken xs.now) }
    ensures filter { (taken : List ℤ) → HasFilter (task_at job.now.graph t) filter.old taken
        → let count = length made.new.items - length made.old.items in
        HasFilter (task_at job.now.graph t) filter.new (taken ++ take (count + 1) xs.now) }
    ensures ok { IsOk result ↔ (length made.new.items ≡ length made.old.items + length xs.now) }
    ensures capacity { vec_capacity made.new ≡ vec_capacity made.old }
{
    let Some(fir) = filter else { unreachable!() };
    fir.steps(xs, made)
}
