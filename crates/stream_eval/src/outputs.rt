//! What a task makes of what it took.
ghost use Rattle.std.specs.Prelude.{◌≡◌, ◌≤◌, ℕ, nat_lt, if◌then◌else◌, [], take, length, map, get_or, IfOk, None, Some, Err};
ghost use Rattle.std.specs.List.{All, position_from};
ghost use Rattle.phase_accum.specs.Sends.{AreSends};
ghost use Rattle.graph_base.specs.GraphFields.{task_of};
ghost use Rattle.stream_lists.specs.Lists.{mixed, output_list};
ghost use Rattle.stream_lists.specs.Ranges.{is_out_of_range, list_fault};
ghost use Rattle.stream_eval.specs.Composing.{LineMayPut};

use crate::filter_lists::FilterLists;
use crate::list::{ListFault, every_list, fir_list, in_turn_list, mixed_list};
use crate::taken_values::part_of;
use graph_base::{Kind, TaskLine};
use std::alloc::Global;

/// A copy of all values.
fn whole_copy(alloc: Global, list: &[i64]) -> Result<Vec<i64>, ListFault>
    requires { AreSends list.now }
    ensures ok { IfOk result (λ copy. copy.items ≡ list.now) }
    ensures sends { IfOk result (λ copy. AreSends copy.items) }
    ensures no_step { (n : ℕ) → result ≡ Err (ListFault.TooBig n) → ⊥ }
{
    Ok(Vec::from_slice(alloc, list)?)
}

/// A copy of the first values.
fn copy_of(alloc: Global, list: &[i64], count: u128) -> Result<Vec<i64>, ListFault>
    requires { AreSends list.now }
    ensures ok { IfOk result (λ copy. copy.items ≡ take count list.now) }
    ensures sends { IfOk result (λ copy. AreSends copy.items) }
    ensures no_step { (n : ℕ) → result ≡ Err (ListFault.TooBig n) → ⊥ }
{
    whole_copy(alloc, part_of(list, 0, count))
}

/// What a task took from its input number `k`.
fn list_of<'a>(taken: &[&'a [i64]], k: usize) -> &'a [i64]
    requires sends { All (λ list. AreSends list.now) taken.now }
    ensures value { result.now ≡ get_or (map (λ list. list.now) taken.now) k [] }
    ensures sends { AreSends result.now }
{
    taken.get(k).copied().unwrap_or(&[])
}

/// What a peer puts on its output number `j`: on E its input, on Y the input times its factor less
/// what E gave.
fn peer_list(
    alloc: Global,
    mul: i64,
    xs: &[i64],
    es: &[i64],
    j: usize,
) -> Result<Vec<i64>, ListFault>
    requires { AreSends xs.now }
    ensures ok { IfOk result (λ list.
        list.items ≡ (if nat_lt 0 j then mixed mul xs.now es.now else xs.now)) }
    ensures sends { IfOk result (λ list. AreSends list.items) }
    ensures in_range { IfOk result (λ list. (if nat_lt 0 j
        then position_from is_out_of_range 0 (mixed mul xs.now es.now) else None) ≡ None) }
    ensures too_big { (step : ℕ) → result ≡ Err (ListFault.TooBig step) → (if nat_lt 0 j
        then position_from is_out_of_range 0 (mixed mul xs.now es.now) else None) ≡ Some step }
{
    if j > 0 {
        return mixed_list(alloc, mul, xs, es);
    }
    whole_copy(alloc, xs)
}

/// What a task, with these samples, that took these values from each input in so many steps, puts
/// on its output number `j`, or the first step whose value is out of range.
pub(crate) fn list_put<L: FilterLists>(
    alloc: Global,
    filters: &L,
    samples: &[i64],
    taken: &[&[i64]],
    task: &TaskLine,
    steps: u128,
    j: usize,
) -> Result<Vec<i64>, ListFault>
    requires may { L.may_filter filters.now }
    requires task { LineMayPut task.now (length taken.now) j }
    requires samples { AreSends samples.now }
    requires sends { All (λ list. AreSends list.now) taken.now }
    ensures ok { IfOk result (λ list. list.items ≡ output_list samples.now
        (map (λ list. list.now) taken.now) (task_of task.now) steps j) }
    ensures sends { IfOk result (λ list. AreSends list.items) }
    ensures fits { IfOk result (λ list. list_fault task.now.kind j (output_list samples.now
        (map (λ list. list.now) taken.now) (task_of task.now) steps j) ≡ None) }
    ensures too_big { (n : ℕ) → result ≡ Err (ListFault.TooBig n)
        → list_fault task.now.kind j (output_list samples.now
        (map (λ list. list.now) taken.now) (task_of task.now) steps j) ≡ Some n }
{
    match task.kind {
        Kind::Source => copy_of(alloc, samples, steps),
        Kind::Fir => fir_list(alloc, filters, &task.taps, task.form, list_of(taken, 0)),
        Kind::Split => Ok(every_list(alloc, task.outputs.len(), j, list_of(taken, 0))?),
        Kind::Decimate => Ok(every_list(alloc, task.every as usize, 0, list_of(taken, 0))?),
        Kind::Join => Ok(in_turn_list(alloc, taken, steps)?),
        Kind::Peer => peer_list(alloc, task.mul, list_of(taken, 0), list_of(taken, 1), j),
        Kind::Sink => Ok(Vec::new(alloc)),
    }
}
