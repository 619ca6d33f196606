//! The lists that tasks make of what they took.
ghost use Rattle.std.specs.Prelude.{◌≡◌, ◌<◌, ◌≤◌, ℕ, [], length, map, get_or, pos, IfOk, IfSome, None, Some, Err};
ghost use Rattle.std.specs.List.{All, position_from};
ghost use Rattle.phase_accum.specs.Sends.{AreSends};
ghost use Rattle.stream_filters.specs.Filter.{AreTaps, outputs};
ghost use Rattle.stream_lists.specs.Lists.{entry, every, in_turn, mixed};
ghost use Rattle.stream_lists.specs.Ranges.{is_out_of_range};
ghost use Rattle.stream_eval.specs.declared.list.ListFault.TheVariants as fault;

use crate::filter_lists::FilterLists;
use graph_base::EVERY_MAX;
use std::alloc::{AllocError, Global};
use stream_filters::{FilterFault, Form, Peer};

/// Why no list was made.
#[derive(Clone, Copy, Debug, PartialEq, Eq)]
pub enum ListFault {
    /// The value at this step is out of range.
    TooBig(usize),
    /// There was no memory.
    OutOfMemory,
}

impl From<AllocError> for ListFault {
    ghost from_gives = { λ _ given. given ≡ fault.OutOfMemory };

    fn from(_error: AllocError) -> ListFault {
        ListFault::OutOfMemory
    }
}

/// Makes the outputs of a filter at each of these samples, or finds the first step at which one is
/// out of range.
pub fn fir_list<L: FilterLists>(
    alloc: Global,
    filters: &L,
    taps: &[i64],
    form: Form,
    samples: &[i64],
) -> Result<Vec<i64>, ListFault>
    requires may { L.may_filter filters.now }
    requires taps { AreTaps taps.now form }
    requires samples { AreSends samples.now }
    ensures ok { IfOk result (λ list. list.items ≡ outputs taps.now form samples.now) }
    ensures sends { IfOk result (λ list. AreSends list.items) }
    ensures in_range { IfOk result (λ list.
        position_from is_out_of_range 0 (outputs taps.now form samples.now) ≡ None) }
    ensures too_big { (step : ℕ) → result ≡ Err (ListFault.TooBig step)
        → position_from is_out_of_range 0 (outputs taps.now form samples.now) ≡ Some step }
{
    match filters.filtered(alloc, taps, form, samples) {
        Ok(list) => Ok(list),
        Err(FilterFault::TooBig(step)) => Err(ListFault::TooBig(step)),
        Err(FilterFault::BadTaps | FilterFault::OutOfMemory) => Err(ListFault::OutOfMemory),
    }
}

/// Takes the entries `j`, `j + m`, `j + 2 * m`, .. of a list.
pub fn every_list(alloc: Global, m: usize, j: usize, values: &[i64]) -> Result<Vec<i64>, AllocError>
    requires turn { j < m }
    requires few { m ≤ EVERY_MAX }
    requires sends { AreSends values.now }
    ensures ok { IfOk result (λ list. list.items ≡ every m j values.now) }
    ensures sends { IfOk result (λ list. AreSends list.items) }
{
    let count = (values.len() + (m - 1 - j)) / m;
    let mut list = Vec::with_capacity(alloc, count)?;
    for k in 0..count {
        list.push(values.get(j + k * m).copied().unwrap_or(0))?;
    }
    Ok(list)
}

/// So many values as memory may hold, or none where there are more.
pub(crate) fn held_count(count: u128) -> Option<usize>
    ensures { IfSome result (λ held. held ≡ count) }
{
    if count > usize::MAX as u128 {
        return None;
    }
    Some(count as usize)
}

/// Entry number `n` of a list, 0 past its end.
fn entry_of(list: &[i64], n: usize) -> i64
    ensures { result ≡ entry list.now n }
{
    list.get(n).copied().unwrap_or(0)
}

/// Entry number `n` of list number `k`, 0 where there is none.
fn entry_at(lists: &[&[i64]], k: usize, n: usize) -> i64
    ensures { result ≡ entry (get_or (map (λ l. l.now) lists.now) k []) n }
{
    match lists.get(k) {
        Some(list) => entry_of(list, n),
        None => 0,
    }
}

/// Takes entry 0 of each list in turn, then entry 1, and so on, `count` in all.
pub fn in_turn_list(alloc: Global, lists: &[&[i64]], count: u128) -> Result<Vec<i64>, AllocError>
    requires some { 1 ≤ length lists.now }
    requires sends { All (λ l. AreSends l.now) lists.now }
    ensures ok { IfOk result (λ list. list.items ≡ in_turn (map (λ l. l.now) lists.now) count) }
    ensures sends { IfOk result (λ list. AreSends list.items) }
{
    let Some(count) = held_count(count) else {
        return Err(AllocError);
    };
    let mut list = Vec::with_capacity(alloc, count)?;
    for i in 0..count {
        list.push(entry_at(lists, i % lists.len(), i / lists.len()))?;
    }
    Ok(list)
}

/// Makes `mul * x - e`, entry by entry, or finds the first step at which it is out of range.
pub fn mixed_list(alloc: Global, mul: i64, xs: &[i64], es: &[i64]) -> Result<Vec<i64>, ListFault>
    ensures ok { IfOk result (λ list. list.items ≡ mixed mul xs.now es.now) }
    ensures sends { IfOk result (λ list. AreSends list.items) }
    ensures in_range { IfOk result (λ list.
        position_from is_out_of_range 0 (mixed mul xs.now es.now) ≡ None) }
    ensures too_big { (step : ℕ) → result ≡ Err (ListFault.TooBig step)
        → position_from is_out_of_range 0 (mixed mul xs.now es.now) ≡ Some step }
{
    let Ok(mut list) = Vec::with_capacity(alloc, xs.len()) else {
        return Err(ListFault::OutOfMemory);
    };
    for (step, x) in xs.iter().enumerate() {
        let Ok(y) = Peer::mix(mul, *x, entry_of(es, step)) else {
            return Err(ListFault::TooBig(step));
        };
        let Ok(()) = list.push(y) else {
            return Err(ListFault::OutOfMemory);
        };
    }
    Ok(list)
}
