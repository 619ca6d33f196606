//! Samples that a caller lends, as the lists of a graph's sources.
ghost use Rattle.std.specs.Prelude.{◌≡◌, ◌≤◌, length, IfOk, IfSome, None};
ghost use Rattle.std.specs.List.{All, sum};
ghost use Rattle.phase_accum.specs.Sends.{AreSends};
ghost use Rattle.stream_lists.specs.JobFields.{items_of};
ghost use Rattle.phase_c.specs.Lent.{IsFirstNoSample, cut};

use phase_accum::NO_VALUE;
use std::alloc::{AllocError, Global};
use stream_lists::SAMPLES_MAX;

/// The place of the first number that is no sample.
pub(crate) fn first_no_sample(samples: &[i64]) -> Option<usize>
    ensures none { result ≡ None → AreSends samples.now }
    ensures some { IfSome result (λ at. IsFirstNoSample samples.now at) }
{
    for at in 0..samples.len() {
        if samples[at] == NO_VALUE {
            return Some(at);
        }
    }
    None
}

/// The lists that stand one behind the other in the samples, each as long as its count says.
pub(crate) fn lists_of(
    alloc: Global,
    samples: &[i64],
    counts: &[usize],
) -> Result<Vec<Vec<i64>>, AllocError>
    requires total { sum counts.now ≡ length samples.now }
    requires few { All (λ n. n ≤ SAMPLES_MAX) counts.now }
    requires sends { AreSends samples.now }
    ensures lists { IfOk result (λ lists. items_of lists.items ≡ cut counts.now samples.now) }
    ensures each { IfOk result (λ lists. length lists.items ≡ length counts.now) }
    ensures few { IfOk result (λ lists. All (λ list. length list.items ≤ SAMPLES_MAX) lists.items) }
    ensures sends { IfOk result (λ lists. All (λ list. AreSends list.items) lists.items) }
{
    let mut lists = Vec::with_capacity(alloc, counts.len())?;
    let mut rest = samples;
    for count in counts {
        let (first, behind) = rest.split_at(*count);
        let list = Vec::from_slice(alloc, first)?;
        lists.push(list)?;
        rest = behind;
    }
    Ok(lists)
}
