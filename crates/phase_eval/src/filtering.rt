//! The lists of filters, of which several threads make a part each.
ghost use Rattle.std.specs.Prelude.{◌≡◌, ◌≤◌, ◌<◌, length, IfSome, IfOk, IsTrue, None};
ghost use Rattle.std.specs.List.{All, position_from};
ghost use denote.Param.Send.{IsSync};
ghost use Rattle.stream_eval.specs.Parts.{ArePart};
ghost use Rattle.stream_filters.specs.Filter.{AreTaps, outputs};
ghost use Rattle.stream_lists.specs.Ranges.{is_out_of_range};
ghost use Rattle.phase_eval.specs.FilterParts.{IsFilterPart};

use crate::rounds::Round;
use crate::texts::{ByThreads, VALUES_MIN};
use std::alloc::Global;
use std::thread::{self, Threads};
use stream_eval::{FilterLists, filter_part, parts_follow};
use stream_filters::{FilterFault, Form, filter_list, laws};

/// How many outputs each thread makes of a round: what they made stands twice until its end.
const VALUES_ROUND: usize = 131_072;

/// The outputs of a filter from one place up to another.
#[derive(Drop)]
struct FilterPart {
    from: usize,
    to: usize,
    values: Vec<i64>,
}

impl<H: Threads + Sync> FilterLists for ByThreads<'_, H> {
    ghost may_filter = { λ _. IsSync H.row };

    fn filtered(
        &self,
        alloc: Global,
        taps: &[i64],
        form: Form,
        samples: &[i64],
    ) -> Result<Vec<i64>, FilterFault> {
        // Lent, of which each call below gets a copy.
        let form = &form;
        if self.parts(samples.len(), VALUES_MIN) > 1 {
            if let Some(values) = self.filter(taps, *form, samples) {
                return Ok(values);
            }
        }
        filter_list(alloc, taps, *form, samples)
    }
}

impl<H: Threads + Sync> ByThreads<'_, H> {
    /// The outputs of a filter at all samples, or nothing where one is out of range, or memory was
    /// refused.
    fn filter(&self, taps: &[i64], form: Form, samples: &[i64]) -> Option<Vec<i64>>
        requires sync { IsSync H.row }
        requires taps { AreTaps taps.now form }
        ensures made { IfSome result (λ list. list.items ≡ outputs taps.now form samples.now) }
        ensures in_range { IfSome result (λ list.
            position_from is_out_of_range 0 (outputs taps.now form samples.now) ≡ None) }
    {
        let form = &form;
        parts_follow();
        laws::outputs_entries();
        let Ok(mut values) = Vec::with_capacity(self.alloc, samples.len()) else {
            return None;
        };
        let size = self.threads.clamp(1, 16) * VALUES_ROUND;
        let mut from = 0;
        while from < samples.len() {
            let to = from + size.min(samples.len() - from);
            let parts = self.parts(to - from, VALUES_MIN).max(1);
            let round = Round { from, to, parts };
            if !self.filter_round(taps, *form, samples, round, &mut values) {
                return None;
            }
            from = to;
        }
        Some(values)
    }

    /// Puts the outputs of a round behind those before it, and answers whether all of them are in
    /// range, and there was memory.
    fn filter_round(
        &self,
        taps: &[i64],
        form: Form,
        samples: &[i64],
        round: Round,
        values: &mut Vec<i64>,
    ) -> bool
        requires sync { IsSync H.row }
        requires taps { AreTaps taps.now form }
        requires order { round.from ≤ round.to }
        requires within { round.to ≤ length samples.now }
        requires before { ArePart (outputs taps.now form samples.now) 0 round.from
            values.old.items }
        ensures { IsTrue result
            → ArePart (outputs taps.now form samples.now) 0 round.to values.new.items }
    {
        let alloc = self.alloc;
        let form = &form;
        let filter = |k: usize| part_of(alloc, taps, *form, samples, round, k);
        match thread::map_indices(self.rt, alloc, round.parts, &filter) {
            Ok(parts) => join(taps, *form, samples, round, parts, values),
            Err(_) => false,
        }
    }
}

/// The outputs at part `k` of a round, or nothing where one is out of range, or memory was refused.
fn part_of(
    alloc: Global,
    taps: &[i64],
    form: Form,
    samples: &[i64],
    round: Round,
    k: usize,
) -> Option<FilterPart>
    requires taps { AreTaps taps.now form }
    requires order { round.from ≤ round.to }
    requires within { round.to ≤ length samples.now }
    ensures { IfSome result (IsFilterPart (outputs taps.now form samples.now)) }
{
    laws::outputs_entries();
    let from = round.begin(k);
    let to = round.begin(k.saturating_add(1));
    if from > to {
        return None;
    }
    match filter_part(alloc, taps, form, samples, from, to) {
        Some(values) => Some(FilterPart { from, to, values }),
        None => None,
    }
}

/// Puts the outputs of parts behind those before, where they follow one another and are the whole
/// round, and answers whether they do, and there was memory. Each part's memory is given back as
/// soon as its outputs stand there.
fn join(
    taps: &[i64],
    form: Form,
    samples: &[i64],
    round: Round,
    parts: Vec<Option<FilterPart>>,
    values: &mut Vec<i64>,
) -> bool
    requires parts { All (λ part. IfSome part (IsFilterPart (outputs taps.now form samples.now)))
        parts.items }
    requires before { ArePart (outputs taps.now form samples.now) 0 round.from values.old.items }
    ensures { IsTrue result
        → ArePart (outputs taps.now form samples.now) 0 round.to values.new.items }
{
    parts_follow();
    let mut at = round.from;
    for part in parts {
        let Some(part) = part else {
            return false;
        };
        if part.from != at || values.extend_from_slice(&part.values).is_err() {
            return false;
        }
        at = part.to;
    }
    at == round.to
}
