//! The list of a filter, which several threads may make, a part each.
ghost use Rattle.std.specs.Prelude.{◌≡◌, ◌≤◌, ℕ, ℤ, List, [], ◌++◌, length, drop, IfOk, IfSome, None, Some, Err, ⊤};
ghost use Rattle.std.specs.List.{position_from};
ghost use Rattle.stream_filters.specs.Filter.{AreTaps, outputs};
ghost use Rattle.stream_lists.specs.Ranges.{is_out_of_range};
ghost use Rattle.stream_eval.specs.Parts.{ArePart};

use std::alloc::Global;
use stream_filters::{FilterFault, Form, filter_list};

/// Who makes the list of a filter: one thread, or several.
pub trait FilterLists {
    /// What is asked for where they filter: of threads, that they may share what starts them.
    ghost may_filter: { Self → Type 0 } = { λ _. ⊤ };

    /// The outputs of a filter at each of these samples, as `filter_list` makes them.
    fn filtered(
        &self,
        alloc: Global,
        taps: &[i64],
        form: Form,
        samples: &[i64],
    ) -> Result<Vec<i64>, FilterFault>
        requires may { may_filter self.now }
        requires taps { AreTaps taps.now form }
        ensures ok { IfOk result (λ list. list.items ≡ outputs taps.now form samples.now) }
        ensures in_range { IfOk result (λ list.
            position_from is_out_of_range 0 (outputs taps.now form samples.now) ≡ None) }
        ensures too_big { (step : ℕ) → result ≡ Err (FilterFault.TooBig step)
            → position_from is_out_of_range 0 (outputs taps.now form samples.now) ≡ Some step };
}

/// One thread, which makes a list from its first output to its last.
pub struct InTurn;

impl FilterLists for InTurn {
    fn filtered(
        &self,
        alloc: Global,
        taps: &[i64],
        form: Form,
        samples: &[i64],
    ) -> Result<Vec<i64>, FilterFault> {
        filter_list(alloc, taps, form, samples)
    }
}

/// The outputs of a filter at the samples from one place up to another, or nothing where one is out
/// of range, or memory was refused, and of a filter that weighs what it put: each of its outputs
/// hangs on all before it.
pub fn filter_part(
    alloc: Global,
    taps: &[i64],
    form: Form,
    samples: &[i64],
    from: usize,
    to: usize,
) -> Option<Vec<i64>>
    requires taps { AreTaps taps.now form }
    requires order { from ≤ to }
    requires within { to ≤ length samples.now }
    ensures { IfSome result (λ values.
        ArePart (outputs taps.now form samples.now) from to values.items) }
{
    if form.again > 0 {
        return None;
    }
    let lead = from.min(form.delay + taps.len() - 1);
    match filter_list(alloc, taps, form, &samples[from - lead..to]) {
        Ok(list) => behind(alloc, &list, lead),
        Err(_) => None,
    }
}

/// A copy of the values behind the first ones, where there is memory for it.
fn behind(alloc: Global, values: &[i64], first: usize) -> Option<Vec<i64>>
    requires { first ≤ length values.now }
    ensures { IfSome result (λ copy. copy.items ≡ drop first values.now) }
{
    match Vec::from_slice(alloc, &values[first..]) {
        Ok(copy) => Some(copy),
        Err(_) => None,
    }
}

/// Parts of a list follow one another: there is one of no values, `none`; two parts are one, `two`;
/// and a part from the first value to the last is the list, none of whose values is out of range,
/// `whole`.
pub fn parts_follow()
    ensures none { (whole : List ℤ) (at : ℕ) → ArePart whole at at [] }
    ensures two { (whole : List ℤ) (from mid to : ℕ) (xs ys : List ℤ) → from ≤ mid → mid ≤ to
        → ArePart whole from mid xs → ArePart whole mid to ys
        → ArePart whole from to (xs ++ ys) }
    ensures whole { (whole values : List ℤ) → ArePart whole 0 (length whole) values
        → (values ≡ whole) × (position_from is_out_of_range 0 whole ≡ None) }
{}
