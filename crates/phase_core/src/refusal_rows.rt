//! The refusals of a signal and of a wait by a task with a given entry.
ghost use Rattle.std.specs.Prelude.{◌≡◌, None, []};
ghost use Rattle.phase_history.specs.Refusals.{signal_rows_before, phase_rows, wait_rows_at};
ghost use Rattle.phase_base.specs.Lists.{first_row};
ghost use Rattle.phase_core.specs.Rows.{refusal_of};

use phase_accum::Single;
use phase_base::{Entry, Mode, Spec};
use phase_history::{SignalRefusal, WaitRefusal};
use phase_ring::MergeRefusal;

/// The first refusal of a signal of so many phases that does not look at its phases.
pub fn block_refusal(
    spec: Spec,
    phases: u64,
    single: &Option<Single>,
    entry: Entry,
) -> Option<SignalRefusal>
    ensures { result ≡ first_row (signal_rows_before spec phases single.now entry []) }
{
    if !entry.mode.signals() {
        return Some(SignalRefusal::NoSignal);
    }
    if single.is_some() && entry.mode != Mode::Single {
        return Some(SignalRefusal::NotSingle);
    }
    (phases == 0 || phases > spec.bound()).then_some(SignalRefusal::BadBlock)
}

/// The first refusal of a signal in the phase of the entry that does not look into the phase.
/// `slowest` is the least wait phase of the waiters.
pub fn early_refusal(spec: Spec, slowest: Option<u64>, entry: Entry) -> Option<SignalRefusal>
    // A signal of no send meets no refusal in a phase that no signal has joined.
    ensures { result ≡ first_row (phase_rows spec slowest 0 None 0 None entry) }
{
    let _bound = spec.bound();
    let phase = entry.signal_phase;
    if entry.mode.waits() && phase.checked_sub(entry.wait_phase) == Some(1) {
        return Some(SignalRefusal::SignalTwice);
    }
    if phase >= spec.phases_max() {
        return Some(SignalRefusal::Spent);
    }
    let slowest = slowest?;
    (phase.saturating_sub(slowest) >= spec.bound()).then_some(SignalRefusal::Ahead)
}

/// The refusal of a signal whose sends do not join its phase.
pub fn phase_refusal(refusal: MergeRefusal) -> SignalRefusal
    ensures { result ≡ refusal_of refusal }
{
    match refusal {
        MergeRefusal::SingleDiffers => SignalRefusal::SingleDiffers,
        MergeRefusal::PhaseFull => SignalRefusal::PhaseFull,
    }
}

/// The first refusal of a wait for at most so many phases, in the order of the table. `done` is the
/// first phase that is not complete.
pub fn wait_refusal(
    spec: Spec,
    done: u64,
    has_signaller: bool,
    phases: u64,
    entry: Entry,
) -> Option<WaitRefusal>
    ensures { result ≡ first_row (wait_rows_at spec done has_signaller phases entry) }
{
    if !entry.mode.waits() {
        return Some(WaitRefusal::NoWait);
    }
    if phases == 0 || phases > spec.bound() {
        return Some(WaitRefusal::BadBlock);
    }
    if entry.mode.signals() && entry.signal_phase == entry.wait_phase {
        return Some(WaitRefusal::SignalFirst);
    }
    (done <= entry.wait_phase && has_signaller).then_some(WaitRefusal::NotYet)
}
