//! The rule of the bus: task 1 alone signals, and names no single.
ghost use Rattle.std.specs.Prelude.{◌≡◌, map};
ghost use Rattle.std.specs.List.{range_with_len};
ghost use Rattle.phase_base.specs.Limits.{Limits};
ghost use Rattle.phase_accum.specs.Values.{sum_value};
ghost use Rattle.phase_history.specs.Histories.{History, HasNoSignaller, done_of};
ghost use Rattle.phase_history.specs.Legal.{IsLegal};
ghost use Rattle.phase_history.specs.Phases.{stream_of};
ghost use Rattle.phase_history.specs.Sent.{sent_in};
ghost use Rattle.phase_shared.specs.Rule.{Keeps};
ghost use Rattle.two_threads_by_blocks.specs.Sent.{allows_one, by_one};

use phase_history::laws;
use phase_shared::SignalRule;

/// Task 1 alone signals, and names no single.
#[derive(Clone, Copy, Debug, PartialEq, Eq)]
pub struct ByOne;

impl SignalRule for ByOne {
    ghost allows = { allows_one };
}

/// Where the rule was kept and the stream has ended, it is what task 1 sent, phase by phase.
pub fn only_one_sends()
    ensures { (limits : Limits) (h : History) → IsLegal limits h → Keeps by_one h → HasNoSignaller h
        → stream_of sum_value h
        ≡ map (λ p. sum_value (sent_in h 1 p)) (range_with_len 0 (done_of h)) }
{
    laws::one_sender();
    laws::each_phase_is_named();
    laws::all_dropped();
}
