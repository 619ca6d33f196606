//! The turn of a seat that asks: it signals for others, and waits for all where that completes its
//! phase.
ghost use Rattle.std.specs.Prelude.{◌≡◌, ◌<◌, ◌+◌, ◌^◌, ℕ, Bool, true};
ghost use Rattle.turn_lock.specs.Seats.{turn_view, turn_value};
ghost use Rattle.phase_shared.specs.Goods.{allows_or};
ghost use Rattle.phase_shared.specs.Servings.{HasToSignal, IsBetween, Serving, ServingOpen, Finished, IsPhaseDone};
ghost use Rattle.phase_shared.specs.Views.{known_of};

use crate::lane_words::{LANES, sends_of};
use crate::rule::SignalRule;
use crate::seats::desk::{FullTurn, OnTurn, OpenTurn};
use crate::seats::ghost_steps::Since;
use phase_accum::{Accumulate, Outcome};
use phase_core::{Got, PhaserCore};
use std::hint;

// Whether the task stands before the phase, which it has neither signalled nor waited for.
fn is_before<A: Accumulate>(core: &PhaserCore<A>, task: u64, phase: u64) -> bool
    ensures { result ≡ true → HasToSignal core.now.members task phase }
{
    match core.view(task) {
        Some(entry) => {
            entry.mode.signals() && entry.signal_phase == phase && entry.wait_phase == phase
        }
        None => false,
    }
}

// Whether the task has signalled the phase, and not waited for it.
fn is_between<A: Accumulate>(core: &PhaserCore<A>, task: u64, phase: u64) -> bool
    requires { phase + 1 < 2 ^ 64 }
    ensures { result ≡ true → IsBetween core.now.members task phase }
{
    match core.view(task) {
        Some(entry) => {
            entry.mode.signals() && entry.signal_phase == phase + 1 && entry.wait_phase == phase
        }
        None => false,
    }
}

impl<'a, A: Accumulate, K: SignalRule, S: Since<K>> OpenTurn<'a, A, K, S> {
    // Makes the signal that another task asks for in a lane, in this phase, where it does, and
    // tells whether it made one.
    fn signal_for(self, lane: u64) -> (OpenTurn<'a, A, K, S>, bool)
        requires low { lane < LANES }
    {
        let OpenTurn { on } = self;
        let request = on.of.request;
        if lane == request.lane {
            return (OpenTurn { on }, false);
        }
        let (on, found) = on.read_lane(lane);
        if found != request.phase + 1 {
            return (OpenTurn { on }, false);
        }
        let (on, owner) = on.read_owner(lane);
        let task = owner.saturating_sub(1);
        let (on, send) = on.read_send(lane);
        let OnTurn { of, mut turn } = on;
        let core = turn.value_in(&of.phaser.lock);
        if !is_before(core, task, request.phase) {
            let on = OnTurn { of, turn };
            return (OpenTurn { on }, false);
        }
        match core.signal(task, sends_of(send), None) {
            Ok(_phase) => {
                let on = OnTurn { of, turn };
                (OpenTurn { on }, true)
            }
            Err(_refused) => {
                let on = OnTurn { of, turn };
                (OpenTurn { on }, false)
            }
        }
    }

    // Makes the signals that others ask for in this phase, and tells whether it made one.
    fn signal_all(self) -> (OpenTurn<'a, A, K, S>, bool) {
        let lanes = self.on.of.phaser.hints.lanes();
        let mut open = self;
        let mut has_made = false;
        for lane in 0..lanes {
            let (next, is_made) = open.signal_for(lane);
            open = next;
            has_made |= is_made;
        }
        (open, has_made)
    }

    // The same turn, where its phase is complete.
    fn complete(self) -> Result<FullTurn<'a, A, K, S>, OpenTurn<'a, A, K, S>> {
        let OpenTurn { on } = self;
        let OnTurn { of, mut turn } = on;
        let done = turn.value_in(&of.phaser.lock).done();
        let phase = of.request.phase;
        let on = OnTurn { of, turn };
        if done > phase {
            Ok(FullTurn { on })
        } else {
            Err(OpenTurn { on })
        }
    }

    /// Makes the signals that others ask for while the phase is not complete, for one look and so
    /// many more.
    pub fn gather(self, looks: u32) -> Result<FullTurn<'a, A, K, S>, OpenTurn<'a, A, K, S>> {
        let mut open = self;
        for _ in 0..looks.saturating_add(1) {
            let next = match open.complete() {
                Ok(full) => return Ok(full),
                Err(next) => next,
            };
            let (next, has_made) = next.signal_all();
            open = next;
            if !has_made {
                hint::spin_loop();
            }
        }
        open.complete()
    }
}

impl<'a, A: Accumulate, K: SignalRule, S: Since<K>> OnTurn<'a, A, K, S> {
    // Makes the wait of another task that asked for this phase in a lane, where its signal was
    // made. It tells whether no ask for the phase is left there.
    fn wait_for(self, lane: u64) -> (OnTurn<'a, A, K, S>, bool)
        requires low { lane < LANES }
        requires serving { ServingOpen A.operation S.terms.limits
            (allows_or K.allows S.terms.rule) S.ask S.seen true (turn_view self.turn)
            (turn_value self.turn) }
        ensures serving { ServingOpen A.operation S.terms.limits (allows_or K.allows S.terms.rule)
            S.ask S.seen true (turn_view result.0.turn) (turn_value result.0.turn) }
        ensures served { result.1 ≡ true
            → Serving A.operation S.terms.limits (allows_or K.allows S.terms.rule) S.ask S.seen
            true lane (turn_view self.entry.turn) (turn_value self.entry.turn)
            → Serving A.operation S.terms.limits (allows_or K.allows S.terms.rule) S.ask S.seen
            true (lane + 1) (turn_view result.0.turn) (turn_value result.0.turn) }
    {
        let request = self.of.request;
        if lane == request.lane {
            return (self, true);
        }
        let (on, found) = self.read_lane(lane);
        if found != request.phase + 1 {
            return (on, true);
        }
        let (on, owner) = on.read_owner(lane);
        let task = owner.saturating_sub(1);
        let OnTurn { of, mut turn } = on;
        let core = turn.value_in(&of.phaser.lock);
        if !is_between(core, task, request.phase) {
            return (OnTurn { of, turn }, false);
        }
        match core.wait(task) {
            Ok(Got::Value { .. }) => (OnTurn { of, turn }, true),
            Ok(Got::Ended) => (OnTurn { of, turn }, false),
            Err(_refusal) => (OnTurn { of, turn }, false),
        }
    }

    /// Makes the waits of all others that asked for this phase, and tells whether none of them is
    /// left.
    pub fn wait_all(self) -> (OnTurn<'a, A, K, S>, bool)
        requires serving { ServingOpen A.operation S.terms.limits
            (allows_or K.allows S.terms.rule) S.ask S.seen true (turn_view self.turn)
            (turn_value self.turn) }
        ensures serving { ServingOpen A.operation S.terms.limits (allows_or K.allows S.terms.rule)
            S.ask S.seen true (turn_view result.0.turn) (turn_value result.0.turn) }
        ensures all { result.1 ≡ true
            → Serving A.operation S.terms.limits (allows_or K.allows S.terms.rule) S.ask S.seen
            true LANES (turn_view result.0.turn) (turn_value result.0.turn) }
    {
        let mut on = self;
        let mut is_all = true;
        for lane in 0..LANES {
            let (next, is_made) = on.wait_for(lane);
            on = next;
            is_all &= is_made;
        }
        (on, is_all)
    }

    /// Makes its own wait, for its phase, which is complete, and answers the value.
    pub fn wait_own(self) -> (OnTurn<'a, A, K, S>, Outcome)
        requires serving { (serves : Bool) × (k : ℕ)
            × (s : Serving A.operation S.terms.limits (allows_or K.allows S.terms.rule) S.ask
            S.seen serves k (turn_view self.turn) (turn_value self.turn)) × IsPhaseDone s }
        ensures knows { known_of (turn_view result.0.turn)
            ≡ known_of (turn_view self.entry.turn) }
        ensures finished { (serves : Bool) (k : ℕ)
            (s : Serving A.operation S.terms.limits (allows_or K.allows S.terms.rule) S.ask S.seen
            serves k (turn_view self.entry.turn) (turn_value self.entry.turn)) → IsPhaseDone s
            → Finished A.operation S.terms.limits (allows_or K.allows S.terms.rule) S.ask S.seen
            serves k result.1 (turn_view result.0.turn) (turn_value result.0.turn) }
    {
        let OnTurn { of, mut turn } = self;
        let core = turn.value_in(&of.phaser.lock);
        match core.wait(of.request.task) {
            Ok(Got::Value { outcome, .. }) => (OnTurn { of, turn }, outcome),
            Ok(Got::Ended) => unreachable!(),
            Err(_refusal) => unreachable!(),
        }
    }
}
