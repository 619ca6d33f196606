//! A registration's next phase, by one call.
ghost use Rattle.std.specs.Prelude.{◌≡◌, ◌≢◌, true, Some, None, Ok, Err, IfSome, IfNone, is_ok, ◌&&◌};
ghost use Rattle.phase_base.specs.Modes.{mode_signals, mode_waits};
ghost use Rattle.phase_shared.specs.Rule.{IsGoodAt};
ghost use Rattle.phase_shared.specs.Regs.{phaser_lock, phaser_terms, phaser_limits};
ghost use Rattle.phase_shared.specs.Calls.{IsCall, Waits, MaySignal, HeldAfter};
ghost use Rattle.phase_shared.specs.Entries.{entry_after_wait, entry_after_next};
ghost use Rattle.phase_shared.specs.Nexts.{GoesOrRefuses};
ghost use Rattle.phase_shared.specs.Servings.{IsRequestOf};

use crate::held::Held;
use crate::lane_words::LANES;
use crate::patience::Patience;
use crate::phaser::Phaser;
use crate::reg::{Reg, taken};
use crate::rule::SignalRule;
use crate::seats::nexts;
use crate::seats::request::Request;
use crate::tried::Tried;
use phase_accum::{Accumulate, Single};
use phase_core::{Got, SignalRefusal};
use std::marker::Brand;
use std::sync::Wait;

/// What a registration did in a phase.
#[derive(Clone, Copy, Debug, PartialEq, Eq)]
pub struct Next {
    /// The phase that it signalled, where its mode signals.
    pub signalled: Option<u64>,
    /// What it got, where its mode waits.
    pub got: Option<Got>,
}

impl<A: Accumulate, K: SignalRule> Reg<A, K> {
    /// Signals where its mode signals, as `signal` does, and then waits where its mode waits, as
    /// `wait` does. It waits as these do. It takes no memory, and one turn for both where its
    /// signal completes the phase, or none where another's turn makes both.
    ///
    /// It is refused as `signal` is, though never as `NoSignal`, and then signalled nothing. In the
    /// mode `Wait` it is refused where a single is named, as `NotSingle`.
    pub fn next<W: Wait>(
        &mut self,
        rt: &W,
        phaser: &Phaser<A, K>,
        single: Option<Single>,
    ) -> Result<Next, SignalRefusal>
        requires at { self.old.at ≡ phaser_lock phaser.now }
        requires rule { mode_signals self.old.entry.mode ≡ true
            → MaySignal A.operation K.allows (phaser_terms phaser.now) self.old single }

        ensures call { let old = self.old in
            IsCall K.allows (phaser_terms phaser.now) SignalRefusal.NoTask entry_after_next
            (GoesOrRefuses A.operation (phaser_limits phaser.now) single old self.new.seen result)
            old self.new result }
        ensures waited { result ≢ Err SignalRefusal.Ahead }
        // A registration that does not signal keeps what it holds.
        ensures held { HeldAfter A.operation (is_ok result && mode_signals self.old.entry.mode)
            self.old.held self.new.held }
    {
        if !self.mode().signals() {
            if single.is_some() {
                self.look();
                return Err(SignalRefusal::NotSingle);
            }
            let got = self.wait_in_turn(rt, phaser);
            return Ok(Next {
                signalled: None,
                got: Some(got),
            });
        }
        if let Some(request) = self.request(phaser, single) {
            return self.ask_next(rt, phaser, request);
        }
        self.next_by_turns(rt, phaser, single)
    }

    // The same by its own turns, where its mode signals.
    fn next_by_turns<W: Wait>(
        &mut self,
        rt: &W,
        phaser: &Phaser<A, K>,
        single: Option<Single>,
    ) -> Result<Next, SignalRefusal>
        requires at { self.old.at ≡ phaser_lock phaser.now }
        requires signals { mode_signals self.old.entry.mode ≡ true }
        requires rule { MaySignal A.operation K.allows (phaser_terms phaser.now) self.old single }
        ensures call { let old = self.old in
            IsCall K.allows (phaser_terms phaser.now) SignalRefusal.NoTask entry_after_next
            (GoesOrRefuses A.operation (phaser_limits phaser.now) single old self.new.seen result)
            old self.new result }
        ensures waited { result ≢ Err SignalRefusal.Ahead }
        ensures held { HeldAfter A.operation (is_ok result) self.old.held self.new.held }
    {
        let waits = self.mode().waits();
        let (phase, got) = match self.signal_and_wait(rt, phaser, single, waits) {
            Ok(answer) => answer,
            Err(refusal) => return Err(refusal),
        };
        if !waits || got.is_some() {
            return Ok(Next {
                signalled: Some(phase),
                got,
            });
        }
        let _mode = self.mode();
        let got = self.wait_in_turn(rt, phaser);
        Ok(Next {
            signalled: Some(phase),
            got: Some(got),
        })
    }

    // What it asks others for, where it may be able to: it waits too, and names no single; it got a
    // lane, and stands before its next phase; and a word says what it holds. Where it is alone, it
    // asks nobody.
    pub(crate) fn request(&self, phaser: &Phaser<A, K>, single: Option<Single>) -> Option<Request>
        ensures request { IfSome result (λ r. IsRequestOf A.operation r self.now) }
        ensures waits { IfSome result (λ r. mode_waits self.now.entry.mode ≡ true) }
        ensures single { IfSome result (λ r. single ≡ None) }
    {
        if single.is_some() || !self.mode().waits() {
            return None;
        }
        let phase = self.entry.signal_phase;
        let send = self.pending.word()?;
        let lane = self.spins.lane();
        if phaser.locked.hints.is_alone() || lane >= LANES || phase == u64::MAX {
            return None;
        }
        if self.entry.wait_phase != phase || self.number == u64::MAX {
            return None;
        }
        Some(Request {
            task: self.number,
            lane,
            phase,
            send,
        })
    }

    // Goes to its next phase, where it can ask others, and else by its own turns. It tries again
    // where it is ahead.
    fn ask_next<W: Wait>(
        &mut self,
        rt: &W,
        phaser: &Phaser<A, K>,
        request: Request,
    ) -> Result<Next, SignalRefusal>
        requires at { self.old.at ≡ phaser_lock phaser.now }
        requires both { (mode_signals self.old.entry.mode ≡ true)
            × (mode_waits self.old.entry.mode ≡ true) }
        requires request { IsRequestOf A.operation request self.old }
        requires rule { MaySignal A.operation K.allows (phaser_terms phaser.now) self.old None }
        ensures call { let old = self.old in
            IsCall K.allows (phaser_terms phaser.now) SignalRefusal.NoTask entry_after_next
            (GoesOrRefuses A.operation (phaser_limits phaser.now) None old self.new.seen result)
            old self.new result }
        ensures waited { result ≢ Err SignalRefusal.Ahead }
        ensures held { HeldAfter A.operation (is_ok result) self.old.held self.new.held }
    {
        let patience = Patience::new();
        for _ in rt.forever() {
            let refusal = match self.ask_once(rt, phaser, request) {
                Some(Ok(next)) => return Ok(next),
                Some(Err(refusal)) => refusal,
                None => return self.next_by_turns(rt, phaser, None),
            };
            let SignalRefusal::Ahead = refusal else {
                return Err(refusal);
            };
            let tried = Tried::Refused(refusal);
            self.pause_for_room(rt, phaser, 1, &patience, tried);
        }
        unreachable!()
    }

    // Goes to its next phase, or is refused as a signal is. It does nothing where its lane is not
    // its own, and knows that it has none then.
    fn ask_once<W: Wait>(
        &mut self,
        rt: &W,
        phaser: &Phaser<A, K>,
        request: Request,
    ) -> Option<Result<Next, SignalRefusal>>
        requires at { self.old.at ≡ phaser_lock phaser.now }
        requires both { (mode_signals self.old.entry.mode ≡ true)
            × (mode_waits self.old.entry.mode ≡ true) }
        requires request { IsRequestOf A.operation request self.old }
        requires rule { MaySignal A.operation K.allows (phaser_terms phaser.now) self.old None }
        ensures call { let old = self.old in IfSome result (λ answer.
            IsCall K.allows (phaser_terms phaser.now) SignalRefusal.NoTask entry_after_next
            (GoesOrRefuses A.operation (phaser_limits phaser.now) None old self.new.seen answer)
            old self.new answer) }
        ensures held { IfSome result (λ answer.
            HeldAfter A.operation (is_ok answer) self.old.held self.new.held) }
        ensures none { IfNone result (self.new ≡ self.old) }
    {
        let seat = taken(&mut self.seat);
        let (seat, answer) = nexts::next::<A, K, Brand, W>(
            rt,
            &phaser.locked,
            seat,
            request,
            &mut self.spins,
        );
        self.seat = Some(seat);
        let Some(answer) = answer else {
            self.spins.lodged(LANES);
            return None;
        };
        let outcome = match answer {
            Ok(outcome) => outcome,
            Err(refused) => return Some(Err(refused)),
        };
        let phase = request.phase;
        self.entry.signal_phase = phase + 1;
        self.entry.wait_phase = phase + 1;
        self.pending = Held::new();
        Some(Ok(Next {
            signalled: Some(phase),
            got: Some(Got::Value { phase, outcome }),
        }))
    }

    // Waits where nothing but time can be in the way.
    fn wait_in_turn<W: Wait>(&mut self, rt: &W, phaser: &Phaser<A, K>) -> Got
        requires at { self.old.at ≡ phaser_lock phaser.now }
        requires waits { mode_waits self.old.entry.mode ≡ true }
        requires signalled { mode_signals self.old.entry.mode ≡ true
            → self.old.entry.signal_phase ≢ self.old.entry.wait_phase }
        ensures call { let old = self.old in
            Waits A.operation.value (phaser_limits phaser.now) old.number old.seen self.new.seen
            (Ok result) }
        ensures entry { self.new.entry ≡ entry_after_wait (Some result) self.old.entry }
        ensures at { (self.new.at ≡ self.old.at) × (self.new.number ≡ self.old.number) }
        ensures held { self.new.held ≡ self.old.held }
        ensures good { IsGoodAt K.allows (phaser_terms phaser.now) self.new.seen }
    {
        let _mode = self.mode();
        match self.wait(rt, phaser) {
            Ok(got) => got,
            Err(_) => unreachable!(),
        }
    }
}
