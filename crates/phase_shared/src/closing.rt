//! An end for all: a phaser is closed, and the calls that wait no longer then.
ghost use Rattle.std.specs.Prelude.{◌≡◌, ◌≢◌, [], Err, OnOk, OnErr};
ghost use Rattle.phase_accum.specs.Parcels.{StandsForSends};
ghost use Rattle.phase_shared.specs.Regs.{phaser_lock, phaser_terms, phaser_limits};
ghost use Rattle.phase_shared.specs.Calls.{IsCall, Signals, Waits, MaySignal};
ghost use Rattle.phase_shared.specs.Entries.{entry_after_signal, entry_after_wait};
ghost use Rattle.phase_shared.specs.Blocks.{WaitsBlock, entry_after_values};
ghost use Rattle.phase_shared.specs.Closings.{unclosed};

use crate::phaser::Phaser;
use crate::reg::Reg;
use crate::rule::SignalRule;
use crate::stopped::Stopped;
use crate::until::Until;
use phase_accum::{Accumulate, Outcome, Single};
use phase_core::{Got, GotBlock, SignalRefusal, WaitRefusal};
use std::sync::Wait;

impl<A: Accumulate, K: SignalRule> Phaser<A, K> {
    /// Closes the phaser, for ever: those that wait by a call whose name ends in `_or_closed` come
    /// back, and no such call waits from now on. It takes no turn, makes no event, and every other
    /// call goes on as before: nothing that was sent or that is complete is lost.
    ///
    /// It is for a task that fails, for which the others would wait for ever.
    pub fn close(&self) {
        self.locked.hints.close::<K>();
    }

    /// Returns whether the phaser was closed. It takes no turn, and no contract speaks of it.
    pub fn is_closed(&self) -> bool {
        self.locked.hints.is_closed()
    }
}

impl<A: Accumulate, K: SignalRule> Reg<A, K> {
    /// Signals as `signal` does. It waits as `signal` does, but no longer than until the phaser is
    /// closed, and takes no memory. Where it is ahead then, it is answered `Closed`, signals
    /// nothing, and the sends stay held.
    pub fn signal_or_closed<W: Wait>(
        &mut self,
        rt: &W,
        phaser: &Phaser<A, K>,
        single: Option<Single>,
    ) -> Result<u64, Stopped<SignalRefusal>>
        requires at { self.old.at ≡ phaser_lock phaser.now }
        requires rule { MaySignal A.operation K.allows (phaser_terms phaser.now) self.old single }

        // It is a call as `signal` is, where `Closed` is told of one that is ahead.
        ensures call { let old = self.old in
            let answer = unclosed SignalRefusal.Ahead result in
            IsCall K.allows (phaser_terms phaser.now) SignalRefusal.NoTask entry_after_signal
            (Signals A.operation (phaser_limits phaser.now) old.number old.held single old.seen
            self.new.seen answer) old self.new answer }
        ensures waited { result ≢ Err (Stopped.Refused SignalRefusal.Ahead) }
        ensures none_held { OnOk result
            (StandsForSends A.operation self.new.held [] × (self.new.held.count ≡ 0)) }
        ensures held { OnErr result (self.new.held ≡ self.old.held) }
    {
        match self.signal_until(rt, phaser, single, false, Until::Closed) {
            Ok(answer) => Ok(answer.0),
            Err(stopped) => Err(stopped),
        }
    }

    /// Waits for its phase as `wait` does. It waits as `wait` does, but no longer than until the
    /// phaser is closed, and takes no memory. Then it gets its phase where that is complete, and is
    /// answered `Closed` where it is not.
    pub fn wait_or_closed<W: Wait>(
        &mut self,
        rt: &W,
        phaser: &Phaser<A, K>,
    ) -> Result<Got, Stopped<WaitRefusal>>
        requires at { self.old.at ≡ phaser_lock phaser.now }

        // It is a call as `wait` is, where `Closed` is told of a phase that is not complete.
        ensures call { let old = self.old in
            let answer = unclosed WaitRefusal.NotYet result in
            IsCall K.allows (phaser_terms phaser.now) WaitRefusal.NoTask entry_after_wait
            (Waits A.operation.value (phaser_limits phaser.now) old.number old.seen self.new.seen
            answer) old self.new answer }
        ensures waited { result ≢ Err (Stopped.Refused WaitRefusal.NotYet) }
        ensures held { self.new.held ≡ self.old.held }
    {
        self.wait_until(rt, phaser, Until::Closed)
    }

    /// Waits for a block as `wait_block` does. It waits as `wait_block` does, but no longer than
    /// until the phaser is closed, and takes no memory. Then it gets the phases that are complete,
    /// and is answered `Closed` where its own is not.
    pub fn wait_block_or_closed<W: Wait>(
        &mut self,
        rt: &W,
        phaser: &Phaser<A, K>,
        out: &mut [Outcome],
    ) -> Result<GotBlock, Stopped<WaitRefusal>>
        requires at { self.old.at ≡ phaser_lock phaser.now }

        ensures call { let old = self.old in
            let answer = unclosed WaitRefusal.NotYet result in
            IsCall K.allows (phaser_terms phaser.now) WaitRefusal.NoTask entry_after_values
            (WaitsBlock A.operation.value (phaser_limits phaser.now) old.number old.seen
            self.new.seen out.old out.new answer) old self.new answer }
        ensures waited { result ≢ Err (Stopped.Refused WaitRefusal.NotYet) }
        ensures held { self.new.held ≡ self.old.held }
    {
        self.wait_block_until(rt, phaser, out, Until::Closed)
    }
}
