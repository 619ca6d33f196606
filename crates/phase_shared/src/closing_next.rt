//! A registration's next phase, where its calls wait no longer than until the phaser is closed.
ghost use Rattle.std.specs.Prelude.{◌≡◌, ◌≢◌, ◌&&◌, true, Err, is_ok};
ghost use Rattle.phase_base.specs.Modes.{mode_signals, mode_waits};
ghost use Rattle.phase_shared.specs.Rule.{IsGoodAt};
ghost use Rattle.phase_shared.specs.Regs.{phaser_lock, phaser_terms, phaser_limits};
ghost use Rattle.phase_shared.specs.Calls.{IsCall, MaySignal, HeldAfter};
ghost use Rattle.phase_shared.specs.Entries.{entry_after_wait, entry_after_next};
ghost use Rattle.phase_shared.specs.Closings.{GoesOrStops, WaitsOrStops, unclosed};

use crate::next::Next;
use crate::phaser::Phaser;
use crate::reg::Reg;
use crate::rule::SignalRule;
use crate::stopped::Stopped;
use phase_accum::{Accumulate, Single};
use phase_core::{Got, SignalRefusal};
use std::sync::Wait;

impl<A: Accumulate, K: SignalRule> Reg<A, K> {
    /// Signals and then waits, by a turn for each, where `next` does. It waits as `next` does, but
    /// no longer than until the phaser is closed, and takes no memory. Where its signal is ahead
    /// then, it is answered `Closed`, and signalled nothing; where its phase is not complete then,
    /// it signalled and got nothing.
    pub fn next_or_closed<W: Wait>(
        &mut self,
        rt: &W,
        phaser: &Phaser<A, K>,
        single: Option<Single>,
    ) -> Result<Next, Stopped<SignalRefusal>>
        requires at { self.old.at ≡ phaser_lock phaser.now }
        requires rule { mode_signals self.old.entry.mode ≡ true
            → MaySignal A.operation K.allows (phaser_terms phaser.now) self.old single }

        ensures call { let old = self.old in
            let answer = unclosed SignalRefusal.Ahead result in
            IsCall K.allows (phaser_terms phaser.now) SignalRefusal.NoTask entry_after_next
            (GoesOrStops A.operation (phaser_limits phaser.now) single old self.new.seen answer)
            old self.new answer }
        ensures waited { result ≢ Err (Stopped.Refused SignalRefusal.Ahead) }
        // A registration that does not signal keeps what it holds.
        ensures held { HeldAfter A.operation (is_ok result && mode_signals self.old.entry.mode)
            self.old.held self.new.held }
    {
        if !self.mode().signals() {
            if single.is_some() {
                self.look();
                return Err(Stopped::Refused(SignalRefusal::NotSingle));
            }
            let got = self.get_or_closed(rt, phaser);
            return Ok(Next {
                signalled: None,
                got,
            });
        }
        let phase = match self.signal_or_closed(rt, phaser, single) {
            Ok(phase) => phase,
            Err(stopped) => return Err(stopped),
        };
        let signalled = Some(phase);
        if !self.mode().waits() {
            return Ok(Next {
                signalled,
                got: None,
            });
        }
        let got = self.get_or_closed(rt, phaser);
        Ok(Next { signalled, got })
    }

    // Waits where nothing but time can be in the way, and gets nothing where the phaser is closed
    // before its phase is complete.
    fn get_or_closed<W: Wait>(&mut self, rt: &W, phaser: &Phaser<A, K>) -> Option<Got>
        requires at { self.old.at ≡ phaser_lock phaser.now }
        requires waits { mode_waits self.old.entry.mode ≡ true }
        requires signalled { mode_signals self.old.entry.mode ≡ true
            → self.old.entry.signal_phase ≢ self.old.entry.wait_phase }
        ensures call { let old = self.old in
            WaitsOrStops true A.operation.value (phaser_limits phaser.now) old.number old.seen
            self.new.seen result }
        ensures entry { self.new.entry ≡ entry_after_wait result self.old.entry }
        ensures at { (self.new.at ≡ self.old.at) × (self.new.number ≡ self.old.number) }
        ensures held { self.new.held ≡ self.old.held }
        ensures good { IsGoodAt K.allows (phaser_terms phaser.now) self.new.seen }
    {
        let _mode = self.mode();
        match self.wait_or_closed(rt, phaser) {
            Ok(got) => Some(got),
            Err(Stopped::Closed) => None,
            Err(Stopped::Refused(_)) => unreachable!(),
        }
    }
}
