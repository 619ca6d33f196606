//! Blocks of signals that wait no longer than until the phaser is closed.
ghost use Rattle.std.specs.Prelude.{◌≡◌, ◌≢◌, Err, IfErr, length};
ghost use Rattle.phase_shared.specs.Regs.{phaser_lock, phaser_terms, phaser_limits};
ghost use Rattle.phase_shared.specs.Calls.{IsCall};
ghost use Rattle.phase_shared.specs.Blocks.{SignalsBlock, MaySignalBlock, entry_after_block, without_lists};
ghost use Rattle.phase_shared.specs.Closings.{unclosed};

use crate::phaser::Phaser;
use crate::reg::Reg;
use crate::rule::SignalRule;
use crate::stopped::Stopped;
use crate::until::Until;
use phase_accum::{Accumulate, Pending, Single};
use phase_core::SignalRefusal;
use std::sync::Wait;

impl<A: Accumulate, K: SignalRule> Reg<A, K> {
    /// Signals a block as `signal_block` does. It waits as `signal_block` does, but no longer than
    /// until the phaser is closed, and takes no memory. Where a phase of the block is ahead then,
    /// it is answered `Closed`, signals nothing, and hands all its sends back in their order.
    pub fn signal_block_or_closed<W: Wait>(
        &mut self,
        rt: &W,
        phaser: &Phaser<A, K>,
        lists: Vec<Pending<A>>,
        single: Option<Single>,
    ) -> Result<u64, (Stopped<SignalRefusal>, Vec<Pending<A>>)>
        requires at { self.old.at ≡ phaser_lock phaser.now }
        requires none_held { self.old.held.count ≡ 0 }
        requires rule { MaySignalBlock A.operation K.allows (phaser_terms phaser.now) self.old
            lists.items single }

        ensures call { let old = self.old in
            let answer = unclosed SignalRefusal.Ahead (without_lists result) in
            IsCall K.allows (phaser_terms phaser.now) SignalRefusal.NoTask
            (entry_after_block (length lists.items)) (SignalsBlock A.operation
            (phaser_limits phaser.now) old.number lists.items single old.seen self.new.seen
            answer) old self.new answer }
        ensures waited { without_lists result ≢ Err (Stopped.Refused SignalRefusal.Ahead) }
        ensures held { self.new.held ≡ self.old.held }
        ensures lists { IfErr result (λ stopped. stopped.1 ≡ lists) }
    {
        match self.signal_lists_or_closed(rt, phaser, &lists, single) {
            Ok(phase) => Ok(phase),
            Err(stopped) => Err((stopped, lists)),
        }
    }

    /// The same as `signal_block_or_closed`, where the sends are lent.
    pub fn signal_lists_or_closed<W: Wait>(
        &mut self,
        rt: &W,
        phaser: &Phaser<A, K>,
        lists: &[Pending<A>],
        single: Option<Single>,
    ) -> Result<u64, Stopped<SignalRefusal>>
        requires at { self.old.at ≡ phaser_lock phaser.now }
        requires none_held { self.old.held.count ≡ 0 }
        requires rule { MaySignalBlock A.operation K.allows (phaser_terms phaser.now) self.old
            lists.now single }

        ensures call { let old = self.old in
            let answer = unclosed SignalRefusal.Ahead result in
            IsCall K.allows (phaser_terms phaser.now) SignalRefusal.NoTask
            (entry_after_block (length lists.now)) (SignalsBlock A.operation
            (phaser_limits phaser.now) old.number lists.now single old.seen self.new.seen answer)
            old self.new answer }
        ensures waited { result ≢ Err (Stopped.Refused SignalRefusal.Ahead) }
        ensures held { self.new.held ≡ self.old.held }
    {
        self.signal_lists_until(rt, phaser, lists, single, Until::Closed)
    }
}
