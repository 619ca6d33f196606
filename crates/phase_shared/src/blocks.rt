//! The calls of a registration on blocks of phases, and on a waiter that joins now, that wait for
//! nobody.
ghost use Rattle.std.specs.Prelude.{◌≡◌, ◌≤◌, IfErr, length};
ghost use Rattle.phase_accum.specs.Sends.{AreSends};
ghost use Rattle.phase_shared.specs.Regs.{phaser_lock, phaser_terms, phaser_limits};
ghost use Rattle.phase_shared.specs.Calls.{IsTry, Tries};
ghost use Rattle.phase_shared.specs.Entries.{entry_stays};
ghost use Rattle.phase_shared.specs.Blocks.{SignalsBlock, SignalsValues, WaitsBlock, MaySignalBlock, MaySignalValues, entry_after_block, entry_after_values, without_lists};
ghost use Rattle.phase_shared.specs.Joins.{RegistersNow};

use crate::held::Held;
use crate::phaser::Phaser;
use crate::reg::{Reg, taken};
use crate::rule::SignalRule;
use crate::seats::spins::Spins;
use crate::seats::{block_steps, join_steps};
use crate::tried::Tried;
use phase_accum::{Accumulate, Outcome, Pending, Single};
use phase_core::{GotBlock, RegisterRefusal, SignalRefusal, WaitRefusal};

impl<A: Accumulate, K: SignalRule> Reg<A, K> {
    /// Signals as many phases in a row as there are lists of sends, the first its own, a list each,
    /// with a single for all of them or none, and answers the first phase. A refused block signals
    /// nothing, and hands all its sends back in their order. It takes no memory.
    ///
    /// Nothing may be held.
    pub fn try_signal_block(
        &mut self,
        phaser: &Phaser<A, K>,
        lists: Vec<Pending<A>>,
        single: Option<Single>,
    ) -> Result<u64, (Tried<SignalRefusal>, Vec<Pending<A>>)>
        requires at { self.old.at ≡ phaser_lock phaser.now }
        requires none_held { self.old.held.count ≡ 0 }
        requires rule { MaySignalBlock A.operation K.allows (phaser_terms phaser.now) self.old
            lists.items single }

        ensures call { let old = self.old in
            IsTry K.allows (phaser_terms phaser.now) SignalRefusal.NoTask
            (entry_after_block (length lists.items)) (Tries (self.new ≡ old)
            (SignalsBlock A.operation (phaser_limits phaser.now) old.number lists.items single
            old.seen self.new.seen) (without_lists result)) old self.new (without_lists result) }
        ensures held { self.new.held ≡ self.old.held }
        ensures lists { IfErr result (λ refused. refused.1 ≡ lists) }
    {
        match self.try_signal_lists(phaser, &lists, single) {
            Ok(phase) => Ok(phase),
            Err(tried) => Err((tried, lists)),
        }
    }

    /// The same as `try_signal_block`, where the sends are lent.
    pub fn try_signal_lists(
        &mut self,
        phaser: &Phaser<A, K>,
        lists: &[Pending<A>],
        single: Option<Single>,
    ) -> Result<u64, Tried<SignalRefusal>>
        requires at { self.old.at ≡ phaser_lock phaser.now }
        requires none_held { self.old.held.count ≡ 0 }
        requires rule { MaySignalBlock A.operation K.allows (phaser_terms phaser.now) self.old
            lists.now single }

        ensures call { let old = self.old in
            IsTry K.allows (phaser_terms phaser.now) SignalRefusal.NoTask
            (entry_after_block (length lists.now)) (Tries (self.new ≡ old)
            (SignalsBlock A.operation (phaser_limits phaser.now) old.number lists.now single
            old.seen self.new.seen) result) old self.new result }
        ensures held { self.new.held ≡ self.old.held }
    {
        let seat = taken(&mut self.seat);
        let (seat, entry, answer) = block_steps::signal_lists(
            &phaser.locked,
            seat,
            self.number,
            self.entry,
            lists,
            single,
        );
        self.seat = Some(seat);
        self.entry = entry;
        answer
    }

    /// Signals as many phases in a row as there are values, the first its own, with one send each
    /// and a single for all of them or none, and answers the first phase. A refused block signals
    /// nothing. It takes no memory: the places have the sends where they are needed.
    ///
    /// Nothing may be held.
    pub fn try_signal_values(
        &mut self,
        phaser: &Phaser<A, K>,
        values: &[i64],
        single: Option<Single>,
        places: &mut [Pending<A>],
    ) -> Result<u64, Tried<SignalRefusal>>
        requires at { self.old.at ≡ phaser_lock phaser.now }
        requires none_held { self.old.held.count ≡ 0 }
        requires sends { AreSends values.now }
        requires room { length values.now ≤ length places.old }
        requires rule { MaySignalValues K.allows (phaser_terms phaser.now) self.old values.now
            single }

        ensures call { let old = self.old in
            IsTry K.allows (phaser_terms phaser.now) SignalRefusal.NoTask
            (entry_after_block (length values.now)) (Tries (self.new ≡ old)
            (SignalsValues (phaser_limits phaser.now) old.number values.now single old.seen
            self.new.seen) result) old self.new result }
        ensures held { self.new.held ≡ self.old.held }
        ensures places { length places.new ≡ length places.old }
    {
        let seat = taken(&mut self.seat);
        let (seat, entry, answer) = block_steps::signal_values(
            &phaser.locked,
            seat,
            self.number,
            self.entry,
            values,
            single,
            places,
        );
        self.seat = Some(seat);
        self.entry = entry;
        answer
    }

    /// Waits for its phase and those behind it that are complete, as many as there are places, and
    /// writes their values; or answers that no more will come. The places behind the values stay.
    /// It takes no memory.
    pub fn try_wait_block(
        &mut self,
        phaser: &Phaser<A, K>,
        out: &mut [Outcome],
    ) -> Result<GotBlock, Tried<WaitRefusal>>
        requires at { self.old.at ≡ phaser_lock phaser.now }

        ensures call { let old = self.old in
            IsTry K.allows (phaser_terms phaser.now) WaitRefusal.NoTask entry_after_values
            (Tries ((self.new ≡ old) × (out.new ≡ out.old))
            (WaitsBlock A.operation.value (phaser_limits phaser.now) old.number old.seen
            self.new.seen out.old out.new) result) old self.new result }
        ensures held { self.new.held ≡ self.old.held }
    {
        let seat = taken(&mut self.seat);
        let (seat, entry, answer) = block_steps::wait_block(
            &phaser.locked,
            seat,
            self.number,
            self.entry,
            out,
        );
        self.seat = Some(seat);
        self.entry = entry;
        answer
    }

    /// Registers a child as a waiter at the first phase that is not complete. The child has seen
    /// what its parent has, and holds no sends. Its refusals are those of `try_register` in the
    /// mode `Wait`. It may take memory.
    pub fn try_register_now(
        &mut self,
        phaser: &Phaser<A, K>,
    ) -> Result<Reg<A, K>, Tried<RegisterRefusal>>
        requires at { self.old.at ≡ phaser_lock phaser.now }

        ensures call { let old = self.old in
            IsTry K.allows (phaser_terms phaser.now) RegisterRefusal.NoTask entry_stays
            (Tries (self.new ≡ old) (RegistersNow A.operation old self.new) result) old self.new
            result }
        ensures held { self.new.held ≡ self.old.held }
    {
        let seat = taken(&mut self.seat);
        let (seat, answer) = join_steps::register_now(
            &phaser.locked,
            seat,
            self.number,
            self.entry,
        );
        self.seat = Some(seat);
        let made = match answer {
            Ok(made) => made,
            Err(tried) => return Err(tried),
        };
        phaser.locked.hints.came();
        Ok(Reg {
            seat: Some(made.1),
            number: made.0,
            entry: made.2,
            pending: Held::new(),
            spins: Spins::new(),
        })
    }
}
