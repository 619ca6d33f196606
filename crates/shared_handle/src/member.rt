//! A registration that owns a share of its phaser.
ghost use Rattle.std.specs.Prelude.{◌≡◌, ◌≤◌, ℕ, Ok, IfOk, IfErr, IsOk, OnErr, length};
ghost use Rattle.phase_base.specs.declared.limits.TheConstants.{SENDS_MAX};
ghost use Rattle.phase_accum.specs.Sends.{AreSends};
ghost use Rattle.shared_handle.specs.Members.{IsInItsHistory, IsFounding, IsOnlyOne, HasLeft};
ghost use Rattle.shared_handle.specs.Calls.{SignalCall, NextCall, WaitCall, BlockSignalCall, BlockWaitCall, AddCall, AddNowCall, MissingCall};

use phase_accum::{Accumulate, Outcome, Pending, Single};
use phase_any::held;
use phase_base::{Entry, Mode, Spec};
use phase_core::{
    Got, GotBlock, NoTask, RegisterRefusal, SignalRefusal, Standing, WaitRefusal, hold_each,
};
use phase_shared::{Loose, Phaser, Tried, Unwoken};
use std::alloc::{AllocError, Global};
use std::marker::Model;
use std::sync::Arc;

/// A registration with its phaser, which lives as long as any of its registrations. Each call
/// answers at once, `Busy` where another registration is in the middle of a call.
///
/// It may be thrown away: then it stays registered.
#[derive(Drop)]
pub struct Member<A: Accumulate> {
    pub(crate) phaser: Arc<Phaser<A, Unwoken>, Global>,
    pub(crate) loose: Loose<A, Unwoken>,
}

impl<A: Accumulate> Model for Member<A> {
    ghost use Rattle.std.specs.Prelude.{◌≡◌};
    ghost use Rattle.std.specs.Arc.{arc_value};
    ghost use Rattle.phase_shared.specs.Regs.{phaser_lock};
    ghost use Rattle.shared_handle.specs.Members.{Registration, as_registration};

    ghost Value = { Registration };

    ghost view = { λ m. as_registration m.loose.reg };

    ghost invariant = { λ m. m.loose.reg.at ≡ phaser_lock (arc_value m.phaser) };
}

impl<A: Accumulate> Member<A> {
    /// Makes a phaser, and gives its founder.
    pub fn make(alloc: Global, limits: Spec) -> Result<Member<A>, AllocError>
        ensures { IfOk result (IsFounding limits) }
    {
        let (phaser, reg) = Phaser::make(alloc, limits, Unwoken)?;
        match Arc::new(alloc, phaser) {
            Ok(phaser) => Ok(Member {
                phaser,
                loose: Loose { reg },
            }),
            Err(failed) => {
                drop(Loose { reg });
                drop(failed.value);
                Err(AllocError)
            }
        }
    }

    /// Says what holds of it wherever it was kept meanwhile. It does nothing.
    pub fn look(&self)
        ensures { IsInItsHistory self.now }
    {
        self.loose.reg.look();
    }

    /// Returns its number, which nobody else has on its phaser.
    pub fn number(&self) -> u64
        ensures { result ≡ self.now.number }
    {
        self.loose.reg.number()
    }

    /// Returns its mode and its phases. It takes no turn.
    pub fn entry(&self) -> Entry
        ensures { result ≡ self.now.entry }
    {
        let (signal_phase, wait_phase) = self.loose.reg.phase();
        Entry {
            mode: self.loose.reg.mode(),
            signal_phase,
            wait_phase,
        }
    }

    /// Returns how far the phaser is, as far as the turns that have ended tell: `Phaser::told`.
    pub fn told(&self) -> (u64, u64) {
        self.phaser.told()
    }

    /// Signals its phase with these sends and a single or none, and answers that phase. It takes no
    /// memory.
    pub fn signal(
        &mut self,
        values: &[i64],
        single: Option<Single>,
    ) -> Result<u64, Tried<SignalRefusal>>
        requires sends { AreSends values.now }
        requires few { length values.now ≤ SENDS_MAX }
        ensures { SignalCall A.operation.value values.now single self.old self.new result }
    {
        self.loose.reg.hold_these(held(values));
        let phaser: &Phaser<A, Unwoken> = &self.phaser;
        self.loose.reg.try_signal(phaser, single)
    }

    /// Signals its phase, as `signal` does, and then waits where that is answered at once: both
    /// under one turn. It takes no memory.
    pub fn next(
        &mut self,
        values: &[i64],
        single: Option<Single>,
    ) -> Result<(u64, Option<Got>), Tried<SignalRefusal>>
        requires sends { AreSends values.now }
        requires few { length values.now ≤ SENDS_MAX }
        ensures { NextCall A.operation.value values.now single self.old self.new result }
    {
        self.loose.reg.hold_these(held(values));
        let phaser: &Phaser<A, Unwoken> = &self.phaser;
        self.loose.reg.try_signal_and_wait(phaser, single, true)
    }

    /// Signals as many phases in a row as there are values, its own first, with one send each and a
    /// single for all of them or none, and answers the first phase. A refused block signals
    /// nothing. It takes memory for the sends, and gives it back.
    pub fn signal_block(
        &mut self,
        alloc: Global,
        values: &[i64],
        single: Option<Single>,
    ) -> Result<Result<u64, Tried<SignalRefusal>>, AllocError>
        requires { AreSends values.now }
        ensures call { IfOk result (BlockSignalCall values.now single self.old self.new) }
        ensures err { OnErr result (self.new ≡ self.old) }
    {
        let mut places = vec![in alloc; Pending::new(); values.len()]?;
        hold_each(&mut places, values);
        self.loose.reg.hold_these(Pending::new());
        let phaser: &Phaser<A, Unwoken> = &self.phaser;
        Ok(self.loose.reg.try_signal_lists(phaser, &places, single))
    }

    /// Waits for its phase, and answers it with its value, or that no more will come. It takes no
    /// memory.
    pub fn wait(&mut self) -> Result<Got, Tried<WaitRefusal>>
        ensures { WaitCall A.operation.value self.old self.new result }
    {
        let phaser: &Phaser<A, Unwoken> = &self.phaser;
        self.loose.reg.try_wait(phaser)
    }

    /// Waits for its phase and those behind it that are complete, as many as there are places, and
    /// writes their values in the first places; or answers that no more will come. It takes no
    /// memory.
    pub fn wait_block(&mut self, out: &mut [Outcome]) -> Result<GotBlock, Tried<WaitRefusal>>
        ensures call { BlockWaitCall A.operation.value out.old out.new self.old self.new result }
        ensures few { (first many : ℕ) → result ≡ Ok (GotBlock.Values first many)
            → many ≤ length out.old }
    {
        let phaser: &Phaser<A, Unwoken> = &self.phaser;
        self.loose.reg.try_wait_block(phaser, out)
    }

    /// Registers a child in a mode that its own mode holds, at both of its phases. It may take
    /// memory; where there is none for a share of the phaser, it asks for nothing.
    pub fn add(
        &mut self,
        mode: Mode,
    ) -> Result<Result<Member<A>, Tried<RegisterRefusal>>, AllocError>
        ensures call { IfOk result (AddCall mode self.old self.new) }
        ensures err { OnErr result (self.new ≡ self.old) }
    {
        let phaser = Arc::try_clone(&self.phaser)?;
        match self.loose.reg.try_register(&self.phaser, mode) {
            Ok(reg) => Ok(Ok(Member {
                phaser,
                loose: Loose { reg },
            })),
            Err(tried) => Ok(Err(tried)),
        }
    }

    /// Registers a child in `Wait`, at the first phase that is not complete. Its own mode has to
    /// hold `Wait`. It may take memory, as `add` does.
    pub fn add_now(&mut self) -> Result<Result<Member<A>, Tried<RegisterRefusal>>, AllocError>
        ensures call { IfOk result (AddNowCall self.old self.new) }
        ensures err { OnErr result (self.new ≡ self.old) }
    {
        let phaser = Arc::try_clone(&self.phaser)?;
        match self.loose.reg.try_register_now(&self.phaser) {
            Ok(reg) => Ok(Ok(Member {
                phaser,
                loose: Loose { reg },
            })),
            Err(tried) => Ok(Err(tried)),
        }
    }

    /// Tells how its phaser stands, and writes who is missing into the first places, as many as
    /// there are of both. It takes no memory.
    pub fn missing(&mut self, places: &mut [u64]) -> Result<Standing, Tried<NoTask>>
        ensures call { MissingCall places.old places.new self.old self.new result }
        ensures err { OnErr result (places.new ≡ places.old) }
    {
        let phaser: &Phaser<A, Unwoken> = &self.phaser;
        self.loose.reg.try_missing(phaser, places)
    }

    /// Closes its phaser, for ever: `Phaser::close`.
    pub fn close(&self) {
        self.phaser.close()
    }

    /// Returns whether its phaser was closed: `Phaser::is_closed`.
    pub fn is_closed(&self) -> bool {
        self.phaser.is_closed()
    }

    /// Ends the registration. Where another is in the middle of a call it comes back as it was. It
    /// takes no memory.
    pub fn leave(self) -> Result<(), Member<A>>
        ensures ok { IfOk result (λ left. HasLeft self) }
        ensures err { IfErr result (λ back. back ≡ self) }
        // Where it is the only one that it has seen, nobody is in its way.
        ensures alone { IsOnlyOne self → IsOk result }
    {
        let Member { phaser, loose } = self;
        match loose.into_reg().try_leave(&phaser) {
            Ok(_past) => Ok(()),
            Err(reg) => Err(Member {
                phaser,
                loose: Loose { reg },
            }),
        }
    }
}
