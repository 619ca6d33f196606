//! A registration with its phaser, which puts one value a phase.
ghost use Rattle.std.specs.Prelude.{◌≡◌, ◌≢◌, ◌↔◌, ◌<◌, ◌≤◌, [], ◌∷◌, Some, Err, IfOk, IfErr, IsOk, length};
ghost use Rattle.phase_accum.specs.Sends.{AreSends};
ghost use Rattle.phase_base.specs.Members.{entry_of};
ghost use Rattle.phase_history.specs.Histories.{members_of};
ghost use Rattle.phase_shared.specs.Blocks.{WaitsBlock};
ghost use Rattle.phase_shared.specs.Calls.{Tries};
ghost use Rattle.phase_shared.specs.Regs.{phaser_lock};
ghost use Rattle.stream_members.specs.Members.{limits_on, member_state, IsMember, Stays, IsAlone, Puts, IsPutAnswer, Adds, AddsNow, HasLeftPhaser};

use crate::left::Left;
use crate::refusal::PutRefusal;
use phase_accum::{Accumulate, Outcome, Pending, Single};
use phase_base::{Entry, Mode};
use phase_core::{GotBlock, RegisterRefusal, SignalRefusal, WaitRefusal, are_sends};
use phase_shared::{NoRule, Phaser, Reg, Tried};
use std::marker::Model;
use std::sync::Wait;

/// A registration with its phaser, which any one thread has at a time.
///
/// **What it has.** Its phaser, a number that nobody else has there, a mode, and, in proofs alone,
/// the history that it has seen. Each call makes that history longer, by what the others did
/// meanwhile and by its own event. It holds no sends: values that are refused stay the caller's.
///
/// **Calls.** Those that begin with `try_` answer at once, `Busy` where another registration is in
/// the middle of a call.
///
/// **End.** It cannot be thrown away. `leave` and `try_leave` end it, and give a `Left`.
pub struct Member<'a, A: Accumulate> {
    phaser: &'a Phaser<A, NoRule>,
    reg: Reg<A, NoRule>,
}

impl<'a, A: Accumulate> Model for Member<'a, A> {
    ghost use Rattle.std.specs.Prelude.{◌≡◌};
    ghost use Rattle.phase_shared.specs.Regs.{phaser_lock};
    ghost use Rattle.stream_members.specs.Members.{MemberState, member_state};

    ghost Value = { MemberState };

    ghost view = { λ m. member_state m.reg };

    ghost invariant = { λ m. (m.reg.at ≡ phaser_lock m.phaser.now) × (m.reg.held.count ≡ 0) };
}

impl<'a, A: Accumulate> Member<'a, A> {
    /// Makes one of a registration that holds no sends, and its phaser.
    pub fn of(phaser: &'a Phaser<A, NoRule>, reg: Reg<A, NoRule>) -> Member<'a, A>
        requires at { reg.at ≡ phaser_lock phaser.now }
        requires none_held { reg.held.count ≡ 0 }
        ensures { result ≡ member_state reg }
    {
        Member { phaser, reg }
    }

    /// Says what holds of it wherever it was kept meanwhile, as in a list or under a lock. It does
    /// nothing.
    pub fn look(&self)
        ensures { IsMember self.now }
    {
        self.reg.look();
    }

    /// Returns its number, which nobody else has on its phaser.
    pub fn number(&self) -> u64
        ensures { result ≡ self.now.number }
    {
        self.reg.number()
    }

    /// Returns its mode and its phases. It takes no turn.
    pub fn entry(&self) -> Entry
        ensures { entry_of (members_of self.now.seen) self.now.number ≡ Some result }
    {
        let (signal_phase, wait_phase) = self.reg.phase();
        Entry {
            mode: self.reg.mode(),
            signal_phase,
            wait_phase,
        }
    }

    /// Returns how many phases from its signal phase on are not ahead, as far as the turns that
    /// have ended tell. It takes no turn. It is a hint for how much to put, and no contract speaks
    /// of it.
    pub fn room(&self) -> u64 {
        self.reg.room(self.phaser)
    }

    /// Returns how many phases from its wait phase on are complete, as far as the turns that have
    /// ended tell, and none where nobody is left to signal. It takes no turn. It is a hint for how
    /// much to get, and no contract speaks of it.
    pub fn ready(&self) -> u64 {
        let (done, _) = self.phaser.told();
        if done == u64::MAX {
            return 0;
        }
        let (_, wait_phase) = self.reg.phase();
        done.saturating_sub(wait_phase)
    }

    /// Signals as many phases in a row as there are values, its own first, with one send each and a
    /// single for all of them or none, and answers the first phase. A refused signal signals
    /// nothing, and none of the values is held. It takes no memory: the places have the sends
    /// meanwhile.
    pub fn try_put_all(
        &mut self,
        values: &[i64],
        single: Option<Single>,
        places: &mut [Pending<A>],
    ) -> Result<u64, PutRefusal>
        ensures call { Puts values.now single self.old self.new result }
        ensures stays { Stays self.old self.new }
        ensures too_many { (result ≡ Err PutRefusal.TooMany)
            ↔ (length places.old < length values.now) }
        ensures bad_value { (result ≡ Err PutRefusal.BadValue)
            ↔ ((length values.now ≤ length places.old) × (AreSends values.now → ⊥)) }
        ensures known { result ≢ Err (PutRefusal.Refused SignalRefusal.NoTask) }
        // Where it is the only one that it has seen, nobody is in its way.
        ensures alone { IsAlone self.old → result ≢ Err PutRefusal.Busy }
        ensures places { length places.new ≡ length places.old }
    {
        self.look();
        if values.len() > places.len() {
            return Err(PutRefusal::TooMany);
        }
        if !are_sends(values) {
            return Err(PutRefusal::BadValue);
        }
        let phaser = self.phaser;
        put_answer(self.reg.try_signal_values(phaser, values, single, places))
    }

    /// Waits for its phase, and answers it with the number of phases that are complete from there
    /// on, at most one for each place, and writes their values in the first places; or answers that
    /// no more will come. It takes no memory.
    pub fn try_get(&mut self, out: &mut [Outcome]) -> Result<GotBlock, Tried<WaitRefusal>>
        ensures call { let old = self.old in Tries ((self.new ≡ old) × (out.new ≡ out.old))
            (WaitsBlock A.operation.value (limits_on old.at) old.number old.seen self.new.seen
            out.old out.new) result }
        ensures stays { Stays self.old self.new }
        ensures known { result ≢ Err (Tried.Refused WaitRefusal.NoTask) }
        ensures alone { IsAlone self.old → result ≢ Err Tried.Busy }
    {
        self.reg.try_wait_block(self.phaser, out)
    }

    /// Registers a child in a mode that its own mode holds, at both of its phases. It may take
    /// memory.
    pub fn try_add(&mut self, mode: Mode) -> Result<Member<'a, A>, Tried<RegisterRefusal>>
        ensures call { Tries (self.new ≡ self.old) (Adds mode self.old self.new) result }
        ensures stays { Stays self.old self.new }
        ensures known { result ≢ Err (Tried.Refused RegisterRefusal.NoTask) }
        ensures alone { IsAlone self.old → result ≢ Err Tried.Busy }
    {
        let reg = self.reg.try_register(self.phaser, mode)?;
        Ok(Member {
            phaser: self.phaser,
            reg,
        })
    }

    /// Registers a child in `Wait`, at the first phase that is not complete, and answers it with
    /// that phase. Its own mode has to hold `Wait`. It may take memory.
    pub fn try_add_now(&mut self) -> Result<(Member<'a, A>, u64), Tried<RegisterRefusal>>
        ensures call { Tries (self.new ≡ self.old) (AddsNow self.old self.new) result }
        ensures stays { Stays self.old self.new }
        ensures known { result ≢ Err (Tried.Refused RegisterRefusal.NoTask) }
        ensures alone { IsAlone self.old → result ≢ Err Tried.Busy }
    {
        let reg = self.reg.try_register_now(self.phaser)?;
        let (_, start) = reg.phase();
        let member = Member {
            phaser: self.phaser,
            reg,
        };
        Ok((member, start))
    }

    /// Registers a child, as `try_add` does. It waits for its turn.
    pub fn add<W: Wait>(&mut self, rt: &W, mode: Mode) -> Result<Member<'a, A>, RegisterRefusal>
        ensures call { Adds mode self.old self.new result }
        ensures stays { Stays self.old self.new }
        ensures known { result ≢ Err RegisterRefusal.NoTask }
    {
        let reg = self.reg.register(rt, self.phaser, mode)?;
        Ok(Member {
            phaser: self.phaser,
            reg,
        })
    }

    /// Ends the registration. Where another is in the middle of a call it comes back as it was. It
    /// takes no memory.
    pub fn try_leave(self) -> Result<Left<'a, A>, Member<'a, A>>
        ensures ok { IfOk result (HasLeftPhaser self.entry) }
        ensures err { IfErr result (λ back. back ≡ self.entry) }
        ensures alone { IsAlone self.entry → IsOk result }
    {
        let Member { phaser, reg } = self;
        match reg.try_leave(phaser) {
            Ok(past) => Ok(Left { phaser, past }),
            Err(reg) => Err(Member { phaser, reg }),
        }
    }

    /// Ends the registration, as `try_leave` does. It waits for its turn.
    pub fn leave<W: Wait>(self, rt: &W) -> Left<'a, A>
        ensures { HasLeftPhaser self.entry result }
    {
        let Member { phaser, reg } = self;
        Left {
            phaser,
            past: reg.leave(rt, phaser),
        }
    }
}

/// What a signal of values answers.
fn put_answer(answer: Result<u64, Tried<SignalRefusal>>) -> Result<u64, PutRefusal>
    ensures { IsPutAnswer answer result }
{
    match answer {
        Ok(phase) => Ok(phase),
        Err(Tried::Busy) => Err(PutRefusal::Busy),
        Err(Tried::Refused(refusal)) => Err(PutRefusal::Refused(refusal)),
    }
}
