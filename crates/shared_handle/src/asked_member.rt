//! A registration that asks for its next phase, and owns a share of its phaser.
ghost use Rattle.std.specs.Prelude.{◌≡◌, ◌≢◌, true, None, IfOk, IfErr};
ghost use Rattle.phase_accum.specs.Parcels.{StandsForSends};
ghost use Rattle.shared_handle.specs.Members.{IsInItsHistory, sent_value};
ghost use Rattle.phase_shared.specs.Calls.{tried};
ghost use Rattle.shared_handle.specs.Calls.{NextCall, both_of};
ghost use Rattle.shared_handle.specs.Told.{next_status, tried_status};
ghost use Rattle.handle_numbers.specs.declared.numbers.TheConstants.{GOOD, ENDED, SIGNALLED};

use crate::member::Member;
use phase_accum::Accumulate;
use phase_base::Entry;
use phase_core::{Got, SignalRefusal};
use phase_shared::{Loose, LooseAsked, Next, Phaser, Reg, Tried, Unwoken};
use std::alloc::Global;
use std::marker::Model;
use std::sync::Arc;

/// A registration that asks, with its phaser. Who has the turn may signal for it, and wait for it
/// where that completes the phase. No call waits.
///
/// It may be thrown away: then it stays registered.
#[derive(Drop)]
pub struct AskedMember<A: Accumulate> {
    phaser: Arc<Phaser<A, Unwoken>, Global>,
    loose: LooseAsked<A, Unwoken>,
    value: Option<i64>,
}

impl<A: Accumulate> Model for AskedMember<A> {
    ghost use Rattle.std.specs.Prelude.{◌≡◌};
    ghost use Rattle.std.specs.Arc.{arc_value};
    ghost use Rattle.phase_accum.specs.Parcels.{StandsForSends};
    ghost use Rattle.phase_shared.specs.Regs.{phaser_lock};
    ghost use Rattle.shared_handle.specs.Members.{AskedRegistration, as_asked, sent_value};

    ghost Value = { AskedRegistration };

    ghost view = { λ m. as_asked m.loose.asked m.value };

    ghost invariant = { λ m. (m.loose.asked.at ≡ phaser_lock (arc_value m.phaser))
        × StandsForSends A.operation m.loose.asked.held (sent_value m.value) };
}

// Holds this send alone, or none, and tells whether it does.
fn hold<A: Accumulate>(reg: &mut Reg<A, Unwoken>, value: Option<i64>) -> bool
    ensures held { result ≡ true → StandsForSends A.operation reg.new.held (sent_value value) }
    ensures same { (reg.new.at ≡ reg.old.at) × (reg.new.number ≡ reg.old.number)
        × (reg.new.entry ≡ reg.old.entry) × (reg.new.seen ≡ reg.old.seen) }
{
    reg.hold_none();
    let Some(value) = value else { return true };
    match reg.send(value) {
        Ok(()) => true,
        Err(_refusal) => false,
    }
}

impl<A: Accumulate> Member<A> {
    /// Asks others for its next phase, with this send or none, where it can; else it comes back as
    /// it was. It takes no turn and no memory.
    pub fn ask(self, value: Option<i64>) -> Result<AskedMember<A>, Member<A>>
        ensures ok { IfOk result (λ asked. (asked.reg ≡ self)
            × (asked.values ≡ sent_value value)) }
        ensures err { IfErr result (λ back. back ≡ self) }
    {
        let Member { phaser, loose } = self;
        let mut reg = loose.into_reg();
        if !hold(&mut reg, value) {
            let loose = Loose { reg };
            return Err(Member { phaser, loose });
        }
        match reg.ask(&phaser) {
            Ok(asked) => {
                let loose = LooseAsked { asked };
                Ok(AskedMember {
                    phaser,
                    loose,
                    value,
                })
            }
            Err(reg) => {
                let loose = Loose { reg };
                Err(Member { phaser, loose })
            }
        }
    }
}

// What a signal and a wait are answered, as a try tells it.
fn as_tried(
    told: Result<(u64, Option<Got>), SignalRefusal>,
) -> Result<(u64, Option<Got>), Tried<SignalRefusal>>
    ensures { result ≡ tried told }
{
    match told {
        Ok(both) => Ok(both),
        Err(refusal) => Err(Tried::Refused(refusal)),
    }
}

// A next phase, as a call that signals and waits answers it.
fn answer(gone: Result<Next, SignalRefusal>) -> Result<(u64, Option<Got>), Tried<SignalRefusal>>
    ensures { result ≡ tried (both_of gone) }
{
    match gone {
        Ok(next) => Ok((next.signalled.unwrap_or(0), next.got)),
        Err(refusal) => Err(Tried::Refused(refusal)),
    }
}

impl<A: Accumulate> AskedMember<A> {
    /// Returns its number, which nobody else has on its phaser.
    pub fn number(&self) -> u64
        ensures { result ≡ self.now.reg.number }
    {
        self.loose.asked.number()
    }

    /// Returns its mode and its phases before the one that it asked for. It takes no turn.
    pub fn entry(&self) -> Entry
        ensures value { result ≡ self.now.reg.entry }
        ensures member { IsInItsHistory self.now.reg }
    {
        self.loose.asked.entry()
    }

    /// Returns how far the phaser is, as far as the turns that have ended tell: `Phaser::told`.
    pub fn told(&self) -> (u64, u64) {
        self.phaser.told()
    }

    /// Closes its phaser, for ever: `Phaser::close`.
    pub fn close(&self) {
        self.phaser.close()
    }

    /// Returns whether its phaser was closed: `Phaser::is_closed`.
    pub fn is_closed(&self) -> bool {
        self.phaser.is_closed()
    }

    /// Looks whether its next phase was made. Else it asks still. It takes no turn.
    pub fn look(
        self,
    ) -> Result<(Member<A>, Result<(u64, Option<Got>), Tried<SignalRefusal>>), AskedMember<A>>
        ensures ok { IfOk result (λ end. NextCall A.operation.value self.values None self.reg
            end.0 end.1) }
        ensures status { IfOk result (λ end. tried_status next_status end.1 ≡ GOOD) }
        ensures err { IfErr result (λ asked. asked ≡ self) }
    {
        let AskedMember {
            phaser,
            loose,
            value,
        } = self;
        let asked = loose.into_asked();
        let _entry = asked.entry();
        match asked.look(&phaser) {
            Ok((reg, next)) => {
                let loose = Loose { reg };
                Ok((Member { phaser, loose }, answer(Ok(next))))
            }
            Err(asked) => {
                let loose = LooseAsked { asked };
                Err(AskedMember {
                    phaser,
                    loose,
                    value,
                })
            }
        }
    }

    /// Takes the turn, where it is free: signals for those that asked, its own signal first, and
    /// looks so often whether others ask. Where it asks still, it tells whether its signal is made.
    pub fn serve(
        self,
        looks: u32,
    ) -> Result<
        (Member<A>, Result<(u64, Option<Got>), Tried<SignalRefusal>>),
        (AskedMember<A>, bool),
    >
        ensures ok { IfOk result (λ end. NextCall A.operation.value self.values None self.reg
            end.0 end.1) }
        ensures status { IfOk result (λ end. (tried_status next_status end.1 ≢ SIGNALLED)
            × (tried_status next_status end.1 ≢ ENDED)) }
        ensures err { IfErr result (λ asked. asked.0 ≡ self) }
    {
        let AskedMember {
            phaser,
            loose,
            value,
        } = self;
        let asked = loose.into_asked();
        let _entry = asked.entry();
        match asked.serve(&phaser, looks) {
            Ok((reg, gone)) => {
                let loose = Loose { reg };
                Ok((Member { phaser, loose }, answer(gone)))
            }
            Err((asked, is_made)) => {
                let loose = LooseAsked { asked };
                let member = AskedMember {
                    phaser,
                    loose,
                    value,
                };
                Err((member, is_made))
            }
        }
    }

    /// Takes back what it asked for, where the turn is free, and asks no more: its signal is made,
    /// or refused; or its phase is complete, and it has its value too. Else it asks still.
    pub fn take_back(
        self,
    ) -> Result<(Member<A>, Result<(u64, Option<Got>), Tried<SignalRefusal>>), AskedMember<A>>
        ensures ok { IfOk result (λ end. NextCall A.operation.value self.values None self.reg
            end.0 end.1) }
        ensures status { IfOk result (λ end. tried_status next_status end.1 ≢ ENDED) }
        ensures err { IfErr result (λ asked. asked ≡ self) }
    {
        let AskedMember {
            phaser,
            loose,
            value,
        } = self;
        match loose.into_asked().take_back(&phaser) {
            Ok((reg, told)) => {
                let loose = Loose { reg };
                Ok((Member { phaser, loose }, as_tried(told)))
            }
            Err(asked) => {
                let loose = LooseAsked { asked };
                Err(AskedMember {
                    phaser,
                    loose,
                    value,
                })
            }
        }
    }
}
