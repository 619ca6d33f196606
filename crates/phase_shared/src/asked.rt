//! A registration that has asked for its next phase, between two calls.
ghost use Rattle.std.specs.Prelude.{◌≡◌, ◌⊎◌, [], true, Some, None, Ok, IfOk, IfErr};
ghost use Rattle.phase_base.specs.Members.{entry_of};
ghost use Rattle.phase_base.specs.Modes.{mode_signals, mode_waits};
ghost use Rattle.phase_accum.specs.Parcels.{Parcel, StandsForSends};
ghost use Rattle.phase_history.specs.Histories.{members_of};
ghost use Rattle.phase_shared.specs.Asked.{HasGone, HasTakenBack, IsValue, entry_gone, entry_signalled};
ghost use Rattle.phase_shared.specs.Calls.{MaySignal};
ghost use Rattle.phase_shared.specs.Regs.{IsGoodOn, IsReg, reg_state, phaser_lock, phaser_terms};
ghost use Rattle.phase_shared.specs.Servings.{IsRequestOf};

use crate::held::Held;
use crate::lane_words::LANES;
use crate::next::Next;
use crate::phaser::Phaser;
use crate::reg::Reg;
use crate::rule::SignalRule;
use crate::seats::asked;
use crate::seats::request::Request;
use crate::seats::spins::Spins;
use crate::seats::view::PhaserSeat;
use phase_accum::{Accumulate, Outcome};
use phase_base::Entry;
use phase_core::{Got, SignalRefusal};
use std::marker::{Brand, Model};

/// A registration that has asked for its next phase: who has the turn may signal for it, and wait
/// for it where that completes the phase. It stands as it did when it asked, until a call here
/// tells what was made.
///
/// **Calls.** `look` takes no turn. `serve` and `take_back` take the turn, where it is free. Each
/// answers at once.
///
/// **Waiting.** Nobody may be left to wake who sleeps while its signal is a post alone: who waits
/// serves first, until that tells that its signal is made.
///
/// **End.** It cannot be thrown away. Its calls give the registration back.
pub struct Asked<A: Accumulate, K: SignalRule> {
    pub(crate) seat: PhaserSeat<A, K>,
    pub(crate) entry: Entry,
    pub(crate) pending: Held<A>,
    pub(crate) request: Request,
    pub(crate) spins: Spins,
}

impl<A: Accumulate, K: SignalRule> Model for Asked<A, K> {
    ghost use Rattle.std.specs.Prelude.{Some};
    ghost use Rattle.phase_shared.specs.Asked.{IsAsked};
    ghost use Rattle.phase_shared.specs.Regs.{RegState, reg_state};

    ghost Value = { RegState A K };

    ghost view = { λ a. reg_state (Some a.seat) a.request.task a.entry a.pending };

    ghost invariant = { λ a. IsAsked A.operation K.allows a.seat a.entry a.pending a.request };
}

impl<A: Accumulate, K: SignalRule> Reg<A, K> {
    /// Asks others for its next phase, with the sends that it holds, where it can: it signals and
    /// waits, has a lane, stands before its next phase and is not alone, and what it holds came by
    /// `send`, one or none. Else it comes back as it was. It takes no turn and no memory.
    pub fn ask(self, phaser: &Phaser<A, K>) -> Result<Asked<A, K>, Reg<A, K>>
        requires at { self.at ≡ phaser_lock phaser.now }
        requires rule { mode_signals self.entry.mode ≡ true
            → MaySignal A.operation K.allows (phaser_terms phaser.now) self None }

        ensures ok { IfOk result (λ asked. asked ≡ self) }
        ensures err { IfErr result (λ back. back ≡ self) }
    {
        if !self.mode().signals() {
            return Err(self);
        }
        match self.request(phaser, None) {
            Some(request) => self.post(phaser, request),
            None => Err(self),
        }
    }

    // Posts what it asks for, where its lane is its own. Else it knows that it has none.
    fn post(self, phaser: &Phaser<A, K>, request: Request) -> Result<Asked<A, K>, Reg<A, K>>
        requires at { self.at ≡ phaser_lock phaser.now }
        requires both { (mode_signals self.entry.mode ≡ true)
            × (mode_waits self.entry.mode ≡ true) }
        requires request { IsRequestOf A.operation request self }
        requires rule { MaySignal A.operation K.allows (phaser_terms phaser.now) self None }
        ensures ok { IfOk result (λ asked. asked ≡ self) }
        ensures err { IfErr result (λ back. back ≡ self) }
    {
        let Reg {
            seat,
            number,
            entry,
            pending,
            mut spins,
        } = self;
        let Some(seat) = seat else { unreachable!() };
        let (seat, asks) = asked::post::<A, K, Brand>(&phaser.locked, seat, request);
        if asks {
            return Ok(Asked {
                seat,
                entry,
                pending,
                request,
                spins,
            });
        }
        spins.lodged(LANES);
        Err(Reg {
            seat: Some(seat),
            number,
            entry,
            pending,
            spins,
        })
    }
}

// The registration with this seat, after the phase that it asked for.
fn gone<A: Accumulate, K: SignalRule>(
    seat: PhaserSeat<A, K>,
    entry: Entry,
    request: Request,
    spins: Spins,
) -> Reg<A, K>
    requires { IsReg K.allows (Some seat) request.task (entry_gone entry request) }
    ensures { (held : Parcel A) × (result ≡ reg_state (Some seat) request.task
        (entry_gone entry request) held)
        × StandsForSends A.operation held [] × (held.count ≡ 0) }
{
    let phase = request.phase + 1;
    Reg {
        seat: Some(seat),
        number: request.task,
        entry: Entry {
            mode: entry.mode,
            signal_phase: phase,
            wait_phase: phase,
        },
        pending: Held::new(),
        spins,
    }
}

// The same after its signal alone.
fn between<A: Accumulate, K: SignalRule>(
    seat: PhaserSeat<A, K>,
    entry: Entry,
    request: Request,
    spins: Spins,
) -> Reg<A, K>
    requires { IsReg K.allows (Some seat) request.task (entry_signalled entry request) }
    ensures { (held : Parcel A) × (result ≡ reg_state (Some seat) request.task
        (entry_signalled entry request) held)
        × StandsForSends A.operation held [] × (held.count ≡ 0) }
{
    Reg {
        seat: Some(seat),
        number: request.task,
        entry: Entry {
            mode: entry.mode,
            signal_phase: request.phase + 1,
            wait_phase: entry.wait_phase,
        },
        pending: Held::new(),
        spins,
    }
}

// The same as it stood, with what it held.
fn rested<A: Accumulate, K: SignalRule>(
    seat: PhaserSeat<A, K>,
    entry: Entry,
    pending: Held<A>,
    request: Request,
    spins: Spins,
) -> Reg<A, K>
    requires { IsReg K.allows (Some seat) request.task entry }
    ensures { result ≡ reg_state (Some seat) request.task entry pending }
{
    Reg {
        seat: Some(seat),
        number: request.task,
        entry,
        pending,
        spins,
    }
}

// What it did in the phase that it asked for.
fn next(request: Request, outcome: Outcome) -> Next
    ensures signalled { result.signalled ≡ Some request.phase }
    ensures got { result.got ≡ Some (Got.Value request.phase outcome) }
{
    let phase = request.phase;
    Next {
        signalled: Some(phase),
        got: Some(Got::Value { phase, outcome }),
    }
}

impl<A: Accumulate, K: SignalRule> Asked<A, K> {
    /// Returns its number, which nobody else has on its phaser.
    pub fn number(&self) -> u64
        ensures { result ≡ self.now.number }
    {
        self.request.task
    }

    /// Returns its mode, which signals and waits, and its phases before the one that it asked for.
    pub fn entry(&self) -> Entry
        ensures value { result ≡ self.now.entry }
        ensures modes { (mode_signals result.mode ≡ true) × (mode_waits result.mode ≡ true) }
        // It is registered in the history that it has seen, which is legal and keeps the rule.
        ensures entry { entry_of (members_of self.now.seen) self.now.number
            ≡ Some self.now.entry }
        ensures good { IsGoodOn K.allows self.now.at self.now.seen }
    {
        self.entry
    }

    /// Looks whether its next phase was made. Else it asks still. It takes no turn.
    pub fn look(self, phaser: &Phaser<A, K>) -> Result<(Reg<A, K>, Next), Asked<A, K>>
        requires at { self.at ≡ phaser_lock phaser.now }

        ensures ok { IfOk result (λ gone. HasGone A.operation K.allows (phaser_terms phaser.now)
            self gone.0 (Ok gone.1)) }
        ensures value { IfOk result (λ gone. IsValue gone.1.got) }
        ensures err { IfErr result (λ asked. asked ≡ self) }
    {
        let Asked {
            seat,
            entry,
            pending,
            request,
            spins,
        } = self;
        let (seat, answer) = asked::look::<A, K, Brand>(&phaser.locked, seat, request);
        let Some(outcome) = answer else {
            let asked = Asked {
                seat,
                entry,
                pending,
                request,
                spins,
            };
            return Err(asked);
        };
        let reg = gone(seat, entry, request, spins);
        let next = next(request, outcome);
        Ok((reg, next))
    }

    /// Takes the turn, where it is free: signals for those that asked, its own signal first, looks
    /// so often whether others ask, and waits for all where the phase is complete. Else it asks
    /// still, and tells whether its signal is made.
    pub fn serve(
        self,
        phaser: &Phaser<A, K>,
        looks: u32,
    ) -> Result<(Reg<A, K>, Result<Next, SignalRefusal>), (Asked<A, K>, bool)>
        requires at { self.at ≡ phaser_lock phaser.now }

        ensures ok { IfOk result (λ gone. HasGone A.operation K.allows (phaser_terms phaser.now)
            self gone.0 gone.1) }
        ensures value { IfOk result (λ gone. IfOk gone.1 (λ next. IsValue next.got)) }
        ensures err { IfErr result (λ asked. asked.0 ≡ self) }
    {
        let Asked {
            seat,
            entry,
            pending,
            request,
            spins,
        } = self;
        let (seat, answer, is_made) = asked::serve::<A, K, Brand>(
            &phaser.locked,
            seat,
            request,
            looks,
        );
        let Some(answer) = answer else {
            let asked = Asked {
                seat,
                entry,
                pending,
                request,
                spins,
            };
            return Err((asked, is_made));
        };
        let outcome = match answer {
            Ok(outcome) => outcome,
            Err(refusal) => {
                let back = rested(seat, entry, pending, request, spins);
                return Ok((back, Err(refusal)));
            }
        };
        let reg = gone(seat, entry, request, spins);
        let next = next(request, outcome);
        Ok((reg, Ok(next)))
    }

    /// Takes back what it asked for, where the turn is free, and asks no more: its signal is made,
    /// or refused; or its phase is complete, and it has its value too. Else it asks still.
    pub fn take_back(
        self,
        phaser: &Phaser<A, K>,
    ) -> Result<(Reg<A, K>, Result<(u64, Option<Got>), SignalRefusal>), Asked<A, K>>
        requires at { self.at ≡ phaser_lock phaser.now }

        ensures ok { IfOk result (λ back. HasTakenBack A.operation K.allows
            (phaser_terms phaser.now) self back.0 back.1) }
        ensures value { IfOk result (λ back. IfOk back.1 (λ made. (made.1 ≡ None)
            ⊎ IsValue made.1)) }
        ensures err { IfErr result (λ asked. asked ≡ self) }
    {
        let Asked {
            seat,
            entry,
            pending,
            request,
            spins,
        } = self;
        let (seat, answer) = asked::take_back::<A, K, Brand>(&phaser.locked, seat, request);
        let Some(told) = answer else {
            let asked = Asked {
                seat,
                entry,
                pending,
                request,
                spins,
            };
            return Err(asked);
        };
        let phase = request.phase;
        let made = match told {
            Ok(made) => made,
            Err(refusal) => {
                let back = rested(seat, entry, pending, request, spins);
                return Ok((back, Err(refusal)));
            }
        };
        let Some(outcome) = made else {
            let signalled = between(seat, entry, request, spins);
            return Ok((signalled, Ok((phase, None))));
        };
        let reg = gone(seat, entry, request, spins);
        Ok((reg, Ok((phase, Some(Got::Value { phase, outcome })))))
    }
}
