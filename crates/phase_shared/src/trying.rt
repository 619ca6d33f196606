//! The calls of a registration that wait for nobody.
ghost use Rattle.std.specs.Prelude.{◌≡◌, ◌≢◌, [], ◌∷◌, Err, IfOk, IfErr, IsOk, OnOk, OnErr};
ghost use Rattle.std.specs.Result.{result_ok};
ghost use Rattle.phase_accum.specs.Parcels.{StandsForSends};
ghost use Rattle.phase_history.specs.Others.{OnlyUsed, OthersCame};
ghost use Rattle.phase_shared.specs.Rule.{IsGoodAt};
ghost use Rattle.phase_shared.specs.Regs.{phaser_lock, phaser_terms, phaser_limits};
ghost use Rattle.phase_shared.specs.Calls.{IsTry, Tries, Signals, Waits, Registers, MaySignal, Leaves};
ghost use Rattle.phase_shared.specs.Entries.{entry_stays, entry_after_signal, entry_after_wait, entry_after_both};
ghost use Rattle.phase_shared.specs.Nexts.{SignalsAndMayWait};

use crate::held::Held;
use crate::lane_words::LANES;
use crate::past::Past;
use crate::phaser::Phaser;
use crate::reg::{Reg, taken};
use crate::rule::SignalRule;
use crate::seats::places::{Lodgings, give_back};
use crate::seats::spins::Spins;
use crate::seats::steps;
use crate::tried::Tried;
use phase_accum::{Accumulate, Single};
use phase_base::Mode;
use phase_core::{Got, RegisterRefusal, SignalRefusal, WaitRefusal};

impl<A: Accumulate, K: SignalRule> Reg<A, K> {
    /// Signals its phase, with the sends that it holds and a single or none, and answers that
    /// phase. A refused signal leaves the sends held. It takes no memory.
    pub fn try_signal(
        &mut self,
        phaser: &Phaser<A, K>,
        single: Option<Single>,
    ) -> Result<u64, Tried<SignalRefusal>>
        requires at { self.old.at ≡ phaser_lock phaser.now }
        requires rule { MaySignal A.operation K.allows (phaser_terms phaser.now) self.old single }

        ensures call { let old = self.old in
            IsTry K.allows (phaser_terms phaser.now) SignalRefusal.NoTask entry_after_signal
            (Tries (self.new ≡ old) (Signals A.operation (phaser_limits phaser.now) old.number
            old.held single old.seen self.new.seen) result) old self.new result }
        ensures none_held { OnOk result
            (StandsForSends A.operation self.new.held [] × (self.new.held.count ≡ 0)) }
        ensures held { OnErr result (self.new.held ≡ self.old.held) }
    {
        match self.try_signal_and_wait(phaser, single, false) {
            Ok(answer) => Ok(answer.0),
            Err(tried) => Err(tried),
        }
    }

    /// Signals, as `try_signal` does, and then waits where that is asked for and answers at once:
    /// both under one turn.
    pub fn try_signal_and_wait(
        &mut self,
        phaser: &Phaser<A, K>,
        single: Option<Single>,
        waits: bool,
    ) -> Result<(u64, Option<Got>), Tried<SignalRefusal>>
        requires at { self.old.at ≡ phaser_lock phaser.now }
        requires rule { MaySignal A.operation K.allows (phaser_terms phaser.now) self.old single }

        ensures call { let old = self.old in
            IsTry K.allows (phaser_terms phaser.now) SignalRefusal.NoTask entry_after_both
            (Tries (self.new ≡ old) (SignalsAndMayWait waits A.operation (phaser_limits phaser.now)
            old.number old.held single old.seen self.new.seen) result) old self.new result }
        ensures none_held { OnOk result
            (StandsForSends A.operation self.new.held [] × (self.new.held.count ≡ 0)) }
        ensures held { OnErr result (self.new.held ≡ self.old.held) }
    {
        let seat = taken(&mut self.seat);
        let (seat, entry, answer) = steps::signal(
            &phaser.locked,
            seat,
            self.number,
            self.entry,
            self.pending.sends(),
            single,
            waits,
        );
        self.seat = Some(seat);
        self.entry = entry;
        match answer {
            Ok(answer) => {
                self.pending = Held::new();
                Ok(answer)
            }
            Err(tried) => Err(tried),
        }
    }

    /// Waits for its phase, and answers it with its value, or that no more will come. It takes no
    /// memory.
    pub fn try_wait(&mut self, phaser: &Phaser<A, K>) -> Result<Got, Tried<WaitRefusal>>
        requires at { self.old.at ≡ phaser_lock phaser.now }

        ensures call { let old = self.old in
            IsTry K.allows (phaser_terms phaser.now) WaitRefusal.NoTask entry_after_wait
            (Tries (self.new ≡ old) (Waits A.operation.value (phaser_limits phaser.now) old.number
            old.seen self.new.seen) result) old self.new result }
        ensures held { self.new.held ≡ self.old.held }
    {
        let seat = taken(&mut self.seat);
        let (seat, entry, answer) = steps::wait(&phaser.locked, seat, self.number, self.entry);
        self.seat = Some(seat);
        self.entry = entry;
        answer
    }

    /// Registers a child in a mode that its own mode holds, at both of its phases. The child has
    /// seen what its parent has, and holds no sends. It may take memory.
    ///
    /// A registration that was refused as `OutOfMemory` can be made again.
    pub fn try_register(
        &mut self,
        phaser: &Phaser<A, K>,
        mode: Mode,
    ) -> Result<Reg<A, K>, Tried<RegisterRefusal>>
        requires at { self.old.at ≡ phaser_lock phaser.now }

        ensures call { let old = self.old in
            IsTry K.allows (phaser_terms phaser.now) RegisterRefusal.NoTask entry_stays
            (Tries (self.new ≡ old) (Registers A.operation mode old self.new) result) old self.new
            result }
        ensures held { self.new.held ≡ self.old.held }
    {
        let seat = taken(&mut self.seat);
        let mut lanes = Lodgings {
            own: self.spins.lane(),
            child: LANES,
        };
        let (seat, answer) = steps::register(
            &phaser.locked,
            seat,
            self.number,
            self.entry,
            mode,
            &mut lanes,
        );
        self.seat = Some(seat);
        self.spins.lodged(lanes.own);
        let made = match answer {
            Ok(made) => made,
            Err(tried) => return Err(tried),
        };
        phaser.locked.hints.came();
        Ok(Reg {
            seat: Some(made.1),
            number: made.0,
            entry: made.2,
            pending: Held::new(),
            spins: Spins::with_lane(lanes.child),
        })
    }

    /// Ends the registration: the sends that it holds are in no phase. Where another is in the
    /// middle of a call it comes back as it was. It takes no memory.
    pub fn try_leave(self, phaser: &Phaser<A, K>) -> Result<Past<A, K>, Reg<A, K>>
        requires at { self.at ≡ phaser_lock phaser.now }

        ensures ok { IfOk result (λ past. Leaves self.number self.seen past.seen) }
        ensures numbers { IfOk result (λ past. past.numbers ≡ self.number ∷ []) }
        ensures at { IfOk result (λ past. past.at ≡ self.at) }
        ensures good { IfOk result (λ past.
            IsGoodAt K.allows (phaser_terms phaser.now) past.seen) }

        ensures err { IfErr result (λ back. back ≡ self) }
        // Where it is the only one that it has seen, nobody is in its way.
        ensures alone { OnlyUsed (self.number ∷ []) self.seen → IsOk result }
    {
        let Reg {
            seat,
            number,
            entry,
            pending,
            spins,
        } = self;
        let Some(seat) = seat else { unreachable!() };
        match steps::leave(&phaser.locked, seat, number, entry) {
            Ok(seat) => {
                let seat = give_back(&phaser.locked, seat, number, spins.lane());
                phaser.locked.hints.left();
                Ok(Past { seat })
            }
            Err(seat) => Err(Reg {
                seat: Some(seat),
                number,
                entry,
                pending,
                spins,
            }),
        }
    }

    /// The same two registrations, which now have seen one history: it begins with what each had
    /// seen. It waits for nobody and takes no memory.
    pub fn meet(self, phaser: &Phaser<A, K>, other: Reg<A, K>) -> (Reg<A, K>, Reg<A, K>)
        requires at { (self.at ≡ phaser_lock phaser.now) × (other.at ≡ phaser_lock phaser.now) }

        ensures one { result.0.seen ≡ result.1.seen }
        ensures apart { result.0.number ≢ result.1.number }
        ensures begins { OthersCame (self.number ∷ []) self.seen result.0.seen
            × OthersCame (other.number ∷ []) other.seen result.0.seen }
        ensures good { IsGoodAt K.allows (phaser_terms phaser.now) result.0.seen }
        ensures first { (result.0.at ≡ self.at) × (result.0.number ≡ self.number)
            × (result.0.entry ≡ self.entry) × (result.0.held ≡ self.held) }
        ensures second { (result.1.at ≡ other.at) × (result.1.number ≡ other.number)
            × (result.1.entry ≡ other.entry) × (result.1.held ≡ other.held) }
    {
        let (mut first, mut second) = (self, other);
        let seat = taken(&mut first.seat);
        let other_seat = taken(&mut second.seat);
        let (seat, other_seat) = steps::meet(&phaser.locked, seat, other_seat);
        first.seat = Some(seat);
        second.seat = Some(other_seat);
        (first, second)
    }
}
