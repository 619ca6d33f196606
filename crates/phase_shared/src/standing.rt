//! How a phaser stands, as a registration is told: who is registered, and who is missing.
ghost use Rattle.std.specs.Prelude.{◌≡◌, Ok, OnOk, OnErr};
ghost use Rattle.phase_core.specs.Standings.{missing_of, put_over};
ghost use Rattle.phase_shared.specs.Regs.{phaser_lock, phaser_terms};
ghost use Rattle.phase_shared.specs.Calls.{IsCall, IsTry, Tries};
ghost use Rattle.phase_shared.specs.Entries.{entry_stays};
ghost use Rattle.phase_shared.specs.Standings.{AnswersStanding, TellsStanding, unregistered};

use crate::patience::Patience;
use crate::phaser::Phaser;
use crate::reg::{Reg, taken};
use crate::rule::SignalRule;
use crate::seats::looks;
use crate::tried::Tried;
use phase_accum::Accumulate;
use phase_core::{NoTask, Standing};
use std::sync::Wait;

impl<A: Accumulate, K: SignalRule> Reg<A, K> {
    /// Tells how many are registered, and how many of the signallers have signalled the first phase
    /// that is not complete. It is never refused, makes no event, and takes no memory.
    pub fn try_standing(&mut self, phaser: &Phaser<A, K>) -> Result<Standing, Tried<NoTask>>
        requires at { self.old.at ≡ phaser_lock phaser.now }

        ensures call { let old = self.old in
            IsTry K.allows (phaser_terms phaser.now) unregistered entry_stays
            (Tries (self.new ≡ old) (AnswersStanding old.number old.seen self.new.seen) result)
            old self.new result }
        ensures held { self.new.held ≡ self.old.held }
    {
        self.try_missing(phaser, &mut [])
    }

    /// Tells what `try_standing` does, and writes the numbers of those that are missing into the
    /// first places, as many as there are of both: of the signallers that have not signalled the
    /// first phase that is not complete. `Standing::missing` says how many they are. It is never
    /// refused, makes no event, and takes no memory.
    pub fn try_missing(
        &mut self,
        phaser: &Phaser<A, K>,
        places: &mut [u64],
    ) -> Result<Standing, Tried<NoTask>>
        requires at { self.old.at ≡ phaser_lock phaser.now }

        ensures call { let old = self.old in
            IsTry K.allows (phaser_terms phaser.now) unregistered entry_stays
            (Tries (self.new ≡ old) (AnswersStanding old.number old.seen self.new.seen) result)
            old self.new result }
        ensures held { self.new.held ≡ self.old.held }
        ensures places { OnOk result (places.new ≡ put_over (missing_of self.new.seen) places.old) }
        ensures busy { OnErr result (places.new ≡ places.old) }
    {
        let seat = taken(&mut self.seat);
        let (seat, answer) = looks::look_round(
            &phaser.locked,
            seat,
            self.number,
            self.entry,
            places,
        );
        self.seat = Some(seat);
        answer
    }

    /// Tells how many are registered, and how many of the signallers have signalled the first phase
    /// that is not complete. It makes no event. It waits for its turn, and takes no memory.
    pub fn standing<W: Wait>(&mut self, rt: &W, phaser: &Phaser<A, K>) -> Standing
        requires at { self.old.at ≡ phaser_lock phaser.now }

        ensures call { let old = self.old in
            IsCall K.allows (phaser_terms phaser.now) unregistered entry_stays
            (TellsStanding old.number old.seen self.new.seen result) old self.new (Ok result) }
        ensures held { self.new.held ≡ self.old.held }
    {
        self.missing(rt, phaser, &mut [])
    }

    /// Tells what `standing` does, and writes the numbers of those that are missing into the first
    /// places, as many as there are of both: of the signallers that have not signalled the first
    /// phase that is not complete. `Standing::missing` says how many they are. It makes no event.
    /// It waits for its turn, and takes no memory.
    pub fn missing<W: Wait>(
        &mut self,
        rt: &W,
        phaser: &Phaser<A, K>,
        places: &mut [u64],
    ) -> Standing
        requires at { self.old.at ≡ phaser_lock phaser.now }

        ensures call { let old = self.old in
            IsCall K.allows (phaser_terms phaser.now) unregistered entry_stays
            (TellsStanding old.number old.seen self.new.seen result) old self.new (Ok result) }
        ensures held { self.new.held ≡ self.old.held }
        ensures places { places.new ≡ put_over (missing_of self.new.seen) places.old }
    {
        let patience = Patience::new();
        for _ in rt.forever() {
            if let Ok(standing) = self.try_missing(phaser, places) {
                return standing;
            }
            patience.snooze(rt);
        }
        unreachable!()
    }
}
