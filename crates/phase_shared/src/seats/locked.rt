//! A phaser of one thread under a lock.
ghost use Rattle.std.specs.Prelude.{◌≡◌, ◌<◌, ◌^◌, IfOk};
ghost use Rattle.turn_lock.specs.Seats.{IsSeatAt, seat_view};
ghost use Rattle.phase_history.specs.Histories.{founder};
ghost use Rattle.phase_shared.specs.LockedPhasers.{locked_place, locked_terms};
ghost use Rattle.phase_shared.specs.Rule.{founding, IsSeatOfTask};

use crate::rule::{SignalRule, Terms};
use crate::seats::hints::{Hints, News, Reached};
use crate::seats::view::{PhaserLock, PhaserSeat};
use phase_accum::Accumulate;
use phase_base::Spec;
use phase_core::PhaserCore;
use std::alloc::{AllocError, Global};
use turn_lock::WordLock;

/// A phaser of one thread under a lock, with hints for those that wait. Sends become values by the
/// operation `A`, and each signal abides by the rule `K`.
#[derive(Drop)]
pub struct LockedPhaser<A: Accumulate, K: SignalRule> {
    pub(crate) lock: PhaserLock<A, K>,
    pub(crate) hints: Hints,
}

impl<A: Accumulate, K: SignalRule> LockedPhaser<A, K> {
    /// Makes a phaser and the seat of its founder, which has the number 0. It takes all the memory
    /// that signals and waits will ever need.
    pub fn new(
        alloc: Global,
        terms: Terms<K>,
    ) -> Result<(LockedPhaser<A, K>, PhaserSeat<A, K>), AllocError>
        ensures terms { IfOk result (λ made. locked_terms made.0 ≡ terms) }
        ensures seat { IfOk result (λ made. IsSeatAt (locked_place made.0) made.1) }
        ensures view { IfOk result (λ made. seat_view made.1 ≡ founding) }
        ensures founder { IfOk result (λ made.
            IsSeatOfTask K.allows terms 0 founder (seat_view made.1)) }
    {
        let bound = terms.limits.bound();
        let core = PhaserCore::new(alloc, terms.limits, 0)?;
        let (lock, seat) = WordLock::new(alloc, &terms, core)?;
        let hints = Hints::new::<K>(bound);
        Ok((LockedPhaser { lock, hints }, seat))
    }

    // How many phases are complete, as far as the last give told. The lock tells twice that, and
    // one more where every task that asked for one of them was answered.
    pub(crate) fn told(&self) -> u64
        ensures { result < 2 ^ 62 }
    {
        self.lock.told() / 2
    }

    // What there is to tell, under the turn.
    pub(crate) fn news(&self, reached: Reached) -> News
        ensures { result.done < 2 ^ 62 }
    {
        self.hints.news(reached, self.told())
    }
}
