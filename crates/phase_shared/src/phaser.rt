//! A phaser that many threads use.
ghost use Rattle.std.specs.Prelude.{◌≡◌, [], ◌∷◌, IfOk};
ghost use Rattle.phase_accum.specs.Parcels.{StandsForSends};
ghost use Rattle.phase_history.specs.declared.event.Event.TheVariants.{Made};
ghost use Rattle.phase_history.specs.Histories.{founder};
ghost use Rattle.phase_history.specs.Others.{OnlyUsed};
ghost use Rattle.phase_shared.specs.Rule.{IsGoodAt};
ghost use Rattle.phase_shared.specs.Regs.{phaser_lock, phaser_terms, phaser_limits};

use crate::held::Held;
use crate::reg::Reg;
use crate::rule::{SignalRule, Terms};
use crate::seats::locked::LockedPhaser;
use crate::seats::spins::Spins;
use phase_accum::Accumulate;
use phase_base::{Entry, Mode, Spec};
use std::alloc::{AllocError, Global};

/// A phaser between threads, which use it by shared reference. Each has registrations of its own.
///
/// Sends become values by the operation `A`, and each signal abides by the rule `K`.
///
/// **Cost.** A call is a look and one atomic step that takes the turn, the call on the phaser of
/// one thread, which stays where it lies, and one step that gives the turn back. There is no mutex.
/// A `next` may be made in another's turn: then it writes two words, and reads two once it is told.
/// Those words, of 16 registrations at a time, take 2,296 bytes. `make` and registrations take
/// memory, and nothing else does.
///
/// **Limits.** Those of its `Spec`, and as many registrations at a time as a phaser of one thread
/// can have. Where threads meet at a barrier, each of which signals a phase and waits for it, the
/// bound should be 2: at 1 whoever completes a phase is ahead until the slowest has waited for it.
///
/// **Not promised.** That a thread gets its turn, and in what order threads do.
#[derive(Drop)]
pub struct Phaser<A: Accumulate, K: SignalRule> {
    pub(crate) locked: LockedPhaser<A, K>,
}

impl<A: Accumulate, K: SignalRule> Phaser<A, K> {
    /// Makes a phaser and the registration of its founder, which has the number 0, in `Single` and
    /// at phase 0. It takes all the memory that signals and waits will ever need.
    pub fn make(
        alloc: Global,
        limits: Spec,
        rule: K,
    ) -> Result<(Phaser<A, K>, Reg<A, K>), AllocError>
        ensures limits { IfOk result (λ made. phaser_limits made.0 ≡ limits) }
        ensures rule { IfOk result (λ made. (phaser_terms made.0).rule ≡ rule) }
        ensures at { IfOk result (λ made. made.1.at ≡ phaser_lock made.0) }
        ensures founder { IfOk result (λ made.
            (made.1.number ≡ 0) × (made.1.seen ≡ Made 0 ∷ []) × (made.1.entry ≡ founder)) }
        ensures none_held { IfOk result (λ made.
            StandsForSends A.operation made.1.held [] × (made.1.held.count ≡ 0)) }
        ensures alone { IfOk result (λ made. OnlyUsed (made.1.number ∷ []) made.1.seen) }
        ensures good { IfOk result (λ made.
            IsGoodAt K.allows (phaser_terms made.0) made.1.seen) }
    {
        let (locked, seat) = LockedPhaser::new(alloc, Terms { limits, rule })?;
        let entry = Entry {
            mode: Mode::Single,
            signal_phase: 0,
            wait_phase: 0,
        };
        let founder = Reg {
            seat: Some(seat),
            number: 0,
            entry,
            pending: Held::new(),
            spins: Spins::new(),
        };
        Ok((Phaser { locked }, founder))
    }

    /// Returns two numbers as far as the turns that have ended tell: the phases below the first are
    /// complete, and every waiter got the phases below the second. Each is 2^64 - 1 where nobody is
    /// left to wait for. It takes no turn, and neither number ever falls.
    ///
    /// The second is told where a signal waits for room, and by each turn from the first call of
    /// this or of `Reg::room` on, or always where the rule tells each.
    ///
    /// It is a hint for when to try again, and no contract speaks of it.
    pub fn told(&self) -> (u64, u64) {
        self.locked.hints.told(self.locked.told())
    }
}
