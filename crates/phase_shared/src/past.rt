//! What registrations that left have seen.
ghost use Rattle.std.specs.Prelude.{◌≡◌, ◌++◌, true};
ghost use Rattle.phase_history.specs.Others.{OthersCame};
ghost use Rattle.phase_base.specs.Lists.{is_distinct};
ghost use Rattle.phase_shared.specs.Rule.{IsGoodAt};
ghost use Rattle.phase_shared.specs.Regs.{phaser_lock, phaser_terms, IsGoodOn};

use crate::phaser::Phaser;
use crate::rule::SignalRule;
use crate::seats::steps;
use crate::seats::view::PhaserSeat;
use phase_accum::Accumulate;
use std::marker::Model;

/// What registrations that left have seen: one history, and the numbers of those whose calls it
/// holds. It has no bytes, and may be thrown away.
///
/// Whoever has the pasts of several threads joins them, and then knows in one history what each of
/// them did and received.
#[derive(Drop)]
pub struct Past<A: Accumulate, K: SignalRule> {
    pub(crate) seat: PhaserSeat<A, K>,
}

impl<A: Accumulate, K: SignalRule> Model for Past<A, K> {
    ghost use Rattle.phase_shared.specs.Regs.{PastState, past_state, IsPast};

    ghost Value = { PastState K };

    ghost view = { λ p. past_state p.seat };

    ghost invariant = { λ p. IsPast K.allows p.seat };
}

impl<A: Accumulate, K: SignalRule> Past<A, K> {
    /// Says what holds of a past wherever it was kept meanwhile, as in a list or under a lock: its
    /// history is legal and keeps the rule, and no number went into it twice. It does nothing.
    pub fn look(&self)
        ensures good { IsGoodOn K.allows self.now.at self.now.seen }
        ensures distinct { is_distinct self.now.numbers ≡ true }
    {
        let _seat = &self.seat;
    }

    /// Makes one past of two. Its history begins with what each had seen, and has no later event of
    /// a registration that went into it. It waits for nobody and takes no memory.
    pub fn join(self, phaser: &Phaser<A, K>, other: Past<A, K>) -> Past<A, K>
        requires at { (self.at ≡ phaser_lock phaser.now) × (other.at ≡ phaser_lock phaser.now) }

        ensures first { OthersCame self.numbers self.seen result.seen }
        ensures second { OthersCame other.numbers other.seen result.seen }
        ensures numbers { result.numbers ≡ self.numbers ++ other.numbers }
        ensures distinct { is_distinct result.numbers ≡ true }
        ensures at { result.at ≡ self.at }
        ensures good { IsGoodAt K.allows (phaser_terms phaser.now) result.seen }
    {
        let Past { seat } = self;
        let Past { seat: second } = other;
        Past {
            seat: steps::join(&phaser.locked, seat, second),
        }
    }
}
