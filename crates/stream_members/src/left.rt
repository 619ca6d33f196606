//! What members that left have seen.
ghost use Rattle.std.specs.Prelude.{◌≡◌, true};
ghost use Rattle.phase_history.specs.Legal.{IsLegal};
ghost use Rattle.phase_base.specs.Lists.{is_distinct};
ghost use Rattle.stream_members.specs.Members.{limits_on, HasJoined};

use phase_accum::Accumulate;
use phase_shared::{NoRule, Past, Phaser};
use std::marker::Model;

/// What members that left have seen, with their phaser: one history, and the numbers of those whose
/// calls it holds. It may be thrown away.
#[derive(Drop)]
pub struct Left<'a, A: Accumulate> {
    pub(crate) phaser: &'a Phaser<A, NoRule>,
    pub(crate) past: Past<A, NoRule>,
}

impl<'a, A: Accumulate> Model for Left<'a, A> {
    ghost use Rattle.std.specs.Prelude.{◌≡◌};
    ghost use Rattle.phase_shared.specs.Regs.{phaser_lock};
    ghost use Rattle.stream_members.specs.Members.{LeftState};

    ghost Value = { LeftState };

    ghost view = { λ l. l.past };

    ghost invariant = { λ l. l.past.at ≡ phaser_lock l.phaser.now };
}

impl<'a, A: Accumulate> Left<'a, A> {
    /// Says what holds of it wherever it was kept meanwhile, as in a list or under a lock. It does
    /// nothing.
    pub fn look(&self)
        ensures legal { IsLegal (limits_on self.now.at) self.now.seen }
        ensures distinct { is_distinct self.now.numbers ≡ true }
    {
        self.past.look();
    }

    /// Makes one of two that left one phaser. It waits for nobody and takes no memory.
    pub fn join(self, other: Left<'a, A>) -> Left<'a, A>
        requires at { other.at ≡ self.at }
        ensures { HasJoined self.entry other.entry result }
    {
        let Left { phaser, past } = self;
        let Left {
            phaser: _,
            past: second,
        } = other;
        Left {
            phaser,
            past: past.join(phaser, second),
        }
    }
}
