//! The value of a turn.
ghost use Rattle.std.specs.Prelude.{◌≡◌};
ghost use Rattle.std.specs.Borrow.{sem, follows};
ghost use Rattle.turn_lock.specs.contracts.seat.Turn.{the_row};
ghost use Rattle.turn_lock.specs.Seats.{IsTurnOf, turn_value, turn_with};

use crate::lock::TurnLock;
use crate::rule::TurnRule;
use crate::seat::Turn;

impl<T, N, V> Turn<T, N, V> {
    /// The value of a turn at the lock, to read and to change, where it lies. What is written there
    /// stands in the turn afterwards.
    pub fn value<'a, R: TurnRule<T, Name = N, View = V>>(
        &'a mut self,
        lock: &'a TurnLock<T, R>,
    ) -> &'a mut T
        requires { IsTurnOf lock.now self.old }
        ensures* writes_back { sem 𝓛 (follows (the_row T.row N.row V.row) T.row
            self.entry.ghost_name result.ghost_name (turn_with self.old)) }
        ensures value { result.now ≡ turn_value self.old }
    {
        self.inner.slot_mut(&lock.words.table.shared, 0)
    }
}
