//! The value of a turn at a lock with words.
ghost use Rattle.std.specs.Prelude.{◌≡◌};
ghost use Rattle.std.specs.Borrow.{sem, follows};
ghost use Rattle.turn_lock.specs.contracts.seat.Turn.{the_row};
ghost use Rattle.turn_lock.specs.Seats.{word_lock_place, IsTurnAt, turn_value, turn_with};

use super::WordLock;
use crate::rule::WordRule;
use crate::seat::Turn;

impl<T, N, V> Turn<T, N, V> {
    /// The value of a turn at a lock with words, to read and to change, where it lies. What is
    /// written there stands in the turn afterwards. It takes no memory, and answers at once.
    pub fn value_in<'a, R: WordRule<T, Name = N, View = V>>(
        &'a mut self,
        lock: &'a WordLock<T, R>,
    ) -> &'a mut T
        requires { IsTurnAt (word_lock_place lock.now) self.old }
        ensures* writes_back { sem 𝓛 (follows (the_row T.row N.row V.row) T.row
            self.entry.ghost_name result.ghost_name (turn_with self.old)) }
        ensures value { result.now ≡ turn_value self.old }
    {
        self.inner.slot_mut(&lock.table.shared, 0)
    }
}
