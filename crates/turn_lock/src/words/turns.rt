//! The calls of a turn.
ghost use Rattle.std.specs.Prelude.{◌≡◌, ◌<◌, ◌^◌};
ghost use Rattle.turn_lock.specs.Seats.{word_lock_name, word_lock_place, IsSeatAt, IsTurnAt};
ghost use Rattle.turn_lock.specs.Seats.{seat_number, seat_view, turn_number, turn_value, turn_view};
ghost use Rattle.turn_lock.specs.Seats.{turn_told};
ghost use Rattle.turn_lock.specs.WordSteps.{GivesOf, ReadsIn, WritesIn};

use super::WordLock;
use super::ghost_steps::{OnGive, OnRead, OnTold, OnWrite};
use crate::rule::{Learns, Reads, Tells, WordRule};
use crate::seat::{Seat, Turn};

impl<T, R: WordRule<T>> WordLock<T, R> {
    /// Ends a turn: the value is at home as the turn left it, and the lock tells this number. It
    /// takes no memory, and answers at once.
    pub fn give<M: Tells<R::Name, T, R::View>>(
        &self,
        turn: Turn<T, R::Name, R::View>,
        told: u64,
    ) -> Seat<T, R::Name, R::View>
        requires told { told < 2 ^ 63 }
        requires turn { IsTurnAt (word_lock_place self.now) turn }
        requires rule { GivesOf R.holds (word_lock_name self.now) (turn_number turn)
            (turn_view turn) (turn_value turn) (turn_told turn) told
            (M.then (word_lock_name self.now)) }
        ensures seat { IsSeatAt (word_lock_place self.now) result
            × (seat_number result ≡ turn_number turn) }
        ensures rule { M.then (word_lock_name self.now) (turn_view turn) (turn_value turn)
            (seat_view result) }
    {
        let Turn { mut inner } = turn;
        self.table.shared.swap::<OnGive<M>>(&mut inner, 0, told * 2);
        Seat { inner }
    }

    /// Returns the number that the lock tells. It takes no memory, and answers at once.
    pub fn told_in(&self, turn: Turn<T, R::Name, R::View>) -> (Turn<T, R::Name, R::View>, u64)
        requires { IsTurnAt (word_lock_place self.now) turn }
        ensures told { result.1 ≡ turn_told turn }
        ensures small { result.1 < 2 ^ 63 }
        ensures turn { IsTurnAt (word_lock_place self.now) result.0
            × (turn_number result.0 ≡ turn_number turn) }
        ensures view { turn_view result.0 ≡ turn_view turn }
        ensures value { turn_value result.0 ≡ turn_value turn }
        ensures stays { turn_told result.0 ≡ turn_told turn }
    {
        let Turn { mut inner } = turn;
        let found = self.table.shared.load::<OnTold>(&mut inner, 0);
        (Turn { inner }, found / 2)
    }

    /// Returns the word at a place. It takes no memory, and answers at once.
    pub fn read_in<M: Reads<R::Name, R::View>>(
        &self,
        turn: Turn<T, R::Name, R::View>,
        place: usize,
    ) -> (Turn<T, R::Name, R::View>, u64)
        requires place { place < 287 }
        requires turn { IsTurnAt (word_lock_place self.now) turn }
        requires rule { ReadsIn R.holds (word_lock_name self.now) (turn_number turn)
            (turn_view turn) (turn_told turn) place (M.then (word_lock_name self.now)) }
        ensures turn { IsTurnAt (word_lock_place self.now) result.0
            × (turn_number result.0 ≡ turn_number turn) }
        ensures value { turn_value result.0 ≡ turn_value turn }
        ensures stays { turn_told result.0 ≡ turn_told turn }
        ensures rule { M.then (word_lock_name self.now) (turn_view turn) result.1
            (turn_view result.0) }
    {
        let Turn { mut inner } = turn;
        let found = self.table.shared.load::<OnRead<M>>(&mut inner, place + 1);
        (Turn { inner }, found)
    }

    /// Writes the word at a place. It takes no memory, and answers at once.
    pub fn write_in<L: Learns<R::Name, R::View>>(
        &self,
        turn: Turn<T, R::Name, R::View>,
        place: usize,
        word: u64,
    ) -> Turn<T, R::Name, R::View>
        requires place { place < 287 }
        requires turn { IsTurnAt (word_lock_place self.now) turn }
        requires rule { WritesIn R.holds (word_lock_name self.now) (turn_number turn)
            (turn_view turn) (turn_told turn) place word (L.then (word_lock_name self.now)) }
        ensures turn { IsTurnAt (word_lock_place self.now) result
            × (turn_number result ≡ turn_number turn) }
        ensures value { turn_value result ≡ turn_value turn }
        ensures stays { turn_told result ≡ turn_told turn }
        ensures rule { L.then (word_lock_name self.now) (turn_view turn) (turn_view result) }
    {
        let Turn { mut inner } = turn;
        self.table
            .shared
            .swap::<OnWrite<L>>(&mut inner, place + 1, word);
        Turn { inner }
    }
}
