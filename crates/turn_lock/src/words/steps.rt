//! The calls of a seat.
ghost use Rattle.std.specs.Prelude.{◌≡◌, ◌<◌, ◌^◌, [], ◌∷◌, Some, replicate, IfOk, IfErr, OnErr};
ghost use Rattle.turn_lock.specs.Seats.{word_lock_name, word_lock_place, IsSeatAt, IsTurnAt};
ghost use Rattle.turn_lock.specs.Seats.{seat_number, seat_view, turn_number, turn_value, turn_view};
ghost use Rattle.turn_lock.specs.Seats.{IsSameSeat};
ghost use Rattle.turn_lock.specs.WordSteps.{TakesOf, LooksOf, ReadsOf, WritesOf, JoinLooks, ForksOf};
ghost use Rattle.turn_lock.specs.WordSteps.{MergesOf, BusyOf};

use super::WordLock;
use super::ghost_steps::{OnJoin, OnRead, OnSplit, OnWordLook, OnWordSight, OnWordTake, OnWrite};
use crate::rule::{Learns, Reads, Tells, WordRule};
use crate::seat::{Seat, Turn};
use atomic_table::{Join, Split, Table};
use std::alloc::{AllocError, Global};

// The first word is twice the number that the lock tells, and one more while a seat has the turn.
const TAKEN: u64 = 1;

// The first word, and those of the rule behind it.
const WORDS: [u64; 288] = [0; 288];

impl<T, R: WordRule<T>> WordLock<T, R> {
    /// Makes a lock, which tells 0, and its first seat, which has the number 0. Each word is 0.
    ///
    /// It takes memory. Where there is none, the value is dropped.
    pub fn new(
        alloc: Global,
        name: &R::Name,
        value: T,
    ) -> Result<(WordLock<T, R>, Seat<T, R::Name, R::View>), AllocError>
    where
        T: Drop,
        requires rule { R.holds name.now (Some value) 0 (replicate 287 0) (R.first name.now ∷ []) }
        ensures name { IfOk result (λ made. word_lock_name made.0 ≡ name.now) }
        ensures seat { IfOk result (λ made. IsSeatAt (word_lock_place made.0) made.1
            × (seat_number made.1 ≡ 0)) }
        ensures view { IfOk result (λ made. seat_view made.1 ≡ R.first name.now) }
    {
        let mut slots = Vec::with_capacity(alloc, 1)?;
        slots.push(value)?;
        let Ok((table, inner)) = Table::new(alloc, &WORDS, slots, name) else {
            return Err(AllocError);
        };
        Ok((WordLock { table }, Seat { inner }))
    }

    /// Takes the turn, or hands the seat back where another seat has it. It takes no memory, and
    /// answers at once.
    pub fn try_take<M: Tells<R::Name, T, R::View>>(
        &self,
        seat: Seat<T, R::Name, R::View>,
    ) -> Result<Turn<T, R::Name, R::View>, Seat<T, R::Name, R::View>>
        requires seat { IsSeatAt (word_lock_place self.now) seat }
        requires rule { TakesOf R.holds (word_lock_name self.now) (seat_number seat)
            (seat_view seat) (M.then (word_lock_name self.now)) }
        ensures turn { IfOk result (λ turn. IsTurnAt (word_lock_place self.now) turn
            × (turn_number turn ≡ seat_number seat)) }
        ensures rule { IfOk result (λ turn. M.then (word_lock_name self.now) (seat_view seat)
            (turn_value turn) (turn_view turn)) }

        ensures err { IfErr result (λ back. IsSameSeat seat back) }
        ensures busy { OnErr result (BusyOf R.holds (word_lock_name self.now) (seat_view seat)) }
    {
        let Seat { mut inner } = seat;
        let shared = &self.table.shared;
        // Who finds the turn taken leaves the word's line of memory where it is.
        let seen = shared.load::<OnWordSight<R>>(&mut inner, 0);
        if seen % 2 == TAKEN {
            return Err(Seat { inner });
        }
        let found = shared.fetch_or::<OnWordTake<M, R>>(&mut inner, 0, TAKEN);
        if found % 2 == TAKEN {
            return Err(Seat { inner });
        }
        Ok(Turn { inner })
    }

    /// Returns the number that the lock tells, without a seat. It takes no memory, and answers at
    /// once.
    ///
    /// It is a hint for when to take a turn, and no contract says which number it is.
    pub fn told(&self) -> u64
        ensures { result < 2 ^ 63 }
    {
        self.table.shared.peek(0) / 2
    }

    /// Whether the turn is free. It needs no seat, takes no memory, and answers at once.
    ///
    /// It is a hint for when to take a turn, and no contract says what it answers.
    pub fn is_free(&self) -> bool {
        self.table.shared.peek(0) % 2 != TAKEN
    }

    /// Returns the number that the lock tells. It takes no memory, and answers at once.
    pub fn look<M: Reads<R::Name, R::View>>(
        &self,
        seat: Seat<T, R::Name, R::View>,
    ) -> (Seat<T, R::Name, R::View>, u64)
        requires seat { IsSeatAt (word_lock_place self.now) seat }
        requires rule { LooksOf R.holds (word_lock_name self.now) (seat_number seat)
            (seat_view seat) (M.then (word_lock_name self.now)) }
        ensures seat { IsSeatAt (word_lock_place self.now) result.0
            × (seat_number result.0 ≡ seat_number seat) }
        ensures rule { M.then (word_lock_name self.now) (seat_view seat) result.1
            (seat_view result.0) }
    {
        let Seat { mut inner } = seat;
        let found = self.table.shared.load::<OnWordLook<M>>(&mut inner, 0);
        (Seat { inner }, found / 2)
    }

    /// Returns the word at a place. It takes no memory, and answers at once.
    pub fn read<M: Reads<R::Name, R::View>>(
        &self,
        seat: Seat<T, R::Name, R::View>,
        place: usize,
    ) -> (Seat<T, R::Name, R::View>, u64)
        requires place { place < 287 }
        requires seat { IsSeatAt (word_lock_place self.now) seat }
        requires rule { ReadsOf R.holds (word_lock_name self.now) (seat_number seat)
            (seat_view seat) place (M.then (word_lock_name self.now)) }
        ensures seat { IsSeatAt (word_lock_place self.now) result.0
            × (seat_number result.0 ≡ seat_number seat) }
        ensures rule { M.then (word_lock_name self.now) (seat_view seat) result.1
            (seat_view result.0) }
    {
        let Seat { mut inner } = seat;
        let found = self.table.shared.load::<OnRead<M>>(&mut inner, place + 1);
        (Seat { inner }, found)
    }

    /// Writes the word at a place. It takes no memory, and answers at once.
    pub fn write<L: Learns<R::Name, R::View>>(
        &self,
        seat: Seat<T, R::Name, R::View>,
        place: usize,
        word: u64,
    ) -> Seat<T, R::Name, R::View>
        requires place { place < 287 }
        requires seat { IsSeatAt (word_lock_place self.now) seat }
        requires rule { WritesOf R.holds (word_lock_name self.now) (seat_number seat)
            (seat_view seat) place word (L.then (word_lock_name self.now)) }
        ensures seat { IsSeatAt (word_lock_place self.now) result
            × (seat_number result ≡ seat_number seat) }
        ensures rule { L.then (word_lock_name self.now) (seat_view seat) (seat_view result) }
    {
        let Seat { mut inner } = seat;
        self.table
            .shared
            .swap::<OnWrite<L>>(&mut inner, place + 1, word);
        Seat { inner }
    }

    /// Cuts a seat's view in two: the first seat of the answer keeps the number, and the second is
    /// new. It takes no memory, and answers at once.
    pub fn split<M: Split<R::View>>(
        &self,
        seat: Seat<T, R::Name, R::View>,
    ) -> (Seat<T, R::Name, R::View>, Seat<T, R::Name, R::View>)
        requires seat { IsSeatAt (word_lock_place self.now) seat }
        requires rule { ForksOf R.holds (word_lock_name self.now) (seat_number seat)
            (seat_view seat) (M.left (seat_view seat)) (M.right (seat_view seat)) }
        ensures seats { IsSeatAt (word_lock_place self.now) result.0
            × IsSeatAt (word_lock_place self.now) result.1 }
        ensures number { seat_number result.0 ≡ seat_number seat }
        ensures left { seat_view result.0 ≡ M.left (seat_view seat) }
        ensures right { seat_view result.1 ≡ M.right (seat_view seat) }
    {
        let Seat { mut inner } = seat;
        let other = self.table.shared.split_seat::<OnSplit<M>>(&mut inner);
        (Seat { inner }, Seat { inner: other })
    }

    /// Makes one seat of two, which keeps the first one's number, and looks at the rule with what
    /// both knew. It takes no memory, and answers at once.
    pub fn join<M: Join<R::View>, L: Learns<R::Name, R::View>>(
        &self,
        seat: Seat<T, R::Name, R::View>,
        other: Seat<T, R::Name, R::View>,
    ) -> Seat<T, R::Name, R::View>
        requires seats { IsSeatAt (word_lock_place self.now) seat
            × IsSeatAt (word_lock_place self.now) other }
        requires merges { MergesOf R.holds (word_lock_name self.now) (seat_number seat)
            (seat_view seat) (seat_number other) (seat_view other)
            (M.both (seat_view seat) (seat_view other)) M.spent }
        requires looks { JoinLooks R.holds (word_lock_name self.now) (seat_number seat)
            (M.both (seat_view seat) (seat_view other)) (L.then (word_lock_name self.now)) }
        ensures seat { IsSeatAt (word_lock_place self.now) result
            × (seat_number result ≡ seat_number seat) }
        ensures rule { L.then (word_lock_name self.now)
            (M.both (seat_view seat) (seat_view other)) (seat_view result) }
    {
        let Seat { mut inner } = seat;
        let Seat { inner: other } = other;
        let shared = &self.table.shared;
        shared.join_seat::<OnJoin<M>>(&mut inner, other);
        shared.load::<OnWrite<L>>(&mut inner, 0);
        Seat { inner }
    }
}
