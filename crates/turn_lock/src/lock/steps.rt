//! The calls.
ghost use Rattle.std.specs.Prelude.{◌≡◌, ◌<◌, ◌^◌, [], ◌∷◌, Some, IfOk, IfErr, OnErr};
ghost use Rattle.turn_lock.specs.Seats.{lock_name, IsSeatOf, IsTurnOf, IsSameSeat};
ghost use Rattle.turn_lock.specs.Seats.{seat_number, seat_view, turn_number, turn_value, turn_view};
ghost use Rattle.turn_lock.specs.Steps.{Takes, GivesBack, Looks, Forks, Merges, Busy};

use super::TurnLock;
use crate::rule::{Learns, Tells, TurnRule};
use crate::seat::{Seat, Turn};
use crate::words::WordLock;
use atomic_table::{Join, Split};
use crossbeam_utils::Backoff;
use std::alloc::{AllocError, Global};
use std::sync::Wait;

impl<T, R: TurnRule<T>> TurnLock<T, R> {
    /// Makes a lock and its first seat, which has the number 0.
    ///
    /// It takes memory. Where there is none, the value is dropped.
    pub fn new(
        alloc: Global,
        name: &R::Name,
        value: T,
    ) -> Result<(TurnLock<T, R>, Seat<T, R::Name, R::View>), AllocError>
    where
        T: Drop,
        requires rule { R.holds name.now (Some value) (R.first name.now ∷ []) }
        ensures name { IfOk result (λ made. lock_name made.0 ≡ name.now) }
        ensures seat { IfOk result (λ made. IsSeatOf made.0 made.1 × (seat_number made.1 ≡ 0)) }
        ensures view { IfOk result (λ made. seat_view made.1 ≡ R.first name.now) }
    {
        let (words, seat) = WordLock::new(alloc, name, value)?;
        Ok((TurnLock { words }, seat))
    }

    /// Takes the turn, or hands the seat back where another seat has it. It takes no memory.
    pub fn try_take<M: Tells<R::Name, T, R::View>>(
        &self,
        seat: Seat<T, R::Name, R::View>,
    ) -> Result<Turn<T, R::Name, R::View>, Seat<T, R::Name, R::View>>
        requires seat { IsSeatOf self.now seat }
        requires rule { Takes R.holds (lock_name self.now) (seat_number seat) (seat_view seat)
            (M.then (lock_name self.now)) }
        ensures turn { IfOk result (λ turn. IsTurnOf self.now turn
            × (turn_number turn ≡ seat_number seat)) }
        ensures rule { IfOk result (λ turn. M.then (lock_name self.now) (seat_view seat)
            (turn_value turn) (turn_view turn)) }

        ensures err { IfErr result (λ back. IsSameSeat seat back) }
        ensures busy { OnErr result (Busy R.holds (lock_name self.now) (seat_view seat)) }
    {
        self.words.try_take::<M>(seat)
    }

    /// Ends a turn: the value is at home as the turn left it, and the lock tells this number. It
    /// takes no memory.
    pub fn give<M: Tells<R::Name, T, R::View>>(
        &self,
        turn: Turn<T, R::Name, R::View>,
        told: u64,
    ) -> Seat<T, R::Name, R::View>
        requires told { told < 2 ^ 63 }
        requires turn { IsTurnOf self.now turn }
        requires rule { GivesBack R.holds (lock_name self.now) (turn_number turn) (turn_view turn)
            (turn_value turn) (M.then (lock_name self.now)) }
        ensures seat { IsSeatOf self.now result × (seat_number result ≡ turn_number turn) }
        ensures rule { M.then (lock_name self.now) (turn_view turn) (turn_value turn)
            (seat_view result) }
    {
        self.words.give::<M>(turn, told)
    }

    /// Returns the number that the last give told, and 0 before the first. It needs no seat, and
    /// takes no memory.
    ///
    /// It is a hint for when to take a turn, and no contract says which number it is.
    pub fn told(&self) -> u64
        ensures { result < 2 ^ 63 }
    {
        self.words.told()
    }

    /// Cuts a seat's view in two: the first seat of the answer keeps the number, and the second is
    /// new. It takes no memory.
    pub fn split<M: Split<R::View>>(
        &self,
        seat: Seat<T, R::Name, R::View>,
    ) -> (Seat<T, R::Name, R::View>, Seat<T, R::Name, R::View>)
        requires seat { IsSeatOf self.now seat }
        requires rule { Forks R.holds (lock_name self.now) (seat_number seat) (seat_view seat)
            (M.left (seat_view seat)) (M.right (seat_view seat)) }
        ensures seats { IsSeatOf self.now result.0 × IsSeatOf self.now result.1 }
        ensures number { seat_number result.0 ≡ seat_number seat }
        ensures left { seat_view result.0 ≡ M.left (seat_view seat) }
        ensures right { seat_view result.1 ≡ M.right (seat_view seat) }
    {
        self.words.split::<M>(seat)
    }

    /// Makes one seat of two, which keeps the first one's number, and looks at the rule with what
    /// both knew. It takes no memory.
    pub fn join<M: Join<R::View>, L: Learns<R::Name, R::View>>(
        &self,
        seat: Seat<T, R::Name, R::View>,
        other: Seat<T, R::Name, R::View>,
    ) -> Seat<T, R::Name, R::View>
        requires seats { IsSeatOf self.now seat × IsSeatOf self.now other }
        requires merges { Merges R.holds (lock_name self.now) (seat_number seat) (seat_view seat)
            (seat_number other) (seat_view other)
            (M.both (seat_view seat) (seat_view other)) M.spent }
        requires looks { Looks R.holds (lock_name self.now) (seat_number seat)
            (M.both (seat_view seat) (seat_view other)) (L.then (lock_name self.now)) }
        ensures seat { IsSeatOf self.now result × (seat_number result ≡ seat_number seat) }
        ensures rule { L.then (lock_name self.now) (M.both (seat_view seat) (seat_view other))
            (seat_view result) }
    {
        self.words.join::<M, L>(seat, other)
    }

    /// Takes the turn. It may wait, while another seat has it, and takes no memory.
    pub fn take<M: Tells<R::Name, T, R::View>, W: Wait>(
        &self,
        rt: &W,
        seat: Seat<T, R::Name, R::View>,
    ) -> Turn<T, R::Name, R::View>
        requires seat { IsSeatOf self.now seat }
        requires rule { Takes R.holds (lock_name self.now) (seat_number seat) (seat_view seat)
            (M.then (lock_name self.now)) }
        ensures turn { IsTurnOf self.now result × (turn_number result ≡ seat_number seat) }
        ensures rule { M.then (lock_name self.now) (seat_view seat) (turn_value result)
            (turn_view result) }
    {
        let backoff = Backoff::new();
        let mut seat = seat;
        for _ in rt.forever() {
            match self.try_take::<M>(seat) {
                Ok(turn) => return turn,
                Err(back) => seat = back,
            }
            backoff.snooze();
        }
        unreachable!()
    }
}
