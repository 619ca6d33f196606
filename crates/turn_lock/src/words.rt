//! The lock with words.
ghost use Rattle.std.specs.Prelude.{◌≡◌};

use crate::rule::WordRule;
use crate::seat::Doing;
use atomic_table::{Table, TableRule};
use std::alloc::Global;
use std::marker::PhantomData;

mod ghost_steps;
mod steps;
mod turns;
mod value;

// The rule of the table that a lock stands on.
pub struct RuledWords<R> {
    rule: PhantomData<R>,
}

impl<T, R: WordRule<T>> TableRule<T, Doing<R::Name, R::View>, R::Name> for RuledWords<R> {
    ghost use Rattle.std.specs.Prelude.{Some, false};
    ghost use Rattle.turn_lock.specs.Word.{doing};
    ghost use Rattle.turn_lock.specs.Words.{IsWordLock};

    ghost holds = { λ name. IsWordLock R.holds name };

    ghost first = { λ name. doing (Some name) false (R.first name) };
}

/// One value of type `T`, at which one seat at a time has the turn, with 287 words beside it, under
/// the rule `R`, which sees the words and the number that the lock tells.
///
/// **Seats and turns.** They are those of a `TurnLock`: `split` and `join`, `try_take` and `give`.
/// Where the turn is taken, `try_take` hands the seat back: no call waits. `Turn::value_in` lends
/// the value of a turn.
///
/// **Words.** At first each is 0. A seat reads and writes them by `read` and `write`, whether or
/// not the turn is free, and a turn by `read_in` and `write_in`. Each call is one atomic step on
/// one word, at which the view of the seat that makes it may change, and keeps the rule.
///
/// **Telling.** A give names a number below 2^63, which the lock tells until the next one: 0 before
/// the first. The rule sees it. A seat reads it by `look`, and a turn by `told_in`: while a turn
/// lasts, it stays.
///
/// **The rule.** What a step owes is said of any value at home, any number, any words and any views
/// that the rule allows. A type parameter of the call says what the step tells of the new view:
/// `Tells` at a take and a give, `Reads` at a read and a look, `Learns` at a write and at the look
/// that follows a join, `Split` at a split, `Join` at a join.
///
/// **Cost.** A take that wins is a look and one atomic step, and each other call but `join` is one
/// step. The value stays where it lies. All calls but `new` answer at once and take no memory.
///
/// **Limits.** Any number of seats.
///
/// **Not promised.** That a refused take could not have had the turn, that a seat gets it, in what
/// order seats get it, and that a turn ends. What a seat read may be old at once, as far as the
/// rule lets other seats change it.
#[derive(Drop)]
pub struct WordLock<T, R: WordRule<T>> {
    pub(crate) table: Table<T, Doing<R::Name, R::View>, R::Name, RuledWords<R>, Global>,
    ghost sized: { (table.shared.table_id.words ≡ 288) × (table.shared.table_id.slots ≡ 1) },
}
