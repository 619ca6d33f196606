//! The lock.
use crate::rule::{TurnRule, WordRule};
use crate::words::WordLock;
use std::marker::PhantomData;

mod steps;

// The rule of a lock, which sees neither words nor the number that is told.
pub struct Wordless<R> {
    rule: PhantomData<R>,
}

impl<T, R: TurnRule<T>> WordRule<T> for Wordless<R> {
    type Name = R::Name;

    type View = R::View;

    ghost holds = { λ name home told words views. R.holds name home views };

    ghost first = { R.first };
}

/// One value of type `T`, at which one seat at a time has the turn, under the rule `R`.
///
/// **Seats.** `new` gives the first seat. `split` makes two of one, and `join` one of two, whether
/// or not the turn is free. A seat belongs to the lock that made it, which each call asks for. A
/// seat that is thrown away leaves its view behind.
///
/// **Turns.** `try_take` and `take` make a turn of a seat, and `give` a seat of a turn. A turn
/// cannot be thrown away. It has the value until then: `Turn::value` lends it, where it lies.
///
/// **The rule.** What a step owes is said of any value at home and any views that the rule allows.
/// A type parameter of the call says what the step tells of the new view: `Tells` at a take and a
/// give, `Split` at a split, `Join` at a join, and `Learns` at the look that follows a join.
///
/// **Telling.** A give names a number below 2^63, which `told` returns until the next one: for
/// those that look, without a turn, whether it is time to take one.
///
/// **Waiting.** `try_take` answers at once, with the same seat where another one has the turn.
/// `take` tries until it has the turn. Between two tries it spins briefly at first, and then
/// yields.
///
/// **Cost.** A take that wins is a look and one atomic step, and a give is one step. The value
/// stays where it lies. A split is one step, and a join two. The lock has the words of a
/// `WordLock`, which stay 0.
///
/// **Limits.** Any number of seats.
///
/// **Example.** The test `turn_lock`: a lock on 5 with the seats a and b. While a has the turn and
/// writes 6, b is refused. Once a gave, and told 7, b takes the turn and reads 6. The lock tells 7
/// until b gives.
///
/// **Not promised.** That a refused take could not have had the turn, that a seat gets it, in what
/// order seats get it, and that a turn ends.
#[derive(Drop)]
pub struct TurnLock<T, R: TurnRule<T>> {
    pub(crate) words: WordLock<T, Wordless<R>>,
}
