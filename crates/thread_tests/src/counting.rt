//! A rule as an example: a number that is the sum of what the seats of its lock counted.
ghost use Rattle.std.specs.Prelude.{◌≡◌, ◌+◌, ◌-◌, ◌*◌, ◌%◌, ◌^◌, ◌<◌, None, Some, IfOk, IfErr, IsOk};
ghost use denote.Param.Send.{IsSync};
ghost use Rattle.thread_tests.specs.Counting.{tally, IsCounted, Grabs, first_half, second_half, both};
ghost use Rattle.turn_lock.specs.Seats.{lock_name, IsSeatOf, IsTurnOf, IsSameSeat, seat_view, turn_value, turn_view};

use std::alloc::{AllocError, Global};
use std::sync::Wait;
use std::thread::{Threads, join};
use turn_lock::{Join, Learns, Seat, Split, Tells, Turn, TurnLock, TurnRule};

/// What a seat of a counter knows. No value of it is made.
pub struct Tally {
    /// Its parts of the right to know the sum.
    pub parts: u64,
    /// What it counted.
    pub count: u64,
    /// The sum that it took, while it has the turn.
    pub took: Option<u64>,
}

/// The rule: the value is the sum of the counts, modulo 2^64.
pub struct Sums;

impl TurnRule<u64> for Sums {
    type Name = u64;

    type View = Tally;

    ghost holds = { IsCounted };

    ghost first = { λ parts. tally parts 0 None };
}

/// A number that threads add to. Its name is the number of parts that its seats may share.
pub type Counter = TurnLock<u64, Sums>;

/// A seat of a counter.
pub type CounterSeat = Seat<u64, u64, Tally>;

/// A turn of a counter.
pub type CounterTurn = Turn<u64, u64, Tally>;

// A take: the seat knows the sum that it took.
struct Grab;

impl Tells<u64, u64, Tally> for Grab {
    ghost then = { Grabs };
}

// A give after 1 was added.
struct Add;

impl Tells<u64, u64, Tally> for Add {
    ghost then = { λ parts v y w. w ≡ tally v.parts (v.count + 1) None };
}

// A give of the value that was taken.
struct Return;

impl Tells<u64, u64, Tally> for Return {
    ghost then = { λ parts v y w. w ≡ tally v.parts v.count None };
}

struct Halves;

impl Split<Tally> for Halves {
    ghost left = { first_half };

    ghost right = { second_half };
}

struct Both;

impl Join<Tally> for Both {
    ghost both = { both };

    ghost spent = { tally 0 0 None };
}

struct Same;

impl Learns<u64, Tally> for Same {
    ghost then = { λ parts v w. w ≡ v };
}

/// Makes a counter of 0, whose seats may share `parts` parts. It takes memory.
pub fn make_counter(alloc: Global, parts: u64) -> Result<(Counter, CounterSeat), AllocError>
    requires { 0 < parts }
    ensures name { IfOk result (λ made. lock_name made.0 ≡ parts) }
    ensures seat { IfOk result (λ made. IsSeatOf made.0 made.1) }
    ensures view { IfOk result (λ made. seat_view made.1 ≡ tally parts 0 None) }
{
    TurnLock::new(alloc, &parts, 0)
}

// Adds 1 to the value of a turn that took the sum.
fn add_to(counter: &Counter, mut turn: CounterTurn) -> CounterSeat
    requires turn { IsTurnOf counter.now turn }
    requires part { 0 < (turn_view turn).parts }
    requires took { (turn_view turn).took ≡ Some (turn_value turn) }
    ensures seat { IsSeatOf counter.now result }
    ensures view { let was = turn_view turn in
        seat_view result ≡ tally was.parts (was.count + 1) None }
{
    let value = turn.value(counter);
    *value = value.wrapping_add(1);
    counter.give::<Add>(turn, 0)
}

/// Adds 1, modulo 2^64. It may wait.
pub fn add_one<R: Wait>(rt: &R, counter: &Counter, seat: CounterSeat) -> CounterSeat
    requires seat { IsSeatOf counter.now seat }
    requires part { 0 < (seat_view seat).parts }
    ensures seat { IsSeatOf counter.now result }
    ensures view { let was = seat_view seat in
        seat_view result ≡ tally was.parts (was.count + 1) None }
{
    let turn = counter.take::<Grab, R>(rt, seat);
    add_to(counter, turn)
}

/// Adds 1, modulo 2^64, unless another seat has the turn. A seat with all parts is never refused.
pub fn try_add_one(counter: &Counter, seat: CounterSeat) -> Result<CounterSeat, CounterSeat>
    requires seat { IsSeatOf counter.now seat }
    requires part { 0 < (seat_view seat).parts }
    ensures seat { IfOk result (λ s. IsSeatOf counter.now s) }
    ensures view { let was = seat_view seat in
        IfOk result (λ s. seat_view s ≡ tally was.parts (was.count + 1) None) }
    ensures err { IfErr result (λ s. IsSameSeat seat s) }
    ensures alone { let was = seat_view seat in
        was.parts ≡ lock_name counter.now → was.took ≡ None → IsOk result }
{
    match counter.try_take::<Grab>(seat) {
        Ok(turn) => Ok(add_to(counter, turn)),
        Err(back) => Err(back),
    }
}

/// Adds 1 as many times, each in a turn of its own. It may wait.
pub fn count_up<R: Wait>(
    rt: &R,
    counter: &Counter,
    mut seat: CounterSeat,
    times: u64,
) -> CounterSeat
    requires seat { IsSeatOf counter.now seat }
    requires part { 0 < (seat_view seat).parts }
    requires took { (seat_view seat).took ≡ None }
    ensures seat { IsSeatOf counter.now result }
    ensures view { let was = seat_view seat in
        seat_view result ≡ tally was.parts (was.count + times) None }
{
    for i in 0..times {
        seat = add_one(rt, counter, seat);
    }
    seat
}

/// Counts up in as many threads as the seat has parts, each with a seat of its own. It may wait.
pub fn count_apart<R: Threads + Wait + Sync>(
    rt: &R,
    counter: &Counter,
    seat: CounterSeat,
    parts: u64,
    times: u64,
) -> CounterSeat
    requires seat { IsSeatOf counter.now seat }
    requires parts { (0 < parts) × ((seat_view seat).parts ≡ parts) }
    requires took { (seat_view seat).took ≡ None }
    ensures seat { IsSeatOf counter.now result }
    ensures view { seat_view result ≡ tally parts ((seat_view seat).count + parts * times) None }
{
    if parts == 1 {
        return count_up(rt, counter, seat, times);
    }
    let (left, right) = counter.split::<Halves>(seat);
    let half = parts / 2;
    let (left, right) = join(
        rt,
        move || -> CounterSeat
            requires { IsSync R.row × IsSeatOf counter.now left × (half < parts)
                × ((seat_view left).parts ≡ parts - half) × ((seat_view left).took ≡ None) }
            ensures { IsSeatOf counter.entry.now result × (seat_view result
                ≡ tally (parts - half) ((seat_view left).count + (parts - half) * times) None) }
        { count_apart(rt, counter, left, parts - half, times) },
        move || -> CounterSeat
            requires { IsSync R.row × IsSeatOf counter.now right × (0 < half)
                × ((seat_view right).parts ≡ half) × ((seat_view right).took ≡ None) }
            ensures { IsSeatOf counter.entry.now result × (seat_view result
                ≡ tally half ((seat_view right).count + half * times) None) }
        { count_apart(rt, counter, right, half, times) },
    );
    counter.join::<Both, Same>(left, right)
}

/// Reads the sum. It may wait.
///
/// A caller who joined every seat has all parts, and learns that it is the sum of their counts.
pub fn read_sum<R: Wait>(rt: &R, counter: &Counter, seat: CounterSeat) -> (u64, CounterSeat)
    requires seat { IsSeatOf counter.now seat }
    requires part { 0 < (seat_view seat).parts }
    ensures seat { IsSeatOf counter.now result.1 }
    ensures view { let was = seat_view seat in
        seat_view result.1 ≡ tally was.parts was.count None }
    ensures sum { (seat_view seat).parts ≡ lock_name counter.now
        → result.0 ≡ (seat_view seat).count % 2 ^ 64 }
{
    let mut turn = counter.take::<Grab, R>(rt, seat);
    let value = *turn.value(counter);
    (value, counter.give::<Return>(turn, 0))
}

/// Counts up from 0 in as many threads, a number of times in each. It takes memory, and may wait.
pub fn count_by_threads<R: Threads + Wait + Sync>(
    rt: &R,
    alloc: Global,
    threads: u64,
    times: u64,
) -> Result<u64, AllocError>
    requires { 0 < threads }
    ensures { IfOk result (λ all. all ≡ (threads * times) % 2 ^ 64) }
{
    let (counter, seat) = make_counter(alloc, threads)?;
    let seat = count_apart(rt, &counter, seat, threads, times);
    let (all, _seat) = read_sum(rt, &counter, seat);
    Ok(all)
}
