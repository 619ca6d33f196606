//! A lock, one with words, and the example of a lock, the counter.
use crate::counting::{count_by_threads, make_counter, read_sum, try_add_one};
use std::test::Fail;
use turn_lock::{Join, Learns, Reads, Split, Tells, TurnLock, TurnRule, WordLock, WordRule};

// A rule that allows everything.
struct AnyValue;

impl TurnRule<u64> for AnyValue {
    type Name = ();

    type View = ();

    ghost holds = { λ _ _ _. Unit {0} };

    ghost first = { λ _. tt };
}

impl WordRule<u64> for AnyValue {
    type Name = ();

    type View = ();

    ghost holds = { λ _ _ _ _ _. Unit {0} };

    ghost first = { λ _. tt };
}

impl Reads<(), ()> for AnyValue {
    ghost then = { λ _ _ _ _. Unit {0} };
}

impl Tells<(), u64, ()> for AnyValue {
    ghost then = { λ _ _ _ _. Unit {0} };
}

impl Learns<(), ()> for AnyValue {
    ghost then = { λ _ _ _. Unit {0} };
}

impl Split<()> for AnyValue {
    ghost left = { λ _. tt };

    ghost right = { λ _. tt };
}

impl Join<()> for AnyValue {
    ghost both = { λ _ _. tt };

    ghost spent = { tt };
}

#[test]
fn turn_lock(rt: HostRuntime) -> Result<(), Fail> {
    let (lock, seat) = TurnLock::<u64, AnyValue>::new(rt.alloc(), &(), 5)?;
    let (a, b) = lock.split::<AnyValue>(seat);

    let mut turn = lock.take::<AnyValue, HostRuntime>(&rt, a);
    let first = *turn.value(&lock);
    let (b, was_busy) = match lock.try_take::<AnyValue>(b) {
        Ok(turn) => (lock.give::<AnyValue>(turn, 0), false),
        Err(b) => (b, true),
    };
    *turn.value(&lock) = 6;
    let a = lock.give::<AnyValue>(turn, 7);
    assert!(rt; was_busy);
    assert_eq!(rt; first, 5);
    assert_eq!(rt; lock.told(), 7);

    let Ok(mut turn) = lock.try_take::<AnyValue>(b) else {
        panic!(rt; "the turn was free")
    };
    let second = *turn.value(&lock);
    let meanwhile = lock.told();
    let b = lock.give::<AnyValue>(turn, 0);
    assert_eq!(rt; second, 6);
    assert_eq!(rt; meanwhile, 7);
    assert_eq!(rt; lock.told(), 0);

    let seat = lock.join::<AnyValue, AnyValue>(a, b);
    let mut turn = lock.take::<AnyValue, HostRuntime>(&rt, seat);
    let last = *turn.value(&lock);
    let _seat = lock.give::<AnyValue>(turn, 0);
    assert_eq!(rt; last, 6);
    Ok(())
}

#[test]
fn words_are_written_by_seats_and_turns(rt: HostRuntime) -> Result<(), Fail> {
    let (lock, seat) = WordLock::<u64, AnyValue>::new(rt.alloc(), &(), 5)?;
    let (a, b) = lock.split::<AnyValue>(seat);
    let (a, unwritten) = lock.read::<AnyValue>(a, 286);
    let a = lock.write::<AnyValue>(a, 286, 11);
    let (b, written) = lock.read::<AnyValue>(b, 286);
    let (b, first_told) = lock.look::<AnyValue>(b);
    assert_eq!(rt; [unwritten, written, first_told], [0, 11, 0]);
    assert!(rt; lock.is_free());

    let Ok(turn) = lock.try_take::<AnyValue>(a) else {
        panic!(rt; "the turn was free")
    };
    let was_free = lock.is_free();
    let (b, was_busy) = match lock.try_take::<AnyValue>(b) {
        Ok(turn) => (lock.give::<AnyValue>(turn, 0), false),
        Err(b) => (b, true),
    };
    let b = lock.write::<AnyValue>(b, 0, u64::MAX);
    let (turn, of_other) = lock.read_in::<AnyValue>(turn, 0);
    let turn = lock.write_in::<AnyValue>(turn, 286, 12);
    let (mut turn, told_in) = lock.told_in(turn);
    let value = turn.value_in(&lock);
    let first = *value;
    *value = 6;
    let a = lock.give::<AnyValue>(turn, (1 << 63) - 1);
    assert!(rt; was_busy);
    assert!(rt; !was_free);
    assert_eq!(rt; [first, of_other, told_in], [5, u64::MAX, 0]);
    assert_eq!(rt; lock.told(), (1 << 63) - 1);

    let seat = lock.join::<AnyValue, AnyValue>(b, a);
    let (seat, written) = lock.read::<AnyValue>(seat, 286);
    let (seat, told) = lock.look::<AnyValue>(seat);
    let Ok(mut turn) = lock.try_take::<AnyValue>(seat) else {
        panic!(rt; "the turn is free")
    };
    let second = *turn.value_in(&lock);
    let _seat = lock.give::<AnyValue>(turn, 0);
    assert_eq!(rt; [written, told, second], [12, (1 << 63) - 1, 6]);
    assert_eq!(rt; lock.told(), 0);
    Ok(())
}

#[test]
fn a_seat_alone_is_never_busy(rt: HostRuntime) -> Result<(), Fail> {
    let (counter, seat) = make_counter(rt.alloc(), 1)?;
    let Ok(seat) = try_add_one(&counter, seat) else {
        panic!(rt; "no other seat could have the turn")
    };
    let (sum, _seat) = read_sum(&rt, &counter, seat);
    assert_eq!(rt; sum, 1);
    Ok(())
}

#[test]
fn thousand_turns(rt: HostRuntime) -> Result<(), Fail> {
    assert_eq!(rt; count_by_threads(&rt, rt.alloc(), 2, 1000)?, 2000);
    Ok(())
}

#[test]
fn sixteen_threads(rt: HostRuntime) -> Result<(), Fail> {
    assert_eq!(rt; count_by_threads(&rt, rt.alloc(), 16, 2000)?, 32_000);
    Ok(())
}
