//! What registrations got, kept beside them: `phase_received`.
ghost use Rattle.std.specs.Prelude.{◌≡◌, IfSome};
ghost use Rattle.phase_shared.specs.Regs.{phaser_lock};

use crate::calls::SumPhaser;
use phase_accum::{Outcome, Sum};
use phase_base::{Mode, Spec};
use phase_core::Got;
use phase_received::{Receipts, ReceiveFault, Receiver};
use phase_shared::{NoRule, Phaser};
use std::alloc::Global;
use std::sync::Wait;
use std::test::Fail;

pub(crate) type SumReceiver = Receiver<Sum, NoRule>;

pub(crate) type SumReceipts = Receipts<Sum, NoRule>;

// A phaser with a bound, and its founder, which has got nothing yet.
pub(crate) fn made_receiver(alloc: Global, bound: u64) -> Option<(SumPhaser, SumReceiver)>
    ensures { IfSome result (λ made. made.1.at ≡ phaser_lock made.0) }
{
    let Ok(limits) = Spec::new(bound, 1000) else {
        return None;
    };
    let Ok((phaser, founder)) = Phaser::<Sum, NoRule>::make(alloc, limits, NoRule) else {
        return None;
    };
    Some((phaser, SumReceiver::new(founder, Vec::new(alloc))))
}

// A child in a mode, where there is memory and the mode is held.
pub(crate) fn registers<R: Wait>(
    rt: &R,
    alloc: Global,
    phaser: &SumPhaser,
    parent: &mut SumReceiver,
    mode: Mode,
) -> Option<SumReceiver>
    requires { parent.old.at ≡ phaser_lock phaser.now }
    ensures at { parent.new.at ≡ parent.old.at }
    ensures child { IfSome result (λ child. child.at ≡ phaser_lock phaser.now) }
{
    match parent.register(rt, alloc, phaser, mode) {
        Ok(child) => Some(child),
        Err(_) => None,
    }
}

// Sends a value and signals, and tells the phase.
pub(crate) fn signals<R: Wait>(
    rt: &R,
    phaser: &Phaser<Sum, NoRule>,
    receiver: &mut SumReceiver,
    value: i64,
) -> Option<u64>
    requires { receiver.old.at ≡ phaser_lock phaser.now }
    ensures { receiver.new.at ≡ receiver.old.at }
{
    let is_held = receiver.send(value).is_ok();
    match receiver.signal(rt, phaser, None) {
        Ok(phase) => is_held.then_some(phase),
        Err(_) => None,
    }
}

// Both together, where there is memory for it.
pub(crate) fn joins(
    phaser: &Phaser<Sum, NoRule>,
    one: SumReceipts,
    other: SumReceipts,
) -> Option<SumReceipts>
    requires { (one.at ≡ phaser_lock phaser.now) × (other.at ≡ phaser_lock phaser.now) }
    ensures { IfSome result (λ receipts. receipts.at ≡ phaser_lock phaser.now) }
{
    match one.join(phaser, other) {
        Ok(both) => Some(both),
        Err(_) => None,
    }
}

// Whether these are the lists.
pub(crate) fn are_lists(
    first: &[Outcome],
    others: &[Vec<Outcome>],
    expected: &[&[Outcome]],
) -> bool {
    let mut wanted = expected.iter();
    let mut all = others.len() + 1 == expected.len() && wanted.next() == Some(&first);
    for (list, wanted) in others.iter().zip(wanted) {
        all = all && list.as_slice() == *wanted;
    }
    all
}

// Whether one signals with a value and waits, and the other waits for the same phase.
fn go_on<R: Wait>(
    rt: &R,
    phaser: &Phaser<Sum, NoRule>,
    one: &mut SumReceiver,
    other: &mut SumReceiver,
    value: i64,
) -> bool
    requires { (one.old.at ≡ phaser_lock phaser.now) × (other.old.at ≡ phaser_lock phaser.now) }
    ensures { (one.new.at ≡ one.old.at) × (other.new.at ≡ other.old.at) }
{
    let is_held = one.send(value).is_ok();
    let next = one.next(rt, phaser, None);
    let got = other.wait(rt, phaser);
    is_held && matches!(next, Ok(next) if next.got == got.ok())
}

// The founder goes through phases 0 and 1 with the waiter, and tells whether it has kept both.
fn go_on_twice<R: Wait>(
    rt: &R,
    phaser: &SumPhaser,
    founder: &mut SumReceiver,
    waiter: &mut SumReceiver,
) -> bool
    requires founder { founder.old.at ≡ phaser_lock phaser.now }
    requires waiter { waiter.old.at ≡ phaser_lock phaser.now }
    ensures at { (founder.new.at ≡ founder.old.at) × (waiter.new.at ≡ waiter.old.at) }
{
    let first = go_on(rt, phaser, founder, waiter, 3);
    let second = go_on(rt, phaser, founder, waiter, 4);
    let kept = [Outcome::Value(3), Outcome::Value(4)];
    first && second && founder.values() == kept.as_slice()
}

// A founder signals once more with 5, and tells whether it is one phase ahead of its waits.
fn signals_ahead<R: Wait>(rt: &R, phaser: &SumPhaser, founder: &mut SumReceiver) -> bool
    requires { founder.old.at ≡ phaser_lock phaser.now }
    ensures { founder.new.at ≡ founder.old.at }
{
    let phase = signals(rt, phaser, founder, 5);
    phase == Some(2) && founder.reg().phase() == (3, 2)
}

// Whether the one that came late gets phase 2 and then the end, and the other gets phase 2.
fn get_the_last<R: Wait>(
    rt: &R,
    phaser: &SumPhaser,
    late: &mut SumReceiver,
    waiter: &mut SumReceiver,
) -> bool
    requires late { late.old.at ≡ phaser_lock phaser.now }
    requires waiter { waiter.old.at ≡ phaser_lock phaser.now }
    ensures at { (late.new.at ≡ late.old.at) × (waiter.new.at ≡ waiter.old.at) }
{
    let outcome = Outcome::Value(5);
    let value = Ok(Got::Value { phase: 2, outcome });
    let is_empty = late.values().is_empty();
    let got = late.wait(rt, phaser);
    let ended = late.wait(rt, phaser);
    let other = waiter.wait(rt, phaser);
    is_empty && got == value && ended == Ok(Got::Ended) && other == value
}

// The same receiver, taken apart and put together.
fn made_anew(receiver: SumReceiver) -> SumReceiver
    ensures { result.at ≡ receiver.at }
{
    let (reg, values) = receiver.into_parts();
    SumReceiver::new(reg, values)
}

fn all_joined(
    phaser: &SumPhaser,
    one: SumReceipts,
    two: SumReceipts,
    three: SumReceipts,
) -> Option<SumReceipts>
    requires one { one.at ≡ phaser_lock phaser.now }
    requires two { two.at ≡ phaser_lock phaser.now }
    requires three { three.at ≡ phaser_lock phaser.now }
{
    let both = joins(phaser, one, two)?;
    joins(phaser, both, three)
}

// A founder that signals and waits, a child that waits alone, and one that comes after a phase:
// each keeps what it got, in order, and their receipts stand in the order in which they are joined.
#[test]
fn each_keeps_what_it_got(rt: HostRuntime) -> Result<(), Fail> {
    let alloc = rt.alloc();
    let Some((phaser, mut founder)) = made_receiver(alloc, 2) else {
        panic!(rt; "there is memory")
    };
    let Some(mut waiter) = registers(&rt, alloc, &phaser, &mut founder, Mode::Wait) else {
        panic!(rt; "the founder holds a waiter")
    };
    let are_kept = go_on_twice(&rt, &phaser, &mut founder, &mut waiter);
    let Some(mut late) = registers(&rt, alloc, &phaser, &mut founder, Mode::Wait) else {
        panic!(rt; "the founder holds a waiter")
    };
    let is_ahead = signals_ahead(&rt, &phaser, &mut founder);
    let one = founder.leave(&rt, alloc, &phaser);
    let is_last = get_the_last(&rt, &phaser, &mut late, &mut waiter);
    let two = made_anew(waiter).leave(&rt, alloc, &phaser);
    let three = late.leave(&rt, alloc, &phaser);
    let all = all_joined(&phaser, one, two, three);
    let Some(all) = all else {
        panic!(rt; "there is memory")
    };
    let (first, others) = all.lists();
    let seen = [Outcome::Value(3), Outcome::Value(4), Outcome::Value(5)];
    let expected: [&[Outcome]; 3] = [&seen[..2], seen.as_slice(), &seen[2..]];
    assert!(rt; are_lists(first, others, expected.as_slice()));
    assert_eq!(rt; (are_kept, is_ahead, is_last), (true, true, true));
    Ok(())
}

// A refused wait is told as such, and keeps what was got.
#[test]
fn a_refused_wait_keeps_nothing(rt: HostRuntime) -> Result<(), Fail> {
    let alloc = rt.alloc();
    let Some((phaser, mut founder)) = made_receiver(alloc, 2) else {
        panic!(rt; "there is memory")
    };
    let early = founder.wait(&rt, &phaser);
    let has_none = founder.values().is_empty();
    let (past, first, others) = founder.leave(&rt, alloc, &phaser).into_parts();
    drop(past);
    assert!(rt; matches!(early, Err(ReceiveFault::Refused(_))));
    assert_eq!(rt; (has_none, first.len(), others.len()), (true, 0, 0));
    Ok(())
}
