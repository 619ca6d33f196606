//! Threads that signal, wait and leave, and what each got.
ghost use Rattle.std.specs.Prelude.{◌≡◌, None, IfSome};
ghost use Rattle.phase_shared.specs.Regs.{phaser_lock};

use crate::calls::{left, made_with_child, registered};
use crate::received::{
    SumReceipts, SumReceiver, are_lists, joins, made_receiver, registers, signals,
};
use phase_accum::{Outcome, Sum};
use phase_base::Mode;
use phase_core::Got;
use phase_shared::{NoRule, Phaser, Reg};
use std::alloc::Global;
use std::sync::Wait;
use std::test::Fail;
use std::thread::{Threads, join_mut};

// Sends 0, 1, 2 and so on, each in a phase of its own, and leaves.
fn send_all<R: Wait>(
    rt: &R,
    phaser: &Phaser<Sum, NoRule>,
    slot: &mut Option<Reg<Sum, NoRule>>,
    count: i64,
) -> bool
    requires { IfSome slot.old (λ reg. reg.at ≡ phaser_lock phaser.now) }
    ensures { slot.new ≡ None }
{
    let Some(mut reg) = slot.take() else {
        return false;
    };
    let mut all = true;
    for value in 0..count {
        let is_held = reg.send(value).is_ok();
        let is_joined = reg.signal(rt, phaser, None).is_ok();
        all = all && is_held && is_joined;
    }
    let _past = reg.leave(rt, phaser);
    all
}

// Whether it gets 0, 1, 2 and so on in order, and then that the stream has ended. It leaves.
fn receive_all<R: Wait>(
    rt: &R,
    phaser: &Phaser<Sum, NoRule>,
    slot: &mut Option<Reg<Sum, NoRule>>,
    count: i64,
) -> bool
    requires { IfSome slot.old (λ reg. reg.at ≡ phaser_lock phaser.now) }
    ensures { slot.new ≡ None }
{
    let Some(mut reg) = slot.take() else {
        return false;
    };
    let mut all = true;
    for value in 0..count {
        let outcome = Outcome::Value(value);
        all = all
            && matches!(reg.wait(rt, phaser), Ok(Got::Value { outcome: is, .. }) if is == outcome);
    }
    let has_ended = reg.wait(rt, phaser) == Ok(Got::Ended);
    let _past = reg.leave(rt, phaser);
    all && has_ended
}

fn stream<R: Threads + Wait + Sync>(
    rt: &R,
    phaser: &Phaser<Sum, NoRule>,
    sender: Reg<Sum, NoRule>,
    taker: Reg<Sum, NoRule>,
    count: i64,
) -> (bool, bool)
    requires { (sender.at ≡ phaser_lock phaser.now) × (taker.at ≡ phaser_lock phaser.now) }
{
    let mut first = Some(sender);
    let mut second = Some(taker);
    let all = join_mut(
        rt,
        &mut || -> bool
            requires { IfSome first (λ reg. reg.at ≡ phaser_lock phaser.now) }
            ensures { first.exit ≡ None }
        { send_all(rt, phaser, &mut first, count) },
        &mut || -> bool
            requires { IfSome second (λ reg. reg.at ≡ phaser_lock phaser.now) }
            ensures { second.exit ≡ None }
        { receive_all(rt, phaser, &mut second, count) },
    );
    let None = first else { unreachable!() };
    let None = second else { unreachable!() };
    all
}

#[test]
fn two_threads(rt: HostRuntime) -> Result<(), Fail> {
    let Some((phaser, mut founder, sender)) = made_with_child(&rt, rt.alloc(), 1, Mode::Sig) else {
        panic!(rt; "the founder holds a signaller, and there is memory")
    };
    let Some(taker) = registered(&phaser, &mut founder, Mode::Wait) else {
        panic!(rt; "the founder holds a waiter")
    };
    left(&rt, &phaser, founder);
    assert_eq!(rt; stream(&rt, &phaser, sender, taker, 1000), (true, true));
    Ok(())
}

// What a thread does with its registration before it leaves.
#[derive(Clone, Copy)]
enum Part {
    // Sends a value and signals.
    Signals(i64),
    // Sends a value, and does not signal.
    Sends(i64),
    // Waits for a value in phase 0, and then for the end.
    Takes(i64),
}

fn does<R: Wait>(
    rt: &R,
    phaser: &Phaser<Sum, NoRule>,
    receiver: &mut SumReceiver,
    part: Part,
) -> bool
    requires { receiver.old.at ≡ phaser_lock phaser.now }
    ensures { receiver.new.at ≡ receiver.old.at }
{
    match part {
        Part::Signals(value) => signals(rt, phaser, receiver, value) == Some(0),
        Part::Sends(value) => receiver.send(value).is_ok(),
        Part::Takes(value) => {
            let outcome = Outcome::Value(value);
            let got = receiver.wait(rt, phaser);
            let ended = receiver.wait(rt, phaser);
            got == Ok(Got::Value { phase: 0, outcome }) && ended == Ok(Got::Ended)
        }
    }
}

// What it got and has seen, where it did its part.
fn take_part<R: Wait>(
    rt: &R,
    alloc: Global,
    phaser: &Phaser<Sum, NoRule>,
    slot: &mut Option<SumReceiver>,
    part: Part,
) -> Option<SumReceipts>
    requires { IfSome slot.old (λ receiver. receiver.at ≡ phaser_lock phaser.now) }
    ensures slot { slot.new ≡ None }
    ensures at { IfSome result (λ receipts. receipts.at ≡ phaser_lock phaser.now) }
{
    let mut receiver = slot.take()?;
    let is_done = does(rt, phaser, &mut receiver, part);
    let receipts = receiver.leave(rt, alloc, phaser);
    is_done.then_some(receipts)
}

fn take_two<R: Threads + Wait + Sync>(
    rt: &R,
    alloc: Global,
    phaser: &Phaser<Sum, NoRule>,
    first: &mut Option<SumReceiver>,
    second: &mut Option<SumReceiver>,
    parts: (Part, Part),
) -> Option<SumReceipts>
    requires first { IfSome first.old (λ receiver. receiver.at ≡ phaser_lock phaser.now) }
    requires second { IfSome second.old (λ receiver. receiver.at ≡ phaser_lock phaser.now) }
    ensures slots { (first.new ≡ None) × (second.new ≡ None) }
    ensures at { IfSome result (λ receipts. receipts.at ≡ phaser_lock phaser.now) }
{
    let (one, other) = join_mut(
        rt,
        &mut || -> Option<SumReceipts>
            requires { IfSome first.now (λ receiver. receiver.at ≡ phaser_lock phaser.now) }
            ensures { (first.exit.now ≡ None) × IfSome result (λ receipts.
                receipts.at ≡ phaser_lock phaser.entry.now) }
        { take_part(rt, alloc, phaser, first, parts.0) },
        &mut || -> Option<SumReceipts>
            requires { IfSome second.now (λ receiver. receiver.at ≡ phaser_lock phaser.now) }
            ensures { (second.exit.now ≡ None) × IfSome result (λ receipts.
                receipts.at ≡ phaser_lock phaser.entry.now) }
        { take_part(rt, alloc, phaser, second, parts.1) },
    );
    joins(phaser, one?, other?)
}

fn take_three<R: Threads + Wait + Sync>(
    rt: &R,
    alloc: Global,
    phaser: &Phaser<Sum, NoRule>,
    receivers: (SumReceiver, SumReceiver, SumReceiver),
    parts: (Part, Part, Part),
) -> Option<SumReceipts>
    requires first { receivers.0.at ≡ phaser_lock phaser.now }
    requires second { receivers.1.at ≡ phaser_lock phaser.now }
    requires third { receivers.2.at ≡ phaser_lock phaser.now }
    ensures { IfSome result (λ receipts. receipts.at ≡ phaser_lock phaser.now) }
{
    let mut first = Some(receivers.0);
    let mut second = Some(receivers.1);
    let mut third = Some(receivers.2);
    let (one, others) = join_mut(
        rt,
        &mut || -> Option<SumReceipts>
            requires { IfSome first (λ receiver. receiver.at ≡ phaser_lock phaser.now) }
            ensures { (first.exit ≡ None) × IfSome result (λ receipts.
                receipts.at ≡ phaser_lock phaser.entry.now) }
        { take_part(rt, alloc, phaser, &mut first, parts.0) },
        &mut || -> Option<SumReceipts>
            requires { IfSome second (λ receiver. receiver.at ≡ phaser_lock phaser.now)
                × IfSome third (λ receiver. receiver.at ≡ phaser_lock phaser.now) }
            ensures { (second.exit ≡ None) × (third.exit ≡ None) × IfSome result (λ receipts.
                receipts.at ≡ phaser_lock phaser.entry.now) }
        {
            take_two(
                rt,
                alloc,
                phaser,
                &mut second,
                &mut third,
                (parts.1, parts.2),
            )
        },
    );
    let None = first else { unreachable!() };
    let None = second else { unreachable!() };
    let None = third else { unreachable!() };
    joins(phaser, one?, others?)
}

// The lists are what the joined past says of the founder, the signaller, the waiter and the leaver.
#[test]
fn leave_mid_phase(rt: HostRuntime) -> Result<(), Fail> {
    let alloc = rt.alloc();
    let Some((phaser, mut founder)) = made_receiver(alloc, 2) else {
        panic!(rt; "there is memory")
    };
    let Some(signaller) = registers(&rt, alloc, &phaser, &mut founder, Mode::Sig) else {
        panic!(rt; "the founder holds a signaller")
    };
    let Some(waiter) = registers(&rt, alloc, &phaser, &mut founder, Mode::Wait) else {
        panic!(rt; "the founder holds a waiter")
    };
    let Some(leaver) = registers(&rt, alloc, &phaser, &mut founder, Mode::Sig) else {
        panic!(rt; "the founder holds a signaller")
    };
    let own = founder.leave(&rt, alloc, &phaser);
    let parts = (Part::Signals(4), Part::Takes(4), Part::Sends(9));
    let receivers = (signaller, waiter, leaver);
    let others = take_three(&rt, alloc, &phaser, receivers, parts);
    let Some(others) = others else {
        panic!(rt; "each does its part, and has memory")
    };
    let all = joins(&phaser, own, others);
    let Some(all) = all else {
        panic!(rt; "there is memory")
    };
    let (first, others) = all.lists();
    let expected: [&[Outcome]; 4] = [&[], &[], &[Outcome::Value(4)], &[]];
    assert!(rt; are_lists(first, others, expected.as_slice()));
    Ok(())
}
