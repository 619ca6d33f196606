//! Registrations that join, leave and are replaced while others go on.
ghost use Rattle.std.specs.Prelude.{◌≡◌, ◌<◌, [], None, IfSome};
ghost use denote.Param.Send.{IsSync};
ghost use Rattle.phase_shared.specs.Regs.{phaser_lock};

use crate::received::{SumReceipts, SumReceiver, joins, made_receiver, signals};
use phase_accum::{Outcome, Sum};
use phase_base::Mode;
use phase_core::Got;
use phase_shared::{NoRule, Phaser};
use std::alloc::Global;
use std::sync::Wait;
use std::test::Fail;
use std::thread::{Threads, join_mut};

// Whether a wait got as many sends as signallers can have joined the phase.
fn is_count(got: &Option<Got>) -> bool {
    match got {
        Some(Got::Value { phase: _, outcome }) => match outcome {
            Outcome::Value(value) => (1..=32).contains(value),
            _ => false,
        },
        _ => false,
    }
}

// What was kept before with more, where there was some.
fn with_more(
    phaser: &Phaser<Sum, NoRule>,
    kept: Option<SumReceipts>,
    more: SumReceipts,
) -> Option<SumReceipts>
    requires kept { IfSome kept (λ receipts. receipts.at ≡ phaser_lock phaser.now) }
    requires more { more.at ≡ phaser_lock phaser.now }
    ensures { IfSome result (λ receipts. receipts.at ≡ phaser_lock phaser.now) }
{
    match kept {
        Some(kept) => joins(phaser, kept, more),
        None => Some(more),
    }
}

// One phase by itself and with a child that then leaves. Both get the same value.
fn round_with_child<R: Wait>(
    rt: &R,
    alloc: Global,
    phaser: &Phaser<Sum, NoRule>,
    receiver: &mut SumReceiver,
) -> Option<SumReceipts>
    requires { receiver.old.at ≡ phaser_lock phaser.now }
    ensures at { receiver.new.at ≡ receiver.old.at }
    ensures receipts { IfSome result (λ receipts. receipts.at ≡ phaser_lock phaser.now) }
{
    let mut child = match receiver.register(rt, alloc, phaser, Mode::SigWait) {
        Ok(child) => child,
        Err(_) => return None,
    };
    let both_signalled = signals(rt, phaser, &mut child, 1).is_some()
        && signals(rt, phaser, receiver, 1).is_some();
    let first = child.wait(rt, phaser).ok();
    let receipts = child.leave(rt, alloc, phaser);
    let second = receiver.wait(rt, phaser).ok();
    let is_well = both_signalled && first == second && is_count(&first);
    is_well.then_some(receipts)
}

// Sends a value, signals and waits, by one call.
fn goes_on<R: Wait>(
    rt: &R,
    phaser: &Phaser<Sum, NoRule>,
    receiver: &mut SumReceiver,
    value: i64,
) -> Option<Got>
    requires { receiver.old.at ≡ phaser_lock phaser.now }
    ensures { receiver.new.at ≡ receiver.old.at }
{
    if receiver.send(value).is_err() {
        return None;
    }
    match receiver.next(rt, phaser, None) {
        Ok(next) => next.got,
        Err(_) => None,
    }
}

// Goes through as many phases as a seed says, some of them with a child, and leaves.
fn churn<R: Wait>(
    rt: &R,
    alloc: Global,
    phaser: &Phaser<Sum, NoRule>,
    slot: &mut Option<SumReceiver>,
    seed: u64,
) -> Option<SumReceipts>
    requires { IfSome slot.old (λ receiver. receiver.at ≡ phaser_lock phaser.now) }
    ensures slot { slot.new ≡ None }
    ensures at { IfSome result (λ receipts. receipts.at ≡ phaser_lock phaser.now) }
{
    let mut receiver = slot.take()?;
    let mut children = None;
    let mut random = seed;
    let mut all = true;
    for _ in 0..200 + seed % 100 {
        random = random
            .wrapping_mul(6364136223846793005)
            .wrapping_add(1442695040888963407);
        if random >> 62 == 0 {
            match round_with_child(rt, alloc, phaser, &mut receiver) {
                Some(child) => children = with_more(phaser, children, child),
                None => all = false,
            }
            all = all && children.is_some();
        } else {
            let got = goes_on(rt, phaser, &mut receiver, 1);
            all = all && is_count(&got);
        }
    }
    let own = receiver.leave(rt, alloc, phaser);
    if all {
        with_more(phaser, children, own)
    } else {
        None
    }
}

// As many threads as there are parts, each with a registration of its own.
fn by_parts<R: Threads + Wait + Sync>(
    rt: &R,
    alloc: Global,
    phaser: &Phaser<Sum, NoRule>,
    slot: &mut Option<SumReceiver>,
    parts: u64,
    seed: u64,
) -> Option<SumReceipts>
    requires { IfSome slot.old (λ receiver. receiver.at ≡ phaser_lock phaser.now) }
    ensures slot { slot.new ≡ None }
    ensures at { IfSome result (λ receipts. receipts.at ≡ phaser_lock phaser.now) }
{
    if parts <= 1 {
        return churn(rt, alloc, phaser, slot, seed);
    }
    let mut receiver = slot.take()?;
    let half = parts / 2;
    let mut second = match receiver.register(rt, alloc, phaser, Mode::SigWait) {
        Ok(child) => Some(child),
        Err(_) => None,
    };
    let mut first = Some(receiver);
    let (one, other) = join_mut(
        rt,
        &mut || -> Option<SumReceipts>
            requires { IsSync R.row × (half < parts)
                × IfSome first (λ receiver. receiver.at ≡ phaser_lock phaser.now) }
            ensures { (first.exit ≡ None) × IfSome result (λ receipts.
                receipts.at ≡ phaser_lock phaser.entry.now) }
        { by_parts(rt, alloc, phaser, &mut first, parts - half, seed) },
        &mut || -> Option<SumReceipts>
            requires { IsSync R.row × (0 < half)
                × IfSome second (λ receiver. receiver.at ≡ phaser_lock phaser.now) }
            ensures { (second.exit ≡ None) × IfSome result (λ receipts.
                receipts.at ≡ phaser_lock phaser.entry.now) }
        {
            by_parts(
                rt,
                alloc,
                phaser,
                &mut second,
                half,
                seed.wrapping_add(half),
            )
        },
    );
    let None = first else { unreachable!() };
    let None = second else { unreachable!() };
    joins(phaser, one?, other?)
}

// The longest of the lists.
fn longest<'a>(first: &'a [Outcome], others: &'a [Vec<Outcome>]) -> &'a [Outcome] {
    let mut stream = first;
    for list in others {
        if list.len() > stream.len() {
            stream = list.as_slice();
        }
    }
    stream
}

// How many sends of 1 the values add up to.
fn sends_in(stream: &[Outcome]) -> i64 {
    let mut sends = 0i64;
    for outcome in stream {
        if let Outcome::Value(value) = outcome {
            sends = sends.wrapping_add(*value);
        }
    }
    sends
}

// Whether a list begins the stream in phase 0, or has one value.
fn is_of_stream(stream: &[Outcome], list: &[Outcome]) -> bool {
    list.len() == 1 || stream.starts_with(list)
}

// Whether the lists are of one stream: a thread's begins in phase 0, and a child's has one value.
// Each send of 1 comes before a wait for its phase, so there are as many as values in all lists.
fn are_of_one_stream(first: &[Outcome], others: &[Vec<Outcome>]) -> bool {
    let stream = longest(first, others);
    let mut received = first.len() as i64;
    let mut agree = is_of_stream(stream, first);
    for list in others {
        received = received.wrapping_add(list.len() as i64);
        agree = agree && is_of_stream(stream, list.as_slice());
    }
    agree && received == sends_in(stream)
}

#[test]
fn threads_come_and_go(rt: HostRuntime) -> Result<(), Fail> {
    for parts in [2u64, 4, 16] {
        let alloc = rt.alloc();
        let Some((phaser, founder)) = made_receiver(alloc, 2) else {
            panic!(rt; "there is memory")
        };
        let mut slot = Some(founder);
        let kept = by_parts(&rt, alloc, &phaser, &mut slot, parts, parts);
        let None = slot else { unreachable!() };
        let Some(kept) = kept else {
            panic!(rt; "each goes on, and has memory")
        };
        let (first, others) = kept.lists();
        assert!(rt; are_of_one_stream(first, others));
    }
    Ok(())
}
