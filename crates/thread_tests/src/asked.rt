//! Phases that others' turns make.
ghost use Rattle.std.specs.Prelude.{◌≡◌, None, IfSome};
ghost use denote.Param.Send.{IsSync};
ghost use Rattle.phase_shared.specs.Regs.{phaser_lock};

use crate::calls::{SumPhaser, SumReg};
use phase_accum::Sum;
use phase_base::{Mode, Spec};
use phase_shared::{NoRule, Phaser, Reg, Unwoken};
use std::sync::Wait;
use std::sync::atomic::AtomicU64;
use std::test::Fail;
use std::thread::{Threads, join_mut};
use std::time::Duration;

// Goes to so many phases, or until another's turn told it one, and leaves. It tells how many were
// told so.
fn go<R: Wait>(rt: &R, phaser: &SumPhaser, slot: &mut Option<SumReg>, count: u64) -> u64
    requires { IfSome slot.old (λ reg. reg.at ≡ phaser_lock phaser.now) }
    ensures { slot.new ≡ None }
{
    let Some(mut reg) = slot.take() else {
        return 0;
    };
    for _ in 0..count {
        if reg.answers().0 == 0 {
            let _next = reg.next(rt, phaser, None);
        }
    }
    let answers = reg.answers();
    let _past = reg.leave(rt, phaser);
    answers.0
}

// Two threads go to so many phases.
fn meet<R: Threads + Wait + Sync>(
    rt: &R,
    phaser: &SumPhaser,
    mut one: Option<SumReg>,
    mut other: Option<SumReg>,
    count: u64,
) -> (u64, u64)
    requires one { IfSome one (λ reg. reg.at ≡ phaser_lock phaser.now) }
    requires other { IfSome other (λ reg. reg.at ≡ phaser_lock phaser.now) }
{
    let both = join_mut(
        rt,
        &mut || -> u64
            requires { IfSome one (λ reg. reg.at ≡ phaser_lock phaser.now) }
            ensures { one.exit ≡ None }
        { go(rt, phaser, &mut one, count) },
        &mut || -> u64
            requires { IfSome other (λ reg. reg.at ≡ phaser_lock phaser.now) }
            ensures { other.exit ≡ None }
        { go(rt, phaser, &mut other, count) },
    );
    let None = one else { unreachable!() };
    let None = other else { unreachable!() };
    both
}

// One of two threads that meet at a barrier is told its phase by the other's turn, sooner or later.
#[test]
fn asks_are_served(rt: HostRuntime) -> Result<(), Fail> {
    let limits = Spec::new(2, 1_000_000)?;
    let (phaser, mut founder) = SumPhaser::make(rt.alloc(), limits, NoRule)?;
    let child = founder.register(&rt, &phaser, Mode::SigWait).ok();
    assert!(rt; child.is_some());
    let (one, other) = meet(&rt, &phaser, Some(founder), child, 400_000);
    assert!(rt; one > 0 || other > 0);
    Ok(())
}

// So many children that signal and wait, each of which leaves before the next comes.
fn come_and_go<R: Wait>(rt: &R, phaser: &SumPhaser, founder: &mut SumReg, children: u64)
    requires { founder.old.at ≡ phaser_lock phaser.now }
    ensures { founder.new.at ≡ founder.old.at }
{
    for _ in 0..children {
        if let Ok(child) = founder.register(rt, phaser, Mode::SigWait) {
            let _past = child.leave(rt, phaser);
        }
    }
}

// The same as `meet`, of two that are lent.
fn meet_lent<R: Threads + Wait + Sync>(
    rt: &R,
    phaser: &SumPhaser,
    one: &mut Option<SumReg>,
    other: &mut Option<SumReg>,
    count: u64,
) -> (u64, u64)
    requires one { IfSome one.old (λ reg. reg.at ≡ phaser_lock phaser.now) }
    requires other { IfSome other.old (λ reg. reg.at ≡ phaser_lock phaser.now) }
    ensures { (one.new ≡ None) × (other.new ≡ None) }
{
    meet(rt, phaser, one.take(), other.take(), count)
}

// Four threads go to so many phases.
fn meet_four<R: Threads + Wait + Sync>(
    rt: &R,
    phaser: &SumPhaser,
    first: (Option<SumReg>, Option<SumReg>),
    second: (Option<SumReg>, Option<SumReg>),
    count: u64,
) -> ((u64, u64), (u64, u64))
    requires first { IfSome first.0 (λ reg. reg.at ≡ phaser_lock phaser.now)
        × IfSome first.1 (λ reg. reg.at ≡ phaser_lock phaser.now) }
    requires second { IfSome second.0 (λ reg. reg.at ≡ phaser_lock phaser.now)
        × IfSome second.1 (λ reg. reg.at ≡ phaser_lock phaser.now) }
{
    let (mut one, mut other) = first;
    let (mut third, mut fourth) = second;
    let both = join_mut(
        rt,
        &mut || -> (u64, u64)
            requires { IsSync R.row × IfSome one (λ reg. reg.at ≡ phaser_lock phaser.now)
                × IfSome other (λ reg. reg.at ≡ phaser_lock phaser.now) }
            ensures { (one.exit ≡ None) × (other.exit ≡ None) }
        { meet_lent(rt, phaser, &mut one, &mut other, count) },
        &mut || -> (u64, u64)
            requires { IsSync R.row × IfSome third (λ reg. reg.at ≡ phaser_lock phaser.now)
                × IfSome fourth (λ reg. reg.at ≡ phaser_lock phaser.now) }
            ensures { (third.exit ≡ None) × (fourth.exit ≡ None) }
        { meet_lent(rt, phaser, &mut third, &mut fourth, count) },
    );
    let None = one else { unreachable!() };
    let None = other else { unreachable!() };
    let None = third else { unreachable!() };
    let None = fourth else { unreachable!() };
    both
}

// Sixteen have left when four come: they have the lanes of those, and the founder, who leaves too,
// is in nobody's way.
#[test]
fn who_comes_late_asks_too(rt: HostRuntime) -> Result<(), Fail> {
    let limits = Spec::new(2, 1_000_000)?;
    let (phaser, mut founder) = SumPhaser::make(rt.alloc(), limits, NoRule)?;
    come_and_go(&rt, &phaser, &mut founder, 16);
    let one = founder.register(&rt, &phaser, Mode::SigWait).ok();
    let other = founder.register(&rt, &phaser, Mode::SigWait).ok();
    let third = founder.register(&rt, &phaser, Mode::SigWait).ok();
    let fourth = founder.register(&rt, &phaser, Mode::SigWait).ok();
    let _past = founder.leave(&rt, &phaser);
    assert!(rt; one.is_some() && other.is_some() && third.is_some() && fourth.is_some());
    let (first, second) = meet_four(&rt, &phaser, (one, other), (third, fourth), 20_000);
    assert!(rt; first.0 > 0 || first.1 > 0 || second.0 > 0 || second.1 > 0);
    Ok(())
}

// A phaser that wakes nobody who sleeps, so that a thread that asks finds its answer late.
type QuietPhaser = Phaser<Sum, Unwoken>;

type QuietReg = Reg<Sum, Unwoken>;

// A sleep of a call ends after 10 ms, and these are more.
const REST: u64 = 15;

const ROUNDS: u64 = 20;

// Goes to so many phases, and leaves. It tells how many of them others' turns told it.
fn follow<R: Wait>(rt: &R, phaser: &QuietPhaser, slot: &mut Option<QuietReg>) -> u64
    requires { IfSome slot.old (λ reg. reg.at ≡ phaser_lock phaser.now) }
    ensures { slot.new ≡ None }
{
    let Some(mut reg) = slot.take() else { return 0 };
    for _ in 0..ROUNDS {
        let _next = reg.next(rt, phaser, None);
    }
    let answers = reg.answers();
    let _past = reg.leave(rt, phaser);
    answers.0
}

// Completes so many phases, each while the other sleeps, and lets a waiter get it at once. Both
// leave.
fn lead<R: Wait>(rt: &R, phaser: &QuietPhaser, slot: &mut Option<(QuietReg, QuietReg)>)
    requires { IfSome slot.old (λ regs.
        (regs.0.at ≡ phaser_lock phaser.now) × (regs.1.at ≡ phaser_lock phaser.now)) }
    ensures { slot.new ≡ None }
{
    let Some((mut reg, mut waiter)) = slot.take() else {
        return;
    };
    let rest = AtomicU64::new(0);
    for _ in 0..ROUNDS {
        rest.park_timeout(rt, 0, Duration::from_millis(REST));
        let _next = reg.next(rt, phaser, None);
        let _got = waiter.try_wait(phaser);
    }
    let _gone = waiter.leave(rt, phaser);
    let _past = reg.leave(rt, phaser);
}

fn lead_one<R: Threads + Wait + Sync>(
    rt: &R,
    phaser: &QuietPhaser,
    mut one: Option<QuietReg>,
    mut others: Option<(QuietReg, QuietReg)>,
) -> u64
    requires one { IfSome one (λ reg. reg.at ≡ phaser_lock phaser.now) }
    requires others { IfSome others (λ regs.
        (regs.0.at ≡ phaser_lock phaser.now) × (regs.1.at ≡ phaser_lock phaser.now)) }
{
    let (answers, ()) = join_mut(
        rt,
        &mut || -> u64
            requires { IfSome one (λ reg. reg.at ≡ phaser_lock phaser.now) }
            ensures { one.exit ≡ None }
        { follow(rt, phaser, &mut one) },
        &mut ||
            requires { IfSome others (λ regs.
                (regs.0.at ≡ phaser_lock phaser.now) × (regs.1.at ≡ phaser_lock phaser.now)) }
            ensures { others.exit ≡ None }
        { lead(rt, phaser, &mut others) },
    );
    let None = one else { unreachable!() };
    let None = others else { unreachable!() };
    answers
}

// A waiter gets each phase before who asked for it wakes: what answers it is told still. The bound
// is above all phases, so that a waiter that finds the turn taken is in nobody's way.
#[test]
fn an_answer_stays_beside_a_waiter(rt: HostRuntime) -> Result<(), Fail> {
    let limits = Spec::new(64, 1000)?;
    let (phaser, mut founder) = QuietPhaser::make(rt.alloc(), limits, Unwoken)?;
    let child = founder.register(&rt, &phaser, Mode::SigWait).ok();
    let Some(waiter) = founder.register(&rt, &phaser, Mode::Wait).ok() else {
        panic!(rt; "the founder holds a waiter")
    };
    assert!(rt; child.is_some());
    let answers = lead_one(&rt, &phaser, child, Some((founder, waiter)));
    assert!(rt; answers > ROUNDS / 4);
    Ok(())
}
