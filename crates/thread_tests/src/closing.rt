//! A phaser that is closed: what is complete is got, nobody waits, and all else goes on.
ghost use Rattle.std.specs.Prelude.{◌≡◌, None, IfSome};
ghost use Rattle.phase_shared.specs.Regs.{phaser_lock};

use crate::calls::{SumPhaser, SumReg, left, made_with_child, registered, signalled, waited};
use phase_accum::{Outcome, Pending, Sum};
use phase_base::Mode;
use phase_core::{Got, SignalRefusal, WaitRefusal};
use phase_shared::{Next, Stopped};
use std::sync::Wait;
use std::test::Fail;
use std::thread::{Threads, join_mut};

// Waits for its phase, but no longer than until the phaser is closed.
fn waited_or_closed<R: Wait>(
    rt: &R,
    phaser: &SumPhaser,
    reg: &mut SumReg,
) -> Result<Got, Stopped<WaitRefusal>>
    requires { reg.old.at ≡ phaser_lock phaser.now }
    ensures { reg.new.at ≡ reg.old.at }
{
    reg.wait_or_closed(rt, phaser)
}

// Signals its phase, but waits no longer than until the phaser is closed.
fn signalled_or_closed<R: Wait>(
    rt: &R,
    phaser: &SumPhaser,
    reg: &mut SumReg,
) -> Result<u64, Stopped<SignalRefusal>>
    requires { reg.old.at ≡ phaser_lock phaser.now }
    ensures { reg.new.at ≡ reg.old.at }
{
    reg.signal_or_closed(rt, phaser, None)
}

// The founder completes phase 0, closes, and completes phase 1: the taker gets both, and in between
// it is told that the phaser is closed. Then the founder leaves, and the stream has ended.
#[test]
fn complete_phases_are_got_after_a_close(rt: HostRuntime) -> Result<(), Fail> {
    let made = made_with_child(&rt, rt.alloc(), 2, Mode::Wait);
    let Some((phaser, mut founder, mut taker)) = made else {
        panic!(rt; "there is memory")
    };
    let is_open = !phaser.is_closed();
    let _phase = signalled(&phaser, &mut founder);
    phaser.close();
    let first = waited_or_closed(&rt, &phaser, &mut taker);
    let closed = waited_or_closed(&rt, &phaser, &mut taker);
    let _got = waited(&phaser, &mut founder);
    let second = signalled_or_closed(&rt, &phaser, &mut founder);
    let third = waited_or_closed(&rt, &phaser, &mut taker);
    left(&rt, &phaser, founder);
    let last = waited_or_closed(&rt, &phaser, &mut taker);
    left(&rt, &phaser, taker);
    let outcome = Outcome::Value(0);
    assert!(rt; is_open && phaser.is_closed());
    assert_eq!(rt; first, Ok(Got::Value { phase: 0, outcome }));
    assert_eq!(rt; closed, Err(Stopped::Closed));
    assert_eq!(rt; second, Ok(1));
    assert_eq!(rt; third, Ok(Got::Value { phase: 1, outcome }));
    assert_eq!(rt; last, Ok(Got::Ended));
    Ok(())
}

// At bound 2 the third signal is ahead until the founder has got phase 0. A refusal that waiting
// would not change is told as ever.
#[test]
fn a_signal_that_is_ahead_is_told_of_the_close(rt: HostRuntime) -> Result<(), Fail> {
    let made = made_with_child(&rt, rt.alloc(), 2, Mode::Sig);
    let Some((phaser, mut founder, mut sender)) = made else {
        panic!(rt; "there is memory")
    };
    phaser.close();
    let _first = signalled_or_closed(&rt, &phaser, &mut sender);
    let _second = signalled_or_closed(&rt, &phaser, &mut sender);
    let is_held = sender.send(7).is_ok();
    let third = signalled_or_closed(&rt, &phaser, &mut sender);
    let held = sender.pending();
    let too_early = waited_or_closed(&rt, &phaser, &mut founder);
    let no_waiter = waited_or_closed(&rt, &phaser, &mut sender);
    left(&rt, &phaser, sender);
    left(&rt, &phaser, founder);
    assert!(rt; is_held);
    assert_eq!(rt; third, Err(Stopped::Closed));
    assert_eq!(rt; held, 1);
    assert_eq!(rt; too_early, Err(Stopped::Refused(WaitRefusal::SignalFirst)));
    assert_eq!(rt; no_waiter, Err(Stopped::Refused(WaitRefusal::NoWait)));
    Ok(())
}

// Signals a phase for each of these lists, but waits no longer than until the phaser is closed.
fn lists_signalled_or_closed<R: Wait>(
    rt: &R,
    phaser: &SumPhaser,
    reg: &mut SumReg,
    lists: &[Pending<Sum>],
) -> Result<u64, Stopped<SignalRefusal>>
    requires at { reg.old.at ≡ phaser_lock phaser.now }
    requires none_held { reg.old.held.count ≡ 0 }
    ensures at { reg.new.at ≡ reg.old.at }
    ensures held { reg.new.held ≡ reg.old.held }
{
    reg.signal_lists_or_closed(rt, phaser, lists, None)
}

// At bound 2 a block of two phases has room once, and then none until the founder has got one.
#[test]
fn a_block_that_is_ahead_is_told_of_the_close(rt: HostRuntime) -> Result<(), Fail> {
    let made = made_with_child(&rt, rt.alloc(), 2, Mode::Sig);
    let Some((phaser, founder, mut sender)) = made else {
        panic!(rt; "there is memory")
    };
    phaser.close();
    let lists = [Pending::new(), Pending::new()];
    let first = lists_signalled_or_closed(&rt, &phaser, &mut sender, &lists);
    let second = lists_signalled_or_closed(&rt, &phaser, &mut sender, &lists);
    left(&rt, &phaser, sender);
    left(&rt, &phaser, founder);
    assert_eq!(rt; first, Ok(0));
    assert_eq!(rt; second, Err(Stopped::Closed));
    Ok(())
}

// Goes on to its next phase, but waits no longer than until the phaser is closed.
fn goes_on_or_stops<R: Wait>(
    rt: &R,
    phaser: &SumPhaser,
    reg: &mut SumReg,
) -> Result<Next, Stopped<SignalRefusal>>
    requires { reg.old.at ≡ phaser_lock phaser.now }
    ensures { reg.new.at ≡ reg.old.at }
{
    reg.next_or_closed(rt, phaser, None)
}

// The child signals phase 0 and gets nothing, as the founder has not signalled it. Once it has,
// both get it, and the next phase is as before. A second signal before the wait is refused.
#[test]
fn a_phase_that_was_open_at_the_close_is_got_later(rt: HostRuntime) -> Result<(), Fail> {
    let made = made_with_child(&rt, rt.alloc(), 2, Mode::SigWait);
    let Some((phaser, mut founder, mut child)) = made else {
        panic!(rt; "there is memory")
    };
    phaser.close();
    let is_held = child.send(4).is_ok();
    let alone = goes_on_or_stops(&rt, &phaser, &mut child);
    let twice = goes_on_or_stops(&rt, &phaser, &mut child);
    let both = goes_on_or_stops(&rt, &phaser, &mut founder);
    let late = waited_or_closed(&rt, &phaser, &mut child);
    let next = goes_on_or_stops(&rt, &phaser, &mut child);
    left(&rt, &phaser, child);
    left(&rt, &phaser, founder);
    let outcome = Outcome::Value(4);
    let got = Got::Value { phase: 0, outcome };
    let signalled_alone = |phase| Next {
        signalled: Some(phase),
        got: None,
    };
    assert!(rt; is_held);
    assert_eq!(rt; alone, Ok(signalled_alone(0)));
    assert_eq!(rt; twice, Err(Stopped::Refused(SignalRefusal::SignalTwice)));
    assert_eq!(rt;
        both,
        Ok(Next {
            signalled: Some(0),
            got: Some(got),
        })
    );
    assert_eq!(rt; late, Ok(got));
    assert_eq!(rt; next, Ok(signalled_alone(1)));
    Ok(())
}

// Waits until the phaser is closed, and leaves. Whether it was told so.
fn waits_until_closed<R: Wait>(rt: &R, phaser: &SumPhaser, slot: &mut Option<SumReg>) -> bool
    requires { IfSome slot.old (λ reg. reg.at ≡ phaser_lock phaser.now) }
    ensures { slot.new ≡ None }
{
    let Some(mut reg) = slot.take() else {
        return false;
    };
    let got = waited_or_closed(rt, phaser, &mut reg);
    left(rt, phaser, reg);
    got == Err(Stopped::Closed)
}

// Two wait, and one of them is to be woken by the close of the other's helper.
fn are_told<R: Threads + Wait + Sync>(
    rt: &R,
    phaser: &SumPhaser,
    one: SumReg,
    other: SumReg,
) -> (bool, (bool, ()))
    requires { (one.at ≡ phaser_lock phaser.now) × (other.at ≡ phaser_lock phaser.now) }
{
    let mut first = Some(one);
    let mut second = Some(other);
    let all = join_mut(
        rt,
        &mut || -> bool
            requires { IfSome first (λ reg. reg.at ≡ phaser_lock phaser.now) }
            ensures { first.exit ≡ None }
        { waits_until_closed(rt, phaser, &mut first) },
        &mut || -> (bool, ())
            requires { IfSome second (λ reg. reg.at ≡ phaser_lock phaser.now) }
            ensures { second.exit ≡ None }
        {
            join_mut(
                rt,
                &mut || -> bool
                    requires { IfSome second (λ reg. reg.at ≡ phaser_lock phaser.now) }
                    ensures { second.exit ≡ None }
                { waits_until_closed(rt, phaser, &mut second) },
                &mut || phaser.close(),
            )
        },
    );
    let None = first else { unreachable!() };
    let None = second else { unreachable!() };
    all
}

#[test]
fn who_waits_is_told_of_the_close(rt: HostRuntime) -> Result<(), Fail> {
    let made = made_with_child(&rt, rt.alloc(), 2, Mode::Wait);
    let Some((phaser, mut founder, one)) = made else {
        panic!(rt; "there is memory")
    };
    let Some(other) = registered(&phaser, &mut founder, Mode::Wait) else {
        panic!(rt; "there is memory")
    };
    let told = are_told(&rt, &phaser, one, other);
    left(&rt, &phaser, founder);
    assert_eq!(rt; told, (true, (true, ())));
    Ok(())
}
