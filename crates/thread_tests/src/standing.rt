//! Who is missing, as a registration is told.
ghost use Rattle.std.specs.Prelude.{◌≡◌};
ghost use Rattle.phase_shared.specs.Regs.{phaser_lock};

use crate::calls::{SumPhaser, SumReg, left, made_with_child, registered, signalled};
use crate::received::{made_receiver, registers, signals};
use phase_base::Mode;
use phase_core::Standing;
use std::sync::Wait;
use std::test::Fail;

// What stands in a place that nobody wrote.
const UNWRITTEN: u64 = 77;

// What it is told, and the first two that are missing.
fn told<R: Wait>(rt: &R, phaser: &SumPhaser, reg: &mut SumReg) -> (Standing, [u64; 2])
    requires { reg.old.at ≡ phaser_lock phaser.now }
    ensures { reg.new.at ≡ reg.old.at }
{
    let mut places = [UNWRITTEN; 2];
    let standing = reg.missing(rt, phaser, &mut places);
    (standing, places)
}

// The founder, numbered 0, and its children 1 to 3 signal and wait; all but 2 have signalled.
#[test]
fn who_never_signals_is_named(rt: HostRuntime) -> Result<(), Fail> {
    let made = made_with_child(&rt, rt.alloc(), 2, Mode::SigWait);
    let Some((phaser, mut founder, mut first)) = made else {
        panic!(rt; "there is memory")
    };
    let Some(mut second) = registered(&phaser, &mut founder, Mode::SigWait) else {
        panic!(rt; "there is memory")
    };
    let Some(mut third) = registered(&phaser, &mut founder, Mode::SigWait) else {
        panic!(rt; "there is memory")
    };
    let before = told(&rt, &phaser, &mut founder);
    let _founder = signalled(&phaser, &mut founder);
    let _first = signalled(&phaser, &mut first);
    let _third = signalled(&phaser, &mut third);
    let waiting = told(&rt, &phaser, &mut third);
    let tried = third.try_standing(&phaser);
    let asked = second.standing(&rt, &phaser);
    left(&rt, &phaser, second);
    let after = told(&rt, &phaser, &mut first);
    left(&rt, &phaser, first);
    left(&rt, &phaser, third);
    left(&rt, &phaser, founder);
    let none = Standing {
        tasks: 4,
        signallers: 4,
        waiters: 4,
        phase: 0,
        signalled: 0,
    };
    let one = Standing {
        signalled: 3,
        ..none
    };
    let next = Standing {
        tasks: 3,
        signallers: 3,
        waiters: 3,
        phase: 1,
        signalled: 0,
    };
    assert_eq!(rt; before, (none, [0, 1]));
    assert_eq!(rt; waiting, (one, [2, UNWRITTEN]));
    assert_eq!(rt; tried, Ok(one));
    assert_eq!(rt; asked, one);
    assert_eq!(rt; after, (next, [0, 1]));
    assert_eq!(rt; one.missing(), 1);
    Ok(())
}

// The founder has sent to phase 0, and its child, numbered 1, has not: a receiver is told so, and
// keeps nothing of it.
#[test]
fn a_receiver_is_told_who_is_missing(rt: HostRuntime) -> Result<(), Fail> {
    let alloc = rt.alloc();
    let Some((phaser, mut founder)) = made_receiver(alloc, 2) else {
        panic!(rt; "there is memory")
    };
    let Some(mut child) = registers(&rt, alloc, &phaser, &mut founder, Mode::SigWait) else {
        panic!(rt; "there is memory")
    };
    let phase = signals(&rt, &phaser, &mut founder, 5);
    let mut places = [UNWRITTEN; 2];
    let waiting = child.missing(&rt, &phaser, &mut places);
    let mut tried_places = [UNWRITTEN; 2];
    let tried = founder.try_missing(&phaser, &mut tried_places);
    let asked = founder.standing(&rt, &phaser);
    let looked = child.try_standing(&phaser);
    let is_empty = child.values().is_empty();
    let _child = child.leave(&rt, alloc, &phaser);
    let _founder = founder.leave(&rt, alloc, &phaser);
    let one = Standing {
        tasks: 2,
        signallers: 2,
        waiters: 2,
        phase: 0,
        signalled: 1,
    };
    assert_eq!(rt; (phase, is_empty), (Some(0), true));
    assert_eq!(rt; (waiting, places), (one, [1, UNWRITTEN]));
    assert_eq!(rt; (tried, tried_places), (Ok(one), [1, UNWRITTEN]));
    assert_eq!(rt; (asked, looked), (one, Ok(one)));
    Ok(())
}
