//! Calls that wait for nobody: answers and refusals in their order.
ghost use Rattle.std.specs.Prelude.{◌≡◌, IfSome};
ghost use Rattle.phase_shared.specs.Regs.{phaser_lock};

use crate::calls::{
    SumPhaser, SumReg, Turned, goes_on, left, made, made_with_child, registered, waited,
};
use phase_accum::{Outcome, Single, Sum};
use phase_base::{Mode, Spec};
use phase_core::{Got, RegisterRefusal, SignalRefusal, WaitRefusal};
use phase_shared::one_send::{OneSend, try_signal_value};
use phase_shared::{Next, NoRule, Past, Phaser, Reg, SendRefusal, Tried};
use std::sync::Wait;
use std::test::Fail;

#[derive(Clone, Copy)]
enum Call {
    Send(i64),
    Signal,
    Wait,
}

#[derive(Clone, Copy, Debug, PartialEq, Eq)]
enum Answer {
    Held,
    NotHeld(SendRefusal),
    Joined(u64),
    NotJoined(Tried<SignalRefusal>),
    Gets(Got),
    GetsNot(Tried<WaitRefusal>),
}

fn answer_to(phaser: &Phaser<Sum, NoRule>, reg: &mut Reg<Sum, NoRule>, call: Call) -> Answer
    requires { reg.old.at ≡ phaser_lock phaser.now }
    ensures { reg.new.at ≡ reg.old.at }
{
    match call {
        Call::Send(value) => match reg.send(value) {
            Ok(()) => Answer::Held,
            Err(refusal) => Answer::NotHeld(refusal),
        },
        Call::Signal => match reg.try_signal(phaser, None) {
            Ok(phase) => Answer::Joined(phase),
            Err(tried) => Answer::NotJoined(tried),
        },
        Call::Wait => match reg.try_wait(phaser) {
            Ok(got) => Answer::Gets(got),
            Err(tried) => Answer::GetsNot(tried),
        },
    }
}

// Whether each call has its answer.
fn are_answered(
    phaser: &Phaser<Sum, NoRule>,
    reg: &mut Reg<Sum, NoRule>,
    rows: &[(Call, Answer)],
) -> bool
    requires { reg.old.at ≡ phaser_lock phaser.now }
    ensures { reg.new.at ≡ reg.old.at }
{
    let mut all = true;
    for (call, expected) in rows {
        let answer = answer_to(phaser, reg, *call);
        all = all && answer == *expected;
    }
    all
}

fn value(phase: u64, value: i64) -> Answer {
    Answer::Gets(Got::Value {
        phase,
        outcome: Outcome::Value(value),
    })
}

// Leaves, and tells whether it could at once.
fn leave_at_once(
    rt: &impl Wait,
    phaser: &Phaser<Sum, NoRule>,
    reg: Reg<Sum, NoRule>,
) -> (bool, Past<Sum, NoRule>)
    requires { reg.at ≡ phaser_lock phaser.now }
    ensures { result.1.at ≡ phaser_lock phaser.now }
{
    match reg.try_leave(phaser) {
        Ok(past) => (true, past),
        Err(back) => (false, back.leave(rt, phaser)),
    }
}

// A child sends and signals, and its founder waits too early, and then in time.
fn answers_in_turn(phaser: &SumPhaser, first: &mut SumReg, second: &mut SumReg) -> bool
    requires first { first.old.at ≡ phaser_lock phaser.now }
    requires second { second.old.at ≡ phaser_lock phaser.now }
    ensures at { (first.new.at ≡ first.old.at) × (second.new.at ≡ second.old.at) }
{
    let held = [
        (Call::Send(7), Answer::Held),
        (Call::Send(i64::MIN), Answer::NotHeld(SendRefusal::BadValue)),
        (Call::Signal, Answer::Joined(0)),
    ];
    let in_turn = [
        (
            Call::Wait,
            Answer::GetsNot(Tried::Refused(WaitRefusal::SignalFirst)),
        ),
        (Call::Signal, Answer::Joined(0)),
        (Call::Wait, value(0, 7)),
    ];
    let ahead = [
        (Call::Signal, Answer::Joined(1)),
        (Call::Signal, Answer::Joined(2)),
        (
            Call::Signal,
            Answer::NotJoined(Tried::Refused(SignalRefusal::Ahead)),
        ),
    ];
    let is_held = are_answered(phaser, second, &held);
    let is_in_turn = are_answered(phaser, first, &in_turn);
    let is_ahead = are_answered(phaser, second, &ahead);
    is_held && is_in_turn && is_ahead
}

// Where a registration stands, and its mode.
fn standing(reg: &SumReg) -> ((u64, u64), Mode) {
    (reg.phase(), reg.mode())
}

// The same two, which have met.
fn met(phaser: &SumPhaser, first: SumReg, second: SumReg) -> (SumReg, SumReg)
    requires { (first.at ≡ phaser_lock phaser.now) × (second.at ≡ phaser_lock phaser.now) }
    ensures { (result.0.at ≡ first.at) × (result.1.at ≡ second.at) }
{
    first.meet(phaser, second)
}

#[test]
fn shared_refusals(rt: HostRuntime) -> Result<(), Fail> {
    let Some((phaser, mut first, mut second)) = made_with_child(&rt, rt.alloc(), 2, Mode::Sig)
    else {
        panic!(rt; "the founder is alone, and there is memory")
    };
    let are_in_turn = answers_in_turn(&phaser, &mut first, &mut second);
    let (mut first, second) = met(&phaser, first, second);
    let stood = (standing(&first), standing(&second));
    let (second_has_left, past) = leave_at_once(&rt, &phaser, second);
    let alone = [(Call::Signal, Answer::Joined(1)), (Call::Wait, value(1, 0))];
    let are_alone = are_answered(&phaser, &mut first, &alone);
    let (first_has_left, last) = leave_at_once(&rt, &phaser, first);
    let _both = past.join(&phaser, last);
    assert_eq!(rt; (are_in_turn, are_alone), (true, true));
    assert_eq!(rt; stood, (((1, 1), Mode::Single), ((3, 0), Mode::Sig)));
    assert_eq!(rt; (second_has_left, first_has_left), (true, true));
    Ok(())
}

// Why a child that signals is refused, where it is.
fn signaller_refused<R: Wait>(
    rt: &R,
    phaser: &SumPhaser,
    parent: &mut SumReg,
) -> Option<Tried<RegisterRefusal>>
    requires { parent.old.at ≡ phaser_lock phaser.now }
    ensures { parent.new.at ≡ parent.old.at }
{
    match parent.try_register(phaser, Mode::Sig) {
        Ok(child) => {
            left(rt, phaser, child);
            None
        }
        Err(tried) => Some(tried),
    }
}

// Sends a value, and tells what is held then.
fn held_after(reg: &mut SumReg, value: i64) -> (Result<(), SendRefusal>, u64)
    ensures { reg.new.at ≡ reg.old.at }
{
    let sent = reg.send(value);
    (sent, reg.pending())
}

#[test]
fn a_waiter_sends_nothing_and_has_no_signaller(rt: HostRuntime) -> Result<(), Fail> {
    let Some((phaser, mut founder, mut waiter)) = made_with_child(&rt, rt.alloc(), 2, Mode::Wait)
    else {
        panic!(rt; "the founder is alone, and there is memory")
    };
    let refused = signaller_refused(&rt, &phaser, &mut waiter);
    let of_waiter = held_after(&mut waiter, 5);
    let of_founder = held_after(&mut founder, 5);
    left(&rt, &phaser, founder);
    let got = waited(&phaser, &mut waiter);
    left(&rt, &phaser, waiter);
    assert_eq!(rt; refused, Some(Tried::Refused(RegisterRefusal::NotAllowed)));
    assert_eq!(rt; of_waiter, (Err(SendRefusal::NoSignal), 0));
    assert_eq!(rt; of_founder, (Ok(()), 1));
    assert_eq!(rt; got, Ok(Got::Ended));
    Ok(())
}

#[test]
fn one_send_rule(rt: HostRuntime) -> Result<(), Fail> {
    let (phaser, mut founder) = Phaser::<Sum, OneSend>::make(
        rt.alloc(),
        Spec::new(1, 1000)?,
        OneSend,
    )?;
    let mode = founder.mode();
    let answer = if mode.signals() {
        Some(try_signal_value(&phaser, &mut founder, 3))
    } else {
        None
    };
    let got = founder.try_wait(&phaser);
    let _past = founder.leave(&rt, &phaser);
    assert_eq!(rt; answer, Some(Ok(0)));
    let outcome = Outcome::Value(3);
    assert_eq!(rt; got, Ok(Got::Value { phase: 0, outcome }));
    Ok(())
}

fn turned(phase: u64, value: i64) -> Result<Next, SignalRefusal> {
    let outcome = Outcome::Value(value);
    Ok(Next {
        signalled: Some(phase),
        got: Some(Got::Value { phase, outcome }),
    })
}

// The founder sends 5 and goes on twice.
fn goes_on_alone<R: Wait>(
    rt: &R,
    phaser: &SumPhaser,
    founder: &mut SumReg,
) -> (bool, Turned, Turned)
    requires { founder.old.at ≡ phaser_lock phaser.now }
    ensures { founder.new.at ≡ founder.old.at }
{
    let is_held = founder.send(5).is_ok();
    let first = goes_on(rt, phaser, founder, None);
    (is_held, first, goes_on(rt, phaser, founder, None))
}

// The signaller goes on, and then the waiter, with a single and without.
fn go_on_apart<R: Wait>(
    rt: &R,
    phaser: &SumPhaser,
    signaller: &mut SumReg,
    waiter: &mut SumReg,
) -> (Turned, Turned, Turned)
    requires signaller { signaller.old.at ≡ phaser_lock phaser.now }
    requires waiter { waiter.old.at ≡ phaser_lock phaser.now }
    ensures at { (signaller.new.at ≡ signaller.old.at) × (waiter.new.at ≡ waiter.old.at) }
{
    let alone = goes_on(rt, phaser, signaller, None);
    let refused = goes_on(rt, phaser, waiter, Some(Single::Abs));
    (alone, refused, goes_on(rt, phaser, waiter, None))
}

#[test]
fn a_founder_alone_goes_on_by_itself(rt: HostRuntime) -> Result<(), Fail> {
    let Some((phaser, mut founder)) = made(rt.alloc(), 1) else {
        panic!(rt; "there is memory")
    };
    let turned_alone = goes_on_alone(&rt, &phaser, &mut founder);
    let Some(mut waiter) = registered(&phaser, &mut founder, Mode::Wait) else {
        panic!(rt; "the founder holds a waiter")
    };
    let Some(mut signaller) = registered(&phaser, &mut founder, Mode::Sig) else {
        panic!(rt; "the founder holds a signaller")
    };
    left(&rt, &phaser, founder);
    let (alone, refused, got) = go_on_apart(&rt, &phaser, &mut signaller, &mut waiter);
    left(&rt, &phaser, signaller);
    left(&rt, &phaser, waiter);
    assert_eq!(rt; turned_alone, (true, turned(0, 5), turned(1, 0)));
    let signalled = Some(2);
    assert_eq!(rt;
        alone,
        Ok(Next {
            signalled,
            got: None
        })
    );
    assert_eq!(rt; refused, Err(SignalRefusal::NotSingle));
    let outcome = Outcome::Value(0);
    let value = Some(Got::Value { phase: 2, outcome });
    assert_eq!(rt;
        got,
        Ok(Next {
            signalled: None,
            got: value
        })
    );
    Ok(())
}

// Registers a child, by a second call where memory was wanting.
fn child_of(phaser: &Phaser<Sum, NoRule>, reg: &mut Reg<Sum, NoRule>) -> Option<Reg<Sum, NoRule>>
    requires { reg.old.at ≡ phaser_lock phaser.now }
    ensures at { reg.new.at ≡ reg.old.at }
    ensures child { IfSome result (λ child. child.at ≡ phaser_lock phaser.now) }
{
    match reg.try_register(phaser, Mode::Sig) {
        Ok(child) => return Some(child),
        Err(tried) => {
            if tried != Tried::Refused(RegisterRefusal::OutOfMemory) {
                return None;
            }
        }
    }
    match reg.try_register(phaser, Mode::Sig) {
        Ok(child) => Some(child),
        Err(_) => None,
    }
}

// Whether so many can be registered, each by the one before.
fn are_registered<R: Wait>(
    rt: &R,
    phaser: &Phaser<Sum, NoRule>,
    reg: &mut Reg<Sum, NoRule>,
    count: u64,
) -> bool
    requires { reg.old.at ≡ phaser_lock phaser.now }
    ensures { reg.new.at ≡ reg.old.at }
{
    if count == 0 {
        return true;
    }
    let Some(mut child) = child_of(phaser, reg) else {
        return false;
    };
    let others = are_registered(rt, phaser, &mut child, count - 1);
    let _past = child.leave(rt, phaser);
    others
}

// Where one allocation is refused, the same call can be made again.
#[test]
fn twenty_registrations(rt: HostRuntime) -> Result<(), Fail> {
    let Some((phaser, mut founder)) = made(rt.alloc(), 2) else {
        panic!(rt; "there is memory")
    };
    let all = are_registered(&rt, &phaser, &mut founder, 20);
    left(&rt, &phaser, founder);
    assert!(rt; all);
    Ok(())
}
