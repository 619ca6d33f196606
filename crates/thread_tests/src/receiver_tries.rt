//! The calls of a receiver that wait for nobody.
ghost use Rattle.std.specs.Prelude.{◌≡◌, IfSome};
ghost use Rattle.phase_shared.specs.Regs.{phaser_lock};

use crate::calls::SumPhaser;
use crate::received::{SumReceipts, SumReceiver, made_receiver};
use phase_accum::{Outcome, Sum};
use phase_base::Mode;
use phase_core::{Got, SignalRefusal, WaitRefusal};
use phase_received::ReceiveFault;
use phase_shared::{NoRule, Phaser, SendRefusal, Tried};
use std::alloc::Global;
use std::sync::Wait;
use std::test::Fail;

fn value(phase: u64, value: i64) -> Got {
    Got::Value {
        phase,
        outcome: Outcome::Value(value),
    }
}

// Leaves, and tells whether it could at once.
fn leave<R: Wait>(
    rt: &R,
    alloc: Global,
    phaser: &Phaser<Sum, NoRule>,
    receiver: SumReceiver,
) -> (bool, SumReceipts)
    requires { receiver.at ≡ phaser_lock phaser.now }
{
    match receiver.try_leave(alloc, phaser) {
        Ok(receipts) => (true, receipts),
        Err(back) => (false, back.leave(rt, alloc, phaser)),
    }
}

type Waited = Result<Got, ReceiveFault<Tried<WaitRefusal>>>;

// Sends a value and signals.
fn signals_at_once(
    phaser: &SumPhaser,
    receiver: &mut SumReceiver,
    value: i64,
) -> (Result<(), SendRefusal>, Result<u64, Tried<SignalRefusal>>)
    requires { receiver.old.at ≡ phaser_lock phaser.now }
    ensures { receiver.new.at ≡ receiver.old.at }
{
    let sent = receiver.send(value);
    (sent, receiver.try_signal(phaser, None))
}

fn waits_at_once(phaser: &SumPhaser, receiver: &mut SumReceiver) -> Waited
    requires { receiver.old.at ≡ phaser_lock phaser.now }
    ensures { receiver.new.at ≡ receiver.old.at }
{
    receiver.try_wait(phaser)
}

// Whether the waiter waits too early, and after the founder's signal gets the value as it does.
fn are_answered(phaser: &SumPhaser, founder: &mut SumReceiver, waiter: &mut SumReceiver) -> bool
    requires founder { founder.old.at ≡ phaser_lock phaser.now }
    requires waiter { waiter.old.at ≡ phaser_lock phaser.now }
    ensures at { (founder.new.at ≡ founder.old.at) × (waiter.new.at ≡ waiter.old.at) }
{
    let is_empty = waiter.values().is_empty();
    let early = waits_at_once(phaser, waiter);
    let signalled = signals_at_once(phaser, founder, 4);
    let one = waits_at_once(phaser, waiter);
    let other = waits_at_once(phaser, founder);
    let not_yet = ReceiveFault::Refused(Tried::Refused(WaitRefusal::NotYet));
    is_empty
        && early == Err(not_yet)
        && signalled == (Ok(()), Ok(1))
        && (one, other) == (Ok(value(1, 4)), Ok(value(1, 4)))
}

// A child in a mode, where it can be registered at once.
fn registers_at_once(
    alloc: Global,
    phaser: &SumPhaser,
    parent: &mut SumReceiver,
    mode: Mode,
) -> Option<SumReceiver>
    requires { parent.old.at ≡ phaser_lock phaser.now }
    ensures at { parent.new.at ≡ parent.old.at }
    ensures child { IfSome result (λ child. child.at ≡ phaser_lock phaser.now) }
{
    match parent.try_register(alloc, phaser, mode) {
        Ok(child) => Some(child),
        Err(_) => None,
    }
}

// Whether this is the one list.
fn is_list(receipts: &SumReceipts, list: &[Outcome]) -> bool {
    let (first, others) = receipts.lists();
    others.is_empty() && first == list
}

// A founder goes on alone, registers a waiter, and leaves: both keep what their tries got.
#[test]
fn tries_keep_what_they_got(rt: HostRuntime) -> Result<(), Fail> {
    let alloc = rt.alloc();
    let Some((phaser, mut founder)) = made_receiver(alloc, 2) else {
        panic!(rt; "there is memory")
    };
    let signalled = signals_at_once(&phaser, &mut founder, 3);
    let got = waits_at_once(&phaser, &mut founder);
    let Some(mut waiter) = registers_at_once(alloc, &phaser, &mut founder, Mode::Wait) else {
        panic!(rt; "the founder holds a waiter")
    };
    let is_answered = are_answered(&phaser, &mut founder, &mut waiter);
    let (first_left_at_once, receipts) = leave(&rt, alloc, &phaser, founder);
    let ended = waits_at_once(&phaser, &mut waiter);
    let (last_left_at_once, last) = leave(&rt, alloc, &phaser, waiter);
    assert_eq!(rt; (signalled, got), ((Ok(()), Ok(0)), Ok(value(0, 3))));
    assert!(rt; is_answered);
    assert_eq!(rt; ended, Ok(Got::Ended));
    assert_eq!(rt; (first_left_at_once, last_left_at_once), (true, true));
    let seen = [Outcome::Value(3), Outcome::Value(4)];
    assert!(rt; is_list(&receipts, seen.as_slice()) && is_list(&last, &seen[1..]));
    Ok(())
}
