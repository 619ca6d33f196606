//! Receivers by blocks of phases, and receivers that join now.
ghost use Rattle.std.specs.Prelude.{◌≡◌, IfSome};
ghost use Rattle.phase_shared.specs.Regs.{phaser_lock};

use crate::blocks::UNWRITTEN;
use crate::calls::SumPhaser;
use crate::received::{SumReceiver, made_receiver, registers, signals};
use phase_accum::Outcome;
use phase_base::Mode;
use phase_core::{GotBlock, RegisterRefusal, WaitRefusal};
use phase_received::ReceiveFault;
use phase_shared::Tried;
use std::alloc::Global;
use std::sync::Wait;
use std::test::Fail;

// Whether the signaller could signal 7, 8 and 9, each in a phase of its own, from 0 on.
fn signals_three<R: Wait>(rt: &R, phaser: &SumPhaser, signaller: &mut SumReceiver) -> bool
    requires { signaller.old.at ≡ phaser_lock phaser.now }
    ensures { signaller.new.at ≡ signaller.old.at }
{
    let first = signals(rt, phaser, signaller, 7);
    let second = signals(rt, phaser, signaller, 8);
    let third = signals(rt, phaser, signaller, 9);
    (first, second, third) == (Some(0), Some(1), Some(2))
}

// What the receiver waited for, its places left free by the values, and how many it has kept.
#[test]
fn blocks_are_kept_behind_each_other(rt: HostRuntime) -> Result<(), Fail> {
    let alloc = rt.alloc();
    let Some((phaser, mut founder)) = made_receiver(alloc, 4) else {
        panic!(rt; "there is memory")
    };
    let Some(mut signaller) = registers(&rt, alloc, &phaser, &mut founder, Mode::Sig) else {
        panic!(rt; "the founder holds a signaller")
    };
    let Some(mut taker) = registers(&rt, alloc, &phaser, &mut founder, Mode::Wait) else {
        panic!(rt; "the founder holds a waiter")
    };
    drop(founder.leave(&rt, alloc, &phaser));
    let is_signalled = signals_three(&rt, &phaser, &mut signaller);
    let mut two = [UNWRITTEN; 2];
    let mut four = [UNWRITTEN; 4];
    let mut five = [UNWRITTEN; 5];
    let first = taker.wait_block(&rt, &phaser, &mut two);
    let second = taker.try_wait_block(&phaser, &mut four);
    let early = taker.try_wait_block(&phaser, &mut four);
    let long = taker.wait_block(&rt, &phaser, &mut five);
    drop(signaller.leave(&rt, alloc, &phaser));
    let ended = taker.wait_block(&rt, &phaser, &mut four);
    let (past, list, _) = taker.leave(&rt, alloc, &phaser).into_parts();
    drop(past);

    assert!(rt; is_signalled);
    assert_eq!(rt; first, Ok(GotBlock::Values { phase: 0, count: 2 }));
    assert_eq!(rt; second, Ok(GotBlock::Values { phase: 2, count: 1 }));
    assert_eq!(rt; two, [Outcome::Value(7), Outcome::Value(8)]);
    assert_eq!(rt; four, [Outcome::Value(9), UNWRITTEN, UNWRITTEN, UNWRITTEN]);
    let not_yet = Tried::Refused(WaitRefusal::NotYet);
    assert_eq!(rt; early, Err(ReceiveFault::Refused(not_yet)));
    assert_eq!(rt; long, Err(ReceiveFault::Refused(WaitRefusal::BadBlock)));
    assert_eq!(rt; ended, Ok(GotBlock::Ended));
    let kept = [Outcome::Value(7), Outcome::Value(8), Outcome::Value(9)];
    assert!(rt; list.as_slice() == kept.as_slice());
    Ok(())
}

// Both ways to join now: whether each child was registered, and where they begin.
fn late_pair<R: Wait>(
    rt: &R,
    alloc: Global,
    phaser: &SumPhaser,
    parent: &mut SumReceiver,
) -> Option<(SumReceiver, SumReceiver)>
    requires { parent.old.at ≡ phaser_lock phaser.now }
    ensures at { parent.new.at ≡ parent.old.at }
    ensures pair { IfSome result (λ pair. (pair.0.at ≡ phaser_lock phaser.now)
        × (pair.1.at ≡ phaser_lock phaser.now)) }
{
    let one = match parent.register_now(rt, alloc, phaser) {
        Ok(child) => child,
        Err(_) => return None,
    };
    match parent.try_register_now(alloc, phaser) {
        Ok(child) => Some((one, child)),
        Err(_) => {
            drop(one.leave(rt, alloc, phaser));
            None
        }
    }
}

// The founder, who has got phase 0 and not phase 1, registers two that join now, at phase 2.
#[test]
fn late_receivers_keep_what_comes_later(rt: HostRuntime) -> Result<(), Fail> {
    let alloc = rt.alloc();
    let Some((phaser, mut founder)) = made_receiver(alloc, 4) else {
        panic!(rt; "there is memory")
    };
    let Some(mut signaller) = registers(&rt, alloc, &phaser, &mut founder, Mode::Sig) else {
        panic!(rt; "the founder holds a signaller")
    };
    let first = signals(&rt, &phaser, &mut signaller, 7);
    let own = founder.next(&rt, &phaser, None).is_ok();
    let second = signals(&rt, &phaser, &mut signaller, 8);
    let own_second = signals(&rt, &phaser, &mut founder, 1);
    let Some((mut one, mut other)) = late_pair(&rt, alloc, &phaser, &mut founder) else {
        panic!(rt; "the founder holds a waiter")
    };
    let refused = match signaller.register_now(&rt, alloc, &phaser) {
        Ok(child) => {
            drop(child.leave(&rt, alloc, &phaser));
            None
        }
        Err(refusal) => Some(refusal),
    };
    let begin = (one.reg().phase().1, other.reg().phase().1);
    drop(founder.leave(&rt, alloc, &phaser));
    let third = signals(&rt, &phaser, &mut signaller, 9);
    drop(signaller.leave(&rt, alloc, &phaser));
    let mut places = [UNWRITTEN; 4];
    let got = one.wait_block(&rt, &phaser, &mut places);
    let got_other = other.wait(&rt, &phaser).is_ok();
    let kept = [Outcome::Value(9)];
    let are_kept = (
        one.values() == kept.as_slice(),
        other.values() == kept.as_slice(),
    );
    drop(one.leave(&rt, alloc, &phaser));
    drop(other.leave(&rt, alloc, &phaser));

    assert_eq!(rt;
        (first, own, second, own_second),
        (Some(0), true, Some(1), Some(1))
    );
    assert_eq!(rt;
        (refused, begin),
        (Some(RegisterRefusal::NotAllowed), (2, 2))
    );
    assert_eq!(rt;
        (third, got),
        (Some(2), Ok(GotBlock::Values { phase: 2, count: 1 }))
    );
    assert_eq!(rt; (got_other, are_kept), (true, (true, true)));
    Ok(())
}
