//! The next phase of a receiver that signals alone, and of one that waits alone.
use crate::received::{made_receiver, registers};
use phase_accum::{Outcome, Single};
use phase_base::Mode;
use phase_core::{Got, SignalRefusal};
use phase_received::ReceiveFault;
use phase_shared::Next;
use std::test::Fail;

// What a next phase is that only waits.
fn only_waits(got: Got) -> Next {
    Next {
        signalled: None,
        got: Some(got),
    }
}

// Phase 0 is the signaller's 6. Then nobody signals any more, and the waiter has seen the end.
#[test]
fn goes_next_in_the_modes_sig_and_wait(rt: HostRuntime) -> Result<(), Fail> {
    let alloc = rt.alloc();
    let Some((phaser, mut founder)) = made_receiver(alloc, 2) else {
        panic!(rt; "there is memory")
    };
    let Some(mut signaller) = registers(&rt, alloc, &phaser, &mut founder, Mode::Sig) else {
        panic!(rt; "the founder holds a signaller")
    };
    let Some(mut waiter) = registers(&rt, alloc, &phaser, &mut founder, Mode::Wait) else {
        panic!(rt; "the founder holds a waiter")
    };
    drop(founder.leave(&rt, alloc, &phaser));
    let is_held = signaller.send(6).is_ok();
    let signalled = signaller.next(&rt, &phaser, None);
    let named = waiter.next(&rt, &phaser, Some(Single::Neg));
    let got = waiter.next(&rt, &phaser, None);
    let kept = (
        signaller.values().len(),
        waiter.values() == [Outcome::Value(6)].as_slice(),
    );
    drop(signaller.leave(&rt, alloc, &phaser));
    let ended = waiter.next(&rt, &phaser, None);
    let (past, first, _) = waiter.leave(&rt, alloc, &phaser).into_parts();
    drop(past);

    let first_phase = Next {
        signalled: Some(0),
        got: None,
    };
    assert_eq!(rt; (is_held, signalled), (true, Ok(first_phase)));
    assert_eq!(rt; named, Err(ReceiveFault::Refused(SignalRefusal::NotSingle)));
    let outcome = Outcome::Value(6);
    assert_eq!(rt; got, Ok(only_waits(Got::Value { phase: 0, outcome })));
    assert_eq!(rt; ended, Ok(only_waits(Got::Ended)));
    assert_eq!(rt; (kept, first.len()), ((0, true), 1));
    Ok(())
}
