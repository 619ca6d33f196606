//! Blocks of phases and waiters that join now, call by call.
use crate::blocks::{UNWRITTEN, lists_of, pair_on};
use crate::calls::{
    block_got, block_signalled, block_waited, joined_now, left, lists_signalled, made, registered,
    signalled, waited,
};
use phase_accum::Outcome;
use phase_base::{Mode, Spec};
use phase_core::{Got, GotBlock, RegisterRefusal, SignalRefusal, WaitRefusal};
use phase_shared::Tried;
use std::test::Fail;

#[test]
fn a_refused_block_signals_nothing_and_hands_all_back(rt: HostRuntime) -> Result<(), Fail> {
    let five = lists_of(rt.alloc(), &[1, 2, 3, 4, 5])?;
    let three = lists_of(rt.alloc(), &[6, 7, 8])?;
    let (phaser, mut sender, mut taker) = pair_on(&rt, rt.alloc(), Spec::new(4, 100)?)?;
    let mut out = [UNWRITTEN; 4];

    let Err((tried, five)) = block_signalled(&phaser, &mut sender, five) else {
        panic!(rt; "the block is longer than the bound")
    };
    assert_eq!(rt; tried, Tried::Refused(SignalRefusal::BadBlock));
    assert_eq!(rt; five.len(), 5);
    assert_eq!(rt; lists_signalled(&phaser, &mut sender, &five[3..]), Ok(0));

    let Err((tried, three)) = block_signalled(&phaser, &mut sender, three) else {
        panic!(rt; "its last phase is the bound ahead of the waiter")
    };
    assert_eq!(rt; tried, Tried::Refused(SignalRefusal::Ahead));
    assert_eq!(rt; three.len(), 3);
    let got = block_waited(&phaser, &mut taker, &mut out);
    assert_eq!(rt; got, Ok(GotBlock::Values { phase: 0, count: 2 }));
    assert_eq!(rt;
        out,
        [Outcome::Value(4), Outcome::Value(5), UNWRITTEN, UNWRITTEN]
    );

    assert_eq!(rt; sender.phase(), (2, 0));
    assert_eq!(rt; block_signalled(&phaser, &mut sender, three).ok(), Some(2));
    let got = block_waited(&phaser, &mut taker, &mut out[1..]);
    assert_eq!(rt; got, Ok(GotBlock::Values { phase: 2, count: 3 }));
    let [first, second, third, fourth] = out;
    assert_eq!(rt; [first, second], [Outcome::Value(4), Outcome::Value(6)]);
    assert_eq!(rt; [third, fourth], [Outcome::Value(7), Outcome::Value(8)]);
    left(&rt, &phaser, sender);
    left(&rt, &phaser, taker);
    Ok(())
}

#[test]
fn a_wait_takes_what_is_complete(rt: HostRuntime) -> Result<(), Fail> {
    let lists = lists_of(rt.alloc(), &[7, 8, 9])?;
    let (phaser, mut sender, mut taker) = pair_on(&rt, rt.alloc(), Spec::new(4, 100)?)?;
    let mut out = [UNWRITTEN; 4];
    let mut long = [UNWRITTEN; 5];
    assert_eq!(rt; lists_signalled(&phaser, &mut sender, &lists), Ok(0));
    assert_eq!(rt;
        block_got(&rt, &phaser, &mut taker, &mut long),
        Err(WaitRefusal::BadBlock)
    );
    let got = block_got(&rt, &phaser, &mut taker, &mut out);
    assert_eq!(rt; got, Ok(GotBlock::Values { phase: 0, count: 3 }));
    assert_eq!(rt;
        block_waited(&phaser, &mut taker, &mut out),
        Err(Tried::Refused(WaitRefusal::NotYet))
    );
    let [first, second, third, fourth] = out;
    assert_eq!(rt; [first, second], [Outcome::Value(7), Outcome::Value(8)]);
    assert_eq!(rt; [third, fourth], [Outcome::Value(9), UNWRITTEN]);
    assert_eq!(rt; taker.phase(), (0, 3));
    left(&rt, &phaser, sender);
    let got = block_got(&rt, &phaser, &mut taker, &mut long);
    assert_eq!(rt; got, Err(WaitRefusal::BadBlock));
    let got = block_got(&rt, &phaser, &mut taker, &mut out);
    assert_eq!(rt; got, Ok(GotBlock::Ended));
    assert_eq!(rt; out, [first, second, third, fourth]);
    left(&rt, &phaser, taker);
    Ok(())
}

#[test]
fn who_also_waits_signals_one_phase_at_a_time(rt: HostRuntime) -> Result<(), Fail> {
    let two = lists_of(rt.alloc(), &[1, 2])?;
    let Some((phaser, mut founder)) = made(rt.alloc(), 4) else {
        panic!(rt; "there is memory")
    };
    let Err((refusal, two)) = founder.signal_block(&rt, &phaser, two, None) else {
        panic!(rt; "it waits for its first phase before it signals the second")
    };
    assert_eq!(rt; refusal, SignalRefusal::SignalTwice);
    assert_eq!(rt; two.len(), 2);
    assert_eq!(rt; lists_signalled(&phaser, &mut founder, &two[1..]), Ok(0));
    let outcome = Outcome::Value(2);
    assert_eq!(rt;
        waited(&phaser, &mut founder),
        Ok(Got::Value { phase: 0, outcome })
    );
    left(&rt, &phaser, founder);
    Ok(())
}

#[test]
fn joins_now(rt: HostRuntime) -> Result<(), Fail> {
    let Some((phaser, mut founder)) = made(rt.alloc(), 2) else {
        panic!(rt; "there is memory")
    };
    let Some(mut signaller) = registered(&phaser, &mut founder, Mode::Sig) else {
        panic!(rt; "the founder holds a signaller")
    };
    assert_eq!(rt; signalled(&phaser, &mut founder), Ok(0));
    assert_eq!(rt; signalled(&phaser, &mut signaller), Ok(0));
    assert_eq!(rt; signalled(&phaser, &mut signaller), Ok(1));
    let Ok(mut late) = joined_now(&phaser, &mut founder) else {
        panic!(rt; "the founder holds a waiter")
    };
    let Some(early) = registered(&phaser, &mut founder, Mode::Wait) else {
        panic!(rt; "the founder holds a waiter")
    };
    let Ok(last) = founder.register_now(&rt, &phaser) else {
        panic!(rt; "the founder holds a waiter")
    };
    assert_eq!(rt; (late.mode(), late.phase()), (Mode::Wait, (1, 1)));
    assert_eq!(rt; (early.phase(), last.phase()), ((1, 0), (1, 1)));
    left(&rt, &phaser, early);
    left(&rt, &phaser, last);
    let not_yet = Err(Tried::Refused(WaitRefusal::NotYet));
    assert_eq!(rt; waited(&phaser, &mut late), not_yet);
    let refused = match joined_now(&phaser, &mut signaller) {
        Ok(child) => {
            left(&rt, &phaser, child);
            None
        }
        Err(tried) => Some(tried),
    };
    assert_eq!(rt; refused, Some(Tried::Refused(RegisterRefusal::NotAllowed)));

    assert!(rt; waited(&phaser, &mut founder).is_ok() && founder.send(5).is_ok());
    assert_eq!(rt; signalled(&phaser, &mut founder), Ok(1));
    let outcome = Outcome::Value(5);
    assert_eq!(rt;
        waited(&phaser, &mut late),
        Ok(Got::Value { phase: 1, outcome })
    );
    left(&rt, &phaser, founder);
    left(&rt, &phaser, signaller);
    left(&rt, &phaser, late);
    Ok(())
}
