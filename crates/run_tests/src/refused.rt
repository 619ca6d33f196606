//! What a member's mode does not hold, and a single that differs.
use phase_accum::{Outcome, Single, Sum};
use phase_base::{Mode, Op, Spec};
use phase_core::{RegisterRefusal, SignalRefusal, WaitRefusal};
use phase_shared::{NoRule, Phaser, Tried};
use std::sync::Wait;
use std::test::Fail;
use stream_members::{AnyMember, AnyPhaser, Member, PutRefusal};

// Why a member can't put or register what its mode does not hold, where neither is done.
fn refusals<R: Wait>(rt: &R, member: &mut AnyMember<'_>) -> Option<(PutRefusal, RegisterRefusal)> {
    let Err(put) = member.try_put(3, None) else {
        return None;
    };
    match member.add(rt, Mode::Single) {
        Ok(child) => {
            let _left = child.leave(rt);
            None
        }
        Err(refusal) => Some((put, refusal)),
    }
}

// The same of a child that only waits.
fn of_a_waiter<R: Wait>(rt: &R, founder: AnyMember<'_>) -> Option<(PutRefusal, RegisterRefusal)> {
    let mut founder = founder;
    let refused = match founder.add(rt, Mode::Wait) {
        Ok(mut waiter) => {
            let refused = refusals(rt, &mut waiter);
            let _left = waiter.leave(rt);
            refused
        }
        Err(_) => None,
    };
    let _founder = founder.leave(rt);
    refused
}

#[test]
fn a_waiter_neither_puts_nor_adds_a_signaller(rt: HostRuntime) -> Result<(), Fail> {
    let (phaser, founder) = AnyPhaser::make(rt.alloc(), Op::Sum, Spec::new(1, 100)?)?;
    let refused = of_a_waiter(&rt, phaser.member(founder));
    assert_eq!(rt;
        refused,
        Some((
            PutRefusal::Refused(SignalRefusal::NoSignal),
            RegisterRefusal::NotAllowed
        ))
    );
    Ok(())
}

// How the second of two with another single is refused.
fn second_single<R: Wait>(rt: &R, founder: AnyMember<'_>) -> Option<PutRefusal> {
    let mut founder = founder;
    let Ok(mut child) = founder.try_add(Mode::Sig) else {
        let _left = founder.leave(rt);
        return None;
    };
    let first = founder.try_put(1, Some(Single::neg()));
    let second = child.try_put(2, None);
    let _child = child.leave(rt);
    let _founder = founder.leave(rt);
    match (first, second) {
        (Ok(0), Err(refusal)) => Some(refusal),
        _ => None,
    }
}

#[test]
fn a_single_of_a_phase_is_named_by_all(rt: HostRuntime) -> Result<(), Fail> {
    let (phaser, founder) = AnyPhaser::make(rt.alloc(), Op::Any, Spec::new(1, 100)?)?;
    let refusal = second_single(&rt, phaser.member(founder));
    assert_eq!(rt;
        refusal,
        Some(PutRefusal::Refused(SignalRefusal::SingleDiffers))
    );
    Ok(())
}

// The calls of a member whose operation is known: a founder that only leaves.
fn alone<R: Wait>(rt: &R, founder: Member<'_, Sum>) -> (u64, bool) {
    let mut founder = founder;
    let number = founder.number();
    let early = founder.try_get(&mut [Outcome::Empty])
        == Err(Tried::Refused(WaitRefusal::SignalFirst));
    match founder.try_leave() {
        Ok(_left) => {}
        Err(back) => {
            let _left = back.leave(rt);
        }
    }
    (number, early)
}

#[test]
fn a_founder_is_number_zero_and_signals_first(rt: HostRuntime) -> Result<(), Fail> {
    let (phaser, founder) = Phaser::<Sum, NoRule>::make(rt.alloc(), Spec::new(1, 100)?, NoRule)?;
    assert_eq!(rt; alone(&rt, Member::of(&phaser, founder)), (0, true));
    Ok(())
}
