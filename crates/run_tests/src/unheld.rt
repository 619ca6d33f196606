//! A value that is refused is not held: another may be put next.
use phase_accum::{NO_VALUE, Outcome};
use phase_base::{Mode, Op, Spec};
use phase_core::{GotBlock, SignalRefusal, WaitRefusal};
use phase_shared::Tried;
use std::alloc::Global;
use std::sync::Wait;
use std::test::Fail;
use stream_members::{AnyMember, AnyPhaser, PutRefusal};

const AHEAD: PutRefusal = PutRefusal::Refused(SignalRefusal::Ahead);

// Whether its first value is put, a value that is none is refused, and the next value is ahead.
fn puts_first(child: &mut AnyMember<'_>) -> bool {
    let first = child.try_put(5, None);
    let bad = child.try_put(NO_VALUE, None);
    let ahead = child.try_put(7, None);
    first == Ok(0) && bad == Err(PutRefusal::BadValue) && ahead == Err(AHEAD)
}

// What the founder gets of the first phase, of which it is the last signaller.
fn closes(founder: &mut AnyMember<'_>) -> Option<Outcome> {
    let mut out = [Outcome::Empty];
    let early = founder.try_get(&mut out);
    let put = founder.try_put(6, None);
    if early != Err(Tried::Refused(WaitRefusal::SignalFirst)) || put != Ok(0) {
        return None;
    }
    let got = founder.try_get(&mut out);
    (got == Ok(GotBlock::Values { phase: 0, count: 1 })).then_some(out[0])
}

// What the founder gets, and whether its child could put another value than that refused.
fn putting<R: Wait>(rt: &R, founder: AnyMember<'_>) -> Option<(Outcome, bool)> {
    let mut founder = founder;
    let Ok(mut child) = founder.add(rt, Mode::Sig) else {
        let _left = founder.leave(rt);
        return None;
    };
    let first = puts_first(&mut child);
    let got = closes(&mut founder);
    let put = child.try_put(8, None) == Ok(1);
    let _child = child.leave(rt);
    let _founder = founder.leave(rt);
    let got = got?;
    Some((got, first && put))
}

// The same on a phaser of this operation, with a bound of 1.
fn puts<R: Wait>(rt: &R, alloc: Global, op: Op) -> Result<Option<(Outcome, bool)>, Fail> {
    let (phaser, founder) = AnyPhaser::make(alloc, op, Spec::new(1, 100)?)?;
    Ok(putting(rt, phaser.member(founder)))
}

#[test]
fn a_refused_value_is_not_held(rt: HostRuntime) -> Result<(), Fail> {
    for (op, value) in [
        (Op::Sum, 11),
        (Op::Product, 30),
        (Op::Least, 5),
        (Op::Greatest, 6),
        (Op::Any, 5),
    ] {
        let expected = Some((Outcome::Value(value), true));
        assert_eq!(rt; puts(&rt, rt.alloc(), op)?, expected, "{op:?}");
    }
    Ok(())
}
