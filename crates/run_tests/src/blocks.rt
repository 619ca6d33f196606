//! Blocks that members put and get, and a child that joins now.
use phase_accum::{NO_VALUE, Outcome};
use phase_base::{Mode, Op, Spec};
use phase_core::{GotBlock, SignalRefusal};
use std::alloc::Global;
use std::sync::Wait;
use std::test::Fail;
use stream_members::{AnyMember, AnyPhaser, Places, PutRefusal};

// What two waits for at most four phases are answered and write, the first of a parent and the
// second of the child that it registered now, with the phase that the child joins at.
#[derive(Clone, Copy, Debug, PartialEq)]
struct Seen {
    first: Option<GotBlock>,
    values: [Outcome; 4],
    start: u64,
    second: Option<GotBlock>,
    value: Outcome,
}

// Whether 5, 6 and 7 are put in a block, where none of more values than places, of values of which
// one is none, and of two that are ahead is put.
fn puts_three(signaller: &mut AnyMember<'_>, places: &mut Places) -> bool {
    let many = signaller.try_put_all(&[1, 2, 3, 4], None, places);
    let bad = signaller.try_put_all(&[1, NO_VALUE], None, places);
    let three = signaller.try_put_all(&[5, 6, 7], None, places);
    let ahead = signaller.try_put_all(&[8, 9], None, places);
    many == Err(PutRefusal::TooMany)
        && bad == Err(PutRefusal::BadValue)
        && three == Ok(0)
        && ahead == Err(PutRefusal::Refused(SignalRefusal::Ahead))
}

// What is got, where the signaller puts 8 once the child is there.
fn joined<R: Wait>(
    rt: &R,
    signaller: &mut AnyMember<'_>,
    waiter: &mut AnyMember<'_>,
) -> Option<Seen> {
    let mut values = [Outcome::Empty; 4];
    let first = waiter.try_get(&mut values).ok();
    let Ok((mut late, start)) = waiter.try_add_now() else {
        return None;
    };
    let put = signaller.try_put(8, None);
    let mut out = [Outcome::Empty];
    let second = late.try_get(&mut out).ok();
    let _late = late.leave(rt);
    (put == Ok(3)).then_some(Seen {
        first,
        values,
        start,
        second,
        value: out[0],
    })
}

// What is got between a signaller and a waiter, which then leave.
fn waiting<R: Wait>(
    rt: &R,
    signaller: AnyMember<'_>,
    waiter: AnyMember<'_>,
    places: &mut Places,
) -> Option<Seen> {
    let (mut signaller, mut waiter) = (signaller, waiter);
    let seen = if puts_three(&mut signaller, places) {
        joined(rt, &mut signaller, &mut waiter)
    } else {
        None
    };
    let _signaller = signaller.leave(rt);
    let _waiter = waiter.leave(rt);
    seen
}

// A founder that registers a signaller and a waiter, and leaves them to it.
fn blocks<R: Wait>(rt: &R, founder: AnyMember<'_>, places: &mut Places) -> Option<Seen> {
    let mut founder = founder;
    let Ok(signaller) = founder.try_add(Mode::Sig) else {
        let _left = founder.leave(rt);
        return None;
    };
    let waiter = founder.try_add(Mode::Wait);
    let _founder = founder.leave(rt);
    match waiter {
        Ok(waiter) => waiting(rt, signaller, waiter, places),
        Err(_) => {
            let _signaller = signaller.leave(rt);
            None
        }
    }
}

// The same on a phaser of this operation, with places of that one.
fn seen_of<R: Wait>(rt: &R, alloc: Global, op: Op, places: Op) -> Result<Option<Seen>, Fail> {
    let mut places = Places::new(alloc, places, 3)?;
    let (phaser, founder) = AnyPhaser::make(alloc, op, Spec::new(4, 100)?)?;
    Ok(blocks(rt, phaser.member(founder), &mut places))
}

#[test]
fn a_block_is_put_and_got_whole(rt: HostRuntime) -> Result<(), Fail> {
    let expected = Seen {
        first: Some(GotBlock::Values { phase: 0, count: 3 }),
        values: [
            Outcome::Value(5),
            Outcome::Value(6),
            Outcome::Value(7),
            Outcome::Empty,
        ],
        start: 3,
        second: Some(GotBlock::Values { phase: 3, count: 1 }),
        value: Outcome::Value(8),
    };
    for op in [Op::Sum, Op::Product, Op::Least, Op::Greatest, Op::Any] {
        assert_eq!(rt; seen_of(&rt, rt.alloc(), op, op)?, Some(expected), "{op:?}");
    }
    assert_eq!(rt; seen_of(&rt, rt.alloc(), Op::Sum, Op::Any)?, None);
    Ok(())
}
