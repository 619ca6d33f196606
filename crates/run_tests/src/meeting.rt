//! Members that meet under each of the operations, come and go.
ghost use Rattle.std.specs.Prelude.{◌≡◌};
ghost use Rattle.stream_members.specs.AnyMembers.{left_in, left_op, member_in, member_op};

use phase_accum::{Outcome, Single};
use phase_base::{Mode, Op, Spec};
use phase_core::{GotBlock, WaitRefusal};
use phase_shared::Tried;
use std::alloc::Global;
use std::sync::Wait;
use std::test::Fail;
use stream_members::{AnyLeft, AnyMember, AnyPhaser};

// What is got of the first phase, where its value is this.
fn first(value: i64) -> Option<(GotBlock, Outcome)> {
    let got = GotBlock::Values { phase: 0, count: 1 };
    Some((got, Outcome::Value(value)))
}

// Whether 4 and 6 are put in the first phase, with the sign of the value turned.
fn put_both(founder: &mut AnyMember<'_>, child: &mut AnyMember<'_>) -> bool {
    let first = founder.try_put(4, Some(Single::neg()));
    let second = child.try_put(6, Some(Single::neg()));
    first == Ok(0) && second == Ok(0)
}

// What is got of a phase, where another wait is refused until the next signal.
fn got_once(member: &mut AnyMember<'_>) -> Option<(GotBlock, Outcome)> {
    let mut out = [Outcome::Empty];
    let Ok(got) = member.try_get(&mut out) else {
        return None;
    };
    let early = member.try_get(&mut out);
    (early == Err(Tried::Refused(WaitRefusal::SignalFirst))).then_some((got, out[0]))
}

// What the founder gets, where it puts 4 and its child 6.
fn meeting<R: Wait>(rt: &R, founder: AnyMember<'_>) -> Option<(GotBlock, Outcome)> {
    let mut founder = founder;
    let Ok(mut child) = founder.add(rt, Mode::Single) else {
        let _left = founder.leave(rt);
        return None;
    };
    let got = if put_both(&mut founder, &mut child) {
        got_once(&mut founder)
    } else {
        None
    };
    let _child = child.leave(rt);
    let _founder = founder.leave(rt);
    got
}

// The same on a phaser of this operation.
fn meets<R: Wait>(rt: &R, alloc: Global, op: Op) -> Result<Option<(GotBlock, Outcome)>, Fail> {
    let (phaser, founder) = AnyPhaser::make(alloc, op, Spec::new(1, 100)?)?;
    Ok(meeting(rt, phaser.member(founder)))
}

#[test]
fn two_values_meet_under_each_operation(rt: HostRuntime) -> Result<(), Fail> {
    for (op, value) in [
        (Op::Sum, -10),
        (Op::Product, -24),
        (Op::Least, -4),
        (Op::Greatest, -6),
        (Op::Any, -4),
    ] {
        assert_eq!(rt; meets(&rt, rt.alloc(), op)?, first(value), "{op:?}");
    }
    Ok(())
}

// Leaves without waiting where nobody is in its way.
fn leaves<'a, R: Wait>(rt: &R, member: AnyMember<'a>) -> AnyLeft<'a>
    ensures at { (left_in result).at ≡ (member_in member.entry).at }
    ensures op { left_op result ≡ member_op member.entry }
{
    match member.try_leave() {
        Ok(left) => left,
        Err(back) => back.leave(rt),
    }
}

// Two that left one phaser as one.
fn both<'a>(one: AnyLeft<'a>, other: AnyLeft<'a>) -> AnyLeft<'a>
    requires at { (left_in other).at ≡ (left_in one).at }
    requires op { left_op other ≡ left_op one }
{
    let both = one.join(other);
    both.look();
    both
}

// The numbers of a founder and its child, which leave and are joined.
fn come_and_go<R: Wait>(rt: &R, founder: AnyMember<'_>) -> Option<(u64, u64)> {
    let mut founder = founder;
    let Ok(child) = founder.try_add(Mode::Sig) else {
        let _left = founder.leave(rt);
        return None;
    };
    let numbers = (founder.number(), child.number());
    let child = leaves(rt, child);
    let founder = leaves(rt, founder);
    drop(both(founder, child));
    Some(numbers)
}

#[test]
fn members_leave_as_one(rt: HostRuntime) -> Result<(), Fail> {
    let (phaser, founder) = AnyPhaser::make(rt.alloc(), Op::Greatest, Spec::new(1, 100)?)?;
    let numbers = come_and_go(&rt, phaser.member(founder));
    assert_eq!(rt; numbers, Some((0, 1)));
    Ok(())
}
