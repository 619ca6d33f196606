//! Rings and phasers of many sizes, and founders of many numbers: where there is memory none is
//! wanted.
use crate::calls::{Answer, Call, Phaser};
use phase_accum::Sum;
use phase_base::Spec;
use phase_core::PhaserCore;
use phase_ring::SlotRing;
use std::alloc::Global;
use std::process::Abort;
use std::test::Fail;

/// Bounds beside powers of 2.
const BESIDE: [u64; 14] = [
    4095, 4096, 4097, 8191, 8192, 8193, 16383, 16384, 16385, 32767, 32768, 32769, 65535, 65536,
];

/// Task numbers beside powers of 2 past 1,024, with the next number.
static FOUNDERS: [(u64, Option<u64>); 12] = [
    (65535, Some(65536)),
    (65536, Some(65537)),
    (999999, Some(1000000)),
    (2147483647, Some(2147483648)),
    (4294967295, Some(4294967296)),
    (4294967296, Some(4294967297)),
    (9007199254740992, Some(9007199254740993)),
    (9223372036854775807, Some(9223372036854775808)),
    (9223372036854775808, Some(9223372036854775809)),
    (18446744073709551613, Some(18446744073709551614)),
    (18446744073709551614, Some(18446744073709551615)),
    (18446744073709551615, None),
];

/// The base of a new ring of this bound.
fn base_of(alloc: Global, bound: u64) -> Result<u64, Fail> {
    let spec = Spec::new(bound, 10)?;
    Ok(SlotRing::<Sum>::with_bound(alloc, spec.bound())?.base())
}

/// What the founder of a phaser of this bound is answered when it signals, and then waits.
fn first_answers(alloc: Global, bound: u64) -> Result<(Answer, Answer), Fail> {
    let mut phaser = Phaser::new(alloc, bound, 10)?;
    let signalled = phaser.reply_to(Call::Signal(0, None))?;
    Ok((signalled, phaser.reply_to(Call::Wait(0))?))
}

// There is a ring of this bound, and a phaser whose founder signals and waits.
fn works_at(rt: &impl Abort, alloc: Global, bound: u64) -> Result<(), Fail> {
    let base = base_of(alloc, bound)?;
    let answers = first_answers(alloc, bound)?;
    assert_eq!(rt;
        (base, answers),
        (0, (Answer::Joined(0), Answer::Value(0, 0))),
        "at bound {bound}"
    );
    Ok(())
}

#[test]
fn phasers_of_all_bounds_are_made(rt: HostRuntime) -> Result<(), Fail> {
    for bound in 1..2049u64 {
        works_at(&rt, rt.alloc(), bound)?;
    }
    for bound in BESIDE {
        works_at(&rt, rt.alloc(), bound)?;
    }
    for thousands in 3..66u64 {
        works_at(&rt, rt.alloc(), thousands * 1000)?;
    }
    Ok(())
}

/// The number behind that of a phaser's founder, and whether the founder is a member.
fn founded_by(alloc: Global, first: u64) -> Result<(Option<u64>, bool), Fail> {
    let core = PhaserCore::<Sum>::new(alloc, Spec::new(2, 10)?, first)?;
    Ok((core.next_number(), core.view(first).is_some()))
}

#[test]
fn founders_of_all_numbers_found(rt: HostRuntime) -> Result<(), Fail> {
    for first in 0..1026u64 {
        let founded = founded_by(rt.alloc(), first)?;
        assert_eq!(rt; founded, (Some(first + 1), true), "after {first}");
    }
    for (first, next) in FOUNDERS {
        let founded = founded_by(rt.alloc(), first)?;
        assert_eq!(rt; founded, (next, true), "after {first}");
    }
    Ok(())
}
