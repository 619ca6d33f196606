//! What a phaser under any operation tells of itself, where a run of the library for C does not:
//! who is left, and how far they are. Values and refusals under each operation are rows of
//! `bindings/tests`.
use phase_accum::Op;
use phase_any::AnyPhaser;
use phase_base::{Mode, Spec};
use std::alloc::Global;
use std::test::Fail;

static ALL: [Op; 5] = [Op::Sum, Op::Product, Op::Least, Op::Greatest, Op::Any];

/// What a phaser tells: its first phase that is not complete, the least wait phase, whether there
/// is a signaller, and the next number.
type Told = (u64, Option<u64>, bool, Option<u64>);

fn told(phaser: &AnyPhaser) -> Told {
    (
        phaser.done(),
        phaser.least_wait(),
        phaser.has_signaller(),
        phaser.next_number(),
    )
}

/// A phaser of bound 2 whose founder has registered task 1 in `Sig` and task 2 in `Wait`, and has
/// left.
fn opened(alloc: Global, op: Op) -> Result<AnyPhaser, Fail> {
    let mut phaser = AnyPhaser::new(alloc, op, Spec::new(2, 100)?)?;
    phaser.register(0, 1, Mode::Sig)?;
    phaser.register(0, 2, Mode::Wait)?;
    phaser.drop_task(0)?;
    Ok(phaser)
}

/// What it tells after a signal, after the wait for it, and after each of the two has left.
fn steps(alloc: Global, op: Op) -> Result<[Told; 4], Fail> {
    let mut phaser = opened(alloc, op)?;
    phaser.signal(1, &[4], None)?;
    let signalled = told(&phaser);
    phaser.wait(2)?;
    let waited = told(&phaser);
    phaser.drop_task(1)?;
    let without_signaller = told(&phaser);
    phaser.drop_task(2)?;
    Ok([signalled, waited, without_signaller, told(&phaser)])
}

#[test]
fn a_phaser_tells_who_is_left(rt: HostRuntime) -> Result<(), Fail> {
    let wanted = [
        (1, Some(0), true, Some(3)),
        (1, Some(1), true, Some(3)),
        (1, Some(1), false, Some(3)),
        (1, None, false, Some(3)),
    ];
    for op in ALL {
        assert_eq!(rt; steps(rt.alloc(), op)?, wanted, "{op:?}");
    }
    Ok(())
}
