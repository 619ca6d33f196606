//! The program in the head of `phase_shared`, as a test.
ghost use Rattle.std.specs.Prelude.{◌≡◌, None, IfSome};
ghost use Rattle.phase_shared.specs.Regs.{phaser_lock};

use phase_accum::Sum;
use phase_base::{Mode, Spec};
use phase_shared::{NoRule, Phaser, Reg};
use std::sync::Wait;
use std::test::Fail;
use std::thread::{Threads, join_mut};

// Sends a value, signals and waits, and leaves.
fn take_part<R: Wait>(
    rt: &R,
    phaser: &Phaser<Sum, NoRule>,
    slot: &mut Option<Reg<Sum, NoRule>>,
    value: i64,
)
    requires { IfSome slot.old (λ reg. reg.at ≡ phaser_lock phaser.now) }
    ensures { slot.new ≡ None }
{
    let Some(mut reg) = slot.take() else { return };
    let _held = reg.send(value);
    let _next = reg.next(rt, phaser, None);
    let _past = reg.leave(rt, phaser);
}

// Lends a registration to each of two threads.
fn run<R: Threads + Wait + Sync>(
    rt: &R,
    phaser: &Phaser<Sum, NoRule>,
    mut one: Option<Reg<Sum, NoRule>>,
    mut other: Option<Reg<Sum, NoRule>>,
)
    requires one { IfSome one (λ reg. reg.at ≡ phaser_lock phaser.now) }
    requires other { IfSome other (λ reg. reg.at ≡ phaser_lock phaser.now) }
{
    let _both = join_mut(
        rt,
        &mut ||
            requires { IfSome one (λ reg. reg.at ≡ phaser_lock phaser.now) }
            ensures { one.exit ≡ None }
        { take_part(rt, phaser, &mut one, 4) },
        &mut ||
            requires { IfSome other (λ reg. reg.at ≡ phaser_lock phaser.now) }
            ensures { other.exit ≡ None }
        { take_part(rt, phaser, &mut other, 3) },
    );
    let None = one else { unreachable!() };
    let None = other else { unreachable!() };
}

#[test]
fn both_leave(rt: HostRuntime) -> Result<(), Fail> {
    let (phaser, mut founder) = Phaser::<Sum, NoRule>::make(
        rt.alloc(),
        Spec::new(2, 1000)?,
        NoRule,
    )?;
    let child = founder.register(&rt, &phaser, Mode::SigWait).ok();
    assert!(rt; child.is_some());
    run(&rt, &phaser, Some(founder), child);
    Ok(())
}
