//! Blocks of phases from one thread to another.
ghost use Rattle.std.specs.Prelude.{◌≡◌, None, IfSome, IfOk};
ghost use Rattle.phase_shared.specs.Regs.{phaser_lock};

use phase_accum::{Outcome, Pending, SendFault, Sum};
use phase_base::{Mode, Spec};
use phase_core::GotBlock;
use phase_shared::{NoRule, Phaser, Reg};
use std::alloc::{AllocError, Global};
use std::process::Abort;
use std::sync::Wait;
use std::test::Fail;
use std::thread::{Threads, join_mut};

// What stands in a place that nobody wrote.
pub const UNWRITTEN: Outcome = Outcome::Value(-1);

fn sends_of(value: i64) -> Result<Pending<Sum>, SendFault> {
    let mut pending = Pending::new();
    pending.send(value)?;
    Ok(pending)
}

// A list of one send for each value.
pub fn lists_of(alloc: Global, values: &[i64]) -> Result<Vec<Pending<Sum>>, AllocError> {
    let mut lists = Vec::new(alloc);
    for value in values {
        if let Ok(pending) = sends_of(*value) {
            lists.push(pending)?;
        }
    }
    Ok(lists)
}

// A list of one send for each of the values from `first` on.
fn lists_from(alloc: Global, first: u64, count: u64) -> Result<Vec<Pending<Sum>>, AllocError> {
    let mut lists = Vec::new(alloc);
    for index in 0..count {
        let value = i64::try_from(first.saturating_add(index)).unwrap_or(i64::MAX);
        if let Ok(pending) = sends_of(value) {
            lists.push(pending)?;
        }
    }
    Ok(lists)
}

// A phaser with a signaller and a waiter, whose founder left.
pub fn pair_on<R: Wait + Abort>(
    rt: &R,
    alloc: Global,
    limits: Spec,
) -> Result<(Phaser<Sum, NoRule>, Reg<Sum, NoRule>, Reg<Sum, NoRule>), AllocError>
    ensures { IfOk result (λ made. (made.1.at ≡ phaser_lock made.0)
        × (made.2.at ≡ phaser_lock made.0) × (made.1.held.count ≡ 0)) }
{
    let (phaser, mut founder) = Phaser::<Sum, NoRule>::make(alloc, limits, NoRule)?;
    let Ok(sender) = founder.register(rt, &phaser, Mode::Sig) else {
        panic!(rt; "the founder holds a signaller")
    };
    let Ok(taker) = founder.register(rt, &phaser, Mode::Wait) else {
        panic!(rt; "the founder holds a waiter")
    };
    let _past = founder.leave(rt, &phaser);
    Ok((phaser, sender, taker))
}

// Signals 0, 1, 2 and so on, a send a phase, in so many blocks of a size, and leaves.
fn send_blocks<R: Wait>(
    rt: &R,
    alloc: Global,
    phaser: &Phaser<Sum, NoRule>,
    slot: &mut Option<Reg<Sum, NoRule>>,
    blocks: u64,
    size: u64,
) -> bool
    requires { IfSome slot.old (λ reg. (reg.at ≡ phaser_lock phaser.now)
        × (reg.held.count ≡ 0)) }
    ensures { slot.new ≡ None }
{
    let Some(mut reg) = slot.take() else {
        return false;
    };
    let mut all = true;
    for block in 0..blocks {
        let first = block.saturating_mul(size);
        let is_joined = match lists_from(alloc, first, size) {
            Ok(lists) => match reg.signal_block(rt, phaser, lists, None) {
                Ok(phase) => phase == first,
                Err(_) => false,
            },
            Err(_) => false,
        };
        all = all && is_joined;
    }
    let _past = reg.leave(rt, phaser);
    all
}

// Whether the first places are the values from `first` on.
fn are_values(out: &[Outcome], count: u64, first: u64) -> bool {
    let mut all = true;
    let mut value = i64::try_from(first).unwrap_or(i64::MAX);
    for outcome in out.iter().take(count as usize) {
        all = all && *outcome == Outcome::Value(value);
        value = value.saturating_add(1);
    }
    all
}

// Whether it gets 0, 1, 2 and so on in order, as many at once as there are places, and then that
// the stream has ended. It leaves.
fn receive_blocks<R: Wait>(
    rt: &R,
    phaser: &Phaser<Sum, NoRule>,
    slot: &mut Option<Reg<Sum, NoRule>>,
    count: u64,
    out: &mut [Outcome],
) -> bool
    requires { IfSome slot.old (λ reg. reg.at ≡ phaser_lock phaser.now) }
    ensures { slot.new ≡ None }
{
    let Some(mut reg) = slot.take() else {
        return false;
    };
    let mut all = true;
    let mut next: u64 = 0;
    for _ in 0..count {
        if next >= count {
            break;
        }
        match reg.wait_block(rt, phaser, out) {
            Ok(GotBlock::Values { phase, count: got }) => {
                all = all && phase == next && are_values(out, got, phase);
                next = next.saturating_add(got);
            }
            _ => all = false,
        }
    }
    let has_ended = reg.wait_block(rt, phaser, out) == Ok(GotBlock::Ended);
    let _past = reg.leave(rt, phaser);
    all && next == count && has_ended
}

// One thread hands so many blocks of a size to another, which takes as many at once as there are
// places.
fn stream<R: Threads + Wait + Sync>(
    rt: &R,
    alloc: Global,
    phaser: &Phaser<Sum, NoRule>,
    regs: (Reg<Sum, NoRule>, Reg<Sum, NoRule>),
    sizes: (u64, u64),
    out: &mut [Outcome],
) -> (bool, bool)
    requires { (regs.0.at ≡ phaser_lock phaser.now) × (regs.1.at ≡ phaser_lock phaser.now)
        × (regs.0.held.count ≡ 0) }
{
    let mut first = Some(regs.0);
    let mut second = Some(regs.1);
    let count = sizes.0.saturating_mul(sizes.1);
    let all = join_mut(
        rt,
        &mut || -> bool
            requires { IfSome first (λ reg. (reg.at ≡ phaser_lock phaser.now)
                × (reg.held.count ≡ 0)) }
            ensures { first.exit ≡ None }
        { send_blocks(rt, alloc, phaser, &mut first, sizes.0, sizes.1) },
        &mut || -> bool
            requires { IfSome second (λ reg. reg.at ≡ phaser_lock phaser.now) }
            ensures { second.exit ≡ None }
        { receive_blocks(rt, phaser, &mut second, count, out) },
    );
    let None = first else { unreachable!() };
    let None = second else { unreachable!() };
    all
}

// So many blocks of a size that is also the bound.
fn streams<R: Threads + Wait + Sync + Abort>(
    rt: &R,
    alloc: Global,
    blocks: u64,
    out: &mut [Outcome],
) -> Result<(bool, bool), Fail> {
    let size = out.len() as u64;
    let (phaser, sender, taker) = pair_on(rt, alloc, Spec::new(size, 1000)?)?;
    Ok(stream(rt, alloc, &phaser, (sender, taker), (blocks, size), out))
}

#[test]
fn threads_in_blocks(rt: HostRuntime) -> Result<(), Fail> {
    let mut one = [UNWRITTEN];
    let mut four = [UNWRITTEN; 4];
    assert_eq!(rt; streams(&rt, rt.alloc(), 1000, &mut one)?, (true, true));
    assert_eq!(rt; streams(&rt, rt.alloc(), 250, &mut four)?, (true, true));
    Ok(())
}
