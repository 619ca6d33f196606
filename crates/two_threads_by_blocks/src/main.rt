//! One thread sends 0, 1, 2 and so on, a value a phase and 32 phases under one call, and another
//! takes as many at once as are there. What the taker got is exactly what the sender sent, phase by
//! phase, to the end.
#![tactic(auto)]

ghost use Rattle.std.specs.Prelude.{◌≡◌, None, IfSome};
ghost use Rattle.phase_shared.specs.Regs.{phaser_lock, phaser_limits};
ghost use Rattle.phase_received.specs.Whole.{HasSeenEnd};
ghost use Rattle.two_threads_by_blocks.specs.Sent.{GotSent};

mod rule;

use crate::rule::{ByOne, only_one_sends};
use phase_accum::{Outcome, Pending, Sum};
use phase_base::{Mode, Spec};
use phase_core::GotBlock;
use phase_received::Receiver;
use phase_shared::{Past, Phaser, Reg};
use std::alloc::Global;
use std::io;
use std::sync::Wait;
use std::thread::{Threads, join_mut};

type Bus = Phaser<Sum, ByOne>;

type Sender = Reg<Sum, ByOne>;

type Taker = Receiver<Sum, ByOne>;

/// How many blocks are sent, how many values a block has, and how far the sender may be ahead of
/// the taker, in phases.
const BLOCKS: i64 = 1000;

const SIZE: i64 = 32;

const BOUND: u64 = 64;

/// What the taker got, and its past.
#[derive(Drop)]
struct Taken {
    past: Past<Sum, ByOne>,
    values: Vec<Outcome>,
}

/// The sends of a block, a value a phase, from this value on.
fn fill(lists: &mut Vec<Pending<Sum>>, first: i64) {
    lists.clear();
    for place in 0..SIZE {
        let mut sends = Pending::new();
        let _held = sends.send(first.saturating_add(place));
        let _pushed = lists.push(sends);
    }
}

/// Sends the values, a block a call, and leaves. The list of a block is made once.
fn send_all<R: Wait>(rt: &R, alloc: Global, bus: &Bus, mine: &mut Option<Sender>)
    requires { IfSome mine.old (λ reg. (reg.at ≡ phaser_lock bus.now) × (reg.held.count ≡ 0)) }
    ensures { mine.new ≡ None }
{
    let Some(mut reg) = mine.take() else { return };
    // The rule allows no other task to signal.
    if reg.number() != 1 {
        let _past = reg.leave(rt, bus);
        return;
    }
    let mut lists = Vec::new(alloc);
    for block in 0..BLOCKS {
        fill(&mut lists, block.saturating_mul(SIZE));
        let _phase = reg.signal_lists(rt, bus, &lists, None);
    }
    let _past = reg.leave(rt, bus);
}

/// Leaves at the end of the stream, with all that it got.
fn leaves<R: Wait>(rt: &R, alloc: Global, bus: &Bus, taker: Taker) -> Taken
    requires at { taker.at ≡ phaser_lock bus.now }
    requires ended { HasSeenEnd taker.seen taker.number }
    ensures { GotSent (phaser_lock bus.now) (phaser_limits bus.now) result.past
        result.values.items }
{
    only_one_sends();
    let (past, values, _) = taker.leave(rt, alloc, bus).into_parts();
    Taken { past, values }
}

/// Takes values until no more will come, as many at once as there are places, and leaves.
fn take_all<R: Wait>(
    rt: &R,
    alloc: Global,
    bus: &Bus,
    mine: &mut Option<Taker>,
    places: &mut [Outcome],
) -> Option<Taken>
    requires { IfSome mine.old (λ taker. taker.at ≡ phaser_lock bus.now) }
    ensures mine { mine.new ≡ None }
    ensures all { IfSome result (λ taken.
        GotSent (phaser_lock bus.now) (phaser_limits bus.now) taken.past taken.values.items) }
{
    let mut taker = mine.take()?;
    for _ in rt.forever() {
        match taker.wait_block(rt, bus, places) {
            Ok(GotBlock::Values { .. }) => {}
            Ok(GotBlock::Ended) => return Some(leaves(rt, alloc, bus, taker)),
            Err(_) => break,
        }
    }
    drop(taker.leave(rt, alloc, bus));
    None
}

/// Runs both in threads of their own, and tells what was taken.
fn run<R: Threads + Wait + Sync>(
    rt: &R,
    alloc: Global,
    bus: &Bus,
    mut sender: Option<Sender>,
    mut taker: Option<Taker>,
    places: &mut [Outcome],
) -> Option<Taken>
    requires sender { IfSome sender (λ reg. (reg.at ≡ phaser_lock bus.now)
        × (reg.held.count ≡ 0)) }
    requires taker { IfSome taker (λ taker. taker.at ≡ phaser_lock bus.now) }
    ensures { IfSome result (λ taken.
        GotSent (phaser_lock bus.now) (phaser_limits bus.now) taken.past taken.values.items) }
{
    let (_, taken) = join_mut(
        rt,
        &mut ||
            requires { IfSome sender (λ reg. (reg.at ≡ phaser_lock bus.now)
                × (reg.held.count ≡ 0)) }
            ensures { sender.exit ≡ None }
        { send_all(rt, alloc, bus, &mut sender) },
        &mut || -> Option<Taken>
            requires { IfSome taker (λ taker. taker.at ≡ phaser_lock bus.now) }
            ensures { (taker.exit ≡ None) × IfSome result (λ taken.
                GotSent (phaser_lock bus.entry.now) (phaser_limits bus.entry.now) taken.past
                taken.values.items) }
        { take_all(rt, alloc, bus, &mut taker, places) },
    );
    let None = sender else { unreachable!() };
    let None = taker else { unreachable!() };
    taken
}

/// The sum of the values.
fn sum_of(outcomes: &[Outcome]) -> i64 {
    let mut sum = 0i64;
    for outcome in outcomes {
        if let Outcome::Value(value) = *outcome {
            sum = sum.wrapping_add(value);
        }
    }
    sum
}

fn main(rt: HostRuntime) -> io::Result<()> {
    let alloc = rt.alloc();
    let Ok(limits) = Spec::new(BOUND, 1 << 62) else {
        return Ok(())
    };
    let Ok((bus, mut founder)) = Bus::make(alloc, limits, ByOne) else {
        return Ok(())
    };
    // The founder registers a signaller and a waiter, and leaves.
    let sender = founder.register(&rt, &bus, Mode::Sig).ok();
    let taker = Taker::child_of(&rt, alloc, &bus, &mut founder, Mode::Wait).ok();
    let _past = founder.leave(&rt, &bus);
    let mut places = [Outcome::Empty; BOUND as usize];
    let Some(taken) = run(&rt, alloc, &bus, sender, taker, &mut places) else {
        return Ok(());
    };
    println!(rt;
        "took {} values, their sum is {}",
        taken.values.len(),
        sum_of(&taken.values)
    )
}
