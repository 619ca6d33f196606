//! A pipeline of three threads over two phasers: a source, which a helper joins for some phases, a
//! doubler, and a sink. Whatever the schedule, the sink gets exactly the stream of the second
//! phaser from its start on: nothing is lost, nothing comes twice, and no later phase can come.
#![tactic(auto)]

ghost use Rattle.std.specs.Prelude.{◌≡◌, None, IfSome};
ghost use denote.Param.Send.{IsSync};
ghost use Rattle.phase_shared.specs.Regs.{phaser_lock, phaser_limits};
ghost use Rattle.three_stages.specs.LastThread.{GotWhole};

use phase_accum::{Outcome, Sum};
use phase_base::{Mode, Spec};
use phase_core::Got;
use phase_received::{Receipts, Receiver, laws};
use phase_shared::{NoRule, Past, Phaser, Reg};
use std::alloc::Global;
use std::io;
use std::sync::Wait;
use std::thread::{Threads, join_mut};

type Bus = Phaser<Sum, NoRule>;

type Sender = Reg<Sum, NoRule>;

type Taker = Receiver<Sum, NoRule>;

type Left = Past<Sum, NoRule>;

/// How many phases the source makes, and in how many of them the helper sends too.
const PHASES: i64 = 300;

const HELPED: i64 = 100;

/// What the sink got, and a past into which its registration went.
#[derive(Drop)]
struct Sunk {
    past: Left,
    values: Vec<Outcome>,
}

/// The registrations of the stages.
struct Stages {
    source: Option<Sender>,
    from: Option<Taker>,
    to: Option<Sender>,
    sink: Option<Taker>,
}

/// Sends a value and signals.
fn sends<R: Wait>(rt: &R, bus: &Bus, sender: &mut Sender, value: i64) -> bool
    requires { sender.old.at ≡ phaser_lock bus.now }
    ensures { sender.new.at ≡ sender.old.at }
{
    let is_held = sender.send(value).is_ok();
    sender.signal(rt, bus, None).is_ok() && is_held
}

/// The helper's part: it sends 1000 in each of some phases, and leaves.
fn helps<R: Wait>(rt: &R, bus: &Bus, slot: &mut Option<Sender>) -> Option<Left>
    requires { IfSome slot.old (λ sender. sender.at ≡ phaser_lock bus.now) }
    ensures slot { slot.new ≡ None }
    ensures past { IfSome result (λ past. past.at ≡ phaser_lock bus.now) }
{
    let mut sender = slot.take()?;
    for _ in 0..HELPED {
        let _sent = sends(rt, bus, &mut sender, 1000);
    }
    Some(sender.leave(rt, bus))
}

/// Sends the values of a range, a value a phase.
fn sends_some<R: Wait>(rt: &R, bus: &Bus, sender: &mut Sender, from: i64, to: i64)
    requires { sender.old.at ≡ phaser_lock bus.now }
    ensures { sender.new.at ≡ sender.old.at }
{
    for value in from..to {
        let _sent = sends(rt, bus, sender, value);
    }
}

/// The source's part: it sends 0, 1, 2 and so on. After some phases a helper joins it, in a thread
/// of its own.
fn feeds<R: Threads + Wait + Sync>(rt: &R, bus: &Bus, slot: &mut Option<Sender>) -> Option<Left>
    requires { IfSome slot.old (λ sender. sender.at ≡ phaser_lock bus.now) }
    ensures slot { slot.new ≡ None }
    ensures past { IfSome result (λ past. past.at ≡ phaser_lock bus.now) }
{
    let mut sender = slot.take()?;
    sends_some(rt, bus, &mut sender, 0, HELPED);
    let mut helper = match sender.register(rt, bus, Mode::Sig) {
        Ok(child) => Some(child),
        Err(_) => None,
    };
    let own = &mut sender;
    let ((), helped) = join_mut(
        rt,
        &mut || -> ()
            requires { own.now.at ≡ phaser_lock bus.now }
            ensures { own.exit.now.at ≡ phaser_lock bus.entry.now }
        { sends_some(rt, bus, own, HELPED, PHASES) },
        &mut || -> Option<Left>
            requires { IfSome helper (λ sender. sender.at ≡ phaser_lock bus.now) }
            ensures { (helper.exit ≡ None) × IfSome result (λ past.
                past.at ≡ phaser_lock bus.entry.now) }
        { helps(rt, bus, &mut helper) },
    );
    let None = helper else { unreachable!() };
    let past = sender.leave(rt, bus);
    match helped {
        Some(other) => Some(past.join(bus, other)),
        None => Some(past),
    }
}

/// The sink's part: it takes all values, until no more will come.
fn takes_all<R: Wait>(rt: &R, alloc: Global, bus: &Bus, slot: &mut Option<Taker>) -> Option<Sunk>
    requires { IfSome slot.old (λ taker. taker.at ≡ phaser_lock bus.now) }
    ensures slot { slot.new ≡ None }
    ensures all { IfSome result (λ sunk.
        GotWhole (phaser_lock bus.now) (phaser_limits bus.now) sunk.past sunk.values.items) }
{
    let mut taker = slot.take()?;
    for _ in rt.forever() {
        let got = match taker.wait(rt, bus) {
            Ok(got) => got,
            Err(_) => break,
        };
        if let Got::Ended = got {
            let (past, values, _) = taker.leave(rt, alloc, bus).into_parts();
            return Some(Sunk { past, values });
        }
    }
    let _receipts = taker.leave(rt, alloc, bus);
    None
}

/// The doubler's part: it sends twice of each value that it takes on to the second phaser.
fn doubles<R: Wait>(
    rt: &R,
    alloc: Global,
    from: &Bus,
    slot: &mut Option<Taker>,
    to: &Bus,
    out: &mut Option<Sender>,
) -> Option<Left>
    requires slot { IfSome slot.old (λ taker. taker.at ≡ phaser_lock from.now) }
    requires out { IfSome out.old (λ sender. sender.at ≡ phaser_lock to.now) }
    ensures slots { (slot.new ≡ None) × (out.new ≡ None) }
    ensures left { IfSome result (λ past. past.at ≡ phaser_lock to.now) }
{
    let (mut taker, mut sender) = match (slot.take(), out.take()) {
        (Some(taker), Some(sender)) => (taker, sender),
        (Some(taker), None) => {
            let _receipts = taker.leave(rt, alloc, from);
            return None;
        }
        (None, Some(sender)) => return Some(sender.leave(rt, to)),
        (None, None) => return None,
    };
    for _ in rt.forever() {
        let Ok(Got::Value { phase: _, outcome }) = taker.wait(rt, from) else {
            break
        };
        let Outcome::Value(value) = outcome else {
            break
        };
        let _sent = sends(rt, to, &mut sender, value.saturating_mul(2));
    }
    let _receipts = taker.leave(rt, alloc, from);
    Some(sender.leave(rt, to))
}

/// Joins what others left to what the sink left: it still has the whole stream.
fn joins(bus: &Bus, sunk: Sunk, others: Left) -> Sunk
    requires sunk { GotWhole (phaser_lock bus.now) (phaser_limits bus.now) sunk.past
        sunk.values.items }
    requires others { others.at ≡ phaser_lock bus.now }
    ensures { GotWhole (phaser_lock bus.now) (phaser_limits bus.now) result.past
        result.values.items }
{
    laws::whole();
    phase_shared::laws::parts_stay();
    let Sunk { past, values } = sunk;
    let past = past.join(bus, others);
    Sunk { past, values }
}

/// The doubler and the sink, each in a thread of its own.
fn runs_two<R: Threads + Wait + Sync>(
    rt: &R,
    alloc: Global,
    first: &Bus,
    second: &Bus,
    from: &mut Option<Taker>,
    to: &mut Option<Sender>,
    sink: &mut Option<Taker>,
) -> Option<Sunk>
    requires from { IfSome from.old (λ taker. taker.at ≡ phaser_lock first.now) }
    requires to { IfSome to.old (λ sender. sender.at ≡ phaser_lock second.now) }
    requires sink { IfSome sink.old (λ taker. taker.at ≡ phaser_lock second.now) }
    ensures slots { (from.new ≡ None) × (to.new ≡ None) × (sink.new ≡ None) }
    ensures all { IfSome result (λ sunk.
        GotWhole (phaser_lock second.now) (phaser_limits second.now) sunk.past
        sunk.values.items) }
{
    let (doubled, sunk) = join_mut(
        rt,
        &mut || -> Option<Left>
            requires { IfSome from.now (λ taker. taker.at ≡ phaser_lock first.now)
                × IfSome to.now (λ sender. sender.at ≡ phaser_lock second.now) }
            ensures { (from.exit.now ≡ None) × (to.exit.now ≡ None)
                × IfSome result (λ past. past.at ≡ phaser_lock second.entry.now) }
        { doubles(rt, alloc, first, from, second, to) },
        &mut || -> Option<Sunk>
            requires { IfSome sink.now (λ taker. taker.at ≡ phaser_lock second.now) }
            ensures { (sink.exit.now ≡ None) × IfSome result (λ sunk.
                GotWhole (phaser_lock second.entry.now) (phaser_limits second.entry.now)
                sunk.past sunk.values.items) }
        { takes_all(rt, alloc, second, sink) },
    );
    Some(joins(second, sunk?, doubled?))
}

/// The three stages, each in a thread of its own. What the sink got is exactly the stream of the
/// second phaser, from the phase at which the sink began.
fn runs<R: Threads + Wait + Sync>(
    rt: &R,
    alloc: Global,
    first: &Bus,
    second: &Bus,
    stages: Stages,
) -> Option<Sunk>
    requires source { IfSome stages.source (λ sender. sender.at ≡ phaser_lock first.now) }
    requires from { IfSome stages.from (λ taker. taker.at ≡ phaser_lock first.now) }
    requires to { IfSome stages.to (λ sender. sender.at ≡ phaser_lock second.now) }
    requires sink { IfSome stages.sink (λ taker. taker.at ≡ phaser_lock second.now) }
    ensures { IfSome result (λ sunk.
        GotWhole (phaser_lock second.now) (phaser_limits second.now) sunk.past
        sunk.values.items) }
{
    let Stages {
        mut source,
        mut from,
        mut to,
        mut sink,
    } = stages;
    let (_fed, sunk) = join_mut(
        rt,
        &mut || -> Option<Left>
            requires { IfSome source (λ sender. sender.at ≡ phaser_lock first.now)
                × IsSync R.row }
            ensures { source.exit ≡ None }
        { feeds(rt, first, &mut source) },
        &mut || -> Option<Sunk>
            requires { IfSome from (λ taker. taker.at ≡ phaser_lock first.now)
                × IfSome to (λ sender. sender.at ≡ phaser_lock second.now)
                × IfSome sink (λ taker. taker.at ≡ phaser_lock second.now) × IsSync R.row }
            ensures { (from.exit ≡ None) × (to.exit ≡ None) × (sink.exit ≡ None)
                × IfSome result (λ sunk. GotWhole (phaser_lock second.entry.now)
                (phaser_limits second.entry.now) sunk.past sunk.values.items) }
        { runs_two(rt, alloc, first, second, &mut from, &mut to, &mut sink) },
    );
    let None = source else { unreachable!() };
    let None = from else { unreachable!() };
    let None = to else { unreachable!() };
    let None = sink else { unreachable!() };
    sunk
}

// How many values there are, and their sum.
fn summed(values: &[Outcome]) -> (u64, i64) {
    let (mut count, mut sum) = (0u64, 0i64);
    for outcome in values {
        if let Outcome::Value(value) = outcome {
            count = count.wrapping_add(1);
            sum = sum.wrapping_add(*value);
        }
    }
    (count, sum)
}

fn main(rt: HostRuntime) -> io::Result<()> {
    let alloc = rt.alloc();
    let (Ok(limits), Ok(shorter)) = (Spec::new(4, 1 << 62), Spec::new(2, 1 << 62)) else {
        return Ok(());
    };
    let Ok((first, mut source)) = Bus::make(alloc, limits, NoRule) else {
        return Ok(());
    };
    let Ok((second, mut founder)) = Bus::make(alloc, shorter, NoRule) else {
        let _past = source.leave(&rt, &first);
        return Ok(());
    };
    let stages = Stages {
        source: source.register(&rt, &first, Mode::Sig).ok(),
        from: Taker::child_of(&rt, alloc, &first, &mut source, Mode::Wait).ok(),
        to: founder.register(&rt, &second, Mode::Sig).ok(),
        sink: Taker::child_of(&rt, alloc, &second, &mut founder, Mode::Wait).ok(),
    };
    let _past = source.leave(&rt, &first);
    let past = founder.leave(&rt, &second);
    let Some(sunk) = runs(&rt, alloc, &first, &second, stages) else {
        return Ok(());
    };
    let sunk = joins(&second, sunk, past);
    let (count, sum) = summed(sunk.values.as_slice());
    println!(rt; "took {count} values, their sum is {sum}")
}
