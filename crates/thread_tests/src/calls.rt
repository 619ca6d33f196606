//! Calls on a phaser of sums, with no more of what they promise than that a registration stays on
//! its phaser, and that it holds nothing: a test that goes by these is proved at once.
ghost use Rattle.std.specs.Prelude.{◌≡◌, IfOk, IfSome};
ghost use Rattle.phase_shared.specs.Regs.{phaser_lock};

use phase_accum::{Outcome, Pending, Single, Sum};
use phase_base::{Mode, Spec};
use phase_core::{Got, GotBlock, RegisterRefusal, SignalRefusal, WaitRefusal};
use phase_shared::{Next, NoRule, Phaser, Reg, Tried};
use std::alloc::Global;
use std::sync::Wait;

pub(crate) type SumPhaser = Phaser<Sum, NoRule>;

pub(crate) type SumReg = Reg<Sum, NoRule>;

// A phaser with a bound and at most 1000 phases, and its founder.
pub(crate) fn made(alloc: Global, bound: u64) -> Option<(SumPhaser, SumReg)>
    ensures at { IfSome result (λ made. made.1.at ≡ phaser_lock made.0) }
    ensures none_held { IfSome result (λ made. made.1.held.count ≡ 0) }
{
    let Ok(limits) = Spec::new(bound, 1000) else {
        return None;
    };
    match Phaser::make(alloc, limits, NoRule) {
        Ok(made) => Some(made),
        Err(_) => None,
    }
}

// A child in a mode, where it can be registered at once.
pub(crate) fn registered(phaser: &SumPhaser, parent: &mut SumReg, mode: Mode) -> Option<SumReg>
    requires { parent.old.at ≡ phaser_lock phaser.now }
    ensures at { parent.new.at ≡ parent.old.at }
    ensures held { parent.new.held ≡ parent.old.held }
    ensures child { IfSome result (λ child. child.at ≡ phaser_lock phaser.now) }
    ensures none_held { IfSome result (λ child. child.held.count ≡ 0) }
{
    match parent.try_register(phaser, mode) {
        Ok(child) => Some(child),
        Err(_) => None,
    }
}

// Waits for its phase, where that is at once.
pub(crate) fn waited(phaser: &SumPhaser, reg: &mut SumReg) -> Result<Got, Tried<WaitRefusal>>
    requires { reg.old.at ≡ phaser_lock phaser.now }
    ensures at { reg.new.at ≡ reg.old.at }
    ensures held { reg.new.held ≡ reg.old.held }
{
    reg.try_wait(phaser)
}

pub(crate) type Turned = Result<Next, SignalRefusal>;

// Goes on to its next phase, with a single or without.
pub(crate) fn goes_on<R: Wait>(
    rt: &R,
    phaser: &SumPhaser,
    reg: &mut SumReg,
    single: Option<Single>,
) -> Turned
    requires { reg.old.at ≡ phaser_lock phaser.now }
    ensures { reg.new.at ≡ reg.old.at }
{
    reg.next(rt, phaser, single)
}

// Leaves, whatever it has seen.
pub(crate) fn left<R: Wait>(rt: &R, phaser: &SumPhaser, reg: SumReg)
    requires { reg.at ≡ phaser_lock phaser.now }
{
    let _past = reg.leave(rt, phaser);
}

// A phaser, its founder and a child.
pub(crate) fn made_with_child<R: Wait>(
    rt: &R,
    alloc: Global,
    bound: u64,
    mode: Mode,
) -> Option<(SumPhaser, SumReg, SumReg)>
    ensures founder { IfSome result (λ made. made.1.at ≡ phaser_lock made.0) }
    ensures child { IfSome result (λ made. made.2.at ≡ phaser_lock made.0) }
    ensures none_held { IfSome result (λ made. made.1.held.count ≡ 0) }
    ensures none_of_child { IfSome result (λ made. made.2.held.count ≡ 0) }
{
    let (phaser, mut founder) = made(alloc, bound)?;
    let Some(child) = registered(&phaser, &mut founder, mode) else {
        left(rt, &phaser, founder);
        return None;
    };
    Some((phaser, founder, child))
}

// Signals its phase, where that is at once.
pub(crate) fn signalled(phaser: &SumPhaser, reg: &mut SumReg) -> Result<u64, Tried<SignalRefusal>>
    requires { reg.old.at ≡ phaser_lock phaser.now }
    ensures { reg.new.at ≡ reg.old.at }
{
    reg.try_signal(phaser, None)
}

// Signals a phase for each of these lists, where that is at once, or hands them back.
pub(crate) fn block_signalled(
    phaser: &SumPhaser,
    reg: &mut SumReg,
    lists: Vec<Pending<Sum>>,
) -> Result<u64, (Tried<SignalRefusal>, Vec<Pending<Sum>>)>
    requires at { reg.old.at ≡ phaser_lock phaser.now }
    requires none_held { reg.old.held.count ≡ 0 }
    ensures at { reg.new.at ≡ reg.old.at }
    ensures held { reg.new.held ≡ reg.old.held }
{
    reg.try_signal_block(phaser, lists, None)
}

// The same with lists that are lent.
pub(crate) fn lists_signalled(
    phaser: &SumPhaser,
    reg: &mut SumReg,
    lists: &[Pending<Sum>],
) -> Result<u64, Tried<SignalRefusal>>
    requires at { reg.old.at ≡ phaser_lock phaser.now }
    requires none_held { reg.old.held.count ≡ 0 }
    ensures at { reg.new.at ≡ reg.old.at }
    ensures held { reg.new.held ≡ reg.old.held }
{
    reg.try_signal_lists(phaser, lists, None)
}

// Waits for as many phases as there are places, where that is at once.
pub(crate) fn block_waited(
    phaser: &SumPhaser,
    reg: &mut SumReg,
    out: &mut [Outcome],
) -> Result<GotBlock, Tried<WaitRefusal>>
    requires { reg.old.at ≡ phaser_lock phaser.now }
    ensures { reg.new.at ≡ reg.old.at }
{
    reg.try_wait_block(phaser, out)
}

// The same, and waits until it can.
pub(crate) fn block_got<R: Wait>(
    rt: &R,
    phaser: &SumPhaser,
    reg: &mut SumReg,
    out: &mut [Outcome],
) -> Result<GotBlock, WaitRefusal>
    requires { reg.old.at ≡ phaser_lock phaser.now }
    ensures { reg.new.at ≡ reg.old.at }
{
    reg.wait_block(rt, phaser, out)
}

// A child that joins now, where it can be registered at once.
pub(crate) fn joined_now(
    phaser: &SumPhaser,
    parent: &mut SumReg,
) -> Result<SumReg, Tried<RegisterRefusal>>
    requires { parent.old.at ≡ phaser_lock phaser.now }
    ensures at { parent.new.at ≡ parent.old.at }
    ensures held { parent.new.held ≡ parent.old.held }
    ensures child { IfOk result (λ child. child.at ≡ phaser_lock phaser.now) }
{
    parent.try_register_now(phaser)
}
