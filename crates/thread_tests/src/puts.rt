//! Values that are put by one call.
ghost use Rattle.std.specs.Prelude.{◌≡◌, ◌≢◌, IfSome, OnOk, OnErr};
ghost use Rattle.phase_accum.specs.declared.outcome.TheConstants.{NO_VALUE};
ghost use Rattle.phase_shared.specs.Regs.{phaser_lock};
ghost use Rattle.phase_shared.specs.Puts.{IsFreeFor};

use crate::calls::{SumPhaser, SumReg, left, made_with_child, waited};
use phase_accum::{Accumulate, Outcome, Single};
use phase_base::Mode;
use phase_core::{Got, SignalRefusal, WaitRefusal};
use phase_shared::{NoRule, Phaser, Reg, Tried};
use std::test::Fail;

// Puts a value, and tells what was answered.
fn put<A: Accumulate>(
    phaser: &Phaser<A, NoRule>,
    reg: &mut Reg<A, NoRule>,
    value: i64,
    single: Option<Single>,
) -> Result<u64, Tried<SignalRefusal>>
    requires at { reg.old.at ≡ phaser_lock phaser.now }
    requires value { value ≢ NO_VALUE }
    requires free { IsFreeFor A.operation reg.old.held value }
    ensures at { reg.new.at ≡ reg.old.at }
    ensures none { OnOk result (reg.new.held.count ≡ 0) }
    ensures free { OnErr result (IsFreeFor A.operation reg.new.held value) }
{
    reg.try_put(phaser, value, single)
}

fn value(phase: u64, value: i64) -> Got {
    Got::Value {
        phase,
        outcome: Outcome::Value(value),
    }
}

type Waited = Result<Got, Tried<WaitRefusal>>;

// The sender puts 4, 5 and 5 again once the founder has put 3 and waited: why the first 5 was
// refused, what was held then, what the founder got, and what is held in the end.
fn put_ahead(
    phaser: &SumPhaser,
    sender: &mut SumReg,
    founder: &mut SumReg,
) -> Option<((Tried<SignalRefusal>, u64), (Waited, u64))>
    requires sender { (sender.old.at ≡ phaser_lock phaser.now) × (sender.old.held.count ≡ 0) }
    requires founder { (founder.old.at ≡ phaser_lock phaser.now) × (founder.old.held.count ≡ 0) }
    ensures at { (sender.new.at ≡ sender.old.at) × (founder.new.at ≡ founder.old.at) }
    ensures none_held { IfSome result (λ seen. founder.new.held.count ≡ 0) }
{
    let Ok(0) = put(phaser, sender, 4, None) else {
        return None;
    };
    let Err(ahead) = put(phaser, sender, 5, None) else {
        return None;
    };
    let held = sender.pending();
    let Ok(0) = put(phaser, founder, 3, None) else {
        return None;
    };
    let got = waited(phaser, founder);
    let Ok(1) = put(phaser, sender, 5, None) else {
        return None;
    };
    Some(((ahead, held), (got, sender.pending())))
}

// The founder puts 6 with a single, which the sender did not name, and then without.
fn put_without_a_single(
    phaser: &SumPhaser,
    founder: &mut SumReg,
) -> Option<(Tried<SignalRefusal>, Waited)>
    requires { (founder.old.at ≡ phaser_lock phaser.now) × (founder.old.held.count ≡ 0) }
    ensures at { founder.new.at ≡ founder.old.at }
    ensures none_held { IfSome result (λ seen. founder.new.held.count ≡ 0) }
{
    let Err(differs) = put(phaser, founder, 6, Some(Single::neg())) else {
        return None;
    };
    let Ok(1) = put(phaser, founder, 6, None) else {
        return None;
    };
    Some((differs, waited(phaser, founder)))
}

// The founder, which is alone by now, puts 9 with a single.
fn put_alone(phaser: &SumPhaser, founder: &mut SumReg) -> Option<Waited>
    requires { (founder.old.at ≡ phaser_lock phaser.now) × (founder.old.held.count ≡ 0) }
    ensures { founder.new.at ≡ founder.old.at }
{
    let Ok(2) = put(phaser, founder, 9, Some(Single::neg())) else {
        return None;
    };
    Some(waited(phaser, founder))
}

#[test]
fn a_refused_value_is_put_again(rt: HostRuntime) -> Result<(), Fail> {
    let Some((phaser, mut founder, mut sender)) = made_with_child(&rt, rt.alloc(), 1, Mode::Sig)
    else {
        panic!(rt; "the founder is alone, and there is memory")
    };
    let Some((first, of_first)) = put_ahead(&phaser, &mut sender, &mut founder) else {
        panic!(rt; "phase 0 has room, and phase 1 once the founder has waited")
    };
    let Some(second) = put_without_a_single(&phaser, &mut founder) else {
        panic!(rt; "the sender named no single for phase 1")
    };
    left(&rt, &phaser, sender);
    let third = put_alone(&phaser, &mut founder);
    left(&rt, &phaser, founder);
    assert_eq!(rt; first, (Tried::Refused(SignalRefusal::Ahead), 1));
    assert_eq!(rt; of_first, (Ok(value(0, 7)), 0));
    let differs = Tried::Refused(SignalRefusal::SingleDiffers);
    assert_eq!(rt; second, (differs, Ok(value(1, 11))));
    assert_eq!(rt; third, Some(Ok(value(2, -9))));
    Ok(())
}

#[test]
fn a_waiter_puts_nothing(rt: HostRuntime) -> Result<(), Fail> {
    let Some((phaser, founder, mut waiter)) = made_with_child(&rt, rt.alloc(), 1, Mode::Wait) else {
        panic!(rt; "the founder is alone, and there is memory")
    };
    let refused = put(&phaser, &mut waiter, 1, None);
    let held = waiter.pending();
    left(&rt, &phaser, waiter);
    left(&rt, &phaser, founder);
    let no_signal = Tried::Refused(SignalRefusal::NoSignal);
    assert_eq!(rt; (refused, held), (Err(no_signal), 0));
    Ok(())
}
