//! Registrations and pasts that come out of a slot or a list, and where registrations stand.
ghost use Rattle.std.specs.Prelude.{◌≡◌, ◌≢◌, ◌+◌, true, Some, None, IfSome};
ghost use Rattle.std.specs.List.{All};
ghost use Rattle.phase_base.specs.Members.{entry_of};
ghost use Rattle.phase_history.specs.Histories.{members_of, entry_at};
ghost use Rattle.phase_history.specs.Legal.{IsLegal};
ghost use Rattle.phase_base.specs.Lists.{is_distinct};
ghost use Rattle.phase_shared.specs.Regs.{phaser_lock, phaser_limits};

use crate::calls::{SumPhaser, SumReg, made};
use phase_accum::Sum;
use phase_base::Mode;
use phase_shared::{NoRule, Past, Phaser, Reg};
use std::test::Fail;

// The last past of a list. A look tells that its history is legal and has no number twice.
fn last_past(
    phaser: &Phaser<Sum, NoRule>,
    pasts: &mut Vec<Past<Sum, NoRule>>,
) -> Option<Past<Sum, NoRule>>
    requires { All (λ past. past.at ≡ phaser_lock phaser.now) pasts.old.items }
    ensures at { IfSome result (λ past. past.at ≡ phaser_lock phaser.now) }
    ensures rest { All (λ past. past.at ≡ phaser_lock phaser.now) pasts.new.items }
    ensures legal { IfSome result (λ past. IsLegal (phaser_limits phaser.now) past.seen) }
    ensures distinct { IfSome result (λ past. is_distinct past.numbers ≡ true) }
{
    let past = pasts.pop()?;
    past.look();
    Some(past)
}

// The registration of a slot. A look tells that it is registered in a legal history.
fn reg_in(
    phaser: &Phaser<Sum, NoRule>,
    slot: &mut Option<Reg<Sum, NoRule>>,
) -> Option<Reg<Sum, NoRule>>
    requires { IfSome slot.old (λ reg. reg.at ≡ phaser_lock phaser.now) }
    ensures at { IfSome result (λ reg. reg.at ≡ phaser_lock phaser.now) }
    ensures none { slot.new ≡ None }
    ensures legal { IfSome result (λ reg. IsLegal (phaser_limits phaser.now) reg.seen) }
    ensures member { IfSome result (λ reg.
        entry_of (members_of reg.seen) reg.number ≡ Some reg.entry) }
{
    let reg = slot.take()?;
    reg.look();
    Some(reg)
}

// Two registrations, wherever they came from, have two numbers.
fn meet_apart(
    phaser: &Phaser<Sum, NoRule>,
    one: Reg<Sum, NoRule>,
    other: Reg<Sum, NoRule>,
) -> (Reg<Sum, NoRule>, Reg<Sum, NoRule>)
    requires { (one.at ≡ phaser_lock phaser.now) × (other.at ≡ phaser_lock phaser.now) }
    ensures apart { one.number ≢ other.number }
    ensures at { (result.0.at ≡ one.at) × (result.1.at ≡ other.at) }
{
    one.meet(phaser, other)
}

// Signals two phases at once.
fn signal_two(phaser: &Phaser<Sum, NoRule>, reg: &mut Reg<Sum, NoRule>) -> Option<u64>
    requires { reg.old.at ≡ phaser_lock phaser.now }
    ensures at { reg.new.at ≡ reg.old.at }
    ensures entry { IfSome result (λ phase. reg.new.entry ≡ entry_at reg.old.entry.mode
        (reg.old.entry.signal_phase + 1 + 1) reg.old.entry.wait_phase) }
{
    let Ok(_) = reg.try_signal(phaser, None) else {
        return None;
    };
    let Ok(second) = reg.try_signal(phaser, None) else {
        return None;
    };
    Some(second)
}

// A child that stands where its parent stands.
fn child_beside(
    phaser: &Phaser<Sum, NoRule>,
    reg: &mut Reg<Sum, NoRule>,
    mode: Mode,
) -> Option<Reg<Sum, NoRule>>
    requires { reg.old.at ≡ phaser_lock phaser.now }
    ensures at { reg.new.at ≡ reg.old.at }
    ensures child { IfSome result (λ child. (child.at ≡ reg.old.at) × (child.entry
        ≡ entry_at mode reg.new.entry.signal_phase reg.new.entry.wait_phase)) }
{
    match reg.try_register(phaser, mode) {
        Ok(child) => Some(child),
        Err(_) => None,
    }
}

// A child signals two phases, and registers a child of its own, which comes out of a slot.
fn grandchild_of(phaser: &SumPhaser, child: &mut SumReg) -> Option<(u64, SumReg)>
    requires { child.old.at ≡ phaser_lock phaser.now }
    ensures at { child.new.at ≡ child.old.at }
    ensures grandchild { IfSome result (λ made. made.1.at ≡ phaser_lock phaser.now) }
{
    let second = signal_two(phaser, child)?;
    let mut slot = child_beside(phaser, child, Mode::Sig);
    let taken = reg_in(phaser, &mut slot);
    let None = slot else { unreachable!() };
    match taken {
        Some(grandchild) => Some((second, grandchild)),
        None => None,
    }
}

// Joins the two pasts of a list, as they come out, and a third.
fn joins_kept(
    phaser: &SumPhaser,
    pasts: &mut Vec<Past<Sum, NoRule>>,
    last: Past<Sum, NoRule>,
) -> Option<Past<Sum, NoRule>>
    requires pasts { All (λ past. past.at ≡ phaser_lock phaser.now) pasts.old.items }
    requires last { last.at ≡ phaser_lock phaser.now }
    ensures { IfSome result (λ past. past.at ≡ phaser_lock phaser.now) }
{
    let second = last_past(phaser, pasts)?;
    let first = last_past(phaser, pasts)?;
    Some(first.join(phaser, second).join(phaser, last))
}

#[test]
fn kept_registrations_and_pasts(rt: HostRuntime) -> Result<(), Fail> {
    let alloc = rt.alloc();
    let Some((phaser, mut founder)) = made(alloc, 2) else {
        panic!(rt; "there is memory")
    };
    let Some(mut child) = child_beside(&phaser, &mut founder, Mode::Sig) else {
        panic!(rt; "the founder holds a signaller")
    };
    let Some((second, grandchild)) = grandchild_of(&phaser, &mut child) else {
        panic!(rt; "two phases have room, and the child holds a signaller")
    };
    let (child, grandchild) = meet_apart(&phaser, child, grandchild);
    let phases = (child.phase(), grandchild.phase());
    let first = founder.leave(&rt, &phaser);
    let middle = child.leave(&rt, &phaser);
    let last = grandchild.leave(&rt, &phaser);
    let mut pasts = Vec::new(alloc);
    pasts.push(first)?;
    pasts.push(middle)?;
    let all = joins_kept(&phaser, &mut pasts, last);
    assert!(rt; all.is_some());
    assert_eq!(rt; second, 1);
    assert_eq!(rt; phases, ((2, 0), (2, 0)));
    assert!(rt; pasts.is_empty());
    Ok(())
}
