//! What calls add to a task's own part, by the laws of `phase_shared`.
ghost use Rattle.std.specs.Prelude.{◌≡◌, ◌+◌, Some, None, IfOk, OnOk, true, length};
ghost use Rattle.phase_history.specs.Histories.{start_of, entry_at, has_dropped};
ghost use Rattle.phase_history.specs.Sent.{sent_by};
ghost use Rattle.phase_shared.specs.Regs.{phaser_lock};

use crate::calls::{goes_on, made};
use phase_accum::Sum;
use phase_base::Mode;
use phase_core::{RegisterRefusal, SignalRefusal};
use phase_shared::{NoRule, Past, Phaser, Reg, laws};
use std::sync::Wait;
use std::test::Fail;

// Registers a child, which starts at its parent's phases.
fn registers<R: Wait>(
    rt: &R,
    phaser: &Phaser<Sum, NoRule>,
    parent: &mut Reg<Sum, NoRule>,
    mode: Mode,
) -> Result<Reg<Sum, NoRule>, RegisterRefusal>
    requires { parent.old.at ≡ phaser_lock phaser.now }
    ensures at { parent.new.at ≡ parent.old.at }
    ensures start { IfOk result (λ child. start_of child.seen child.number
        ≡ Some (entry_at mode parent.old.entry.signal_phase parent.old.entry.wait_phase)) }
    ensures child { IfOk result (λ child. child.at ≡ phaser_lock phaser.now) }
{
    laws::registers();
    let _mode = parent.mode();
    let child = match parent.register(rt, phaser, mode) {
        Ok(child) => child,
        Err(refusal) => return Err(refusal),
    };
    Ok(child)
}

// Signals, which sends one list more.
fn signals<R: Wait>(
    rt: &R,
    phaser: &Phaser<Sum, NoRule>,
    reg: &mut Reg<Sum, NoRule>,
) -> Result<u64, SignalRefusal>
    requires { reg.old.at ≡ phaser_lock phaser.now }
    ensures at { reg.new.at ≡ reg.old.at }
    ensures sent { OnOk result (length (sent_by reg.new.seen reg.old.number)
        ≡ length (sent_by reg.old.seen reg.old.number) + 1) }
{
    laws::signals::<Sum>();
    let phase = match reg.signal(rt, phaser, None) {
        Ok(phase) => phase,
        Err(refusal) => return Err(refusal),
    };
    Ok(phase)
}

// Leaves, and has then dropped its registration.
fn leaves<R: Wait>(rt: &R, phaser: &Phaser<Sum, NoRule>, reg: Reg<Sum, NoRule>) -> Past<Sum, NoRule>
    requires { reg.at ≡ phaser_lock phaser.now }
    ensures dropped { has_dropped result.seen reg.number ≡ true }
    ensures sent { sent_by result.seen reg.number ≡ sent_by reg.seen reg.number }
{
    laws::leaves();
    reg.leave(rt, phaser)
}

#[test]
fn a_child_takes_its_part(rt: HostRuntime) -> Result<(), Fail> {
    let Some((phaser, mut founder)) = made(rt.alloc(), 2) else {
        panic!(rt; "there is memory")
    };
    let went_on = goes_on(&rt, &phaser, &mut founder, None).is_ok();
    let child = registers(&rt, &phaser, &mut founder, Mode::Sig);
    let Ok(mut child) = child else {
        panic!(rt; "the founder holds a signaller")
    };
    let phases = child.phase();
    let signalled = signals(&rt, &phaser, &mut child);
    let _past = leaves(&rt, &phaser, child);
    let _past = leaves(&rt, &phaser, founder);
    assert_eq!(rt; (went_on, phases), (true, (1, 1)));
    assert_eq!(rt; signalled, Ok(1));
    Ok(())
}
