//! The phasers of a graph and the registrations of their founders.
ghost use Rattle.std.specs.Prelude.{◌≡◌, ◌<◌, length, IfOk};
ghost use Rattle.stream_members.specs.AnyPhasers.{phaser_op, phaser_spot, IsFounderOf};
ghost use Rattle.stream_tasks.specs.Openings.{ArePhasers, AreFoundersFrom, IsOfLine};

use phase_base::{PHASES_MAX, Spec};
use std::alloc::{AllocError, Global};
use std::sync::Wait;
use stream_lists::Job;
use stream_members::{AnyPhaser, AnyReg};

/// Makes phaser number `p`.
fn open_phaser(alloc: Global, job: &Job, p: usize) -> Result<(AnyPhaser, AnyReg), AllocError>
    requires { p < length job.now.graph.phasers }
    ensures line { IfOk result (λ made.
        IsOfLine job.now p (phaser_op made.0) (phaser_spot made.0)) }
    ensures founder { IfOk result (λ made. IsFounderOf made.0 made.1) }
{
    let line = job.graph().phaser(p);
    let Ok(spec) = Spec::new(line.bound, PHASES_MAX) else {
        unreachable!()
    };
    AnyPhaser::make(alloc, line.op, spec)
}

/// The founder of a phaser leaves. It waits for its turn.
fn dismiss_one<W: Wait>(rt: &W, phaser: &AnyPhaser, reg: AnyReg)
    requires { IsFounderOf phaser.now reg }
{
    let _left = phaser.member(reg).leave(rt);
}

/// The founders of these phasers leave. It waits for their turns.
pub fn dismiss<W: Wait>(rt: &W, phasers: &[AnyPhaser], regs: Vec<AnyReg>)
    requires { AreFoundersFrom 0 phasers.now regs.items }
{
    let mut regs = regs.into_iter();
    for p in 0..phasers.len() {
        let Some(reg) = regs.next() else {
            unreachable!()
        };
        dismiss_one(rt, &phasers[p], reg);
    }
    regs.destroy_empty();
}

/// Makes the phasers of a graph, in the order of their lines, and the registrations of their
/// founders. Where memory is wanting, those made so far leave, by waiting.
pub fn open_phasers<W: Wait>(
    rt: &W,
    alloc: Global,
    job: &Job,
) -> Result<(Vec<AnyPhaser>, Vec<AnyReg>), AllocError>
    ensures phasers { IfOk result (λ made. ArePhasers job.now made.0.items) }
    ensures founders { IfOk result (λ made. AreFoundersFrom 0 made.0.items made.1.items) }
{
    let many = job.graph().phasers();
    let mut phasers = Vec::with_capacity(alloc, many)?;
    let mut regs = Vec::with_capacity(alloc, many)?;
    for p in 0..many {
        let Ok((phaser, reg)) = open_phaser(alloc, job, p) else {
            dismiss(rt, &phasers, regs);
            return Err(AllocError);
        };
        phasers.push_reserved(phaser);
        regs.push_reserved(reg);
    }
    Ok((phasers, regs))
}
