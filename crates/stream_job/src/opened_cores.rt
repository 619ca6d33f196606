//! The phasers of a graph at its opening.
ghost use Rattle.std.specs.Prelude.{◌≡◌, ◌<◌, ◌≤◌, ◌+◌, length, slice_get, Some, IfOk, OnOk, ℕ};
ghost use Rattle.graph_base.specs.Graphs.{phaser_at};
ghost use Rattle.graph_base.specs.TaskLines.{IsGraph};
ghost use Rattle.graph_runs.specs.Moments.{limits_at};
ghost use Rattle.phase_any.specs.Phasers.{PhaserStandsFor};
ghost use Rattle.graph_runs.specs.Beginnings.{roots_joined, opening};

use crate::roots::root_mode;
use phase_any::AnyPhaser;
use phase_base::{PHASES_MAX, Spec};
use phase_core::RegisterRefusal;
use std::alloc::{AllocError, Global};
use stream_lists::Job;

/// Registers task number `t` on phaser number `p`, where it begins there, as the next number.
fn join_root(core: &mut AnyPhaser, job: &Job, p: usize, t: usize) -> Result<(), AllocError>
    requires graph { IsGraph job.now.graph }
    requires phaser { p < length job.now.graph.phasers }
    requires task { t < length job.now.graph.tasks }
    requires core { PhaserStandsFor core.old (phaser_at job.now.graph p).op (limits_at job.now p)
        (roots_joined job.now p t) }
    ensures { OnOk result (PhaserStandsFor core.new (phaser_at job.now.graph p).op
        (limits_at job.now p) (roots_joined job.now p (t + 1))) }
{
    let Some(mode) = root_mode(job, t, p) else {
        return Ok(());
    };
    let Some(number) = core.next_number() else {
        unreachable!()
    };
    let refusal = match core.register(0, number, mode) {
        Ok(()) => return Ok(()),
        Err(refusal) => refusal,
    };
    match refusal {
        RegisterRefusal::OutOfMemory => Err(AllocError),
        _ => unreachable!(),
    }
}

/// Makes phaser number `p`, whose founder registers the tasks that begin there and leaves.
fn opened_core(alloc: Global, job: &Job, p: usize) -> Result<AnyPhaser, AllocError>
    requires { p < length job.now.graph.phasers }
    ensures { IfOk result (λ core. PhaserStandsFor core (phaser_at job.now.graph p).op
        (limits_at job.now p) ((opening job.now).history p)) }
{
    let line = job.graph().phaser(p);
    let Ok(spec) = Spec::new(line.bound, PHASES_MAX) else {
        unreachable!()
    };
    let mut core = AnyPhaser::new(alloc, line.op, spec)?;
    for t in 0..job.graph().tasks() {
        join_root(&mut core, job, p, t)?;
    }
    let Ok(()) = core.drop_task(0) else {
        unreachable!()
    };
    Ok(core)
}

/// Makes the phasers, in the order of their lines.
pub fn opened_cores(alloc: Global, job: &Job) -> Result<Vec<AnyPhaser>, AllocError>
    ensures many { IfOk result (λ cores. length cores.items ≡ length job.now.graph.phasers) }
    ensures cores { IfOk result (λ cores. (p : ℕ) (core : AnyPhaser)
        → slice_get cores.items p ≡ Some core
        → PhaserStandsFor core (phaser_at job.now.graph p).op
        (limits_at job.now p) ((opening job.now).history p)) }
{
    let mut cores = Vec::with_capacity(alloc, job.graph().phasers())?;
    for p in 0..job.graph().phasers() {
        cores.push(opened_core(alloc, job, p)?)?;
    }
    Ok(cores)
}
