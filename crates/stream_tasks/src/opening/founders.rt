//! The founders of all phasers of a graph, who register the tasks without a parent and leave.
ghost use Rattle.std.specs.Prelude.{◌≡◌, ◌<◌, ℕ, length, slice_get, Some, IfOk};
ghost use Rattle.graph_base.specs.Registrations.{registrations_of};
ghost use Rattle.graph_base.specs.Graphs.{task_at};
ghost use Rattle.stream_members.specs.Members.{Spot};
ghost use Rattle.graph_runs.specs.TaskPlaces.{registration_at};
ghost use Rattle.stream_lists.specs.Jobs.{Job as JobValue};
ghost use Rattle.stream_tasks.specs.Openings.{ArePhasers, AreFoundersFrom, AreFounders, HaveFoundersLeft, spot_at, IsRootMember};

use crate::opening::founder::{Founder, FounderLeft};
use crate::opening::phasers::dismiss;
use graph_base::Registration;
use graph_base::laws::registrations;
use phase_core::RegisterRefusal;
use std::alloc::{AllocError, Global};
use std::sync::Wait;
use stream_lists::Job;
use stream_members::{AnyMember, AnyPhaser, AnyReg};

/// Makes the founders of these phasers members. Where memory is wanting they leave, by waiting.
pub fn found<'a, W: Wait>(
    rt: &W,
    alloc: Global,
    phasers: &'a [AnyPhaser],
    regs: Vec<AnyReg>,
) -> Result<Vec<Founder<'a>>, AllocError>
    requires founders { AreFoundersFrom 0 phasers.now regs.items }
    ensures { IfOk result (λ founders. (job : JobValue) → ArePhasers job phasers.now
        → AreFounders job (spot_at phasers.now) founders.items) }
{
    let Ok(mut founders) = Vec::with_capacity(alloc, phasers.len()) else {
        dismiss(rt, phasers, regs);
        return Err(AllocError);
    };
    let mut regs = regs.into_iter();
    for p in 0..phasers.len() {
        let Some(reg) = regs.next() else {
            unreachable!()
        };
        founders.push_reserved(Founder::of(&phasers[p], reg, Vec::new(alloc)));
    }
    regs.destroy_empty();
    Ok(founders)
}

/// Registration `i` of task number `t`, which is on a phaser of the graph.
pub fn registration_of(job: &Job, t: usize, i: usize) -> Registration
    requires task { t < length job.now.graph.tasks }
    requires number { i < length (registrations_of job.now.graph (task_at job.now.graph t)) }
    ensures registration { result ≡ registration_at job.now t i }
    ensures phaser { result.phaser < length job.now.graph.phasers }
{
    let _few = job.graph().tasks();
    registrations();
    job.graph().registration(t, i)
}

/// The founder of its phaser makes registration `i` of task number `t`. It takes memory, and waits
/// for its turn.
pub fn register_root<'a, W: Wait>(
    rt: &W,
    founders: &mut [Founder<'a>],
    job: &Job,
    t: usize,
    i: usize,
) -> Result<AnyMember<'a>, RegisterRefusal>
    requires task { t < length job.now.graph.tasks }
    requires number { i < length (registrations_of job.now.graph (task_at job.now.graph t)) }
    requires many { length founders.old ≡ length job.now.graph.phasers }
    ensures root { IfOk result (λ member. (spots : ℕ → Spot)
        → AreFounders job.now spots founders.old → IsRootMember job.now spots t i member) }
    ensures founders { (spots : ℕ → Spot) → AreFounders job.now spots founders.old
        → AreFounders job.now spots founders.new }
    ensures many { length founders.new ≡ length founders.old }
{
    let registration = registration_of(job, t, i);
    founders[registration.phaser].register(rt, registration.mode)
}

/// The founders leave, and forget what they have seen: after a fault. It waits for their turns.
pub fn dismiss_founders<W: Wait>(rt: &W, founders: Vec<Founder<'_>>) {
    let mut founders = founders.into_iter();
    while let Some(founder) = founders.next() {
        let _left = founder.leave(rt);
    }
    founders.destroy_empty();
}

/// The founders leave, in the order of their phasers. Where memory is wanting they leave all the
/// same. It waits for their turns.
pub fn leave_all<'a, W: Wait>(
    rt: &W,
    alloc: Global,
    founders: Vec<Founder<'a>>,
) -> Result<Vec<FounderLeft<'a>>, AllocError>
    ensures { IfOk result (λ lefts. (job : JobValue) (spots : ℕ → Spot)
        → AreFounders job spots founders.entry.items → HaveFoundersLeft job spots lefts.items) }
{
    let Ok(mut lefts) = Vec::with_capacity(alloc, founders.len()) else {
        dismiss_founders(rt, founders);
        return Err(AllocError);
    };
    let mut founders = founders.into_iter();
    while let Some(founder) = founders.next() {
        lefts.push_reserved(founder.leave(rt));
    }
    founders.destroy_empty();
    Ok(lefts)
}
