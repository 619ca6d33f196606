//! How many steps a task makes in one event, and the places for them.
ghost use Rattle.std.specs.Prelude.{◌≡◌, ◌≢◌, ◌<◌, ◌≤◌, length, true, IfOk};
ghost use Rattle.graph_runs.specs.Places.{MayMake, IsMost};
ghost use Rattle.graph_runs.specs.Answers.{output_at};
ghost use Rattle.graph_base.specs.Graphs.{task_at, phaser_at};
ghost use Rattle.graph_base.specs.declared.line.Kind.TheVariants as kind;
ghost use Rattle.stream_tasks.specs.Deals.{HasOneOp};
ghost use Rattle.stream_tasks.specs.Tasks.{IsWhole, SignalsBlocks, sends_room};
ghost use Rattle.graph_runs.specs.NextBlocks.{until_allows};
ghost use Rattle.stream_tasks.specs.Children.{ChildrenAllow, MayStep};

use crate::child::Child;
use crate::deal::outputs_of;
use crate::gate::Gate;
use crate::keep::every_of;
use crate::opening::founders::registration_of;
use crate::task_state::TaskState;
use graph_base::Kind;
use graph_runs::{input_of, kind_of, output_of, until_of};
use phase_base::Op;
use std::alloc::{AllocError, Global};
use stream_lists::Job;
use stream_members::Places;

/// How many steps a task makes in one event of its own accord, at most.
const OWN_STEPS: u64 = 1024;
/// Up to which bound a task makes as many steps at once as the bound allows. Above it they are half
/// as many, so that the task at the other end of the phaser has the other half meanwhile.
const SMALL_BOUND: u64 = 64;

/// How many steps task number `task` makes in one event of its own accord, at most, or puts by one
/// where it is a joiner: one, or more where its kind has blocks, and no more than the bound of each
/// of its phasers; but a decimator may make more than its output's bound, as it keeps few of them.
pub fn own_steps(job: &Job, task: usize) -> u64
    requires task { task < length job.now.graph.tasks }
    ensures some { 1 ≤ result }
    ensures most { (task_at job.now.graph task).kind ≢ kind.Split
        → (task_at job.now.graph task).kind ≢ kind.Decimate
        → (task_at job.now.graph task).kind ≢ kind.Join → IsMost job.now task result }
    ensures one_op { (task_at job.now.graph task).kind ≡ kind.Split → 2 ≤ result
        → HasOneOp job.now task }
{
    match kind_of(job, task) {
        Kind::Source | Kind::Fir | Kind::Join | Kind::Sink => {
            steps_within(least_bound(job, task))
        }
        Kind::Split => split_steps(job, task),
        Kind::Decimate => decimate_steps(job, task),
        Kind::Peer => 1,
    }
}

/// The same of a splitter: one where its outputs have several operations, since its places for
/// sends are for one.
fn split_steps(job: &Job, task: usize) -> u64
    requires task { task < length job.now.graph.tasks }
    requires kind { (task_at job.now.graph task).kind ≡ kind.Split }
    ensures some { 1 ≤ result }
    ensures one_op { 2 ≤ result → HasOneOp job.now task }
{
    if !has_one_op(job, task) {
        return 1;
    }
    steps_within(least_bound(job, task))
}

/// The same of a decimator: of as many steps as its input's bound allows, and its output's bound
/// allows to put what it keeps of them.
fn decimate_steps(job: &Job, task: usize) -> u64
    requires task { task < length job.now.graph.tasks }
    requires kind { (task_at job.now.graph task).kind ≡ kind.Decimate }
    ensures some { 1 ≤ result }
{
    let _lines = job.graph().tasks();
    let (_, phaser) = output_of(job, task, 0);
    let kept = job.graph().phaser(phaser).bound;
    let bound = job.graph().phaser(input_of(job, task, 0)).bound;
    steps_within(bound.min(kept.saturating_mul(every_of(job, task))).max(1))
}

/// Whether the phasers of the outputs of task number `task`, a splitter, have one operation.
fn has_one_op(job: &Job, task: usize) -> bool
    requires task { task < length job.now.graph.tasks }
    requires kind { (task_at job.now.graph task).kind ≡ kind.Split }
    ensures { result ≡ true → HasOneOp job.now task }
{
    let outputs = outputs_of(job, task);
    let first = output_op(job, task, 0);
    for j in 0..outputs {
        if output_op(job, task, j) != first {
            return false;
        }
    }
    true
}

/// The operation of output `j` of task number `task`, a splitter.
fn output_op(job: &Job, task: usize, j: usize) -> Op
    requires task { task < length job.now.graph.tasks }
    requires kind { (task_at job.now.graph task).kind ≡ kind.Split }
    requires output { j < length (task_at job.now.graph task).outputs }
    ensures { result ≡ (phaser_at job.now.graph (output_at job.now task j)).op }
{
    let _lines = job.graph().tasks();
    let (_, phaser) = output_of(job, task, j);
    job.graph().phaser(phaser).op
}

/// For how many values task number `task` has a place to deal them, where it makes so many steps in
/// one event: none, where it is no splitter.
pub fn dealt_most(job: &Job, task: usize, most: usize) -> usize
    requires task { task < length job.now.graph.tasks }
    ensures { (task_at job.now.graph task).kind ≡ kind.Split → result ≡ most }
{
    if kind_of(job, task) == Kind::Split {
        return most;
    }
    0
}

/// How many steps a task makes at once on phasers of this bound.
fn steps_within(bound: u64) -> u64
    requires { 1 ≤ bound }
    ensures { 1 ≤ result }
{
    bound.min(SMALL_BOUND).max(bound / 2).min(OWN_STEPS)
}

/// The least bound of the phasers of task number `task`.
fn least_bound(job: &Job, task: usize) -> u64
    requires task { task < length job.now.graph.tasks }
    ensures { 1 ≤ result }
{
    let mut least = u64::MAX;
    for k in 0..job.graph().registrations(task) {
        let phaser = registration_of(job, task, k).phaser;
        least = least.min(job.graph().phaser(phaser).bound);
    }
    least.max(1)
}

/// Makes the places for the sends of so many phases on the outputs of task number `task`, where its
/// kind signals blocks. It takes memory for them.
pub fn places_for(alloc: Global, job: &Job, task: usize, most: usize) -> Result<Places, AllocError>
    requires task { task < length job.now.graph.tasks }
    ensures sends { IfOk result (λ places. SignalsBlocks job.now task
        → sends_room job.now task places ≡ most) }
    ensures shares { IfOk result (λ places. (task_at job.now.graph task).kind ≡ kind.Split
        → sends_room job.now task places ≡ most) }
{
    let _lines = job.graph().tasks();
    match kind_of(job, task) {
        Kind::Source | Kind::Fir | Kind::Split | Kind::Decimate | Kind::Join => {
            let (_, phaser) = output_of(job, task, 0);
            Places::new(alloc, job.graph().phaser(phaser).op, most)
        }
        Kind::Peer | Kind::Sink => Places::new(alloc, Op::Sum, 0),
    }
}

impl<'a> TaskState<'a> {
    /// How many steps its next event makes, at most: none past `until`, and none past the boundary
    /// of a child that comes later.
    pub fn steps<G: Gate>(&self, job: &Job, gate: &G) -> u64
        requires { MayStep job.now self.now }
        ensures may { MayMake job.now self.now.number self.now.begun result }
        ensures some { 1 ≤ result }
        ensures few { result ≤ self.now.most }
    {
        let steps = until_allows(
            until_of(job, self.number),
            self.begun,
            self.wanted(job, gate),
        );
        children_allow(&self.children, self.begun, steps)
    }

    /// How many steps it would make, if only `until` and its children allow them: a block of its
    /// line; or, of a line that names none, as many as there is room for on its outputs, where
    /// nobody looks at steps.
    fn wanted<G: Gate>(&self, job: &Job, gate: &G) -> u64
        requires { IsWhole job.now self.now }
        ensures some { 1 ≤ result }
        ensures few { result ≤ self.now.most }
    {
        let block = job.graph().task(self.number).block;
        if block > 1 || !gate.is_open() {
            return block;
        }
        match kind_of(job, self.number) {
            Kind::Source | Kind::Fir => {
                let (k, _) = output_of(job, self.number, 0);
                self.holds[k].room().clamp(1, self.own)
            }
            Kind::Split => self.dealt_steps(job),
            Kind::Decimate => self.kept_steps(job),
            Kind::Join | Kind::Peer | Kind::Sink => self.own,
        }
    }
}

/// So many steps, of which `until` allows some after those that were begun.
pub fn until_allows(until: Option<u64>, begun: u64, steps: u64) -> u64
    ensures { result ≡ until_allows until begun steps }
{
    match until {
        None => steps,
        Some(until) => steps.min(until.saturating_sub(begun)),
    }
}

/// So many steps, but none past the boundary of a child that comes later.
fn children_allow(children: &[Child], begun: u64, steps: u64) -> u64
    ensures some { 1 ≤ steps → 1 ≤ result }
    ensures few { result ≤ steps }
    ensures children { ChildrenAllow children.now begun result }
{
    let mut allowed = steps;
    for child in children {
        if child.at > begun {
            allowed = allowed.min(child.at - begun);
        }
    }
    allowed
}
