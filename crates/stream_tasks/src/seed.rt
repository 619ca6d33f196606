//! Tasks before they are registered.
ghost use Rattle.std.specs.Prelude.{◌≡◌, ◌+◌, ◌<◌, ℕ, length, IfOk};
ghost use Rattle.stream_members.specs.Members.{Spot};
ghost use Rattle.stream_tasks.specs.Openings.{IsRootMember};
ghost use Rattle.stream_tasks.specs.Seeds.{seed_state, IsSeed, HasRegistrationRoom, HasReceivedFirst, AreChildrenBelow};
ghost use Rattle.stream_tasks.specs.Children.{TellsChild};
ghost use Rattle.stream_lists.specs.Jobs.{Job as JobValue};

use crate::blocks::{dealt_most, own_steps, places_for};
use crate::child::Child;
use crate::deal::Deal;
use crate::hold::Hold;
use crate::task_state::TaskState;
use graph_runs::{Owed, first_filter, parent_of};
use phase_accum::Outcome;
use smallvec::SmallVec;
use std::alloc::{AllocError, Global};
use std::sync::Wait;
use stream_lists::Job;
use stream_members::AnyMember;

/// A task before it is registered on all phasers of its line, with all the memory that it will
/// need, but for what a sink takes.
///
/// **End.** It cannot be thrown away. `Task::root` and `dismiss` end it.
pub struct Seed<'a> {
    pub(crate) state: TaskState<'a>,
}

impl<'a> Seed<'a> {
    /// Makes that of task number `task`, which is registered nowhere.
    ///
    /// It takes memory for its registrations and for those of a child, for its children, for the
    /// values of a block, and for the taps and the window of a filter.
    pub fn new(alloc: Global, job: &'a Job, task: usize) -> Result<Seed<'a>, AllocError>
        requires task { task < length job.now.graph.tasks }
        ensures number { IfOk result (λ seed. (seed_state seed).number ≡ task) }
        ensures seed { IfOk result (λ seed. IsSeed job.now (seed_state seed)) }
        ensures room { IfOk result (λ seed. HasRegistrationRoom 9 (seed_state seed)) }
        ensures many { IfOk result (λ seed. length (seed_state seed).holds.items ≡ 0) }
        ensures received { IfOk result (λ seed. (job : JobValue) (spots : ℕ → Spot)
            → HasReceivedFirst job spots (seed_state seed)) }
    {
        let own = own_steps(job, task);
        let Ok(most) = usize::try_from(own.max(job.graph().task(task).block)) else {
            return Err(AllocError);
        };
        let outcomes = vec![in alloc; Outcome::Empty; most]?;
        let made = Vec::with_capacity(alloc, most)?;
        let deal = Deal::new(alloc, dealt_most(job, task, most))?;
        let places = places_for(alloc, job, task, most)?;
        let filter = first_filter(alloc, job, task)?;
        let children = children_of(alloc, job, task)?;
        let lefts = Vec::with_capacity(alloc, 9)?;
        let holds = Vec::with_capacity(alloc, 9)?;
        let Ok(child_holds) = Vec::with_capacity(alloc, 9) else {
            holds.destroy_empty();
            return Err(AllocError);
        };
        Ok(Seed {
            state: TaskState {
                number: task,
                samples: job.samples_of(task),
                most,
                own,
                begun: 0,
                start: 0,
                owed: Owed::Nothing,
                made,
                deal,
                filter,
                lines: Vec::new(alloc),
                numbers: SmallVec::new(alloc),
                holds,
                outcomes,
                places,
                lefts,
                over: false,
                entered: false,
                telling: 0,
                met: false,
                children,
                child_holds,
            },
        })
    }

    /// Its number.
    pub fn number(&self) -> usize
        ensures { result ≡ (seed_state self.now).number }
    {
        self.state.number
    }

    /// Has been registered on the next of its phasers. It takes no memory.
    pub fn receive(&mut self, member: AnyMember<'a>)
        requires room { HasRegistrationRoom (length (seed_state self.old).holds.items + 1)
            (seed_state self.old) }
        requires long { length (seed_state self.old).numbers.items
            ≡ length (seed_state self.old).holds.items }
        ensures seed { (job : JobValue) → IsSeed job (seed_state self.old)
            → IsSeed job (seed_state self.new) }
        ensures received { (job : JobValue) (spots : ℕ → Spot)
            → HasReceivedFirst job spots (seed_state self.old)
            → IsRootMember job spots (seed_state self.old).number
            (length (seed_state self.old).holds.items) member.entry
            → HasReceivedFirst job spots (seed_state self.new) }
        ensures room { (n : ℕ) → HasRegistrationRoom n (seed_state self.old)
            → HasRegistrationRoom n (seed_state self.new) }
        ensures many { length (seed_state self.new).holds.items
            ≡ length (seed_state self.old).holds.items + 1 }
        ensures number { (seed_state self.new).number ≡ (seed_state self.old).number }
    {
        self.state.numbers.push_reserved(member.number());
        self.state.holds.push_reserved(Hold::On(member));
    }

    /// Leaves the phasers that it was registered on, by waiting.
    pub fn dismiss<W: Wait>(self, rt: &W) {
        let Seed { state } = self;
        state.dismiss(rt);
    }

    /// What is in it.
    pub(crate) fn open(self) -> TaskState<'a>
        ensures { result ≡ seed_state self.entry }
    {
        let Seed { state } = self;
        state
    }
}

/// After how many steps of task number `task` its child number `c` comes, where it is its child.
fn child_of(job: &Job, task: usize, c: usize) -> Option<u64>
    requires { c < length job.now.graph.tasks }
    ensures { TellsChild job.now task c result }
{
    let parent = parent_of(job, c)?;
    (parent.task == task).then_some(parent.at)
}

/// The children of a task, none of whose registrations is made.
fn children_of(alloc: Global, job: &Job, task: usize) -> Result<Vec<Child>, AllocError>
    ensures { IfOk result (λ children. AreChildrenBelow job.now task
        (length job.now.graph.tasks) children.items) }
{
    let mut children = Vec::new(alloc);
    for c in 0..job.graph().tasks() {
        if let Some(at) = child_of(job, task, c) {
            children.push(Child {
                task: c,
                at,
                numbers: SmallVec::new(alloc),
                start: 0,
            })?;
        }
    }
    Ok(children)
}
