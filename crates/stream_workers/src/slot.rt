//! A task of a graph in a pool of workers.
ghost use Rattle.std.specs.Prelude.{◌≡◌, IfOk, IfSome};
ghost use Rattle.stream_tasks.specs.TaskLefts.{IsTaskLeft};

use crate::watch::Watch;
use std::alloc::AllocError;
use std::mem;
use std::sync::Wait;
use stream_lists::Stand;
use stream_tasks::{Run, Task, TaskLeft, Unregistered};
use worker_pool::{Fault, Progress, Work};

/// A task of a graph, or its place before it is registered.
///
/// **End.** It cannot be thrown away. `dismiss` and `end` end it.
pub enum TaskSlot<'a, J: Run> {
    /// A task that was registered.
    Task(Task<'a, J>),
    /// A child that its parent has not registered.
    Unregistered(Unregistered<'a, J>),
    /// One that was taken out.
    Empty,
}

impl<'a, J: Run> TaskSlot<'a, J> {
    /// Returns whether it is a task that was registered.
    pub fn is_task(&self) -> bool {
        matches!(self, TaskSlot::Task(_))
    }

    // Takes what is in it.
    fn take(&mut self) -> TaskSlot<'a, J>
        ensures taken { result ≡ self.old }
        ensures empty { self.new ≡ TaskSlot.Empty }
    {
        mem::replace(self, TaskSlot::Empty)
    }

    // Makes the task of a child that its parent has registered.
    fn become_child(&mut self, parent: &mut Task<'a, J>) -> bool {
        let (place, is_child) = match self.take() {
            TaskSlot::Unregistered(child) => match parent.deliver(child) {
                Ok(task) => (TaskSlot::Task(task), true),
                Err(child) => (TaskSlot::Unregistered(child), false),
            },
            other => (other, false),
        };
        match mem::replace(self, place) {
            TaskSlot::Empty => is_child,
            _ => unreachable!(),
        }
    }

    /// Leaves all phasers, by waiting, and forgets all.
    pub fn dismiss<W: Wait>(self, rt: &W) {
        match self {
            TaskSlot::Task(task) => task.dismiss(rt),
            TaskSlot::Unregistered(child) => child.dismiss(rt),
            TaskSlot::Empty => {}
        }
    }

    /// Puts where its task stands behind these. It takes memory for them.
    pub fn stand(&self, stands: &mut Vec<Stand>) -> Result<(), AllocError> {
        match self {
            TaskSlot::Task(task) => task.stand(stands),
            _ => Ok(()),
        }
    }

    /// Returns what the task leaves behind, or nothing where it never came. `Err` tells that it has
    /// not left all its phasers; then it leaves them, by waiting.
    pub fn end<W: Wait>(self, rt: &W) -> Result<Option<TaskLeft<'a>>, Fault>
        ensures { IfOk result (λ end. IfSome end (IsTaskLeft J.job J.spots)) }
    {
        match self {
            TaskSlot::Task(task) => match task.end(rt) {
                Ok(left) => Ok(Some(left)),
                Err(task) => {
                    task.dismiss(rt);
                    Err(Fault::Stalled)
                }
            },
            TaskSlot::Unregistered(child) => {
                child.dismiss(rt);
                Ok(None)
            }
            TaskSlot::Empty => Ok(None),
        }
    }
}

/// A task of a graph in a pool of workers, with the gate that it calls.
///
/// **End.** It cannot be thrown away, since its task cannot.
pub struct Slot<'a, J: Run, G: Watch> {
    pub place: TaskSlot<'a, J>,
    pub gate: &'a G,
}

// How far a task came, for the workers.
fn progress_of(went: stream_tasks::Went) -> Progress {
    match went {
        stream_tasks::Went::Moved(phaser) => Progress::Moved(phaser),
        stream_tasks::Went::Ready => Progress::Ready,
        stream_tasks::Went::Blocked(phaser) => Progress::Blocked(phaser),
        stream_tasks::Went::Busy => Progress::Busy,
        stream_tasks::Went::Registered(child) => Progress::Child(child),
        stream_tasks::Went::Gone => Progress::Gone,
        stream_tasks::Went::TooBig => Progress::Failed(Fault::TooBig),
        stream_tasks::Went::OutOfMemory => Progress::Failed(Fault::OutOfMemory),
        stream_tasks::Went::Stuck => Progress::Failed(Fault::Stalled),
    }
}

impl<'a, J: Run, G: Watch> Work for Slot<'a, J, G> {
    fn phasers(&self) -> u64 {
        match &self.place {
            TaskSlot::Task(task) => task.phasers(),
            _ => 0,
        }
    }

    fn turn(&mut self) -> Progress {
        let gate = self.gate;
        match &mut self.place {
            TaskSlot::Task(task) => {
                let began = gate.begins();
                let went = task.turn(gate);
                gate.ends(task.number(), began, went);
                progress_of(went)
            }
            _ => Progress::Failed(Fault::Stalled),
        }
    }

    fn effort(&self) -> u64 {
        match &self.place {
            TaskSlot::Task(task) => task.effort(),
            _ => 0,
        }
    }

    fn bring(&mut self, child: &mut Slot<'a, J, G>) -> bool {
        match &mut self.place {
            TaskSlot::Task(task) => child.place.become_child(task),
            _ => false,
        }
    }
}
