//! A child whose registrations are all made goes on as a task of its own.
ghost use Rattle.std.specs.Prelude.{◌≡◌, ◌+◌, ◌<◌, ◌≤◌, length, slice_get, Some, true, false};
ghost use Rattle.stream_tasks.specs.Tasks.{IsWhole};
ghost use Rattle.stream_tasks.specs.Deliveries.{IsRegisteredChild, HasDelivered};
ghost use Rattle.stream_tasks.specs.declared.child.Child.{Child as ChildValue};

use crate::task_state::TaskState;
use std::mem;
use stream_lists::Job;

impl<'a> TaskState<'a> {
    /// Whether the child at place `i` among its children is task number `task`, and has all its
    /// registrations. Of a task that met what ends all it is said of none.
    pub fn is_registered(&self, job: &Job, i: usize, task: usize) -> bool
        requires { IsWhole job.now self.now }
        ensures met { result ≡ true → self.now.met ≡ false }
        ensures registered { result ≡ true → IsRegisteredChild job.now self.now i task }
    {
        let Some(child) = self.children.get(i) else {
            return false;
        };
        if self.met || child.task != task {
            return false;
        }
        child.numbers.len() >= job.graph().registrations(child.task)
    }

    /// Hands over what it holds for the child at place `i`, whose seed goes on with it.
    pub fn deliver(&mut self, i: usize, seed: TaskState<'a>) -> TaskState<'a>
        requires place { i < length self.old.children.items }
        requires room { (kid : ChildValue) → slice_get self.old.children.items i ≡ Some kid
            → length seed.numbers.items + length kid.numbers.items ≤ seed.numbers.capacity }
        ensures { HasDelivered i seed.entry self.old self.new result }
    {
        let mut child = seed;
        let numbers = self.children[i].numbers.as_slice();
        if child.numbers.extend_from_slice(numbers).is_err() {
            unreachable!()
        }
        child.start = self.children[i].start;
        mem::swap(&mut self.child_holds, &mut child.holds);
        child
    }
}
