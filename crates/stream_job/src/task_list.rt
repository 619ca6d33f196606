//! Lists of tasks.
ghost use Rattle.std.specs.Prelude.{◌≡◌, ◌<◌, ℕ, [], get_or, length, false};
ghost use Rattle.std.specs.List.{All};
ghost use Rattle.stream_job.specs.Parking.{with_task};

use graph_lang::TASKS_MAX;
use smallvec::SmallVec;
use std::alloc::Global;
use std::marker::Model;

/// Tasks of a graph in the order in which they came, each once.
#[derive(Drop)]
pub struct TaskList {
    tasks: SmallVec<usize, TASKS_MAX>,
    // of each task, whether it stands in the list
    stands: [bool; TASKS_MAX],
}

impl Model for TaskList {
    ghost use Rattle.std.specs.Prelude.{List, ℕ};
    ghost use Rattle.stream_job.specs.TaskLists.{IsTaskList};

    ghost Value = { List ℕ };

    ghost view = { λ l. l.tasks.items };

    ghost invariant = { λ l. IsTaskList l.tasks l.stands };
}

impl TaskList {
    /// Makes an empty list, with room for all tasks of a graph. It takes no memory.
    pub fn new(alloc: Global) -> TaskList
        ensures { result ≡ [] }
    {
        TaskList {
            tasks: SmallVec::new(alloc),
            stands: no_marks(),
        }
    }

    /// The tasks, in their order.
    pub fn as_slice(&self) -> &[usize]
        ensures tasks { result.now ≡ self.now }
        ensures below { All (λ t. t < TASKS_MAX) result.now }
    {
        self.tasks.as_slice()
    }

    /// Puts a task behind the others, where it does not stand there.
    pub fn add(&mut self, task: usize)
        requires { task < TASKS_MAX }
        ensures { self.new ≡ with_task task self.old }
    {
        if !self.stands[task] {
            self.stands[task] = true;
            self.tasks.push_reserved(task);
        }
    }

    /// Takes all tasks out.
    pub fn clear(&mut self)
        ensures { self.new ≡ [] }
    {
        self.tasks.clear();
        self.stands = no_marks();
    }
}

/// For each task of a graph a mark, none of them made.
pub fn no_marks() -> [bool; TASKS_MAX]
    ensures none { (t : ℕ) → get_or result t false ≡ false }
    ensures many { length result ≡ TASKS_MAX }
{
    [false; TASKS_MAX]
}
