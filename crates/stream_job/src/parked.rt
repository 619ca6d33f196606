//! The tasks that were blocked on each phaser.
ghost use Rattle.std.specs.Prelude.{◌≡◌, ◌<◌, ◌==◌, ◌⊎◌, [], length, get_or, set, ℕ, IfOk, true, false};
ghost use Rattle.std.specs.List.{All, list_any};
ghost use Rattle.stream_job.specs.Parking.{StandsIn, with_task};
ghost use Rattle.stream_job.specs.Tellings.{IsOnPhaser, parked_with};

use crate::made::Made;
use crate::task_list::{TaskList, no_marks};
use graph_lang::TASKS_MAX;
use std::alloc::{AllocError, Global};
use std::marker::Model;

/// For each phaser a list of the tasks that were blocked there since its last event.
#[derive(Drop)]
pub struct Parked {
    lists: Vec<TaskList>,
}

impl Model for Parked {
    ghost use Rattle.std.specs.Prelude.{List, ℕ};

    ghost Value = { List (List ℕ) };

    ghost view = { λ p. p.lists.items };
}

impl Parked {
    /// Makes an empty list for each phaser, with room for all tasks of a graph.
    pub fn new(alloc: Global, phasers: usize) -> Result<Parked, AllocError>
        ensures many { IfOk result (λ parked. length parked ≡ phasers) }
        ensures empty { IfOk result (λ parked. (p : ℕ) → get_or parked p [] ≡ []) }
    {
        let mut lists = Vec::with_capacity(alloc, phasers)?;
        for _ in 0..phasers {
            lists.push(TaskList::new(alloc))?;
        }
        Ok(Parked { lists })
    }

    /// The tasks in the list of a phaser.
    pub fn on(&self, phaser: usize) -> &[usize]
        requires { phaser < length self.now }
        ensures { result.now ≡ get_or self.now phaser [] }
    {
        self.lists[phaser].as_slice()
    }

    /// Marks the tasks that stand in a list.
    pub fn marks(&self) -> [bool; TASKS_MAX]
        ensures { (t : ℕ) → get_or result t false ≡ true → StandsIn self.now t }
    {
        let mut marks = no_marks();
        for list in &self.lists {
            mark(&mut marks, list.as_slice());
        }
        marks
    }

    /// Keeps what the call of a task did.
    pub fn note(&mut self, made: Made, task: usize)
        requires { IsOnPhaser made task (length self.old) }
        ensures { self.new ≡ parked_with made task self.old }
    {
        match made {
            Made::Event { phaser, .. } => self.free(phaser),
            Made::Blocked { phaser } => self.park(phaser, task),
            Made::OutOfRange { .. } => (),
            Made::Nothing => (),
        }
    }

    /// Puts a task behind the list of a phaser, where it does not stand there.
    pub fn park(&mut self, phaser: usize, task: usize)
        requires phaser { phaser < length self.old }
        requires task { task < TASKS_MAX }
        ensures { self.new ≡ set self.old phaser (with_task task (get_or self.old phaser [])) }
    {
        self.lists[phaser].add(task);
    }

    /// Empties the list of a phaser.
    pub fn free(&mut self, phaser: usize)
        requires { phaser < length self.old }
        ensures { self.new ≡ set self.old phaser [] }
    {
        self.lists[phaser].clear();
    }
}

/// Marks these tasks.
fn mark(marks: &mut [bool; TASKS_MAX], tasks: &[usize])
    requires { All (λ t. t < TASKS_MAX) tasks.now }
    ensures { (t : ℕ) → get_or marks.new t false ≡ true
        → (get_or marks.old t false ≡ true) ⊎ (list_any (λ u. u == t) tasks.now ≡ true) }
{
    for task in tasks {
        marks[*task] = true;
    }
}
