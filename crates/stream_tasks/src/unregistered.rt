//! Tasks of a run before they are registered.
ghost use Rattle.std.specs.Prelude.{◌≡◌, ◌<◌, length, IfOk};
ghost use Rattle.stream_tasks.specs.Seeds.{IsReadySeed};

use crate::run::Run;
use crate::seed::Seed;
use crate::task_state::TaskState;
use std::alloc::{AllocError, Global};
use std::marker::{Model, PhantomData};
use std::sync::Wait;
use stream_lists::Job;

/// A task of a run before its parent has registered it, with all the memory that it will need, but
/// for what a sink takes. In contracts it is its number.
///
/// **End.** It cannot be thrown away. `Task::deliver` and `dismiss` end it.
pub struct Unregistered<'a, J: Run> {
    seed: Seed<'a>,
    of: PhantomData<J>,
}

impl<'a, J: Run> Model for Unregistered<'a, J> {
    ghost use Rattle.std.specs.Prelude.{ℕ};
    ghost use Rattle.stream_tasks.specs.Seeds.{seed_state, IsReadySeed};

    ghost Value = { ℕ };

    ghost view = { λ u. (seed_state u.seed).number };

    ghost invariant = { λ u. IsReadySeed J.job J.spots 0 (seed_state u.seed) };
}

impl<'a, J: Run> Unregistered<'a, J> {
    /// Makes that of task number `task`.
    ///
    /// It takes memory for its registrations and for those of a child, for its children, for the
    /// values of a block, and for the taps and the window of a filter.
    pub fn new(alloc: Global, job: &'a Job, task: usize) -> Result<Unregistered<'a, J>, AllocError>
        requires job { job.now ≡ J.job }
        requires task { task < length job.now.graph.tasks }
        ensures { IfOk result (λ unregistered. unregistered ≡ task) }
    {
        let seed = Seed::new(alloc, job, task)?;
        Ok(Unregistered {
            seed,
            of: PhantomData,
        })
    }

    /// Its number.
    pub fn number(&self) -> usize
        ensures { result ≡ self.now }
    {
        self.seed.number()
    }

    /// Ends it. It is registered nowhere.
    pub fn dismiss<W: Wait>(self, rt: &W) {
        let Unregistered { seed, of: _ } = self;
        seed.dismiss(rt);
    }

    /// What is in it.
    pub(crate) fn open(self) -> TaskState<'a>
        ensures number { result.number ≡ self.entry }
        ensures ready { IsReadySeed J.job J.spots 0 result }
    {
        let Unregistered { seed, of: _ } = self;
        seed.open()
    }
}
