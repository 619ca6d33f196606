//! The phaser itself, for one thread: what it keeps, how it is made, and its readers.
ghost use Rattle.std.specs.Prelude.{◌≡◌, ℕ, [], ◌∷◌, Some, is_some, IfOk};
ghost use Rattle.phase_base.specs.Members.{entry_of, signal_phases, wait_phases, least};
ghost use Rattle.phase_history.specs.declared.event.Event.TheVariants.{Made};
ghost use Rattle.phase_history.specs.Histories.{History, done_of, top_of};
ghost use Rattle.phase_registry.specs.Rosters.{next_after};
ghost use Rattle.phase_core.specs.Cores.{StandsFor};

use phase_accum::Accumulate;
use phase_base::{Entry, Mode, Spec};
use phase_registry::Registry;
use phase_ring::Store;
use std::alloc::{AllocError, Global};
use std::marker::Model;

/// A phaser, for one thread.
///
/// **Registration.** The task that makes a phaser is its founder. It is registered in `Single`, at
/// phase 0. A registered task registers others at its own phases, in a mode that its own mode
/// holds, and each task may drop its registration, with the sends that it holds.
///
/// **Signalling.** A signal joins the task's signal phase with the sends that the task held, and
/// takes the task to the next phase. A task in `Single` may name a single, which is applied once to
/// the value of the phase. A phase is complete when each signaller has signalled it, and never
/// changes then.
///
/// **Waiting.** A wait answers the task's wait phase with its value where that phase is complete,
/// and takes the task to the next phase, so that a task gets each phase once and in order. It never
/// blocks: where the phase is not complete it is refused. A task that signals and waits does so in
/// turn, and signals first.
///
/// **Ending.** Where no signaller is registered, a task that has got every phase is answered
/// `Ended`.
///
/// **Who is missing.** `standing` counts who is registered and who has signalled the first phase
/// that is not complete, `missing` names those that have not, and `slowest` those for whom the
/// signallers wait.
///
/// **Limits.** While a waiter is registered, the signallers may be as many phases ahead of the
/// slowest one as the bound says, and a phase has at most `SENDS_MAX` sends. A phaser has at most
/// as many phases as it was made for, and `MEMBERS_MAX` members at once. A refused call changes
/// nothing. `RegisterRefusal`, `SignalRefusal` and `WaitRefusal` have the refusals in the order in
/// which they are checked.
///
/// **Memory.** A phaser keeps a slot for each of bound + 1 phases, from the slowest waiter's on,
/// and an entry for each task. While one task alone signals, by `signal_values` and with no single,
/// and does not wait, it keeps a number for each of bound phases in place of the slots. `new`,
/// `register` and `register_now` alone take memory.
///
/// **Example.** A founder gets what it sent:
/// ```text
/// let mut core = PhaserCore::<Sum>::new(alloc, Spec::new(2, 100)?, 0)?;
/// let mut pending = Pending::new();
/// pending.send(5)?;
/// core.signal(0, pending, None)     Ok(0)
/// core.wait(0)                      Ok(Got::Value { phase: 0, outcome: Outcome::Value(5) })
/// ```
///
/// **Not promised.** That a phase is ever complete.
#[derive(Drop)]
pub struct PhaserCore<A: Accumulate> {
    pub(crate) registry: Registry,
    pub(crate) store: Store<A>,
}

impl<A: Accumulate> Model for PhaserCore<A> {
    ghost use Rattle.phase_core.specs.Cores.{CoreState};
    ghost use Rattle.phase_core.specs.PlainCores.{IsPhaser, core_shown};

    ghost Value = { CoreState A };

    ghost view = { λ c. core_shown A.operation c.registry c.store };

    ghost invariant = { λ c. IsPhaser A.operation c.registry c.store };
}

impl<A: Accumulate> PhaserCore<A> {
    /// Makes a phaser, whose one task is `first`, registered in `Single` at phase 0. It takes
    /// all the memory that signals and waits will ever need.
    pub fn new(alloc: Global, spec: Spec, first: u64) -> Result<PhaserCore<A>, AllocError>
        ensures stands { IfOk result (λ core. StandsFor A.operation core (Made first ∷ [])) }
        ensures limits { IfOk result (λ core. core.limits ≡ spec) }
    {
        let _bound = spec.bound();
        let store = Store::<A>::new(alloc, spec)?;
        let mut registry = Registry::new(alloc);
        let Ok(()) = registry.add(first, Mode::Single, 0, 0) else {
            return Err(AllocError);
        };
        Ok(PhaserCore { registry, store })
    }

    /// Returns a task's mode and phases, where it is registered.
    pub fn view(&self, task: u64) -> Option<Entry>
        ensures { result ≡ entry_of self.now.members task }
    {
        self.registry.get(task)
    }

    /// Returns the first phase that is not complete, counted from 0. The phases below it are.
    ///
    /// Where no waiter is registered, it looks at each task.
    pub fn done(&self) -> u64
        ensures { (h : History) → StandsFor A.operation self.now h → result ≡ done_of h }
    {
        if self.registry.waiters() > 0 {
            return self.store.board.done;
        }
        self.registry.least_signal().unwrap_or(self.store.board.top)
    }

    /// Returns one more than the greatest phase that was ever signalled, or 0.
    pub fn top(&self) -> u64
        ensures top { (h : History) → StandsFor A.operation self.now h → result ≡ top_of h }
        // A phaser stands for some history, whatever was done with it before.
        ensures stands { (h : History) × StandsFor A.operation self.now h }
    {
        self.store.board.top
    }

    /// Returns the number above every number that a task of the phaser ever had, where one is left.
    pub fn next_number(&self) -> Option<u64>
        ensures { result ≡ next_after (Some self.now.greatest) }
    {
        self.registry.next_number()
    }

    /// Returns the least wait phase of the waiters, where one is registered.
    pub fn least_wait(&self) -> Option<u64>
        ensures { result ≡ least (wait_phases self.now.members) }
    {
        if self.registry.waiters() == 0 {
            return None;
        }
        Some(self.store.base())
    }

    /// Returns whether a signaller is registered.
    pub fn has_signaller(&self) -> bool
        ensures { result ≡ is_some (least (signal_phases self.now.members)) }
    {
        self.registry.signallers() > 0
    }
}
