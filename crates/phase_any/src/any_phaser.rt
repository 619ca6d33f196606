//! A phaser under any of the five operations.
ghost use Rattle.std.specs.Prelude.{◌≡◌, ◌≢◌, ◌<◌, ◌≤◌, ◌+◌, ℕ, [], ◌∷◌, Ok, Some, None, is_some, length, IfOk, IfErr, OnOk, OnErr};
ghost use Rattle.phase_base.specs.Limits.{Limits};
ghost use Rattle.phase_base.specs.Members.{entry_of, signal_phases, wait_phases, least};
ghost use Rattle.phase_accum.specs.Sends.{AreSends};
ghost use Rattle.phase_accum.specs.Values.{value_by};
ghost use Rattle.phase_history.specs.declared.event.Event.TheVariants.{Made, Registered, RegisteredNow, Dropped};
ghost use Rattle.phase_history.specs.Histories.{History, members_of, done_of, greatest_used};
ghost use Rattle.phase_history.specs.Refusals.{register_refusal, register_now_refusal, drop_refusal};
ghost use Rattle.phase_history.specs.Phases.{stream_of};
ghost use Rattle.phase_history.specs.Replies.{wait_block_reply, after_wait_block, signal_reply, wait_reply, after_signal, after_wait};
ghost use Rattle.phase_core.specs.Blocks.{one_each, written, before_too_big};
ghost use Rattle.phase_registry.specs.Rosters.{next_after};
ghost use Rattle.phase_base.specs.declared.limits.TheConstants.{SENDS_MAX};

use crate::block_sends::{signal_block, signal_values};
use crate::parcels::Parcels;
use crate::sends::signal_sends;
use phase_accum::{Any, Greatest, Least, Op, Outcome, Product, Single, Sum};
use phase_base::{Entry, Mode, Spec};
use phase_core::{Got, GotBlock, NoTask, PhaserCore, RegisterRefusal, SignalRefusal, WaitRefusal};
use std::alloc::{AllocError, Global};

/// A phaser, by its operation. Each call is the one of `PhaserCore` of the same name.
pub enum AnyPhaser {
    Sum(PhaserCore<Sum>),
    Product(PhaserCore<Product>),
    Least(PhaserCore<Least>),
    Greatest(PhaserCore<Greatest>),
    Any(PhaserCore<Any>),
}

// The call on the phaser, whichever operation it has.
macro_rules! each {
    ($phaser:expr, $core:ident => $call:expr) => {
        match $phaser {
            AnyPhaser::Sum($core) => $call,
            AnyPhaser::Product($core) => $call,
            AnyPhaser::Least($core) => $call,
            AnyPhaser::Greatest($core) => $call,
            AnyPhaser::Any($core) => $call,
        }
    };
}

impl AnyPhaser {
    ghost use Rattle.phase_any.specs.Phasers.{PhaserStandsFor, next_task};

    /// Makes a phaser whose one task is its founder, number 0, in `Single` at phase 0. It takes all
    /// the memory that signals and waits will ever need.
    pub fn new(alloc: Global, op: Op, spec: Spec) -> Result<AnyPhaser, AllocError>
        ensures { IfOk result (λ core. PhaserStandsFor core op spec (Made 0 ∷ [])) }
    {
        match op {
            Op::Sum => Ok(AnyPhaser::Sum(PhaserCore::new(alloc, spec, 0)?)),
            Op::Product => Ok(AnyPhaser::Product(PhaserCore::new(alloc, spec, 0)?)),
            Op::Least => Ok(AnyPhaser::Least(PhaserCore::new(alloc, spec, 0)?)),
            Op::Greatest => Ok(AnyPhaser::Greatest(PhaserCore::new(alloc, spec, 0)?)),
            Op::Any => Ok(AnyPhaser::Any(PhaserCore::new(alloc, spec, 0)?)),
        }
    }

    /// Signals the task's phase with these sends and a single or none, and answers that phase. It
    /// takes no memory.
    pub fn signal(
        &mut self,
        task: u64,
        values: &[i64],
        single: Option<Single>,
    ) -> Result<u64, SignalRefusal>
        requires sends { AreSends values.now }
        requires few { length values.now ≤ SENDS_MAX }
        ensures reply { (op : Op) (limits : Limits) (h : History)
            → PhaserStandsFor self.old op limits h
            → signal_reply limits h task (values.now ∷ []) single ≡ result }
        ensures after { (op : Op) (limits : Limits) (h : History)
            → PhaserStandsFor self.old op limits h
            → PhaserStandsFor self.new op limits
            (after_signal result task (values.now ∷ []) single h) }
        ensures err { OnErr result (self.new ≡ self.old) }
    {
        each!(self, core => signal_sends(core, task, values, single))
    }

    /// Signals as many phases in a row as there are values, the first the task's, with one send
    /// each and a single for all of them or none, and answers the first phase. A refused block
    /// signals nothing. It takes no memory.
    ///
    /// Any value can be sent but `NO_VALUE`. The parcels are used where another task signals too,
    /// where the task waits, or where a single is named.
    pub fn signal_values(
        &mut self,
        task: u64,
        values: &[i64],
        single: Option<Single>,
        parcels: &mut Parcels,
    ) -> Result<u64, SignalRefusal>
        requires sends { AreSends values.now }
        requires room { length values.now ≤ parcels.old }
        ensures reply { (op : Op) (limits : Limits) (h : History)
            → PhaserStandsFor self.old op limits h
            → signal_reply limits h task (one_each values.now) single ≡ result }
        ensures after { (op : Op) (limits : Limits) (h : History)
            → PhaserStandsFor self.old op limits h
            → PhaserStandsFor self.new op limits
            (after_signal result task (one_each values.now) single h) }
        ensures err { OnErr result (self.new ≡ self.old) }
        ensures parcels { parcels.new ≡ parcels.old }
    {
        match self {
            AnyPhaser::Sum(core) => signal_values(core, task, values, single, &mut parcels.sum),
            AnyPhaser::Product(core) => signal_values(
                core,
                task,
                values,
                single,
                &mut parcels.product,
            ),
            AnyPhaser::Least(core) => signal_values(core, task, values, single, &mut parcels.least),
            AnyPhaser::Greatest(core) => signal_values(
                core,
                task,
                values,
                single,
                &mut parcels.greatest,
            ),
            AnyPhaser::Any(core) => signal_values(core, task, values, single, &mut parcels.any),
        }
    }

    /// Signals a block as `signal_values` does, in places of its own. It takes memory for them, and
    /// gives it back.
    pub fn signal_block(
        &mut self,
        alloc: Global,
        task: u64,
        values: &[i64],
        single: Option<Single>,
    ) -> Result<Result<u64, SignalRefusal>, AllocError>
        requires { AreSends values.now }
        ensures reply { IfOk result (λ answer. (op : Op) (limits : Limits) (h : History)
            → PhaserStandsFor self.old op limits h
            → signal_reply limits h task (one_each values.now) single ≡ answer) }
        ensures after { IfOk result (λ answer. (op : Op) (limits : Limits) (h : History)
            → PhaserStandsFor self.old op limits h
            → PhaserStandsFor self.new op limits
            (after_signal answer task (one_each values.now) single h)) }
        ensures refused { IfOk result (λ answer. OnErr answer (self.new ≡ self.old)) }
        ensures out_of_memory { OnErr result (self.new ≡ self.old) }
    {
        each!(self, core => signal_block(core, alloc, task, values, single))
    }

    /// Waits for the task's phase, and answers it with its value, or that no more will come. It
    /// never blocks, and takes no memory.
    pub fn wait(&mut self, task: u64) -> Result<Got, WaitRefusal>
        ensures reply { (op : Op) (limits : Limits) (h : History)
            → PhaserStandsFor self.old op limits h
            → wait_reply (value_by op) limits h task ≡ result }
        ensures after { (op : Op) (limits : Limits) (h : History)
            → PhaserStandsFor self.old op limits h
            → PhaserStandsFor self.new op limits (after_wait result task h) }
        ensures err { OnErr result (self.new ≡ self.old) }
    {
        each!(self, core => core.wait(task))
    }

    /// Waits for the task's phase, and answers it with the number of phases that are complete from
    /// there on, at most one for each place, and writes their values in the first places; or
    /// answers that no more will come. A refused wait writes nothing. It never blocks, and takes no
    /// memory.
    pub fn wait_block(&mut self, task: u64, out: &mut [Outcome]) -> Result<GotBlock, WaitRefusal>
        ensures reply { (op : Op) (limits : Limits) (h : History)
            → PhaserStandsFor self.old op limits h
            → wait_block_reply limits h task (length out.old) ≡ result }
        ensures after { (op : Op) (limits : Limits) (h : History)
            → PhaserStandsFor self.old op limits h
            → PhaserStandsFor self.new op limits (after_wait_block result task h) }
        ensures out { (op : Op) (limits : Limits) (h : History)
            → PhaserStandsFor self.old op limits h
            → out.new ≡ written result (stream_of (value_by op) h) out.old }
        ensures few { (phase count : ℕ) → result ≡ Ok (GotBlock.Values phase count)
            → count ≤ length out.old }
        ensures err { OnErr result (self.new ≡ self.old) }
    {
        each!(self, core => core.wait_block(task, out))
    }

    /// Answers how many complete phases in range come next for a task, of at most so many: those
    /// before the first whose value is too big, and none where the task's own phase has it; or that
    /// no more will come, or the refusal that a wait for so many would get. It changes nothing,
    /// takes no memory and never blocks.
    pub fn good_ahead(&self, task: u64, most: usize) -> Result<GotBlock, WaitRefusal>
        ensures { (op : Op) (limits : Limits) (h : History)
            → PhaserStandsFor self.now op limits h
            → before_too_big (stream_of (value_by op) h)
            (wait_block_reply limits h task most) ≡ result }
    {
        each!(self, core => core.good_ahead(task, most))
    }

    /// Registers the task `child` in `Wait`, which the mode of `parent` has to hold, at the first
    /// phase that is not complete, and answers that phase. The child's number is above every number
    /// that was ever used on the phaser. It may take memory, which it asks for last.
    pub fn register_now(&mut self, parent: u64, child: u64) -> Result<u64, RegisterRefusal>
        ensures ok { IfOk result (λ phase. (op : Op) (limits : Limits) (h : History)
            → PhaserStandsFor self.old op limits h
            → (register_now_refusal h parent child ≡ None) × (phase ≡ done_of h)) }
        ensures refused { IfErr result (λ e. e ≢ RegisterRefusal.OutOfMemory
            → (op : Op) (limits : Limits) (h : History)
            → PhaserStandsFor self.old op limits h
            → register_now_refusal h parent child ≡ Some e) }
        // Want of memory is answered last: only where the registration is accepted.
        ensures out_of_memory { IfErr result (λ e. e ≡ RegisterRefusal.OutOfMemory
            → (op : Op) (limits : Limits) (h : History)
            → PhaserStandsFor self.old op limits h
            → register_now_refusal h parent child ≡ None) }
        ensures after { OnOk result ((op : Op) (limits : Limits) (h : History)
            → PhaserStandsFor self.old op limits h
            → PhaserStandsFor self.new op limits (RegisteredNow parent child ∷ h)) }
        ensures err { OnErr result (self.new ≡ self.old) }
    {
        each!(self, core => core.register_now(parent, child))
    }

    /// Registers the task `child`, in a mode that the mode of `parent` holds and at both phases of
    /// `parent`. The child's number is above every number that was ever used on the phaser.
    ///
    /// It may take memory, which it asks for last, so that a registration that was refused as
    /// `OutOfMemory` can be made again.
    pub fn register(&mut self, parent: u64, child: u64, mode: Mode) -> Result<(), RegisterRefusal>
        ensures ok { OnOk result ((op : Op) (limits : Limits) (h : History)
            → PhaserStandsFor self.old op limits h
            → register_refusal h parent child mode ≡ None) }
        ensures refused { IfErr result (λ e. e ≢ RegisterRefusal.OutOfMemory
            → (op : Op) (limits : Limits) (h : History)
            → PhaserStandsFor self.old op limits h
            → register_refusal h parent child mode ≡ Some e) }
        // Want of memory is answered last: only where the registration is accepted.
        ensures out_of_memory { IfErr result (λ e. e ≡ RegisterRefusal.OutOfMemory
            → (op : Op) (limits : Limits) (h : History)
            → PhaserStandsFor self.old op limits h
            → register_refusal h parent child mode ≡ None) }
        ensures after { OnOk result ((op : Op) (limits : Limits) (h : History)
            → PhaserStandsFor self.old op limits h
            → PhaserStandsFor self.new op limits (Registered parent child mode ∷ h)) }
        ensures err { OnErr result (self.new ≡ self.old) }
    {
        each!(self, core => core.register(parent, child, mode))
    }

    /// Ends a task's registration. It takes no memory.
    pub fn drop_task(&mut self, task: u64) -> Result<(), NoTask>
        ensures ok { OnOk result ((op : Op) (limits : Limits) (h : History)
            → PhaserStandsFor self.old op limits h
            → drop_refusal h task ≡ None) }
        ensures refused { IfErr result (λ e. (op : Op) (limits : Limits) (h : History)
            → PhaserStandsFor self.old op limits h
            → drop_refusal h task ≡ Some e) }
        ensures after { OnOk result ((op : Op) (limits : Limits) (h : History)
            → PhaserStandsFor self.old op limits h
            → PhaserStandsFor self.new op limits (Dropped task ∷ h)) }
        ensures err { OnErr result (self.new ≡ self.old) }
    {
        each!(self, core => core.drop_task(task))
    }

    /// Returns the number above every number that a task of the phaser ever had, where one is left.
    /// It takes no memory.
    pub fn next_number(&self) -> Option<u64>
        ensures { (op : Op) (limits : Limits) (h : History)
            → PhaserStandsFor self.now op limits h
            → result ≡ next_after (Some (greatest_used h)) }
    {
        each!(self, core => core.next_number())
    }

    /// Returns the number of the task that is registered next. It takes no memory.
    pub fn next_task(&self) -> u64
        ensures { (op : Op) (limits : Limits) (h : History)
            → PhaserStandsFor self.now op limits h
            → result ≡ next_task h }
    {
        self.next_number().unwrap_or(u64::MAX)
    }

    /// Returns a task's mode and phases, where it is registered. It takes no memory.
    pub fn view(&self, task: u64) -> Option<Entry>
        ensures { (op : Op) (limits : Limits) (h : History)
            → PhaserStandsFor self.now op limits h
            → result ≡ entry_of (members_of h) task }
    {
        each!(self, core => core.view(task))
    }

    /// Returns the first phase that is not complete, counted from 0. It takes no memory.
    ///
    /// Where no waiter is registered, it looks at each task.
    pub fn done(&self) -> u64
        ensures { (op : Op) (limits : Limits) (h : History)
            → PhaserStandsFor self.now op limits h
            → result ≡ done_of h }
    {
        each!(self, core => core.done())
    }

    /// Returns the least wait phase of the waiters, where one is registered. It takes no memory.
    pub fn least_wait(&self) -> Option<u64>
        ensures { (op : Op) (limits : Limits) (h : History)
            → PhaserStandsFor self.now op limits h
            → result ≡ least (wait_phases (members_of h)) }
    {
        each!(self, core => core.least_wait())
    }

    /// Returns whether a signaller is registered. It takes no memory.
    pub fn has_signaller(&self) -> bool
        ensures { (op : Op) (limits : Limits) (h : History)
            → PhaserStandsFor self.now op limits h
            → result ≡ is_some (least (signal_phases (members_of h))) }
    {
        each!(self, core => core.has_signaller())
    }
}

// By hand: the walk of a derived drop is written out, and proved, wherever a value is let go.
impl Drop for AnyPhaser {
    fn drop(self) {
        each!(self, core => drop(core))
    }
}
