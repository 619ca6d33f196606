//! The calls of a task on its phasers.
ghost use Rattle.std.specs.Prelude.{◌≡◌, ◌≢◌, ◌<◌, ◌≤◌, ℕ, ◌∷◌, length, map, take, Some, None, Ok, IfOk, IfErr, OnOk, OnErr};
ghost use Rattle.phase_accum.specs.Sends.{AreSends};
ghost use Rattle.phase_accum.specs.Values.{value_by};
ghost use Rattle.phase_history.specs.declared.event.Event.TheVariants.{Dropped, Registered, RegisteredNow};
ghost use Rattle.phase_history.specs.Histories.{History, done_of};
ghost use Rattle.phase_history.specs.Phases.{stream_of};
ghost use Rattle.phase_core.specs.Blocks.{written, before_too_big};
ghost use Rattle.phase_history.specs.Refusals.{drop_refusal, register_refusal, register_now_refusal};
ghost use Rattle.phase_history.specs.Replies.{signal_reply, wait_reply, wait_block_reply, after_signal, after_wait, after_wait_block};
ghost use Rattle.graph_base.specs.Graphs.{phaser_at};
ghost use Rattle.graph_runs.specs.Moments.{one, limits_at, value_at};
ghost use Rattle.graph_runs.specs.Turned.{with_at};

use crate::machine::Machine;
use phase_accum::Outcome;
use phase_any::Parcels;
use phase_base::Mode;
use phase_core::{Got, GotBlock, NoTask, RegisterRefusal, SignalRefusal, WaitRefusal};
use stream_lists::Job;

impl Machine {
    ghost use Rattle.stream_job.specs.Machines.{HasCores, HasSomeCores};

    /// Ends a registration on phaser `p`.
    pub fn drop_on(&mut self, job: &Job, p: usize, number: u64) -> Result<(), NoTask>
        requires cores { HasSomeCores job.now self.old.cores.items }
        requires phaser { p < length job.now.graph.phasers }
        ensures ok { OnOk result ((h : ℕ → History)
            → HasCores job.now h self.old.cores.items
            → drop_refusal (h p) number ≡ None) }
        ensures refused { IfErr result (λ e. (h : ℕ → History)
            → HasCores job.now h self.old.cores.items
            → drop_refusal (h p) number ≡ Some e) }
        ensures cores { OnOk result ((h : ℕ → History)
            → HasCores job.now h self.old.cores.items
            → HasCores job.now (with_at p (Dropped number ∷ h p) h)
            self.new.cores.items) }
        ensures tasks { self.new.tasks ≡ self.old.tasks }
        ensures lines { self.new.lines ≡ self.old.lines }
    {
        self.cores[p].drop_task(number)
    }

    /// Waits on phaser `p`.
    pub fn wait_on(&mut self, job: &Job, p: usize, number: u64) -> Result<Got, WaitRefusal>
        requires cores { HasSomeCores job.now self.old.cores.items }
        requires phaser { p < length job.now.graph.phasers }
        ensures reply { (h : ℕ → History)
            → HasCores job.now h self.old.cores.items
            → wait_reply (value_at job.now p) (limits_at job.now p) (h p) number ≡ result }
        ensures cores { (h : ℕ → History)
            → HasCores job.now h self.old.cores.items
            → HasCores job.now (with_at p (after_wait result number (h p)) h)
            self.new.cores.items }
        ensures tasks { self.new.tasks ≡ self.old.tasks }
        ensures lines { self.new.lines ≡ self.old.lines }
    {
        self.cores[p].wait(number)
    }

    /// Signals these values on phaser `p`, one a phase.
    pub fn signal_values_on(
        &mut self,
        job: &Job,
        p: usize,
        number: u64,
        values: &[i64],
        parcels: &mut Parcels,
    ) -> Result<u64, SignalRefusal>
        requires cores { HasSomeCores job.now self.old.cores.items }
        requires phaser { p < length job.now.graph.phasers }
        requires sends { AreSends values.now }
        requires room { length values.now ≤ parcels.old }
        ensures reply { (h : ℕ → History)
            → HasCores job.now h self.old.cores.items
            → signal_reply (limits_at job.now p) (h p) number (map one values.now)
            (phaser_at job.now.graph p).single ≡ result }
        ensures cores { (h : ℕ → History)
            → HasCores job.now h self.old.cores.items
            → HasCores job.now (with_at p (after_signal result number (map one values.now)
            (phaser_at job.now.graph p).single (h p)) h) self.new.cores.items }
        ensures others { (self.new.tasks ≡ self.old.tasks) × (self.new.lines ≡ self.old.lines) }
        ensures parcels { parcels.new ≡ parcels.old }
    {
        let single = job.graph().phaser(p).single;
        self.cores[p].signal_values(number, values, single, parcels)
    }

    /// Waits on phaser `p` for a block, for at most so many phases, into the first of these places.
    pub fn wait_block_on(
        &mut self,
        job: &Job,
        p: usize,
        number: u64,
        places: &mut [Outcome],
        many: usize,
    ) -> Result<GotBlock, WaitRefusal>
        requires cores { HasSomeCores job.now self.old.cores.items }
        requires phaser { p < length job.now.graph.phasers }
        requires room { many ≤ length places.old }
        ensures reply { (h : ℕ → History)
            → HasCores job.now h self.old.cores.items
            → wait_block_reply (limits_at job.now p) (h p) number many ≡ result }
        ensures places { (h : ℕ → History)
            → HasCores job.now h self.old.cores.items → take many places.new
            ≡ written result (stream_of (value_at job.now p) (h p)) (take many places.old) }
        ensures room { length places.new ≡ length places.old }
        ensures cores { (h : ℕ → History)
            → HasCores job.now h self.old.cores.items
            → HasCores job.now (with_at p (after_wait_block result number (h p)) h)
            self.new.cores.items }
        ensures tasks { self.new.tasks ≡ self.old.tasks }
        ensures lines { self.new.lines ≡ self.old.lines }
    {
        self.cores[p].wait_block(number, &mut places[..many])
    }

    /// The same into the first places of a list, which stays as long.
    pub fn wait_block_into(
        &mut self,
        job: &Job,
        p: usize,
        number: u64,
        places: &mut Vec<Outcome>,
        many: usize,
    ) -> Result<GotBlock, WaitRefusal>
        requires cores { HasSomeCores job.now self.old.cores.items }
        requires phaser { p < length job.now.graph.phasers }
        requires room { many ≤ length places.old.items }
        ensures reply { (h : ℕ → History)
            → HasCores job.now h self.old.cores.items
            → wait_block_reply (limits_at job.now p) (h p) number many ≡ result }
        ensures places { (h : ℕ → History)
            → HasCores job.now h self.old.cores.items → take many places.new.items
            ≡ written result (stream_of (value_at job.now p) (h p)) (take many places.old.items) }
        ensures room { length places.new.items ≡ length places.old.items }
        ensures cores { (h : ℕ → History)
            → HasCores job.now h self.old.cores.items
            → HasCores job.now (with_at p (after_wait_block result number (h p)) h)
            self.new.cores.items }
        ensures tasks { self.new.tasks ≡ self.old.tasks }
        ensures lines { self.new.lines ≡ self.old.lines }
    {
        self.wait_block_on(job, p, number, places, many)
    }

    /// How many complete phases in range come next on phaser `p`, of at most so many, as
    /// `AnyPhaser::good_ahead` tells.
    pub fn good_ahead_on(
        &self,
        job: &Job,
        p: usize,
        number: u64,
        most: usize,
    ) -> Result<GotBlock, WaitRefusal>
        requires cores { HasSomeCores job.now self.now.cores.items }
        requires phaser { p < length job.now.graph.phasers }
        ensures { (h : ℕ → History) → HasCores job.now h self.now.cores.items
            → before_too_big (stream_of (value_at job.now p) (h p))
            (wait_block_reply (limits_at job.now p) (h p) number most) ≡ result }
    {
        self.cores[p].good_ahead(number, most)
    }

    /// Registers a task as this child of a task on phaser `p`, at the first phase that is not
    /// complete, which it answers.
    pub fn register_now_on(
        &mut self,
        job: &Job,
        p: usize,
        parent: u64,
        child: u64,
    ) -> Result<u64, RegisterRefusal>
        requires cores { HasSomeCores job.now self.old.cores.items }
        requires phaser { p < length job.now.graph.phasers }
        ensures refused { IfErr result (λ e. e ≢ RegisterRefusal.OutOfMemory
            → (h : ℕ → History) → HasCores job.now h self.old.cores.items
            → register_now_refusal (h p) parent child ≡ Some e) }
        ensures ok { IfOk result (λ phase. (h : ℕ → History)
            → HasCores job.now h self.old.cores.items
            → (register_now_refusal (h p) parent child ≡ None)
            × (phase ≡ done_of (h p))) }
        ensures cores { OnOk result ((h : ℕ → History)
            → HasCores job.now h self.old.cores.items
            → HasCores job.now (with_at p (RegisteredNow parent child ∷ h p) h)
            self.new.cores.items) }
        ensures err { OnErr result (self.new.cores ≡ self.old.cores) }
        ensures tasks { self.new.tasks ≡ self.old.tasks }
        ensures lines { self.new.lines ≡ self.old.lines }
    {
        self.cores[p].register_now(parent, child)
    }

    /// Registers a task as this child of a task on phaser `p`.
    pub fn register_on(
        &mut self,
        job: &Job,
        p: usize,
        parent: u64,
        child: u64,
        mode: Mode,
    ) -> Result<(), RegisterRefusal>
        requires cores { HasSomeCores job.now self.old.cores.items }
        requires phaser { p < length job.now.graph.phasers }
        ensures refused { IfErr result (λ e. e ≢ RegisterRefusal.OutOfMemory
            → (h : ℕ → History) → HasCores job.now h self.old.cores.items
            → register_refusal (h p) parent child mode ≡ Some e) }
        ensures ok { OnOk result ((h : ℕ → History)
            → HasCores job.now h self.old.cores.items
            → register_refusal (h p) parent child mode ≡ None) }
        ensures cores { OnOk result ((h : ℕ → History)
            → HasCores job.now h self.old.cores.items
            → HasCores job.now (with_at p (Registered parent child mode ∷ h p) h)
            self.new.cores.items) }
        ensures err { OnErr result (self.new.cores ≡ self.old.cores) }
        ensures tasks { self.new.tasks ≡ self.old.tasks }
        ensures lines { self.new.lines ≡ self.old.lines }
    {
        self.cores[p].register(parent, child, mode)
    }
}
