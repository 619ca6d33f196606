//! How a run goes on: what it has at its opening, and that each next event keeps it. Each function
//! here makes no call and has no effect: its contract is the law. So whoever makes events one by
//! one, in any order of the tasks, has `HasRun` of every moment, and with it the laws of
//! `moments`.
ghost use Rattle.std.specs.Prelude.{◌<◌, ℕ, ℤ, suc, List, [], ◌∷◌, length};
ghost use Rattle.phase_base.specs.declared.mode.Mode.{Mode};
ghost use Rattle.phase_accum.specs.declared.outcome.Outcome.{Outcome};
ghost use Rattle.graph_base.specs.TaskLines.{IsGraph};
ghost use Rattle.graph_base.specs.declared.line.Parent.{Parent};
ghost use Rattle.stream_lists.specs.Jobs.{Job};
ghost use Rattle.phase_history.specs.Histories.{History};
ghost use Rattle.phase_history.specs.Legal.{IsLegal};
ghost use Rattle.phase_history.specs.Others.{OthersCame};
ghost use Rattle.graph_runs.specs.Moments.{Moment, HasRun, PhaserRan, TaskRan, HasEnded, limits_at};
ghost use Rattle.graph_runs.specs.Moves.{HasGrown, OthersMoved, PartStays, SameTask, Signals, Waits, Leaves, Registers, further, SignalsAll, WaitsAll, RegistersNow};
ghost use Rattle.graph_runs.specs.Turned.{after_signal, after_wait, after_leave, after_register, IsNextSample, IsNextSignal, IsFirstWait, IsExchangeWait, IsNextLeave, IsNextChild, after_signals, after_waits, after_register_now, IsNextSamples, IsNextSignals, IsFirstWaits, IsNextChildNow};
ghost use Rattle.graph_runs.specs.Openings.{HasOpened};

/// At the opening a run has done what every moment has: each phaser's founder has registered the
/// tasks without a parent and left, and nothing was sent or taken. Here a run begins.
pub fn opening()
    ensures { (job : Job) (m : Moment) → IsGraph job.graph → HasOpened job m → HasRun job m }
{}

/// After the next event of a task a run has what it had: a sample that a source signals, another
/// signal, the first wait of a step, a peer's wait for the value on E, leaving a phaser, and a
/// child's registration on a phaser. Each is an event that the phaser accepts and that the task's
/// steps have next, and the moment after it is a function of the moment before. For who runs all
/// tasks one event at a time, as one thread does.
pub fn turns_keep()
    ensures sample { (job : Job) (m : Moment) (t j p n : ℕ) (v : ℤ)
        → IsGraph job.graph → t < length job.graph.tasks → p < length job.graph.phasers
        → IsNextSample job m t j p n v → HasRun job m
        → HasRun job (after_signal job t j p n v (suc (m.begun t)) m) }
    ensures signal { (job : Job) (m : Moment) (t j p n : ℕ) (v : ℤ)
        → IsGraph job.graph → t < length job.graph.tasks → p < length job.graph.phasers
        → IsNextSignal job m t j p n v → HasRun job m
        → HasRun job (after_signal job t j p n v (m.begun t) m) }
    ensures first_wait { (job : Job) (m : Moment) (t k p n : ℕ) (outcome : Outcome)
        → IsGraph job.graph → t < length job.graph.tasks → p < length job.graph.phasers
        → IsFirstWait job m t k p n outcome → HasRun job m
        → HasRun job (after_wait t k p n outcome (suc (m.begun t)) m) }
    ensures exchange_wait { (job : Job) (m : Moment) (t p n : ℕ) (outcome : Outcome)
        → IsGraph job.graph → t < length job.graph.tasks → p < length job.graph.phasers
        → IsExchangeWait job m t p n outcome → HasRun job m
        → HasRun job (after_wait t 1 p n outcome (m.begun t) m) }
    ensures leave { (job : Job) (m : Moment) (t p n : ℕ)
        → IsGraph job.graph → t < length job.graph.tasks → p < length job.graph.phasers
        → IsNextLeave job m t p n → HasRun job m → HasRun job (after_leave p n m) }
    ensures child { (job : Job) (m : Moment) (t p n c a : ℕ) (mode : Mode) (u : Parent)
        → IsGraph job.graph → t < length job.graph.tasks
        → IsNextChild job m t p n c a mode u → HasRun job m
        → HasRun job (after_register p n c a mode m) }
{}

/// After a block a run has what it had, too: several steps of a task in one event of its phaser, so
/// many samples of a source, values that a filter puts, or phases that a filter or a sink waits
/// for. A block of one is the event of `turns_keep`. And so it has after a sink has joined now.
pub fn blocks_keep()
    ensures samples { (job : Job) (m : Moment) (t j p n : ℕ) (vs : List ℤ)
        → IsGraph job.graph → t < length job.graph.tasks → p < length job.graph.phasers
        → IsNextSamples job m t j p n vs → HasRun job m
        → HasRun job (after_signals job t j p n vs (further (m.begun t) vs) m) }
    ensures signals { (job : Job) (m : Moment) (t j p n : ℕ) (vs : List ℤ)
        → IsGraph job.graph → t < length job.graph.tasks → p < length job.graph.phasers
        → IsNextSignals job m t j p n vs → HasRun job m
        → HasRun job (after_signals job t j p n vs (m.begun t) m) }
    ensures first_waits { (job : Job) (m : Moment) (t k p n : ℕ) (outcomes : List Outcome)
        → IsGraph job.graph → t < length job.graph.tasks → p < length job.graph.phasers
        → IsFirstWaits job m t k p n outcomes → HasRun job m
        → HasRun job (after_waits t k p n outcomes (further (m.begun t) outcomes) m) }
    ensures child_now { (job : Job) (m : Moment) (t p n c a : ℕ) (u : Parent)
        → IsGraph job.graph → t < length job.graph.tasks
        → IsNextChildNow job m t p n c a u → HasRun job m
        → HasRun job (after_register_now p n c a m) }
{}

/// The moment after a next event is what the event makes of the moment before, as the relations of
/// `specs/Moves.antt` say it. So who has a moment of one task's own takes that task's next events
/// for `own_events_keep`, and need not say what other tasks have done.
pub fn next_events_are_moves()
    ensures sample { (job : Job) (m : Moment) (t j p n : ℕ) (v : ℤ)
        → IsNextSample job m t j p n v → TaskRan job m t
        → Signals job m (after_signal job t j p n v (suc (m.begun t)) m) t j p n v }
    ensures signal { (job : Job) (m : Moment) (t j p n : ℕ) (v : ℤ)
        → IsNextSignal job m t j p n v → TaskRan job m t
        → Signals job m (after_signal job t j p n v (m.begun t) m) t j p n v }
    ensures first_wait { (job : Job) (m : Moment) (t k p n : ℕ) (outcome : Outcome)
        → IsFirstWait job m t k p n outcome
        → Waits job m (after_wait t k p n outcome (suc (m.begun t)) m) t k p n outcome }
    ensures exchange_wait { (job : Job) (m : Moment) (t p n : ℕ) (outcome : Outcome)
        → IsExchangeWait job m t p n outcome
        → Waits job m (after_wait t 1 p n outcome (m.begun t) m) t 1 p n outcome }
    ensures leave { (job : Job) (m : Moment) (t p n : ℕ) → IsNextLeave job m t p n
        → Leaves job m (after_leave p n m) t p n }
    ensures child { (job : Job) (m : Moment) (t p n c a : ℕ) (mode : Mode) (u : Parent)
        → IsNextChild job m t p n c a mode u
        → Registers job m (after_register p n c a mode m) t p n c a mode u }
{}

/// The same of blocks and of a sink that joins now: one move each, with the whole list.
pub fn next_blocks_are_moves()
    ensures samples { (job : Job) (m : Moment) (t j p n : ℕ) (vs : List ℤ)
        → IsNextSamples job m t j p n vs → TaskRan job m t
        → SignalsAll job m (after_signals job t j p n vs (further (m.begun t) vs) m) t j p n vs }
    ensures signals { (job : Job) (m : Moment) (t j p n : ℕ) (vs : List ℤ)
        → IsNextSignals job m t j p n vs → TaskRan job m t
        → SignalsAll job m (after_signals job t j p n vs (m.begun t) m) t j p n vs }
    ensures first_waits { (job : Job) (m : Moment) (t k p n : ℕ) (outcomes : List Outcome)
        → IsFirstWaits job m t k p n outcomes
        → WaitsAll job m (after_waits t k p n outcomes (further (m.begun t) outcomes) m)
        t k p n outcomes }
    ensures child_now { (job : Job) (m : Moment) (t p n c a : ℕ) (u : Parent)
        → IsNextChildNow job m t p n c a u
        → RegistersNow job m (after_register_now p n c a m) t p n c a u }
{}

/// A task's own event keeps what a moment has of the task, where the histories of the phasers on
/// its line grew legally, and a child's registration gives what it has of the child. For who knows
/// of a run only what one task has seen, as a thread that moves one task does.
pub fn own_events_keep()
    ensures signal { (job : Job) (before after : Moment) (t j p n : ℕ) (v : ℤ)
        → IsGraph job.graph → t < length job.graph.tasks
        → Signals job before after t j p n v → TaskRan job before t → TaskRan job after t }
    ensures wait { (job : Job) (before after : Moment) (t k p n : ℕ) (outcome : Outcome)
        → IsGraph job.graph → t < length job.graph.tasks
        → Waits job before after t k p n outcome → TaskRan job before t → TaskRan job after t }
    ensures leave { (job : Job) (before after : Moment) (t p n : ℕ)
        → IsGraph job.graph → t < length job.graph.tasks → HasGrown job before after t
        → Leaves job before after t p n → TaskRan job before t → TaskRan job after t }
    ensures register { (job : Job) (before after : Moment) (t p n c a : ℕ) (mode : Mode)
        (u : Parent) → IsGraph job.graph → t < length job.graph.tasks
        → HasGrown job before after t → Registers job before after t p n c a mode u
        → TaskRan job before t → TaskRan job after t }
    ensures child { (job : Job) (before after : Moment) (t p n c a : ℕ) (mode : Mode)
        (u : Parent) → IsGraph job.graph → t < length job.graph.tasks
        → IsLegal (limits_at job p) (before.history p) → HasGrown job before after c
        → Registers job before after t p n c a mode u
        → TaskRan job before t → TaskRan job before c → TaskRan job after c }
{}

/// A task's own block keeps what a moment has of the task, too; and a sink's registration now that
/// of its parent, and gives what it has of the sink.
pub fn own_blocks_keep()
    ensures signals { (job : Job) (before after : Moment) (t j p n : ℕ) (vs : List ℤ)
        → IsGraph job.graph → t < length job.graph.tasks
        → SignalsAll job before after t j p n vs → TaskRan job before t → TaskRan job after t }
    ensures waits { (job : Job) (before after : Moment) (t k p n : ℕ) (outcomes : List Outcome)
        → IsGraph job.graph → t < length job.graph.tasks
        → WaitsAll job before after t k p n outcomes → TaskRan job before t
        → TaskRan job after t }
    ensures register_now { (job : Job) (before after : Moment) (t p n c a : ℕ) (u : Parent)
        → IsGraph job.graph → t < length job.graph.tasks
        → HasGrown job before after t → RegistersNow job before after t p n c a u
        → TaskRan job before t → TaskRan job after t }
    ensures child_now { (job : Job) (before after : Moment) (t p n c a : ℕ) (u : Parent)
        → IsGraph job.graph → t < length job.graph.tasks
        → IsLegal (limits_at job p) (before.history p)
        → RegistersNow job before after t p n c a u
        → TaskRan job before t → TaskRan job before c → TaskRan job after c }
{}

/// What a moment has of a task stays where others' events came, and so does that it has ended. So a
/// task need not know what the others did since its own last event. Of each history it asks that
/// the task's part is the same, which it is where none of the later events is the task's: `part`.
pub fn others_leave()
    ensures part { (n : ℕ) (old new : History) → OthersCame (n ∷ []) old new
        → PartStays n old new }
    ensures task { (job : Job) (before after : Moment) (t : ℕ)
        → IsGraph job.graph → t < length job.graph.tasks → HasGrown job before after t
        → OthersMoved job before after t → TaskRan job before t → TaskRan job after t }
    ensures ended { (job : Job) (before after : Moment) (t : ℕ)
        → IsGraph job.graph → t < length job.graph.tasks → HasGrown job before after t
        → SameTask before after t → HasEnded job before t → HasEnded job after t }
{}

/// A moment has run where each of its phasers has, and each task has by a moment of its own, since
/// which others moved alone. So the parts that threads have seen are put together at the end.
pub fn parts_join()
    ensures { (job : Job) (m : Moment) (own : ℕ → Moment) → IsGraph job.graph
        → ((p : ℕ) → p < length job.graph.phasers → PhaserRan job m p)
        → ((t : ℕ) → t < length job.graph.tasks → TaskRan job (own t) t)
        → ((t : ℕ) → t < length job.graph.tasks → HasGrown job (own t) m t)
        → ((t : ℕ) → t < length job.graph.tasks → OthersMoved job (own t) m t)
        → HasRun job m }
{}
