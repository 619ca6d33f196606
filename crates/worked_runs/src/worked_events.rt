//! Single events of the worked run, and the laws of one event used at them.
ghost use Rattle.std.specs.Prelude.{ℕ, ℤ, pos};
ghost use Rattle.phase_base.specs.declared.mode.Mode.TheVariants.{Wait};
ghost use Rattle.phase_accum.specs.declared.outcome.Outcome.{Outcome};
ghost use Rattle.phase_accum.specs.declared.outcome.Outcome.TheVariants.{Value};
ghost use Rattle.graph_runs.specs.Moments.{HasRun, TaskRan, HasEnded};
ghost use Rattle.graph_runs.specs.Moves.{Signals, Waits, Leaves, Registers, PartStays};
ghost use Rattle.graph_runs.specs.Turned.{IsNextSample, IsNextSignal, IsFirstWait, IsNextLeave};
ghost use Rattle.worked_runs.specs.Worked.{after_peer, after_samples, worked, worked_opening, worked_sample, after_first_wait, after_signal_on_e, after_exchange, by_out, before_late, with_late, before_end, worked_end};

use crate::worked_run::a_run_from_its_opening_to_its_end;
use graph_runs::moves as laws;

/// The first events of the source and of the peer, that out registers late, and that late leaves.
fn events_as_moves()
    ensures sample { Signals worked worked_opening worked_sample 0 0 0 1 (pos 5) }
    ensures first_wait { Waits worked worked_sample after_first_wait 1 0 0 2 (Value (pos 5)) }
    ensures signal { Signals worked after_first_wait after_signal_on_e 1 0 1 1 (pos 5) }
    ensures exchange_wait { Waits worked after_signal_on_e after_exchange 1 1 1 1
        (Value (pos 5)) }
    ensures leave { Leaves worked before_end worked_end 5 5 3 }
    ensures child { Registers worked before_late with_late 4 5 2 5 3 Wait by_out }
{
    a_run_from_its_opening_to_its_end();
    laws::next_events_are_moves();
}

/// They keep what the run has of the task whose events they are, and give what it has of late.
fn events_keep_their_task()
    ensures signal { TaskRan worked worked_sample 0 }
    ensures wait { TaskRan worked after_first_wait 1 }
    ensures leave { TaskRan worked worked_end 5 }
    ensures register { TaskRan worked with_late 4 }
    ensures child { TaskRan worked with_late 5 }
{
    a_run_from_its_opening_to_its_end();
    events_as_moves();
    laws::own_events_keep();
}

/// While out registers late, nothing happens to the joiner, which is number 1 on Z; and the source,
/// which left before the splitter's first event, has still ended after it.
fn events_of_others()
    ensures part { PartStays 1 (before_late.history 5) (with_late.history 5) }
    ensures task { TaskRan worked with_late 3 }
    ensures ended { HasEnded worked before_late 0 }
{
    a_run_from_its_opening_to_its_end();
    events_as_moves();
    laws::others_leave();
}

/// The moment with late is put together of the moment before, for every other task, and its own.
fn parts_of_a_run()
    ensures { HasRun worked with_late }
{
    a_run_from_its_opening_to_its_end();
    events_as_moves();
    laws::parts_join();
}

/// Near these events are others that are not the next ones of their tasks.
fn events_that_are_not_next()
    // out does not leave before it has registered late
    ensures leaves_before_its_child { IsNextLeave worked before_late 4 5 2 → ⊥ }
    // nor begins a step past `until`
    ensures steps_past_until { (outcome : Outcome)
        → IsFirstWait worked with_late 4 0 5 2 outcome → ⊥ }
    // late does not wait before it is there
    ensures waits_before_it_comes { (outcome : Outcome)
        → IsFirstWait worked before_late 5 0 5 3 outcome → ⊥ }
    // the peer puts nothing on Y before it has taken its value on E
    ensures mixes_before_its_exchange { (v : ℤ)
        → IsNextSignal worked after_signal_on_e 1 1 2 1 v → ⊥ }
    // the source has no third sample
    ensures samples_past_the_last { (v : ℤ) → IsNextSample worked after_samples 0 0 0 1 v → ⊥ }
    // the splitter does not put its second value on A, where it has put its first
    ensures splits_out_of_turn { (v : ℤ) → IsNextSignal worked before_late 2 0 3 1 v → ⊥ }
    // the joiner does not take its second value from A
    ensures joins_out_of_turn { (outcome : Outcome)
        → IsFirstWait worked before_late 3 0 3 2 outcome → ⊥ }
    // the splitter does not leave while the peer signals Y
    ensures leaves_before_its_input_ends { IsNextLeave worked after_peer 2 2 2 → ⊥ }
{}
