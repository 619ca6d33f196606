//! What holds of every history. Each function here makes no call and has no effect: its contract
//! is a law, for every history of every phaser, however the phaser is kept.
ghost use Rattle.std.specs.Prelude.{◌≡◌, ◌+◌, ◌<◌, ◌≤◌, ℕ, ℤ, List, length, Ok, Some, None, IsSome, true, false, ◌↔◌};
ghost use Rattle.std.specs.List.{All};
ghost use mathlib.Core.List.{IsPrefix};
ghost use Rattle.phase_base.specs.Limits.{Limits};
ghost use Rattle.phase_base.specs.Modes.{mode_signals, mode_waits};
ghost use Rattle.phase_base.specs.declared.entry.Entry.{Entry};
ghost use Rattle.phase_accum.specs.declared.outcome.Outcome.{Outcome};
ghost use Rattle.phase_accum.specs.Values.{IsInRange};
ghost use Rattle.phase_base.specs.Members.{entry_of, wait_phases, least};
ghost use Rattle.phase_history.specs.Histories.{History, IsBeginning, IsWaiter, HasNoSignaller, members_of, top_of, done_of, greatest_used, IsAlive, start_of, has_dropped, phases_waited};
ghost use Rattle.phase_history.specs.Phases.{received_by, stream_of};
ghost use Rattle.phase_history.specs.Legal.{IsLegal};
ghost use Rattle.phase_history.specs.Laws.{HasReceived, HasReceivedFrom, HasCounted, HasNoEvents, IsInTurn, IsAnswered, GoesOn, GoesOnPlainly};
ghost use Rattle.phase_history.specs.Sent.{NamesAll};
ghost use Rattle.phase_history.specs.Replies.{wait_reply};

mod blocks;
mod others;
mod sent;

use crate::got::Got;
pub use blocks::{accepted, after, block_answers, block_leaves, block_signals};
pub use others::{
    all_descend, beginning_is_legal, ended, entry_stays, events_add_up, member_is_known,
    member_is_used, no_stranger, only_used_stays, others_come, own_part_stays, use_stays,
};
use phase_accum::Accumulate;
pub use sent::{
    all_dropped, all_left, each_phase_is_named, gathered_alone, holds_open, mode_stays, one_sender,
    sends_are_gathered, sent_are_lists, sent_in_turn, sent_stays, top_is_reached, unused_is_silent,
};

/// Under an accumulator each value of the stream is in range, and so is what a wait is answered:
/// its magnitude is one of a value.
pub fn in_range<A: Accumulate>()
    ensures stream { (limits : Limits) (h : History) → IsLegal limits h
        → All IsInRange (stream_of A.operation.value h) }
    ensures answer { (limits : Limits) (h : History) (task phase : ℕ) (outcome : Outcome)
        → IsLegal limits h
        → wait_reply A.operation.value limits h task ≡ Ok (Got.Value phase outcome)
        → IsInRange outcome }
{}

/// A waiter has received the stream from its start to its wait phase, each value once and in
/// order.
pub fn got()
    ensures { (value : List ℤ → Outcome) (limits : Limits) (h : History) (task : ℕ) (entry : Entry)
        → IsLegal limits h → IsWaiter h task entry → HasReceived value h task entry }
{}

/// Each task that began in a mode that waits, registered or gone, has received the stream from its
/// start over as many phases as it waited for.
pub fn received()
    ensures { (value : List ℤ → Outcome) (limits : Limits) (h : History) (task : ℕ) (start : Entry)
        → IsLegal limits h → start_of h task ≡ Some start → mode_waits start.mode ≡ true
        → HasReceivedFrom value h task start }
{}

/// A task has received as many values as there are phases that it waited for.
pub fn received_are_counted()
    ensures { (value : List ℤ → Outcome) (limits : Limits) (h : History) (task : ℕ)
        → IsLegal limits h → length (received_by value h task) ≡ phases_waited h task }
{}

/// The stream of a longer history begins with this one's: no complete phase ever changes.
pub fn prefix()
    ensures { (value : List ℤ → Outcome) (limits : Limits) (h longer : History)
        → IsLegal limits h → IsLegal limits longer → IsBeginning h longer
        → IsPrefix (stream_of value h) (stream_of value longer) }
{}

/// Where no registered task signals, no longer history has a longer stream, and in none is one
/// registered that signals.
pub fn closed()
    ensures stream { (value : List ℤ → Outcome) (limits : Limits) (h longer : History)
        → HasNoSignaller h → IsLegal limits h → IsLegal limits longer → IsBeginning h longer
        → stream_of value longer ≡ stream_of value h }
    ensures no_signaller { (limits : Limits) (h longer : History)
        → HasNoSignaller h → IsLegal limits h → IsLegal limits longer → IsBeginning h longer
        → HasNoSignaller longer }
{}

/// A history is a beginning of itself, a beginning of its beginnings is one of its own, and of two
/// beginnings of one history the longer begins with the shorter.
pub fn beginnings()
    ensures itself { (h : History) → IsBeginning h h }
    ensures transitive { (first second third : History)
        → IsBeginning first second → IsBeginning second third → IsBeginning first third }
    ensures nested { (shorter longer whole : History)
        → IsBeginning shorter whole → IsBeginning longer whole
        → length shorter ≤ length longer → IsBeginning shorter longer }
{}

/// A task's signal phase is its start and the number of phases that it signalled since, its wait
/// phase its start and the number of phases that it waited for.
pub fn counted()
    ensures { (limits : Limits) (h : History) (task : ℕ) (entry : Entry)
        → IsLegal limits h → entry_of (members_of h) task ≡ Some entry → HasCounted h task entry }
{}

/// While a waiter is registered, no signal is further than the bound ahead of the slowest waiter.
pub fn bound()
    ensures { (limits : Limits) (h : History) (slowest : ℕ) → IsLegal limits h
        → least (wait_phases (members_of h)) ≡ Some slowest
        → top_of h ≤ slowest + limits.bound }
{}

/// No signal is of a phase past those that the phaser was made for.
pub fn top()
    ensures { (limits : Limits) (h : History) → IsLegal limits h
        → top_of h ≤ limits.phases_max }
{}

/// A task that signals and waits does so in turn: it is at most one signal ahead of its waits.
pub fn turns()
    ensures { (limits : Limits) (h : History) (task : ℕ) (entry : Entry) → IsLegal limits h
        → entry_of (members_of h) task ≡ Some entry
        → mode_signals entry.mode ≡ true → mode_waits entry.mode ≡ true → IsInTurn entry }
{}

/// A number that was never given to a task has no events, so a task that is registered now did
/// nothing. Each number above the greatest that was used is one.
pub fn unused()
    ensures never { (value : List ℤ → Outcome) (limits : Limits) (h : History) (task : ℕ)
        → IsLegal limits h → start_of h task ≡ None → HasNoEvents value h task }
    ensures above { (value : List ℤ → Outcome) (limits : Limits) (h : History) (task : ℕ)
        → IsLegal limits h → greatest_used h < task → HasNoEvents value h task }
{}

/// What a wait answers is what its task then has received last: the value of its wait phase.
pub fn answers()
    ensures { (value : List ℤ → Outcome) (limits : Limits) (h : History) (task phase : ℕ)
        (outcome : Outcome) → wait_reply value limits h task ≡ Ok (Got.Value phase outcome)
        → IsAnswered value h task phase outcome }
{}

/// A task is registered where it began, by making the phaser or by being registered, and has not
/// dropped its registration since.
pub fn alive()
    ensures { (limits : Limits) (h : History) (task : ℕ) → IsLegal limits h
        → IsAlive h task ↔ (IsSome (start_of h task) × (has_dropped h task ≡ false)) }
{}

/// While a task is registered, some task could go on: its signal is neither ahead nor a second one,
/// or its wait is neither too early nor before its signal. That it will is not promised. Where no
/// single is named and phases are left, some signal with no send is accepted, or some such wait is
/// there.
pub fn no_standstill()
    ensures goes { (limits : Limits) (h : History) (task : ℕ) → IsLegal limits h
        → IsAlive h task → GoesOn limits h }
    ensures plainly { (limits : Limits) (h : History) (task : ℕ) → IsLegal limits h
        → IsAlive h task → NamesAll None h → done_of h < limits.phases_max
        → GoesOnPlainly limits h }
{}
