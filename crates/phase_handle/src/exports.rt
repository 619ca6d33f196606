//! What C calls.
ghost use Rattle.std.specs.Prelude.{◌≡◌, ◌≢◌, ◌≤◌, ◌<◌, ◌⊎◌, [], ◌∷◌, ℕ, Option, Some, None, IsSome, Ok, length};
ghost use Rattle.phase_base.specs.Limits.{Limits, limits, IsBound};
ghost use Rattle.phase_base.specs.declared.limits.TheConstants.{BOUND_MAX, PHASES_MAX, SENDS_MAX};
ghost use Rattle.phase_accum.specs.Sends.{AreSends};
ghost use Rattle.phase_accum.specs.Values.{value_by};
ghost use Rattle.phase_accum.specs.declared.single.Single.{Single};
ghost use Rattle.phase_accum.specs.declared.outcome.Outcome.{Outcome};
ghost use Rattle.phase_history.specs.declared.event.Event.TheVariants.{Made};
ghost use Rattle.phase_history.specs.declared.got.Got.TheVariants as got;
ghost use Rattle.phase_history.specs.Histories.{History};
ghost use Rattle.phase_history.specs.Replies.{signal_reply, after_signal, wait_reply, after_wait};
ghost use Rattle.handle_numbers.specs.Numbers.{op_numbered, Names, signal_status, wait_status, value_number, phase_or};
ghost use Rattle.phase_handle.specs.Phasers.{Holds};
ghost use Rattle.handle_numbers.specs.declared.numbers.TheConstants.{GOOD, ENDED, NO_PHASER, HAS_PHASER, BAD_OPERATION, BAD_BOUND, BAD_PHASES, OUT_OF_MEMORY, BAD_SINGLE, BAD_VALUE, TOO_MANY_SENDS};

use crate::handle::Handle;
use handle_numbers::numbers::*;
use handle_numbers::{op_of, signal_code, single_of, value_code, wait_code};
use phase_accum::Op;
use phase_any::AnyPhaser;
use phase_base::{SENDS_MAX, Spec, SpecFault};
use phase_core::{Got, are_sends};
use std::alloc::Global;

/// Makes a phaser under an operation, whose signallers may be `bound` phases ahead of its slowest
/// waiter, and which has at most `phases` phases. Its one task is its founder, number 0, in
/// `Single` at phase 0.
#[unsafe(no_mangle)]
pub extern "C" fn phase_phaser_new(
    alloc: Global,
    operation: u32,
    bound: u64,
    phases: u64,
    handle: &mut Handle,
) -> i32
    ensures good { result ≡ GOOD → (op : Op) → op_numbered operation ≡ Some op
        → Holds handle.new.place.phaser op (limits bound phases) (Made 0 ∷ []) }
    ensures known { result ≡ GOOD → IsSome (op_numbered operation) }
    ensures has_phaser { IsSome handle.old.place.phaser → result ≡ HAS_PHASER }
    ensures bad_operation { handle.old.place.phaser ≡ None → op_numbered operation ≡ None
        → result ≡ BAD_OPERATION }
    ensures bad_bound { handle.old.place.phaser ≡ None → IsSome (op_numbered operation)
        → (bound < 1) ⊎ (BOUND_MAX < bound) → result ≡ BAD_BOUND }
    ensures bad_phases { handle.old.place.phaser ≡ None → IsSome (op_numbered operation)
        → IsBound bound → (phases < 1) ⊎ (PHASES_MAX < phases) → result ≡ BAD_PHASES }
    ensures accepted { handle.old.place.phaser ≡ None → IsSome (op_numbered operation)
        → IsBound bound → 1 ≤ phases → phases ≤ PHASES_MAX
        → (result ≡ GOOD) ⊎ (result ≡ OUT_OF_MEMORY) }
    ensures same { result ≢ GOOD → handle.new.place.phaser ≡ handle.old.place.phaser }
{
    if handle.live {
        return HAS_PHASER;
    }
    let Some(op) = op_of(operation) else {
        return BAD_OPERATION;
    };
    let spec = match Spec::new(bound, phases) {
        Ok(spec) => spec,
        Err(SpecFault::BadBound) => return BAD_BOUND,
        Err(SpecFault::BadPhases) => return BAD_PHASES,
    };
    let Ok(phaser) = AnyPhaser::new(alloc, op, spec) else {
        return OUT_OF_MEMORY;
    };
    let Ok(made) = Box::new(alloc, phaser) else {
        return OUT_OF_MEMORY;
    };
    handle.put(made);
    GOOD
}

/// Ends the phaser. The handle has none then. It is fine where it has none before.
#[unsafe(no_mangle)]
pub extern "C" fn phase_phaser_free(alloc: Global, handle: &mut Handle)
    ensures { handle.new.place.phaser ≡ None }
{
    if handle.live {
        drop(handle.take(alloc));
    }
}

/// Signals the task's phase with these sends and a single or none, and writes that phase. The ends
/// are those of a clamp.
#[unsafe(no_mangle)]
pub extern "C" fn phase_phaser_signal(
    alloc: Global,
    handle: &mut Handle,
    task: u64,
    values: &[i64],
    single: u32,
    low: i64,
    high: i64,
    phase: &mut u64,
) -> i32
    ensures call { (op : Op) (limits : Limits) (h : History) (named : Option Single)
        → Holds handle.old.place.phaser op limits h
        → Names single low high named
        → AreSends values.now → length values.now ≤ SENDS_MAX
        → result ≡ signal_status (signal_reply limits h task (values.now ∷ []) named) }
    ensures after { (op : Op) (limits : Limits) (h : History) (named : Option Single)
        → Holds handle.old.place.phaser op limits h
        → Names single low high named
        → AreSends values.now → length values.now ≤ SENDS_MAX
        → let reply = signal_reply limits h task (values.now ∷ []) named in
        Holds handle.new.place.phaser op limits
        (after_signal reply task (values.now ∷ []) named h)
        × (phase.new ≡ phase_or reply phase.old) }

    ensures no_phaser { handle.old.place.phaser ≡ None → result ≡ NO_PHASER }
    ensures bad_single { IsSome handle.old.place.phaser
        → ((named : Option Single) → Names single low high named → ⊥)
        → result ≡ BAD_SINGLE }
    ensures too_many_sends { (named : Option Single) → IsSome handle.old.place.phaser
        → Names single low high named → SENDS_MAX < length values.now
        → result ≡ TOO_MANY_SENDS }
    ensures bad_value { (named : Option Single) → IsSome handle.old.place.phaser
        → Names single low high named → length values.now ≤ SENDS_MAX
        → (AreSends values.now → ⊥) → result ≡ BAD_VALUE }
    ensures same { result ≢ GOOD
        → (handle.new.place.phaser ≡ handle.old.place.phaser) × (phase.new ≡ phase.old) }
{
    if !handle.live {
        return NO_PHASER;
    }
    let Some(named) = single_of(single, low, high) else {
        return BAD_SINGLE;
    };
    if values.len() as u64 > SENDS_MAX {
        return TOO_MANY_SENDS;
    }
    if !are_sends(values) {
        return BAD_VALUE;
    }
    match handle.signal(alloc, task, values, named) {
        Ok(first) => {
            *phase = first;
            GOOD
        }
        Err(refusal) => signal_code(refusal),
    }
}

/// Waits for the task's phase, and writes it with the number of its value; or answers `ENDED`,
/// where no more will come.
#[unsafe(no_mangle)]
pub extern "C" fn phase_phaser_wait(
    alloc: Global,
    handle: &mut Handle,
    task: u64,
    phase: &mut u64,
    value: &mut i64,
) -> i32
    ensures call { (op : Op) (limits : Limits) (h : History)
        → Holds handle.old.place.phaser op limits h
        → result ≡ wait_status (wait_reply (value_by op) limits h task) }
    ensures after { (op : Op) (limits : Limits) (h : History)
        → Holds handle.old.place.phaser op limits h
        → Holds handle.new.place.phaser op limits
        (after_wait (wait_reply (value_by op) limits h task) task h) }
    ensures got { (op : Op) (limits : Limits) (h : History) (first : ℕ) (outcome : Outcome)
        → Holds handle.old.place.phaser op limits h
        → wait_reply (value_by op) limits h task ≡ Ok (got.Value first outcome)
        → (phase.new ≡ first) × (value.new ≡ value_number outcome) }

    ensures no_phaser { handle.old.place.phaser ≡ None → result ≡ NO_PHASER }
    ensures unwritten { result ≢ GOOD
        → (phase.new ≡ phase.old) × (value.new ≡ value.old) }
    ensures same { result ≢ GOOD → result ≢ ENDED
        → handle.new.place.phaser ≡ handle.old.place.phaser }
{
    if !handle.live {
        return NO_PHASER;
    }
    match handle.wait(alloc, task) {
        Ok(
            Got::Value {
                phase: first,
                outcome,
            },
        ) => {
            *phase = first;
            *value = value_code(outcome);
            GOOD
        }
        Ok(Got::Ended) => ENDED,
        Err(refusal) => wait_code(refusal),
    }
}
