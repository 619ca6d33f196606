//! What C calls to have tasks join and leave.
ghost use Rattle.std.specs.Prelude.{◌≡◌, ◌≢◌, ◌⊎◌, ◌∷◌, Some, None, IsSome};
ghost use Rattle.phase_base.specs.Limits.{Limits};
ghost use Rattle.phase_base.specs.Members.{entry_of};
ghost use Rattle.phase_base.specs.declared.entry.Entry.{Entry};
ghost use Rattle.phase_history.specs.declared.event.Event.TheVariants.{Registered, RegisteredNow, Dropped};
ghost use Rattle.phase_history.specs.declared.refusal.RegisterRefusal.{RegisterRefusal};
ghost use Rattle.phase_history.specs.declared.refusal.NoTask.{NoTask};
ghost use Rattle.phase_history.specs.Histories.{History, members_of, done_of};
ghost use Rattle.phase_history.specs.Refusals.{register_refusal, register_now_refusal, drop_refusal};
ghost use Rattle.handle_numbers.specs.Numbers.{mode_numbered, mode_number, register_number};
ghost use Rattle.phase_any.specs.Phasers.{next_task};
ghost use Rattle.phase_handle.specs.Phasers.{Holds};
ghost use Rattle.handle_numbers.specs.declared.numbers.TheConstants.{GOOD, NO_PHASER, BAD_MODE, NO_TASK, OUT_OF_MEMORY};

use crate::handle::Handle;
use handle_numbers::numbers::*;
use handle_numbers::{mode_code, mode_of, register_code};
use phase_accum::Op;
use phase_base::Mode;
use phase_core::RegisterRefusal;
use std::alloc::Global;

/// What a registered task stands at: its phases, counted from 0, and the number of its mode.
#[repr(C)]
#[derive(Clone, Copy)]
pub struct Standing {
    pub signal_phase: u64,
    pub wait_phase: u64,
    pub mode: u32,
}

/// Registers a task in a mode that the mode of `parent` holds, at both phases of `parent`, and
/// writes its number.
#[unsafe(no_mangle)]
pub extern "C" fn phase_phaser_register(
    alloc: Global,
    handle: &mut Handle,
    parent: u64,
    mode: u32,
    task: &mut u64,
) -> i32
    ensures good { result ≡ GOOD → (op : Op) (limits : Limits) (h : History) (named : Mode)
        → Holds handle.old.place.phaser op limits h → mode_numbered mode ≡ Some named
        → (task.new ≡ next_task h)
        × Holds handle.new.place.phaser op limits (Registered parent task.new named ∷ h) }
    ensures accepted { (op : Op) (limits : Limits) (h : History) (named : Mode)
        → Holds handle.old.place.phaser op limits h → mode_numbered mode ≡ Some named
        → register_refusal h parent (next_task h) named ≡ None
        → (result ≡ GOOD) ⊎ (result ≡ OUT_OF_MEMORY) }
    ensures refused { (op : Op) (limits : Limits) (h : History) (named : Mode)
        (refusal : RegisterRefusal)
        → Holds handle.old.place.phaser op limits h → mode_numbered mode ≡ Some named
        → register_refusal h parent (next_task h) named ≡ Some refusal
        → result ≡ register_number refusal }

    ensures no_phaser { handle.old.place.phaser ≡ None → result ≡ NO_PHASER }
    ensures bad_mode { IsSome handle.old.place.phaser → mode_numbered mode ≡ None
        → result ≡ BAD_MODE }
    ensures same { result ≢ GOOD
        → (handle.new.place.phaser ≡ handle.old.place.phaser) × (task.new ≡ task.old) }
{
    if !handle.live {
        return NO_PHASER;
    }
    let Some(named) = mode_of(mode) else {
        return BAD_MODE;
    };
    match handle.register(alloc, parent, named) {
        Ok(child) => {
            *task = child;
            GOOD
        }
        Err(RegisterRefusal::OutOfMemory) => OUT_OF_MEMORY,
        Err(refusal) => register_code(refusal),
    }
}

/// Registers a task as a waiter at the first phase that is not complete, and writes its number and
/// that phase.
#[unsafe(no_mangle)]
pub extern "C" fn phase_phaser_register_now(
    alloc: Global,
    handle: &mut Handle,
    parent: u64,
    task: &mut u64,
    phase: &mut u64,
) -> i32
    ensures good { result ≡ GOOD → (op : Op) (limits : Limits) (h : History)
        → Holds handle.old.place.phaser op limits h
        → (task.new ≡ next_task h) × (phase.new ≡ done_of h)
        × Holds handle.new.place.phaser op limits (RegisteredNow parent task.new ∷ h) }
    ensures accepted { (op : Op) (limits : Limits) (h : History)
        → Holds handle.old.place.phaser op limits h
        → register_now_refusal h parent (next_task h) ≡ None
        → (result ≡ GOOD) ⊎ (result ≡ OUT_OF_MEMORY) }
    ensures refused { (op : Op) (limits : Limits) (h : History) (refusal : RegisterRefusal)
        → Holds handle.old.place.phaser op limits h
        → register_now_refusal h parent (next_task h) ≡ Some refusal
        → result ≡ register_number refusal }

    ensures no_phaser { handle.old.place.phaser ≡ None → result ≡ NO_PHASER }
    ensures same { result ≢ GOOD
        → (handle.new.place.phaser ≡ handle.old.place.phaser)
        × (task.new ≡ task.old) × (phase.new ≡ phase.old) }
{
    if !handle.live {
        return NO_PHASER;
    }
    match handle.register_now(alloc, parent) {
        Ok((child, first)) => {
            *task = child;
            *phase = first;
            GOOD
        }
        Err(RegisterRefusal::OutOfMemory) => OUT_OF_MEMORY,
        Err(refusal) => register_code(refusal),
    }
}

/// Ends a task's registration.
#[unsafe(no_mangle)]
pub extern "C" fn phase_phaser_drop(alloc: Global, handle: &mut Handle, task: u64) -> i32
    ensures accepted { (op : Op) (limits : Limits) (h : History)
        → Holds handle.old.place.phaser op limits h → drop_refusal h task ≡ None
        → (result ≡ GOOD) × Holds handle.new.place.phaser op limits (Dropped task ∷ h) }
    ensures refused { (op : Op) (limits : Limits) (h : History) (refusal : NoTask)
        → Holds handle.old.place.phaser op limits h → drop_refusal h task ≡ Some refusal
        → result ≡ NO_TASK }

    ensures no_phaser { handle.old.place.phaser ≡ None → result ≡ NO_PHASER }
    ensures same { result ≢ GOOD → handle.new.place.phaser ≡ handle.old.place.phaser }
{
    if !handle.live {
        return NO_PHASER;
    }
    match handle.drop_task(alloc, task) {
        Ok(()) => GOOD,
        Err(_) => NO_TASK,
    }
}

/// Writes what a task stands at.
#[unsafe(no_mangle)]
pub extern "C" fn phase_phaser_view(
    alloc: Global,
    handle: &mut Handle,
    task: u64,
    standing: &mut Standing,
) -> i32
    ensures member { (op : Op) (limits : Limits) (h : History) (entry : Entry)
        → Holds handle.old.place.phaser op limits h
        → entry_of (members_of h) task ≡ Some entry
        → (result ≡ GOOD) × (standing.new.mode ≡ mode_number entry.mode)
        × (standing.new.signal_phase ≡ entry.signal_phase)
        × (standing.new.wait_phase ≡ entry.wait_phase) }
    ensures no_task { (op : Op) (limits : Limits) (h : History)
        → Holds handle.old.place.phaser op limits h
        → entry_of (members_of h) task ≡ None → result ≡ NO_TASK }

    ensures no_phaser { handle.old.place.phaser ≡ None → result ≡ NO_PHASER }
    ensures same { handle.new.place.phaser ≡ handle.old.place.phaser }
    ensures unwritten { result ≢ GOOD → standing.new ≡ standing.old }
{
    if !handle.live {
        return NO_PHASER;
    }
    let Some(entry) = handle.view(alloc, task) else {
        return NO_TASK;
    };
    *standing = Standing {
        signal_phase: entry.signal_phase,
        wait_phase: entry.wait_phase,
        mode: mode_code(entry.mode),
    };
    GOOD
}
