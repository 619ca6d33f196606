//! What C calls to have a phaser, and for single phases.
ghost use Rattle.std.specs.Prelude.{◌≡◌, ◌≢◌, ◌≤◌, ◌<◌, ◌⊎◌, ℤ, Option, Some, None, IsSome, IfOk, length};
ghost use Rattle.phase_base.specs.Limits.{limits, IsBound};
ghost use Rattle.phase_base.specs.declared.limits.TheConstants.{BOUND_MAX, PHASES_MAX, SENDS_MAX};
ghost use Rattle.phase_base.specs.declared.operation.Op.{Op};
ghost use Rattle.phase_accum.specs.Sends.{AreSends};
ghost use Rattle.phase_accum.specs.declared.single.Single.{Single};
ghost use Rattle.handle_numbers.specs.Numbers.{op_numbered, Names};
ghost use Rattle.handle_numbers.specs.declared.numbers.TheConstants.{GOOD, ENDED, SIGNALLED, BUSY, NO_PHASER, HAS_PHASER, BAD_OPERATION, BAD_BOUND, BAD_PHASES, OUT_OF_MEMORY};
ghost use Rattle.shared_handle.specs.AnyMembers.{op_in, state_in, held_in, asker_in, StillHas};
ghost use Rattle.shared_handle.specs.Members.{IsFounding};
ghost use Rattle.shared_handle.specs.Told.{RefusedAs, IsBadSignal, TellsSignal, TellsNext, TellsWait};
ghost use Rattle.shared_handle.specs.declared.any_asked.AnyAsked.{AnyAsked};
ghost use Rattle.shared_handle.specs.declared.any_member.AnyMember.{AnyMember};

use crate::any_member::AnyMember;
use crate::handle::Handle;
use crate::kept::{Held, Kept};
use crate::told::{told_next, told_signal, told_wait, write_got, write_next, write_signalled};
use crate::words::signal_words;
use handle_numbers::numbers::*;
use handle_numbers::op_of;
use phase_accum::Op;
use phase_base::{Spec, SpecFault};
use std::alloc::{AllocError, Global};

/// Makes a phaser and its founder, in a block.
fn founder_of(alloc: Global, op: Op, limits: Spec) -> Result<Box<Kept, Global>, AllocError>
    ensures { IfOk result (λ made. StillHas (held_in (Some made.value)) (λ m. (op_in m ≡ op)
        × IsFounding limits (state_in m))) }
{
    let mut kept = Box::new(
        alloc,
        Kept {
            held: Held::Nothing,
        },
    )?;
    kept.held = Held::Rests(AnyMember::make(alloc, op, limits)?);
    Ok(kept)
}

/// Makes a phaser under an operation, whose signallers may be `bound` phases ahead of its slowest
/// waiter, and which has at most `phases` phases, and gives its founder, number 0, in `Single` at
/// phase 0. It takes memory: all that signals and waits will ever need.
///
/// Proved: a founder of a phaser with these limits and this operation, and which refusal comes. C
/// owes a handle that was zeroed, or whose registration was left.
#[unsafe(no_mangle)]
pub extern "C" fn phase_member_new(
    alloc: Global,
    operation: u32,
    bound: u64,
    phases: u64,
    founder: &mut Handle,
) -> i32
    ensures good { result ≡ GOOD → (op : Op) → op_numbered operation ≡ Some op
        → StillHas (held_in founder.new.place.kept) (λ m. (op_in m ≡ op)
        × IsFounding (limits bound phases) (state_in m)) }
    ensures known { result ≡ GOOD → IsSome (op_numbered operation) }
    ensures has_phaser { IsSome founder.old.place.kept → result ≡ HAS_PHASER }
    ensures bad_operation { founder.old.place.kept ≡ None → op_numbered operation ≡ None
        → result ≡ BAD_OPERATION }
    ensures bad_bound { founder.old.place.kept ≡ None → IsSome (op_numbered operation)
        → (bound < 1) ⊎ (BOUND_MAX < bound) → result ≡ BAD_BOUND }
    ensures bad_phases { founder.old.place.kept ≡ None → IsSome (op_numbered operation)
        → IsBound bound → (phases < 1) ⊎ (PHASES_MAX < phases) → result ≡ BAD_PHASES }
    ensures accepted { founder.old.place.kept ≡ None → IsSome (op_numbered operation)
        → IsBound bound → 1 ≤ phases → phases ≤ PHASES_MAX
        → (result ≡ GOOD) ⊎ (result ≡ OUT_OF_MEMORY) }
    ensures same { result ≢ GOOD → founder.new.place.kept ≡ founder.old.place.kept }
{
    if founder.live {
        return HAS_PHASER;
    }
    let Some(op) = op_of(operation) else {
        return BAD_OPERATION;
    };
    let spec = match Spec::new(bound, phases) {
        Ok(spec) => spec,
        Err(SpecFault::BadBound) => return BAD_BOUND,
        Err(SpecFault::BadPhases) => return BAD_PHASES,
    };
    let Ok(kept) = founder_of(alloc, op, spec) else {
        return OUT_OF_MEMORY;
    };
    founder.put(kept);
    GOOD
}

/// Signals the registration's phase with these sends and a single or none, and writes that phase.
/// The ends are those of a clamp. It takes no memory.
///
/// Proved: the definition's answer to a signal of these values, and which refusal comes first. What
/// a refused signal named is in no phase. C owes as many numbers behind `values` as it says.
#[unsafe(no_mangle)]
pub extern "C" fn phase_member_signal(
    alloc: Global,
    member: &mut Handle,
    values: &[i64],
    single: u32,
    low: i64,
    high: i64,
    phase: &mut u64,
) -> i32
    ensures call { (m : AnyMember) (named : Option Single)
        → held_in member.old.place.kept ≡ Some m
        → Names single low high named
        → AreSends values.now → length values.now ≤ SENDS_MAX
        → StillHas (held_in member.new.place.kept) (λ n.
        TellsSignal values.now named m n result phase.old phase.new) }

    ensures no_phaser { member.old.place.kept ≡ None
        → RefusedAs NO_PHASER result member.old.place.kept member.new.place.kept }
    ensures refused { (status : ℤ) → IsSome member.old.place.kept
        → IsBadSignal values.now single low high status
        → RefusedAs status result member.old.place.kept member.new.place.kept }
    ensures asks { (a : AnyAsked) (named : Option Single)
        → asker_in member.old.place.kept ≡ Some a → Names single low high named
        → AreSends values.now → length values.now ≤ SENDS_MAX
        → RefusedAs BUSY result member.old.place.kept member.new.place.kept }
    ensures unwritten { result ≢ GOOD → phase.new ≡ phase.old }
{
    if !member.live {
        return NO_PHASER;
    }
    let named = match signal_words(values, single, low, high) {
        Ok(named) => named,
        Err(status) => return status,
    };
    let answer = member.signal(alloc, values, named);
    write_signalled(&answer, phase);
    told_signal(&answer)
}

/// Signals the registration's phase, as `phase_member_signal` does, and then waits for its phase
/// where that is answered at once: both under one turn. It answers `GOOD` with the phase and the
/// number of its value, or `SIGNALLED` with the phase alone, whose wait is still to be made where
/// the mode waits. It takes no memory.
///
/// Proved: the definition's answers to both; and where it is `SIGNALLED`, that a wait would be
/// refused there. C owes what it owes `phase_member_signal`.
#[unsafe(no_mangle)]
pub extern "C" fn phase_member_next(
    alloc: Global,
    member: &mut Handle,
    values: &[i64],
    single: u32,
    low: i64,
    high: i64,
    phase: &mut u64,
    value: &mut i64,
) -> i32
    ensures call { (m : AnyMember) (named : Option Single)
        → held_in member.old.place.kept ≡ Some m
        → Names single low high named
        → AreSends values.now → length values.now ≤ SENDS_MAX
        → StillHas (held_in member.new.place.kept) (λ n.
        TellsNext values.now named m n result phase.old phase.new value.old value.new) }

    ensures no_phaser { member.old.place.kept ≡ None
        → RefusedAs NO_PHASER result member.old.place.kept member.new.place.kept }
    ensures refused { (status : ℤ) → IsSome member.old.place.kept
        → IsBadSignal values.now single low high status
        → RefusedAs status result member.old.place.kept member.new.place.kept }
    ensures asks { (a : AnyAsked) (named : Option Single)
        → asker_in member.old.place.kept ≡ Some a → Names single low high named
        → AreSends values.now → length values.now ≤ SENDS_MAX
        → RefusedAs BUSY result member.old.place.kept member.new.place.kept }
    ensures unwritten { result ≢ GOOD → value.new ≡ value.old }
    ensures no_phase { result ≢ GOOD → result ≢ SIGNALLED → result ≢ ENDED
        → phase.new ≡ phase.old }
{
    if !member.live {
        return NO_PHASER;
    }
    let named = match signal_words(values, single, low, high) {
        Ok(named) => named,
        Err(status) => return status,
    };
    let answer = member.next(alloc, values, named);
    write_next(&answer, phase, value);
    told_next(&answer)
}

/// Waits for the registration's phase, and writes it with the number of its value; or answers
/// `ENDED`, where no more will come. It takes no memory.
///
/// Proved: the definition's answer to a wait, with the phase and its value. C owes two places.
#[unsafe(no_mangle)]
pub extern "C" fn phase_member_wait(
    alloc: Global,
    member: &mut Handle,
    phase: &mut u64,
    value: &mut i64,
) -> i32
    ensures call { (m : AnyMember) → held_in member.old.place.kept ≡ Some m
        → StillHas (held_in member.new.place.kept) (λ n.
        TellsWait m n result phase.old phase.new value.old value.new) }

    ensures no_phaser { member.old.place.kept ≡ None
        → RefusedAs NO_PHASER result member.old.place.kept member.new.place.kept }
    ensures asks { (a : AnyAsked) → asker_in member.old.place.kept ≡ Some a
        → RefusedAs BUSY result member.old.place.kept member.new.place.kept }
    ensures unwritten { result ≢ GOOD → (phase.new ≡ phase.old) × (value.new ≡ value.old) }
{
    if !member.live {
        return NO_PHASER;
    }
    let answer = member.wait(alloc);
    write_got(&answer, phase, value);
    told_wait(&answer)
}
