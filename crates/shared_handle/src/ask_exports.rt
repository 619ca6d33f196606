//! What C calls to ask for a next phase between two calls: who has the turn may make it.
ghost use Rattle.std.specs.Prelude.{◌≡◌, ◌≢◌, ◌⊎◌, ◌≤◌, length, Option, Some, None, IsSome};
ghost use Rattle.handle_numbers.specs.declared.numbers.TheConstants.{GOOD, ENDED, SIGNALLED, ASKED, BUSY, NO_PHASER, NOT_ASKED, CANNOT_ASK};
ghost use Rattle.shared_handle.specs.AnyMembers.{held_in, asker_in, StillHas, HasAsked};
ghost use Rattle.shared_handle.specs.Told.{RefusedAs, AsksFrom, TellsAskEnd};
ghost use Rattle.shared_handle.specs.declared.any_asked.AnyAsked.{AnyAsked};
ghost use Rattle.shared_handle.specs.declared.any_member.AnyMember.{AnyMember};

use crate::handle::Handle;
use crate::told::{told_next, write_next};
use handle_numbers::numbers::*;
use std::alloc::Global;

/// Asks others for the registration's next phase, with this value or none, where it can: then it
/// answers `ASKED`, and until the ask has ended each call but `phase_member_look`, `_serve`,
/// `_take_back`, `_view` and `_told` answers `BUSY`. It can where the mode signals and waits, there
/// is one value at most, others are registered, and it has a lane. Else it answers `CANNOT_ASK`,
/// and all is as it was. It takes no turn and no memory.
///
/// Proved: it asks with these values, from where it stood. C owes as many numbers behind `values`
/// as it says; and who sleeps while it asks owes a `phase_member_serve` before, that is `ASKED`.
#[unsafe(no_mangle)]
pub extern "C" fn phase_member_ask(alloc: Global, member: &mut Handle, values: &[i64]) -> i32
    ensures asked { (m : AnyMember) → held_in member.old.place.kept ≡ Some m → result ≡ ASKED
        → HasAsked (asker_in member.new.place.kept) (λ a. AsksFrom values.now m a) }
    ensures known { (m : AnyMember) → held_in member.old.place.kept ≡ Some m
        → (result ≡ ASKED) ⊎ (result ≡ CANNOT_ASK) }

    ensures no_phaser { member.old.place.kept ≡ None
        → RefusedAs NO_PHASER result member.old.place.kept member.new.place.kept }
    ensures twice { (a : AnyAsked) → asker_in member.old.place.kept ≡ Some a
        → RefusedAs BUSY result member.old.place.kept member.new.place.kept }
    ensures same { result ≢ ASKED → member.new.place.kept ≡ member.old.place.kept }
{
    if !member.live {
        return NO_PHASER;
    }
    if member.asks(alloc) {
        return BUSY;
    }
    let value = match values {
        [] => None,
        [value] => Some(*value),
        _ => return CANNOT_ASK,
    };
    if member.ask(alloc, value) {
        ASKED
    } else {
        CANNOT_ASK
    }
}

/// Looks whether the next phase that the registration asked for was made: writes it with the number
/// of its value, and the registration rests; or answers `ASKED`. It takes no turn and no memory.
///
/// Proved: where the ask has ended, the answer of a next phase to it, as of `phase_member_next`,
/// from where the registration asked. C owes two places.
#[unsafe(no_mangle)]
pub extern "C" fn phase_member_look(
    alloc: Global,
    member: &mut Handle,
    phase: &mut u64,
    value: &mut i64,
) -> i32
    ensures call { (a : AnyAsked) → asker_in member.old.place.kept ≡ Some a
        → RefusedAs ASKED result member.old.place.kept member.new.place.kept
        ⊎ StillHas (held_in member.new.place.kept) (λ n.
        TellsAskEnd a n result phase.old phase.new value.old value.new) }
    ensures status { (a : AnyAsked) → asker_in member.old.place.kept ≡ Some a
        → (result ≡ ASKED) ⊎ (result ≡ GOOD) }

    ensures no_phaser { member.old.place.kept ≡ None
        → RefusedAs NO_PHASER result member.old.place.kept member.new.place.kept }
    ensures rests { (m : AnyMember) → held_in member.old.place.kept ≡ Some m
        → RefusedAs NOT_ASKED result member.old.place.kept member.new.place.kept }
    ensures unwritten { result ≢ GOOD → value.new ≡ value.old }
    ensures no_phase { result ≢ GOOD → result ≢ SIGNALLED → result ≢ ENDED
        → phase.new ≡ phase.old }
{
    if !member.live {
        return NO_PHASER;
    }
    let answer = match member.look(alloc) {
        Ok(answer) => answer,
        Err(status) => return status,
    };
    write_next(&answer, phase, value);
    told_next(&answer)
}

/// Takes the turn, where it is free: makes the signal of the registration that asks, and those that
/// others ask for, looks so often whether others ask, and where the phase is complete makes the
/// waits of all. Then it writes the phase with the number of its value, or tells a signal's
/// refusal, and the registration rests. Else it asks still: `ASKED`, where its signal is made, and
/// `BUSY`, where the turn was another's. It takes no memory.
///
/// Proved and owed is what is of `phase_member_look`.
#[unsafe(no_mangle)]
pub extern "C" fn phase_member_serve(
    alloc: Global,
    member: &mut Handle,
    looks: u32,
    phase: &mut u64,
    value: &mut i64,
) -> i32
    ensures call { (a : AnyAsked) → asker_in member.old.place.kept ≡ Some a
        → RefusedAs ASKED result member.old.place.kept member.new.place.kept
        ⊎ (RefusedAs BUSY result member.old.place.kept member.new.place.kept
        ⊎ StillHas (held_in member.new.place.kept) (λ n.
        TellsAskEnd a n result phase.old phase.new value.old value.new)) }
    ensures status { (a : AnyAsked) → asker_in member.old.place.kept ≡ Some a
        → (result ≢ SIGNALLED) × (result ≢ ENDED) }

    ensures no_phaser { member.old.place.kept ≡ None
        → RefusedAs NO_PHASER result member.old.place.kept member.new.place.kept }
    ensures rests { (m : AnyMember) → held_in member.old.place.kept ≡ Some m
        → RefusedAs NOT_ASKED result member.old.place.kept member.new.place.kept }
    ensures unwritten { result ≢ GOOD → value.new ≡ value.old }
    ensures no_phase { result ≢ GOOD → result ≢ SIGNALLED → result ≢ ENDED
        → phase.new ≡ phase.old }
{
    if !member.live {
        return NO_PHASER;
    }
    let answer = match member.serve(alloc, looks) {
        Ok(answer) => answer,
        Err(status) => return status,
    };
    write_next(&answer, phase, value);
    told_next(&answer)
}

/// Takes back what the registration asked for, where the turn is free, and it rests: `SIGNALLED`,
/// where its signal is made and its wait still to be; or as `phase_member_serve` ends. Else the
/// turn was another's: `BUSY`, and it asks still. It takes no memory.
///
/// Proved and owed is what is of `phase_member_look`.
#[unsafe(no_mangle)]
pub extern "C" fn phase_member_take_back(
    alloc: Global,
    member: &mut Handle,
    phase: &mut u64,
    value: &mut i64,
) -> i32
    ensures call { (a : AnyAsked) → asker_in member.old.place.kept ≡ Some a
        → RefusedAs BUSY result member.old.place.kept member.new.place.kept
        ⊎ StillHas (held_in member.new.place.kept) (λ n.
        TellsAskEnd a n result phase.old phase.new value.old value.new) }
    ensures status { (a : AnyAsked) → asker_in member.old.place.kept ≡ Some a
        → result ≢ ENDED }

    ensures no_phaser { member.old.place.kept ≡ None
        → RefusedAs NO_PHASER result member.old.place.kept member.new.place.kept }
    ensures rests { (m : AnyMember) → held_in member.old.place.kept ≡ Some m
        → RefusedAs NOT_ASKED result member.old.place.kept member.new.place.kept }
    ensures unwritten { result ≢ GOOD → value.new ≡ value.old }
    ensures no_phase { result ≢ GOOD → result ≢ SIGNALLED → result ≢ ENDED
        → phase.new ≡ phase.old }
{
    if !member.live {
        return NO_PHASER;
    }
    let answer = match member.take_back(alloc) {
        Ok(answer) => answer,
        Err(status) => return status,
    };
    write_next(&answer, phase, value);
    told_next(&answer)
}
