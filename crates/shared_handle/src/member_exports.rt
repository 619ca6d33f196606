//! What C calls to have registrations come and go, and to read what they stand at.
ghost use Rattle.std.specs.Prelude.{◌≡◌, ◌≢◌, ◌⊎◌, Some, None, IsSome, IfOk, OnErr};
ghost use Rattle.phase_base.specs.declared.mode.Mode.{Mode};
ghost use Rattle.handle_numbers.specs.Numbers.{mode_numbered};
ghost use Rattle.handle_numbers.specs.declared.numbers.TheConstants.{GOOD, BUSY, NO_PHASER, HAS_PHASER, BAD_MODE, OUT_OF_MEMORY};
ghost use Rattle.shared_handle.specs.AnyMembers.{state_in, asked_state, held_in, asker_in, StillHas};
ghost use Rattle.shared_handle.specs.Calls.{AddCall, AddNowCall};
ghost use Rattle.shared_handle.specs.Members.{IsInItsHistory, IsOnlyOne, HasLeft};
ghost use Rattle.shared_handle.specs.Told.{RefusedAs, TellsRegister, IsStanding, IsAskedAt, tried_status, register_status, start_got};
ghost use Rattle.shared_handle.specs.declared.any_asked.AnyAsked.{AnyAsked};
ghost use Rattle.shared_handle.specs.declared.any_member.AnyMember.{AnyMember};

use crate::any_member::AnyMember;
use crate::handle::Handle;
use crate::kept::{Held, Kept};
use handle_numbers::numbers::*;
use handle_numbers::{mode_of, register_code};
use phase_core::RegisterRefusal;
use phase_shared::Tried;
use std::alloc::Global;

/// Where a registration stands: its number, its phases, counted from 0, and the numbers of its mode
/// and of its phaser's operation.
#[repr(C)]
#[derive(Clone, Copy)]
pub struct Standing {
    pub number: u64,
    pub signal_phase: u64,
    pub wait_phase: u64,
    pub mode: u32,
    pub operation: u32,
}

/// Puts a child behind its handle, where there is one, and tells the status of its registration.
fn give(
    child: &mut Handle,
    room: Box<Kept, Global>,
    answer: Result<AnyMember, Tried<RegisterRefusal>>,
) -> i32
    requires { child.old.place.kept ≡ None }
    ensures status { result ≡ tried_status register_status answer }
    ensures child { IfOk answer (λ member. held_in child.new.place.kept ≡ Some member) }
    ensures none { OnErr answer (child.new.place.kept ≡ child.old.place.kept) }
{
    match answer {
        Ok(member) => {
            child.put_member(room, member);
            GOOD
        }
        Err(Tried::Busy) => BUSY,
        Err(Tried::Refused(refusal)) => register_code(refusal),
    }
}

/// Writes the phase that a child waits for first, where there is one.
fn write_start(answer: &Result<AnyMember, Tried<RegisterRefusal>>, phase: &mut u64)
    ensures { phase.new ≡ start_got answer.now phase.old }
{
    if let Ok(member) = answer {
        *phase = member.entry().wait_phase;
    }
}

/// Registers a child in a mode that the mode of `parent` holds, at both phases of `parent`, and
/// gives it to a handle that has none. It takes memory.
///
/// A registration that was refused as `OUT_OF_MEMORY` can be made again. Proved: the definition's
/// answer; the child is on its parent's phaser, has a number that nobody had, and has seen what its
/// parent has. C owes two handles.
#[unsafe(no_mangle)]
pub extern "C" fn phase_member_register(
    alloc: Global,
    parent: &mut Handle,
    mode: u32,
    child: &mut Handle,
) -> i32
    ensures call { (m : AnyMember) (named : Mode) → held_in parent.old.place.kept ≡ Some m
        → child.old.place.kept ≡ None → mode_numbered mode ≡ Some named
        → RefusedAs OUT_OF_MEMORY result parent.old.place.kept parent.new.place.kept
        ⊎ StillHas (held_in parent.new.place.kept) (λ n. TellsRegister (AddCall named) m n result
        child.old.place.kept child.new.place.kept) }

    ensures no_phaser { parent.old.place.kept ≡ None
        → RefusedAs NO_PHASER result parent.old.place.kept parent.new.place.kept }
    ensures has_phaser { IsSome parent.old.place.kept → IsSome child.old.place.kept
        → RefusedAs HAS_PHASER result parent.old.place.kept parent.new.place.kept }
    ensures bad_mode { IsSome parent.old.place.kept → child.old.place.kept ≡ None
        → mode_numbered mode ≡ None
        → RefusedAs BAD_MODE result parent.old.place.kept parent.new.place.kept }
    ensures asks { (a : AnyAsked) (named : Mode) → asker_in parent.old.place.kept ≡ Some a
        → child.old.place.kept ≡ None → mode_numbered mode ≡ Some named
        → RefusedAs OUT_OF_MEMORY result parent.old.place.kept parent.new.place.kept
        ⊎ RefusedAs BUSY result parent.old.place.kept parent.new.place.kept }
    ensures none { result ≢ GOOD → child.new.place.kept ≡ child.old.place.kept }
{
    if !parent.live {
        return NO_PHASER;
    }
    if child.live {
        return HAS_PHASER;
    }
    let Some(named) = mode_of(mode) else {
        return BAD_MODE;
    };
    let Ok(room) = Box::new(
        alloc,
        Kept {
            held: Held::Nothing,
        },
    ) else {
        return OUT_OF_MEMORY;
    };
    let Ok(answer) = parent.register(alloc, named) else {
        return OUT_OF_MEMORY;
    };
    give(child, room, answer)
}

/// Registers a child as a waiter at the first phase that is not complete, which the mode of
/// `parent` has to hold, gives it to a handle that has none, and writes that phase. It takes
/// memory.
///
/// A registration that was refused as `OUT_OF_MEMORY` can be made again. Proved and owed is what is
/// of `phase_member_register`; and the phase is the first that is not complete there.
#[unsafe(no_mangle)]
pub extern "C" fn phase_member_register_now(
    alloc: Global,
    parent: &mut Handle,
    child: &mut Handle,
    phase: &mut u64,
) -> i32
    ensures call { (m : AnyMember) → held_in parent.old.place.kept ≡ Some m
        → child.old.place.kept ≡ None
        → RefusedAs OUT_OF_MEMORY result parent.old.place.kept parent.new.place.kept
        ⊎ StillHas (held_in parent.new.place.kept) (λ n. TellsRegister AddNowCall m n result
        child.old.place.kept child.new.place.kept) }
    ensures good { result ≡ GOOD → StillHas (held_in child.new.place.kept) (λ c.
        phase.new ≡ (state_in c).entry.wait_phase) }

    ensures no_phaser { parent.old.place.kept ≡ None
        → RefusedAs NO_PHASER result parent.old.place.kept parent.new.place.kept }
    ensures has_phaser { IsSome parent.old.place.kept → IsSome child.old.place.kept
        → RefusedAs HAS_PHASER result parent.old.place.kept parent.new.place.kept }
    ensures asks { (a : AnyAsked) → asker_in parent.old.place.kept ≡ Some a
        → child.old.place.kept ≡ None
        → RefusedAs OUT_OF_MEMORY result parent.old.place.kept parent.new.place.kept
        ⊎ RefusedAs BUSY result parent.old.place.kept parent.new.place.kept }
    ensures none { result ≢ GOOD
        → (child.new.place.kept ≡ child.old.place.kept) × (phase.new ≡ phase.old) }
{
    if !parent.live {
        return NO_PHASER;
    }
    if child.live {
        return HAS_PHASER;
    }
    let Ok(room) = Box::new(
        alloc,
        Kept {
            held: Held::Nothing,
        },
    ) else {
        return OUT_OF_MEMORY;
    };
    let Ok(answer) = parent.register_now(alloc) else {
        return OUT_OF_MEMORY;
    };
    write_start(&answer, phase);
    give(child, room, answer)
}

/// Ends the registration. The handle has none then; or it answers `BUSY`, and all is as it was. It
/// takes no memory. Whoever leaves last frees the phaser.
///
/// Proved: where it is good, the registration's drop is the last event of a legal history. C owes
/// that it makes the call again where it is `BUSY`, or the registration stays for ever.
#[unsafe(no_mangle)]
pub extern "C" fn phase_member_leave(alloc: Global, member: &mut Handle) -> i32
    ensures left { (m : AnyMember) → held_in member.old.place.kept ≡ Some m → result ≡ GOOD
        → HasLeft (state_in m) }
    ensures none { result ≡ GOOD → member.new.place.kept ≡ None }
    ensures busy { IsSome member.old.place.kept → (result ≡ GOOD) ⊎ (result ≡ BUSY) }
    // Where it is the only one that it has seen, nobody is in its way.
    ensures alone { (m : AnyMember) → held_in member.old.place.kept ≡ Some m
        → IsOnlyOne (state_in m) → result ≡ GOOD }

    ensures asks { (a : AnyAsked) → asker_in member.old.place.kept ≡ Some a → result ≡ BUSY }
    ensures no_phaser { member.old.place.kept ≡ None → result ≡ NO_PHASER }
    ensures same { result ≢ GOOD → member.new.place.kept ≡ member.old.place.kept }
{
    if !member.live {
        return NO_PHASER;
    }
    if member.leave(alloc) { GOOD } else { BUSY }
}

/// Writes where the registration stands. It takes no turn.
///
/// Proved: its number, mode and phases are those of the history that it has seen, where no other
/// can move it.
#[unsafe(no_mangle)]
pub extern "C" fn phase_member_view(
    alloc: Global,
    member: &mut Handle,
    standing: &mut Standing,
) -> i32
    ensures good { (m : AnyMember) → held_in member.old.place.kept ≡ Some m
        → (result ≡ GOOD) × IsStanding m standing.new }
    // It stands there in the history that it has seen.
    ensures member { (m : AnyMember) → held_in member.old.place.kept ≡ Some m
        → IsInItsHistory (state_in m) }
    // One that asks stands there as it did before.
    ensures asks { (a : AnyAsked) → asker_in member.old.place.kept ≡ Some a
        → (result ≡ GOOD) × IsAskedAt a standing.new × IsInItsHistory (asked_state a).reg }

    ensures no_phaser { member.old.place.kept ≡ None → result ≡ NO_PHASER }
    ensures same { member.new.place.kept ≡ member.old.place.kept }
    ensures unwritten { result ≢ GOOD → standing.new ≡ standing.old }
{
    if !member.live {
        return NO_PHASER;
    }
    *standing = member.standing(alloc);
    GOOD
}

/// Writes how far the phaser is, by the turns that have ended: the phases below `done` are
/// complete, and every waiter got those below `base`. Each is 2^64 - 1 where nobody is left to wait
/// for. It takes no turn.
///
/// It is a hint for when to try again, and no contract speaks of the numbers. C owes two places.
#[unsafe(no_mangle)]
pub extern "C" fn phase_member_told(
    alloc: Global,
    member: &mut Handle,
    done: &mut u64,
    base: &mut u64,
) -> i32
    ensures good { IsSome member.old.place.kept → result ≡ GOOD }
    ensures no_phaser { member.old.place.kept ≡ None → result ≡ NO_PHASER }
    ensures same { member.new.place.kept ≡ member.old.place.kept }
    ensures unwritten { result ≢ GOOD → (done.new ≡ done.old) × (base.new ≡ base.old) }
{
    if !member.live {
        return NO_PHASER;
    }
    let told = member.told(alloc);
    *done = told.0;
    *base = told.1;
    GOOD
}
