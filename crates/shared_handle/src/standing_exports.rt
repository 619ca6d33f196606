//! What C calls to learn for whom a phaser waits, and to close it.
ghost use Rattle.std.specs.Prelude.{◌≡◌, ◌≢◌, ◌⊎◌, Some, None, IsSome};
ghost use Rattle.handle_numbers.specs.declared.numbers.TheConstants.{GOOD, BUSY, CLOSED, NO_PHASER};
ghost use Rattle.shared_handle.specs.AnyMembers.{held_in, asker_in, StillHas};
ghost use Rattle.shared_handle.specs.Told.{RefusedAs, TellsMissing};
ghost use Rattle.shared_handle.specs.declared.any_asked.AnyAsked.{AnyAsked};
ghost use Rattle.shared_handle.specs.declared.any_member.AnyMember.{AnyMember};

use crate::handle::Handle;
use crate::told::{told_missing, write_counts};
use handle_numbers::numbers::*;
use std::alloc::Global;

/// How many registrations a phaser has, how many of them signal and how many wait, the first phase
/// that is not complete, counted from 0, and how many of those that signal have signalled it.
#[repr(C)]
#[derive(Clone, Copy)]
pub struct Counts {
    pub tasks: u64,
    pub signallers: u64,
    pub waiters: u64,
    pub phase: u64,
    pub signalled: u64,
}

/// Writes how the phaser stands, and into the first places the numbers of those that are missing,
/// as many as there are of both: of the registrations that signal and have not signalled the first
/// phase that is not complete. They are as many as signal less those that have signalled. What
/// stands behind their numbers stays. It makes no event, and takes no memory.
///
/// Proved: the counts and the numbers are those of the history there, and which refusal comes. C
/// owes as many places as it says.
#[unsafe(no_mangle)]
pub extern "C" fn phase_member_missing(
    alloc: Global,
    member: &mut Handle,
    counts: &mut Counts,
    places: &mut [u64],
) -> i32
    ensures call { (m : AnyMember) → held_in member.old.place.kept ≡ Some m
        → StillHas (held_in member.new.place.kept) (λ n.
        TellsMissing places.old places.new m n result counts.old counts.new) }

    ensures no_phaser { member.old.place.kept ≡ None
        → RefusedAs NO_PHASER result member.old.place.kept member.new.place.kept }
    ensures asks { (a : AnyAsked) → asker_in member.old.place.kept ≡ Some a
        → RefusedAs BUSY result member.old.place.kept member.new.place.kept }
    ensures unwritten { result ≢ GOOD
        → (counts.new ≡ counts.old) × (places.new ≡ places.old) }
{
    if !member.live {
        return NO_PHASER;
    }
    let answer = member.missing(alloc, places);
    write_counts(&answer, counts);
    told_missing(&answer)
}

/// Closes the phaser, for ever: from then on `phase_member_closed` is `CLOSED` by each of its
/// registrations. Every other call goes on as before. It takes no turn and no memory.
///
/// It is for a task that fails, for which the others would try for ever. Proved: the registration
/// stays as it is. No contract speaks of who learns of it, and when.
#[unsafe(no_mangle)]
pub extern "C" fn phase_member_close(alloc: Global, member: &mut Handle) -> i32
    ensures good { IsSome member.old.place.kept → result ≡ GOOD }
    ensures no_phaser { member.old.place.kept ≡ None → result ≡ NO_PHASER }
    ensures same { member.new.place.kept ≡ member.old.place.kept }
{
    if !member.live {
        return NO_PHASER;
    }
    member.close(alloc);
    GOOD
}

/// Answers `CLOSED` where the phaser was closed, and else `GOOD`. It takes no turn and no memory.
///
/// Proved: the registration stays as it is. Which of the two it is, no contract says.
#[unsafe(no_mangle)]
pub extern "C" fn phase_member_closed(alloc: Global, member: &mut Handle) -> i32
    ensures known { IsSome member.old.place.kept → (result ≡ GOOD) ⊎ (result ≡ CLOSED) }
    ensures no_phaser { member.old.place.kept ≡ None → result ≡ NO_PHASER }
    ensures same { member.new.place.kept ≡ member.old.place.kept }
{
    if !member.live {
        return NO_PHASER;
    }
    if member.is_closed(alloc) {
        CLOSED
    } else {
        GOOD
    }
}
