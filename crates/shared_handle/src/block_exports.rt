//! What C calls for blocks of phases.
ghost use Rattle.std.specs.Prelude.{◌≡◌, ◌≢◌, ◌⊎◌, ℤ, Option, Some, None, IsSome};
ghost use Rattle.phase_accum.specs.Sends.{AreSends};
ghost use Rattle.phase_accum.specs.declared.single.Single.{Single};
ghost use Rattle.handle_numbers.specs.Numbers.{Names};
ghost use Rattle.handle_numbers.specs.declared.numbers.TheConstants.{GOOD, BUSY, NO_PHASER, OUT_OF_MEMORY};
ghost use Rattle.shared_handle.specs.AnyMembers.{held_in, asker_in, StillHas};
ghost use Rattle.shared_handle.specs.Told.{RefusedAs, IsBadBlock, TellsBlockSignal, TellsBlockWait};
ghost use Rattle.shared_handle.specs.declared.any_asked.AnyAsked.{AnyAsked};
ghost use Rattle.shared_handle.specs.declared.any_member.AnyMember.{AnyMember};

use crate::handle::Handle;
use crate::told::{told_signal, told_wait_block, write_block, write_signalled};
use crate::words::block_words;
use handle_numbers::numbers::*;
use std::alloc::Global;

/// Signals as many phases in a row as there are values, the first the registration's, with one send
/// each and a single for all of them or none, and writes the first phase. The ends are those of a
/// clamp.
///
/// A refused block signals nothing. It takes memory for the sends of the block, and gives it back.
///
/// Proved: the definition's answer to a signal of the block, whose event has these very values. C
/// owes as many numbers behind `values` as it says.
#[unsafe(no_mangle)]
pub extern "C" fn phase_member_signal_block(
    alloc: Global,
    member: &mut Handle,
    values: &[i64],
    single: u32,
    low: i64,
    high: i64,
    phase: &mut u64,
) -> i32
    ensures call { (m : AnyMember) (named : Option Single)
        → held_in member.old.place.kept ≡ Some m
        → Names single low high named → AreSends values.now
        → RefusedAs OUT_OF_MEMORY result member.old.place.kept member.new.place.kept
        ⊎ StillHas (held_in member.new.place.kept) (λ n.
        TellsBlockSignal values.now named m n result phase.old phase.new) }

    ensures no_phaser { member.old.place.kept ≡ None
        → RefusedAs NO_PHASER result member.old.place.kept member.new.place.kept }
    ensures refused { (status : ℤ) → IsSome member.old.place.kept
        → IsBadBlock values.now single low high status
        → RefusedAs status result member.old.place.kept member.new.place.kept }
    ensures asks { (a : AnyAsked) (named : Option Single)
        → asker_in member.old.place.kept ≡ Some a → Names single low high named
        → AreSends values.now
        → RefusedAs OUT_OF_MEMORY result member.old.place.kept member.new.place.kept
        ⊎ RefusedAs BUSY result member.old.place.kept member.new.place.kept }
    ensures unwritten { result ≢ GOOD → phase.new ≡ phase.old }
{
    if !member.live {
        return NO_PHASER;
    }
    let named = match block_words(values, single, low, high) {
        Ok(named) => named,
        Err(status) => return status,
    };
    let Ok(answer) = member.signal_block(alloc, values, named) else {
        return OUT_OF_MEMORY;
    };
    write_signalled(&answer, phase);
    told_signal(&answer)
}

/// Waits for the registration's phase and those behind it that are complete, as many as there are
/// places; writes the first phase, how many there are, and the number of each one's value, in the
/// first places; or answers `ENDED`, where no more will come.
///
/// It takes memory for as many outcomes as there are places, where these are at most `BOUND_MAX`,
/// and gives it back; a wait for more is refused, and takes none.
///
/// Proved: the definition's answer to a wait for so many phases, and that the places behind the
/// values stay. C owes as many places behind `values` as it says.
#[unsafe(no_mangle)]
pub extern "C" fn phase_member_wait_block(
    alloc: Global,
    member: &mut Handle,
    values: &mut [i64],
    phase: &mut u64,
    count: &mut usize,
) -> i32
    ensures call { (m : AnyMember) → held_in member.old.place.kept ≡ Some m
        → RefusedAs OUT_OF_MEMORY result member.old.place.kept member.new.place.kept
        ⊎ StillHas (held_in member.new.place.kept) (λ n.
        TellsBlockWait values.old values.new m n result phase.old phase.new count.old
        count.new) }

    ensures no_phaser { member.old.place.kept ≡ None
        → RefusedAs NO_PHASER result member.old.place.kept member.new.place.kept }
    ensures asks { (a : AnyAsked) → asker_in member.old.place.kept ≡ Some a
        → RefusedAs OUT_OF_MEMORY result member.old.place.kept member.new.place.kept
        ⊎ RefusedAs BUSY result member.old.place.kept member.new.place.kept }
    ensures unwritten { result ≢ GOOD → (values.new ≡ values.old)
        × (phase.new ≡ phase.old) × (count.new ≡ count.old) }
{
    if !member.live {
        return NO_PHASER;
    }
    let Ok(answer) = member.wait_numbers(alloc, values) else {
        return OUT_OF_MEMORY;
    };
    write_block(&answer, phase, count);
    told_wait_block(&answer)
}
