//! What C calls for blocks of phases.
ghost use Rattle.std.specs.Prelude.{◌≡◌, ◌≢◌, ◌⊎◌, ℕ, Option, None, IsSome, Ok, length};
ghost use Rattle.phase_base.specs.Limits.{Limits};
ghost use Rattle.phase_accum.specs.Sends.{AreSends};
ghost use Rattle.phase_accum.specs.Values.{value_by};
ghost use Rattle.phase_accum.specs.declared.single.Single.{Single};
ghost use Rattle.phase_history.specs.declared.got.GotBlock.TheVariants as block;
ghost use Rattle.phase_history.specs.Histories.{History};
ghost use Rattle.phase_history.specs.Phases.{stream_of};
ghost use Rattle.phase_history.specs.Replies.{signal_reply, after_signal, wait_block_reply, after_wait_block};
ghost use Rattle.phase_core.specs.Blocks.{one_each};
ghost use Rattle.handle_numbers.specs.Blocks.{numbers_written};
ghost use Rattle.handle_numbers.specs.Numbers.{Names, signal_status, wait_block_status, phase_or};
ghost use Rattle.phase_handle.specs.Phasers.{Holds};
ghost use Rattle.handle_numbers.specs.declared.numbers.TheConstants.{GOOD, ENDED, NO_PHASER, OUT_OF_MEMORY, BAD_SINGLE, BAD_VALUE};

use crate::handle::Handle;
use handle_numbers::numbers::*;
use handle_numbers::{signal_code, single_of, wait_code};
use phase_accum::Op;
use phase_core::{GotBlock, are_sends};
use std::alloc::Global;

/// Signals as many phases in a row as there are values, the first the task's, with one send each
/// and a single for all of them or none, and writes the first phase. The ends are those of a clamp.
///
/// A refused block signals nothing. It takes memory for the sends of the block, and gives it back.
#[unsafe(no_mangle)]
pub extern "C" fn phase_phaser_signal_block(
    alloc: Global,
    handle: &mut Handle,
    task: u64,
    values: &[i64],
    single: u32,
    low: i64,
    high: i64,
    phase: &mut u64,
) -> i32
    ensures call { (op : Op) (limits : Limits) (h : History) (named : Option Single)
        → Holds handle.old.place.phaser op limits h
        → Names single low high named → AreSends values.now
        → (result ≡ signal_status (signal_reply limits h task (one_each values.now) named))
        ⊎ (result ≡ OUT_OF_MEMORY) }
    ensures after { (op : Op) (limits : Limits) (h : History) (named : Option Single)
        → Holds handle.old.place.phaser op limits h
        → Names single low high named → AreSends values.now → result ≢ OUT_OF_MEMORY
        → let reply = signal_reply limits h task (one_each values.now) named in
        Holds handle.new.place.phaser op limits
        (after_signal reply task (one_each values.now) named h)
        × (phase.new ≡ phase_or reply phase.old) }

    ensures no_phaser { handle.old.place.phaser ≡ None → result ≡ NO_PHASER }
    ensures bad_single { IsSome handle.old.place.phaser
        → ((named : Option Single) → Names single low high named → ⊥)
        → result ≡ BAD_SINGLE }
    ensures bad_value { (named : Option Single) → IsSome handle.old.place.phaser
        → Names single low high named → (AreSends values.now → ⊥) → result ≡ BAD_VALUE }
    ensures same { result ≢ GOOD
        → (handle.new.place.phaser ≡ handle.old.place.phaser) × (phase.new ≡ phase.old) }
{
    if !handle.live {
        return NO_PHASER;
    }
    let Some(named) = single_of(single, low, high) else {
        return BAD_SINGLE;
    };
    if !are_sends(values) {
        return BAD_VALUE;
    }
    match handle.signal_block(alloc, task, values, named) {
        Ok(Ok(first)) => {
            *phase = first;
            GOOD
        }
        Ok(Err(refusal)) => signal_code(refusal),
        Err(_) => OUT_OF_MEMORY,
    }
}

/// Waits for the task's phase and those behind it that are complete, as many as there are places;
/// writes the first phase, how many there are, and the number of each one's value, in the first
/// places; or answers `ENDED`, where no more will come.
///
/// It never blocks. It takes memory for as many outcomes as there are places, where these are at
/// most `BOUND_MAX`, and gives it back; a wait for more is refused, and takes none.
#[unsafe(no_mangle)]
pub extern "C" fn phase_phaser_wait_block(
    alloc: Global,
    handle: &mut Handle,
    task: u64,
    values: &mut [i64],
    phase: &mut u64,
    count: &mut usize,
) -> i32
    ensures call { (op : Op) (limits : Limits) (h : History)
        → Holds handle.old.place.phaser op limits h
        → (result ≡ wait_block_status (wait_block_reply limits h task (length values.old)))
        ⊎ (result ≡ OUT_OF_MEMORY) }
    ensures after { (op : Op) (limits : Limits) (h : History)
        → Holds handle.old.place.phaser op limits h → result ≢ OUT_OF_MEMORY
        → Holds handle.new.place.phaser op limits
        (after_wait_block (wait_block_reply limits h task (length values.old)) task h) }
    ensures got { (op : Op) (limits : Limits) (h : History) (first many : ℕ)
        → Holds handle.old.place.phaser op limits h → result ≢ OUT_OF_MEMORY
        → wait_block_reply limits h task (length values.old) ≡ Ok (block.Values first many)
        → (phase.new ≡ first) × (count.new ≡ many)
        × (values.new ≡ numbers_written first many (stream_of (value_by op) h) values.old) }

    ensures no_phaser { handle.old.place.phaser ≡ None → result ≡ NO_PHASER }
    ensures unwritten { result ≢ GOOD → (values.new ≡ values.old)
        × (phase.new ≡ phase.old) × (count.new ≡ count.old) }
    ensures same { result ≢ GOOD → result ≢ ENDED
        → handle.new.place.phaser ≡ handle.old.place.phaser }
{
    if !handle.live {
        return NO_PHASER;
    }
    match handle.wait_numbers(alloc, task, values) {
        Ok(
            Ok(
                GotBlock::Values {
                    phase: first,
                    count: many,
                },
            ),
        ) => {
            *phase = first;
            *count = many as usize;
            GOOD
        }
        Ok(Ok(GotBlock::Ended)) => ENDED,
        Ok(Err(refusal)) => wait_code(refusal),
        Err(_) => OUT_OF_MEMORY,
    }
}
