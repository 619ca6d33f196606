//! What a try is answered, as a number, and what of it is written.
ghost use Rattle.std.specs.Prelude.{◌≡◌};
ghost use Rattle.handle_numbers.specs.Numbers.{signal_status, wait_status, wait_block_status, phase_or};
ghost use Rattle.shared_handle.specs.Told.{tried_status, next_status, missing_status, phase_signalled, value_after, phase_got, value_got, first_got, count_got, counts_told};

use crate::standing_exports::Counts;
use handle_numbers::numbers::*;
use handle_numbers::{signal_code, value_code, wait_code};
use phase_core::{Got, GotBlock, NoTask, SignalRefusal, Standing, WaitRefusal};
use phase_shared::Tried;

/// The number of what a signal is answered.
pub fn told_signal(answer: &Result<u64, Tried<SignalRefusal>>) -> i32
    ensures { result ≡ tried_status signal_status answer.now }
{
    match answer {
        Ok(_) => GOOD,
        Err(Tried::Busy) => BUSY,
        Err(Tried::Refused(refusal)) => signal_code(*refusal),
    }
}

/// The number of what a next phase is answered.
pub fn told_next(answer: &Result<(u64, Option<Got>), Tried<SignalRefusal>>) -> i32
    ensures { result ≡ tried_status next_status answer.now }
{
    match answer {
        Ok(
            (
                _,
                Some(
                    Got::Value {
                        phase: _,
                        outcome: _,
                    },
                ),
            ),
        ) => GOOD,
        Ok((_, Some(Got::Ended))) => ENDED,
        Ok((_, None)) => SIGNALLED,
        Err(Tried::Busy) => BUSY,
        Err(Tried::Refused(refusal)) => signal_code(*refusal),
    }
}

/// The number of what a wait is answered.
pub fn told_wait(answer: &Result<Got, Tried<WaitRefusal>>) -> i32
    ensures { result ≡ tried_status wait_status answer.now }
{
    match answer {
        Ok(
            Got::Value {
                phase: _,
                outcome: _,
            },
        ) => GOOD,
        Ok(Got::Ended) => ENDED,
        Err(Tried::Busy) => BUSY,
        Err(Tried::Refused(refusal)) => wait_code(*refusal),
    }
}

/// The number of what a wait for a block is answered.
pub fn told_wait_block(answer: &Result<GotBlock, Tried<WaitRefusal>>) -> i32
    ensures { result ≡ tried_status wait_block_status answer.now }
{
    match answer {
        Ok(GotBlock::Values { phase: _, count: _ }) => GOOD,
        Ok(GotBlock::Ended) => ENDED,
        Err(Tried::Busy) => BUSY,
        Err(Tried::Refused(refusal)) => wait_code(*refusal),
    }
}

/// The number of what is answered to who asks how a phaser stands.
pub fn told_missing(answer: &Result<Standing, Tried<NoTask>>) -> i32
    ensures { result ≡ tried_status missing_status answer.now }
{
    match answer {
        Ok(_) => GOOD,
        Err(Tried::Busy) => BUSY,
        Err(Tried::Refused(_)) => NO_TASK,
    }
}

/// Writes the phase, where one was signalled.
pub fn write_signalled(answer: &Result<u64, Tried<SignalRefusal>>, phase: &mut u64)
    ensures { phase.new ≡ phase_or answer.now phase.old }
{
    if let Ok(signalled) = answer {
        *phase = *signalled;
    }
}

/// Writes the phase, where one was signalled, and the number of its value, where that was got.
pub fn write_next(
    answer: &Result<(u64, Option<Got>), Tried<SignalRefusal>>,
    phase: &mut u64,
    value: &mut i64,
)
    ensures phase { phase.new ≡ phase_signalled answer.now phase.old }
    ensures value { value.new ≡ value_after answer.now value.old }
{
    if let Ok((signalled, got)) = answer {
        *phase = *signalled;
        if let Some(Got::Value { phase: _, outcome }) = got {
            *value = value_code(*outcome);
        }
    }
}

/// Writes the phase and the number of its value, where one was got.
pub fn write_got(answer: &Result<Got, Tried<WaitRefusal>>, phase: &mut u64, value: &mut i64)
    ensures phase { phase.new ≡ phase_got answer.now phase.old }
    ensures value { value.new ≡ value_got answer.now value.old }
{
    if let Ok(
        Got::Value {
            phase: first,
            outcome,
        },
    ) = answer
    {
        *phase = *first;
        *value = value_code(*outcome);
    }
}

/// Writes the first phase and how many there are, where values were got.
pub fn write_block(
    answer: &Result<GotBlock, Tried<WaitRefusal>>,
    phase: &mut u64,
    count: &mut usize,
)
    ensures phase { phase.new ≡ first_got answer.now phase.old }
    ensures count { count.new ≡ count_got answer.now count.old }
{
    if let Ok(
        GotBlock::Values {
            phase: first,
            count: many,
        },
    ) = answer
    {
        *phase = *first;
        *count = *many as usize;
    }
}

/// Writes how a phaser stands, where that was told.
pub fn write_counts(answer: &Result<Standing, Tried<NoTask>>, counts: &mut Counts)
    ensures { counts.new ≡ counts_told answer.now counts.old }
{
    if let Ok(standing) = answer {
        *counts = Counts {
            tasks: standing.tasks,
            signallers: standing.signallers,
            waiters: standing.waiters,
            phase: standing.phase,
            signalled: standing.signalled,
        };
    }
}
