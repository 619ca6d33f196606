//! Numbers of C as what they name, and what calls answer as numbers.
ghost use Rattle.std.specs.Prelude.{◌≡◌, ℤ, IfSome, Some, None, Option};
ghost use Rattle.phase_accum.specs.declared.single.Single.{Single};
ghost use Rattle.handle_numbers.specs.Numbers.{op_numbered, op_number, mode_numbered, mode_number, register_number, signal_number, wait_number, value_number, Names};

use crate::numbers::*;
use phase_accum::{NO_VALUE, Op, Outcome, Single};
use phase_base::Mode;
use phase_core::{RegisterRefusal, SignalRefusal, WaitRefusal};

/// The operation of a number.
pub fn op_of(number: u32) -> Option<Op>
    ensures { result ≡ op_numbered number }
{
    if number == SUM {
        Some(Op::Sum)
    } else if number == PRODUCT {
        Some(Op::Product)
    } else if number == LEAST {
        Some(Op::Least)
    } else if number == GREATEST {
        Some(Op::Greatest)
    } else if number == ANY {
        Some(Op::Any)
    } else {
        None
    }
}

/// The number of an operation.
pub fn op_code(op: Op) -> u32
    ensures { result ≡ op_number op }
{
    match op {
        Op::Sum => SUM,
        Op::Product => PRODUCT,
        Op::Least => LEAST,
        Op::Greatest => GREATEST,
        Op::Any => ANY,
    }
}

/// The mode of a number.
pub fn mode_of(number: u32) -> Option<Mode>
    ensures { result ≡ mode_numbered number }
{
    if number == SIG {
        Some(Mode::Sig)
    } else if number == WAIT {
        Some(Mode::Wait)
    } else if number == SIG_WAIT {
        Some(Mode::SigWait)
    } else if number == SINGLE {
        Some(Mode::Single)
    } else {
        None
    }
}

/// The number of a mode.
pub fn mode_code(mode: Mode) -> u32
    ensures { result ≡ mode_number mode }
{
    match mode {
        Mode::Sig => SIG,
        Mode::Wait => WAIT,
        Mode::SigWait => SIG_WAIT,
        Mode::Single => SINGLE,
    }
}

/// The single, or none, that is named; or none of both where a number is none of a single, or its
/// ends are none of a range.
pub fn single_of(kind: u32, low: i64, high: i64) -> Option<Option<Single>>
    ensures names { IfSome result (λ named. Names kind low high named) }
    ensures only { (named : Option Single) → Names kind low high named → result ≡ Some named }
    ensures none { result ≡ None → (named : Option Single) → Names kind low high named → ⊥ }
{
    if kind == NONE {
        return Some(None);
    }
    if kind == NEG {
        return Some(Some(Single::Neg));
    }
    if kind == ABS {
        return Some(Some(Single::Abs));
    }
    if kind == HALVE {
        return Some(Some(Single::Halve));
    }
    if kind != CLAMP {
        return None;
    }
    match Single::clamp(low, high) {
        Ok(single) => Some(Some(single)),
        Err(_) => None,
    }
}

/// The number of a phase's value.
pub fn value_code(outcome: Outcome) -> i64
    ensures { result ≡ value_number outcome }
{
    match outcome {
        Outcome::Value(value) => value,
        Outcome::Empty | Outcome::TooBig => NO_VALUE,
    }
}

/// The number of why a registration was refused.
pub fn register_code(refusal: RegisterRefusal) -> i32
    ensures { result ≡ register_number refusal }
{
    match refusal {
        RegisterRefusal::NoTask => NO_TASK,
        RegisterRefusal::NotAllowed => NOT_ALLOWED,
        RegisterRefusal::NotNew => NOT_NEW,
        RegisterRefusal::TooManyTasks => TOO_MANY_TASKS,
        RegisterRefusal::OutOfMemory => OUT_OF_MEMORY,
    }
}

/// The number of why a signal was refused.
pub fn signal_code(refusal: SignalRefusal) -> i32
    ensures { result ≡ signal_number refusal }
{
    match refusal {
        SignalRefusal::NoTask => NO_TASK,
        SignalRefusal::NoSignal => NO_SIGNAL,
        SignalRefusal::NotSingle => NOT_SINGLE,
        SignalRefusal::BadBlock => BAD_BLOCK,
        SignalRefusal::SignalTwice => SIGNAL_TWICE,
        SignalRefusal::Spent => SPENT,
        SignalRefusal::Ahead => AHEAD,
        SignalRefusal::SingleDiffers => SINGLE_DIFFERS,
        SignalRefusal::PhaseFull => PHASE_FULL,
    }
}

/// The number of why a wait was refused.
pub fn wait_code(refusal: WaitRefusal) -> i32
    ensures { result ≡ wait_number refusal }
{
    match refusal {
        WaitRefusal::NoTask => NO_TASK,
        WaitRefusal::NoWait => NO_WAIT,
        WaitRefusal::BadBlock => BAD_BLOCK,
        WaitRefusal::SignalFirst => SIGNAL_FIRST,
        WaitRefusal::NotYet => NOT_YET,
    }
}
