//! What words beside a phaser's lock say.
ghost use Rattle.std.specs.Prelude.{◌≡◌, ◌<◌, ◌≢◌};
ghost use Rattle.phase_accum.specs.Parcels.{StandsForSends};
ghost use Rattle.phase_shared.specs.Lanes as lanes;

use phase_accum::{Accumulate, Outcome, Pending};

/// How many lanes there are.
pub const LANES: u64 = 16;

/// The word of a lane that says that nothing is sent.
pub const NO_SEND: u64 = u64::MAX;

// The words of the board: the number of the value of the last phase that was told, and whether it
// is one.
pub const NUMBER: usize = 0;

pub const KIND: usize = 1;

pub const IS_VALUE: u64 = 0;

pub const IS_EMPTY: u64 = 1;

pub const IS_TOO_BIG: u64 = 2;

/// Where a lane says which phase is asked for, and one more.
pub fn phase_place(lane: u64) -> usize
    requires { lane < LANES }
    ensures value { result ≡ lanes.phase_place lane }
    ensures small { result < 287 }
{
    (lane * 16 + 15) as usize
}

/// Where it says what is sent.
pub fn send_place(lane: u64) -> usize
    requires { lane < LANES }
    ensures value { result ≡ lanes.send_place lane }
    ensures small { result < 287 }
{
    (lane * 16 + 16) as usize
}

/// Where it is said whose it is: its task's number and one more, and 0 where it is nobody's.
pub fn owner_place(lane: u64) -> usize
    requires { lane < LANES }
    ensures value { result ≡ lanes.owner_place lane }
    ensures small { result < 287 }
{
    (lane + 271) as usize
}

/// A number as a word. Those that are not negative are the even words.
pub fn word_of(value: i64) -> u64
    ensures { result ≡ lanes.word_for value }
{
    if value >= 0 {
        (value as u64) * 2
    } else {
        (-(value + 1)) as u64 * 2 + 1
    }
}

/// The number of a word.
pub fn number_of(word: u64) -> i64
    ensures { result ≡ lanes.number_of word }
{
    let half = (word / 2) as i64;
    if word % 2 == 0 { half } else { -half - 1 }
}

/// The sends that a word says.
pub fn sends_of<A: Accumulate>(word: u64) -> Pending<A>
    ensures { StandsForSends A.operation result (lanes.sends_of word) }
{
    let mut sends = Pending::new();
    if word != NO_SEND {
        let Ok(()) = sends.send(number_of(word)) else {
            unreachable!()
        };
    }
    sends
}

/// The outcome that a board says.
pub fn outcome_of(number: u64, kind: u64) -> Outcome
    ensures { result ≡ lanes.outcome_of number kind }
{
    match kind {
        IS_VALUE => Outcome::Value(number_of(number)),
        IS_EMPTY => Outcome::Empty,
        _ => Outcome::TooBig,
    }
}
