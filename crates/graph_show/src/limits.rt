//! Numbers of a line that are past their limits.
ghost use Rattle.std.specs.Prelude.{◌<◌, ◌^◌};

use crate::explain_parts::Part;
use graph_lang::{ENDS_MAX, EVERY_MAX, FACTOR_MAX, STEPS_MAX};
use graph_text::Version;
use phase_accum::MAGNITUDE_MAX;
use phase_base::{BOUND_MAX, nat};
use stream_filters::{AGAIN_MAX, DELAY_MAX, FEW_TAPS_MAX, PLUS_MAX, SHIFT_MAX, TAP_MAX, TAPS_MAX};

/// The digits of a number, which stand behind `block=` or a minus where that is there.
fn digits_in(word: &[u8]) -> &[u8] {
    match word.strip_prefix(b"block=") {
        Some(steps) => steps,
        None => word.strip_prefix(b"-").unwrap_or(word),
    }
}

/// How many steps a block of this word has, or none where it has more than a bound may be.
pub(crate) fn steps_of(block: &[u8]) -> u64 {
    nat(digits_in(block), BOUND_MAX).unwrap_or(0)
}

/// Whether the magnitude of a number is outside these limits.
fn is_outside(word: &[u8], least: u64, most: u64) -> bool
    requires { most < 2 ^ 63 }
{
    match nat(digits_in(word), most) {
        Some(magnitude) => magnitude < least,
        None => true,
    }
}

/// What is wanted of a number, where it is outside its limits.
pub(crate) fn limit_passed(part: Part, word: &[u8]) -> Option<&'static str> {
    let (least, most, wanted) = match part {
        Part::Bound => (1, BOUND_MAX, "a bound from 1 to 65536"),
        Part::Shift => (0, u64::from(SHIFT_MAX), "a shift of at most 62"),
        Part::Plus => (
            0,
            PLUS_MAX,
            "a number of a magnitude of at most 4611686018427387904",
        ),
        Part::Delay => (0, DELAY_MAX as u64, "a delay of at most 65536 steps"),
        Part::Every => (1, EVERY_MAX, "one of 1 to 65536 values"),
        Part::Taps | Part::Again => { (0, TAP_MAX, "a tap of a magnitude of at most 2147483647") }
        Part::Factor => (
            0,
            FACTOR_MAX,
            "a factor of a magnitude of at most 2147483647",
        ),
        Part::Steps => (0, STEPS_MAX, "at most 4611686018427387904 steps"),
        Part::Block => (1, BOUND_MAX, "a block of 1 to 65536 steps"),
        Part::Low | Part::High => (
            0,
            MAGNITUDE_MAX,
            "a magnitude of at most 9223372036854775807",
        ),
        _ => return None,
    };
    if is_outside(word, least, most) {
        Some(wanted)
    } else {
        None
    }
}

/// What is wanted of one of several words of a part, by its number and how many they are, where
/// they are too many or too few in a text of this version.
pub(crate) fn count_passed(
    part: Part,
    number: usize,
    count: usize,
    version: Version,
) -> Option<&'static str> {
    match part {
        Part::Taps if version == Version::Three => {
            if number >= TAPS_MAX {
                Some("at most 1024 taps")
            } else {
                None
            }
        }
        Part::Taps if number >= FEW_TAPS_MAX => Some("at most 64 taps"),
        Part::Again if number >= AGAIN_MAX => Some("at most 64 taps behind `again`"),
        Part::Outputs if number >= ENDS_MAX || count < 2 => Some("2 to 8 outputs"),
        Part::Inputs if number >= ENDS_MAX || count < 2 => Some("2 to 8 inputs"),
        _ => None,
    }
}
