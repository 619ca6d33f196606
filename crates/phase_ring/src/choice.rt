//! What the first signal of a phase named, in one byte and the ends of a clamp.
ghost use Rattle.std.specs.Prelude.{◌≡◌, Some};
ghost use Rattle.phase_ring.specs.Choices.{named_of, IsNamed};

use phase_accum::Single;

// What the first signal named. The ends of a clamp stand beside it.
#[derive(Clone, Copy)]
pub(crate) enum Choice {
    // There is no signal yet.
    Unsignalled,
    // No single.
    Plain,
    Neg,
    Abs,
    Halve,
    Clamp,
}

// What was named, by the choice and the ends beside it.
pub(crate) fn told(choice: Choice, ends: (i64, i64)) -> Option<Option<Single>>
    requires { IsNamed choice ends }
    ensures { result ≡ named_of choice ends }
{
    match choice {
        Choice::Unsignalled => None,
        Choice::Plain => Some(None),
        Choice::Neg => Some(Some(Single::Neg)),
        Choice::Abs => Some(Some(Single::Abs)),
        Choice::Halve => Some(Some(Single::Halve)),
        Choice::Clamp => match Single::clamp(ends.0, ends.1) {
            Ok(single) => Some(Some(single)),
            Err(_) => unreachable!(),
        },
    }
}

// The choice of a signal that names this, and the ends beside it, which are 0 but for a clamp.
pub(crate) fn choice_for(single: &Option<Single>) -> (Choice, (i64, i64))
    ensures named { named_of result.0 result.1 ≡ Some single.now }
    ensures ends { IsNamed result.0 result.1 }
{
    match single {
        None => (Choice::Plain, (0, 0)),
        Some(Single::Neg) => (Choice::Neg, (0, 0)),
        Some(Single::Abs) => (Choice::Abs, (0, 0)),
        Some(Single::Halve) => (Choice::Halve, (0, 0)),
        Some(Single::Clamp(range)) => (Choice::Clamp, (range.low(), range.high())),
    }
}
