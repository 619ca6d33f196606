//! The form of a filter: all of it but its taps.
ghost use Rattle.std.specs.Prelude.{◌↔◌, IsTrue};
ghost use Rattle.stream_filters.specs.Filter.{IsPlainForm};

use phase_accum::Single;

/// What a filter does beside weighing: how old the newest sample is that it weighs, what it adds to
/// each sum, and by how many bits the sum is shifted down then.
#[derive(Clone, Copy, Debug, PartialEq, Eq)]
pub struct Form {
    /// By how many bits each sum is shifted down, up to `SHIFT_MAX`.
    pub shift: u32,
    /// What is added to each sum before it is shifted, up to a magnitude of `PLUS_MAX`. Half of
    /// what the shift divides by rounds to the nearest.
    pub plus: i64,
    /// How many samples before the newest one the first tap weighs, up to `DELAY_MAX`.
    pub delay: usize,
    /// How many of the taps, the last ones, weigh what the filter put and no samples, up to
    /// `AGAIN_MAX`: the first of them what it put last.
    pub again: usize,
    /// What is applied to each number behind the shift, before its range is looked at: so a clamp
    /// saturates.
    pub single: Option<Single>,
}

/// Whether a filter of this form looks at samples alone, and applies no single.
pub(crate) fn is_plain(form: &Form) -> bool
    ensures { IsTrue result ↔ IsPlainForm form.now }
{
    form.again == 0 && form.single.is_none()
}
