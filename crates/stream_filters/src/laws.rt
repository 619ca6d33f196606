//! Laws of the definitions.
ghost use Rattle.std.specs.Prelude.{◌≡◌, ℕ, ◌+◌, ◌-◌, ◌^◌, ◌<◌, ◌≤◌, List, [], ◌∷◌, ◌++◌, length, take, get_or, ℤ, pos, neg_ℤ, ◌+ℤ◌, ◌*ℤ◌, ◌≤ℤ◌, ◌<ℤ◌};
ghost use Rattle.stream_filters.specs.declared.form.Form.{Form};
ghost use Rattle.stream_filters.specs.declared.range.TheConstants.{VALUE_MAX, VALUE_MIN};
ghost use Rattle.stream_filters.specs.Filter.{IsPlainForm, back, output_after, outputs, outputs_of_block, shifted_down};
ghost use Rattle.stream_filters.specs.Weighing.{weighed, weighed_behind};
ghost use mathlib.Core.List.{IsPrefix};

use crate::fir::{AGAIN_MAX, DELAY_MAX, FEW_TAPS_MAX, PLUS_MAX, SHIFT_MAX, TAP_MAX, TAPS_MAX};

/// The limits of filters and of values, as numbers: taps for samples, taps for what was put, taps
/// of a filter by its shift alone, a tap's magnitude, a shift in bits, the magnitude of what is
/// added, a delay in samples, and the least and the greatest value.
pub fn limits_are()
    ensures taps { TAPS_MAX ≡ 1024 }
    ensures again { AGAIN_MAX ≡ 64 }
    ensures few { FEW_TAPS_MAX ≡ 64 }
    ensures tap { TAP_MAX ≡ 2147483647 }
    ensures shift { SHIFT_MAX ≡ 62 }
    ensures plus { PLUS_MAX ≡ 4611686018427387904 }
    ensures delay { DELAY_MAX ≡ 65536 }
    ensures greatest { VALUE_MAX ≡ pos 9223372036854775807 }
    ensures least { VALUE_MIN ≡ neg_ℤ (pos 9223372036854775807) }
{}

/// One more sample leaves the outputs as they were and adds one, the output after it. So a run of
/// steps from a new filter answers the outputs of all its samples.
pub fn outputs_grow()
    ensures { (taps : List ℤ) (form : Form) (samples : List ℤ) (x : ℤ)
        → outputs taps form (samples ++ x ∷ [])
        ≡ outputs taps form samples ++ output_after taps form (samples ++ x ∷ []) ∷ [] }
{}

/// The outputs are one for each sample: number `n` is the output after the first `n + 1` samples.
pub fn outputs_entries()
    ensures entry { (taps : List ℤ) (form : Form) (samples : List ℤ) (n : ℕ) (default : ℤ)
        → n < length samples → get_or (outputs taps form samples) n default
        ≡ output_after taps form (take (n + 1) samples) }
    ensures length { (taps : List ℤ) (form : Form) (samples : List ℤ)
        → length (outputs taps form samples) ≡ length samples }
{}

/// More samples change no output that is there, and what comes behind hangs on no more than what
/// the filter has taken and put.
pub fn outputs_go_on()
    ensures behind { (taps : List ℤ) (form : Form) (taken xs ys : List ℤ)
        → outputs_of_block taps form taken (xs ++ ys) ≡ outputs_of_block taps form taken xs
        ++ outputs_of_block taps form (taken ++ xs) ys }
    ensures prefix { (taps : List ℤ) (form : Form) (xs ys : List ℤ)
        → IsPrefix (outputs taps form xs) (outputs taps form (xs ++ ys)) }
    ensures many { (taps : List ℤ) (form : Form) (taken xs : List ℤ)
        → length (outputs_of_block taps form taken xs) ≡ length xs }
{}

/// A filter that weighs nothing that it put, and has no single, weighs its last samples alone.
pub fn plain_weighs()
    ensures outputs { (taps : List ℤ) (form : Form) (samples : List ℤ) → IsPlainForm form
        → outputs taps form samples ≡ weighed taps form samples }
    ensures block { (taps : List ℤ) (form : Form) (taken xs : List ℤ) → IsPlainForm form
        → outputs_of_block taps form taken xs ≡ weighed_behind taps form taken xs }
{}

/// A shift divides and rounds down: the quotient times the divisor is at most the value, and the
/// next quotient's is above it.
pub fn rounds_down()
    ensures below { (z : ℤ) (shift : ℕ) → (shifted_down z shift *ℤ pos (2 ^ shift)) ≤ℤ z }
    ensures above { (z : ℤ) (shift : ℕ)
        → z <ℤ ((shifted_down z shift +ℤ pos 1) *ℤ pos (2 ^ shift)) }
{}

/// The sample `j` places back from sample number `n` is number `n - j`, and 0 where there is none.
pub fn back_entries()
    ensures entry { (samples : List ℤ) (n j : ℕ) → length samples ≡ n + 1 → j ≤ n
        → back samples j ≡ get_or samples (n - j) (pos 0) }
    ensures before { (samples : List ℤ) (j : ℕ) → length samples ≤ j
        → back samples j ≡ pos 0 }
{}
