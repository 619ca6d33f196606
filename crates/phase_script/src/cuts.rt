//! Where lines end.
ghost use Rattle.std.specs.Prelude.{◌≡◌, ◌<◌, take, length, slice_index, MatchOption};
ghost use Rattle.phase_script.specs.Cuts.{HasNoLf};

const LF: u8 = 10;

/// Finds the first LF.
pub fn lf_of(bytes: &[u8]) -> Option<usize>
    ensures { MatchOption result (HasNoLf bytes.now) (λ end. (end < length bytes.now)
        × HasNoLf (take end bytes.now) × (slice_index bytes.now end ≡ 10)) }
{
    bytes.iter().position(|byte| *byte == LF)
}
