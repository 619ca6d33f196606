//! The bytes of a line.
ghost use Rattle.std.specs.Prelude.{◌≡◌};
ghost use Rattle.phase_base.specs.Lists.{without_cr};

/// Returns a line without the one carriage return at its end. It takes no memory.
pub fn without_cr(line: &[u8]) -> &[u8]
    ensures { result.now ≡ without_cr line.now }
{
    match line {
        [front @ .., b'\r'] => front,
        _ => line,
    }
}
