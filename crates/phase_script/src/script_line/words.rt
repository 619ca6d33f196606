//! The words of a line.

ghost use Rattle.std.specs.Prelude.{◌≡◌, None, Some, MatchOption};
ghost use Rattle.phase_script.specs.Words.{word, rest};

/// Returns the bytes before the first space, and those after it, where there is one.
pub fn cut(text: &[u8]) -> (&[u8], Option<&[u8]>)
    ensures word { result.0.now ≡ word text.now }
    ensures rest { MatchOption result.1 (rest text.now ≡ None) (λ r. rest text.now ≡ Some r.now) }
{
    for (i, b) in text.iter().enumerate() {
        if *b == b' ' {
            return (&text[..i], Some(&text[i + 1..]));
        }
    }
    (text, None)
}
