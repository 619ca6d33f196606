//! What threads make together before they go on with what is behind it.
ghost use Rattle.std.specs.Prelude.{◌≤◌};

/// What stands from one place up to another, of which each thread makes one of so many parts.
#[derive(Clone, Copy)]
pub(crate) struct Round {
    pub(crate) from: usize,
    pub(crate) to: usize,
    pub(crate) parts: usize,
}

impl Round {
    /// Where part `k` begins, the first at the first place; behind the last one the end.
    pub(crate) fn begin(self, k: usize) -> usize
        requires order { self.from ≤ self.to }
        ensures behind { self.from ≤ result }
        ensures within { result ≤ self.to }
    {
        if k >= self.parts {
            return self.to;
        }
        self.from + (self.to - self.from) / self.parts * k
    }
}
