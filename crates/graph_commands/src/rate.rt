//! How many values there are for each value of a stream.

/// So many values for each value of the stream that begins on a phaser: a fraction in its lowest
/// terms.
#[derive(Clone, Copy, Debug, PartialEq, Eq)]
pub(crate) struct Rate {
    /// The number of the phaser on which the stream begins.
    pub stream: usize,
    /// How many values there are for so many of the stream.
    pub values: u64,
    /// How many values of the stream that is for.
    pub per: u64,
}

/// The greatest common divisor of two numbers.
fn common_divisor(a: u64, b: u64) -> u64 {
    let mut divisor = a;
    let mut rest = b;
    while rest != 0 {
        let next = divisor % rest;
        divisor = rest;
        rest = next;
    }
    divisor
}

impl Rate {
    /// One value for each of the stream that begins on phaser number `p`.
    pub(crate) fn of_stream(p: usize) -> Rate {
        Rate {
            stream: p,
            values: 1,
            per: 1,
        }
    }

    /// This rate times a number, over another, where that can be written.
    pub(crate) fn scaled(self, times: usize, over: usize) -> Option<Rate> {
        let values = self.values.checked_mul(times as u64)?;
        let per = self.per.checked_mul(over as u64)?;
        let divisor = common_divisor(values, per);
        Some(Rate {
            stream: self.stream,
            values: values.checked_div(divisor)?,
            per: per.checked_div(divisor)?,
        })
    }

    /// Whether this rate is less than another one of the same stream.
    pub(crate) fn is_below(self, other: Rate) -> bool {
        let own = u128::from(self.values).saturating_mul(u128::from(other.per));
        own < u128::from(other.values).saturating_mul(u128::from(self.per))
    }
}
