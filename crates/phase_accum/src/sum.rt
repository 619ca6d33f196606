//! The sum of the sends of a phase.
ghost use Rattle.phase_accum.specs.Sums.{sum_operation, sum_laws, sum_commutes};

use crate::accumulate::{Accumulate, Exact};
use crate::outcome::{NO_VALUE, Outcome, VALUE_MAX};
use std::marker::Model;

/// The exact sum of a list of sends. The range is checked at the end alone.
#[derive(Clone, Copy, Debug, PartialEq, Eq)]
pub struct Sum {
    total: i128,
}

impl Model for Sum {
    ghost use Rattle.std.specs.Prelude.{ℤ};

    ghost Value = { ℤ };

    ghost view = { λ s. s.total };

    ghost inverse = { λ t. record { total = t } };
}

impl Accumulate for Sum {
    ghost operation = { sum_operation };

    fn unit() -> Sum {
        Sum { total: 0 }
    }

    fn of(value: i64) -> Sum {
        Sum {
            total: value as i128,
        }
    }

    fn join(first: Sum, second: Sum) -> Sum {
        Sum {
            total: first.total + second.total,
        }
    }

    fn finish(self) -> Outcome {
        if self.total <= NO_VALUE as i128 || self.total > VALUE_MAX as i128 {
            return Outcome::TooBig;
        }
        Outcome::Value(self.total as i64)
    }

    ghost laws = { sum_laws };
}

impl Exact for Sum {
    ghost commutes = { sum_commutes };
}
