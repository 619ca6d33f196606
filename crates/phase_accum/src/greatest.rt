//! The greatest send of a phase.
ghost use Rattle.phase_accum.specs.Greatests.{greatest_operation, greatest_laws, greatest_commutes};

use crate::accumulate::{Accumulate, Exact};
use crate::outcome::Outcome;
use std::marker::Model;

/// The greatest of a list of sends, where there is one.
#[derive(Clone, Copy, Debug, PartialEq, Eq)]
pub struct Greatest {
    send: Option<i64>,
}

impl Model for Greatest {
    ghost use Rattle.std.specs.Prelude.{ℤ, Option};

    ghost Value = { Option ℤ };

    ghost view = { λ x. x.send };

    ghost inverse = { λ t. record { send = t } };
}

impl Accumulate for Greatest {
    ghost operation = { greatest_operation };

    fn unit() -> Greatest {
        Greatest { send: None }
    }

    fn of(value: i64) -> Greatest {
        Greatest { send: Some(value) }
    }

    fn join(first: Greatest, second: Greatest) -> Greatest {
        match (first.send, second.send) {
            (Some(v), Some(w)) => Greatest {
                send: Some(v.max(w)),
            },
            (Some(_), None) => first,
            (None, _) => second,
        }
    }

    fn finish(self) -> Outcome {
        match self.send {
            Some(value) => Outcome::Value(value),
            None => Outcome::Empty,
        }
    }

    ghost laws = { greatest_laws };
}

impl Exact for Greatest {
    ghost commutes = { greatest_commutes };
}
