//! The least send of a phase.
ghost use Rattle.phase_accum.specs.Leasts.{least_operation, least_laws, least_commutes};

use crate::accumulate::{Accumulate, Exact};
use crate::outcome::Outcome;
use std::marker::Model;

/// The least of a list of sends, where there is one.
#[derive(Clone, Copy, Debug, PartialEq, Eq)]
pub struct Least {
    send: Option<i64>,
}

impl Model for Least {
    ghost use Rattle.std.specs.Prelude.{ℤ, Option};

    ghost Value = { Option ℤ };

    ghost view = { λ x. x.send };

    ghost inverse = { λ t. record { send = t } };
}

impl Accumulate for Least {
    ghost operation = { least_operation };

    fn unit() -> Least {
        Least { send: None }
    }

    fn of(value: i64) -> Least {
        Least { send: Some(value) }
    }

    fn join(first: Least, second: Least) -> Least {
        match (first.send, second.send) {
            (Some(v), Some(w)) => Least {
                send: Some(v.min(w)),
            },
            (Some(_), None) => first,
            (None, _) => second,
        }
    }

    fn finish(self) -> Outcome {
        match self.send {
            Some(value) => Outcome::Value(value),
            None => Outcome::Empty,
        }
    }

    ghost laws = { least_laws };
}

impl Exact for Least {
    ghost commutes = { least_commutes };
}
