//! The first send of a phase.
ghost use Rattle.phase_accum.specs.Anys.{any_operation, any_laws};

use crate::accumulate::Accumulate;
use crate::outcome::Outcome;
use std::marker::Model;

/// The first of a list of sends, where there is one. It depends on their order, so `Any` is not
/// `Exact`.
#[derive(Clone, Copy, Debug, PartialEq, Eq)]
pub struct Any {
    send: Option<i64>,
}

impl Model for Any {
    ghost use Rattle.std.specs.Prelude.{ℤ, Option};

    ghost Value = { Option ℤ };

    ghost view = { λ x. x.send };

    ghost inverse = { λ t. record { send = t } };
}

impl Accumulate for Any {
    ghost operation = { any_operation };

    fn unit() -> Any {
        Any { send: None }
    }

    fn of(value: i64) -> Any {
        Any { send: Some(value) }
    }

    fn join(first: Any, second: Any) -> Any {
        match first.send {
            Some(_) => first,
            None => second,
        }
    }

    fn finish(self) -> Outcome {
        match self.send {
            Some(value) => Outcome::Value(value),
            None => Outcome::Empty,
        }
    }

    ghost laws = { any_laws };
}
