//! How the sends of a phase become its value.
ghost use Rattle.std.specs.Prelude.{◌≡◌};
ghost use Rattle.phase_accum.specs.Operations.{Operation, MayJoin, AccumulateLaws, Commutes};
ghost use Rattle.phase_accum.specs.Sends.{IsSend};

use crate::outcome::Outcome;

/// An operation on the sends of a phase: a monoid of partial results, which are called parts
/// (accumulators, IPDPS 2009).
///
/// A part stands for a list of sends: `unit` for none, `of` for one, and `join` for those of two
/// parts, one behind the other. `finish` gives the value of the list. Which value that is, is the
/// operation's own definition over lists of sends.
pub trait Accumulate: Copy {
    ghost operation: { Operation Self };

    /// Returns the part of no send.
    fn unit() -> Self
        ensures { result ≡ operation.unit };

    /// Returns the part of one send.
    fn of(value: i64) -> Self
        requires { IsSend value }
        ensures { result ≡ operation.of value };

    /// Returns the part of the sends of `first`, and then of those of `second`.
    fn join(first: Self, second: Self) -> Self
        requires { MayJoin operation first second }
        ensures { result ≡ operation.join first second };

    /// Returns the value of the sends.
    fn finish(self) -> Outcome
        ensures { result ≡ operation.finish self };

    ghost laws: { AccumulateLaws operation };
}

/// An operation for which the order of the sends makes no difference.
pub trait Exact: Accumulate {
    ghost commutes: { Commutes Self.operation };
}
