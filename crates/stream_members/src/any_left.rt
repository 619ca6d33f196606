//! What members that left have seen, under one of the operations.
ghost use Rattle.std.specs.Prelude.{◌≡◌, true};
ghost use Rattle.phase_history.specs.Legal.{IsLegal};
ghost use Rattle.phase_base.specs.Lists.{is_distinct};
ghost use Rattle.stream_members.specs.Members.{limits_on, HasJoined};
ghost use Rattle.stream_members.specs.AnyMembers.{left_in, left_op};

use crate::left::Left;
use phase_accum::{Any, Greatest, Least, Product, Sum};

/// What members that left have seen, by the operation of their phaser. It may be thrown away.
#[derive(Drop)]
pub enum AnyLeft<'a> {
    Sum(Left<'a, Sum>),
    Product(Left<'a, Product>),
    Least(Left<'a, Least>),
    Greatest(Left<'a, Greatest>),
    Any(Left<'a, Any>),
}

impl<'a> AnyLeft<'a> {
    /// Says what holds of it wherever it was kept meanwhile. It does nothing.
    pub fn look(&self)
        ensures legal { IsLegal (limits_on (left_in self.now).at) (left_in self.now).seen }
        ensures distinct { is_distinct (left_in self.now).numbers ≡ true }
    {
        match self {
            AnyLeft::Sum(left) => left.look(),
            AnyLeft::Product(left) => left.look(),
            AnyLeft::Least(left) => left.look(),
            AnyLeft::Greatest(left) => left.look(),
            AnyLeft::Any(left) => left.look(),
        }
    }

    /// Makes one of two that left one phaser. It waits for nobody and takes no memory.
    pub fn join(self, other: AnyLeft<'a>) -> AnyLeft<'a>
        requires at { (left_in other).at ≡ (left_in self).at }
        requires op { left_op other ≡ left_op self }
        ensures join { HasJoined (left_in self.entry) (left_in other.entry) (left_in result) }
        ensures op { left_op result ≡ left_op self.entry }
    {
        match (self, other) {
            (AnyLeft::Sum(one), AnyLeft::Sum(two)) => AnyLeft::Sum(one.join(two)),
            (AnyLeft::Product(one), AnyLeft::Product(two)) => AnyLeft::Product(one.join(two)),
            (AnyLeft::Least(one), AnyLeft::Least(two)) => AnyLeft::Least(one.join(two)),
            (AnyLeft::Greatest(one), AnyLeft::Greatest(two)) => AnyLeft::Greatest(one.join(two)),
            (AnyLeft::Any(one), AnyLeft::Any(two)) => AnyLeft::Any(one.join(two)),
            _ => unreachable!(),
        }
    }
}
