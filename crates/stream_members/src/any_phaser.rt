//! A phaser under one of the operations, and the registration of its founder.
ghost use Rattle.std.specs.Prelude.{◌≡◌, IfOk};
ghost use Rattle.stream_members.specs.Members.{limits_on};
ghost use Rattle.stream_members.specs.AnyMembers.{member_in, member_op};
ghost use Rattle.stream_members.specs.AnyPhasers.{phaser_op, phaser_spot, founder_at, IsFounderOf};

use crate::any_member::AnyMember;
use crate::member::Member;
use phase_accum::{Any, Greatest, Least, Product, Sum};
use phase_base::{Op, Spec};
use phase_shared::{NoRule, Phaser, Reg};
use std::alloc::{AllocError, Global};

/// A phaser between threads, by its operation. It may be thrown away.
#[derive(Drop)]
pub enum AnyPhaser {
    Sum(Phaser<Sum, NoRule>),
    Product(Phaser<Product, NoRule>),
    Least(Phaser<Least, NoRule>),
    Greatest(Phaser<Greatest, NoRule>),
    Any(Phaser<Any, NoRule>),
}

/// The registration of a phaser's founder, until `AnyPhaser::member` makes a member of it.
///
/// **End.** It cannot be thrown away.
pub enum AnyReg {
    Sum(Reg<Sum, NoRule>),
    Product(Reg<Product, NoRule>),
    Least(Reg<Least, NoRule>),
    Greatest(Reg<Greatest, NoRule>),
    Any(Reg<Any, NoRule>),
}

// The phaser of this operation, and its founder's registration.
macro_rules! made {
    ($operation:ident, $alloc:expr, $limits:expr) => {{
        let (phaser, reg) = Phaser::make($alloc, $limits, NoRule)?;
        Ok((AnyPhaser::$operation(phaser), AnyReg::$operation(reg)))
    }};
}

impl AnyPhaser {
    /// Makes a phaser of an operation, and the registration of its founder. It takes all the memory
    /// that signals and waits will ever need.
    pub fn make(alloc: Global, op: Op, limits: Spec) -> Result<(AnyPhaser, AnyReg), AllocError>
        ensures op { IfOk result (λ made. phaser_op made.0 ≡ op) }
        ensures limits { IfOk result (λ made. limits_on (phaser_spot made.0) ≡ limits) }
        ensures founder { IfOk result (λ made. IsFounderOf made.0 made.1) }
    {
        match op {
            Op::Sum => made!(Sum, alloc, limits),
            Op::Product => made!(Product, alloc, limits),
            Op::Least => made!(Least, alloc, limits),
            Op::Greatest => made!(Greatest, alloc, limits),
            Op::Any => made!(Any, alloc, limits),
        }
    }

    /// Makes the founder a member.
    pub fn member<'a>(&'a self, reg: AnyReg) -> AnyMember<'a>
        requires founder { IsFounderOf self.now reg }
        ensures op { member_op result ≡ phaser_op self.now }
        ensures founder { member_in result ≡ founder_at (phaser_spot self.now) }
    {
        match (self, reg) {
            (AnyPhaser::Sum(one), AnyReg::Sum(reg)) => AnyMember::Sum(Member::of(one, reg)),
            (AnyPhaser::Product(one), AnyReg::Product(reg)) => {
                AnyMember::Product(Member::of(one, reg))
            }
            (AnyPhaser::Least(one), AnyReg::Least(reg)) => AnyMember::Least(Member::of(one, reg)),
            (AnyPhaser::Greatest(one), AnyReg::Greatest(reg)) => {
                AnyMember::Greatest(Member::of(one, reg))
            }
            (AnyPhaser::Any(one), AnyReg::Any(reg)) => AnyMember::Any(Member::of(one, reg)),
            _ => unreachable!(),
        }
    }
}
