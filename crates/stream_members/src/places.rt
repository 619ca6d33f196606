//! Places for the sends of a block of phases.
ghost use Rattle.std.specs.Prelude.{◌≡◌, IfOk};
ghost use Rattle.stream_members.specs.AnyMembers.{room_for};

use phase_accum::{Any, Greatest, Least, Pending, Product, Sum};
use phase_base::Op;
use std::alloc::{AllocError, Global};

/// Places for the sends of a block of phases under one of the operations, which a signal of several
/// values uses meanwhile. It may be thrown away.
#[derive(Drop)]
pub enum Places {
    Sum(Vec<Pending<Sum>>),
    Product(Vec<Pending<Product>>),
    Least(Vec<Pending<Least>>),
    Greatest(Vec<Pending<Greatest>>),
    Any(Vec<Pending<Any>>),
}

impl Places {
    /// Makes places for blocks of at most so many phases on phasers of this operation. It takes
    /// memory for them.
    pub fn new(alloc: Global, op: Op, most: usize) -> Result<Places, AllocError>
        ensures { IfOk result (λ places. room_for op places ≡ most) }
    {
        match op {
            Op::Sum => Ok(Places::Sum(vec![in alloc; Pending::new(); most]?)),
            Op::Product => Ok(Places::Product(vec![in alloc; Pending::new(); most]?)),
            Op::Least => Ok(Places::Least(vec![in alloc; Pending::new(); most]?)),
            Op::Greatest => Ok(Places::Greatest(vec![in alloc; Pending::new(); most]?)),
            Op::Any => Ok(Places::Any(vec![in alloc; Pending::new(); most]?)),
        }
    }
}
