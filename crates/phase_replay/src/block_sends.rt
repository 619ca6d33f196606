//! The sends of a block of phases.
ghost use Rattle.std.specs.Prelude.{◌≡◌, [], IfOk};
ghost use Rattle.phase_core.specs.Blocks.{StandForLists, one_each};
ghost use Rattle.phase_script.specs.Commands.{IsBlock};

use phase_accum::{Accumulate, Pending};
use phase_core::hold_each;
use phase_script::VALUES_MAX;
use std::alloc::{AllocError, Global};
use std::marker::Model;

/// The sends of a block of phases, in places that were made beforehand.
#[derive(Drop)]
pub struct BlockSends<A: Accumulate> {
    places: Vec<Pending<A>>,
    count: usize,
}

impl<A: Accumulate> Model for BlockSends<A> {
    ghost use Rattle.std.specs.Prelude.{◌≡◌, ◌≤◌, List, length, take};
    ghost use Rattle.phase_accum.specs.Parcels.{Parcel};
    ghost use Rattle.phase_script.specs.declared.values.TheConstants.{VALUES_MAX};

    ghost Value = { List (Parcel A) };

    ghost view = { λ b. take b.count b.places.items };

    ghost invariant = { λ b. (length b.places.items ≡ VALUES_MAX) × (b.count ≤ VALUES_MAX) };
}

impl<A: Accumulate> BlockSends<A> {
    /// Makes places for the sends of a block.
    pub fn new(alloc: Global) -> Result<BlockSends<A>, AllocError>
        ensures { IfOk result (λ sends. sends ≡ []) }
    {
        Ok(BlockSends {
            places: vec![in alloc; Pending::new(); VALUES_MAX]?,
            count: 0,
        })
    }

    /// Holds one send for each value. It takes no memory.
    pub fn hold_each(&mut self, values: &[i64])
        requires { IsBlock values.now }
        ensures { StandForLists A.operation self.new (one_each values.now) }
    {
        hold_each(&mut self.places, values);
        self.count = values.len();
    }

    /// Returns the sends that are held, phase by phase.
    pub fn as_slice(&self) -> &[Pending<A>]
        ensures { result.now ≡ self.now }
    {
        &self.places[..self.count]
    }
}
