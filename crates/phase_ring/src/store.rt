//! The phases that are kept, as slots or as values alone.
ghost use Rattle.std.specs.Prelude.{◌≡◌, ℕ, ◌+◌, ◌≤◌, ◌++◌, drop, length, false, IfOk};
ghost use Rattle.std.specs.List.{take_while};
ghost use Rattle.phase_ring.specs.declared.role.Role.{Role};
ghost use Rattle.phase_ring.specs.Blocks.{block_values, is_not_too_big, value_at};
ghost use Rattle.phase_ring.specs.Boards.{IsBoard};
ghost use Rattle.phase_ring.specs.Rings.{standing};
ghost use Rattle.phase_ring.specs.Standings.{one_if_same};
ghost use Rattle.phase_ring.specs.Stores.{IsStore, MayGet, GotFrom, ring_of};

use crate::board::Board;
use crate::values::Values;
use phase_accum::{Accumulate, Outcome};
use phase_base::Spec;
use std::alloc::{AllocError, Global};

/// The phases that are kept while a waiter is registered: a slot each, or, while one task alone
/// signals and each of its signals has one send and no single, these sends alone.
///
/// The limits, the first phase that is not complete and the top stand on the board in either case.
#[derive(Drop)]
pub struct Store<A: Accumulate> {
    /// The limits, the bounds, and the slots where there are any.
    pub board: Board<A>,
    /// The sends where they alone are kept.
    pub values: Values,
    /// Whether the sends alone are kept.
    pub is_plain: bool,
}

impl<A: Accumulate> Store<A> {
    /// Makes the store of a phaser whose one task stands at phase 0 in both roles, with all the
    /// memory that it will ever need. It has slots.
    pub fn new(alloc: Global, limits: Spec) -> Result<Store<A>, AllocError>
        ensures slots { IfOk result (λ now. now.is_plain ≡ false) }
        ensures invariant { IfOk result (λ now. IsBoard A.operation now.board) }
        ensures limits { IfOk result (λ now. now.board.limits ≡ limits) }
        ensures done { IfOk result (λ now. now.board.done ≡ 0) }
        ensures top { IfOk result (λ now. now.board.top ≡ 0) }
        ensures base { IfOk result (λ now. now.board.ring.base ≡ 0) }
        ensures standing { IfOk result (λ now. (role : Role) (p : ℕ)
            → standing now.board.ring role p ≡ one_if_same 0 p) }
    {
        let values = Values::with_room(alloc, limits.bound())?;
        let board = Board::<A>::new(alloc, limits)?;
        Ok(Store {
            board,
            values,
            is_plain: false,
        })
    }

    /// Returns the first phase that is kept.
    pub fn base(&self) -> u64
        ensures { result ≡ (ring_of A.operation self.now).base }
    {
        if self.is_plain {
            return self.values.base;
        }
        self.board.ring.base()
    }

    /// Returns the value of a waiter's phase, which is complete. On slots it moves the waiter on to
    /// the next one, and gives up the phases that no waiter has still to get.
    pub fn wait(&mut self, phase: u64) -> Outcome
        requires invariant { IsStore A.operation self.old }
        requires may { MayGet phase (phase + 1) self.old }
        ensures value { result ≡ value_at A.operation (ring_of A.operation self.old) phase }
        ensures got { GotFrom A.operation phase (phase + 1) self.old self.new }
    {
        if self.is_plain {
            return self.values.value::<A>(phase);
        }
        self.board.wait(phase)
    }

    /// Writes the values of so many phases, the first this one of a waiter and all complete. On
    /// slots it moves the waiter on to the phase behind them, as `wait` does. The places behind the
    /// values stay.
    pub fn wait_block(&mut self, phase: u64, count: usize, out: &mut [Outcome])
        requires invariant { IsStore A.operation self.old }
        requires may { MayGet phase (phase + count) self.old }
        requires room { count ≤ length out.old }
        ensures out { out.new ≡ block_values A.operation (ring_of A.operation self.old) phase count
            ++ drop count out.old }
        ensures got { GotFrom A.operation phase (phase + count) self.old self.new }
    {
        if self.is_plain {
            self.values.write::<A>(phase, count, out);
            return;
        }
        self.board.wait_block(phase, count, out);
    }

    /// Counts the values of phases in a row before the first that is too big. At most so many
    /// phases are looked at, the first this one of a waiter and all complete.
    pub fn good_ahead(&self, phase: u64, most: usize) -> usize
        requires invariant { IsStore A.operation self.now }
        requires may { MayGet phase (phase + most) self.now }
        ensures { let values = block_values A.operation (ring_of A.operation self.now) phase most in
            result ≡ length (take_while is_not_too_big values) }
    {
        if self.is_plain {
            return self.values.good_from::<A>(phase, most);
        }
        self.board.good_ahead(phase, most)
    }
}
