//! A registration under any of the five operations.
ghost use Rattle.std.specs.Prelude.{◌≡◌, ◌≤◌, ℕ, Ok, IfOk, IfErr, IsOk, OnErr, length};
ghost use Rattle.phase_base.specs.declared.limits.TheConstants.{SENDS_MAX};
ghost use Rattle.phase_accum.specs.Sends.{AreSends};
ghost use Rattle.phase_accum.specs.Values.{value_by};
ghost use Rattle.shared_handle.specs.Members.{IsInItsHistory, IsFounding, IsOnlyOne, HasLeft};
ghost use Rattle.shared_handle.specs.Calls.{SignalCall, NextCall, WaitCall, BlockSignalCall, BlockWaitCall, AddCall, AddNowCall, MissingCall};
ghost use Rattle.shared_handle.specs.AnyMembers.{op_in, state_in, state_of};

use crate::member::Member;
use phase_accum::{Any, Greatest, Least, Op, Outcome, Product, Single, Sum};
use phase_base::{Entry, Mode, Spec};
use phase_core::{Got, GotBlock, NoTask, RegisterRefusal, SignalRefusal, Standing, WaitRefusal};
use phase_shared::Tried;
use std::alloc::{AllocError, Global};

/// A registration with its phaser, by the operation of the phaser. Each call is the one of `Member`
/// of the same name.
#[derive(Drop)]
pub enum AnyMember {
    Sum(Member<Sum>),
    Product(Member<Product>),
    Least(Member<Least>),
    Greatest(Member<Greatest>),
    Any(Member<Any>),
}

// The call on the member, whichever operation it has.
macro_rules! each {
    ($member:expr, $one:ident => $call:expr) => {
        match $member {
            AnyMember::Sum($one) => $call,
            AnyMember::Product($one) => $call,
            AnyMember::Least($one) => $call,
            AnyMember::Greatest($one) => $call,
            AnyMember::Any($one) => $call,
        }
    };
}

// The call that gives a child, which has the operation of its parent.
macro_rules! each_child {
    ($member:expr, $one:ident => $call:expr) => {
        match $member {
            AnyMember::Sum($one) => match $call? {
                Ok(child) => Ok(Ok(AnyMember::Sum(child))),
                Err(tried) => Ok(Err(tried)),
            },
            AnyMember::Product($one) => match $call? {
                Ok(child) => Ok(Ok(AnyMember::Product(child))),
                Err(tried) => Ok(Err(tried)),
            },
            AnyMember::Least($one) => match $call? {
                Ok(child) => Ok(Ok(AnyMember::Least(child))),
                Err(tried) => Ok(Err(tried)),
            },
            AnyMember::Greatest($one) => match $call? {
                Ok(child) => Ok(Ok(AnyMember::Greatest(child))),
                Err(tried) => Ok(Err(tried)),
            },
            AnyMember::Any($one) => match $call? {
                Ok(child) => Ok(Ok(AnyMember::Any(child))),
                Err(tried) => Ok(Err(tried)),
            },
        }
    };
}

impl AnyMember {
    /// Makes a phaser of an operation, and gives its founder.
    pub fn make(alloc: Global, op: Op, limits: Spec) -> Result<AnyMember, AllocError>
        ensures founder { IfOk result (λ made. IsFounding limits (state_in made)) }
        ensures op { IfOk result (λ made. op_in made ≡ op) }
    {
        match op {
            Op::Sum => Ok(AnyMember::Sum(Member::make(alloc, limits)?)),
            Op::Product => Ok(AnyMember::Product(Member::make(alloc, limits)?)),
            Op::Least => Ok(AnyMember::Least(Member::make(alloc, limits)?)),
            Op::Greatest => Ok(AnyMember::Greatest(Member::make(alloc, limits)?)),
            Op::Any => Ok(AnyMember::Any(Member::make(alloc, limits)?)),
        }
    }

    /// Says what holds of it wherever it was kept meanwhile. It does nothing.
    pub fn look(&self)
        ensures { IsInItsHistory (state_in self.now) }
    {
        each!(self, one => one.look())
    }

    /// Returns the operation of its phaser.
    pub fn op(&self) -> Op
        ensures { result ≡ op_in self.now }
    {
        match self {
            AnyMember::Sum(_) => Op::Sum,
            AnyMember::Product(_) => Op::Product,
            AnyMember::Least(_) => Op::Least,
            AnyMember::Greatest(_) => Op::Greatest,
            AnyMember::Any(_) => Op::Any,
        }
    }

    /// Returns its number, which nobody else has on its phaser.
    pub fn number(&self) -> u64
        ensures { result ≡ (state_in self.now).number }
    {
        each!(self, one => one.number())
    }

    /// Returns its mode and its phases. It takes no turn.
    pub fn entry(&self) -> Entry
        ensures { result ≡ (state_in self.now).entry }
    {
        each!(self, one => one.entry())
    }

    /// Returns how far the phaser is, as far as the turns that have ended tell.
    pub fn told(&self) -> (u64, u64) {
        each!(self, one => one.told())
    }

    /// Signals its phase with these sends and a single or none, and answers that phase. It takes no
    /// memory.
    pub fn signal(
        &mut self,
        values: &[i64],
        single: Option<Single>,
    ) -> Result<u64, Tried<SignalRefusal>>
        requires sends { AreSends values.now }
        requires few { length values.now ≤ SENDS_MAX }
        ensures call { SignalCall (value_by (op_in self.old)) values.now single
            (state_in self.old) (state_in self.new) result }
        ensures op { op_in self.new ≡ op_in self.old }
    {
        each!(self, one => one.signal(values, single))
    }

    /// Signals its phase, and then waits where that is answered at once. It takes no memory.
    pub fn next(
        &mut self,
        values: &[i64],
        single: Option<Single>,
    ) -> Result<(u64, Option<Got>), Tried<SignalRefusal>>
        requires sends { AreSends values.now }
        requires few { length values.now ≤ SENDS_MAX }
        ensures call { NextCall (value_by (op_in self.old)) values.now single
            (state_in self.old) (state_in self.new) result }
        ensures op { op_in self.new ≡ op_in self.old }
    {
        each!(self, one => one.next(values, single))
    }

    /// Signals as many phases in a row as there are values. It takes memory for the sends, and
    /// gives it back.
    pub fn signal_block(
        &mut self,
        alloc: Global,
        values: &[i64],
        single: Option<Single>,
    ) -> Result<Result<u64, Tried<SignalRefusal>>, AllocError>
        requires { AreSends values.now }
        ensures call { IfOk result (BlockSignalCall values.now single (state_in self.old)
            (state_in self.new)) }
        ensures op { op_in self.new ≡ op_in self.old }
        ensures err { OnErr result (self.new ≡ self.old) }
    {
        each!(self, one => one.signal_block(alloc, values, single))
    }

    /// Waits for its phase, and answers it with its value, or that no more will come. It takes no
    /// memory.
    pub fn wait(&mut self) -> Result<Got, Tried<WaitRefusal>>
        ensures call { WaitCall (value_by (op_in self.old)) (state_in self.old)
            (state_in self.new) result }
        ensures op { op_in self.new ≡ op_in self.old }
    {
        each!(self, one => one.wait())
    }

    /// Waits for its phase and those behind it that are complete, as many as there are places. It
    /// takes no memory.
    pub fn wait_block(&mut self, out: &mut [Outcome]) -> Result<GotBlock, Tried<WaitRefusal>>
        ensures call { BlockWaitCall (value_by (op_in self.old)) out.old out.new
            (state_in self.old) (state_in self.new) result }
        ensures op { op_in self.new ≡ op_in self.old }
        ensures few { (first many : ℕ) → result ≡ Ok (GotBlock.Values first many)
            → many ≤ length out.old }
    {
        each!(self, one => one.wait_block(out))
    }

    /// Registers a child in a mode that its own mode holds, at both of its phases. It may take
    /// memory.
    pub fn add(
        &mut self,
        mode: Mode,
    ) -> Result<Result<AnyMember, Tried<RegisterRefusal>>, AllocError>
        ensures call { IfOk result (λ answer.
            AddCall mode (state_in self.old) (state_in self.new) (state_of answer)) }
        ensures op { op_in self.new ≡ op_in self.old }
        ensures child { IfOk result (λ answer.
            IfOk answer (λ child. op_in child ≡ op_in self.old)) }
        ensures err { OnErr result (self.new ≡ self.old) }
    {
        each_child!(self, one => one.add(mode))
    }

    /// Registers a child in `Wait`, at the first phase that is not complete. It may take memory.
    pub fn add_now(&mut self) -> Result<Result<AnyMember, Tried<RegisterRefusal>>, AllocError>
        ensures call { IfOk result (λ answer.
            AddNowCall (state_in self.old) (state_in self.new) (state_of answer)) }
        ensures op { op_in self.new ≡ op_in self.old }
        ensures child { IfOk result (λ answer.
            IfOk answer (λ child. op_in child ≡ op_in self.old)) }
        ensures err { OnErr result (self.new ≡ self.old) }
    {
        each_child!(self, one => one.add_now())
    }

    /// Tells how its phaser stands, and writes who is missing into the first places, as many as
    /// there are of both. It takes no memory.
    pub fn missing(&mut self, places: &mut [u64]) -> Result<Standing, Tried<NoTask>>
        ensures call { MissingCall places.old places.new (state_in self.old) (state_in self.new)
            result }
        ensures op { op_in self.new ≡ op_in self.old }
        ensures err { OnErr result (places.new ≡ places.old) }
    {
        each!(self, one => one.missing(places))
    }

    /// Closes its phaser, for ever.
    pub fn close(&self) {
        each!(self, one => one.close())
    }

    /// Returns whether its phaser was closed.
    pub fn is_closed(&self) -> bool {
        each!(self, one => one.is_closed())
    }

    /// Ends the registration. Where another is in the middle of a call it comes back as it was. It
    /// takes no memory.
    pub fn leave(self) -> Result<(), AnyMember>
        ensures ok { IfOk result (λ left. HasLeft (state_in self)) }
        ensures err { IfErr result (λ back. back ≡ self) }
        ensures alone { IsOnlyOne (state_in self) → IsOk result }
    {
        match self {
            AnyMember::Sum(one) => one.leave().map_err(AnyMember::Sum),
            AnyMember::Product(one) => one.leave().map_err(AnyMember::Product),
            AnyMember::Least(one) => one.leave().map_err(AnyMember::Least),
            AnyMember::Greatest(one) => one.leave().map_err(AnyMember::Greatest),
            AnyMember::Any(one) => one.leave().map_err(AnyMember::Any),
        }
    }
}
