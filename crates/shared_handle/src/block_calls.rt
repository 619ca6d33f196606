//! Calls of the registration of a handle on blocks of phases.
ghost use Rattle.std.specs.Prelude.{◌≡◌, ◌≤◌, ℕ, Some, IsSome, Ok, Err, IfOk, OnErr, length};
ghost use Rattle.phase_base.specs.Limits.{Limits, AreLimits};
ghost use Rattle.phase_accum.specs.Sends.{AreSends};
ghost use Rattle.phase_accum.specs.Values.{value_by};
ghost use Rattle.phase_history.specs.Histories.{History};
ghost use Rattle.phase_history.specs.Replies.{wait_block_reply};
ghost use Rattle.shared_handle.specs.AnyMembers.{op_in, state_in, held_in, asker_in, StillHas};
ghost use Rattle.shared_handle.specs.Calls.{BlockSignalCall, BlockWaitCall};
ghost use Rattle.shared_handle.specs.NumberBlocks.{NumbersCall};
ghost use Rattle.shared_handle.specs.declared.any_asked.AnyAsked.{AnyAsked};
ghost use Rattle.shared_handle.specs.declared.any_member.AnyMember.{AnyMember};

use crate::handle::Handle;
use crate::kept::Held;
use handle_numbers::{places, write_numbers};
use phase_accum::{Outcome, Single};
use phase_core::{GotBlock, SignalRefusal, WaitRefusal};
use phase_shared::Tried;
use std::alloc::{AllocError, Global};

impl Handle {
    /// Signals as many phases in a row as there are values, with one send each and a single for all
    /// of them or none, and answers the first phase. It takes memory for the sends, and gives it
    /// back.
    pub fn signal_block(
        &mut self,
        alloc: Global,
        values: &[i64],
        single: Option<Single>,
    ) -> Result<Result<u64, Tried<SignalRefusal>>, AllocError>
        requires there { IsSome self.old.place.kept }
        requires sends { AreSends values.now }
        ensures call { IfOk result (λ answer. (m : AnyMember)
            → held_in self.old.place.kept ≡ Some m
            → StillHas (held_in self.new.place.kept) (λ n. (op_in n ≡ op_in m)
            × BlockSignalCall values.now single (state_in m) (state_in n) answer)) }
        ensures asks { IfOk result (λ answer. (a : AnyAsked)
            → asker_in self.old.place.kept ≡ Some a
            → (answer ≡ Err Tried.Busy) × (self.new.place.kept ≡ self.old.place.kept)) }
        ensures err { OnErr result (self.new.place.kept ≡ self.old.place.kept) }
    {
        let mut kept = self.take(alloc);
        let Held::Rests(member) = &mut kept.held else {
            self.put(kept);
            return Ok(Err(Tried::Busy));
        };
        let answer = member.signal_block(alloc, values, single);
        self.put(kept);
        answer
    }

    /// Waits for the registration's phase and those behind it that are complete, as many as there
    /// are places, and writes their values in the first places; or answers that no more will come.
    fn wait_block(
        &mut self,
        alloc: Global,
        out: &mut [Outcome],
    ) -> Result<GotBlock, Tried<WaitRefusal>>
        requires { IsSome self.old.place.kept }
        ensures call { (m : AnyMember) → held_in self.old.place.kept ≡ Some m
            → StillHas (held_in self.new.place.kept) (λ n. (op_in n ≡ op_in m)
            × BlockWaitCall (value_by (op_in m)) out.old out.new (state_in m) (state_in n)
            result) }
        ensures few { (first many : ℕ) → result ≡ Ok (GotBlock.Values first many)
            → many ≤ length out.old }
        ensures asks { (a : AnyAsked) → asker_in self.old.place.kept ≡ Some a
            → (result ≡ Err Tried.Busy) × (self.new.place.kept ≡ self.old.place.kept) }
    {
        let mut kept = self.take(alloc);
        let Held::Rests(member) = &mut kept.held else {
            self.put(kept);
            return Err(Tried::Busy);
        };
        let answer = member.wait_block(out);
        self.put(kept);
        answer
    }

    /// The same, with the number of each value in the first places of `values`, where they are as
    /// many as `out` at least.
    fn wait_into(
        &mut self,
        alloc: Global,
        out: &mut [Outcome],
        values: &mut [i64],
    ) -> Result<GotBlock, Tried<WaitRefusal>>
        requires there { IsSome self.old.place.kept }
        requires room { length out.old ≤ length values.old }
        requires asked { (limits : Limits) (h : History) (task : ℕ) → AreLimits limits
            → wait_block_reply limits h task (length out.old)
            ≡ wait_block_reply limits h task (length values.old) }
        ensures call { (m : AnyMember) → held_in self.old.place.kept ≡ Some m
            → StillHas (held_in self.new.place.kept) (λ n. (op_in n ≡ op_in m)
            × NumbersCall (value_by (op_in m)) values.old values.new (state_in m) (state_in n)
            result) }
        ensures asks { (a : AnyAsked) → asker_in self.old.place.kept ≡ Some a
            → (result ≡ Err Tried.Busy) × (self.new.place.kept ≡ self.old.place.kept) }
        ensures ended { result ≡ Ok GotBlock.Ended → values.new ≡ values.old }
        ensures err { OnErr result (values.new ≡ values.old) }
    {
        match self.wait_block(alloc, out) {
            Ok(GotBlock::Values { phase, count }) => {
                write_numbers(values, &out[..count as usize]);
                Ok(GotBlock::Values { phase, count })
            }
            Ok(GotBlock::Ended) => Ok(GotBlock::Ended),
            Err(tried) => Err(tried),
        }
    }

    /// Waits for the registration's phase and those behind it that are complete, at most as many as
    /// there are places, and writes the number of each one's value in the first places; or answers
    /// that no more will come. It takes memory for the values, and gives it back.
    pub fn wait_numbers(
        &mut self,
        alloc: Global,
        values: &mut [i64],
    ) -> Result<Result<GotBlock, Tried<WaitRefusal>>, AllocError>
        requires { IsSome self.old.place.kept }
        ensures call { IfOk result (λ answer. (m : AnyMember)
            → held_in self.old.place.kept ≡ Some m
            → StillHas (held_in self.new.place.kept) (λ n. (op_in n ≡ op_in m)
            × NumbersCall (value_by (op_in m)) values.old values.new (state_in m) (state_in n)
            answer)) }
        ensures asks { IfOk result (λ answer. (a : AnyAsked)
            → asker_in self.old.place.kept ≡ Some a
            → (answer ≡ Err Tried.Busy) × (self.new.place.kept ≡ self.old.place.kept)) }
        ensures ended { IfOk result (λ answer. answer ≡ Ok GotBlock.Ended
            → values.new ≡ values.old) }
        ensures refused { IfOk result (λ answer. OnErr answer (values.new ≡ values.old)) }
        ensures err { OnErr result ((self.new.place.kept ≡ self.old.place.kept)
            × (values.new ≡ values.old)) }
    {
        let mut out = places(alloc, values.len())?;
        Ok(self.wait_into(alloc, &mut out, values))
    }
}
