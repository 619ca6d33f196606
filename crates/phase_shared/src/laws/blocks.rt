//! Laws of blocks of phases, and of waiters that join now.
ghost use Rattle.std.specs.Prelude.{◌≡◌, ◌≤◌, ℕ, ℤ, List, [], ◌∷◌, Option, Result, Ok, Err, Some};
ghost use Rattle.phase_base.specs.Limits.{Limits};
ghost use Rattle.phase_base.specs.Members.{entry_of};
ghost use Rattle.phase_base.specs.declared.entry.Entry.{Entry};
ghost use Rattle.phase_accum.specs.Parcels.{Parcel};
ghost use Rattle.phase_accum.specs.declared.outcome.Outcome.{Outcome};
ghost use Rattle.phase_accum.specs.declared.single.Single.{Single};
ghost use Rattle.phase_history.specs.declared.refusal.SignalRefusal.{SignalRefusal};
ghost use Rattle.phase_history.specs.declared.refusal.WaitRefusal.{WaitRefusal};
ghost use Rattle.phase_history.specs.Histories.{History, HasNoSignaller, members_of, done_of, wait_phase, start_of};
ghost use Rattle.phase_history.specs.Phases.{received_by};
ghost use Rattle.phase_history.specs.Legal.{IsLegal};
ghost use Rattle.phase_shared.specs.Calls.{Signals};
ghost use Rattle.phase_shared.specs.Blocks.{SignalsBlock, WaitsBlock};
ghost use Rattle.phase_shared.specs.Joins.{HasRegisteredNow};
ghost use Rattle.phase_shared.specs.Parts.{PartStays, HasNoPart};
ghost use Rattle.phase_shared.specs.BlockParts.{SendsLists, GetsValues};

use phase_accum::Accumulate;
use phase_core::GotBlock;

/// A signal of a block that is accepted adds its lists of sends to what its task has sent, in their
/// order. One that is refused adds nothing. Neither adds to what the task has received.
pub fn signals_block<A: Accumulate>()
    ensures sent { (limits : Limits) (me phase : ℕ) (parcels : List (Parcel A))
        (single : Option Single) (old new : History)
        → SignalsBlock A.operation limits me parcels single old new (Ok phase)
        → SendsLists A.operation me parcels old new }
    ensures received { (value : List ℤ → Outcome) (limits : Limits) (me : ℕ)
        (parcels : List (Parcel A)) (single : Option Single) (old new : History)
        (answer : Result ℕ SignalRefusal)
        → SignalsBlock A.operation limits me parcels single old new answer
        → received_by value new me ≡ received_by value old me }
    ensures refused { (limits : Limits) (me : ℕ) (parcels : List (Parcel A))
        (single : Option Single) (old new : History) (refusal : SignalRefusal)
        → SignalsBlock A.operation limits me parcels single old new (Err refusal)
        → PartStays me old new }
{}

/// A signal of what a task holds is a signal of a block of one phase, and the other way round. So
/// what holds of all blocks holds of it.
pub fn plain_signals<A: Accumulate>()
    ensures plain { (limits : Limits) (me : ℕ) (held : Parcel A) (single : Option Single)
        (old new : History) (answer : Result ℕ SignalRefusal)
        → SignalsBlock A.operation limits me (held ∷ []) single old new answer
        → Signals A.operation limits me held single old new answer }
    ensures block { (limits : Limits) (me : ℕ) (held : Parcel A) (single : Option Single)
        (old new : History) (answer : Result ℕ SignalRefusal)
        → Signals A.operation limits me held single old new answer
        → SignalsBlock A.operation limits me (held ∷ []) single old new answer }
{}

/// A wait for a block adds the values that stand in its first places to what its task has received,
/// and nothing where the stream has ended or the wait is refused. Where it has ended, no signaller
/// is registered, and the task has got every phase.
pub fn waits_block()
    ensures got { (value : List ℤ → Outcome) (limits : Limits) (me : ℕ) (old new : History)
        (old_out new_out : List Outcome) (phase count : ℕ)
        → WaitsBlock value limits me old new old_out new_out (Ok (GotBlock.Values phase count))
        → GetsValues value me count new_out old new }
    ensures ended { (value : List ℤ → Outcome) (limits : Limits) (me : ℕ) (old new : History)
        (old_out new_out : List Outcome)
        → WaitsBlock value limits me old new old_out new_out (Ok GotBlock.Ended)
        → PartStays me old new }
    ensures closed { (value : List ℤ → Outcome) (limits : Limits) (me : ℕ) (old new : History)
        (old_out new_out : List Outcome)
        → WaitsBlock value limits me old new old_out new_out (Ok GotBlock.Ended)
        → HasNoSignaller new }
    ensures got_all { (value : List ℤ → Outcome) (limits : Limits) (me : ℕ) (old new : History)
        (old_out new_out : List Outcome)
        → WaitsBlock value limits me old new old_out new_out (Ok GotBlock.Ended)
        → done_of new ≤ wait_phase new me }
    ensures refused { (value : List ℤ → Outcome) (limits : Limits) (me : ℕ) (old new : History)
        (old_out new_out : List Outcome) (refusal : WaitRefusal)
        → WaitsBlock value limits me old new old_out new_out (Err refusal)
        → PartStays me old new }
{}

/// A registration of a waiter that joins now adds nothing to the part of the parent. The child has
/// received and sent nothing, and starts where its record says.
pub fn registers_now()
    ensures parent { (me child : ℕ) (parent start : Entry) (old new : History)
        → HasRegisteredNow me child parent start old new → PartStays me old new }
    ensures child { (limits : Limits) (me child : ℕ) (parent start : Entry) (old new : History)
        → IsLegal limits new → HasRegisteredNow me child parent start old new
        → HasNoPart child new }
    ensures start { (limits : Limits) (me child : ℕ) (parent start : Entry) (old new : History)
        → IsLegal limits new → HasRegisteredNow me child parent start old new
        → entry_of (members_of old) me ≡ Some parent → start_of new child ≡ Some start }
{}
