//! What the records of calls say of a task's own part of the history: of what it has received, and
//! of what it has sent. Each function here makes no call and has no effect: its contract is a law,
//! which a caller has by calling it.
ghost use Rattle.std.specs.Prelude.{◌≡◌, ◌≤◌, ℕ, ℤ, List, Option, Result, Ok, Err, Some, Bool, true, map};
ghost use Rattle.phase_base.specs.Limits.{Limits};
ghost use Rattle.phase_base.specs.Members.{entry_of};
ghost use Rattle.phase_base.specs.declared.entry.Entry.{Entry};
ghost use Rattle.phase_base.specs.declared.mode.Mode.{Mode};
ghost use Rattle.phase_accum.specs.Parcels.{Parcel};
ghost use Rattle.phase_accum.specs.declared.outcome.Outcome.{Outcome};
ghost use Rattle.phase_accum.specs.declared.single.Single.{Single};
ghost use Rattle.phase_history.specs.declared.got.Got.{Got};
ghost use Rattle.phase_history.specs.declared.refusal.RegisterRefusal.{RegisterRefusal};
ghost use Rattle.phase_history.specs.declared.refusal.SignalRefusal.{SignalRefusal};
ghost use Rattle.phase_history.specs.declared.refusal.WaitRefusal.{WaitRefusal};
ghost use Rattle.phase_history.specs.Histories.{History, HasNoSignaller, members_of, done_of, wait_phase, start_of, entry_at, has_dropped};
ghost use Rattle.phase_history.specs.Phases.{received_by};
ghost use Rattle.phase_history.specs.Legal.{IsLegal};
ghost use Rattle.phase_history.specs.Others.{OthersCame};
ghost use Rattle.phase_base.specs.Lists.{is_in};
ghost use Rattle.phase_shared.specs.declared.next.Next.{Next};
ghost use Rattle.phase_shared.specs.Calls.{Signals, Waits, HasRegistered, RefusesRegister, Leaves};
ghost use Rattle.phase_shared.specs.Nexts.{GoesNext, RefusesNext};
ghost use Rattle.phase_shared.specs.Regs.{RegState};
ghost use Rattle.phase_shared.specs.Parts.{PartStays, HasNoPart, SendsHeld, Gets, SendsAndGets};

use phase_accum::Accumulate;

mod blocks;

pub use blocks::{plain_signals, registers_now, signals_block, waits_block};

/// Under others' events the part of each of these tasks stays, and so do their lists of what they
/// have received.
pub fn parts_stay()
    ensures one { (tasks : List ℕ) (old new : History) (task : ℕ)
        → OthersCame tasks old new → is_in task tasks ≡ true → PartStays task old new }
    ensures lists { (value : List ℤ → Outcome) (tasks : List ℕ) (old new : History)
        → OthersCame tasks old new
        → map (received_by value new) tasks ≡ map (received_by value old) tasks }
{}

/// A signal that is accepted adds the sends that its task held to what the task has sent, as one
/// list. One that is refused adds nothing. Neither adds to what the task has received.
pub fn signals<A: Accumulate>()
    ensures sent { (limits : Limits) (me phase : ℕ) (held : Parcel A) (single : Option Single)
        (old new : History) → Signals A.operation limits me held single old new (Ok phase)
        → SendsHeld A.operation me held old new }
    ensures received { (value : List ℤ → Outcome) (limits : Limits) (me : ℕ) (held : Parcel A)
        (single : Option Single) (old new : History) (answer : Result ℕ SignalRefusal)
        → Signals A.operation limits me held single old new answer
        → received_by value new me ≡ received_by value old me }
    ensures refused { (limits : Limits) (me : ℕ) (held : Parcel A) (single : Option Single)
        (old new : History) (refusal : SignalRefusal)
        → Signals A.operation limits me held single old new (Err refusal)
        → PartStays me old new }
{}

/// A wait adds the value that it got to what its task has received, and nothing where the stream
/// has ended or the wait is refused. Where it has ended, no registered task signals, and each
/// complete phase was waited for.
pub fn waits()
    ensures got { (value : List ℤ → Outcome) (limits : Limits) (me : ℕ) (old new : History)
        (got : Got) → Waits value limits me old new (Ok got) → Gets value me got old new }
    ensures refused { (value : List ℤ → Outcome) (limits : Limits) (me : ℕ) (old new : History)
        (refusal : WaitRefusal) → Waits value limits me old new (Err refusal)
        → PartStays me old new }
    ensures ended { (value : List ℤ → Outcome) (limits : Limits) (me : ℕ) (old new : History)
        → Waits value limits me old new (Ok Got.Ended) → HasNoSignaller new }
    ensures got_all { (value : List ℤ → Outcome) (limits : Limits) (me : ℕ) (old new : History)
        → Waits value limits me old new (Ok Got.Ended) → done_of new ≤ wait_phase new me }
{}

/// A next phase adds what its signal and its wait add, as far as the mode signals and waits. Where
/// its wait tells that the stream has ended, no signaller is registered, and the task has got every
/// phase. A refused one adds nothing.
pub fn goes_next<A: Accumulate, K>()
    ensures ok { (limits : Limits) (single : Option Single) (old : RegState A K) (new : History)
        (next : Next) → GoesNext A.operation limits single old new next
        → SendsAndGets A.operation old new next }
    ensures ended { (limits : Limits) (single : Option Single) (old : RegState A K) (new : History)
        (next : Next) → GoesNext A.operation limits single old new next
        → next.got ≡ Some Got.Ended → HasNoSignaller new }
    ensures got_all { (limits : Limits) (single : Option Single) (old : RegState A K)
        (new : History) (next : Next) → GoesNext A.operation limits single old new next
        → next.got ≡ Some Got.Ended → done_of new ≤ wait_phase new old.number }
    ensures refused { (limits : Limits) (single : Option Single) (old : RegState A K)
        (new : History) (signals : Bool) (refusal : SignalRefusal)
        → RefusesNext A.operation limits single old new signals refusal
        → PartStays old.number old.seen new }
{}

/// A registration adds nothing to the part of the parent, accepted or refused. The child has
/// received and sent nothing, and starts in its mode, at both phases of its parent.
pub fn registers()
    ensures parent { (me child : ℕ) (mode : Mode) (old new : History)
        → HasRegistered me child mode old new → PartStays me old new }
    ensures refused { (me : ℕ) (mode : Mode) (old new : History) (refusal : RegisterRefusal)
        → RefusesRegister me mode old new refusal → PartStays me old new }
    ensures child { (limits : Limits) (me child : ℕ) (mode : Mode) (old new : History)
        → IsLegal limits new → HasRegistered me child mode old new → HasNoPart child new }
    ensures start { (limits : Limits) (me child : ℕ) (mode : Mode) (old new : History)
        (entry : Entry) → IsLegal limits new → HasRegistered me child mode old new
        → entry_of (members_of old) me ≡ Some entry
        → start_of new child ≡ Some (entry_at mode entry.signal_phase entry.wait_phase) }
{}

/// Leaving adds nothing to the part of a task, which has then dropped its registration.
pub fn leaves()
    ensures part { (me : ℕ) (old new : History) → Leaves me old new → PartStays me old new }
    ensures dropped { (me : ℕ) (old new : History)
        → Leaves me old new → has_dropped new me ≡ true }
{}
