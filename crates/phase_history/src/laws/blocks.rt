//! Laws of blocks of phases, and of what a call with its reply makes of a history.
ghost use Rattle.std.specs.Prelude.{◌≡◌, ℕ, ℤ, List, ◌∷◌, length, Option, Ok, false};
ghost use Rattle.phase_base.specs.Limits.{Limits};
ghost use Rattle.phase_accum.specs.declared.outcome.Outcome.{Outcome};
ghost use Rattle.phase_accum.specs.declared.single.Single.{Single};
ghost use Rattle.phase_base.specs.declared.mode.Mode.{Mode};
ghost use Rattle.phase_history.specs.Histories.{History, IsAlive, done_of};
ghost use Rattle.phase_history.specs.Legal.{IsLegal};
ghost use Rattle.phase_history.specs.Refusals.{is_bad_block, register_refusal, register_now_refusal, signal_refusal, drop_refusal};
ghost use Rattle.phase_history.specs.Replies.{refused_or, signal_reply, wait_reply, wait_block_reply, reply_to, after_reply, after_register, after_register_now, after_signal, after_wait, after_wait_block, after_drop};
ghost use Rattle.phase_history.specs.Blocks.{one_by_one_refusal, one_by_one, LeavesSame, IsAnsweredBlock, CanBeMade};

use crate::call::Call;
use crate::event::Event;
use crate::got::GotBlock;

/// A block that is neither too short nor too long is refused as the first of its signals that would
/// be refused, were they made one by one.
pub fn block_signals()
    ensures { (limits : Limits) (h : History) (task : ℕ) (lists : List (List ℤ))
        (single : Option Single) → is_bad_block limits (length lists) ≡ false
        → signal_refusal limits h task lists single
        ≡ one_by_one_refusal limits h task lists single }
{}

/// A block leaves what its signals one by one leave, where the task is registered.
pub fn block_leaves()
    ensures { (h : History) (task : ℕ) (sends : List ℤ) (lists : List (List ℤ))
        (single : Option Single) → IsAlive h task
        → LeavesSame (Event.Signalled task (sends ∷ lists) single ∷ h)
        (one_by_one h task (sends ∷ lists) single) }
{}

/// What a wait for a block is answered is what its task then has received last: the values of the
/// complete phases from its wait phase on, at most as many as it asked for.
pub fn block_answers()
    ensures { (value : List ℤ → Outcome) (limits : Limits) (h : History) (task n phase count : ℕ)
        → wait_block_reply limits h task n ≡ Ok (GotBlock.Values phase count)
        → IsAnsweredBlock value h task n phase count }
{}

/// A call and its reply leave a legal history, where what it sends and names can be.
pub fn accepted()
    ensures { (value : List ℤ → Outcome) (limits : Limits) (h : History) (call : Call)
        → IsLegal limits h → CanBeMade call
        → IsLegal limits (after_reply call (reply_to value limits h call) h) }
{}

/// What each call's own word says of the history after its result is what the call and its reply
/// make of the history.
pub fn after()
    ensures register { (value : List ℤ → Outcome) (limits : Limits) (h : History)
        (parent child : ℕ) (mode : Mode)
        → after_register (refused_or (register_refusal h parent child mode) child)
        parent child mode h
        ≡ after_reply (Call.Register parent child mode)
        (reply_to value limits h (Call.Register parent child mode)) h }
    ensures register_now { (value : List ℤ → Outcome) (limits : Limits) (h : History)
        (parent child : ℕ)
        → after_register_now (refused_or (register_now_refusal h parent child) (done_of h))
        parent child h
        ≡ after_reply (Call.RegisterNow parent child)
        (reply_to value limits h (Call.RegisterNow parent child)) h }
    ensures signal { (value : List ℤ → Outcome) (limits : Limits) (h : History) (task : ℕ)
        (lists : List (List ℤ)) (single : Option Single)
        → after_signal (signal_reply limits h task lists single) task lists single h
        ≡ after_reply (Call.Signal task lists single)
        (reply_to value limits h (Call.Signal task lists single)) h }
    ensures wait { (value : List ℤ → Outcome) (limits : Limits) (h : History) (task : ℕ)
        → after_wait (wait_reply value limits h task) task h
        ≡ after_reply (Call.Wait task) (reply_to value limits h (Call.Wait task)) h }
    ensures wait_block { (value : List ℤ → Outcome) (limits : Limits) (h : History) (task n : ℕ)
        → after_wait_block (wait_block_reply limits h task n) task h
        ≡ after_reply (Call.WaitBlock task n) (reply_to value limits h (Call.WaitBlock task n)) h }
    ensures drop { (value : List ℤ → Outcome) (limits : Limits) (h : History) (task : ℕ)
        → after_drop (refused_or (drop_refusal h task) task) task h
        ≡ after_reply (Call.Drop task) (reply_to value limits h (Call.Drop task)) h }
{}
