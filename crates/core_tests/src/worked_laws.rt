//! Each law of histories, used at the histories of one phaser. These functions make no call and
//! have no effect: what a law says of a history is the contract here.
ghost use Rattle.std.specs.Prelude.{◌≡◌, ◌≢◌, ◌+◌, ◌≤◌, ℕ, [], ◌∷◌, length, Some, None, pos, IsSome, true, false, ◌↔◌, get_or};
ghost use Rattle.std.specs.List.{All, sum_by};
ghost use mathlib.Core.List.{IsPrefix};
ghost use Rattle.phase_base.specs.Members.{entry_of};
ghost use Rattle.phase_base.specs.declared.entry.Entry.{Entry};
ghost use Rattle.phase_base.specs.declared.mode.Mode.TheVariants.{Sig, Wait, Single};
ghost use Rattle.phase_accum.specs.Values.{IsInRange, sum_value};
ghost use Rattle.phase_accum.specs.declared.outcome.Outcome.TheVariants.{Value};
ghost use Rattle.phase_history.specs.declared.call.Call.TheVariants as call;
ghost use Rattle.phase_history.specs.declared.event.Event.TheVariants.{Signalled};
ghost use Rattle.phase_history.specs.declared.refusal.RegisterRefusal.TheVariants as register;
ghost use Rattle.phase_history.specs.declared.refusal.SignalRefusal.TheVariants as signal;
ghost use Rattle.phase_history.specs.declared.refusal.WaitRefusal.TheVariants as wait;
ghost use Rattle.phase_history.specs.Histories.{IsBeginning, HasNoSignaller, IsAlive, entry_at, founder, members_of, done_of, top_of, wait_phase, start_of, has_dropped, phases_signalled, phases_waited};
ghost use Rattle.phase_history.specs.Phases.{stream_of, received_by, sends_of_phase, named_in_phase, single_of_phase};
ghost use Rattle.phase_history.specs.Legal.{AreLists, IsLegal};
ghost use Rattle.phase_history.specs.Laws.{HasReceived, HasReceivedFrom, HasCounted, HasNoEvents, IsInTurn, IsAnswered, GoesOn, GoesOnPlainly};
ghost use Rattle.phase_history.specs.Blocks.{one_by_one_refusal, one_by_one, LeavesSame, IsAnsweredBlock};
ghost use Rattle.phase_history.specs.Others.{IsUsed, OnlyUsed, OthersCame, events_of, phases_of_signal, phases_of_wait};
ghost use Rattle.phase_history.specs.Sent.{sent_by, sent_in, gathered, IsSilent, ReachesTop};
ghost use Rattle.phase_history.specs.Refusals.{register_refusal, register_now_refusal, signal_refusal, wait_refusal, drop_refusal};
ghost use Rattle.phase_history.specs.Replies.{refused_or, signal_reply, wait_reply, wait_block_reply, reply_to, after_reply, after_register, after_register_now, after_signal, after_wait, after_wait_block, after_drop};
ghost use Rattle.core_tests.specs.Worked.{worked_limits, founded, one_child, one_signal, two_signals, one_wait, all_left, all_got, everyone_left, half_turn, late_child, one_list, two_lists};

use phase_accum::{Sum, laws as values};
use phase_history::laws;

/// What tasks have received, and that it is in range.
fn received_streams()
    ensures got { HasReceived sum_value one_wait 2 (entry_at Wait 0 1) }
    ensures left { HasReceivedFrom sum_value one_wait 0 founder }
    ensures stream { All IsInRange (stream_of sum_value one_wait) }
    ensures answer { IsInRange (Value (pos 7)) }
    ensures counted { length (received_by sum_value one_wait 2) ≡ phases_waited one_wait 2 }
{
    laws::got();
    laws::received();
    laws::in_range::<Sum>();
    laws::received_are_counted();
}

/// What longer histories keep.
fn longer_histories()
    ensures prefix { IsPrefix (stream_of sum_value one_signal) (stream_of sum_value one_wait) }
    ensures closed { stream_of sum_value all_got ≡ stream_of sum_value all_left }
    ensures no_signaller { HasNoSignaller all_got }
    ensures legal { IsLegal worked_limits one_signal }
    ensures itself { IsBeginning one_wait one_wait }
    ensures transitive { IsBeginning one_signal all_left }
    ensures nested { IsBeginning one_signal one_wait }
{
    laws::prefix();
    laws::closed();
    laws::beginning_is_legal();
    laws::beginnings();
}

/// What calls are answered, and what they leave.
fn answered_calls()
    ensures wait { IsAnswered sum_value two_signals 2 0 (Value (pos 7)) }
    ensures block { IsAnsweredBlock sum_value two_signals 2 2 0 2 }
    ensures quiet { HasNoSignaller all_got }
    ensures got_all { done_of all_got ≤ wait_phase all_got 2 }
    ensures legal { IsLegal worked_limits (after_reply (call.Signal 1 one_list None)
        (reply_to sum_value worked_limits one_wait (call.Signal 1 one_list None)) one_wait) }
    ensures refused { signal_refusal worked_limits one_wait 1 two_lists None
        ≡ one_by_one_refusal worked_limits one_wait 1 two_lists None }
    ensures leaves { LeavesSame (Signalled 1 two_lists None ∷ one_wait)
        (one_by_one one_wait 1 two_lists None) }
{
    laws::answers();
    laws::block_answers();
    laws::ended();
    laws::accepted();
    laws::block_signals();
    laws::block_leaves();
}

/// What each call's own word says of the history after it.
fn calls_as_events()
    ensures register { (child : ℕ)
        → after_register (refused_or (register_refusal one_wait 1 child Sig) child)
        1 child Sig one_wait
        ≡ after_reply (call.Register 1 child Sig)
        (reply_to sum_value worked_limits one_wait (call.Register 1 child Sig)) one_wait }
    ensures register_now { after_register_now
        (refused_or (register_now_refusal one_wait 2 3) (done_of one_wait)) 2 3 one_wait
        ≡ after_reply (call.RegisterNow 2 3)
        (reply_to sum_value worked_limits one_wait (call.RegisterNow 2 3)) one_wait }
    ensures signal { after_signal (signal_reply worked_limits one_wait 1 one_list None)
        1 one_list None one_wait
        ≡ after_reply (call.Signal 1 one_list None)
        (reply_to sum_value worked_limits one_wait (call.Signal 1 one_list None)) one_wait }
    ensures wait { after_wait (wait_reply sum_value worked_limits one_wait 2) 2 one_wait
        ≡ after_reply (call.Wait 2)
        (reply_to sum_value worked_limits one_wait (call.Wait 2)) one_wait }
    ensures wait_block { after_wait_block (wait_block_reply worked_limits one_wait 2 2) 2 one_wait
        ≡ after_reply (call.WaitBlock 2 2)
        (reply_to sum_value worked_limits one_wait (call.WaitBlock 2 2)) one_wait }
    ensures drop { (task : ℕ)
        → after_drop (refused_or (drop_refusal one_wait task) task) task one_wait
        ≡ after_reply (call.Drop task)
        (reply_to sum_value worked_limits one_wait (call.Drop task)) one_wait }
{
    laws::after();
}

/// Where tasks stand, by their events.
fn counted_phases()
    ensures counted { HasCounted one_wait 1 (entry_at Sig 2 0) }
    ensures alive { IsAlive one_wait 1
        ↔ (IsSome (start_of one_wait 1) × (has_dropped one_wait 1 ≡ false)) }
    ensures mode { (start entry : Entry) → start_of one_wait 1 ≡ Some start
        → entry_of (members_of one_wait) 1 ≡ Some entry → entry.mode ≡ start.mode }
    ensures signalled { phases_signalled one_wait 1
        ≡ sum_by phases_of_signal (events_of 1 one_wait) }
    ensures waited { phases_waited one_wait 2 ≡ sum_by phases_of_wait (events_of 2 one_wait) }
    ensures turns { IsInTurn (entry_at Single 1 0) }
    ensures bound { top_of one_wait ≤ 1 + 2 }
    ensures top { top_of one_wait ≤ 100 }
{
    laws::counted();
    laws::alive();
    laws::mode_stays();
    laws::events_add_up();
    laws::turns();
    laws::bound();
    laws::top();
}

/// Which numbers were used.
fn used_numbers()
    ensures never { HasNoEvents sum_value one_wait 3 }
    ensures above { HasNoEvents sum_value one_wait 4 }
    ensures silent { IsSilent one_wait 3 }
    ensures used { IsUsed one_wait 2 }
    ensures start { start_of one_wait 2 ≡ Some (entry_at Wait 0 0) }
    ensures member { IsUsed one_wait 1 }
    ensures only { OnlyUsed (0 ∷ []) founded }
    ensures descend { OnlyUsed (0 ∷ 1 ∷ []) one_child }
{
    laws::unused();
    laws::unused_is_silent();
    laws::use_stays();
    laws::member_is_used();
    laws::only_used_stays();
    laws::all_descend();
}

/// Whose events there are, and that some task can go on.
fn no_strangers()
    ensures registered { IsAlive two_signals 2 }
    ensures used { IsUsed two_signals 2 }
    ensures unused { events_of 3 one_wait ≡ [] }
    ensures goes { GoesOn worked_limits one_wait }
    ensures plainly { GoesOnPlainly worked_limits one_wait }
{
    laws::no_stranger();
    laws::no_standstill();
}

/// That task 2 waited is others' event for task 1.
fn events_of_others()
    ensures beginning { IsBeginning two_signals one_wait }
    ensures reflexive { OthersCame (1 ∷ []) one_wait one_wait }
    ensures event { OthersCame (1 ∷ []) two_signals one_wait }
    ensures transitive { OthersCame (1 ∷ []) two_signals one_wait }
    ensures fewer { OthersCame [] two_signals one_wait }
    ensures entry { entry_of (members_of one_wait) 1 ≡ Some (entry_at Sig 2 0) }
{
    laws::others_come();
    laws::entry_stays();
}

/// What task 1 did stays where task 2 waits.
fn own_part()
    ensures events { events_of 1 one_wait ≡ events_of 1 two_signals }
    ensures received { received_by sum_value one_wait 1 ≡ received_by sum_value two_signals 1 }
    ensures signalled { phases_signalled one_wait 1 ≡ phases_signalled two_signals 1 }
    ensures waited { phases_waited one_wait 1 ≡ phases_waited two_signals 1 }
    ensures dropped { has_dropped one_wait 1 ≡ has_dropped two_signals 1 }
    ensures whole { sent_by one_wait 1 ≡ sent_by two_signals 1 }
    ensures phase { sent_in one_wait 1 0 ≡ sent_in two_signals 1 0 }
    ensures together { gathered one_wait (1 ∷ []) 0 ≡ gathered two_signals (1 ∷ []) 0 }
{
    laws::own_part_stays();
    laws::sent_stays();
}

/// What the tasks have sent.
fn sends_of_tasks()
    ensures gathered { sum_value (sends_of_phase one_wait 0)
        ≡ sum_value (gathered one_wait (1 ∷ []) 0) }
    ensures one_sender { sends_of_phase one_wait 0 ≡ sent_in one_wait 1 0 }
    ensures placed { sent_in one_wait 1 (0 + 1) ≡ get_or (sent_by one_wait 1) 1 [] }
    ensures below { sent_in late_child 3 0 ≡ [] }
    ensures counted { length (sent_by one_wait 1) ≡ phases_signalled one_wait 1 }
    ensures named { IsSome (named_in_phase one_wait 0) }
    ensures single { single_of_phase one_wait 0 ≡ None }
{
    values::sum_exchanges();
    laws::sends_are_gathered();
    laws::one_sender();
    laws::sent_in_turn();
    laws::each_phase_is_named();
}

/// What task 1, which alone has sent, put into a phase.
fn sends_together()
    ensures alone { sends_of_phase one_wait 0 ≡ gathered one_wait (1 ∷ []) 0 }
    ensures sendable { AreLists (sent_by one_wait 1) }
{
    laws::gathered_alone();
    laws::sent_are_lists();
}

/// Who holds the phases open.
fn open_phases()
    ensures open { done_of one_wait ≤ 0 + phases_signalled one_wait 1 }
    ensures dropped { has_dropped all_left 1 ≡ true }
    ensures done { done_of all_left ≡ top_of all_left }
    ensures left { HasNoSignaller everyone_left }
    ensures reached { ReachesTop one_wait }
    ensures below { 0 + phases_signalled one_wait 1 ≤ top_of one_wait }
{
    laws::holds_open();
    laws::all_dropped();
    laws::all_left();
    laws::top_is_reached();
}

/// A registered task's calls are not refused as those of no task.
fn known_members()
    ensures register { register_refusal one_wait 1 3 Sig ≢ Some register.NoTask }
    ensures register_now { register_now_refusal one_wait 2 3 ≢ Some register.NoTask }
    ensures signal { signal_refusal worked_limits one_wait 1 two_lists None ≢ Some signal.NoTask }
    ensures wait { wait_refusal worked_limits one_wait 2 1 ≢ Some wait.NoTask }
    ensures drop { drop_refusal one_wait 1 ≡ None }
{
    laws::member_is_known();
}
