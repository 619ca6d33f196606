//! The phaser of a session, with the sends that its tasks hold.
ghost use Rattle.std.specs.Prelude.{◌≡◌, ◌≢◌, ◌≤◌, length, List, [], ◌∷◌, IfOk, OnOk, OnErr, Some, None};
ghost use Rattle.phase_base.specs.Limits.{Limits};
ghost use Rattle.phase_accum.specs.Sends.{IsSend};
ghost use Rattle.phase_history.specs.declared.call.Call.TheVariants as call;
ghost use Rattle.phase_history.specs.Histories.{History};
ghost use Rattle.phase_history.specs.Refusals.{drop_refusal};
ghost use Rattle.phase_history.specs.Replies.{reply_to, signal_reply};
ghost use Rattle.phase_script.specs.Commands.{whole_command, IsCommand, IsBlock};
ghost use Rattle.phase_script.specs.ReplyLines.{whole_reply, Tells, Values};
ghost use Rattle.phase_script.specs.declared.values.TheConstants.{VALUES_MAX};
ghost use Rattle.phase_replay.specs.Scripts.{Held, held_by, send_reply, held_after_send, script_reply, held_signal, after_call, register_reason, signal_reason, wait_reason, block_reply, after_block, take_reply, value_reply, held_after_signal, held_after_drop, IsOkReply, MayWantMemory, phaser_reply, history_after, held_after};

use crate::block_sends::BlockSends;
use crate::held_sends::HeldSends;
use phase_accum::{Accumulate, Outcome, SendFault, Single};
use phase_base::{Mode, Spec};
use phase_core::{Got, GotBlock, PhaserCore, RegisterRefusal, SignalRefusal, WaitRefusal};
use phase_script::{Command, Outcomes, Refusal, Reply, VALUES_MAX, Values};
use std::alloc::{AllocError, Global};

/// A phaser that a script made, and the sends that its tasks hold.
#[derive(Drop)]
pub struct ScriptPhaser<A: Accumulate> {
    core: PhaserCore<A>,
    held: HeldSends<A>,
    sends: BlockSends<A>,
}

// The reply that tells why a registration was refused. Want of memory is no reply.
fn register_reason(refusal: RegisterRefusal) -> Result<Reply, AllocError>
    ensures ok { IfOk result (λ reply. (refusal ≢ RegisterRefusal.OutOfMemory)
        × Tells reply (register_reason refusal)) }
    ensures err { OnErr result (refusal ≡ RegisterRefusal.OutOfMemory) }
{
    let reason = match refusal {
        RegisterRefusal::NoTask => Refusal::NoTask,
        RegisterRefusal::NotAllowed => Refusal::NotAllowed,
        RegisterRefusal::NotNew => Refusal::NotNew,
        RegisterRefusal::TooManyTasks => Refusal::TooManyTasks,
        RegisterRefusal::OutOfMemory => return Err(AllocError),
    };
    Ok(Reply::Refused(reason))
}

// The reply that tells why a signal was refused.
fn signal_reason(refusal: SignalRefusal) -> Reply
    ensures { Tells result (signal_reason refusal) }
{
    let reason = match refusal {
        SignalRefusal::NoTask => Refusal::NoTask,
        SignalRefusal::NoSignal => Refusal::NoSignal,
        SignalRefusal::NotSingle => Refusal::NotSingle,
        SignalRefusal::SignalTwice => Refusal::SignalTwice,
        SignalRefusal::Spent => Refusal::Spent,
        SignalRefusal::Ahead => Refusal::Ahead,
        SignalRefusal::SingleDiffers => Refusal::SingleDiffers,
        SignalRefusal::PhaseFull => Refusal::PhaseFull,
        SignalRefusal::BadBlock => Refusal::BadBlock,
    };
    Reply::Refused(reason)
}

// The reply that tells why a wait was refused.
fn wait_reason(refusal: WaitRefusal) -> Reply
    ensures { Tells result (wait_reason refusal) }
{
    let reason = match refusal {
        WaitRefusal::NoTask => Refusal::NoTask,
        WaitRefusal::NoWait => Refusal::NoWait,
        WaitRefusal::SignalFirst => Refusal::SignalFirst,
        WaitRefusal::NotYet => Refusal::NotYet,
        WaitRefusal::BadBlock => Refusal::BadBlock,
    };
    Reply::Refused(reason)
}

// The reply that tells the value of a phase.
fn value_reply(phase: u64, outcome: Outcome) -> Reply
    ensures { Tells result (value_reply phase outcome) }
{
    match outcome {
        Outcome::Value(value) => Reply::Value { phase, value },
        Outcome::Empty => Reply::Empty { phase },
        Outcome::TooBig => Reply::TooBig { phase },
    }
}

// Keeps what the phases gave.
fn keep(places: &[Outcome], outcomes: &mut Outcomes)
    requires { length places.now ≤ VALUES_MAX }
    ensures { outcomes.new ≡ places.now }
{
    outcomes.clear();
    for outcome in places {
        outcomes.push(*outcome);
    }
}

impl<A: Accumulate> ScriptPhaser<A> {
    ghost use Rattle.phase_history.specs.declared.event.Event.TheVariants.{Made};
    ghost use Rattle.phase_replay.specs.Session.{ScriptPhaserStandsFor};

    /// Makes a phaser whose founder, task 0, holds no sends.
    pub fn new(alloc: Global, spec: Spec) -> Result<ScriptPhaser<A>, AllocError>
        ensures { IfOk result (λ phaser.
            ScriptPhaserStandsFor A.operation phaser spec (Made 0 ∷ []) []) }
    {
        Ok(ScriptPhaser {
            core: PhaserCore::new(alloc, spec, 0)?,
            held: HeldSends::new(alloc),
            sends: BlockSends::new(alloc)?,
        })
    }

    /// The reply to a command with these values. What a block of phases gave comes into `outcomes`.
    pub fn obey(
        &mut self,
        command: Command,
        values: &Values,
        outcomes: &mut Outcomes,
    ) -> Result<Reply, AllocError>
        requires { IsCommand (whole_command values.now command) }
        ensures reply { IfOk result (λ reply. (limits : Limits) (h : History) (held : Held)
            → ScriptPhaserStandsFor A.operation self.old limits h held
            → whole_reply outcomes.new reply ≡ phaser_reply A.operation.value limits h held
            (whole_command values.now command)) }
        ensures after { OnOk result ((limits : Limits) (h : History) (held : Held)
            → ScriptPhaserStandsFor A.operation self.old limits h held
            → ScriptPhaserStandsFor A.operation self.new limits
            (history_after A.operation.value limits h held (whole_command values.now command))
            (held_after limits h held (whole_command values.now command))) }
        ensures err { OnErr result (self.new ≡ self.old) }
        ensures memory { OnErr result ((limits : Limits) (h : History) (held : Held)
            → ScriptPhaserStandsFor A.operation self.old limits h held
            → IsOkReply (phaser_reply A.operation.value limits h held
            (whole_command values.now command))) }
        ensures asks { OnErr result (MayWantMemory (Some (whole_command values.now command))) }
    {
        match command {
            Command::Make { .. } => Ok(Reply::Refused(Refusal::Made)),
            Command::Add {
                parent,
                child,
                mode,
            } => self.add(parent, child, mode),
            Command::Now { parent, child } => self.add_now(parent, child),
            Command::Send { task, value } => self.send(task, value),
            Command::Signal { task, single } => Ok(self.signal(task, single)),
            Command::Block { task } => Ok(self.block(task, values)),
            Command::Wait { task } => Ok(self.wait(task)),
            Command::Take { task, phases } => Ok(self.take(task, phases, outcomes)),
            Command::Drop { task } => Ok(self.drop_task(task)),
        }
    }

    // Registers the child.
    fn add(&mut self, parent: u64, child: u64, mode: Mode) -> Result<Reply, AllocError>
        ensures reply { IfOk result (λ reply. (limits : Limits) (h : History) (held : Held)
            → ScriptPhaserStandsFor A.operation self.old limits h held
            → Tells reply (script_reply
            (reply_to A.operation.value limits h (call.Register parent child mode)))) }
        ensures after { OnOk result ((limits : Limits) (h : History) (held : Held)
            → ScriptPhaserStandsFor A.operation self.old limits h held
            → ScriptPhaserStandsFor A.operation self.new limits
            (after_call A.operation.value limits h (call.Register parent child mode)) held) }
        ensures err { OnErr result (self.new ≡ self.old) }
        ensures memory { OnErr result ((limits : Limits) (h : History) (held : Held)
            → ScriptPhaserStandsFor A.operation self.old limits h held
            → IsOkReply (script_reply
            (reply_to A.operation.value limits h (call.Register parent child mode)))) }
    {
        match self.core.register(parent, child, mode) {
            Ok(()) => Ok(Reply::Accepted),
            Err(refusal) => register_reason(refusal),
        }
    }

    // Registers the child as a waiter that joins now.
    fn add_now(&mut self, parent: u64, child: u64) -> Result<Reply, AllocError>
        ensures reply { IfOk result (λ reply. (limits : Limits) (h : History) (held : Held)
            → ScriptPhaserStandsFor A.operation self.old limits h held
            → Tells reply (script_reply
            (reply_to A.operation.value limits h (call.RegisterNow parent child)))) }
        ensures after { OnOk result ((limits : Limits) (h : History) (held : Held)
            → ScriptPhaserStandsFor A.operation self.old limits h held
            → ScriptPhaserStandsFor A.operation self.new limits
            (after_call A.operation.value limits h (call.RegisterNow parent child)) held) }
        ensures err { OnErr result (self.new ≡ self.old) }
        ensures memory { OnErr result ((limits : Limits) (h : History) (held : Held)
            → ScriptPhaserStandsFor A.operation self.old limits h held
            → IsOkReply (script_reply
            (reply_to A.operation.value limits h (call.RegisterNow parent child)))) }
    {
        match self.core.register_now(parent, child) {
            Ok(phase) => Ok(Reply::Joined { phase }),
            Err(refusal) => register_reason(refusal),
        }
    }

    // Holds one more send for the task.
    fn send(&mut self, task: u64, value: i64) -> Result<Reply, AllocError>
        requires { IsSend value }
        ensures reply { IfOk result (λ reply. (limits : Limits) (h : History) (held : Held)
            → ScriptPhaserStandsFor A.operation self.old limits h held
            → Tells reply (send_reply h held task)) }
        ensures after { OnOk result ((limits : Limits) (h : History) (held : Held)
            → ScriptPhaserStandsFor A.operation self.old limits h held
            → ScriptPhaserStandsFor A.operation self.new limits h
            (held_after_send (send_reply h held task) held task value)) }
        ensures err { OnErr result (self.new ≡ self.old) }
        ensures memory { OnErr result ((limits : Limits) (h : History) (held : Held)
            → ScriptPhaserStandsFor A.operation self.old limits h held
            → IsOkReply (send_reply h held task)) }
    {
        let Some(entry) = self.core.view(task) else {
            return Ok(Reply::Refused(Refusal::NoTask));
        };
        if !entry.mode.signals() {
            return Ok(Reply::Refused(Refusal::NoSignal));
        }
        let mut pending = self.held.of(task);
        match pending.send(value) {
            Ok(()) => {
                self.held.put(task, pending)?;
                Ok(Reply::Accepted)
            }
            Err(SendFault::TooManySends) => Ok(Reply::Refused(Refusal::TooManySends)),
            Err(SendFault::BadValue) => unreachable!(),
        }
    }

    // Makes the task's signal, with the sends that it holds.
    fn signal(&mut self, task: u64, single: Option<Single>) -> Reply
        ensures reply { (limits : Limits) (h : History) (held : Held)
            → ScriptPhaserStandsFor A.operation self.old limits h held
            → Tells result (script_reply
            (reply_to A.operation.value limits h (held_signal held task single))) }
        ensures after { (limits : Limits) (h : History) (held : Held)
            → ScriptPhaserStandsFor A.operation self.old limits h held
            → ScriptPhaserStandsFor A.operation self.new limits
            (after_call A.operation.value limits h (held_signal held task single))
            (held_after_signal (signal_reply limits h task (held_by held task ∷ []) single)
            held task) }
    {
        let pending = self.held.of(task);
        match self.core.signal(task, pending, single) {
            Ok(phase) => {
                self.held.clear(task);
                Reply::Signalled { phase }
            }
            Err(refused) => signal_reason(refused.0),
        }
    }

    // Waits for the task's next phase.
    fn wait(&mut self, task: u64) -> Reply
        ensures reply { (limits : Limits) (h : History) (held : Held)
            → ScriptPhaserStandsFor A.operation self.old limits h held
            → Tells result (script_reply
            (reply_to A.operation.value limits h (call.Wait task))) }
        ensures after { (limits : Limits) (h : History) (held : Held)
            → ScriptPhaserStandsFor A.operation self.old limits h held
            → ScriptPhaserStandsFor A.operation self.new limits
            (after_call A.operation.value limits h (call.Wait task)) held }
    {
        match self.core.wait(task) {
            Ok(Got::Value { phase, outcome }) => value_reply(phase, outcome),
            Ok(Got::Ended) => Reply::Ended,
            Err(refusal) => wait_reason(refusal),
        }
    }

    // Signals a phase for each value, where the task holds no sends.
    fn block(&mut self, task: u64, values: &Values) -> Reply
        requires { IsBlock values.now }
        ensures reply { (limits : Limits) (h : History) (held : Held)
            → ScriptPhaserStandsFor A.operation self.old limits h held
            → Tells result (block_reply A.operation.value limits h held task values.now) }
        ensures after { (limits : Limits) (h : History) (held : Held)
            → ScriptPhaserStandsFor A.operation self.old limits h held
            → ScriptPhaserStandsFor A.operation self.new limits
            (after_block A.operation.value limits h held task values.now) held }
    {
        let Some(entry) = self.core.view(task) else {
            return Reply::Refused(Refusal::NoTask);
        };
        let signals = entry.mode.signals();
        if !signals {
            return Reply::Refused(Refusal::NoSignal);
        }
        if self.held.of(task).count() > 0 {
            return Reply::Refused(Refusal::Held);
        }
        self.sends.hold_each(values.as_slice());
        match self.core.signal_lists(task, self.sends.as_slice(), None) {
            Ok(phase) => Reply::Signalled { phase },
            Err(refusal) => signal_reason(refusal),
        }
    }

    // Waits for the task's next phases, as many as are complete, but no more than `phases`.
    fn take(&mut self, task: u64, phases: u64, outcomes: &mut Outcomes) -> Reply
        requires { phases ≤ VALUES_MAX }
        ensures reply { (limits : Limits) (h : History) (held : Held)
            → ScriptPhaserStandsFor A.operation self.old limits h held
            → whole_reply outcomes.new result
            ≡ take_reply A.operation.value limits h task phases }
        ensures after { (limits : Limits) (h : History) (held : Held)
            → ScriptPhaserStandsFor A.operation self.old limits h held
            → ScriptPhaserStandsFor A.operation self.new limits
            (after_call A.operation.value limits h (call.WaitBlock task phases)) held }
    {
        let mut places = [Outcome::Empty; VALUES_MAX];
        match self.core.wait_block(task, &mut places[..phases as usize]) {
            Ok(GotBlock::Values { phase, count }) => {
                keep(&places[..count as usize], outcomes);
                Reply::Values { phase }
            }
            Ok(GotBlock::Ended) => Reply::Ended,
            Err(refusal) => wait_reason(refusal),
        }
    }

    // Drops the task's registration, and gives up its sends.
    fn drop_task(&mut self, task: u64) -> Reply
        ensures reply { (limits : Limits) (h : History) (held : Held)
            → ScriptPhaserStandsFor A.operation self.old limits h held
            → Tells result (script_reply
            (reply_to A.operation.value limits h (call.Drop task))) }
        ensures after { (limits : Limits) (h : History) (held : Held)
            → ScriptPhaserStandsFor A.operation self.old limits h held
            → ScriptPhaserStandsFor A.operation self.new limits
            (after_call A.operation.value limits h (call.Drop task))
            (held_after_drop (drop_refusal h task) held task) }
    {
        let Ok(()) = self.core.drop_task(task) else {
            return Reply::Refused(Refusal::NoTask);
        };
        self.held.clear(task);
        Reply::Accepted
    }
}
