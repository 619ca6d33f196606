//! A session: the lines of a script, one at a time.
ghost use Rattle.std.specs.Prelude.{◌≡◌, ◌≤◌, ℕ, ℤ, List, length, [], ◌∷◌, ◌++◌, OnOk, OnErr, IfOk, Some, None};
ghost use Rattle.phase_script.specs.ReplyLines.{whole_reply, Tells, IsOneLine};
ghost use Rattle.phase_script.specs.declared.reply_line.TheConstants.{REPLY_MAX};
ghost use Rattle.phase_script.specs.Commands.{whole_command, command_of, IsCommand};
ghost use Rattle.phase_replay.specs.Scripts.{ScriptState, start, reply_line_of, after_line, command_reply, after_command, state_after, reply_of_line, IsOkReply, MayWantMemory};
ghost use Rattle.phase_replay.specs.Session.{MaybeStandsFor};

use crate::any_phaser::AnyPhaser;
use phase_base::{Spec, SpecFault};
use phase_script::{Command, Outcomes, Refusal, Reply, ReplyLine, Values, read};
use std::alloc::{AllocError, Global};
use std::marker::Model;

// The reply to a command with these values, where a phaser was made or none was yet. What a block
// of phases gave comes into `outcomes`.
#[tactic(auto, unfolding(crate::specs::Session::MaybeStandsFor, crate::specs::Scripts::command_reply, crate::specs::Scripts::after_command))]
fn obey(
    phaser: &mut Option<AnyPhaser>,
    alloc: Global,
    command: Command,
    values: &Values,
    outcomes: &mut Outcomes,
) -> Result<Reply, AllocError>
    requires { IsCommand (whole_command values.now command) }
    ensures reply { IfOk result (λ reply. (state : ScriptState) → MaybeStandsFor phaser.old state
        → whole_reply outcomes.new reply
        ≡ command_reply state (whole_command values.now command)) }
    ensures after { OnOk result ((state : ScriptState) → MaybeStandsFor phaser.old state
        → MaybeStandsFor phaser.new (after_command state (whole_command values.now command))) }
    ensures err { OnErr result (phaser.new ≡ phaser.old) }
    ensures memory { OnErr result ((state : ScriptState) → MaybeStandsFor phaser.old state
        → IsOkReply (command_reply state (whole_command values.now command))) }
    ensures asks { OnErr result (MayWantMemory (Some (whole_command values.now command))) }
{
    let Some(made) = phaser else {
        return begin(phaser, alloc, command);
    };
    made.obey(command, values, outcomes)
}

// The reply to a command where no phaser was made yet.
#[tactic(auto, unfolding(crate::specs::Session::MaybeStandsFor, crate::specs::Scripts::command_reply, crate::specs::Scripts::after_command))]
fn begin(
    phaser: &mut Option<AnyPhaser>,
    alloc: Global,
    command: Command,
) -> Result<Reply, AllocError>
    requires { phaser.old ≡ None }
    ensures reply { IfOk result (λ reply. (state : ScriptState) (values : List ℤ)
        → MaybeStandsFor phaser.old state
        → Tells reply (command_reply state (whole_command values command))) }
    ensures after { OnOk result ((state : ScriptState) (values : List ℤ)
        → MaybeStandsFor phaser.old state
        → MaybeStandsFor phaser.new (after_command state (whole_command values command))) }
    ensures err { OnErr result (phaser.new ≡ phaser.old) }
    ensures memory { OnErr result ((state : ScriptState) (values : List ℤ)
        → MaybeStandsFor phaser.old state
        → IsOkReply (command_reply state (whole_command values command))) }
    ensures asks { OnErr result ((values : List ℤ)
        → MayWantMemory (Some (whole_command values command))) }
{
    let Command::Make {
        operation,
        bound,
        phases,
    } = command
    else {
        return Ok(Reply::Refused(Refusal::NoPhaser));
    };
    let spec = match Spec::new(bound, phases) {
        Ok(spec) => spec,
        Err(SpecFault::BadBound) => return Ok(Reply::Refused(Refusal::BadBound)),
        Err(SpecFault::BadPhases) => return Ok(Reply::Refused(Refusal::BadPhases)),
    };
    *phaser = Some(AnyPhaser::new(alloc, operation, spec)?);
    Ok(Reply::Accepted)
}

/// A script that is answered line by line. It holds at most one phaser, and the sends that the
/// phaser's tasks hold.
///
/// ```text
/// make sum 2 100      ok
/// send 0 5            ok
/// signal 0            ok 0
/// wait 0              value 0 5
/// ```
#[derive(Drop)]
pub struct Session {
    alloc: Global,
    phaser: Option<AnyPhaser>,
    values: Values,
    outcomes: Outcomes,
}

impl Model for Session {
    ghost use Rattle.phase_replay.specs.Session.{SessionState, session_of, IsSession};

    ghost Value = { SessionState };

    ghost view = { λ s. session_of s.alloc s.phaser };

    ghost invariant = { λ s. IsSession s.phaser };
}

#[tactic(auto, unfolding(crate::specs::Session::SessionStands, crate::specs::Session::MaybeStandsFor, crate::specs::Scripts::start, crate::specs::Scripts::reply_line_of, crate::specs::Scripts::after_line))]
impl Session {
    ghost use Rattle.phase_replay.specs.Session.{SessionStands, StandsForLines};

    /// Makes a session before its first line. It takes no memory.
    pub fn new(alloc: Global) -> Session
        ensures { SessionStands result start }
    {
        Session {
            alloc,
            phaser: None,
            values: Values::new(),
            outcomes: Outcomes::new(),
        }
    }

    /// Answers one line, given with neither its LF nor the CR before it.
    ///
    /// Want of memory comes only from a `make`, `add`, `now` or `send` that would be answered `ok`,
    /// and leaves the session unchanged.
    #[tactic(auto, using(crate::proofs::Scripted::state_after_push), unfolding(crate::specs::Session::SessionStands, crate::specs::Scripts::reply_line_of, crate::specs::Scripts::after_line))]
    pub fn line(&mut self, line: &[u8]) -> Result<ReplyLine, AllocError>
        ensures reply { IfOk result (λ reply. (state : ScriptState) → SessionStands self.old state
            → reply ≡ reply_line_of state line.now) }
        ensures after { OnOk result ((state : ScriptState) → SessionStands self.old state
            → SessionStands self.new (after_line state line.now)) }
        ensures err { OnErr result (self.new ≡ self.old) }
        // Memory is wanted only where the line would be answered `ok`.
        ensures memory { OnErr result ((state : ScriptState) → SessionStands self.old state
            → IsOkReply (reply_of_line state (command_of line.now))) }
        // Only a `make`, an `add`, a `now` or a `send` wants it.
        ensures asks { OnErr result (MayWantMemory (command_of line.now)) }
        // A reply is one line, of at most 363 bytes.
        ensures one_line { IfOk result (λ reply. IsOneLine reply × (length reply ≤ REPLY_MAX)) }
        // A session stands for some state, whatever was done with it before.
        ensures stands { (state : ScriptState) × SessionStands self.old state }
        // The same over the lines so far: the session then stands for them with this one.
        ensures script { IfOk result (λ reply. (lines : List (List ℕ))
            → StandsForLines self.old lines → (reply ≡ reply_line_of (state_after lines) line.now)
            × StandsForLines self.new (lines ++ line.now ∷ [])) }
    {
        let mut reply = ReplyLine::new();
        self.answer(line, &mut reply)?;
        Ok(reply)
    }

    /// The same as `line`, with the reply in place of the line that `reply` had. Want of memory
    /// leaves that line too.
    #[tactic(auto, unfolding(crate::specs::Session::SessionStands, crate::specs::Scripts::reply_line_of, crate::specs::Scripts::after_line))]
    pub fn answer(&mut self, line: &[u8], reply: &mut ReplyLine) -> Result<(), AllocError>
        ensures reply { OnOk result ((state : ScriptState) → SessionStands self.old state
            → reply.new ≡ reply_line_of state line.now) }
        ensures after { OnOk result ((state : ScriptState) → SessionStands self.old state
            → SessionStands self.new (after_line state line.now)) }
        ensures err { OnErr result ((self.new ≡ self.old) × (reply.new ≡ reply.old)) }
        ensures memory { OnErr result ((state : ScriptState) → SessionStands self.old state
            → IsOkReply (reply_of_line state (command_of line.now))) }
        ensures asks { OnErr result (MayWantMemory (command_of line.now)) }
        ensures one_line { OnOk result (IsOneLine reply.new × (length reply.new ≤ REPLY_MAX)) }
        ensures stands { (state : ScriptState) × SessionStands self.old state }
    {
        let Some(command) = read(line, &mut self.values) else {
            reply.write(Reply::BadLine, &self.outcomes);
            return Ok(());
        };
        let answer = obey(
            &mut self.phaser,
            self.alloc,
            command,
            &self.values,
            &mut self.outcomes,
        )?;
        reply.write(answer, &self.outcomes);
        Ok(())
    }
}
