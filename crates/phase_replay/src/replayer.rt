//! A replay on its way: the session, the prefix of the line that is read, and the replies that
//! wait.
ghost use Rattle.std.specs.Prelude.{◌≡◌, ◌<◌, true, length, List, [], ℕ, ◌∷◌, ◌++◌, OnOk, OnErr};
ghost use Rattle.std.specs.Io.KnownBytes.{Appends};
ghost use Rattle.phase_script.specs.Cuts.{HasNoLf};
ghost use Rattle.watched_io.specs.Prefix.{AppendsPrefix};
ghost use Rattle.phase_replay.specs.Scripts.{ScriptState, reply_line_of, after_line};
ghost use Rattle.phase_replay.specs.Session.{SessionStands};

use crate::Session;
use crate::line_prefix::LinePrefix;
use phase_script::{ReplyLine, lf_of, without_cr};
use std::alloc::{AllocError, Global};
use std::io::Write;
use watched_io::{IoFault, Watched, WriteFailed};

// As soon as so many bytes of replies wait, they go to the writer.
const OUT_MAX: usize = 65536;

// Answers a line behind the replies that wait. The reply is made in `reply`.
fn answer_line(
    session: &mut Session,
    line: &[u8],
    reply: &mut ReplyLine,
    out: &mut Vec<u8>,
) -> Result<(), AllocError>
    ensures reply { OnOk result ((state : ScriptState) → SessionStands session.old state
        → out.new.items ≡ out.old.items ++ reply_line_of state line.now) }

    ensures after { OnOk result ((state : ScriptState) → SessionStands session.old state
        → SessionStands session.new (after_line state line.now)) }

    ensures err { OnErr result (out.new.items ≡ out.old.items) }
{
    session.answer(line, reply)?;
    out.extend_from_slice(reply.bytes())?;
    Ok(())
}

/// A replay on its way.
#[derive(Drop)]
pub struct Replayer {
    session: Session,
    kept: LinePrefix,
    reply: ReplyLine,
    out: Vec<u8>,
}

impl Replayer {
    ghost use Rattle.phase_replay.specs.Replayer.{ReplayerOwes, Goes, waiting_of, FaultIsNoted, IsNoted};
    ghost use Rattle.phase_replay.specs.Replies.{replies_of};
    ghost use Rattle.watched_io.specs.Watched.{inner_of, has_failed_of};

    /// Makes a replay of which no byte has been read.
    pub fn new(alloc: Global) -> Replayer
        ensures { (script : List ℕ) → ReplayerOwes result script (replies_of script) }
    {
        Replayer {
            session: Session::new(alloc),
            kept: LinePrefix::new(),
            reply: ReplyLine::new(),
            out: Vec::new(alloc),
        }
    }

    // Answers the line that `end` ends, and begins the next one.
    fn answer(&mut self, end: &[u8]) -> Result<(), AllocError>
        requires { HasNoLf end.now }
        ensures ok { OnOk result ((later owed : List ℕ)
            → ReplayerOwes self.old (end.now ++ 10 ∷ later) owed
            → ReplayerOwes self.new later owed) }

        ensures begun { OnOk result (self.new.kept ≡ []) }
        ensures err { OnErr result (waiting_of self.new ≡ waiting_of self.old) }
    {
        if self.kept.is_empty() {
            answer_line(
                &mut self.session,
                without_cr(end),
                &mut self.reply,
                &mut self.out,
            )?;
            return Ok(());
        }
        self.kept.extend(end);
        answer_line(
            &mut self.session,
            without_cr(self.kept.bytes()),
            &mut self.reply,
            &mut self.out,
        )?;
        self.kept.clear();
        Ok(())
    }

    /// Hands the replies that wait to the writer.
    pub fn hand_over<W: Write>(&mut self, writer: &mut Watched<W>) -> Result<(), WriteFailed>
        ensures ok { OnOk result ((later owed : List ℕ) → ReplayerOwes self.old later owed
            → Goes (W.contents (inner_of writer.old)) (W.contents (inner_of writer.new))
            self.new later owed) }

        ensures err { OnErr result ((later owed : List ℕ) → ReplayerOwes self.old later owed
            → AppendsPrefix (W.contents (inner_of writer.old)) (W.contents (inner_of writer.new))
            owed) }

        ensures failed { OnErr result (has_failed_of writer.new ≡ true) }
        ensures watched { OnOk result (has_failed_of writer.new ≡ has_failed_of writer.old) }
        ensures empty { OnOk result (waiting_of self.new ≡ []) }
    {
        writer.send(self.out.as_slice())?;
        self.out.clear();
        Ok(())
    }

    // Hands over the replies that wait, where memory ran out for the next one, and gives the fault
    // to tell: a write that fails then is told in place of the want of memory.
    fn stop<W: Write>(&self, writer: &mut Watched<W>) -> IoFault
        ensures prefix { (before : Replayer) (later owed : List ℕ) → ReplayerOwes before later owed
            → waiting_of self.now ≡ waiting_of before
            → AppendsPrefix (W.contents (inner_of writer.old)) (W.contents (inner_of writer.new))
            owed }
        ensures noted { FaultIsNoted result (has_failed_of writer.old) (has_failed_of writer.new) }
    {
        match writer.send(self.out.as_slice()) {
            Ok(()) => IoFault::OutOfMemory,
            Err(_) => IoFault::WriteFault,
        }
    }

    // Hands the replies over where many wait.
    fn make_room<W: Write>(&mut self, writer: &mut Watched<W>) -> Result<(), WriteFailed>
        ensures ok { OnOk result ((later owed : List ℕ) → ReplayerOwes self.old later owed
            → Goes (W.contents (inner_of writer.old)) (W.contents (inner_of writer.new))
            self.new later owed) }

        ensures err { OnErr result ((later owed : List ℕ) → ReplayerOwes self.old later owed
            → AppendsPrefix (W.contents (inner_of writer.old)) (W.contents (inner_of writer.new))
            owed) }

        ensures failed { OnErr result (has_failed_of writer.new ≡ true) }
        ensures watched { OnOk result (has_failed_of writer.new ≡ has_failed_of writer.old) }
        ensures room { OnOk result (length (waiting_of self.new) < OUT_MAX) }
    {
        if self.out.len() < OUT_MAX {
            return Ok(());
        }
        self.hand_over(writer)
    }

    /// Reads a piece of the script, and hands replies over as they grow many.
    pub fn piece<W: Write>(&mut self, piece: &[u8], writer: &mut Watched<W>) -> Result<(), IoFault>
        ensures ok { OnOk result ((later owed : List ℕ)
            → ReplayerOwes self.old (piece.now ++ later) owed
            → Goes (W.contents (inner_of writer.old)) (W.contents (inner_of writer.new))
            self.new later owed) }

        ensures err { OnErr result ((later owed : List ℕ)
            → ReplayerOwes self.old (piece.now ++ later) owed
            → AppendsPrefix (W.contents (inner_of writer.old)) (W.contents (inner_of writer.new))
            owed) }

        ensures noted { IsNoted result (has_failed_of writer.old) (has_failed_of writer.new) }
    {
        let mut rest = piece;
        while let Some(end) = lf_of(rest) {
            let Ok(()) = self.answer(&rest[..end]) else {
                return Err(self.stop(writer));
            };
            self.make_room(writer)?;
            rest = &rest[end + 1..];
        }
        self.kept.extend(rest);
        Ok(())
    }

    // Answers a last line with no LF, where its prefix is not empty.
    fn last(&mut self) -> Result<(), AllocError>
        ensures ok { OnOk result ((owed : List ℕ) → ReplayerOwes self.old [] owed
            → owed ≡ waiting_of self.new) }
        ensures err { OnErr result (waiting_of self.new ≡ waiting_of self.old) }
    {
        if self.kept.is_empty() {
            return Ok(());
        }
        self.answer(&[])?;
        Ok(())
    }

    /// Ends the script, and hands over the replies that are left.
    pub fn finish<W: Write>(&mut self, writer: &mut Watched<W>) -> Result<(), IoFault>
        ensures ok { OnOk result ((owed : List ℕ) → ReplayerOwes self.old [] owed
            → Appends (W.contents (inner_of writer.old)) (W.contents (inner_of writer.new)) owed) }

        ensures err { OnErr result ((owed : List ℕ) → ReplayerOwes self.old [] owed
            → AppendsPrefix (W.contents (inner_of writer.old)) (W.contents (inner_of writer.new))
            owed) }

        ensures noted { IsNoted result (has_failed_of writer.old) (has_failed_of writer.new) }
    {
        let Ok(()) = self.last() else {
            return Err(self.stop(writer));
        };
        writer.send(self.out.as_slice())?;
        Ok(())
    }
}
