//! Reply lines as bytes.

ghost use Rattle.std.specs.Prelude.{◌≡◌, ◌+◌, ◌≤◌, ◌∷◌, ◌++◌, List, ℕ, [], length, take};
ghost use Rattle.phase_script.specs.ReplyLines.{whole_reply, reply_text, phase_text, outcomes_text};
ghost use Rattle.phase_script.specs.ReplyLines.{Value, Values, Refused};
ghost use Rattle.phase_script.specs.declared.reply_line.TheConstants.{LENGTH_MAX};

use crate::{Outcomes, Refusal, Reply};
use itoa::Buffer;
use phase_accum::Outcome;
use std::marker::Model;

/// The bytes of the longest reply line, that to a `take` of `VALUES_MAX` phases.
pub const REPLY_MAX: usize = 363;

// A phase of any 64 bits has a digit more than one of a script.
const LENGTH_MAX: usize = REPLY_MAX + 1;

/// A reply line as bytes, with its LF.
#[derive(Drop)]
pub struct ReplyLine {
    buf: [u8; LENGTH_MAX],
    len: usize,
}

impl Model for ReplyLine {
    ghost Value = { List ℕ };

    ghost view = { λ l. take l.len l.buf };

    ghost invariant = { λ l. l.len ≤ LENGTH_MAX };
}

impl ReplyLine {
    /// Makes a line of no byte. It takes no memory.
    pub fn new() -> ReplyLine
        ensures { result ≡ [] }
    {
        ReplyLine {
            buf: [0; LENGTH_MAX],
            len: 0,
        }
    }

    fn push(&mut self, bytes: &[u8])
        requires { length self.old + length bytes.now ≤ LENGTH_MAX }
        ensures { self.new ≡ self.old ++ bytes.now }
    {
        let end = self.len + bytes.len();
        self.buf[self.len..end].copy_from_slice(bytes);
        self.len = end;
    }

    // Writes `bytes` in place of the line.
    fn begin(&mut self, bytes: &[u8])
        requires { length bytes.now ≤ LENGTH_MAX }
        ensures { self.new ≡ bytes.now }
    {
        self.len = 0;
        self.push(bytes);
    }

    fn write_phase(&mut self, name: &[u8], phase: u64)
        requires { length name.now ≤ 20 }
        ensures { self.new ≡ phase_text name.now phase }
    {
        self.begin(name);
        self.push(b" ");
        self.push(Buffer::new().format(phase).as_bytes());
        self.push(b"\n");
    }

    #[tactic(auto, unfolding(crate::specs::ReplyLines::reply_text))]
    fn write_value(&mut self, phase: u64, value: i64)
        ensures { self.new ≡ reply_text (Value phase value) }
    {
        self.begin(b"value ");
        self.push(Buffer::new().format(phase).as_bytes());
        self.push(b" ");
        self.push(Buffer::new().format(value).as_bytes());
        self.push(b"\n");
    }

    #[tactic(auto, unfolding(crate::specs::ReplyLines::reply_text))]
    fn write_refusal(&mut self, refusal: Refusal)
        ensures { self.new ≡ reply_text (Refused refusal) }
    {
        self.begin(b"no ");
        self.push(refusal.reason());
        self.push(b"\n");
    }

    // Puts a space and the word for what a phase gave behind the others.
    fn push_outcome(&mut self, outcome: Outcome)
        requires { length self.old + 21 ≤ LENGTH_MAX }
        ensures bytes { self.new ≡ self.old ++ outcomes_text (outcome ∷ []) }
        ensures short { length self.new ≤ length self.old + 21 }
    {
        self.push(b" ");
        match outcome {
            Outcome::Value(number) => self.push(Buffer::new().format(number).as_bytes()),
            Outcome::Empty => self.push(b"empty"),
            Outcome::TooBig => self.push(b"toobig"),
        }
    }

    #[tactic(auto, unfolding(crate::specs::ReplyLines::reply_text))]
    fn write_values(&mut self, phase: u64, outcomes: &Outcomes)
        ensures { self.new ≡ reply_text (Values phase outcomes.now) }
    {
        self.begin(b"values ");
        self.push(Buffer::new().format(phase).as_bytes());
        for outcome in outcomes.as_slice() {
            self.push_outcome(*outcome);
        }
        self.push(b"\n");
    }

    /// Writes the reply in place of the line, a `Values` with these outcomes. It takes no memory.
    #[tactic(auto, unfolding(crate::specs::ReplyLines::reply_text))]
    pub fn write(&mut self, reply: Reply, outcomes: &Outcomes)
        ensures { self.new ≡ reply_text (whole_reply outcomes.now reply) }
    {
        match reply {
            Reply::Accepted => self.begin(b"ok\n"),
            Reply::Signalled { phase } | Reply::Joined { phase } => self.write_phase(b"ok", phase),
            Reply::Value { phase, value } => self.write_value(phase, value),
            Reply::Empty { phase } => self.write_phase(b"empty", phase),
            Reply::TooBig { phase } => self.write_phase(b"toobig", phase),
            Reply::Values { phase } => self.write_values(phase, outcomes),
            Reply::Ended => self.begin(b"ended\n"),
            Reply::Refused(refusal) => self.write_refusal(refusal),
            Reply::BadLine => self.begin(b"bad line\n"),
        }
    }

    /// Returns the bytes of the line, up to and with its LF.
    pub fn bytes(&self) -> &[u8]
        ensures { result.now ≡ self.now }
    {
        &self.buf[..self.len]
    }
}
