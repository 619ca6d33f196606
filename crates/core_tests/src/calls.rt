//! Calls on a phaser under sum and what they are answered, of which this crate's tables are made.
use phase_accum::{Outcome, Pending, SendFault, Single, Sum};
use phase_base::{Entry, Mode, Spec};
use phase_core::{
    Got, GotBlock, PhaserCore, RegisterRefusal, SignalRefusal, WaitRefusal, are_sends,
};
use std::alloc::Global;
use std::process::Abort;
use std::test::Fail;

/// A call on a phaser. A signal has the send that its task held, and a block one for each phase.
#[derive(Clone, Copy, Debug)]
pub enum Call {
    Add(u64, u64, Mode),
    AddNow(u64, u64),
    Signal(u64, Option<i64>),
    /// A signal that names the negation.
    SignalNeg(u64, i64),
    Block(u64, &'static [i64]),
    /// The same, of the values of the sends.
    Values(u64, &'static [i64]),
    /// A signal and a wait in one.
    Both(u64, Option<i64>),
    /// The same, where the signal names the negation.
    BothNeg(u64, i64),
    Wait(u64),
    /// A wait for as many phases as this many places hold, the first of the phaser's `places`.
    Take(u64, usize),
    /// How many values in range come next, of at most so many.
    Ahead(u64, usize),
    /// What stands in the places.
    Places,
    Leave(u64),
    Done,
    Top,
    NextNumber,
    LeastWait,
    HasSignaller,
    View(u64),
}

/// What a call was answered.
#[derive(Clone, Copy, Debug, PartialEq, Eq)]
pub enum Answer {
    Done,
    NotAdded(RegisterRefusal),
    Joined(u64),
    /// A refusal, after which the caller has back what it had sent.
    NotJoined(SignalRefusal),
    /// A refusal, after which the caller has something else.
    Lost(SignalRefusal),
    /// Both in one phase, with its value.
    Passed(u64, i64),
    /// The phase of the signal, behind which the wait was refused.
    JoinedAlone(u64, WaitRefusal),
    Value(u64, i64),
    TooBig(u64),
    Empty(u64),
    /// The first phase and the count of the values that were written.
    Values(u64, u64),
    /// What the places hold.
    Holds(Outcome, Outcome, Outcome, Outcome, Outcome),
    Ended,
    GetsNot(WaitRefusal),
    NoMember,
    Number(Option<u64>),
    Is(bool),
    Stands(Option<Entry>),
}

/// Calls on a phaser of these limits, each with its answer.
pub struct Case {
    pub name: &'static str,
    pub bound: u64,
    pub phases: u64,
    pub calls: &'static [(Call, Answer)],
}

/// What stands in a place that nobody wrote.
pub const UNWRITTEN: Outcome = Outcome::Value(-1);

/// A phaser, and the places of those that wait for several phases.
#[derive(Drop)]
pub struct Phaser {
    alloc: Global,
    pub core: PhaserCore<Sum>,
    places: [Outcome; 5],
}

fn pending_of(send: Option<i64>) -> Result<Pending<Sum>, SendFault> {
    let mut pending = Pending::new();
    if let Some(value) = send {
        pending.send(value)?;
    }
    Ok(pending)
}

/// The sends of a block, a list each.
pub fn lists_of(alloc: Global, sends: &[i64]) -> Result<Vec<Pending<Sum>>, Fail> {
    let mut lists = Vec::new(alloc);
    for send in sends {
        lists.push(pending_of(Some(*send))?)?;
    }
    Ok(lists)
}

fn added(res: Result<(), RegisterRefusal>) -> Answer {
    match res {
        Ok(()) => Answer::Done,
        Err(refusal) => Answer::NotAdded(refusal),
    }
}

fn added_now(res: Result<u64, RegisterRefusal>) -> Answer {
    match res {
        Ok(phase) => Answer::Joined(phase),
        Err(refusal) => Answer::NotAdded(refusal),
    }
}

fn got(res: Result<Got, WaitRefusal>) -> Answer {
    match res {
        Ok(Got::Value { phase, outcome }) => match outcome {
            Outcome::Value(value) => Answer::Value(phase, value),
            Outcome::TooBig => Answer::TooBig(phase),
            Outcome::Empty => Answer::Empty(phase),
        },
        Ok(Got::Ended) => Answer::Ended,
        Err(refusal) => Answer::GetsNot(refusal),
    }
}

fn got_block(res: Result<GotBlock, WaitRefusal>) -> Answer {
    match res {
        Ok(GotBlock::Values { phase, count }) => Answer::Values(phase, count),
        Ok(GotBlock::Ended) => Answer::Ended,
        Err(refusal) => Answer::GetsNot(refusal),
    }
}

impl Phaser {
    pub fn new(alloc: Global, bound: u64, phases: u64) -> Result<Phaser, Fail> {
        Ok(Phaser {
            alloc,
            core: PhaserCore::new(alloc, Spec::new(bound, phases)?, 0)?,
            places: [UNWRITTEN; 5],
        })
    }

    fn signal(
        &mut self,
        task: u64,
        send: Option<i64>,
        single: Option<Single>,
    ) -> Result<Answer, Fail> {
        let pending = pending_of(send)?;
        Ok(match self.core.signal(task, pending, single) {
            Ok(phase) => Answer::Joined(phase),
            Err((refusal, back)) if back == pending => Answer::NotJoined(refusal),
            Err((refusal, _)) => Answer::Lost(refusal),
        })
    }

    fn both(
        &mut self,
        task: u64,
        send: Option<i64>,
        single: Option<Single>,
    ) -> Result<Answer, Fail> {
        let pending = pending_of(send)?;
        let (phase, reply) = match self.core.signal_and_wait(task, pending, single) {
            Ok(answer) => answer,
            Err((refusal, back)) if back == pending => return Ok(Answer::NotJoined(refusal)),
            Err((refusal, _)) => return Ok(Answer::Lost(refusal)),
        };
        Ok(match got(reply) {
            Answer::Value(of, value) if of == phase => Answer::Passed(phase, value),
            Answer::GetsNot(refusal) => Answer::JoinedAlone(phase, refusal),
            other => other,
        })
    }

    fn block(&mut self, task: u64, sends: &[i64]) -> Result<Answer, Fail> {
        let lists = lists_of(self.alloc, sends)?;
        let same = lists_of(self.alloc, sends)?;
        Ok(match self.core.signal_block(task, lists, None) {
            Ok(phase) => Answer::Joined(phase),
            Err((refusal, back)) if back == same => Answer::NotJoined(refusal),
            Err((refusal, _)) => Answer::Lost(refusal),
        })
    }

    fn values(&mut self, task: u64, values: &[i64]) -> Result<Answer, Fail> {
        if !are_sends(values) {
            return Ok(Answer::Done);
        }
        let mut places = vec![in self.alloc; Pending::new(); values.len()]?;
        Ok(
            match self.core.signal_values(task, values, None, &mut places) {
                Ok(phase) => Answer::Joined(phase),
                Err(refusal) => Answer::NotJoined(refusal),
            },
        )
    }

    fn take(&mut self, task: u64, count: usize) -> Answer {
        let places = &mut self.places[..];
        let count = count.min(places.len());
        got_block(self.core.wait_block(task, &mut places[..count]))
    }

    fn held(&self) -> Answer {
        let [first, second, third, fourth, fifth] = self.places;
        Answer::Holds(first, second, third, fourth, fifth)
    }

    /// Makes the call.
    pub fn reply_to(&mut self, call: Call) -> Result<Answer, Fail> {
        let core = &mut self.core;
        Ok(match call {
            Call::Add(parent, child, mode) => added(core.register(parent, child, mode)),
            Call::AddNow(parent, child) => added_now(core.register_now(parent, child)),
            Call::Signal(task, send) => self.signal(task, send, None)?,
            Call::SignalNeg(task, send) => self.signal(task, Some(send), Some(Single::Neg))?,
            Call::Block(task, sends) => self.block(task, sends)?,
            Call::Values(task, values) => self.values(task, values)?,
            Call::Both(task, send) => self.both(task, send, None)?,
            Call::BothNeg(task, send) => self.both(task, Some(send), Some(Single::Neg))?,
            Call::Wait(task) => got(core.wait(task)),
            Call::Take(task, count) => self.take(task, count),
            Call::Ahead(task, most) => got_block(core.good_ahead(task, most)),
            Call::Places => self.held(),
            Call::Leave(task) => match core.drop_task(task) {
                Ok(()) => Answer::Done,
                Err(_) => Answer::NoMember,
            },
            Call::Done => Answer::Number(Some(core.done())),
            Call::Top => Answer::Number(Some(core.top())),
            Call::NextNumber => Answer::Number(core.next_number()),
            Call::LeastWait => Answer::Number(core.least_wait()),
            Call::HasSignaller => Answer::Is(core.has_signaller()),
            Call::View(task) => Answer::Stands(core.view(task)),
        })
    }

    /// Makes the calls, each of which must have its answer.
    pub fn follow(
        &mut self,
        rt: &impl Abort,
        name: &str,
        calls: &[(Call, Answer)],
    ) -> Result<(), Fail> {
        for (call, answer) in calls {
            let reply = self.reply_to(*call)?;
            assert_eq!(rt; reply, *answer, "{name}: {call:?}");
        }
        Ok(())
    }
}

/// Makes the calls of each case on a phaser of its own, where a signal of a block is one of values.
pub fn follow_all_of_values(rt: &impl Abort, alloc: Global, cases: &[Case]) -> Result<(), Fail> {
    for case in cases {
        let mut phaser = Phaser::new(alloc, case.bound, case.phases)?;
        for (call, answer) in case.calls {
            let reply = match *call {
                Call::Block(task, sends) => phaser.values(task, sends)?,
                other => phaser.reply_to(other)?,
            };
            assert_eq!(rt; reply, *answer, "{}, of values: {call:?}", case.name);
        }
    }
    Ok(())
}

/// Makes the calls of each case on a phaser of its own.
pub fn follow_all(rt: &impl Abort, alloc: Global, cases: &[Case]) -> Result<(), Fail> {
    for case in cases {
        Phaser::new(alloc, case.bound, case.phases)?.follow(rt, case.name, case.calls)?;
    }
    Ok(())
}
