//! Numbers that are used once, and as many members as may be, as calls on a registry.
use phase_base::{Entry, Mode};
use phase_registry::{AddRefusal, Registry};
use std::alloc::Global;
use std::process::Abort;

/// A call on a registry. An added member stands at its phases to signal and to wait for.
#[derive(Clone, Copy, Debug)]
enum Call {
    Add(u64, Mode, u64, u64),
    Remove(u64),
    /// Counts a signalled phase of a registered task.
    Signal(u64),
    /// Counts a phase that a registered task waited for.
    Wait(u64),
    Get(u64),
    NextNumber,
    Signallers,
    Waiters,
    LeastSignal,
    LeastWait,
}

/// What a call was answered.
#[derive(Clone, Copy, Debug, PartialEq, Eq)]
enum Answer {
    Done,
    NotAdded(AddRefusal),
    Is(bool),
    Stands(Mode, u64, u64),
    NoMember,
    Count(u64),
    Number(u64),
    NoNumber,
}

fn signalled(registry: &mut Registry, number: u64) -> Answer {
    if let Some(entry) = registry.get(number)
        && entry.signal_phase < 100
    {
        registry.signalled(number, 1);
        return Answer::Done;
    }
    Answer::NoMember
}

fn waited(registry: &mut Registry, number: u64) -> Answer {
    if let Some(entry) = registry.get(number)
        && entry.wait_phase < 100
    {
        registry.waited(number, 1);
        return Answer::Done;
    }
    Answer::NoMember
}

fn standing(entry: Option<Entry>) -> Answer {
    match entry {
        Some(entry) => Answer::Stands(entry.mode, entry.signal_phase, entry.wait_phase),
        None => Answer::NoMember,
    }
}

fn numbered(number: Option<u64>) -> Answer {
    match number {
        Some(number) => Answer::Number(number),
        None => Answer::NoNumber,
    }
}

fn reply_to(registry: &mut Registry, call: Call) -> Answer {
    match call {
        Call::Add(number, mode, signal_phase, wait_phase) => {
            match registry.add(number, mode, signal_phase, wait_phase) {
                Ok(()) => Answer::Done,
                Err(refusal) => Answer::NotAdded(refusal),
            }
        }
        Call::Remove(number) => Answer::Is(registry.remove(number)),
        Call::Signal(number) => signalled(registry, number),
        Call::Wait(number) => waited(registry, number),
        Call::Get(number) => standing(registry.get(number)),
        Call::NextNumber => numbered(registry.next_number()),
        Call::Signallers => Answer::Count(registry.signallers()),
        Call::Waiters => Answer::Count(registry.waiters()),
        Call::LeastSignal => numbered(registry.least_signal()),
        Call::LeastWait => numbered(registry.least_wait()),
    }
}

/// Calls on a registry, each with its answer. The members that it starts with are numbered from 0,
/// and signal the phase of their number.
struct Case {
    name: &'static str,
    members: u64,
    calls: &'static [(Call, Answer)],
}

static CASES: [Case; 3] = [
    Case {
        name: "a number is used once",
        members: 0,
        calls: &[
            (Call::NextNumber, Answer::Number(0)),
            (Call::Add(0, Mode::Single, 0, 0), Answer::Done),
            (
                Call::Add(0, Mode::Sig, 0, 0),
                Answer::NotAdded(AddRefusal::NotNew),
            ),
            (Call::NextNumber, Answer::Number(1)),
            (Call::Remove(0), Answer::Is(true)),
            (
                Call::Add(0, Mode::Sig, 0, 0),
                Answer::NotAdded(AddRefusal::NotNew),
            ),
            (
                Call::Add(18446744073709551615, Mode::Sig, 0, 0),
                Answer::Done,
            ),
            (Call::NextNumber, Answer::NoNumber),
        ],
    },
    Case {
        name: "members are counted by their roles",
        members: 0,
        calls: &[
            (Call::Add(2, Mode::Sig, 7, 0), Answer::Done),
            (Call::Add(3, Mode::Wait, 0, 4), Answer::Done),
            (Call::Add(5, Mode::SigWait, 6, 5), Answer::Done),
            (Call::Add(9, Mode::Single, 8, 9), Answer::Done),
            (Call::Signallers, Answer::Count(3)),
            (Call::Waiters, Answer::Count(3)),
            (Call::LeastSignal, Answer::Number(6)),
            (Call::LeastWait, Answer::Number(4)),
            (Call::Signal(5), Answer::Done),
            (Call::Wait(3), Answer::Done),
            (Call::Get(5), Answer::Stands(Mode::SigWait, 7, 5)),
            (Call::Get(3), Answer::Stands(Mode::Wait, 0, 5)),
            (Call::Get(4), Answer::NoMember),
            (Call::LeastSignal, Answer::Number(7)),
            (Call::LeastWait, Answer::Number(5)),
            (Call::Remove(5), Answer::Is(true)),
            (Call::Remove(5), Answer::Is(false)),
            (Call::Remove(3), Answer::Is(true)),
            (Call::Remove(2), Answer::Is(true)),
            (Call::Signallers, Answer::Count(1)),
            (Call::Waiters, Answer::Count(1)),
            (Call::LeastSignal, Answer::Number(8)),
            (Call::LeastWait, Answer::Number(9)),
        ],
    },
    Case {
        name: "only so many are registered",
        members: 1024,
        calls: &[
            (
                Call::Add(1024, Mode::Sig, 0, 0),
                Answer::NotAdded(AddRefusal::TooManyTasks),
            ),
            (Call::Signallers, Answer::Count(1024)),
            (Call::NextNumber, Answer::Number(1024)),
            (Call::Get(1023), Answer::Stands(Mode::SigWait, 1023, 0)),
            (Call::Remove(700), Answer::Is(true)),
            (Call::Add(1024, Mode::Sig, 0, 0), Answer::Done),
            (Call::Get(701), Answer::Stands(Mode::SigWait, 701, 0)),
        ],
    },
];

/// Makes the calls of a case.
fn follow(rt: &impl Abort, alloc: Global, case: &Case) {
    let mut registry = Registry::new(alloc);
    for number in 0..case.members {
        let reply = reply_to(&mut registry, Call::Add(number, Mode::SigWait, number, 0));
        assert_eq!(rt; reply, Answer::Done, "{}: {number}", case.name);
    }
    for (call, answer) in case.calls {
        let reply = reply_to(&mut registry, *call);
        assert_eq!(rt; reply, *answer, "{}: {call:?}", case.name);
    }
}

#[test]
fn calls_on_a_registry_are_answered(rt: HostRuntime) {
    for case in &CASES {
        follow(&rt, rt.alloc(), case);
    }
}

/// With `rt try --test --fail-alloc N` the first `add` wants memory, and is made again.
#[test]
fn a_refused_growth_adds_nobody(rt: HostRuntime) {
    let mut registry = Registry::new(rt.alloc());
    let mut added = registry.add(4, Mode::Single, 0, 0);
    if added == Err(AddRefusal::OutOfMemory) {
        assert_eq!(rt; (registry.get(4), registry.signallers()), (None, 0));
        added = registry.add(4, Mode::Single, 0, 0);
    }
    assert_eq!(rt; added, Ok(()));
    assert_eq!(rt;
        standing(registry.get(4)),
        Answer::Stands(Mode::Single, 0, 0)
    );
}
