//! A founder alone, and members that come and go, as calls on a phaser under sum.
use crate::calls::{Answer, Call, Case, follow_all};
use phase_base::{Entry, Mode};
use phase_core::{RegisterRefusal, SignalRefusal, WaitRefusal};
use std::test::Fail;

static CASES: [Case; 9] = [
    Case {
        name: "a founder gets what it sent",
        bound: 2,
        phases: 100,
        calls: &[
            (Call::Signal(0, Some(5)), Answer::Joined(0)),
            (Call::Wait(0), Answer::Value(0, 5)),
            (Call::Done, Answer::Number(Some(1))),
            (Call::Top, Answer::Number(Some(1))),
            (
                Call::View(0),
                Answer::Stands(Some(Entry {
                    mode: Mode::Single,
                    signal_phase: 1,
                    wait_phase: 1,
                })),
            ),
            (Call::View(1), Answer::Stands(None)),
        ],
    },
    Case {
        name: "a child has a mode that its parent's holds",
        bound: 2,
        phases: 100,
        calls: &[
            (Call::Add(0, 1, Mode::Wait), Answer::Done),
            (
                Call::Add(1, 2, Mode::Sig),
                Answer::NotAdded(RegisterRefusal::NotAllowed),
            ),
            (
                Call::Add(0, 1, Mode::Sig),
                Answer::NotAdded(RegisterRefusal::NotNew),
            ),
            (Call::Add(1, 2, Mode::Wait), Answer::Done),
            (
                Call::Add(5, 6, Mode::Sig),
                Answer::NotAdded(RegisterRefusal::NoTask),
            ),
            (Call::Leave(5), Answer::NoMember),
            (Call::NextNumber, Answer::Number(Some(3))),
            (Call::LeastWait, Answer::Number(Some(0))),
            (Call::HasSignaller, Answer::Is(true)),
        ],
    },
    Case {
        name: "a signaller outlives the founder",
        bound: 2,
        phases: 100,
        calls: &[
            (Call::Add(0, 1, Mode::Sig), Answer::Done),
            (Call::Add(0, 2, Mode::Wait), Answer::Done),
            (Call::Leave(0), Answer::Done),
            (Call::Signal(1, Some(7)), Answer::Joined(0)),
            (Call::Signal(1, None), Answer::Joined(1)),
            (
                Call::Signal(1, None),
                Answer::NotJoined(SignalRefusal::Ahead),
            ),
            (Call::Wait(2), Answer::Value(0, 7)),
            (Call::Signal(1, None), Answer::Joined(2)),
        ],
    },
    Case {
        name: "members come and go",
        bound: 2,
        phases: 100,
        calls: &[
            (Call::Add(0, 1, Mode::Sig), Answer::Done),
            (Call::Add(0, 2, Mode::Wait), Answer::Done),
            (Call::Add(0, 3, Mode::Wait), Answer::Done),
            (Call::Leave(0), Answer::Done),
            (Call::Signal(1, None), Answer::Joined(0)),
            (Call::Signal(1, None), Answer::Joined(1)),
            (Call::Add(1, 4, Mode::Sig), Answer::Done),
            (Call::Wait(2), Answer::Value(0, 0)),
            (Call::Wait(2), Answer::Value(1, 0)),
            (Call::Wait(2), Answer::GetsNot(WaitRefusal::NotYet)),
            (
                Call::Signal(1, None),
                Answer::NotJoined(SignalRefusal::Ahead),
            ),
            (Call::Wait(3), Answer::Value(0, 0)),
            (Call::Signal(1, Some(5)), Answer::Joined(2)),
            (Call::Wait(2), Answer::GetsNot(WaitRefusal::NotYet)),
            (Call::Signal(4, Some(6)), Answer::Joined(2)),
            (Call::Wait(2), Answer::Value(2, 11)),
            (Call::Wait(3), Answer::Value(1, 0)),
            (Call::Wait(3), Answer::Value(2, 11)),
        ],
    },
    Case {
        name: "a late waiter gets what its parent has still to get",
        bound: 4,
        phases: 100,
        calls: &[
            (Call::Add(0, 1, Mode::Sig), Answer::Done),
            (Call::Add(0, 2, Mode::Wait), Answer::Done),
            (Call::Leave(0), Answer::Done),
            (Call::Signal(1, Some(10)), Answer::Joined(0)),
            (Call::Signal(1, Some(20)), Answer::Joined(1)),
            (Call::Signal(1, Some(30)), Answer::Joined(2)),
            (Call::Signal(1, Some(40)), Answer::Joined(3)),
            (Call::Wait(2), Answer::Value(0, 10)),
            (Call::Wait(2), Answer::Value(1, 20)),
            (Call::Add(2, 3, Mode::Wait), Answer::Done),
            (Call::Wait(3), Answer::Value(2, 30)),
            (Call::Wait(2), Answer::Value(2, 30)),
            (Call::Wait(3), Answer::Value(3, 40)),
            (Call::Wait(3), Answer::GetsNot(WaitRefusal::NotYet)),
        ],
    },
    Case {
        name: "the last signaller to leave ends the stream",
        bound: 4,
        phases: 100,
        calls: &[
            (Call::Add(0, 1, Mode::Sig), Answer::Done),
            (Call::Add(0, 2, Mode::Sig), Answer::Done),
            (Call::Add(0, 3, Mode::Wait), Answer::Done),
            (Call::Leave(0), Answer::Done),
            (Call::Signal(1, Some(1)), Answer::Joined(0)),
            (Call::Signal(2, Some(10)), Answer::Joined(0)),
            (Call::Signal(2, Some(20)), Answer::Joined(1)),
            (Call::Signal(2, Some(30)), Answer::Joined(2)),
            (Call::Leave(2), Answer::Done),
            (Call::Wait(3), Answer::Value(0, 11)),
            (Call::Wait(3), Answer::GetsNot(WaitRefusal::NotYet)),
            (Call::Leave(1), Answer::Done),
            (Call::Wait(3), Answer::Value(1, 20)),
            (Call::Wait(3), Answer::Value(2, 30)),
            (Call::Wait(3), Answer::Ended),
            (Call::Wait(3), Answer::Ended),
        ],
    },
    Case {
        name: "a task that leaves completes no phase of its own",
        bound: 4,
        phases: 100,
        calls: &[
            (Call::Add(0, 1, Mode::Sig), Answer::Done),
            (Call::Leave(1), Answer::Done),
            (Call::Signal(0, Some(4)), Answer::Joined(0)),
            (Call::Wait(0), Answer::Value(0, 4)),
            (Call::Done, Answer::Number(Some(1))),
            (Call::Top, Answer::Number(Some(1))),
        ],
    },
    Case {
        name: "a child stands where its parent does",
        bound: 2,
        phases: 100,
        calls: &[
            (Call::Signal(0, None), Answer::Joined(0)),
            (Call::Add(0, 1, Mode::SigWait), Answer::Done),
            (
                Call::Signal(1, None),
                Answer::NotJoined(SignalRefusal::SignalTwice),
            ),
            (Call::Wait(1), Answer::Value(0, 0)),
            (Call::Wait(0), Answer::Value(0, 0)),
        ],
    },
    Case {
        name: "signals have no bound once the last waiter left",
        bound: 1,
        phases: 100,
        calls: &[
            (Call::Add(0, 1, Mode::Sig), Answer::Done),
            (Call::Signal(0, None), Answer::Joined(0)),
            (Call::Signal(1, None), Answer::Joined(0)),
            (
                Call::Signal(1, None),
                Answer::NotJoined(SignalRefusal::Ahead),
            ),
            (Call::Leave(0), Answer::Done),
            (Call::Signal(1, None), Answer::Joined(1)),
            (Call::Signal(1, None), Answer::Joined(2)),
            (Call::Add(1, 2, Mode::Sig), Answer::Done),
            (Call::Signal(1, None), Answer::Joined(3)),
            (Call::Done, Answer::Number(Some(3))),
            (Call::Top, Answer::Number(Some(4))),
            (Call::LeastWait, Answer::Number(None)),
        ],
    },
];

#[test]
fn calls_are_answered(rt: HostRuntime) -> Result<(), Fail> {
    follow_all(&rt, rt.alloc(), &CASES)
}
