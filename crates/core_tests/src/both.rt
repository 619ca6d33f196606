//! Signals and waits in one, as calls on a phaser under sum.
use crate::calls::{Answer, Call, Case, follow_all};
use phase_base::{Entry, Mode};
use phase_core::{SignalRefusal, WaitRefusal};
use std::test::Fail;

static CASES: [Case; 7] = [
    Case {
        name: "the only task passes phase after phase, until there are no more",
        bound: 1,
        phases: 3,
        calls: &[
            (Call::Both(0, Some(4)), Answer::Passed(0, 4)),
            (Call::BothNeg(0, 5), Answer::Passed(1, -5)),
            (Call::Both(0, None), Answer::Passed(2, 0)),
            (
                Call::Both(0, Some(1)),
                Answer::NotJoined(SignalRefusal::Spent),
            ),
            (Call::Top, Answer::Number(Some(3))),
            (Call::Done, Answer::Number(Some(3))),
            (Call::LeastWait, Answer::Number(Some(3))),
            (
                Call::View(0),
                Answer::Stands(Some(Entry {
                    mode: Mode::Single,
                    signal_phase: 3,
                    wait_phase: 3,
                })),
            ),
        ],
    },
    Case {
        name: "of two tasks the first signals and waits in vain",
        bound: 2,
        phases: 100,
        calls: &[
            (Call::Both(0, Some(9)), Answer::Passed(0, 9)),
            (Call::Add(0, 1, Mode::SigWait), Answer::Done),
            (
                Call::Both(0, Some(1)),
                Answer::JoinedAlone(1, WaitRefusal::NotYet),
            ),
            (
                Call::Both(0, Some(1)),
                Answer::NotJoined(SignalRefusal::SignalTwice),
            ),
            (Call::Both(1, Some(2)), Answer::Passed(1, 3)),
            (Call::Wait(0), Answer::Value(1, 3)),
        ],
    },
    Case {
        name: "who is left alone within a phase passes the next one",
        bound: 1,
        phases: 100,
        calls: &[
            (Call::Add(0, 1, Mode::SigWait), Answer::Done),
            (
                Call::Both(0, Some(1)),
                Answer::JoinedAlone(0, WaitRefusal::NotYet),
            ),
            (Call::Leave(1), Answer::Done),
            (
                Call::Both(0, Some(1)),
                Answer::NotJoined(SignalRefusal::SignalTwice),
            ),
            (Call::Wait(0), Answer::Value(0, 1)),
            (Call::Both(0, Some(7)), Answer::Passed(1, 7)),
        ],
    },
    Case {
        name: "what others sent before they left is in its phases",
        bound: 4,
        phases: 100,
        calls: &[
            (Call::Add(0, 1, Mode::Sig), Answer::Done),
            (Call::Block(1, &[5, 6]), Answer::Joined(0)),
            (Call::Leave(1), Answer::Done),
            (Call::Both(0, Some(1)), Answer::Passed(0, 6)),
            (Call::Both(0, Some(2)), Answer::Passed(1, 8)),
            (Call::Both(0, None), Answer::Passed(2, 0)),
        ],
    },
    Case {
        name: "who does not wait has signalled",
        bound: 1,
        phases: 100,
        calls: &[
            (Call::Add(0, 1, Mode::Sig), Answer::Done),
            (
                Call::Both(1, Some(3)),
                Answer::JoinedAlone(0, WaitRefusal::NoWait),
            ),
            (Call::Both(0, Some(4)), Answer::Passed(0, 7)),
            (Call::Leave(0), Answer::Done),
            (
                Call::Both(1, Some(3)),
                Answer::JoinedAlone(1, WaitRefusal::NoWait),
            ),
        ],
    },
    Case {
        name: "who does not signal is refused, and so is who is no member",
        bound: 1,
        phases: 100,
        calls: &[
            (Call::Add(0, 1, Mode::Wait), Answer::Done),
            (
                Call::Both(7, Some(3)),
                Answer::NotJoined(SignalRefusal::NoTask),
            ),
            (Call::Leave(0), Answer::Done),
            (
                Call::Both(1, Some(3)),
                Answer::NotJoined(SignalRefusal::NoSignal),
            ),
        ],
    },
    Case {
        name: "who may not name a single names none",
        bound: 1,
        phases: 100,
        calls: &[
            (Call::Add(0, 1, Mode::SigWait), Answer::Done),
            (Call::Leave(0), Answer::Done),
            (
                Call::BothNeg(1, 2),
                Answer::NotJoined(SignalRefusal::NotSingle),
            ),
            (Call::Both(1, Some(2)), Answer::Passed(0, 2)),
        ],
    },
];

#[test]
fn calls_are_answered(rt: HostRuntime) -> Result<(), Fail> {
    follow_all(&rt, rt.alloc(), &CASES)
}
