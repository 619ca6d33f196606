//! Blocks of phases, and waiters that join now, as calls on a phaser under sum.
use crate::calls::{
    Answer, Call, Case, Phaser, UNWRITTEN, follow_all, follow_all_of_values, lists_of,
};
use phase_accum::Outcome::{TooBig, Value};
use phase_accum::{Pending, Sum};
use phase_base::Mode;
use phase_core::{PhaserCore, RegisterRefusal, SignalRefusal, WaitRefusal};
use std::test::Fail;

static CASES: [Case; 12] = [
    Case {
        name: "a block is signalled and taken by others",
        bound: 4,
        phases: 100,
        calls: &[
            (Call::Add(0, 1, Mode::Sig), Answer::Done),
            (Call::Add(0, 2, Mode::Wait), Answer::Done),
            (Call::Leave(0), Answer::Done),
            (Call::Block(1, &[5, 6, 7]), Answer::Joined(0)),
            (Call::Take(2, 2), Answer::Values(0, 2)),
            (
                Call::Places,
                Answer::Holds(Value(5), Value(6), UNWRITTEN, UNWRITTEN, UNWRITTEN),
            ),
            (
                Call::Block(1, &[8, 9, 10, 11]),
                Answer::NotJoined(SignalRefusal::Ahead),
            ),
            (Call::Block(1, &[8, 9]), Answer::Joined(3)),
        ],
    },
    Case {
        name: "a wait takes what is complete",
        bound: 4,
        phases: 100,
        calls: &[
            (Call::Add(0, 1, Mode::Sig), Answer::Done),
            (Call::Add(0, 2, Mode::Wait), Answer::Done),
            (Call::Leave(0), Answer::Done),
            (Call::Block(1, &[7, 8, 9]), Answer::Joined(0)),
            (Call::Take(2, 5), Answer::GetsNot(WaitRefusal::BadBlock)),
            (Call::Take(2, 0), Answer::GetsNot(WaitRefusal::BadBlock)),
            (Call::Take(2, 4), Answer::Values(0, 3)),
            (
                Call::Places,
                Answer::Holds(Value(7), Value(8), Value(9), UNWRITTEN, UNWRITTEN),
            ),
            (Call::Take(2, 1), Answer::GetsNot(WaitRefusal::NotYet)),
        ],
    },
    Case {
        name: "a wait behind the last phase has ended",
        bound: 4,
        phases: 100,
        calls: &[
            (Call::Add(0, 1, Mode::Sig), Answer::Done),
            (Call::Add(0, 2, Mode::Wait), Answer::Done),
            (Call::Leave(0), Answer::Done),
            (Call::Leave(1), Answer::Done),
            (Call::Take(2, 1), Answer::Ended),
            (
                Call::Places,
                Answer::Holds(UNWRITTEN, UNWRITTEN, UNWRITTEN, UNWRITTEN, UNWRITTEN),
            ),
        ],
    },
    Case {
        name: "who also waits signals one phase at a time",
        bound: 4,
        phases: 100,
        calls: &[
            (
                Call::Block(0, &[1, 2]),
                Answer::NotJoined(SignalRefusal::SignalTwice),
            ),
            (Call::Block(0, &[1]), Answer::Joined(0)),
            (Call::Take(0, 3), Answer::Values(0, 1)),
            (
                Call::Places,
                Answer::Holds(Value(1), UNWRITTEN, UNWRITTEN, UNWRITTEN, UNWRITTEN),
            ),
        ],
    },
    Case {
        name: "a block past the last phase is spent",
        bound: 4,
        phases: 2,
        calls: &[
            (Call::Add(0, 1, Mode::Sig), Answer::Done),
            (
                Call::Block(1, &[1, 2, 3]),
                Answer::NotJoined(SignalRefusal::Spent),
            ),
        ],
    },
    Case {
        name: "a block of new phases goes up to the limits",
        bound: 4,
        phases: 6,
        calls: &[
            (Call::Add(0, 1, Mode::Sig), Answer::Done),
            (Call::Add(0, 2, Mode::Wait), Answer::Done),
            (Call::Leave(0), Answer::Done),
            (Call::Block(1, &[5]), Answer::Joined(0)),
            (
                Call::Block(1, &[6, 7, 8, 9]),
                Answer::NotJoined(SignalRefusal::Ahead),
            ),
            (Call::Block(1, &[6, 7, 8]), Answer::Joined(1)),
            (Call::Take(2, 4), Answer::Values(0, 4)),
            (
                Call::Block(1, &[9, 10, 11]),
                Answer::NotJoined(SignalRefusal::Spent),
            ),
            (Call::Block(1, &[9, 10]), Answer::Joined(4)),
        ],
    },
    Case {
        name: "a value of a block may be too big",
        bound: 2,
        phases: 100,
        calls: &[
            (Call::Add(0, 1, Mode::Sig), Answer::Done),
            (Call::Add(0, 2, Mode::Sig), Answer::Done),
            (Call::Add(0, 3, Mode::Wait), Answer::Done),
            (Call::Leave(0), Answer::Done),
            (Call::Block(1, &[9223372036854775807, 1]), Answer::Joined(0)),
            (Call::Block(2, &[1, 2]), Answer::Joined(0)),
            (Call::Take(3, 2), Answer::Values(0, 2)),
            (
                Call::Places,
                Answer::Holds(TooBig, Value(3), UNWRITTEN, UNWRITTEN, UNWRITTEN),
            ),
        ],
    },
    Case {
        name: "only values before one that is too big are ahead",
        bound: 8,
        phases: 100,
        calls: &[
            (Call::Add(0, 1, Mode::Sig), Answer::Done),
            (Call::Add(0, 2, Mode::Sig), Answer::Done),
            (Call::Add(0, 3, Mode::Wait), Answer::Done),
            (Call::Leave(0), Answer::Done),
            (
                Call::Block(1, &[1, 1, 9223372036854775807, 1]),
                Answer::Joined(0),
            ),
            (Call::Block(2, &[0, 1, 1, 2]), Answer::Joined(0)),
            (Call::Ahead(1, 1), Answer::GetsNot(WaitRefusal::NoWait)),
            (Call::Ahead(7, 1), Answer::GetsNot(WaitRefusal::NoTask)),
            (Call::Ahead(3, 0), Answer::GetsNot(WaitRefusal::BadBlock)),
            (Call::Ahead(3, 1), Answer::Values(0, 1)),
            (Call::Ahead(3, 4), Answer::Values(0, 2)),
            (Call::Take(3, 2), Answer::Values(0, 2)),
            (
                Call::Places,
                Answer::Holds(Value(1), Value(2), UNWRITTEN, UNWRITTEN, UNWRITTEN),
            ),
            (Call::Ahead(3, 4), Answer::Values(2, 0)),
            (Call::Wait(3), Answer::TooBig(2)),
            (Call::Ahead(3, 4), Answer::Values(3, 1)),
            (Call::Wait(3), Answer::Value(3, 3)),
            (Call::Ahead(3, 4), Answer::GetsNot(WaitRefusal::NotYet)),
            (Call::Leave(1), Answer::Done),
            (Call::Leave(2), Answer::Done),
            (Call::Ahead(3, 1), Answer::Ended),
        ],
    },
    Case {
        name: "a block joins phases that were signalled and new ones",
        bound: 4,
        phases: 100,
        calls: &[
            (Call::Add(0, 1, Mode::Sig), Answer::Done),
            (Call::Add(0, 2, Mode::Sig), Answer::Done),
            (Call::Add(0, 3, Mode::Wait), Answer::Done),
            (Call::Leave(0), Answer::Done),
            (Call::Block(1, &[1, 2]), Answer::Joined(0)),
            (Call::Block(2, &[10, 20, 30, 40]), Answer::Joined(0)),
            (Call::Take(3, 2), Answer::Values(0, 2)),
            (
                Call::Places,
                Answer::Holds(Value(11), Value(22), UNWRITTEN, UNWRITTEN, UNWRITTEN),
            ),
            // Phases 5 and 6 have the slots of phases 0 and 1.
            (Call::Block(1, &[3, 4, 5, 6]), Answer::Joined(2)),
            (Call::Take(3, 2), Answer::Values(2, 2)),
            (
                Call::Places,
                Answer::Holds(Value(33), Value(44), UNWRITTEN, UNWRITTEN, UNWRITTEN),
            ),
            (Call::Block(2, &[50, 60, 70]), Answer::Joined(4)),
            (Call::Block(1, &[7]), Answer::Joined(6)),
            (Call::Take(3, 2), Answer::Values(4, 2)),
            (
                Call::Places,
                Answer::Holds(Value(55), Value(66), UNWRITTEN, UNWRITTEN, UNWRITTEN),
            ),
            (Call::Take(3, 2), Answer::Values(6, 1)),
            (
                Call::Places,
                Answer::Holds(Value(77), Value(66), UNWRITTEN, UNWRITTEN, UNWRITTEN),
            ),
        ],
    },
    Case {
        name: "the first signal of a phase names its single",
        bound: 2,
        phases: 100,
        calls: &[
            (Call::Add(0, 1, Mode::Single), Answer::Done),
            (Call::SignalNeg(0, 5), Answer::Joined(0)),
            (
                Call::Signal(1, Some(6)),
                Answer::NotJoined(SignalRefusal::SingleDiffers),
            ),
            (Call::SignalNeg(1, 6), Answer::Joined(0)),
            (Call::Wait(1), Answer::Value(0, -11)),
        ],
    },
    Case {
        name: "a waiter joins at the next phase to complete",
        bound: 4,
        phases: 100,
        calls: &[
            (Call::Add(0, 1, Mode::Sig), Answer::Done),
            (Call::Add(0, 2, Mode::Wait), Answer::Done),
            (Call::Leave(0), Answer::Done),
            (Call::Block(1, &[10, 20]), Answer::Joined(0)),
            (Call::AddNow(2, 3), Answer::Joined(2)),
            (Call::Take(3, 1), Answer::GetsNot(WaitRefusal::NotYet)),
            (Call::Signal(1, None), Answer::Joined(2)),
            (Call::Take(3, 1), Answer::Values(2, 1)),
            (Call::Take(2, 1), Answer::Values(0, 1)),
            (
                Call::Places,
                Answer::Holds(Value(10), UNWRITTEN, UNWRITTEN, UNWRITTEN, UNWRITTEN),
            ),
            (
                Call::AddNow(1, 4),
                Answer::NotAdded(RegisterRefusal::NotAllowed),
            ),
            (
                Call::AddNow(9, 4),
                Answer::NotAdded(RegisterRefusal::NoTask),
            ),
            (
                Call::AddNow(2, 3),
                Answer::NotAdded(RegisterRefusal::NotNew),
            ),
        ],
    },
    Case {
        name: "a waiter joins behind complete phases and not at the top",
        bound: 2,
        phases: 100,
        calls: &[
            (Call::Add(0, 1, Mode::Sig), Answer::Done),
            (Call::Signal(0, None), Answer::Joined(0)),
            (Call::Signal(1, None), Answer::Joined(0)),
            (Call::Signal(1, None), Answer::Joined(1)),
            (Call::Top, Answer::Number(Some(2))),
            (Call::AddNow(0, 2), Answer::Joined(1)),
            (Call::Wait(2), Answer::GetsNot(WaitRefusal::NotYet)),
        ],
    },
];

#[test]
fn calls_are_answered(rt: HostRuntime) -> Result<(), Fail> {
    follow_all(&rt, rt.alloc(), &CASES)
}

#[test]
fn blocks_of_values_are_answered_in_the_same_way(rt: HostRuntime) -> Result<(), Fail> {
    follow_all_of_values(&rt, rt.alloc(), &CASES)
}

/// Signals a block that is refused, and then the lists that came back but the first. Tells the
/// refusal, how many came back, and what the second signal was answered.
fn signal_again(
    core: &mut PhaserCore<Sum>,
    task: u64,
    lists: Vec<Pending<Sum>>,
) -> Option<(SignalRefusal, usize, Result<u64, SignalRefusal>)> {
    let (refusal, lists) = core.signal_block(task, lists, None).err()?;
    let again = core.signal_lists(task, lists.get(1..)?, None);
    Some((refusal, lists.len(), again))
}

#[test]
fn a_refused_block_signals_nothing_and_hands_all_back(rt: HostRuntime) -> Result<(), Fail> {
    let name = "a refused block signals nothing and hands all back";
    let mut phaser = Phaser::new(rt.alloc(), 4, 100)?;
    let stream = [
        (Call::Add(0, 1, Mode::Sig), Answer::Done),
        (Call::Add(0, 2, Mode::Wait), Answer::Done),
        (Call::Leave(0), Answer::Done),
    ];
    phaser.follow(&rt, name, &stream)?;
    let lists = lists_of(rt.alloc(), &[1, 2, 3, 4, 5])?;
    // They are in their order: the last four are taken as they are.
    assert_eq!(rt;
        signal_again(&mut phaser.core, 1, lists),
        Some((SignalRefusal::BadBlock, 5, Ok(0)))
    );
    let taken = [
        (Call::Take(2, 4), Answer::Values(0, 4)),
        (
            Call::Places,
            Answer::Holds(Value(2), Value(3), Value(4), Value(5), UNWRITTEN),
        ),
    ];
    phaser.follow(&rt, name, &taken)
}
