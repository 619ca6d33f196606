//! Who is registered and who is missing, after calls on a phaser under sum of bound 2.
use crate::calls::{Answer, Call, Phaser};
use phase_accum::Sum;
use phase_base::Mode;
use phase_core::{LateTasks, PhaserCore, Standing};
use std::test::Fail;

/// Calls, and how it stands behind them.
struct Row {
    name: &'static str,
    calls: &'static [(Call, Answer)],
    standing: Standing,
    missing: &'static [u64],
    slowest: &'static [u64],
}

static ROWS: [Row; 9] = [
    Row {
        name: "a founder that has not signalled is missing",
        calls: &[],
        standing: Standing {
            tasks: 1,
            signallers: 1,
            waiters: 1,
            phase: 0,
            signalled: 0,
        },
        missing: &[0],
        slowest: &[0],
    },
    Row {
        name: "who has signalled is not missing",
        calls: &[
            (Call::Add(0, 1, Mode::SigWait), Answer::Done),
            (Call::Add(0, 2, Mode::SigWait), Answer::Done),
            (Call::Add(0, 3, Mode::SigWait), Answer::Done),
            (Call::Signal(0, None), Answer::Joined(0)),
            (Call::Signal(2, None), Answer::Joined(0)),
            (Call::Signal(3, None), Answer::Joined(0)),
        ],
        standing: Standing {
            tasks: 4,
            signallers: 4,
            waiters: 4,
            phase: 0,
            signalled: 3,
        },
        missing: &[1],
        slowest: &[0, 1, 2, 3],
    },
    Row {
        name: "where all have signalled all are missing in the next phase",
        calls: &[
            (Call::Add(0, 1, Mode::SigWait), Answer::Done),
            (Call::Signal(0, None), Answer::Joined(0)),
            (Call::Signal(1, None), Answer::Joined(0)),
            (Call::Wait(1), Answer::Value(0, 0)),
        ],
        standing: Standing {
            tasks: 2,
            signallers: 2,
            waiters: 2,
            phase: 1,
            signalled: 0,
        },
        missing: &[0, 1],
        slowest: &[0],
    },
    Row {
        name: "a waiter is no signaller, and a signaller no waiter",
        calls: &[
            (Call::Add(0, 1, Mode::Sig), Answer::Done),
            (Call::Add(0, 2, Mode::Sig), Answer::Done),
            (Call::Add(0, 3, Mode::Wait), Answer::Done),
            (Call::Add(0, 4, Mode::Wait), Answer::Done),
            (Call::Leave(0), Answer::Done),
            (Call::Signal(1, None), Answer::Joined(0)),
        ],
        standing: Standing {
            tasks: 4,
            signallers: 2,
            waiters: 2,
            phase: 0,
            signalled: 1,
        },
        missing: &[2],
        slowest: &[3, 4],
    },
    Row {
        name: "who is ahead by two phases has signalled the first one",
        calls: &[
            (Call::Add(0, 1, Mode::Sig), Answer::Done),
            (Call::Add(0, 2, Mode::Sig), Answer::Done),
            (Call::Add(0, 3, Mode::Wait), Answer::Done),
            (Call::Leave(0), Answer::Done),
            (Call::Signal(1, None), Answer::Joined(0)),
            (Call::Signal(1, None), Answer::Joined(1)),
            (Call::Signal(2, None), Answer::Joined(0)),
        ],
        standing: Standing {
            tasks: 3,
            signallers: 2,
            waiters: 1,
            phase: 1,
            signalled: 1,
        },
        missing: &[2],
        slowest: &[3],
    },
    Row {
        name: "a child of one that has signalled is not missing either",
        calls: &[
            (Call::Add(0, 1, Mode::SigWait), Answer::Done),
            (Call::Signal(0, None), Answer::Joined(0)),
            (Call::Add(0, 2, Mode::Sig), Answer::Done),
        ],
        standing: Standing {
            tasks: 3,
            signallers: 3,
            waiters: 2,
            phase: 0,
            signalled: 2,
        },
        missing: &[1],
        slowest: &[0, 1],
    },
    Row {
        name: "where nobody signals nobody is missing",
        calls: &[
            (Call::Add(0, 1, Mode::Sig), Answer::Done),
            (Call::Add(0, 2, Mode::Wait), Answer::Done),
            (Call::Add(0, 3, Mode::Wait), Answer::Done),
            (Call::Leave(0), Answer::Done),
            (Call::Signal(1, Some(4)), Answer::Joined(0)),
            (Call::Leave(1), Answer::Done),
            (Call::Wait(3), Answer::Value(0, 4)),
        ],
        standing: Standing {
            tasks: 2,
            signallers: 0,
            waiters: 2,
            phase: 1,
            signalled: 0,
        },
        missing: &[],
        slowest: &[2],
    },
    Row {
        name: "where nobody waits nobody is slowest",
        calls: &[
            (Call::Add(0, 1, Mode::Sig), Answer::Done),
            (Call::Add(0, 2, Mode::Sig), Answer::Done),
            (Call::Leave(0), Answer::Done),
            (Call::Signal(2, None), Answer::Joined(0)),
            (Call::Signal(2, None), Answer::Joined(1)),
            (Call::Signal(2, None), Answer::Joined(2)),
        ],
        standing: Standing {
            tasks: 2,
            signallers: 2,
            waiters: 0,
            phase: 0,
            signalled: 1,
        },
        missing: &[1],
        slowest: &[],
    },
    Row {
        name: "while the values alone are kept",
        calls: &[
            (Call::Add(0, 1, Mode::Sig), Answer::Done),
            (Call::Add(0, 2, Mode::Wait), Answer::Done),
            (Call::Add(0, 3, Mode::Wait), Answer::Done),
            (Call::Leave(0), Answer::Done),
            (Call::Values(1, &[4, 5]), Answer::Joined(0)),
            (Call::Wait(2), Answer::Value(0, 4)),
        ],
        standing: Standing {
            tasks: 3,
            signallers: 1,
            waiters: 2,
            phase: 2,
            signalled: 0,
        },
        missing: &[1],
        slowest: &[3],
    },
];

/// Whether these are the tasks that are named, in their order.
fn are_named(mut tasks: LateTasks<'_>, numbers: &[u64]) -> bool {
    for number in numbers {
        if tasks.next() != Some(*number) {
            return false;
        }
    }
    tasks.next().is_none()
}

/// Whether these are the tasks that are missing.
fn are_missing(core: &PhaserCore<Sum>, numbers: &[u64]) -> bool {
    are_named(core.missing(), numbers)
}

/// Whether these are the waiters that hold the bound back.
fn are_slowest(core: &PhaserCore<Sum>, numbers: &[u64]) -> bool {
    are_named(core.slowest(), numbers)
}

/// What stands in a place that nobody wrote.
const UNWRITTEN: u64 = 77;

/// Two places, over which the numbers of those that are missing are written.
fn written(core: &PhaserCore<Sum>) -> [u64; 2] {
    let mut places = [UNWRITTEN; 2];
    core.missing().write_to(&mut places);
    places
}

/// Whether the first of these tasks stand in the places, and in no other.
fn are_written(places: [u64; 2], numbers: &[u64]) -> bool {
    match numbers {
        [] => places == [UNWRITTEN, UNWRITTEN],
        [first] => places == [*first, UNWRITTEN],
        [first, second, ..] => places == [*first, *second],
    }
}

/// Whether it stands as the row says.
fn stands_so(core: &PhaserCore<Sum>, row: &Row) -> bool {
    let standing = core.standing();
    standing == row.standing
        && standing.missing() == row.missing.len() as u64
        && are_missing(core, row.missing)
        && are_slowest(core, row.slowest)
        && are_written(written(core), row.missing)
}

#[test]
fn who_is_missing_is_named(rt: HostRuntime) -> Result<(), Fail> {
    for row in &ROWS {
        let mut phaser = Phaser::new(rt.alloc(), 2, 100)?;
        phaser.follow(&rt, row.name, row.calls)?;
        assert!(rt; stands_so(&phaser.core, row), "{}", row.name);
    }
    Ok(())
}
