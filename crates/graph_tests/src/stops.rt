//! Where runs stop whose samples come in pieces. What is expected was worked out by hand.
use crate::feeds::Act::{Feed, Finish, Run, Take};
use crate::feeds::{Act, told};
use std::test::Fail;

/// A graph with its samples; and what comes of these acts: how many samples a feed took, why a run
/// stopped, and what each sink has where all are read.
struct Case {
    name: &'static str,
    graph: &'static str,
    samples: &'static [&'static str],
    acts: &'static [Act],
    told: &'static str,
}

static CASES: [Case; 12] = [
    Case {
        name: "a sum waits for the source that has no sample, and then goes on without it",
        graph: "phaser X sum 2\nsource a a.csv -> X\nsource b b.csv -> X\nsink out X\n",
        samples: &["1\n2\n3\n", "10\n20\n"],
        acts: &[
            Run,
            Feed(0, 3),
            Run,
            Feed(1, 1),
            Run,
            Take,
            Finish(1),
            Run,
            Take,
            Finish(0),
            Run,
            Take,
        ],
        told: "Hungry { source: 0 } 3 Hungry { source: 1 } 1 Hungry { source: 0 } 0: 11 \
            Hungry { source: 0 } 0: 2 3 Done 0: ",
    },
    Case {
        name: "a source that has ended takes no sample",
        graph: "phaser X sum 2\nsource s s.csv -> X\nsink out X\n",
        samples: &["1\n2\n3\n"],
        acts: &[
            Feed(0, 2),
            Finish(0),
            Feed(0, 1),
            Run,
            Take,
            Feed(0, 1),
            Run,
        ],
        told: "2 0 Done 0: 1 2 0 Done ",
    },
    Case {
        name: "a source ends without a sample",
        graph: "phaser X sum 2\nsource s s.csv -> X\nsink out X\n",
        samples: &["1\n"],
        acts: &[Finish(0), Run, Take],
        told: "Done 0: ",
    },
    Case {
        name: "no samples are a piece too",
        graph: "phaser X sum 2\nsource s s.csv -> X\nsink out X\n",
        samples: &["1\n2\n"],
        acts: &[Feed(0, 0), Run, Feed(0, 1), Feed(0, 1), Run, Take],
        told: "0 Hungry { source: 0 } 1 1 Hungry { source: 0 } 0: 1 2 ",
    },
    // The child is due where its parent has no sample left. Its samples came before it.
    Case {
        name: "a child comes before its parent waits for a sample",
        graph: "phaser X sum 4\nsource s s.csv -> X\nsource c c.csv -> X by s at 1\nsink out X\n",
        samples: &["1\n2\n", "10\n20\n"],
        acts: &[
            Feed(1, 2),
            Feed(0, 1),
            Run,
            Take,
            Feed(0, 1),
            Run,
            Take,
            Finish(0),
            Run,
            Take,
        ],
        told: "2 1 Hungry { source: 0 } 0: 1 1 Hungry { source: 0 } 0: 12 \
            Hungry { source: 1 } 0: 20 ",
    },
    Case {
        name: "a child that never comes waits for no sample",
        graph: "phaser X sum 4\nsource s s.csv -> X\nsource c c.csv -> X by s at 2\nsink out X\n",
        samples: &["1\n2\n", "10\n"],
        acts: &[Feed(0, 1), Finish(0), Run, Take],
        told: "1 Done 0: 1 ",
    },
    Case {
        name: "a source leaves at its until, and waits for no sample",
        graph: "phaser X sum 4\nsource s s.csv -> X until 2\nsink out X\n",
        samples: &["1\n2\n3\n"],
        acts: &[Feed(0, 3), Run, Take],
        told: "3 Done 0: 1 2 ",
    },
    Case {
        name: "no sample helps a graph that stands still",
        graph: "phaser X sum 1\nphaser A sum 1\nphaser B sum 1\nphaser S sum 1\n\
            source s s.csv -> X\nsplit d X -> A B\nfir f A -> S shift 0 taps 1\n\
            fir g X -> S shift 0 taps 1\nsink out S\n",
        samples: &["1\n2\n3\n4\n5\n6\n7\n8\n"],
        acts: &[Feed(0, 7), Finish(0), Run, Take, Feed(0, 1), Run, Take],
        told: "7 Stalled 0: 2 5 8 0 Stalled 0: ",
    },
    Case {
        name: "a value out of range is told again, and no sample is taken behind it",
        graph: "phaser X sum 1\nsource a a.csv -> X\nsource b b.csv -> X\nsink out X\n",
        samples: &["1\n9223372036854775807\n", "1\n1\n1\n"],
        acts: &[
            Feed(0, 2),
            Feed(1, 2),
            Run,
            Take,
            Feed(1, 1),
            Finish(0),
            Run,
            Take,
        ],
        told: "2 2 TooBig { place: Phaser(0), phase: 1 } 0: 2 0 \
            TooBig { place: Phaser(0), phase: 1 } 0: ",
    },
    Case {
        name: "each value before one out of range comes out, whatever the bounds",
        graph: "phaser X sum 9\nphaser Y sum 9\nsource s s.csv -> X\n\
            fir f X -> Y shift 0 taps 1 1\nsink out Y\n",
        samples: &["1\n2\n3\n9223372036854775807\n9223372036854775807\n"],
        acts: &[Feed(0, 5), Run, Take],
        told: "5 TooBig { place: Task(1), phase: 3 } 0: 1 3 5 ",
    },
    Case {
        name: "of two branches the one without a value out of range goes on",
        graph: "phaser X sum 1\nphaser Y sum 1\nphaser Z sum 1\nsource s s.csv -> X\n\
            fir f X -> Y shift 0 taps 2\nfir g X -> Z shift 0 taps 1\nsink y Y\nsink z Z\n",
        samples: &["1\n9223372036854775807\n3\n4\n"],
        acts: &[Feed(0, 4), Finish(0), Run, Take],
        told: "4 TooBig { place: Task(1), phase: 1 } 0: 2 1: 1 9223372036854775807 3 ",
    },
    Case {
        name: "two tasks that could meet, were there samples enough, are refused",
        graph: "phaser X any 2\nsource a a.csv -> X\nsource b b.csv -> X by a at 1\nsink out X\n",
        samples: &["1\n", "2\n"],
        acts: &[Run],
        told: "AnyMeets { line: 3 }",
    },
];

#[test]
fn a_run_that_is_fed_tells_why_it_stops(rt: HostRuntime) -> Result<(), Fail> {
    for case in &CASES {
        let told = told(rt.alloc(), case.graph, case.samples, case.acts)?;
        assert_eq!(rt; told.as_str(), case.told, "{}", case.name);
    }
    Ok(())
}

/// So many samples of 7.
fn sevens(alloc: std::alloc::Global, count: usize) -> Result<String, Fail> {
    let mut text = String::new(alloc);
    for _ in 0..count {
        text.push_str("7\n")?;
    }
    Ok(text)
}

// A source has room for 4,096 samples, and a sink for 4,096 values. The source signals two more, as
// the bound allows.
#[test]
fn sources_and_sinks_have_their_rooms(rt: HostRuntime) -> Result<(), Fail> {
    let samples = sevens(rt.alloc(), 10_000)?;
    let graph = "phaser X sum 2\nsource s s.csv -> X\nsink out X\n";
    let acts = [
        Feed(0, 5_000),
        Feed(0, 1),
        Run,
        Feed(0, 5_000),
        Feed(0, 1),
        Run,
        Feed(0, 9),
    ];
    let told = told(rt.alloc(), graph, &[&samples], &acts)?;
    let wanted = "4096 0 Full { sink: 0 } 4096 0 Full { sink: 0 } 2 ";
    assert_eq!(rt; told.as_str(), wanted);
    Ok(())
}
