//! Runs of graphs with children on worker threads. What is expected was worked out by hand.
use crate::runs::{Case, last_run};
use std::test::Fail;
use stream_job::JobRefusal;

// How often a graph is run by each number of workers.
const RUNS: u32 = 10;

// f puts 1, 3, 5, 7. g takes the sample 3 alone, as the first that it meets, and puts 3 beside 5.
pub const SECOND_FILTER: &str = "phaser X sum 4\nphaser Y sum 4\nsource s s.csv -> X\n\
    fir f X -> Y shift 0 taps 1 1\nfir g X -> Y shift 0 taps 1 1 by f at 2 until 1\nsink out Y\n";

static CASES: [Case; 10] = [
    Case {
        name: "a child joins where its parent is",
        graph: "phaser X sum 4\nsource s s.csv -> X\nsink out X\n\
            sink late X by out at 2\nsink early X until 2\n",
        samples: &["1\n2\n3\n4\n"],
        runs: RUNS,
        wanted: "out 4\n1\n2\n3\n4\nlate 2\n3\n4\nearly 2\n1\n2\n",
    },
    Case {
        name: "a source hands over to its child",
        graph: "phaser X any 2\nsource A a.csv -> X\nsource B b.csv -> X by A at 3\n\
            sink out X\n",
        samples: &["1\n2\n3\n", "4\n5\n"],
        runs: RUNS,
        wanted: "out 5\n1\n2\n3\n4\n5\n",
    },
    // The child would come after A's last step, and does not.
    Case {
        name: "a source would hand over after its last step",
        graph: "phaser X any 2\nsource A a.csv -> X\nsource B b.csv -> X by A at 4\n\
            sink out X\n",
        samples: &["1\n2\n3\n", "4\n5\n"],
        runs: RUNS,
        wanted: "out 3\n1\n2\n3\n",
    },
    Case {
        name: "a filter adds a child",
        graph: SECOND_FILTER,
        samples: &["1\n2\n3\n4\n"],
        runs: RUNS,
        wanted: "out 4\n1\n3\n8\n7\n",
    },
    Case {
        name: "a child of a child",
        graph: "phaser X sum 4\nsource s s.csv -> X\nsink out X\n\
            sink child X by out at 1\nsink grandchild X by child at 2\n",
        samples: &["1\n2\n3\n4\n"],
        runs: RUNS,
        wanted: "out 4\n1\n2\n3\n4\nchild 3\n2\n3\n4\ngrandchild 1\n4\n",
    },
    Case {
        name: "a child as its parent ends",
        graph: "phaser X sum 4\nsource s s.csv -> X\nsink early X until 2\n\
            sink heir X by early at 2\n",
        samples: &["1\n2\n3\n4\n"],
        runs: RUNS,
        wanted: "early 2\n1\n2\nheir 2\n3\n4\n",
    },
    Case {
        name: "two children at once",
        graph: "phaser X sum 2\nsource s s.csv -> X\nsink out X\n\
            sink one X by out at 1\nsink two X by out at 1 until 1\n",
        samples: &["1\n2\n3\n4\n"],
        runs: RUNS,
        wanted: "out 4\n1\n2\n3\n4\none 3\n2\n3\n4\ntwo 1\n2\n",
    },
    Case {
        name: "a child before the first step",
        graph: "phaser X sum 2\nsource s s.csv -> X\n\
            source t t.csv -> X by s at 0\nsink out X\n",
        samples: &["1\n2\n3\n4\n", "10\n20\n"],
        runs: RUNS,
        wanted: "out 4\n11\n22\n3\n4\n",
    },
    Case {
        name: "a child at the end of a stream",
        graph: "phaser X sum 4\nsource s s.csv -> X\nsink out X\n\
            sink last X by out at 4\n",
        samples: &["1\n2\n3\n4\n"],
        runs: RUNS,
        wanted: "out 4\n1\n2\n3\n4\nlast 0\n",
    },
    // A sink that never begins has no values.
    Case {
        name: "a child that never comes",
        graph: "phaser X sum 4\nsource s s.csv -> X\nsink out X\n\
            sink never X by out at 5\n",
        samples: &["1\n2\n3\n4\n"],
        runs: RUNS,
        wanted: "out 4\n1\n2\n3\n4\nnever 0\n",
    },
];

#[test]
fn runs_with_children_end_with_their_values(rt: HostRuntime) -> Result<(), Fail> {
    for case in &CASES {
        let (told, workers) = last_run(&rt, rt.alloc(), case)?;
        assert_eq!(rt;
            told.as_str(),
            case.wanted,
            "{}: by {workers} workers",
            case.name
        );
    }
    Ok(())
}

// With `at` 2 the two would signal in one phase.
#[test]
fn a_source_that_hands_over_early_is_refused(rt: HostRuntime) -> Result<(), Fail> {
    let early = "phaser X any 2\nsource A a.csv -> X\n\
        source B b.csv -> X by A at 2\nsink out X\n";
    let refused = stream_job::job_of(rt.alloc(), early, &["1\n2\n3\n", "4\n5\n"])?;
    assert!(rt; matches!(refused, Err(JobRefusal::AnyMeets { line: 3 })));
    Ok(())
}
