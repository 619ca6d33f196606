//! Runs of graphs on worker threads. What is expected was worked out by hand.
use crate::jobs::{WORKERS, job_of, told};
use std::alloc::Global;
use std::sync::Wait;
use std::test::Fail;
use std::thread::Threads;
use stream_workers::Open;

/// A graph, the samples of its sources, how often it is run by each number of workers, and what
/// each run ends with.
pub struct Case {
    pub name: &'static str,
    pub graph: &'static str,
    pub samples: &'static [&'static str],
    pub runs: u32,
    pub wanted: &'static str,
}

/// Runs a case until a run ends with something else. What the last run ended with, and by how many
/// workers.
pub fn last_run<R: Threads + Wait + Sync>(
    rt: &R,
    alloc: Global,
    case: &Case,
) -> Result<(String, usize), Fail> {
    let job = job_of(alloc, case.graph, case.samples)?;
    let mut last = (String::new(alloc), 0);
    for _ in 0..case.runs {
        for workers in WORKERS {
            last = (told(rt, alloc, &job, workers, &Open)?, workers);
            if last.0.as_str() != case.wanted {
                return Ok(last);
            }
        }
    }
    Ok(last)
}

const ROOM_FOR_ONE: &str = "phaser X sum 4\nphaser Y sum 2\nphaser Z sum 2\nphaser V sum 9\n\
    phaser W sum 9\nsource s s.csv -> X\nfir f X -> Y shift 0 taps 1\nsplit e Y -> Z V\n\
    join j Y Z -> W\nsink w W\n";

static CASES: [Case; 30] = [
    Case {
        name: "a filter",
        graph: "phaser X sum 4\nphaser Y sum 4\nsource s s.csv -> X\n\
            fir f X -> Y shift 2 taps 1 2 1\nsink out Y\n",
        samples: &["-1\n-1\n0\n"],
        runs: 1,
        wanted: "out 3\n-1\n-1\n-1\n",
    },
    Case {
        name: "a filter of no samples",
        graph: "phaser X sum 4\nphaser Y sum 4\nsource s s.csv -> X\n\
            fir f X -> Y shift 2 taps 1 2 1\nsink out Y\n",
        samples: &[""],
        runs: 1,
        wanted: "out 0\n",
    },
    Case {
        name: "two sources on one phaser",
        graph: "phaser X sum 1\nsource a a.csv -> X\nsource b b.csv -> X\nsink out X\n",
        samples: &["1\n2\n3\n", "10\n"],
        runs: 1,
        wanted: "out 3\n11\n2\n3\n",
    },
    // The filter `f` and the filter `g` meet on S, and `f` gets each second sample alone. With
    // bounds of 1 `g` is let on six samples, and no further.
    Case {
        name: "a splitter and a filter on one bus",
        graph: "phaser X sum 1\nphaser A sum 1\nphaser B sum 1\nphaser S sum 1\n\
            source s s.csv -> X\nsplit d X -> A B\nfir f A -> S shift 0 taps 1\n\
            fir g X -> S shift 0 taps 1\nsink out S\n",
        samples: &["1\n2\n3\n4\n5\n6\n"],
        runs: 1,
        wanted: "out 6\n2\n5\n8\n4\n5\n6\n",
    },
    Case {
        name: "a splitter and a filter stand still",
        graph: "phaser X sum 1\nphaser A sum 1\nphaser B sum 1\nphaser S sum 1\n\
            source s s.csv -> X\nsplit d X -> A B\nfir f A -> S shift 0 taps 1\n\
            fir g X -> S shift 0 taps 1\nsink out S\n",
        samples: &["1\n2\n3\n4\n5\n6\n7\n"],
        runs: 100,
        wanted: "stalled\n",
    },
    Case {
        name: "a decimator",
        graph: "graph 3\nphaser X sum 1\nphaser Y sum 1\nsource s s.csv -> X\n\
            decimate d X -> Y every 3\nsink out Y\n",
        samples: &["3\n1\n4\n1\n5\n9\n2\n"],
        runs: 10,
        wanted: "out 3\n3\n1\n2\n",
    },
    // As with the splitter above, whose other output nobody takes from.
    Case {
        name: "a decimator and a filter on one bus",
        graph: "graph 3\nphaser X sum 1\nphaser A sum 1\nphaser S sum 1\n\
            source s s.csv -> X\ndecimate d X -> A every 2\nfir f A -> S shift 0 taps 1\n\
            fir g X -> S shift 0 taps 1\nsink out S\n",
        samples: &["1\n2\n3\n4\n5\n6\n"],
        runs: 1,
        wanted: "out 6\n2\n5\n8\n4\n5\n6\n",
    },
    Case {
        name: "a decimator and a filter stand still",
        graph: "graph 3\nphaser X sum 1\nphaser A sum 1\nphaser S sum 1\n\
            source s s.csv -> X\ndecimate d X -> A every 2\nfir f A -> S shift 0 taps 1\n\
            fir g X -> S shift 0 taps 1\nsink out S\n",
        samples: &["1\n2\n3\n4\n5\n6\n7\n"],
        runs: 100,
        wanted: "stalled\n",
    },
    // The joiner takes from Y and Z by turns, and Z has each second value of Y: it takes phase 3 of
    // Y once phase 4 is signalled. So the filter may signal that, but never a block of 4 and 5.
    Case {
        name: "a filter signals one phase where there is no room for two",
        graph: ROOM_FOR_ONE,
        samples: &["1\n2\n3\n4\n5\n6\n"],
        runs: 10,
        wanted: "w 7\n1\n1\n2\n3\n3\n5\n4\n",
    },
    Case {
        name: "a filter has no room for the seventh sample",
        graph: ROOM_FOR_ONE,
        samples: &["1\n2\n3\n4\n5\n6\n7\n"],
        runs: 10,
        wanted: "stalled\n",
    },
    Case {
        name: "two peers",
        graph: "phaser X sum 2\nphaser Z sum 2\nphaser E sum 2\nphaser P sum 2\nphaser Q sum 2\n\
            source a a.csv -> X\nsource b b.csv -> Z\npeer p X <-> E -> P mul 2\n\
            peer q Z <-> E -> Q mul 2\nsink outp P\nsink outq Q\n",
        samples: &["1\n2\n", "10\n20\n30\n"],
        runs: 1,
        wanted: "outp 2\n-9\n-18\noutq 3\n9\n18\n30\n",
    },
    Case {
        name: "two peers and a single",
        graph: "phaser X sum 2\nphaser Z sum 2\nphaser E sum 2 single neg\nphaser P sum 2\n\
            phaser Q sum 2\nsource a a.csv -> X\nsource b b.csv -> Z\npeer p X <-> E -> P mul 2\n\
            peer q Z <-> E -> Q mul 2\nsink outp P\nsink outq Q\n",
        samples: &["1\n2\n", "10\n20\n30\n"],
        runs: 1,
        wanted: "outp 2\n13\n26\noutq 3\n31\n62\n90\n",
    },
    Case {
        name: "a splitter and a joiner",
        graph: "phaser X sum 1\nphaser A sum 1\nphaser B sum 1\nphaser Y sum 1\n\
            source s s.csv -> X\nsplit d X -> A B\njoin j A B -> Y\nsink out Y\n",
        samples: &["1\n2\n3\n4\n5\n"],
        runs: 10,
        wanted: "out 5\n1\n2\n3\n4\n5\n",
    },
    Case {
        name: "sums of three sources",
        graph: "phaser X sum 1\nsource a a.csv -> X\nsource b b.csv -> X\n\
            source c c.csv -> X\nsink out X\n",
        samples: &["3\n-2\n", "5\n7\n9\n", "4\n"],
        runs: 1,
        wanted: "out 3\n12\n5\n9\n",
    },
    Case {
        name: "products of three sources",
        graph: "phaser X product 1\nsource a a.csv -> X\nsource b b.csv -> X\n\
            source c c.csv -> X\nsink out X\n",
        samples: &["3\n-2\n", "5\n7\n9\n", "4\n"],
        runs: 1,
        wanted: "out 3\n60\n-14\n9\n",
    },
    Case {
        name: "the least of three sources",
        graph: "phaser X least 1\nsource a a.csv -> X\nsource b b.csv -> X\n\
            source c c.csv -> X\nsink out X\n",
        samples: &["3\n-2\n", "5\n7\n9\n", "4\n"],
        runs: 1,
        wanted: "out 3\n3\n-2\n9\n",
    },
    Case {
        name: "the greatest of three sources",
        graph: "phaser X greatest 1\nsource a a.csv -> X\nsource b b.csv -> X\n\
            source c c.csv -> X\nsink out X\n",
        samples: &["3\n-2\n", "5\n7\n9\n", "4\n"],
        runs: 1,
        wanted: "out 3\n5\n7\n9\n",
    },
    Case {
        name: "any value of one source",
        graph: "phaser X any 1\nsource a a.csv -> X\nsink out X\n",
        samples: &["3\n-2\n"],
        runs: 1,
        wanted: "out 2\n3\n-2\n",
    },
    // The early sink leaves, and holds up the source no more.
    Case {
        name: "tasks that end early",
        graph: "phaser X sum 1\nphaser Y sum 1\nsource s s.csv -> X until 4\n\
            fir f X -> Y shift 0 taps 1 1 until 3\nsink early X until 2\nsink never X until 0\n\
            sink out X\nsink outf Y\n",
        samples: &["1\n2\n3\n4\n5\n"],
        runs: 1,
        wanted: "early 2\n1\n2\nnever 0\nout 4\n1\n2\n3\n4\noutf 3\n1\n3\n5\n",
    },
    Case {
        name: "a filter's output is too big",
        graph: "phaser X sum 4\nphaser Y sum 4\nsource s s.csv -> X\n\
            fir f X -> Y shift 0 taps 2\nsink out Y\n",
        samples: &["9223372036854775807\n"],
        runs: 1,
        wanted: "too big at f 0\n",
    },
    Case {
        name: "a filter's output is halved before its range counts",
        graph: "phaser X sum 4\nphaser Y sum 4\nsource s s.csv -> X\n\
            fir f X -> Y shift 1 taps 2\nsink out Y\n",
        samples: &["9223372036854775807\n"],
        runs: 1,
        wanted: "out 1\n9223372036854775807\n",
    },
    Case {
        name: "the least and the greatest value are in range",
        graph: "phaser X sum 2\nsource s s.csv -> X\nsink out X\n",
        samples: &["-9223372036854775807\n9223372036854775807\n0\n"],
        runs: 1,
        wanted: "out 3\n-9223372036854775807\n9223372036854775807\n0\n",
    },
    Case {
        name: "a phaser's first value is too big",
        graph: "phaser X sum 1\nsource a a.csv -> X\nsource b b.csv -> X\nsink out X\n",
        samples: &["9223372036854775807\n", "1\n"],
        runs: 1,
        wanted: "too big at X 0\n",
    },
    Case {
        name: "a phaser's second value is too big",
        graph: "phaser X sum 1\nsource a a.csv -> X\nsource b b.csv -> X\nsink out X\n",
        samples: &["1\n9223372036854775807\n", "10\n1\n"],
        runs: 1,
        wanted: "too big at X 1\n",
    },
    // A worker meets the fault of `g` at once and that of `f` later: the one of the earlier line is
    // told.
    Case {
        name: "the first of two faults is told",
        graph: "phaser X sum 2\nphaser Z sum 2\nphaser Y sum 2\nsource a a.csv -> X\n\
            source b b.csv -> Z\nfir f X -> Y shift 0 taps 2\nfir g Z -> Y shift 0 taps 2\n\
            sink out Y\n",
        samples: &["1\n1\n9223372036854775807\n", "9223372036854775807\n1\n"],
        runs: 10,
        wanted: "too big at f 2\n",
    },
    // Each takes it with its worker.
    Case {
        name: "two sinks meet a value that is too big",
        graph: "phaser X sum 2\nsource a a.csv -> X\nsource b b.csv -> X\nsink out X\nsink too X\n",
        samples: &["9223372036854775807\n", "1\n"],
        runs: 100,
        wanted: "too big at X 0\n",
    },
    Case {
        name: "a source without a sink",
        graph: "phaser X sum 1\nsource s s.csv -> X\n",
        samples: &["1\n2\n3\n"],
        runs: 10,
        wanted: "",
    },
    Case {
        name: "no task and no phaser",
        graph: "",
        samples: &[],
        runs: 10,
        wanted: "",
    },
    Case {
        name: "no task at all",
        graph: "phaser X sum 1\n",
        samples: &[],
        runs: 10,
        wanted: "",
    },
    Case {
        name: "a sink without a source",
        graph: "phaser X sum 1\nsink out X\n",
        samples: &[],
        runs: 10,
        wanted: "out 0\n",
    },
];

#[test]
fn runs_end_with_their_values(rt: HostRuntime) -> Result<(), Fail> {
    for case in &CASES {
        let (told, workers) = last_run(&rt, rt.alloc(), case)?;
        assert_eq!(rt;
            told.as_str(),
            case.wanted,
            "{}: by {workers} workers",
            case.name
        );
    }
    Ok(())
}
