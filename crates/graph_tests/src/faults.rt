//! Runs that come to a value out of range.
use crate::jobs::at_bound;
use crate::rounds::{Round, given, ran};
use graph_base::Place;
use std::alloc::Global;
use std::test::Fail;

/// A graph with a `?` for the bound of each phaser, the samples of its sources, where a value is
/// out of range first, and what the sinks have by then.
struct Case {
    name: &'static str,
    graph: &'static str,
    samples: &'static [&'static str],
    place: Place,
    phase: u64,
    lines: &'static str,
}

const BOUNDS: [u64; 4] = [1, 2, 4, 64];

static CASES: [Case; 5] = [
    Case {
        name: "an output out of range is told",
        graph: "phaser X sum ?\nphaser Y sum ?\nsource s s.csv -> X\n\
            fir f X -> Y shift 0 taps 2\nsink out Y\n",
        samples: &["9223372036854775807\n"],
        place: Place::Task(1),
        phase: 0,
        lines: "2:\n",
    },
    Case {
        name: "an output out of range is the last",
        graph: "phaser X sum ?\nphaser Y sum ?\nsource s s.csv -> X\n\
            fir f X -> Y shift 0 taps 2\nsink out Y\n",
        samples: &["9223372036854775807\n3\n"],
        place: Place::Task(1),
        phase: 0,
        lines: "2:\n",
    },
    // The second output is half of three times the sample.
    Case {
        name: "an output before one out of range is taken",
        graph: "phaser X sum ?\nphaser Y sum ?\nsource s s.csv -> X\n\
            fir f X -> Y shift 1 taps 1 2\nsink out Y\n",
        samples: &["9223372036854775807\n9223372036854775807\n"],
        place: Place::Task(1),
        phase: 1,
        lines: "2: 4611686018427387903\n",
    },
    Case {
        name: "a phase out of range is told where it is taken",
        graph: "phaser X sum ?\nsource a a.csv -> X\nsource b b.csv -> X\nsink out X\n",
        samples: &["5\n9223372036854775807\n", "6\n1\n"],
        place: Place::Phaser(0),
        phase: 1,
        lines: "2: 11\n",
    },
    // The sums are 11, one more than the greatest value, 2, and that one again.
    Case {
        name: "the first of two phases out of range is told",
        graph: "phaser X sum ?\nsource a a.csv -> X\nsource b b.csv -> X\nsink out X\n",
        samples: &[
            "5\n9223372036854775807\n1\n9223372036854775807\n",
            "6\n1\n1\n1\n",
        ],
        place: Place::Phaser(0),
        phase: 1,
        lines: "2: 11\n",
    },
];

/// What a case's run in rotation comes to, and its run by given turns, with what the sinks have.
fn told(
    alloc: Global,
    case: &Case,
    bound: u64,
) -> Result<((Round, String), (Round, String)), Fail> {
    let graph = at_bound(alloc, case.graph, bound)?;
    let rotated = ran(alloc, &graph, case.samples)?;
    Ok((rotated, given(alloc, &graph, case.samples)?))
}

#[test]
fn a_value_out_of_range_is_told(rt: HostRuntime) -> Result<(), Fail> {
    for case in &CASES {
        let (place, phase) = (case.place, case.phase);
        let wanted = Round::TooBig { place, phase };
        for bound in BOUNDS {
            let (rotated, by_turns) = told(rt.alloc(), case, bound)?;
            assert_eq!(rt;
                (
                    rotated.0,
                    rotated.1.as_str(),
                    by_turns.0,
                    by_turns.1.as_str()
                ),
                (wanted, case.lines, wanted, ""),
                "{}: bound {bound}",
                case.name
            );
        }
    }
    Ok(())
}
