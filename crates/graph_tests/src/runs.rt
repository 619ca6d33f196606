//! Runs to their end, in rotation and by given turns, and what whole lists have for them.
use crate::feeds::fed;
use crate::jobs::at_bound;
use crate::rounds::{at_end, evaluated, given, ran};
use std::alloc::Global;
use std::test::Fail;

/// What makes the values of the sinks.
#[derive(Clone, Copy, Debug)]
enum Way {
    /// Turns in rotation, until a round makes no event.
    Rotation,
    /// Forty given turns of each task.
    GivenTurns,
    /// Whole lists.
    WholeLists,
}

static WAYS: [Way; 3] = [Way::Rotation, Way::GivenTurns, Way::WholeLists];

const BOUNDS: [u64; 5] = [1, 2, 4, 64, 65536];

/// A graph with a `?` for the bound of each phaser, the samples of its sources, and what its sinks
/// have at the end, under each bound and in each way.
struct Case {
    name: &'static str,
    graph: &'static str,
    samples: &'static [&'static str],
    lines: &'static str,
}

static CASES: [Case; 27] = [
    Case {
        name: "a filter rounds down",
        graph: "phaser X sum ?\nphaser Y sum ?\nsource s s.csv -> X\n\
            fir f X -> Y shift 2 taps 1 2 1\nsink out Y\n",
        samples: &["-1\n-1\n0\n"],
        lines: "2: -1 -1 -1\n",
    },
    Case {
        name: "eleven sinks and a child",
        graph: "phaser X sum ?\nsource s s.csv -> X\nsink a X\nsink b X\nsink c X\n\
            sink d X\nsink e X\nsink f X\nsink g X\nsink h X\nsink i X\nsink j X\n\
            sink k X\nsink late X by k at 0\n",
        samples: &["5\n"],
        lines: "1: 5\n2: 5\n3: 5\n4: 5\n5: 5\n6: 5\n7: 5\n8: 5\n9: 5\n10: 5\n11: 5\n12: 5\n",
    },
    Case {
        name: "no samples give no values",
        graph: "phaser X sum ?\nphaser Y sum ?\nsource s s.csv -> X\n\
            fir f X -> Y shift 2 taps 1 2 1\nsink out Y\n",
        samples: &[""],
        lines: "2:\n",
    },
    Case {
        name: "an output is shifted before its range counts",
        graph: "phaser X sum ?\nphaser Y sum ?\nsource s s.csv -> X\n\
            fir f X -> Y shift 1 taps 2\nsink out Y\n",
        samples: &["9223372036854775807\n"],
        lines: "2: 9223372036854775807\n",
    },
    Case {
        name: "a chain of two filters",
        graph: "phaser X sum ?\nphaser Y sum ?\nphaser Z sum ?\nsource s s.csv -> X\n\
            fir f X -> Y shift 0 taps 1 1\nfir g Y -> Z shift 0 taps 1 -1\nsink out Z\n",
        samples: &["1\n2\n3\n4\n5\n6\n7\n8\n"],
        lines: "3: 1 2 2 2 2 2 2 2\n",
    },
    // One of the splitter's outputs has a filter that signals with a filter of its input.
    Case {
        name: "six samples come to one bus",
        graph: "phaser X sum ?\nphaser A sum ?\nphaser B sum ?\nphaser S sum ?\n\
            source s s.csv -> X\nsplit d X -> A B\nfir f A -> S shift 0 taps 1\n\
            fir g X -> S shift 0 taps 1\nsink out S\n",
        samples: &["1\n2\n3\n4\n5\n6\n"],
        lines: "4: 2 5 8 4 5 6\n",
    },
    Case {
        name: "a joiner joins what was split",
        graph: "phaser X sum ?\nphaser A sum ?\nphaser B sum ?\nphaser Y sum ?\n\
            source s s.csv -> X\nsplit d X -> A B\njoin j A B -> Y\nsink out Y\n",
        samples: &["1\n2\n3\n4\n5\n"],
        lines: "3: 1 2 3 4 5\n",
    },
    Case {
        name: "an odd number of samples is split and joined",
        graph: "phaser X sum ?\nphaser A sum ?\nphaser B sum ?\nphaser Y sum ?\n\
            source s s.csv -> X\nsplit d X -> A B\njoin j A B -> Y\nsink out Y\n",
        samples: &["4\n-7\n9\n"],
        lines: "3: 4 -7 9\n",
    },
    Case {
        name: "a peer of fewer samples leaves the other alone",
        graph: "phaser X sum ?\nphaser Z sum ?\nphaser E sum ?\nphaser P sum ?\nphaser Q sum ?\n\
            source a a.csv -> X\nsource b b.csv -> Z\npeer p X <-> E -> P mul 2\n\
            peer q Z <-> E -> Q mul 2\nsink outp P\nsink outq Q\n",
        samples: &["1\n2\n", "10\n20\n30\n"],
        lines: "4: -9 -18\n5: 9 18 30\n",
    },
    Case {
        name: "peers get what the single makes",
        graph: "phaser X sum ?\nphaser Z sum ?\nphaser E sum ? single neg\nphaser P sum ?\n\
            phaser Q sum ?\nsource a a.csv -> X\nsource b b.csv -> Z\n\
            peer p X <-> E -> P mul 2\npeer q Z <-> E -> Q mul 2\nsink outp P\nsink outq Q\n",
        samples: &["1\n2\n", "10\n20\n30\n"],
        lines: "4: 13 26\n5: 31 62 90\n",
    },
    // The sums are 16, -18, 7 and 8. A peer puts twice its sample and the sum.
    Case {
        name: "the first of two peers with a single goes on alone",
        graph: "phaser X sum ?\nphaser Z sum ?\nphaser E sum ? single neg\nphaser P sum ?\n\
            phaser Q sum ?\nsource a a.csv -> X\nsource b b.csv -> Z\n\
            peer p X <-> E -> P mul 2\npeer q Z <-> E -> Q mul 2\nsink outp P\nsink outq Q\n",
        samples: &["5\n-6\n7\n8\n", "11\n-12\n"],
        lines: "4: 26 -30 21 24\n5: 38 -42\n",
    },
    Case {
        name: "a longer source goes on alone",
        graph: "phaser X sum ?\nsource a a.csv -> X\nsource b b.csv -> X\nsink out X\n",
        samples: &["1\n2\n", "10\n20\n30\n"],
        lines: "2: 11 22 30\n",
    },
    Case {
        name: "a sink without a signaller ends",
        graph: "phaser X sum ?\nsink out X\n",
        samples: &[],
        lines: "0:\n",
    },
    Case {
        name: "a graph without a line has no sinks",
        graph: "",
        samples: &[],
        lines: "",
    },
    Case {
        name: "a source hands over to its child",
        graph: "phaser X any ?\nsource A a.csv -> X\nsource B b.csv -> X by A at 3\nsink out X\n",
        samples: &["1\n2\n3\n", "4\n5\n"],
        lines: "2: 1 2 3 4 5\n",
    },
    Case {
        name: "a child after the last step never comes",
        graph: "phaser X any ?\nsource A a.csv -> X\nsource B b.csv -> X by A at 4\nsink out X\n",
        samples: &["1\n2\n3\n", "4\n5\n"],
        lines: "2: 1 2 3\n",
    },
    Case {
        name: "a late sink has the last values, and an early one the first",
        graph: "phaser X sum ?\nsource s s.csv -> X\nsink out X\nsink late X by out at 2\n\
            sink early X until 2\n",
        samples: &["1\n2\n3\n4\n"],
        lines: "1: 1 2 3 4\n2: 3 4\n3: 1 2\n",
    },
    // Another never comes.
    Case {
        name: "a sink that comes at the end has nothing",
        graph: "phaser X sum ?\nsource s s.csv -> X\nsink out X\nsink last X by out at 4\n\
            sink never X by out at 5\n",
        samples: &["1\n2\n3\n4\n"],
        lines: "1: 1 2 3 4\n2:\n3:\n",
    },
    // It is registered at the boundary at which `until` ends the parent.
    Case {
        name: "a child follows a parent that leaves",
        graph: "phaser X sum ?\nsource s s.csv -> X\nsink out X until 2\nsink heir X by out at 2\n",
        samples: &["1\n2\n3\n4\n"],
        lines: "1: 1 2\n2: 3 4\n",
    },
    // The child makes one step.
    Case {
        name: "a child filter begins with zeros",
        graph: "phaser X sum ?\nphaser Y sum ?\nsource s s.csv -> X\n\
            fir f X -> Y shift 0 taps 1 1\nfir g X -> Y shift 0 taps 1 1 by f at 2 until 1\n\
            sink out Y\n",
        samples: &["1\n2\n3\n4\n"],
        lines: "3: 1 3 8 7\n",
    },
    Case {
        name: "a child of a child comes later still",
        graph: "phaser X sum ?\nsource s s.csv -> X\nsink out X\n\
            sink child X by out at 1 until 3\nsink grandchild X by child at 2\n",
        samples: &["1\n2\n3\n4\n5\n"],
        lines: "1: 1 2 3 4 5\n2: 2 3 4\n3: 4 5\n",
    },
    // Two come at once, of which the first is a filter.
    Case {
        name: "children at the opening take all values",
        graph: "phaser X sum ?\nphaser Y sum ?\nsource s s.csv -> X\n\
            fir f X -> Y shift 0 taps 1\nfir g X -> Y shift 0 taps 10 by f at 0\n\
            fir h X -> Y shift 0 taps 100 by f at 0 until 1\nsink out Y\n",
        samples: &["1\n2\n"],
        lines: "4: 111 22\n",
    },
    Case {
        name: "sinks take over from one another what was split and joined",
        graph: "phaser X sum ?\nphaser A sum ?\nphaser B sum ?\nphaser Y sum ?\n\
            source s s.csv -> X\nsplit d X -> A B\njoin j A B -> Y\nsink out Y until 2\n\
            sink next Y by out at 2 until 2\nsink last Y by next at 2\n",
        samples: &["1\n2\n3\n4\n5\n6\n7\n"],
        lines: "3: 1 2\n4: 3 4\n5: 5 6 7\n",
    },
    // The parent steps one by one, so that its child comes at the boundary of its line.
    Case {
        name: "sinks by blocks have what sinks by single steps have",
        graph: "graph 2\nphaser X sum 4\nsource s s.csv -> X block=4\nsink out X\n\
            sink late X by out at 2\nsink early X until 2 block=4\n",
        samples: &["1\n2\n3\n4\n"],
        lines: "1: 1 2 3 4\n2: 3 4\n3: 1 2\n",
    },
    Case {
        name: "a child filter by blocks begins with zeros",
        graph: "graph 2\nphaser X sum 4\nphaser Y sum 4\nsource s s.csv -> X block=3\n\
            fir f X -> Y shift 0 taps 1 1 block=4\n\
            fir g X -> Y shift 0 taps 1 1 by f at 2 until 1 block=4\nsink out Y\n",
        samples: &["1\n2\n3\n4\n"],
        lines: "3: 1 3 8 7\n",
    },
    Case {
        name: "a decimator puts the first of each three values",
        graph: "graph 3\nphaser X sum ?\nphaser Y sum ?\nsource s s.csv -> X\n\
            decimate d X -> Y every 3\nsink out Y\n",
        samples: &["3\n1\n4\n1\n5\n9\n2\n"],
        lines: "2: 3 1 2\n",
    },
    Case {
        name: "a decimator that may take six values puts two of them",
        graph: "graph 3\nphaser X sum ?\nphaser Y sum ?\nsource s s.csv -> X\n\
            decimate d X -> Y every 3 until 6\nsink out Y\n",
        samples: &["3\n1\n4\n1\n5\n9\n2\n"],
        lines: "2: 3 1\n",
    },
];

fn lines_by(way: Way, alloc: Global, case: &Case, bound: u64) -> Result<String, Fail> {
    let graph = at_bound(alloc, case.graph, bound)?;
    match way {
        Way::Rotation => at_end(alloc, ran(alloc, &graph, case.samples)?),
        Way::GivenTurns => at_end(alloc, given(alloc, &graph, case.samples)?),
        Way::WholeLists => evaluated(alloc, &graph, case.samples),
    }
}

#[test]
fn sinks_have_their_values_at_the_end(rt: HostRuntime) -> Result<(), Fail> {
    for case in &CASES {
        for bound in &BOUNDS {
            for way in &WAYS {
                let lines = lines_by(*way, rt.alloc(), case, *bound)?;
                assert_eq!(rt;
                    lines.as_str(),
                    case.lines,
                    "{}: {way:?}, bound {bound}",
                    case.name
                );
            }
        }
    }
    Ok(())
}

const PIECES: [usize; 5] = [1, 2, 3, 7, 100];

// Two tasks of a phaser with `any` would meet, had the first more samples.
#[test]
fn sinks_have_their_values_by_pieces(rt: HostRuntime) -> Result<(), Fail> {
    for case in CASES.iter().filter(|case| !case.graph.contains(" any ")) {
        for bound in &BOUNDS {
            let graph = at_bound(rt.alloc(), case.graph, *bound)?;
            for piece in &PIECES {
                let lines = fed(rt.alloc(), &graph, case.samples, *piece)?;
                assert_eq!(rt;
                    lines.as_str(),
                    case.lines,
                    "{}: pieces of {piece}, bound {bound}",
                    case.name
                );
            }
        }
    }
    Ok(())
}

// The filter gives a sample and the one before it.
const LONG_BLOCKS: Case = Case {
    name: "blocks of 65, and of as many as a phaser may have",
    graph: "graph 2\nphaser X sum 65536\nphaser Y sum 65\nsource s s.csv -> X block=65536\n\
        fir f X -> Y shift 0 taps 1 1 block=65\nsink out Y block=65\n",
    samples: &[
        "0\n1\n2\n3\n4\n5\n6\n7\n8\n9\n10\n11\n12\n13\n14\n15\n16\n17\n18\n19\n20\n\
        21\n22\n23\n24\n25\n26\n27\n28\n29\n30\n31\n32\n33\n34\n35\n36\n37\n38\n39\n40\n41\n\
        42\n43\n44\n45\n46\n47\n48\n49\n50\n51\n52\n53\n54\n55\n56\n57\n58\n59\n60\n61\n62\n\
        63\n64\n65\n",
    ],
    lines: "2: 0 1 3 5 7 9 11 13 15 17 19 21 23 25 27 29 31 33 35 37 39 41 43 45 47 49 51 53 \
        55 57 59 61 63 65 67 69 71 73 75 77 79 81 83 85 87 89 91 93 95 97 99 101 103 105 107 \
        109 111 113 115 117 119 121 123 125 127 129\n",
};

#[test]
fn long_blocks_have_their_places(rt: HostRuntime) -> Result<(), Fail> {
    for way in &WAYS {
        let lines = lines_by(*way, rt.alloc(), &LONG_BLOCKS, 1)?;
        assert_eq!(rt;
            lines.as_str(),
            LONG_BLOCKS.lines,
            "{}: {way:?}",
            LONG_BLOCKS.name
        );
    }
    Ok(())
}
