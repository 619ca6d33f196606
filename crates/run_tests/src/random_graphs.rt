//! Graphs that were made at random, and runs of them. What is expected comes from
//! `scripts/check/simulate-graph --bounds`; `scripts/fuzz/graphs --show 1 SEED` prints a graph with
//! it.
use crate::jobs::{job_of, told};
use std::test::Fail;
use stream_workers::Open;

/// Graphs, the samples of their sources, with a semicolon between two, and what their runs end
/// with.
static GRAPHS: [(&str, &str, &str); 20] = [
    // seed 14
    (
        "phaser X0 sum 3\nphaser X1 sum 4\nphaser X2 sum 2\nsource t0 f0 -> X0\n\
        fir t2 X0 -> X2 shift 0 taps 0 1 0 1\nsink t4 X1\nfir t1 X0 -> X1 shift 1 taps -2 1\n\
        sink t3 X1\nsink t5 X2\n",
        "-7\n5\n0\n5\n3\n",
        "t4 5\n7\n-9\n2\n-5\n-1\nt3 5\n7\n-9\n2\n-5\n-1\nt5 5\n0\n-7\n5\n-7\n10\n",
    ),
    // seed 20
    (
        "phaser X0 sum 3\nphaser X1 sum 2\nphaser X2 sum 3\nphaser X3 sum 2\nsource t2 f0 -> X2\n\
        source t0 f1 -> X0\nsink t6 X2\nfir t3 X0 -> X3 shift 0 taps 1 2 0\nsink t4 X0\n\
        source t1 f2 -> X1 until 1\nsink t5 X1\n",
        "-4\n-6\n-9\n-1\n-2\n;9\n-4\n-9\n4\n4\n-7\n-6\n-5\n;1\n4\n-7\n7\n6\n3\n-7\n-3\n",
        "t6 5\n-4\n-6\n-9\n-1\n-2\nt4 8\n9\n-4\n-9\n4\n4\n-7\n-6\n-5\nt5 1\n1\n",
    ),
    // seed 49
    (
        "phaser X0 sum 4\nphaser X1 sum 8\nphaser X2 sum 3\nphaser X3 greatest 64\n\
        phaser X4 product 8\nphaser X5 sum 1\nsink t6 X0 until 5\nsource t1 f0 -> X0\n\
        peer t5 X1 <-> X3 -> X5 mul -1\nsink t9 X5\nsource t0 f1 -> X0\nsink t8 X4\n\
        split t3 X0 -> X1 X2\npeer t4 X0 <-> X3 -> X4 mul 0\nsource t2 f2 -> X0 until 6\n\
        sink t7 X2\n",
        "-5\n5\n-8\n8\n7\n;;9\n2\n3\n-9\n-2\n",
        "t6 5\n4\n7\n-5\n-1\n5\nt9 3\n-8\n-2\n-10\nt8 5\n-4\n-7\n-5\n1\n-5\nt7 2\n7\n-1\n",
    ),
    // seed 59
    (
        "phaser X0 product 1\nphaser X1 sum 4\nphaser X2 sum 2\nsource t0 f0 -> X0\n\
        sink t5 X1 until 1\nsink t6 X2\nsink t3 X0 until 5\npeer t2 X0 <-> X1 -> X2 mul 3\n\
        peer t1 X0 <-> X1 -> X2 mul 3 until 1\nsink t4 X0\n",
        "-9\n-9\n6\n3\n6\n",
        "t5 1\n-18\nt6 5\n-18\n-18\n12\n6\n12\nt3 5\n-9\n-9\n6\n3\n6\nt4 5\n-9\n-9\n6\n3\n6\n",
    ),
    // seed 71
    (
        "phaser X0 sum 3\nphaser X1 least 64\nphaser X2 greatest 1\nphaser X3 least 3\n\
        sink t6 X1\nfir t2 X0 -> X1 shift 1 taps -2 3\nsink t8 X3\n\
        fir t3 X1 -> X2 shift 0 taps -3 until 2\nsink t5 X0\nsource t1 f0 -> X1\nsink t7 X2\n\
        source t0 f1 -> X0\njoin t4 X1 X2 -> X3\n",
        "-4\n-8\n2\n-9\n3\n9\n-3\n-5\n;-1\n-7\n-3\n",
        "t6 8\n-4\n-8\n-8\n-9\n3\n9\n-3\n-5\nt8 5\n-4\n12\n-8\n24\n-8\nt5 3\n-1\n-7\n-3\nt7 2\n\
        12\n24\n",
    ),
    // seed 73
    (
        "phaser X0 product 2\nphaser X1 sum 8\nphaser X2 sum 8\nphaser X3 sum 2\n\
        phaser X4 product 2\nfir t4 X3 -> X4 shift 0 taps 3 -1 -2\nsplit t3 X0 -> X2 X3\n\
        sink t5 X0\nsource t2 f0 -> X1\nsource t0 f1 -> X0\nsink t6 X3\nsink t7 X4\n\
        source t1 f2 -> X0\n",
        "6\n8\n4\n-4\n-8\n-1\n9\n-3\n-7\n5\n2\n0\n-5\n;9\n-7\n6\n3\n7\n;",
        "t5 5\n9\n-7\n6\n3\n7\nt6 2\n-7\n3\nt7 2\n-21\n16\n",
    ),
    // seed 82
    (
        "phaser X0 sum 2\nphaser X1 least 4\nphaser X2 product 8\nphaser X3 greatest 3\n\
        phaser X4 sum 1\nphaser X5 sum 1\nsink t5 X0\nfir t1 X0 -> X1 shift 0 taps -3 0 -2 3\n\
        join t4 X0 X3 X4 -> X5\nsource t0 f0 -> X0\nsplit t2 X0 -> X2 X3 X4\n\
        sink t8 X4 until 5\nfir t3 X2 -> X3 shift 1 taps -3 2 -3\nsink t7 X3\nsink t6 X3\n",
        "-4\n-8\n4\n6\n9\n",
        "stalled\n",
    ),
    // seed 87
    (
        "phaser X0 sum 3\nphaser X1 sum 3\nphaser X2 greatest 8\nsink t5 X2\nsink t3 X1\n\
        split t1 X0 -> X1 X2\nsource t0 f0 -> X0\nsink t2 X0\nsink t4 X2\n",
        "-6\n2\n-9\n-1\n3\n-7\n6\n7\n",
        "t5 4\n2\n-1\n-7\n7\nt3 4\n-6\n-9\n3\n6\nt2 8\n-6\n2\n-9\n-1\n3\n-7\n6\n7\nt4 4\n2\n-1\n\
        -7\n7\n",
    ),
    // seed 109
    (
        "phaser X0 product 1\nphaser X1 product 3\nphaser X2 sum 1\nsink t4 X1\n\
        source t0 f0 -> X0\nsink t5 X2\njoin t3 X0 X1 -> X2\nsource t1 f1 -> X1\n\
        source t2 f2 -> X1\n",
        "7\n6\n0\n;0\n8\n;-9\n1\n",
        "t4 2\n0\n8\nt5 5\n7\n0\n6\n8\n0\n",
    ),
    // seed 114
    (
        "phaser X0 least 2\nphaser X1 greatest 64\nphaser X2 sum 4\nphaser X3 sum 4\n\
        split t3 X0 -> X1 X2\nfir t5 X1 -> X3 shift 2 taps -2 until 5\nsource t1 f0 -> X0\n\
        fir t4 X0 -> X3 shift 0 taps 3 1\nsource t2 f1 -> X0\nfir t6 X1 -> X3 shift 2 taps -2\n\
        sink t9 X3 until 8\nsink t7 X0\nsource t0 f2 -> X0\nsink t8 X1\n",
        "9\n-7\n8\n2\n1\n;5\n;",
        "t9 5\n9\n-24\n15\n14\n5\nt7 5\n5\n-7\n8\n2\n1\nt8 3\n5\n8\n1\n",
    ),
    // seed 213
    (
        "phaser X0 sum 1\nphaser X1 least 2\nphaser X2 sum 4\nphaser X3 greatest 1\n\
        phaser X4 sum 3\nphaser X5 sum 64 single halve\nphaser X6 sum 4\nsink t8 X4\n\
        sink t6 X0\npeer t5 X2 <-> X5 -> X6 mul 0\nfir t3 X1 -> X2 shift 0 taps -3 -2 3\n\
        split t1 X0 -> X1 X2 X3\njoin t2 X0 X1 X2 -> X4\nsink t7 X2\nsource t0 f0 -> X0\n\
        peer t4 X3 <-> X5 -> X6 mul 2\n",
        "8\n7\n0\n-4\n2\n4\n7\n-3\n1\n8\n5\n5\n-3\n",
        "stalled\n",
    ),
    // seed 227
    (
        "phaser X0 least 1\nphaser X1 least 4\nphaser X2 sum 1\nsource t2 f0 -> X1\nsink t7 X1\n\
        sink t6 X0\nsource t1 f1 -> X0\nsource t3 f2 -> X1 until 7\nsink t8 X1\n\
        split t4 X0 -> X1 X2\nsink t5 X0 until 7\nsink t9 X2\nsource t0 f3 -> X0\n",
        "5\n9\n-2\n;-7\n-2\n6\n;-9\n-6\n;4\n4\n-8\n",
        "t7 3\n-9\n-8\n-2\nt6 3\n-7\n-2\n-8\nt8 3\n-9\n-8\n-2\nt5 3\n-7\n-2\n-8\nt9 1\n-2\n",
    ),
    // seed 238
    (
        "phaser X0 sum 1\nphaser X1 sum 3\nphaser X2 least 64 single neg\nphaser X3 sum 8\n\
        source t1 f0 -> X1\nsink t5 X1\nsink t7 X3\nsink t6 X2\nsource t2 f1 -> X1\n\
        peer t3 X0 <-> X2 -> X3 mul 3\nsink t4 X0\nsource t0 f2 -> X0\n",
        ";-1\n-5\n-2\n4\n-6\n;-6\n8\n",
        "t5 5\n-1\n-5\n-2\n4\n-6\nt7 2\n-24\n32\nt6 2\n6\n-8\nt4 2\n-6\n8\n",
    ),
    // seed 298
    (
        "phaser X0 sum 2\nphaser X1 sum 4\nphaser X2 greatest 4\nphaser X3 sum 64\n\
        source t0 f0 -> X0\nsink t6 X3\nfir t1 X0 -> X1 shift 0 taps 0 -2 -2\n\
        fir t3 X0 -> X1 shift 1 taps -2 -1 -3 1\nsink t5 X1\nsink t4 X0\n\
        split t2 X0 -> X1 X2 X3\n",
        "5\n5\n7\n8\n-9\n-1\n0\n5\n-5\n-9\n6\n8\n4\n6\n7\n0\n-8\n-8\n-8\n-4\n-4\n",
        "stalled\n",
    ),
    // seed 336
    (
        "phaser X0 sum 2\nphaser X1 sum 64\nphaser X2 sum 8\nsource t0 f0 -> X0\n\
        fir t3 X0 -> X1 shift 2 taps 0 3\nsource t1 f1 -> X0\nsink t6 X1\nsink t5 X0\n\
        source t2 f2 -> X0\njoin t4 X0 X1 -> X2\n",
        "-4\n5\n-9\n6\n8\n1\n-7\n4\n;-4\n2\n1\n-3\n-1\n;-3\n3\n-8\n",
        "t6 8\n0\n-9\n7\n-12\n2\n5\n0\n-6\nt5 8\n-11\n10\n-16\n3\n7\n1\n-7\n4\n",
    ),
    // seed 364
    (
        "phaser X0 sum 1\nphaser X1 sum 8\nphaser X2 product 2\nphaser X3 sum 3\n\
        phaser X4 sum 64\nfir t1 X0 -> X1 shift 1 taps 2 2 -2 1 until 3\nsink t6 X2\n\
        sink t5 X1\nsink t8 X4\nsink t7 X3\npeer t2 X1 <-> X2 -> X3 mul 3\n\
        peer t4 X0 <-> X2 -> X4 mul -1\npeer t3 X0 <-> X2 -> X3 mul 2\n\
        source t0 f0 -> X0 until 3\n",
        "-2\n-5\n7\n-3\n-4\n-8\n-1\n-5\n",
        "t6 3\n-8\n-175\n196\nt5 3\n-2\n-7\n4\nt8 3\n10\n180\n-203\nt7 3\n6\n319\n-366\n",
    ),
    // seed 374
    (
        "phaser X0 any 2\nphaser X1 sum 3\nphaser X2 sum 1\nphaser X3 sum 4\nsource t0 f0 -> X0\n\
        sink t9 X3\nsource t2 f1 -> X1 until 4\nsink t7 X1\nsink t5 X0\nsource t1 f2 -> X1\n\
        sink t6 X1\nfir t3 X1 -> X2 shift 2 taps 0 -2\nsink t8 X2\n\
        fir t4 X2 -> X3 shift 1 taps 3 -1 0\n",
        "6\n-1\n4\n;-2\n-8\n-9\n0\n9\n;2\n6\n",
        "t9 4\n0\n0\n1\n5\nt7 4\n0\n-2\n-9\n0\nt5 3\n6\n-1\n4\nt6 4\n0\n-2\n-9\n0\nt8 4\n0\n0\n\
        1\n4\n",
    ),
    // seed 431
    (
        "phaser X0 sum 1\nphaser X1 sum 8\nphaser X2 least 4 single neg\nphaser X3 sum 8\n\
        source t2 f0 -> X1\nsource t1 f1 -> X0\npeer t3 X0 <-> X2 -> X3 mul -1\nsink t5 X0\n\
        sink t9 X3\nsink t4 X0\nsource t0 f2 -> X0\nsink t8 X3\nsink t6 X1\nsink t7 X1\n",
        "7\n-4\n;2\n-7\n0\n;-3\n7\n",
        "t5 3\n-1\n0\n0\nt9 3\n0\n0\n0\nt4 3\n-1\n0\n0\nt8 3\n0\n0\n0\nt6 2\n7\n-4\nt7 2\n7\n-4\n",
    ),
    // seed 438
    (
        "phaser X0 sum 3\nphaser X1 sum 8\nphaser X2 greatest 4\nphaser X3 sum 3\n\
        sink t8 X3 until 8\nsplit t3 X0 -> X1 X2\nsource t0 f0 -> X0\nsink t6 X1\n\
        source t2 f1 -> X0\nsink t7 X2\nsink t9 X3\njoin t4 X0 X1 X2 -> X3\nsource t1 f2 -> X0\n\
        fir t5 X1 -> X2 shift 1 taps 0 3 1 -1\n",
        "-8\n-9\n-5\n3\n3\n-2\n-5\n-8\n-1\n-5\n-3\n6\n-4\n;-6\n-5\n9\n2\n-9\n;-1\n-9\n",
        "stalled\n",
    ),
    // seed 444
    (
        "phaser X0 sum 64\nphaser X1 product 1\nphaser X2 least 8\nphaser X3 product 8\n\
        sink t5 X1\nsink t6 X2\nsource t0 f0 -> X0\nsink t7 X3 until 4\nsplit t2 X0 -> X1 X2\n\
        join t3 X1 X2 -> X3\nsink t4 X0\nsource t1 f1 -> X1 until 0\n",
        "7\n5\n8\n0\n6\n;",
        "t5 3\n7\n8\n6\nt6 2\n5\n0\nt7 4\n7\n5\n8\n0\nt4 5\n7\n5\n8\n0\n6\n",
    ),
];

#[test]
fn graphs_made_at_random(rt: HostRuntime) -> Result<(), Fail> {
    for (graph, samples, wanted) in GRAPHS {
        let samples: Vec<&str> = samples.split(";").collect(rt.alloc())?;
        let job = job_of(rt.alloc(), graph, samples.as_slice())?;
        for workers in [1, 2, 4, 16] {
            let told = told(&rt, rt.alloc(), &job, workers, &Open)?;
            assert_eq!(rt; told.as_str(), wanted, "by {workers} workers:\n{graph}");
        }
    }
    Ok(())
}
