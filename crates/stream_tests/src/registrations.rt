//! What the tasks of a graph are registered for.

use graph_lang::{Graph, Mode, Registration, read_graph};
use std::alloc::Global;
use std::test::Fail;

/// What a task is registered for: an input or an output, with its number and its phaser, or a
/// peer's exchange.
#[derive(Clone, Copy)]
enum End {
    Input(usize, usize),
    Output(usize, usize),
    Exchange(usize, Mode),
}

fn registration_of(end: End) -> Registration {
    match end {
        End::Input(number, phaser) => Registration {
            phaser,
            mode: Mode::Wait,
            input: Some(number),
            output: None,
        },
        End::Output(number, phaser) => Registration {
            phaser,
            mode: Mode::Sig,
            input: None,
            output: Some(number),
        },
        End::Exchange(phaser, mode) => Registration {
            phaser,
            mode,
            input: Some(1),
            output: Some(0),
        },
    }
}

/// Whether these are the registrations of task number `t`.
fn has(graph: &Graph, t: usize, wanted: &[End]) -> bool {
    if t >= graph.tasks() || graph.registrations(t) != wanted.len() {
        return false;
    }
    for k in 0..wanted.len() {
        if graph.registration(t, k) != registration_of(wanted[k]) {
            return false;
        }
    }
    true
}

/// A graph's text, and the registrations of each task in turn.
struct Case {
    name: &'static str,
    text: &'static str,
    tasks: &'static [&'static [End]],
}

static CASES: [Case; 2] = [
    Case {
        name: "each kind has its registrations",
        text: "phaser A sum 1\nphaser B sum 1\nphaser C sum 1\nphaser D sum 1\n\
            source s s.csv -> A\nsplit t A -> B C\njoin j B C -> D\n\
            fir f A -> D shift 0 taps 1\nsink o D",
        tasks: &[
            &[End::Output(0, 0)],
            &[End::Input(0, 0), End::Output(0, 1), End::Output(1, 2)],
            &[End::Input(0, 1), End::Input(1, 2), End::Output(0, 3)],
            &[End::Input(0, 0), End::Output(0, 3)],
            &[End::Input(0, 3)],
        ],
    },
    Case {
        name: "a peer is registered on its exchange once",
        text: "phaser X sum 1\nphaser E sum 1\nphaser F sum 1 single neg\nphaser Y sum 1\n\
            peer p X <-> E -> Y mul 1\npeer q X <-> F -> Y mul 1",
        tasks: &[
            &[
                End::Input(0, 0),
                End::Exchange(1, Mode::SigWait),
                End::Output(1, 3),
            ],
            &[
                End::Input(0, 0),
                End::Exchange(2, Mode::Single),
                End::Output(1, 3),
            ],
        ],
    },
];

/// The first task of the graph of a text that has others.
fn first_wrong(alloc: Global, text: &str, tasks: &[&[End]]) -> Result<Option<usize>, Fail> {
    let graph = read_graph(alloc, text.as_bytes())?;
    for t in 0..tasks.len() {
        if !has(&graph, t, tasks[t]) {
            return Ok(Some(t));
        }
    }
    Ok(None)
}

#[test]
fn tasks_have_their_registrations(rt: HostRuntime) -> Result<(), Fail> {
    for case in &CASES {
        let wrong = first_wrong(rt.alloc(), case.text, case.tasks)?;
        assert_eq!(rt; wrong, None, "{}", case.name);
    }
    Ok(())
}
