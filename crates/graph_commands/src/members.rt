//! Which tasks signal a phaser, and which take from it.

use graph_base::{Graph, Kind, TaskLine};

/// Whether a task signals phaser number `p`.
pub(crate) fn signals(task: &TaskLine, p: usize) -> bool {
    let is_exchange = matches!(task.kind, Kind::Peer) && task.inputs.last() == Some(&p);
    is_exchange || task.outputs.iter().any(|output| *output == p)
}

/// Whether a task takes from phaser number `p`.
pub(crate) fn takes(task: &TaskLine, p: usize) -> bool {
    task.inputs.iter().any(|input| *input == p)
}

/// Whether some task signals phaser number `p`.
pub(crate) fn is_signalled(graph: &Graph, p: usize) -> bool {
    for t in 0..graph.tasks() {
        if signals(graph.task(t), p) {
            return true;
        }
    }
    false
}

/// Whether some task takes from phaser number `p`.
pub(crate) fn is_taken(graph: &Graph, p: usize) -> bool {
    for t in 0..graph.tasks() {
        if takes(graph.task(t), p) {
            return true;
        }
    }
    false
}
