//! The nodes of a drawing.
ghost use Rattle.std.specs.Prelude.{◌≡◌, ◌++◌, ◌<◌, length, OnOk};
ghost use Rattle.std.specs.List.{flat_map, range_with_len};
ghost use Rattle.phase_base.specs.OperationWords.{operation_word};
ghost use Rattle.graph_show.specs.Drawings.{kind_word, node_end, node_start, phaser_node, phaser_notes, task_node, task_notes, task_word};
ghost use Rattle.graph_base.specs.GraphFields.{task_of};

use crate::notes::{
    is_delay, put_block_note, put_kind_notes, put_now_note, put_single_note, put_until_note,
};
use crate::parts::put;
use graph_base::{PhaserLine, TaskLine};
use graph_lang::{Graph, Kind, Op, Place};
use itoa::Buffer;
use std::alloc::AllocError;

/// The word of an operation.
fn operation_word(op: Op) -> &'static str
    ensures { result.now ≡ operation_word op }
{
    match op {
        Op::Sum => "sum",
        Op::Product => "product",
        Op::Least => "least",
        Op::Greatest => "greatest",
        Op::Any => "any",
    }
}

/// The word of a kind of task.
fn kind_word(kind: Kind) -> &'static str
    ensures { result.now ≡ kind_word kind }
{
    match kind {
        Kind::Source => "source",
        Kind::Fir => "fir",
        Kind::Split => "split",
        Kind::Decimate => "decimate",
        Kind::Join => "join",
        Kind::Peer => "peer",
        Kind::Sink => "sink",
    }
}

/// The first word of the line of a task: a filter that copies an older sample is told as a delay.
fn task_word(task: &TaskLine) -> &'static str
    ensures { result.now ≡ task_word (task_of task.now) }
{
    if is_delay(&task.form, &task.taps) {
        return "delay";
    }
    kind_word(task.kind)
}

/// Puts the first part of a node behind the text: its name and shape.
fn put_start(text: &mut Vec<u8>, name: &str, shape: &str) -> Result<(), AllocError>
    ensures ok { OnOk result (text.new.items ≡ text.old.items ++ node_start name.now shape.now) }
{
    let parts = ["    \"", name, "\" [shape=", shape, ", label=\"", name];
    put(text, parts.as_slice())
}

/// Puts the last part of a node behind the text.
fn put_end(text: &mut Vec<u8>) -> Result<(), AllocError>
    ensures ok { OnOk result (text.new.items ≡ text.old.items ++ node_end) }
{
    put(text, ["\"];\n"].as_slice())
}

/// Puts what the node of a phaser says behind the text.
fn put_phaser_notes(text: &mut Vec<u8>, line: &PhaserLine) -> Result<(), AllocError>
    ensures ok { OnOk result (text.new.items ≡ text.old.items ++ phaser_notes line.now) }
{
    let mut buffer = Buffer::new();
    let bound = buffer.format(line.bound);
    let parts = ["\\n", operation_word(line.op), " ", bound];
    put(text, parts.as_slice())?;
    put_single_note(text, line.single)
}

/// Puts the node of phaser number `p` behind the text.
fn put_phaser(text: &mut Vec<u8>, graph: &Graph, p: usize) -> Result<(), AllocError>
    requires { p < length graph.now.phasers }
    ensures ok { OnOk result (text.new.items ≡ text.old.items ++ phaser_node graph.now p) }
{
    put_start(text, graph.name(Place::Phaser(p)), "ellipse")?;
    put_phaser_notes(text, graph.phaser(p))?;
    put_end(text)
}

/// Puts the nodes of all phasers behind the text.
pub(crate) fn put_phasers(text: &mut Vec<u8>, graph: &Graph) -> Result<(), AllocError>
    ensures ok { OnOk result (text.new.items ≡ text.old.items
        ++ flat_map (phaser_node graph.now) (range_with_len 0 (length graph.now.phasers))) }
{
    for p in 0..graph.phasers() {
        put_phaser(text, graph, p)?;
    }
    Ok(())
}

/// Puts what the node of task number `t` says behind the text.
fn put_task_notes(text: &mut Vec<u8>, graph: &Graph, t: usize) -> Result<(), AllocError>
    requires { t < length graph.now.tasks }
    ensures ok { OnOk result (text.new.items ≡ text.old.items ++ task_notes graph.now t) }
{
    let task = graph.task(t);
    put(text, ["\\n", task_word(task)].as_slice())?;
    put_kind_notes(text, graph, t)?;
    put_until_note(text, task.until)?;
    put_now_note(text, task.joins_now)?;
    put_block_note(text, task.block)
}

/// Puts the node of task number `t` behind the text.
fn put_task(text: &mut Vec<u8>, graph: &Graph, t: usize) -> Result<(), AllocError>
    requires { t < length graph.now.tasks }
    ensures ok { OnOk result (text.new.items ≡ text.old.items ++ task_node graph.now t) }
{
    put_start(text, graph.name(Place::Task(t)), "box")?;
    put_task_notes(text, graph, t)?;
    put_end(text)
}

/// Puts the nodes of all tasks behind the text.
pub(crate) fn put_tasks(text: &mut Vec<u8>, graph: &Graph) -> Result<(), AllocError>
    ensures ok { OnOk result (text.new.items ≡ text.old.items
        ++ flat_map (task_node graph.now) (range_with_len 0 (length graph.now.tasks))) }
{
    for t in 0..graph.tasks() {
        put_task(text, graph, t)?;
    }
    Ok(())
}
